// The texts of histories and records.
use helios_model::{
    Bytes, CommitEvent, Commits, Key, Prepare, ReadItem, Reads, Record, Records, SiteId, Time,
    TxnId, Val, Version, WriteItem, Writes,
};
use history_audit::{AuditVerdict, audit, print_history, print_records, read_history};
use std::alloc::Global;
use std::test::Fail;

fn key(alloc: Global, text: &[u8]) -> Result<Key, Fail> {
    Ok(Key::new(Bytes::new(text.to_vec(alloc)?)).ok_or("a key")?)
}

fn id(site: u8, time: u64) -> Result<TxnId, Fail> {
    let site = SiteId::new(site).ok_or("a site")?;
    Ok(TxnId {
        site,
        time: Time::of(time),
    })
}

fn write(alloc: Global, text: &[u8], value: &[u8], over: Version) -> Result<WriteItem, Fail> {
    let value = Val::new(Bytes::new(value.to_vec(alloc)?)).ok_or("a value")?;
    Ok(WriteItem {
        key: key(alloc, text)?,
        value,
        over,
    })
}

fn reads_of(alloc: Global, text: &[u8], version: Version) -> Result<Reads, Fail> {
    let read = ReadItem {
        key: key(alloc, text)?,
        version,
    };
    Ok(Reads::new(vec![in alloc; read]?))
}

fn first(alloc: Global) -> Result<Prepare, Fail> {
    let write = write(alloc, b"x", b"v1", Version::Initial)?;
    let reads = Reads::new(Vec::new(alloc));
    let writes = Writes::new(vec![in alloc; write]?);
    Ok(Prepare::new(id(0, 1000)?, reads, writes).ok_or("a transaction")?)
}

fn second(alloc: Global) -> Result<Prepare, Fail> {
    let over = Version::Of(id(0, 1000)?);
    let write = write(alloc, b"x", b"", over)?;
    let reads = reads_of(alloc, b"x", over)?;
    let writes = Writes::new(vec![in alloc; write]?);
    Ok(Prepare::new(id(0, 1002)?, reads, writes).ok_or("a transaction")?)
}

fn commits(alloc: Global) -> Result<Commits, Fail> {
    let first = CommitEvent {
        prepare: first(alloc)?,
        time: Time::of(1001),
    };
    let second = CommitEvent {
        prepare: second(alloc)?,
        time: Time::of(1003),
    };
    Ok(Commits::new(vec![in alloc; first, second]?))
}

#[test]
fn a_history_is_printed_and_passes_its_audit(rt: HostRuntime) -> Result<(), Fail> {
    let alloc = rt.alloc();
    let text = print_history(alloc, &commits(alloc)?)?;
    let none = print_history(alloc, &Commits::new(Vec::new(alloc)))?;
    let history = read_history(alloc, text.items())?;
    let count = match audit(alloc, &history)? {
        AuditVerdict::Serial(count) => count,
        AuditVerdict::NotSerial { .. } => 99,
    };
    let mut all = text.into_items();
    all.extend_from_slice(none.items())?;
    all.extend_from_slice(format!(in alloc; "{count}")?.as_bytes())?;
    assert_eq!(rt;
        all.as_slice(),
        b"[{\"id\":\"0@1000\",\"reads\":[],\"writes\":[\"x\"]},{\"id\":\"0@1002\",\"reads\":[[\"x\",\"0@1000\"]],\"writes\":[\"x\"]}]\n[]\n2".as_slice()
    );
    Ok(())
}

#[test]
fn records_are_printed(rt: HostRuntime) -> Result<(), Fail> {
    let alloc = rt.alloc();
    let id = id(0, 1000)?;
    let commit = Record::Commit {
        id,
        time: Time::of(1001),
    };
    let records = Records::new(vec![in alloc; Record::Prepare(first(alloc)?), commit]?);
    let mut all = print_records(alloc, id.site, &records)?.into_items();
    let cause = TxnId {
        site: SiteId::new(1).ok_or("a site")?,
        time: Time::of(7),
    };
    let abort = Record::Abort {
        id,
        time: Time::of(1003),
        cause,
    };
    let more = Records::new(vec![in alloc; Record::Prepare(second(alloc)?), abort]?);
    all.extend_from_slice(print_records(alloc, cause.site, &more)?.items())?;
    all.extend_from_slice(print_records(alloc, id.site, &Records::new(Vec::new(alloc)))?.items())?;
    assert_eq!(rt;
        all.as_slice(),
        b"{\"records\":[{\"prepare\":\"0@1000\",\"reads\":[],\"writes\":[[\"x\",\"7631\",\"initial\"]]},{\"commit\":\"0@1000\",\"time\":1001}],\"site\":0}\n{\"records\":[{\"prepare\":\"0@1002\",\"reads\":[[\"x\",\"0@1000\"]],\"writes\":[[\"x\",\"\",\"0@1000\"]]},{\"abort\":\"0@1000\",\"cause\":\"1@7\",\"time\":1003}],\"site\":1}\n{\"records\":[],\"site\":0}\n".as_slice()
    );
    Ok(())
}
