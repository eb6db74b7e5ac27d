// Each copy is equal to what it was made from, with ample memory; conflicts are the same from both sides.
use helios_model::{
    Ask, Bytes, Key, Keys, Message, Name, Names, Places, Prepare, PutItem, Puts, ReadItem, Reads,
    Record, Records, SiteId, Time, Times, TxnId, TxnIds, Val, Version, WriteItem, Writes,
    conflicts,
};
use std::alloc::{AllocError, Global};
use std::test::Fail;

fn bytes(alloc: Global, text: &str) -> Result<Bytes, AllocError> {
    Ok(Bytes::new(text.as_bytes().to_vec(alloc)?))
}

fn key(alloc: Global, text: &str) -> Result<Key, Fail> {
    Ok(Key::new(bytes(alloc, text)?).ok_or("a key")?)
}

fn value(alloc: Global, text: &str) -> Result<Val, Fail> {
    Ok(Val::new(bytes(alloc, text)?).ok_or("a value")?)
}

fn id(time: u64) -> TxnId {
    TxnId {
        site: SiteId::of(0),
        time: Time::of(time),
    }
}

fn reads(alloc: Global, text: &str) -> Result<Reads, Fail> {
    let key = key(alloc, text)?;
    let version = Version::Initial;
    Ok(Reads::new(vec![in alloc; ReadItem { key, version }]?))
}

fn writes(alloc: Global, text: &str) -> Result<Writes, Fail> {
    let key = key(alloc, text)?;
    let value = value(alloc, "v")?;
    let over = Version::Of(id(1));
    Ok(Writes::new(vec![in alloc; WriteItem { key, value, over }]?))
}

fn puts(alloc: Global, text: &str) -> Result<Puts, Fail> {
    let key = key(alloc, text)?;
    let value = value(alloc, "v")?;
    Ok(Puts::new(vec![in alloc; PutItem { key, value }]?))
}

/// A transaction that reads one key and writes another.
fn transaction(alloc: Global, read: &str, written: &str) -> Result<Prepare, Fail> {
    let reads = reads(alloc, read)?;
    let writes = writes(alloc, written)?;
    Ok(Prepare::new(id(2), reads, writes).ok_or("a transaction")?)
}

#[test]
fn bytes_and_places_are_copied(rt: HostRuntime) -> Result<(), Fail> {
    let text = bytes(rt.alloc(), "abc")?.copy()?;
    assert_eq!(rt; text.items(), b"abc".as_slice());
    let places = Places::new([2, 0, 1].to_vec(rt.alloc())?).copy()?;
    assert_eq!(rt; places.items(), [2, 0, 1].as_slice());
    Ok(())
}

#[test]
fn times_and_ids_are_copied(rt: HostRuntime) -> Result<(), Fail> {
    let times = Times::new([5, 6].to_vec(rt.alloc())?).copy()?;
    assert_eq!(rt; times.items(), [5, 6].as_slice());
    let ids = TxnIds::new(vec![in rt.alloc(); id(7)]?).copy()?;
    assert_eq!(rt; ids.items(), [id(7)].as_slice());
    Ok(())
}

#[test]
fn names_are_copied(rt: HostRuntime) -> Result<(), Fail> {
    let name = Name::new(String::from_str(rt.alloc(), "A")?).copy()?;
    assert_eq!(rt; name.text(), "A");
    let names = Names::new(vec![in rt.alloc(); name]?).copy()?;
    assert_eq!(rt; names.items().len(), 1);
    Ok(())
}

#[test]
fn keys_and_values_are_copied(rt: HostRuntime) -> Result<(), Fail> {
    let key = key(rt.alloc(), "x")?.copy()?;
    assert_eq!(rt; key.items(), b"x".as_slice());
    let keys = Keys::new(vec![in rt.alloc(); key]?).copy()?;
    assert_eq!(rt; keys.items().len(), 1);
    Ok(())
}

#[test]
fn values_and_puts_are_copied(rt: HostRuntime) -> Result<(), Fail> {
    let value = value(rt.alloc(), "v1")?.copy()?;
    assert_eq!(rt; value.items(), b"v1".as_slice());
    let puts = puts(rt.alloc(), "x")?.copy()?;
    assert_eq!(rt; puts.items().len(), 1);
    Ok(())
}

#[test]
fn transactions_are_copied(rt: HostRuntime) -> Result<(), Fail> {
    let p = transaction(rt.alloc(), "x", "y")?.copy()?;
    assert_eq!(rt; p.id(), id(2));
    assert_eq!(rt; p.reads().copy()?.items().len(), 1);
    assert_eq!(rt; p.writes().copy()?.items().len(), 1);
    Ok(())
}

#[test]
fn requests_are_copied(rt: HostRuntime) -> Result<(), Fail> {
    let reads = reads(rt.alloc(), "x")?;
    let puts = puts(rt.alloc(), "y")?;
    let ask = Ask::new(reads, puts).ok_or("a request")?.copy()?;
    assert_eq!(rt; ask.reads().items().len(), 1);
    assert_eq!(rt; ask.puts().items().len(), 1);
    Ok(())
}

#[test]
fn messages_are_copied(rt: HostRuntime) -> Result<(), Fail> {
    let commit = Record::Commit {
        id: id(7),
        time: Time::of(8),
    };
    let message = Message {
        from: SiteId::of(0),
        to: SiteId::of(1),
        count: 2,
        table: Times::new(vec![in rt.alloc(); 9, 0, 0, 3]?),
        cover: Times::new(vec![in rt.alloc(); 9, 0]?),
        records: Records::new(vec![in rt.alloc(); commit]?),
    };
    let copied = message.copy(rt.alloc())?;
    assert_eq!(rt;
        (copied.from, copied.to, copied.count),
        (message.from, message.to, 2)
    );
    assert_eq!(rt; copied.table.items(), message.table.items());
    assert_eq!(rt; copied.cover.items(), message.cover.items());
    for r in copied.records.items() {
        assert_eq!(rt; (r.id(), r.own_time()), (id(7), Time::of(8)));
    }
    assert_eq!(rt; copied.records.items().len(), 1);
    Ok(())
}

#[test]
fn conflicts_are_symmetric(rt: HostRuntime) -> Result<(), Fail> {
    let cases = [
        ("x", "z", false),
        ("y", "z", true),
        ("z", "x", true),
        ("z", "y", true),
        ("z", "z", false),
    ];
    let p = transaction(rt.alloc(), "x", "y")?;
    for (read, written, want) in cases {
        let q = transaction(rt.alloc(), read, written)?;
        assert_eq!(rt; conflicts(&p, &q), want);
        assert_eq!(rt; conflicts(&q, &p), want);
    }
    Ok(())
}
