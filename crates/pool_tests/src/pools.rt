use helios_model::{
    Bytes, Key, Prepare, ReadItem, Reads, SiteId, Time, TxnId, Val, Version, WriteItem, Writes,
};
use prepare_pools::Pools;
use std::alloc::{AllocError, Global};
use std::test::Fail;

fn key(alloc: Global, text: &str) -> Result<Key, Fail> {
    let bytes = Vec::from_slice(alloc, text.as_bytes())?;
    Ok(Key::new(Bytes::new(bytes)).ok_or("a key")?)
}

/// A transaction that reads one key and writes another.
fn transaction(
    alloc: Global,
    site: u8,
    time: u64,
    read: &str,
    written: &str,
) -> Result<Prepare, Fail> {
    let site = SiteId::new(site).ok_or("a site")?;
    let value = Val::new(Bytes::new(Vec::new(alloc))).ok_or("a value")?;
    let read = ReadItem {
        key: key(alloc, read)?,
        version: Version::Initial,
    };
    let written = WriteItem {
        key: key(alloc, written)?,
        value,
        over: Version::Initial,
    };
    let reads = Reads::new(vec![in alloc; read]?);
    let writes = Writes::new(vec![in alloc; written]?);
    let id = TxnId {
        site,
        time: Time::of(time),
    };
    Ok(Prepare::new(id, reads, writes).ok_or("a transaction")?)
}

fn add(pools: &mut Pools, p: Prepare) -> Result<(), AllocError> {
    if !pools.holds(p.id()) {
        pools.add(p)?;
    }
    Ok(())
}

fn id(time: u64) -> TxnId {
    TxnId {
        site: SiteId::of(0),
        time: Time::of(time),
    }
}

/// What some pools tell of an asked transaction before and after one of theirs is removed.
#[derive(Debug, Drop, PartialEq)]
struct Told {
    own: Vec<TxnId>,
    first: Option<TxnId>,
    conflicts: Vec<TxnId>,
    removed: bool,
    open: u64,
    touching: usize,
}

fn tell(alloc: Global, removed: TxnId) -> Result<Told, Fail> {
    let own = SiteId::of(0);
    let mut pools = Pools::new(alloc)?;
    add(&mut pools, transaction(alloc, 0, 9, "a", "b")?)?;
    add(&mut pools, transaction(alloc, 1, 7, "c", "d")?)?;
    add(&mut pools, transaction(alloc, 0, 5, "d", "e")?)?;
    let asked = transaction(alloc, 0, 11, "b", "d")?;
    let ids = pools.own_ids(own)?.items().to_vec(alloc)?;
    let first = pools.first_conflict(&asked);
    let conflicts = pools.own_conflicts(own, &asked)?.items().to_vec(alloc)?;
    let was_held = pools.remove(removed).is_some();
    Ok(Told {
        own: ids,
        first,
        conflicts,
        removed: was_held && !pools.holds(removed),
        open: pools.own_open(own),
        touching: pools.touching(&key(alloc, "d")?).len(),
    })
}

#[test]
fn what_is_held_is_found_until_it_is_removed(rt: HostRuntime) -> Result<(), Fail> {
    let alloc = rt.alloc();
    let (first, last) = (id(9), id(5));
    let wanted = Told {
        own: vec![in alloc; first, last]?,
        first: Some(first),
        conflicts: vec![in alloc; first, last]?,
        removed: true,
        open: 1,
        touching: 2,
    };
    assert_eq!(rt; tell(alloc, first)?, wanted);
    Ok(())
}
