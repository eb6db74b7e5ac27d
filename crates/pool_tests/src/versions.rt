ghost use Rattle.std.specs.Prelude.{◌<◌};

use helios_model::{Bytes, Key, SiteId, Time, TxnId, Val, Version, WriteItem, Writes};
use std::alloc::Global;
use std::test::Fail;
use version_store::Store;

fn key(alloc: Global, text: &str) -> Result<Key, Fail> {
    let bytes = Vec::from_slice(alloc, text.as_bytes())?;
    Ok(Key::new(Bytes::new(bytes)).ok_or("a key")?)
}

fn write(alloc: Global, text: &str, value: &str) -> Result<WriteItem, Fail> {
    let bytes = Vec::from_slice(alloc, value.as_bytes())?;
    Ok(WriteItem {
        key: key(alloc, text)?,
        value: Val::new(Bytes::new(bytes)).ok_or("a value")?,
        over: Version::Initial,
    })
}

/// The versions of three keys, of which two transactions wrote two, and the values as text.
fn currents(alloc: Global, first: TxnId, second: TxnId) -> Result<Vec<(Version, Vec<u8>)>, Fail> {
    let mut store = Store::new(alloc)?;
    let both = vec![in alloc; write(alloc, "x", "1")?, write(alloc, "y", "2")?]?;
    store.apply(first, &Writes::new(both))?;
    let one = vec![in alloc; write(alloc, "x", "3")?]?;
    store.apply(second, &Writes::new(one))?;
    let mut currents = Vec::new(alloc);
    for name in ["x", "y", "z"] {
        let (version, value) = store.current(&key(alloc, name)?);
        currents.push((version, value.to_vec(alloc)?))?;
    }
    Ok(currents)
}

fn id(site: u8, time: u64) -> TxnId
    requires { site < 2 }
{
    TxnId {
        site: SiteId::of(site),
        time: Time::of(time),
    }
}

#[test]
fn a_write_replaces_the_value_of_its_key_alone(rt: HostRuntime) -> Result<(), Fail> {
    let alloc = rt.alloc();
    let (first, second) = (id(0, 5), id(1, 9));
    let wanted = vec![in alloc;
        (Version::Of(second), b"3".to_vec(alloc)?),
        (Version::Of(first), b"2".to_vec(alloc)?),
        (Version::Initial, Vec::new(alloc)),
    ]?;
    assert_eq!(rt; currents(alloc, first, second)?, wanted);
    Ok(())
}
