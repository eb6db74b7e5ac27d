// A map from keys to what they hold: how places are made, taken back and written.
ghost use Rattle.std.specs.Prelude.{◌≡◌, ℕ, List, Some, IsSome, IfOk, OnOk, OnErr, if◌then◌else◌};
ghost use Rattle.std.specs.Ordering.{nat_cmp};
ghost use Rattle.std.specs.Cmp.Lexicographic.{slice_cmp};
ghost use Rattle.std.specs.BTreeMap.{IsUnchanged, Updates, get};
ghost use Rattle.version_store.specs.Store.{held_after, held_at};
ghost use Rattle.version_store.specs.Places.{GetsPlace, without};

use crate::held::Held;
use helios_model::{Bytes, Key, TxnId, Val, WriteItem};
use std::alloc::{AllocError, Global};
use std::collections::BTreeMap;

// Writes what a key that has a place holds.
fn put(places: &mut BTreeMap<Key, Held>, key: &Key, held: Held)
    requires { IsSome (get (slice_cmp nat_cmp) places.old key.now) }
    ensures { Updates (slice_cmp nat_cmp) places.old places.new key.now (Some held) }
{
    *places.get_mut(key).unwrap() = held;
}

// Gives a key a place, and says whether it had none.
fn make_place(
    places: &mut BTreeMap<Key, Held>,
    alloc: Global,
    id: &TxnId,
    key: &Key,
) -> Result<bool, AllocError>
    ensures made { IfOk result (λ made. GetsPlace key.now made places.old.entries places.new.entries) }
    ensures as_before { OnErr result (IsUnchanged places.old places.new) }
{
    if places.contains_key(key) {
        return Ok(false);
    }
    let value = Val::new(Bytes::new(Vec::new(alloc))).unwrap();
    places.insert(key.copy()?, Held { id: *id, value })?;
    Ok(true)
}

// Takes a place back that was made.
fn take_back(places: &mut BTreeMap<Key, Held>, key: &Key, made: bool)
    ensures { places.new.entries ≡ without key.now made places.old.entries }
{
    if made {
        let _ = places.remove(key);
    }
}

// Writes each of these under its key; the first of a key stands in the end.
pub(crate) fn write_all(
    places: &mut BTreeMap<Key, Held>,
    alloc: Global,
    id: &TxnId,
    writes: &[WriteItem],
) -> Result<(), AllocError>
    ensures written { OnOk result ((key : List ℕ) → held_at places.new.entries key ≡ held_after id.now writes.now (held_at places.old.entries key) key) }
    ensures as_before { OnErr result (IsUnchanged places.old places.new) }
{
    match writes {
        [] => Ok(()),
        [first, rest @ ..] => {
            let value = first.value.copy()?;
            let held = Held { id: *id, value };
            let made = make_place(places, alloc, id, &first.key)?;
            match write_all(places, alloc, id, rest) {
                Ok(()) => {
                    put(places, &first.key, held);
                    Ok(())
                }
                Err(refused) => {
                    take_back(places, &first.key, made);
                    Err(refused)
                }
            }
        }
    }
}
