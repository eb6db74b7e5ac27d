//! Whether each transaction of a history read the versions that were current before it.
ghost use Rattle.std.specs.Prelude.{◌≡◌, ℕ, List, Some, IsSome, IfOk, OnOk, if◌then◌else◌, option_map};
ghost use Rattle.std.specs.BTreeMap.{Updates, get};
ghost use Rattle.std.specs.Cmp.Lexicographic.{slice_cmp};
ghost use Rattle.std.specs.Ordering.{nat_cmp};
ghost use Rattle.helios_model.specs.Texts.{contains_text};
ghost use Rattle.helios_model.specs.declared.ids.Version.TheVariants.{Of};
ghost use Rattle.history_audit.specs.Auditing.{audit_of, first_stale};
ghost use Rattle.history_audit.specs.declared.verdict.AuditVerdict.TheVariants.{NotSerial};
ghost use Rattle.history_audit.specs.Versions.{version_in};

use crate::history::History;
use crate::verdict::AuditVerdict;
use helios_model::{Key, ReadItem, TxnId, Version};
use std::alloc::{AllocError, Global};
use std::collections::BTreeMap;

fn current(versions: &BTreeMap<Key, TxnId>, key: &Key) -> Version
    ensures { result ≡ version_in versions.now.entries key.now }
{
    match versions.get(key) {
        Some(id) => Version::Of(*id),
        None => Version::Initial,
    }
}

fn first_stale<'a>(versions: &BTreeMap<Key, TxnId>, reads: &'a [ReadItem]) -> Option<&'a ReadItem>
    ensures { option_map (λ r. r.now) result ≡ first_stale (version_in versions.now.entries) reads.now }
{
    reads
        .iter()
        .find(|read| read.version != current(versions, &read.key))
}

// Writes the id under a key that has one.
fn replace(versions: &mut BTreeMap<Key, TxnId>, key: &Key, id: &TxnId)
    requires { IsSome (get (slice_cmp nat_cmp) versions.old key.now) }
    ensures { Updates (slice_cmp nat_cmp) versions.old versions.new key.now (Some id.now) }
{
    *versions.get_mut(key).unwrap() = *id;
}

// Writes the id under a key. The key is copied where it is new.
fn put(versions: &mut BTreeMap<Key, TxnId>, key: &Key, id: &TxnId) -> Result<(), AllocError>
    ensures { OnOk result (Updates (slice_cmp nat_cmp) versions.old versions.new key.now (Some id.now)) }
{
    if versions.contains_key(key) {
        replace(versions, key, id);
        return Ok(());
    }
    versions.insert(key.copy()?, *id)?;
    Ok(())
}

// Makes a transaction the version of the keys that it wrote.
#[tactic(auto, using(crate::proofs::Audited::key_put, crate::proofs::Audited::keys_end))]
fn write_all(
    versions: &mut BTreeMap<Key, TxnId>,
    id: &TxnId,
    keys: &[Key],
) -> Result<(), AllocError>
    ensures { OnOk result ((key : List ℕ) → version_in versions.new.entries key ≡ (if contains_text keys.now key then Of id.now else version_in versions.old.entries key)) }
{
    for key in keys {
        put(versions, key, id)?;
    }
    Ok(())
}

// The verdict on a read, at the place of its transaction, of another version than the current one.
fn not_serial(
    versions: &BTreeMap<Key, TxnId>,
    place: u64,
    read: &ReadItem,
) -> Result<AuditVerdict, AllocError>
    ensures { IfOk result (λ verdict. verdict ≡ NotSerial place read.now.key read.now.version (version_in versions.now.entries read.now.key)) }
{
    Ok(AuditVerdict::NotSerial {
        place,
        key: read.key.copy()?,
        read: read.version,
        current: current(versions, &read.key),
    })
}

/// Whether each transaction read the versions that the ones before it left, or the first read of another version.
/// Only want of memory is an error.
#[tactic(auto, using(crate::proofs::Audited::audit_more, crate::proofs::Audited::audit_stale, crate::proofs::Audited::audit_end))]
pub fn audit(alloc: Global, history: &History) -> Result<AuditVerdict, AllocError>
    ensures { IfOk result (λ verdict. verdict ≡ audit_of history.now) }
{
    let items = history.items();
    let mut versions = BTreeMap::new(alloc);
    for (place, item) in items.iter().enumerate() {
        if let Some(stale) = first_stale(&versions, item.reads.items()) {
            return not_serial(&versions, place as u64, stale);
        }
        write_all(&mut versions, &item.id, item.writes.items())?;
    }
    Ok(AuditVerdict::Serial(items.len() as u64))
}
