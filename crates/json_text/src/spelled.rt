//! Readers of texts that spell a name, an id, a version, a key or a value.
ghost use Rattle.std.specs.Prelude.{◌≡◌, IfOk, is_some};
ghost use Rattle.std.specs.List.{list_all};
ghost use Rattle.serde_json.specs.Find.{as_str};
ghost use Rattle.serde_json.specs.View.{items_view, view};
ghost use Rattle.helios_model.specs.Spellings.{key_of, value_of};
ghost use Rattle.json_text.specs.Lists.{each_of};
ghost use Rattle.json_text.specs.Spelled.{id_at, key_at, named_version_at, value_at, version_at};
ghost use Rattle.json_text.specs.Unread.{Reads};

use crate::lists::PartReader;
use crate::members::is_text;
use crate::refusals::Unread;
use helios_model::{
    Bytes, Key, MOST_KEY_BYTES, MOST_VALUE_BYTES, Name, TxnId, Val, Version, key_from, value_from,
};
use serde_json::Value;
use std::alloc::{AllocError, Global};

fn copy_of(alloc: Global, text: &str) -> Result<Bytes, AllocError>
    ensures { IfOk result (λ bytes. bytes ≡ text.now) }
{
    Ok(Bytes::new(Vec::from_slice(alloc, text.as_bytes())?))
}

// ---- names

/// Reads a text as a name, whatever its bytes: the rules of a name are tested apart.
#[derive(Drop)]
pub struct NameReader;

impl PartReader for NameReader {
    type Part = Name;

    ghost said = { λ _ d. as_str d };

    fn read(&self, alloc: Global, value: &Value) -> Result<Name, Unread> {
        let text = value.as_str().ok_or(Unread::OtherForm)?;
        Ok(Name::new(String::from_str(alloc, text)?))
    }
}

fn all_texts(items: &[Value]) -> bool
    ensures { result ≡ list_all (λ v. is_some (as_str (view v))) items.now }
{
    items.iter().all(|value| value.is_string())
}

/// Whether each item is a text. It takes no memory.
#[tactic(auto, using(crate::proofs::FewItems::all_texts))]
pub fn are_texts(items: &[Value]) -> bool
    ensures { result ≡ is_some (each_of as_str (items_view items.now)) }
{
    all_texts(items)
}

// ---- ids and versions

/// The id that the value spells as SITE@TIME.
#[tactic(auto, unfolding(crate::specs::Spelled::id_at))]
pub fn id(value: &Value) -> Option<TxnId>
    ensures { result ≡ id_at (view value.now) }
{
    value.as_str()?.parse::<TxnId>().ok()
}

/// The version that the value spells: `initial` or an id.
#[tactic(auto, unfolding(crate::specs::Spelled::version_at))]
pub fn version(value: &Value) -> Option<Version>
    ensures { result ≡ version_at (view value.now) }
{
    value.as_str()?.parse::<Version>().ok()
}

/// A version that a text names before it is known.
#[derive(Clone, Copy, Debug, PartialEq, Eq)]
pub enum NamedVersion {
    /// The one that is current when it is looked up.
    Current,
    At(Version),
}

/// The version that the value names: `current`, `initial` or an id.
#[tactic(auto, unfolding(crate::specs::Spelled::named_version_at))]
pub fn named_version(value: &Value) -> Option<NamedVersion>
    ensures { result ≡ named_version_at (view value.now) }
{
    if is_text(value, "current") {
        return Some(NamedVersion::Current);
    }
    let known = version(value)?;
    Some(NamedVersion::At(known))
}

// ---- keys and values

#[tactic(auto, using(crate::proofs::SpelledForms::no_long_key))]
fn key_of_text(alloc: Global, text: &str) -> Result<Key, Unread>
    ensures { Reads result (key_of text.now) }
{
    if text.len() > MOST_KEY_BYTES {
        return Err(Unread::OtherForm);
    }
    let bytes = copy_of(alloc, text)?;
    key_from(bytes).ok_or(Unread::OtherForm)
}

/// The key that the value is.
#[tactic(auto, unfolding(crate::specs::Spelled::key_at))]
pub fn key(alloc: Global, value: &Value) -> Result<Key, Unread>
    ensures { Reads result (key_at (view value.now)) }
{
    let text = value.as_str().ok_or(Unread::OtherForm)?;
    key_of_text(alloc, text)
}

/// Reads a key.
#[derive(Drop)]
pub struct KeyReader;

impl PartReader for KeyReader {
    type Part = Key;

    ghost said = { λ _ d. key_at d };

    fn read(&self, alloc: Global, value: &Value) -> Result<Key, Unread> {
        key(alloc, value)
    }
}

#[tactic(auto, using(crate::proofs::SpelledForms::no_long_value))]
fn value_of_text(alloc: Global, text: &str) -> Result<Val, Unread>
    ensures { Reads result (value_of text.now) }
{
    if text.len() > MOST_VALUE_BYTES {
        return Err(Unread::OtherForm);
    }
    let bytes = copy_of(alloc, text)?;
    value_from(bytes).ok_or(Unread::OtherForm)
}

/// The stored value that the value of JSON is: the bytes of a text.
#[tactic(auto, unfolding(crate::specs::Spelled::value_at))]
pub fn stored_value(alloc: Global, value: &Value) -> Result<Val, Unread>
    ensures { Reads result (value_at (view value.now)) }
{
    let text = value.as_str().ok_or(Unread::OtherForm)?;
    value_of_text(alloc, text)
}
