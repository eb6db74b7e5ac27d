//! What has a key, and lists in which no two items have the same.
ghost use Rattle.std.specs.Prelude.{◌≡◌, ℕ, List};
ghost use Rattle.std.specs.List.{list_any};
ghost use Rattle.helios_model.specs.Texts.{all_differ, same_text};

use crate::keys::Key;
use crate::transactions::{PutItem, ReadItem, WriteItem};

/// What has a key.
pub trait Keyed {
    ghost key_of: { Self → List ℕ };

    fn key(&self) -> &Key
        ensures { result.now ≡ key_of self.now };
}

impl Keyed for ReadItem {
    ghost key_of = { λ r. r.key };

    fn key(&self) -> &Key {
        &self.key
    }
}

impl Keyed for PutItem {
    ghost key_of = { λ p. p.key };

    fn key(&self) -> &Key {
        &self.key
    }
}

impl Keyed for WriteItem {
    ghost key_of = { λ w. w.key };

    fn key(&self) -> &Key {
        &self.key
    }
}

pub(crate) fn is_among<T: Keyed>(items: &[T], key: &Key) -> bool
    ensures { result ≡ list_any (λ item. same_text (T.key_of item) key.now) items.now }
{
    items.iter().any(|item| *item.key() == *key)
}

/// Whether no two items have the same key.
#[tactic(auto, using(crate::proofs::Slices::first_and_rest))]
pub fn keys_differ<T: Keyed>(items: &[T]) -> bool
    ensures { result ≡ all_differ T.key_of items.now }
{
    match items {
        [] => true,
        [first, rest @ ..] => !is_among(rest, first.key()) && keys_differ(rest),
    }
}
