//! Whether a key was given before in its list.
ghost use Rattle.std.specs.Prelude.{◌≡◌};
ghost use Rattle.log_records.specs.Items.{is_given};

use helios_model::{Key, Keyed};

pub(crate) fn is_given<T: Keyed>(items: &[T], key: &Key) -> bool
    ensures { result ≡ is_given T.key_of items.now key.now }
{
    items.iter().any(|item| *key == *item.key())
}
