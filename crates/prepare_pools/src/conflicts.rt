// Which transactions of a line conflict with another one, by what touches its keys.
ghost use Rattle.std.specs.Prelude.{◌≡◌, ℕ, List, [], ◌||◌, find, map};
ghost use Rattle.std.specs.List.{list_any};
ghost use Rattle.std.specs.Option.{option_map};
ghost use Rattle.std.specs.Map.{values_of};
ghost use Rattle.helios_model.specs.Transactions.{conflict};
ghost use Rattle.prepare_pools.specs.Line.{IsLine, arrival_of};
ghost use Rattle.prepare_pools.specs.Touches.{IsIndexed};
ghost use Rattle.prepare_pools.specs.Conflicts.{earlier, hits};

use crate::index::Index;
use crate::line::Line;
use crate::touch::Touch;
use helios_model::{Key, Keyed, Prepare, TxnId};

// The lower of two numbers, where there is one.
fn earlier_of(a: Option<u64>, b: Option<u64>) -> Option<u64>
    ensures { result ≡ earlier a b }
{
    match (a, b) {
        (Some(a), Some(b)) => Some(a.min(b)),
        (Some(a), None) => Some(a),
        (None, b) => b,
    }
}

pub(crate) fn counts(touch: &Touch, any: bool) -> bool
    ensures { result ≡ (any || touch.now.write) }
{
    any || touch.write
}

// The id of the first touch, or of the first that writes.
fn first_id(touches: &[Touch], any: bool) -> Option<TxnId>
    ensures { result ≡ option_map (λ t. t.id) (find (λ t. any || t.write) touches.now) }
{
    for touch in touches {
        if counts(touch, any) {
            return Some(touch.id);
        }
    }
    None
}

// The number of the first that touches a key, or of the first that writes it.
fn first_touch(line: &Line, index: &Index, key: &Key, any: bool) -> Option<u64>
    requires line { IsLine (λ p. p.id) line.now }
    requires indexed { IsIndexed (values_of line.now) index.now }
    ensures { result ≡ arrival_of (hits any key.now) line.now }
{
    match first_id(index.touching(key), any) {
        Some(id) => line.arrival(&id),
        None => None,
    }
}

// The number of the first that touches some of these keys, or of the first that writes some.
fn first_among<T: Keyed>(line: &Line, index: &Index, items: &[T], any: bool) -> Option<u64>
    requires line { IsLine (λ p. p.id) line.now }
    requires indexed { IsIndexed (values_of line.now) index.now }
    ensures { result ≡ arrival_of (λ q. list_any (λ key. hits any key q) (map T.key_of items.now)) line.now }
{
    match items {
        [] => None,
        [first, rest @ ..] => earlier_of(
            first_touch(line, index, first.key(), any),
            first_among(line, index, rest, any),
        ),
    }
}

// The id of the first that conflicts with a transaction.
pub(crate) fn first_conflict(line: &Line, index: &Index, p: &Prepare) -> Option<TxnId>
    requires line { IsLine (λ p. p.id) line.now }
    requires indexed { IsIndexed (values_of line.now) index.now }
    ensures { result ≡ option_map (λ q. q.id) (find (conflict p.now) (values_of line.now)) }
{
    let written = first_among(line, index, p.writes().items(), true);
    let read = first_among(line, index, p.reads().items(), false);
    match earlier_of(written, read) {
        Some(arrival) => line.id_at(arrival),
        None => None,
    }
}
