// Which transactions touch each key.
ghost use Rattle.std.specs.Prelude.{◌≡◌, ℕ, List, [], ◌∷◌, ◌++◌, false, not, ◌||◌, map, filter, OnOk, OnErr, if◌then◌else◌};
ghost use Rattle.std.specs.Option.{option_to_list};
ghost use Rattle.helios_model.specs.Texts.{contains_text, same_text};
ghost use Rattle.prepare_pools.specs.Touches.{KeepsRest, one_touch, touch_of, touched, touches, touches_by, without_id};

use crate::touch::{Touch, Touches};
use helios_model::{Key, Keyed, Prepare, TxnId};
use std::alloc::{AllocError, Global};
use std::collections::BTreeMap;
use std::marker::Model;

#[derive(Drop)]
pub(crate) struct Index {
    lists: BTreeMap<Key, Touches>,
    alloc: Global,
}

impl Model for Index {
    ghost use Rattle.std.specs.Prelude.{List, ℕ};
    ghost use Rattle.prepare_pools.specs.declared.touch.Touch.{Touch};

    ghost Value = { List (List ℕ × List Touch) };

    ghost view = { λ i. i.lists.entries };
}

impl Index {
    pub(crate) fn new(alloc: Global) -> Index
        ensures { result ≡ [] }
    {
        Index {
            lists: BTreeMap::new(alloc),
            alloc,
        }
    }

    pub(crate) fn touching(&self, key: &Key) -> &[Touch]
        ensures { result.now ≡ touched self.now key.now }
    {
        match self.lists.get(key) {
            Some(touches) => touches.items(),
            None => &[],
        }
    }

    // A touch behind the others of its key.
    pub(crate) fn touch(&mut self, key: &Key, touch: Touch) -> Result<(), AllocError>
        ensures pushed { OnOk result ((q : List ℕ) → touched self.new q ≡ (if same_text key.now q then touched self.old q ++ touch ∷ [] else touched self.old q)) }
        ensures as_before { OnErr result ((q : List ℕ) → touched self.new q ≡ touched self.old q) }
    {
        if self.lists.contains_key(key) {
            return self.lists.get_mut(key).unwrap().push(touch);
        }
        let mut touches = Touches::new(self.alloc);
        touches.push(touch)?;
        self.lists.insert(key.copy()?, touches)?;
        Ok(())
    }

    // Forgets a key that nothing touches.
    fn prune(&mut self, key: &Key)
        ensures { (q : List ℕ) → touched self.new q ≡ touched self.old q }
    {
        if self.touching(key).is_empty() {
            let _ = self.lists.remove(key);
        }
    }

    fn forget(&mut self, key: &Key, id: &TxnId)
        ensures { (q : List ℕ) → touched self.new q ≡ (if same_text key.now q then without_id id.now (touched self.old q) else touched self.old q) }
    {
        if self.lists.contains_key(key) {
            self.lists.get_mut(key).unwrap().remove(id);
        }
    }

    // Takes out a transaction's touch of a key.
    pub(crate) fn untouch(&mut self, key: &Key, id: &TxnId)
        ensures { (q : List ℕ) → touched self.new q ≡ (if same_text key.now q then without_id id.now (touched self.old q) else touched self.old q) }
    {
        self.forget(key, id);
        self.prune(key);
    }
}

// A touch of a key that the transaction reads or writes, unless it reads what it writes as well.
fn touch_one(index: &mut Index, p: &Prepare, write: bool, key: &Key) -> Result<(), AllocError>
    ensures pushed { OnOk result ((q : List ℕ) → touched index.new q ≡ touched index.old q ++ (if same_text key.now q then one_touch p.now write key.now else [])) }
    ensures as_before { OnErr result ((q : List ℕ) → touched index.new q ≡ touched index.old q) }
{
    if write || !p.is_writing(key) {
        return index.touch(key, Touch { id: p.id(), write });
    }
    Ok(())
}

// Touches of the keys that a transaction reads, or of those that it writes.
fn touch_each<T: Keyed>(
    index: &mut Index,
    p: &Prepare,
    write: bool,
    items: &[T],
) -> Result<(), AllocError>
    ensures pushed { OnOk result ((q : List ℕ) → touched index.new q ≡ touched index.old q ++ touches_by p.now write (map T.key_of items.now) q) }
    ensures keeps { OnErr result (KeepsRest p.now.id (map T.key_of items.now) index.old index.new) }
{
    match items {
        [] => Ok(()),
        [first, rest @ ..] => {
            touch_one(index, p, write, first.key())?;
            touch_each(index, p, write, rest)
        }
    }
}

// Takes out a transaction's touches of these keys.
fn untouch_each<T: Keyed>(index: &mut Index, id: &TxnId, items: &[T])
    ensures { (q : List ℕ) → touched index.new q ≡ (if contains_text (map T.key_of items.now) q then without_id id.now (touched index.old q) else touched index.old q) }
{
    match items {
        [] => {}
        [first, rest @ ..] => {
            index.untouch(first.key(), id);
            untouch_each(index, id, rest);
        }
    }
}

impl Index {
    // Takes out a transaction's touches.
    pub(crate) fn untouch_all(&mut self, p: &Prepare)
        ensures { (q : List ℕ) → touched self.new q ≡ (if touches p.now q then without_id p.now.id (touched self.old q) else touched self.old q) }
    {
        untouch_each(self, &p.id(), p.writes().items());
        untouch_each(self, &p.id(), p.reads().items());
    }

    // Touches of all keys of a transaction that has none yet.
    pub(crate) fn touch_all(&mut self, p: &Prepare) -> Result<(), AllocError>
        requires { (q : List ℕ) → without_id p.now.id (touched self.old q) ≡ touched self.old q }
        ensures pushed { OnOk result ((q : List ℕ) → touched self.new q ≡ touched self.old q ++ option_to_list (touch_of q p.now)) }
        ensures as_before { OnErr result ((q : List ℕ) → touched self.new q ≡ touched self.old q) }
    {
        if let Err(refused) = touch_each(self, p, true, p.writes().items()) {
            self.untouch_all(p);
            return Err(refused);
        }
        if let Err(refused) = touch_each(self, p, false, p.reads().items()) {
            self.untouch_all(p);
            return Err(refused);
        }
        Ok(())
    }
}
