//! What a transaction reads and writes, transactions and requests within their limits, and which of them
//! conflict.
ghost use Rattle.std.specs.Prelude.{◌≡◌, ℕ, List, IfOk, ◌||◌, ◌↔◌, IsSome, IfSome, map};
ghost use Rattle.helios_model.specs.declared.transactions.PutItem.{PutItem};
ghost use Rattle.helios_model.specs.declared.transactions.ReadItem.{ReadItem};
ghost use Rattle.helios_model.specs.declared.transactions.WriteItem.{WriteItem};
ghost use Rattle.std.specs.List.{list_any};
ghost use Rattle.helios_model.specs.Texts.{same_text};
ghost use Rattle.helios_model.specs.Transactions.{IsTransaction, IsAsk, conflict, keys_conflict, touched_by, touched_by_ask, writes_key};

use crate::ids::{TxnId, Version};
use crate::keyed::{Keyed, is_among, keys_differ};
use crate::keys::{Key, Val};
use crate::limits::MOST_ITEMS;
use std::alloc::AllocError;
use std::marker::Model;

/// A key that a transaction read, and the version that it read.
#[derive(Clone, Debug, PartialEq, Eq, Drop)]
pub struct ReadItem {
    pub key: Key,
    pub version: Version,
}

/// A key that a transaction is to write, and its new value.
#[derive(Clone, Debug, PartialEq, Eq, Drop)]
pub struct PutItem {
    pub key: Key,
    pub value: Val,
}

/// A key that a transaction writes, its new value, and the version that it overwrites.
#[derive(Clone, Debug, PartialEq, Eq, Drop)]
pub struct WriteItem {
    pub key: Key,
    pub value: Val,
    pub over: Version,
}

/// What a transaction read, in the order in which it was asked.
#[derive(Clone, Debug, Drop)]
pub struct Reads {
    items: Vec<ReadItem>,
}

impl Model for Reads {
    ghost Value = { List ReadItem };

    ghost view = { λ l. l.items.items };
}

impl Reads {
    pub fn new(items: Vec<ReadItem>) -> Reads
        ensures { result ≡ items.items }
    {
        Reads { items }
    }

    pub fn items(&self) -> &[ReadItem]
        ensures { result.now ≡ self.now }
    {
        self.items.as_slice()
    }

    pub fn into_items(self) -> Vec<ReadItem>
        ensures { result.items ≡ self }
    {
        self.items
    }

    pub fn copy(&self) -> Result<Reads, AllocError>
        ensures { IfOk result (λ copied. copied ≡ self.now) }
    {
        self.clone()
    }
}

/// What a transaction is to write, in the order in which it was asked.
#[derive(Clone, Debug, Drop)]
pub struct Puts {
    items: Vec<PutItem>,
}

impl Model for Puts {
    ghost Value = { List PutItem };

    ghost view = { λ l. l.items.items };
}

impl Puts {
    pub fn new(items: Vec<PutItem>) -> Puts
        ensures { result ≡ items.items }
    {
        Puts { items }
    }

    pub fn items(&self) -> &[PutItem]
        ensures { result.now ≡ self.now }
    {
        self.items.as_slice()
    }

    pub fn into_items(self) -> Vec<PutItem>
        ensures { result.items ≡ self }
    {
        self.items
    }

    pub fn copy(&self) -> Result<Puts, AllocError>
        ensures { IfOk result (λ copied. copied ≡ self.now) }
    {
        self.clone()
    }
}

/// What a transaction writes, in the order in which it was asked.
#[derive(Clone, Debug, Drop)]
pub struct Writes {
    items: Vec<WriteItem>,
}

impl Model for Writes {
    ghost Value = { List WriteItem };

    ghost view = { λ l. l.items.items };
}

impl Writes {
    pub fn new(items: Vec<WriteItem>) -> Writes
        ensures { result ≡ items.items }
    {
        Writes { items }
    }

    pub fn items(&self) -> &[WriteItem]
        ensures { result.now ≡ self.now }
    {
        self.items.as_slice()
    }

    pub fn into_items(self) -> Vec<WriteItem>
        ensures { result.items ≡ self }
    {
        self.items
    }

    pub fn copy(&self) -> Result<Writes, AllocError>
        ensures { IfOk result (λ copied. copied ≡ self.now) }
    {
        self.clone()
    }
}

fn is_touched<R: Keyed, W: Keyed>(reads: &[R], writes: &[W], key: &Key) -> bool
    ensures { result ≡ (list_any (λ r. same_text (R.key_of r) key.now) reads.now || list_any (λ w. same_text (W.key_of w) key.now) writes.now) }
{
    is_among(reads, key) || is_among(writes, key)
}

#[tactic(auto, using(crate::proofs::Slices::first_and_rest))]
fn is_overwriting<T: Keyed, R: Keyed, W: Keyed>(written: &[T], reads: &[R], writes: &[W]) -> bool
    ensures { result ≡ list_any (λ t. list_any (λ r. same_text (R.key_of r) (T.key_of t)) reads.now || list_any (λ w. same_text (W.key_of w) (T.key_of t)) writes.now) written.now }
{
    match written {
        [] => false,
        [first, rest @ ..] => is_touched(reads, writes, first.key())
            || is_overwriting(rest, reads, writes),
    }
}

/// Whether some key that is written on one side is read or written on the other.
fn lists_conflict<R: Keyed, W: Keyed, S: Keyed, V: Keyed>(
    reads: &[R],
    writes: &[W],
    other_reads: &[S],
    other_writes: &[V],
) -> bool
    ensures { result ≡ keys_conflict (record { read = map R.key_of reads.now; written = map W.key_of writes.now }) (record { read = map S.key_of other_reads.now; written = map V.key_of other_writes.now }) }
{
    is_overwriting(writes, other_reads, other_writes) || is_overwriting(other_writes, reads, writes)
}

/// A transaction that a site took: at most 16 reads and 16 writes, the keys distinct within each.
#[derive(Clone, Debug, Drop)]
pub struct Prepare {
    id: TxnId,
    reads: Reads,
    writes: Writes,
}

impl Model for Prepare {
    ghost use Rattle.helios_model.specs.Transactions.{Transaction, IsTransaction};

    ghost Value = { Transaction };

    ghost view = { λ p. record { id = p.id; reads = p.reads; writes = p.writes } };

    ghost invariant = { λ p. IsTransaction p.reads p.writes };
}

impl Prepare {
    /// The transaction of these parts; None where a limit is broken.
    pub fn new(id: TxnId, reads: Reads, writes: Writes) -> Option<Prepare>
        ensures valid { IsSome result ↔ IsTransaction reads writes }
        ensures value { IfSome result (λ p. p ≡ record { id = id; reads = reads; writes = writes }) }
    {
        if reads.items().len() <= MOST_ITEMS
            && writes.items().len() <= MOST_ITEMS
            && keys_differ(reads.items())
            && keys_differ(writes.items())
        {
            Some(Prepare { id, reads, writes })
        } else {
            None
        }
    }

    /// The transaction of these parts, which the caller knows to keep the limits.
    pub fn of(id: TxnId, reads: Reads, writes: Writes) -> Prepare
        requires { IsTransaction reads writes }
        ensures { result ≡ record { id = id; reads = reads; writes = writes } }
    {
        Prepare { id, reads, writes }
    }

    pub fn id(&self) -> TxnId
        ensures { result ≡ self.now.id }
    {
        self.id
    }

    pub fn reads(&self) -> &Reads
        ensures value { result.now ≡ self.now.reads }
        ensures limits { IsTransaction self.now.reads self.now.writes }
    {
        &self.reads
    }

    pub fn writes(&self) -> &Writes
        ensures value { result.now ≡ self.now.writes }
        ensures limits { IsTransaction self.now.reads self.now.writes }
    {
        &self.writes
    }

    /// Gives up its id, what it read and what it writes.
    pub fn into_parts(self) -> (TxnId, Reads, Writes)
        ensures id { result.0 ≡ self.id }
        ensures reads { result.1 ≡ self.reads }
        ensures writes { result.2 ≡ self.writes }
        ensures limits { IsTransaction self.reads self.writes }
    {
        (self.id, self.reads, self.writes)
    }

    pub fn is_writing(&self, key: &Key) -> bool
        ensures { result ≡ writes_key self.now key.now }
    {
        is_among(self.writes().items(), key)
    }

    pub fn copy(&self) -> Result<Prepare, AllocError>
        ensures { IfOk result (λ copied. copied ≡ self.now) }
    {
        self.clone()
    }
}

/// What a client asks for: at most 16 reads and 16 values to write, the keys distinct within each.
#[derive(Clone, Debug, Drop)]
pub struct Ask {
    reads: Reads,
    puts: Puts,
}

impl Model for Ask {
    ghost use Rattle.helios_model.specs.Transactions.{Asking, IsAsk};

    ghost Value = { Asking };

    ghost view = { λ a. record { reads = a.reads; puts = a.puts } };

    ghost invariant = { λ a. IsAsk a.reads a.puts };
}

impl Ask {
    /// The request of these parts; None where a limit is broken.
    pub fn new(reads: Reads, puts: Puts) -> Option<Ask>
        ensures valid { IsSome result ↔ IsAsk reads puts }
        ensures value { IfSome result (λ a. a ≡ record { reads = reads; puts = puts }) }
    {
        if reads.items().len() <= MOST_ITEMS
            && puts.items().len() <= MOST_ITEMS
            && keys_differ(reads.items())
            && keys_differ(puts.items())
        {
            Some(Ask { reads, puts })
        } else {
            None
        }
    }

    /// The request of these parts, which the caller knows to keep the limits.
    pub fn of(reads: Reads, puts: Puts) -> Ask
        requires { IsAsk reads puts }
        ensures { result ≡ record { reads = reads; puts = puts } }
    {
        Ask { reads, puts }
    }

    pub fn reads(&self) -> &Reads
        ensures value { result.now ≡ self.now.reads }
        ensures limits { IsAsk self.now.reads self.now.puts }
    {
        &self.reads
    }

    pub fn puts(&self) -> &Puts
        ensures value { result.now ≡ self.now.puts }
        ensures limits { IsAsk self.now.reads self.now.puts }
    {
        &self.puts
    }

    /// Gives up what it reads and what it puts.
    pub fn into_parts(self) -> (Reads, Puts)
        ensures reads { result.0 ≡ self.reads }
        ensures puts { result.1 ≡ self.puts }
        ensures limits { IsAsk self.reads self.puts }
    {
        (self.reads, self.puts)
    }

    /// Whether some key that the request or the transaction writes is read or written by the other.
    pub fn conflicts_with(&self, p: &Prepare) -> bool
        ensures { result ≡ keys_conflict (touched_by_ask self.now) (touched_by p.now) }
    {
        lists_conflict(
            self.reads().items(),
            self.puts().items(),
            p.reads().items(),
            p.writes().items(),
        )
    }

    pub fn copy(&self) -> Result<Ask, AllocError>
        ensures { IfOk result (λ copied. copied ≡ self.now) }
    {
        self.clone()
    }
}

/// Whether some key that one of the two writes is read or written by the other.
pub fn conflicts(a: &Prepare, b: &Prepare) -> bool
    ensures { result ≡ conflict a.now b.now }
{
    lists_conflict(
        a.reads().items(),
        a.writes().items(),
        b.reads().items(),
        b.writes().items(),
    )
}
