ghost use Rattle.std.specs.Prelude.{◌≡◌, ◌<◌, ℕ, List, IfOk, length, slice_set};

use std::alloc::AllocError;
use std::marker::Model;

/// A list of bytes.
#[derive(Clone, Debug, Drop)]
pub struct Bytes {
    items: Vec<u8>,
}

impl Model for Bytes {
    ghost Value = { List ℕ };

    ghost view = { λ b. b.items.items };
}

impl Bytes {
    pub fn new(items: Vec<u8>) -> Bytes
        ensures { result ≡ items.items }
    {
        Bytes { items }
    }

    pub fn items(&self) -> &[u8]
        ensures { result.now ≡ self.now }
    {
        self.items.as_slice()
    }

    pub fn into_items(self) -> Vec<u8>
        ensures { result.items ≡ self }
    {
        self.items
    }

    pub fn copy(&self) -> Result<Bytes, AllocError>
        ensures { IfOk result (λ copied. copied ≡ self.now) }
    {
        self.clone()
    }
}

/// A list of places, each the number of a site.
#[derive(Clone, Debug, Drop)]
pub struct Places {
    items: Vec<u8>,
}

impl Model for Places {
    ghost Value = { List ℕ };

    ghost view = { λ p. p.items.items };
}

impl Places {
    pub fn new(items: Vec<u8>) -> Places
        ensures { result ≡ items.items }
    {
        Places { items }
    }

    pub fn items(&self) -> &[u8]
        ensures { result.now ≡ self.now }
    {
        self.items.as_slice()
    }

    pub fn into_items(self) -> Vec<u8>
        ensures { result.items ≡ self }
    {
        self.items
    }

    pub fn copy(&self) -> Result<Places, AllocError>
        ensures { IfOk result (λ copied. copied ≡ self.now) }
    {
        self.clone()
    }
}

/// A list of times, round trips or latencies; whoever holds it says which, and in what unit.
#[derive(Clone, Debug, Drop)]
pub struct Times {
    items: Vec<u64>,
}

impl Model for Times {
    ghost Value = { List ℕ };

    ghost view = { λ t. t.items.items };
}

impl Times {
    pub fn new(items: Vec<u64>) -> Times
        ensures { result ≡ items.items }
    {
        Times { items }
    }

    pub fn items(&self) -> &[u64]
        ensures { result.now ≡ self.now }
    {
        self.items.as_slice()
    }

    pub fn into_items(self) -> Vec<u64>
        ensures { result.items ≡ self }
    {
        self.items
    }

    /// Puts another time at a place.
    pub fn set(&mut self, place: usize, time: u64)
        requires { place < length self.old }
        ensures { self.new ≡ slice_set self.old place time }
    {
        self.items[place] = time;
    }

    pub fn copy(&self) -> Result<Times, AllocError>
        ensures { IfOk result (λ copied. copied ≡ self.now) }
    {
        self.clone()
    }
}
