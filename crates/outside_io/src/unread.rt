ghost use Rattle.std.specs.Prelude.{◌≡◌, ◌++◌, length, min, take, drop};

use std::marker::Model;

/// Bytes in memory of which a front has been read.
#[derive(Drop)]
pub(crate) struct UnreadBytes {
    bytes: Vec<u8>,
    at: usize,
}

impl Model for UnreadBytes {
    ghost use Rattle.std.specs.Prelude.{ℕ, ◌≤◌, List, drop, vec_len};

    ghost Value = { List ℕ };

    ghost view = { λ s. drop s.at s.bytes.items };

    ghost invariant = { λ s. s.at ≤ vec_len s.bytes };
}

impl UnreadBytes {
    pub(crate) fn new(bytes: Vec<u8>) -> UnreadBytes
        ensures { result ≡ bytes.items }
    {
        UnreadBytes { bytes, at: 0 }
    }

    pub(crate) fn as_slice(&self) -> &[u8]
        ensures { result.now ≡ self.now }
    {
        &self.bytes[self.at..]
    }

    /// Moves bytes into the front of the buffer, `most` or as many as there are and have room, and
    /// says how many.
    pub(crate) fn read(&mut self, into: &mut [u8], most: usize) -> usize
        ensures amount { result ≡ min most (min (length into.old) (length self.old)) }
        ensures given { into.new ≡ take result self.old ++ drop result into.old }
        ensures after { self.new ≡ drop result self.old }
    {
        let count = copy_front(self.as_slice(), into, most);
        self.at += count;
        count
    }
}

/// Copies the front of one slice over the front of the other, `most` bytes or as many as both
/// have, and says how many.
pub(crate) fn copy_front(from: &[u8], into: &mut [u8], most: usize) -> usize
    ensures amount { result ≡ min most (min (length into.old) (length from.now)) }
    ensures copied { into.new ≡ take result from.now ++ drop result into.old }
{
    let count = most.min(into.len().min(from.len()));
    into[..count].copy_from_slice(&from[..count]);
    count
}
