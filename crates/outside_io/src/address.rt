ghost use Rattle.std.specs.Prelude.{◌≡◌, ◌≤◌, length};
ghost use Rattle.outside_io.specs.Net.{most_address_bytes};

use crate::unread::copy_front;
use std::marker::Model;

/// The most bytes of an address of a net.
pub const MOST_ADDRESS_BYTES: usize = 255;

/// An address, kept without taking memory; empty where there is none.
#[derive(Drop)]
pub(crate) struct Address {
    bytes: [u8; MOST_ADDRESS_BYTES],
    size: usize,
}

impl Model for Address {
    ghost use Rattle.std.specs.Prelude.{ℕ, ◌≤◌, List, take};
    ghost use Rattle.outside_io.specs.Net.{most_address_bytes};

    ghost Value = { List ℕ };

    ghost view = { λ a. take a.size a.bytes };

    ghost invariant = { λ a. a.size ≤ most_address_bytes };
}

impl Address {
    pub(crate) fn of(text: &str) -> Address
        requires { length text.now ≤ most_address_bytes }
        ensures { result ≡ text.now }
    {
        let mut bytes = [0; MOST_ADDRESS_BYTES];
        let size = copy_front(text.as_bytes(), &mut bytes, MOST_ADDRESS_BYTES);
        Address { bytes, size }
    }

    pub(crate) fn as_slice(&self) -> &[u8]
        ensures { result.now ≡ self.now }
    {
        &self.bytes[..self.size]
    }
}
