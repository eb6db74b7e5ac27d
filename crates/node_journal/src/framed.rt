ghost use Rattle.std.specs.Prelude.{◌≡◌, ◌+◌, ◌≤◌, length, IfOk};
ghost use Rattle.node_journal.specs.Frames.{IsSmall, frame_of, length_bytes, most_payload};

use helios_model::Bytes;
use std::alloc::AllocError;
use std::marker::Model;

/// The most bytes of a payload.
pub const MOST_PAYLOAD: u64 = 20_000_000;

/// A payload as it is written behind a gate, with its length before it and the next gate, closed, behind it.
/// So `Journal::append` takes no memory.
#[derive(Drop)]
pub struct Framed {
    bytes: Vec<u8>,
}

impl Model for Framed {
    ghost use Rattle.std.specs.Prelude.{List, ℕ};
    ghost use Rattle.node_journal.specs.Frames.{IsFrame, payload_in};

    ghost Value = { List ℕ };

    ghost view = { λ f. payload_in f.bytes.items };

    ghost invariant = { λ f. IsFrame f.bytes.items };
}

impl Framed {
    /// A payload of at most `MOST_PAYLOAD` bytes.
    pub fn new(payload: Bytes) -> Result<Framed, AllocError>
        requires { IsSmall payload }
        ensures { IfOk result (λ framed. framed ≡ payload) }
    {
        let payload = payload.into_items();
        let size = payload.len();
        let mut bytes = Vec::with_capacity(*payload.allocator(), size + 5)?;
        bytes.extend_from_slice(&spell_length(size))?;
        bytes.extend_from_slice(&payload)?;
        bytes.push(0)?;
        Ok(Framed { bytes })
    }

    /// What is written behind the gate.
    #[tactic(auto, using(crate::proofs::Bytes::frame_size))]
    pub(crate) fn bytes(&self) -> &[u8]
        ensures bytes { result.now ≡ frame_of self.now }
        ensures size { length result.now ≡ length self.now + 5 }
        ensures small { IsSmall self.now }
    {
        &self.bytes
    }
}

/// A length as four bytes, the highest first.
#[tactic(auto, unfolding(crate::specs::Frames::length_bytes))]
fn spell_length(size: usize) -> [u8; 4]
    requires { size ≤ most_payload }
    ensures { result ≡ length_bytes size }
{
    (size as u32).to_be_bytes()
}
