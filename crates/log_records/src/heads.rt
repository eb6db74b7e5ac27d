//! The head of a journal.
ghost use Rattle.std.specs.Prelude.{◌≡◌, ◌≢◌, Err, IfOk, length};
ghost use Rattle.log_records.specs.Heads.{head_at, head_bytes, head_of};
ghost use Rattle.log_records.specs.Decoding.{Takes};

use crate::decoder::Decoder;
use crate::faults::DecodeFault;
use helios_model::{Bytes, MOST_SITES, SiteId};
use std::alloc::{AllocError, Global};

/// What a journal begins with: the form of its entries, which is 1, the fingerprint of its cluster's plan, and its site.
#[derive(Clone, Copy, Debug, PartialEq, Eq)]
pub struct Head {
    pub version: u8,
    pub fingerprint: [u8; 32],
    pub site: SiteId,
}

impl Decoder<'_> {
    #[tactic(auto, unfolding(crate::specs::Heads::head_at))]
    fn head(&mut self) -> Result<Head, DecodeFault>
        ensures takes { Takes result (head_at self.old.whole self.old.rest.now) self.old self.new }
        ensures no_memory_taken { result ≢ Err DecodeFault.NoMemory }
    {
        let version = self.byte(1, 1)?;
        let text = self.text(32)?;
        let site = self.site(MOST_SITES)?;
        let mut fingerprint = [0; 32];
        fingerprint.copy_from_slice(text);
        Ok(Head {
            version,
            fingerprint,
            site,
        })
    }
}

/// The one spelling of a head.
pub fn encode_head(alloc: Global, head: &Head) -> Result<Bytes, AllocError>
    ensures { IfOk result (λ bytes. bytes ≡ head_bytes head.now) }
{
    let mut out = Vec::with_capacity(alloc, 34)?;
    out.push(head.version)?;
    out.extend_from_slice(&head.fingerprint)?;
    out.push(head.site.number())?;
    Ok(Bytes::new(out))
}

/// The head that the whole input is; a byte left over is bad at its place. It takes no memory.
#[tactic(auto, unfolding(crate::specs::Heads::head_of))]
pub fn decode_head(input: &[u8]) -> Result<Head, DecodeFault>
    ensures { result ≡ head_of input.now }
{
    let mut decoder = Decoder::new(input);
    let head = decoder.head()?;
    if !decoder.is_done() {
        return Err(DecodeFault::Bad {
            at: decoder.place(),
        });
    }
    Ok(head)
}
