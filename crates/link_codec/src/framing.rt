//! The form that frames and answers have: a byte for the kind, 4 bytes for the length of the body, and the body.
ghost use Rattle.std.specs.Prelude.{◌≡◌, ◌++◌, ◌∷◌, OnOk};
ghost use Rattle.std.specs.Int.{w32, to_be_bytes};
ghost use Rattle.link_codec.specs.Decoding.{FindsBody, Splits};

use crate::faults::LinkFault;
use std::alloc::AllocError;

/// The bytes for the kind and the length.
pub(crate) const FRONT: usize = 5;

/// The body of at most so many bytes that stands behind a kind.
fn body_behind(rest: &[u8], most: u32) -> Result<&[u8], LinkFault>
    ensures { FindsBody (λ body. body.now) (record { kinds = 0; most = most }) rest.now result }
{
    if rest.len() < 4 {
        return Err(LinkFault::Cut);
    }
    let (front, behind) = rest.split_at(4);
    let length = u32::from_be_bytes([front[0], front[1], front[2], front[3]]);
    if length > most {
        return Err(LinkFault::Bad);
    }
    if behind.len() < length as usize {
        return Err(LinkFault::Cut);
    }
    Ok(behind.split_at(length as usize).0)
}

/// The kind, of so many, and the body of at most so many bytes that begin the input.
pub(crate) fn split(input: &[u8], kinds: u8, most: u32) -> Result<(u8, &[u8]), LinkFault>
    ensures { Splits (λ body. body.now) (record { kinds = kinds; most = most }) input.now result }
{
    match input {
        [] => Err(LinkFault::Cut),
        [kind, rest @ ..] => {
            if *kind < 1 || *kind > kinds {
                return Err(LinkFault::Bad);
            }
            let body = body_behind(rest, most)?;
            Ok((*kind, body))
        }
    }
}

/// The kind and the length, behind what a buffer has.
pub(crate) fn put_front(out: &mut Vec<u8>, kind: u8, length: u32) -> Result<(), AllocError>
    ensures { OnOk result (out.new.items ≡ out.old.items ++ kind ∷ to_be_bytes w32 length) }
{
    out.push(kind)?;
    out.extend_from_slice(&length.to_be_bytes())
}
