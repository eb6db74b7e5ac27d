ghost use Rattle.std.specs.Prelude.{◌≡◌, ◌⊎◌, ℕ, ◌+◌, ◌<◌, ◌≤◌, List, [], Some, Option, length, IfOk, IfSome, IfNone, IsOk, OnOk, IsErrOf, vec_len};
ghost use Rattle.std.specs.Io.KnownBytes.{Appends, IsAtEnd};
ghost use Rattle.outside_io.specs.Causes.{HasCause, IsCount, Rose, StaysTold};
ghost use Rattle.outside_io.specs.Whole.{AppendsPrefix, HasGrown, input_error_text, IsOverLimit, IsWholeInput, TakesAtMost};
ghost use Rattle.outside_io.specs.declared.whole.InputError.TheVariants.{Failed as ReadFailed, NoMemory};

use crate::{Failed, Sink, Source};
use std::alloc::{AllocError, Global};
use std::error::Error;
use std::fmt;

/// Why an input could not be read: a read failed, or there was no memory for it.
#[derive(Clone, Copy, Debug, PartialEq, Eq)]
pub enum InputError {
    Failed,
    NoMemory,
}

impl fmt::Display for InputError {
    ghost output = { λ error. Some (input_error_text error) };

    fn fmt<W: fmt::Write>(&self, f: &mut fmt::Formatter<W>) -> fmt::Result {
        match self {
            InputError::Failed => write!(f, "a read failed"),
            InputError::NoMemory => write!(f, "no memory for the input"),
        }
    }
}

impl Error for InputError {}

impl From<Failed> for InputError {
    ghost from_gives = { λ _ e. e ≡ ReadFailed };

    fn from(_failed: Failed) -> InputError {
        InputError::Failed
    }
}

impl From<AllocError> for InputError {
    ghost from_gives = { λ _ e. e ≡ NoMemory };

    fn from(_refused: AllocError) -> InputError {
        InputError::NoMemory
    }
}

/// Bytes that are asked of a source at once.
const PIECE: usize = 8192;

/// All that the source still has, where that is at most `limit` bytes; `None` where it is more.
/// No more than `limit + 1` bytes are taken from the source, and once so many were, nothing more is
/// asked of it.
pub fn read_whole<S: Source>(
    alloc: Global,
    source: &mut S,
    limit: usize,
) -> Result<Option<Vec<u8>>, InputError>
    ensures whole { IfOk result (λ found. IfSome found (λ v.
        IsWholeInput (S.seen source.old).left (S.seen source.new).left v.items)) }
    ensures fits { IfOk result (λ found. IfSome found (λ v. vec_len v ≤ limit)) }
    ensures over { IfOk result (λ found.
        IfNone found (IsOverLimit limit (S.seen source.old).left)) }
    ensures failed { IsErrOf result InputError.Failed →
        Rose (S.seen source.old).faults (S.seen source.new).faults }
    ensures steady { IsErrOf result InputError.Failed ⊎
        ((S.seen source.new).faults ≡ (S.seen source.old).faults) }
    ensures later { (S.seen source.old).faults ≤ (S.seen source.new).faults }
    ensures count { IsCount (S.seen source.old).faults → IsCount (S.seen source.new).faults }
    ensures most { TakesAtMost (limit + 1) (S.seen source.old).left (S.seen source.new).left }
    ensures unasked { IsErrOf result InputError.Failed →
        TakesAtMost limit (S.seen source.old).left (S.seen source.new).left }
    ensures tells { StaysTold (S.seen source.old).left (S.seen source.new).left }
{
    let mut bytes = Vec::new(alloc);
    let mut buffer = vec![in alloc; 0u8; PIECE]?;
    loop {
        let room = (limit - bytes.len()).saturating_add(1);
        let ask = room.min(PIECE);
        let count = read_piece(source, &mut buffer, ask, &mut bytes)?;
        if count == 0 {
            return Ok(Some(bytes));
        }
        if bytes.len() > limit {
            return Ok(None);
        }
    }
}

/// Moves what one read of at most `most` bytes gives behind the bytes, and says how many.
fn read_piece<S: Source>(
    source: &mut S,
    buffer: &mut [u8],
    most: usize,
    bytes: &mut Vec<u8>,
) -> Result<usize, InputError>
    requires { most ≤ length buffer.old }
    ensures gives { IfOk result (λ n. HasGrown (S.seen source.old).left (S.seen source.new).left
        bytes.old.items bytes.new.items n) }
    ensures len { IfOk result (λ n. (n ≤ most) × (vec_len bytes.new ≡ vec_len bytes.old + n)) }
    ensures end { IfOk result (λ n. n ≡ 0 → 0 < most → IsAtEnd (S.seen source.new).left) }
    ensures most { TakesAtMost most (S.seen source.old).left (S.seen source.new).left }
    ensures unmoved { IsErrOf result InputError.Failed →
        TakesAtMost 0 (S.seen source.old).left (S.seen source.new).left }
    ensures failed { IsErrOf result InputError.Failed →
        Rose (S.seen source.old).faults (S.seen source.new).faults }
    ensures steady { IsErrOf result InputError.Failed ⊎
        ((S.seen source.new).faults ≡ (S.seen source.old).faults) }
    ensures later { (S.seen source.old).faults ≤ (S.seen source.new).faults }
    ensures count { IsCount (S.seen source.new).faults }
    ensures tells { StaysTold (S.seen source.old).left (S.seen source.new).left }
{
    let piece = &mut buffer[..most];
    let count = source.read(piece)?;
    bytes.extend_from_slice(&piece[..count])?;
    Ok(count)
}

/// Writes the whole text, in as many writes as the sink needs; none for a text that is empty.
/// Where a write fails, a front of the text has been written and nothing else.
pub fn write_whole<K: Sink>(sink: &mut K, text: &[u8]) -> Result<(), Failed>
    ensures ok { OnOk result (Appends (K.seen sink.old).taken (K.seen sink.new).taken text.now) }
    ensures prefix { AppendsPrefix (K.seen sink.old).taken (K.seen sink.new).taken text.now }
    ensures count { IsCount (K.seen sink.old).faults → IsCount (K.seen sink.new).faults }
    ensures cause { HasCause (K.seen sink.old).faults (K.seen sink.new).faults result }
    ensures tells { StaysTold (K.seen sink.old).taken (K.seen sink.new).taken }
    ensures empty { text.now ≡ [] → IsOk result × (sink.new ≡ sink.old) }
{
    let mut rest = text;
    while !rest.is_empty() {
        let count = sink.write(rest)?;
        rest = rest.split_at(count).1;
    }
    Ok(())
}
