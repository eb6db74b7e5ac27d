//! Room behind the unread bytes of a buffer, so that a frame is moved there at most once.
ghost use Rattle.std.specs.Prelude.{◌≡◌, ◌+◌, ◌-◌, ◌<◌, ◌≤◌, ◌==◌, [], true, false, IfOk, OnErr, length, take, drop, vec_len};
ghost use Rattle.outside_io.specs.Causes.{HasCause};
ghost use Rattle.outside_io.specs.Net.{Talks};
ghost use Rattle.node_server.specs.Rooms.{KeepsUnread};

use outside_io::{Failed, Net};
use std::alloc::{AllocError, Global};

/// The bytes of a frame in front of its body.
const FRONT: usize = 5;

/// The longest spelling of a frame, in bytes.
const MOST: usize = 1_213_481;

/// How many bytes the frame has that begins so, as far as that is told, and at least one more than there are.
fn wanted(unread: &[u8]) -> usize
    requires { length unread.now < 1213481 }
    ensures more { length unread.now < result }
    ensures most { result ≤ 1213481 }
{
    let told = match unread {
        [_, a, b, c, d, ..] => u32::from_be_bytes([*a, *b, *c, *d]).min(1_213_476) as usize,
        _ => 0,
    };
    (FRONT + told).max(unread.len() + 1)
}

/// Writes bytes over the front of a buffer.
fn put_front(into: &mut [u8], bytes: &[u8])
    requires { length bytes.now ≤ length into.old }
    ensures size { length into.new ≡ length into.old }
    ensures front { take (length bytes.now) into.new ≡ bytes.now }
{
    into[..bytes.len()].copy_from_slice(bytes);
}

/// The bytes at the front of a buffer of this size.
fn moved(alloc: Global, unread: &[u8], size: usize) -> Result<Vec<u8>, AllocError>
    requires { length unread.now ≤ size }
    ensures { IfOk result (λ larger. (vec_len larger ≡ size) × (take (length unread.now) larger.items ≡ unread.now)) }
{
    let mut larger = vec![in alloc; 0u8; size]?;
    put_front(&mut larger, unread);
    Ok(larger)
}

/// Makes room behind the unread bytes, which are those from one place to another, and says where they begin then.
pub(crate) fn make_room(
    alloc: Global,
    bytes: &mut Vec<u8>,
    from: usize,
    to: usize,
) -> Result<usize, AllocError>
    requires order { from ≤ to }
    requires within { to ≤ vec_len bytes.old }
    requires few { to - from < 1213481 }
    ensures kept { IfOk result (λ place. KeepsUnread bytes.old.items bytes.new.items from to place) }
    ensures untouched { OnErr result (bytes.new ≡ bytes.old) }
{
    let size = wanted(&bytes[from..to]);
    if size <= bytes.len() - from {
        return Ok(from);
    }
    if size <= bytes.len() {
        bytes.copy_within(from..to, 0);
        return Ok(0);
    }
    let larger = moved(alloc, &bytes[from..to], size)?;
    *bytes = larger;
    Ok(0)
}

/// Reads once into the room from this place on, and says how many bytes came.
pub(crate) fn read_behind<N: Net>(
    net: &mut N,
    bytes: &mut Vec<u8>,
    place: usize,
) -> Result<usize, Failed>
    requires stands { (N.seen net.old).stands ≡ true }
    requires room { place < vec_len bytes.old }
    ensures size { vec_len bytes.new ≡ vec_len bytes.old }
    ensures front { take place bytes.new.items ≡ take place bytes.old.items }
    ensures bound { IfOk result (λ count. place + count ≤ vec_len bytes.new) }
    ensures got { IfOk result (λ count. Talks (N.seen net.old) (N.seen net.new) [] (take count (drop place bytes.new.items)) (count == 0)) }
    ensures failed { OnErr result (Talks (N.seen net.old) (N.seen net.new) [] [] false) }
    ensures cause { HasCause (N.seen net.old).line_faults (N.seen net.new).line_faults result }
{
    net.read(&mut bytes[place..])
}
