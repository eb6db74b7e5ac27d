// Frames: their bytes, where an input is cut, and which inputs are bad.
use crate::texts::{bytes_of, with_message};
use helios_model::{Bytes, Key, SiteId};
use link_codec::{Frame, LinkFault, decode_frame, encode_frame};
use std::alloc::Global;
use std::test::Fail;

// What a decoder of frames answers: how many bytes it took, or why it took none.
fn told(alloc: Global, input: &[u8]) -> Result<usize, LinkFault> {
    let (_frame, length) = decode_frame(alloc, input)?;
    Ok(length)
}

// Whether each front of an input is cut.
fn are_cut(alloc: Global, input: &[u8]) -> bool {
    for length in 0..input.len() {
        if told(alloc, &input[..length]) != Err(LinkFault::Cut) {
            return false;
        }
    }
    true
}

// Whether the whole input is a frame, which is read whatever follows it and is written as it was read.
fn is_written_again(alloc: Global, input: &[u8]) -> Result<bool, Fail> {
    let mut longer = input.to_vec(alloc)?;
    longer.push(255)?;
    match decode_frame(alloc, &longer) {
        Err(_) => Ok(false),
        Ok((frame, length)) => {
            let bytes = encode_frame(alloc, &frame)?;
            Ok(length == input.len() && bytes.items() == input)
        }
    }
}

// A frame of each kind, but for a push.
fn frames() -> &'static str {
    "01 00000020 3031323334353637383961626364656630313233343536373839616263646566 ; hello\n\
        02 00000002 0178 ; get x\n\
        03 00000009 1f00000000000003e8 ; status 31@1000\n\
        04 0000000b 0101780001017900027631 ; request that reads x and puts v1 under y\n\
        05 00000001 01 ; pull for site 1\n\
        07 00000000 ; flush"
}

#[test]
fn each_frame_is_written_as_it_was_read(rt: HostRuntime) -> Result<(), Fail> {
    let alloc = rt.alloc();
    for line in frames().lines() {
        let input = bytes_of(alloc, line)?;
        assert!(rt; are_cut(alloc, &input), "{line}");
        assert!(rt; is_written_again(alloc, &input)?, "{line}");
    }
    let push = with_message(alloc, "06 00000054")?;
    assert!(rt; are_cut(alloc, &push));
    assert!(rt; is_written_again(alloc, &push)?);
    Ok(())
}

#[test]
fn frames_have_their_bytes(rt: HostRuntime) -> Result<(), Fail> {
    let alloc = rt.alloc();
    let key = Key::new(Bytes::new(b"x".to_vec(alloc)?)).ok_or("a key")?;
    let get = encode_frame(alloc, &Frame::Get(key))?;
    assert_eq!(rt;
        get.items(),
        bytes_of(alloc, "02 00000002 0178")?.as_slice()
    );
    let to = SiteId::new(1).ok_or("a site")?;
    let pull = encode_frame(alloc, &Frame::Pull(to))?;
    assert_eq!(rt; pull.items(), bytes_of(alloc, "05 00000001 01")?.as_slice());
    let flush = encode_frame(alloc, &Frame::Flush)?;
    assert_eq!(rt; flush.items(), bytes_of(alloc, "07 00000000")?.as_slice());
    Ok(())
}

// What no more bytes can make a frame, and its mistake.
fn bad() -> &'static str {
    "\
        00 ; no such kind\n\
        08 00000000 ; no such kind\n\
        ff ; no such kind\n\
        01 00128425 ; a body of 1,213,477 bytes\n\
        06 ffffffff ; a body of 4,294,967,295 bytes\n\
        01 0000001f 30313233343536373839616263646566303132333435363738396162636465 ; a fingerprint of 31 bytes\n\
        01 00000021 303132333435363738396162636465663031323334353637383961626364656630 ; a fingerprint of 33 bytes\n\
        01 00000000 ; no fingerprint\n\
        02 00000000 ; no key\n\
        02 00000001 00 ; a key of no bytes\n\
        02 00000002 0278 ; a key that ends early\n\
        02 00000003 017800 ; a byte behind a key\n\
        02 00000002 0120 ; a key with a blank\n\
        02 00000002 013d ; a key with an equals sign\n\
        03 00000009 2000000000000003e8 ; an id of the site 32\n\
        03 00000009 000000000000000000 ; an id of the time 0\n\
        03 00000009 004000000000000001 ; an id above the last time\n\
        03 00000008 0000000000000001 ; an id of 8 bytes\n\
        03 0000000a 00000000000000000100 ; an id of 10 bytes\n\
        04 00000002 1100 ; seventeen reads\n\
        04 00000008 0201780001780000 ; a key that is read twice\n\
        04 0000000a 00020178000001780000 ; a key that is put twice\n\
        04 00000003 000000 ; a byte behind a request\n\
        04 00000005 0101780200 ; a version that is neither 0 nor 1\n\
        04 0000000e 0101780120000000000000000100 ; a version of the site 32\n\
        04 00000006 000101780401 ; a value of 1,025 bytes\n\
        04 00000001 00 ; no puts\n\
        05 00000001 20 ; the site 32\n\
        05 00000002 0100 ; two bytes for a site\n\
        06 00000001 02 ; a message of one byte\n\
        06 00000000 ; no message\n\
        07 00000001 00 ; a flush with a body"
}

#[test]
fn what_is_bad_is_bad_whatever_follows(rt: HostRuntime) -> Result<(), Fail> {
    let alloc = rt.alloc();
    for line in bad().lines() {
        let mut input = bytes_of(alloc, line)?;
        assert_eq!(rt; told(alloc, &input), Err(LinkFault::Bad), "{line}");
        input.extend_from_slice(&[0; 100])?;
        assert_eq!(rt; told(alloc, &input), Err(LinkFault::Bad), "longer {line}");
    }
    Ok(())
}

#[test]
fn a_frame_is_cut_by_its_kind_and_length_alone(rt: HostRuntime) -> Result<(), Fail> {
    let alloc = rt.alloc();
    for line in [
        "",
        "06 000001 00",
        "07 00000001",
        "01 00128424",
        "02 00000004 000000",
    ] {
        let input = bytes_of(alloc, line)?;
        assert_eq!(rt; told(alloc, &input), Err(LinkFault::Cut), "{line}");
    }
    Ok(())
}

// The push with one bit changed.
fn changed(alloc: Global, bit: usize) -> Result<Vec<u8>, Fail> {
    let mut input = with_message(alloc, "06 00000054")?;
    let byte = input.get_mut(5 + bit / 8).ok_or("a byte")?;
    *byte ^= 1 << (bit % 8);
    Ok(input)
}

#[test]
fn each_bit_of_a_message_and_its_digest_counts(rt: HostRuntime) -> Result<(), Fail> {
    let alloc = rt.alloc();
    for bit in 0..672 {
        let input = changed(alloc, bit)?;
        assert_eq!(rt; told(alloc, &input), Err(LinkFault::Bad), "bit {bit}");
    }
    Ok(())
}

#[test]
fn a_message_has_no_byte_left_over(rt: HostRuntime) -> Result<(), Fail> {
    let alloc = rt.alloc();
    let mut longer = with_message(alloc, "06 00000055")?;
    assert_eq!(rt; told(alloc, &longer), Err(LinkFault::Cut));
    longer.push(0)?;
    assert_eq!(rt; told(alloc, &longer), Err(LinkFault::Bad));
    let shorter = with_message(alloc, "06 00000053")?;
    assert_eq!(rt; told(alloc, &shorter), Err(LinkFault::Bad));
    Ok(())
}
