// The longest frames and answers.
use link_codec::{
    Answer, Frame, LinkFault, decode_answer, decode_frame, encode_answer, encode_frame,
};
use std::alloc::{AllocError, Global};
use std::test::Fail;

// A key of 64 bytes that ends in a letter.
fn put_key(out: &mut Vec<u8>, letter: u8) -> Result<(), AllocError> {
    out.push(64)?;
    out.extend_from_slice(&[107; 63])?;
    out.push(letter)?;
    Ok(())
}

// The version of the site 31 and the last time.
fn put_version(out: &mut Vec<u8>) -> Result<(), AllocError> {
    out.extend_from_slice(&[1, 31])?;
    out.extend_from_slice(&(1u64 << 62).to_be_bytes())
}

// A kind, the length of a body, and room for as much.
fn begun(alloc: Global, kind: u8, length: u32) -> Result<Vec<u8>, AllocError> {
    let mut out = Vec::with_capacity(alloc, 5 + length as usize)?;
    out.push(kind)?;
    out.extend_from_slice(&length.to_be_bytes())?;
    Ok(out)
}

// Sixteen reads, and puts of so many bytes under sixteen keys.
fn request(alloc: Global, value: u16) -> Result<Vec<u8>, AllocError> {
    let mut out = begun(alloc, 4, 2274 + 16 * u32::from(value))?;
    out.push(16)?;
    for letter in b'a'..b'q' {
        put_key(&mut out, letter)?;
        put_version(&mut out)?;
    }
    out.push(16)?;
    for letter in b'a'..b'q' {
        put_key(&mut out, letter)?;
        out.extend_from_slice(&value.to_be_bytes())?;
        out.extend_from_slice(&vec![in alloc; 7u8; usize::from(value)]?)?;
    }
    Ok(out)
}

#[test]
fn the_longest_request_is_read_and_written_again(rt: HostRuntime) -> Result<(), Fail> {
    let alloc = rt.alloc();
    let mut input = request(alloc, 1024)?;
    match decode_frame(alloc, &input) {
        Err(_) => assert!(rt; false),
        Ok((frame, length)) => {
            assert_eq!(rt; length, 18_663);
            assert!(rt; matches!(frame, Frame::Request(_)));
            assert!(rt; encode_frame(alloc, &frame)?.items() == input.as_slice());
        }
    }
    input[5] = 17;
    assert!(rt; matches!(decode_frame(alloc, &input), Err(LinkFault::Bad)));
    let over = request(alloc, 1025)?;
    assert!(rt; matches!(decode_frame(alloc, &over), Err(LinkFault::Bad)));
    Ok(())
}

// The longest transaction that site 31 can take at a time.
fn put_longest(out: &mut Vec<u8>, time: u64) -> Result<(), AllocError> {
    out.extend_from_slice(&[1, 31])?;
    out.extend_from_slice(&time.to_be_bytes())?;
    out.push(16)?;
    for letter in b'a'..b'q' {
        put_key(out, letter)?;
        put_version(out)?;
    }
    out.push(16)?;
    for letter in b'a'..b'q' {
        put_key(out, letter)?;
        out.extend_from_slice(&[4, 0])?;
        out.extend_from_slice(&[7; 1024])?;
        put_version(out)?;
    }
    Ok(())
}

// The digest of the longest body, as another program told it.
const LONGEST: [u8; 32] = [
    144, 70, 196, 247, 49, 205, 242, 11, 248, 43, 232, 47, 136, 32, 54, 124, 59, 112, 151, 202,
    204, 233, 128, 90, 97, 3, 142, 232, 184, 212, 34, 227,
];

// From site 0 to site 1 of thirty-two: each time the last, and sixty-four of the longest transactions.
fn put_message(out: &mut Vec<u8>) -> Result<(), AllocError> {
    out.extend_from_slice(&[32, 0, 1])?;
    for _ in 0..1056 {
        out.extend_from_slice(&(1u64 << 62).to_be_bytes())?;
    }
    out.push(64)?;
    for time in 1..65 {
        put_longest(out, time)?;
    }
    out.extend_from_slice(&LONGEST)
}

#[test]
fn the_longest_push_is_read_and_written_again(rt: HostRuntime) -> Result<(), Fail> {
    let alloc = rt.alloc();
    let mut input = begun(alloc, 6, 1_213_476)?;
    put_message(&mut input)?;
    match decode_frame(alloc, &input) {
        Err(_) => assert!(rt; false),
        Ok((frame, length)) => {
            assert_eq!(rt; length, 1_213_481);
            assert!(rt; encode_frame(alloc, &frame)?.items() == input.as_slice());
        }
    }
    Ok(())
}

#[test]
fn the_longest_answer_is_read_and_written_again(rt: HostRuntime) -> Result<(), Fail> {
    let alloc = rt.alloc();
    let mut input = begun(alloc, 2, 1_213_477)?;
    input.push(7)?;
    put_message(&mut input)?;
    match decode_answer(alloc, &input) {
        Err(_) => assert!(rt; false),
        Ok((answer, length)) => {
            assert_eq!(rt; length, 1_213_482);
            assert!(rt; matches!(answer, Answer::Reply(_)));
            assert!(rt; encode_answer(alloc, &answer)?.items() == input.as_slice());
        }
    }
    Ok(())
}
