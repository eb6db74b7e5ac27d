// Messages: their bytes with the digest, and where a reader refuses what is none.
use helios_model::Record;
use log_records::{
    DecodeFault, batches_can_be_written, decode_batch, decode_message, encode_batch,
    encode_message, message_length,
};
use std::alloc::{AllocError, Global};
use std::test::Fail;

// From site 0 to site 1 of two: the table 2000 6 / 7 8, the cover 2000 6, and three records, whose tags stand at the bytes 52, 71
// and 89: the transaction 0@1000, its commit at 1001, and the abort of 1@5 at 6 for 0@4. The digest stands at the byte 116.
const MESSAGE: [u8; 148] = [
    2, 0, 1, 0, 0, 0, 0, 0, 0, 7, 208, 0, 0, 0, 0, 0, 0, 0, 6, 0, 0, 0, 0, 0, 0, 0, 7, 0, 0, 0, 0,
    0, 0, 0, 8, 0, 0, 0, 0, 0, 0, 7, 208, 0, 0, 0, 0, 0, 0, 0, 6, 3, 1, 0, 0, 0, 0, 0, 0, 0, 3,
    232, 0, 1, 1, 120, 0, 2, 118, 49, 0, 2, 0, 0, 0, 0, 0, 0, 0, 3, 232, 0, 0, 0, 0, 0, 0, 3, 233,
    3, 1, 0, 0, 0, 0, 0, 0, 0, 5, 0, 0, 0, 0, 0, 0, 0, 6, 0, 0, 0, 0, 0, 0, 0, 0, 4, 177, 30, 39,
    176, 138, 25, 15, 24, 1, 206, 66, 139, 175, 149, 14, 121, 57, 74, 230, 227, 165, 102, 183, 67,
    64, 228, 67, 252, 10, 43, 253, 85,
];

// What a decoder of messages answers: how many bytes it took, or why it took none.
fn told(alloc: Global, input: &[u8]) -> Result<usize, DecodeFault> {
    let (_message, length) = decode_message(alloc, input)?;
    Ok(length)
}

// The message with other bytes from a place on.
fn changed(alloc: Global, place: usize, bytes: &[u8]) -> Result<Vec<u8>, Fail> {
    let mut input = MESSAGE.get(..place).ok_or("a place")?.to_vec(alloc)?;
    input.extend_from_slice(bytes)?;
    let after = MESSAGE.get(input.len()..).ok_or("a place")?;
    input.extend_from_slice(after)?;
    Ok(input)
}

#[test]
fn a_message_is_read_and_written_again(rt: HostRuntime) -> Result<(), Fail> {
    let alloc = rt.alloc();
    match decode_message(alloc, &MESSAGE) {
        Err(_) => assert!(rt; false),
        Ok((m, length)) => {
            assert_eq!(rt; length, 148);
            assert_eq!(rt; message_length(&m), 148);
            assert_eq!(rt; (m.count, m.from.number(), m.to.number()), (2, 0, 1));
            assert_eq!(rt; m.table.items(), [2000, 6, 7, 8].as_slice());
            assert_eq!(rt; m.cover.items(), [2000, 6].as_slice());
            assert_eq!(rt; m.records.items().len(), 3);
            assert!(rt; matches!(m.records.items().last(), Some(Record::Abort { .. })));
            let bytes = encode_message(alloc, &m)?;
            assert_eq!(rt; bytes.items(), MESSAGE.as_slice());
        }
    }
    Ok(())
}

#[test]
fn what_follows_a_message_is_left(rt: HostRuntime) -> Result<(), Fail> {
    let alloc = rt.alloc();
    let mut longer = MESSAGE.to_vec(alloc)?;
    longer.push(0)?;
    assert_eq!(rt; told(alloc, &longer), Ok(148));
    Ok(())
}

#[test]
fn each_front_of_a_message_is_cut(rt: HostRuntime) {
    let alloc = rt.alloc();
    for length in 0..MESSAGE.len() {
        assert_eq!(rt; told(alloc, &MESSAGE[..length]), Err(DecodeFault::Cut));
    }
}

// The place, the byte that is put there, and the place that is refused.
const REFUSED: [(usize, u8, usize); 18] = [
    // one site, and thirty-three
    (0, 1, 0),
    (0, 33, 0),
    // a sender and a receiver that are not there, and the sender itself
    (1, 2, 1),
    (2, 2, 2),
    (2, 0, 2),
    // a time above 2^62 at each end of the table and of the cover
    (3, 128, 3),
    (27, 64, 27),
    (35, 64, 35),
    (43, 128, 43),
    // sixty-five records
    (51, 65, 51),
    // a record of no kind, and one of a site that is not there
    (52, 0, 52),
    (71, 4, 71),
    (72, 2, 72),
    // a transaction that ends at its own time
    (88, 232, 81),
    // a cause that is not there
    (107, 2, 107),
    (115, 0, 108),
    // a cover below the first record, and a record above its cover
    (41, 0, 52),
    (106, 7, 89),
];

#[test]
fn each_field_is_refused_at_its_first_byte(rt: HostRuntime) -> Result<(), Fail> {
    let alloc = rt.alloc();
    for (place, byte, at) in REFUSED {
        let input = changed(alloc, place, &[byte])?;
        assert_eq!(rt; told(alloc, &input), Err(DecodeFault::Bad { at }));
    }
    Ok(())
}

#[test]
fn a_record_behind_a_later_one_is_refused_at_its_tag(rt: HostRuntime) -> Result<(), Fail> {
    let alloc = rt.alloc();
    let refused = Err(DecodeFault::Bad { at: 71 });
    // 0@999 at 1000, which is the own time of the record before
    let same = changed(alloc, 80, &[231, 0, 0, 0, 0, 0, 0, 3, 232])?;
    assert_eq!(rt; told(alloc, &same), refused);
    // 0@998 at 999
    let early = changed(alloc, 80, &[230, 0, 0, 0, 0, 0, 0, 3, 231])?;
    assert_eq!(rt; told(alloc, &early), refused);
    // a cover of 1000, which the first record keeps
    let above = changed(alloc, 41, &[3, 232])?;
    assert_eq!(rt; told(alloc, &above), refused);
    // its own fields come first
    assert_eq!(rt;
        told(alloc, same.get(..88).ok_or("a front")?),
        Err(DecodeFault::Cut)
    );
    assert_eq!(rt; told(alloc, same.get(..89).ok_or("a front")?), refused);
    Ok(())
}

#[test]
fn each_bit_of_the_digest_counts(rt: HostRuntime) {
    let alloc = rt.alloc();
    for bit in 0..256usize {
        let mut input = MESSAGE;
        input[116 + bit / 8] ^= 1 << (bit % 8);
        assert_eq!(rt; told(alloc, &input), Err(DecodeFault::BadDigest));
    }
}

#[test]
fn another_body_has_another_digest(rt: HostRuntime) -> Result<(), Fail> {
    let alloc = rt.alloc();
    let last = changed(alloc, 3, &[64, 0, 0, 0, 0, 0, 0, 0])?;
    assert_eq!(rt; told(alloc, &last), Err(DecodeFault::BadDigest));
    let value = changed(alloc, 68, b"w")?;
    assert_eq!(rt; told(alloc, &value), Err(DecodeFault::BadDigest));
    assert_eq!(rt;
        told(alloc, value.get(..147).ok_or("a front")?),
        Err(DecodeFault::Cut)
    );
    Ok(())
}

fn put_id(out: &mut Vec<u8>, site: u8, time: u64) -> Result<(), AllocError> {
    out.push(site)?;
    out.extend_from_slice(&time.to_be_bytes())
}

// A key of 64 bytes that ends in a letter.
fn put_key(out: &mut Vec<u8>, letter: u8) -> Result<(), AllocError> {
    out.push(64)?;
    out.extend_from_slice(&[107; 63])?;
    out.push(letter)?;
    Ok(())
}

fn put_version(out: &mut Vec<u8>) -> Result<(), AllocError> {
    out.push(1)?;
    put_id(out, 31, 1 << 62)
}

// The longest transaction that site 31 can take at a time.
fn put_longest(out: &mut Vec<u8>, time: u64) -> Result<(), AllocError> {
    out.push(1)?;
    put_id(out, 31, time)?;
    out.push(16)?;
    for letter in b'a'..b'q' {
        put_key(out, letter)?;
        put_version(out)?;
    }
    out.push(16)?;
    for letter in b'a'..b'q' {
        put_key(out, letter)?;
        out.extend_from_slice(&[4, 0])?;
        out.extend_from_slice(&[7; 1024])?;
        put_version(out)?;
    }
    Ok(())
}

// The digest of the longest body.
const LONGEST: [u8; 32] = [
    144, 70, 196, 247, 49, 205, 242, 11, 248, 43, 232, 47, 136, 32, 54, 124, 59, 112, 151, 202,
    204, 233, 128, 90, 97, 3, 142, 232, 184, 212, 34, 227,
];

// From site 0 to site 1 of thirty-two: each time the last, and sixty-four of the longest transactions.
fn longest(alloc: Global) -> Result<Vec<u8>, AllocError> {
    let mut out = Vec::with_capacity(alloc, 1_213_476)?;
    out.extend_from_slice(&[32, 0, 1])?;
    for _ in 0..1056 {
        out.extend_from_slice(&(1u64 << 62).to_be_bytes())?;
    }
    out.push(64)?;
    for time in 1..65 {
        put_longest(&mut out, time)?;
    }
    out.extend_from_slice(&LONGEST)?;
    Ok(out)
}

#[test]
fn the_longest_message_is_read_and_written_again(rt: HostRuntime) -> Result<(), Fail> {
    let alloc = rt.alloc();
    let input = longest(alloc)?;
    match decode_message(alloc, &input) {
        Err(_) => assert!(rt; false),
        Ok((m, length)) => {
            assert_eq!(rt; length, 1_213_476);
            assert_eq!(rt; message_length(&m), 1_213_476);
            let bytes = encode_message(alloc, &m)?;
            assert!(rt; bytes.items() == input.as_slice());
        }
    }
    Ok(())
}

// Whether the whole input is a batch of thirty-two sites, which is written as it was read.
fn is_batch_written_again(alloc: Global, input: &[u8]) -> Result<bool, Fail> {
    batches_can_be_written();
    match decode_batch(alloc, input, 32) {
        Err(_) => Ok(false),
        Ok(entries) => {
            let bytes = encode_batch(alloc, &entries)?;
            Ok(bytes.items() == input)
        }
    }
}

#[test]
fn the_longest_batch_is_read_and_written_again(rt: HostRuntime) -> Result<(), Fail> {
    let alloc = rt.alloc();
    let message = longest(alloc)?;
    let mut input = vec![in alloc; 16]?;
    for _ in 0..16 {
        input.extend_from_slice(&[255, 255, 255, 255, 255, 255, 255, 255, 3])?;
        input.extend_from_slice(&message)?;
    }
    assert_eq!(rt; input.len(), 19_415_761);
    assert!(rt; is_batch_written_again(alloc, &input)?);
    Ok(())
}
