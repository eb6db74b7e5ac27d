// Records and heads: their bytes, and where a reader refuses what is none.
use helios_model::{
    Bytes, Key, Prepare, ReadItem, Reads, Record, SiteId, Time, TxnId, Val, Version, WriteItem,
    Writes,
};
use log_records::{DecodeFault, Head, decode_head, decode_record, encode_head, encode_record};
use std::alloc::Global;
use std::test::Fail;

// The transaction 0@1000 with no reads and the write of x to the bytes `v1` over the initial version.
const PREPARE: [u8; 19] = [
    1, 0, 0, 0, 0, 0, 0, 0, 3, 232, 0, 1, 1, 120, 0, 2, 118, 49, 0,
];

// The commit of 1@5 at the time 6.
const COMMIT: [u8; 18] = [2, 1, 0, 0, 0, 0, 0, 0, 0, 5, 0, 0, 0, 0, 0, 0, 0, 6];

// The abort of 1@5 at the time 6 for 0@4.
const ABORT: [u8; 27] = [
    3, 1, 0, 0, 0, 0, 0, 0, 0, 5, 0, 0, 0, 0, 0, 0, 0, 6, 0, 0, 0, 0, 0, 0, 0, 0, 4,
];

fn key(alloc: Global, text: &[u8]) -> Result<Key, Fail> {
    Ok(Key::new(Bytes::new(text.to_vec(alloc)?)).ok_or("a key")?)
}

fn id(site: u8, time: u64) -> Result<TxnId, Fail> {
    let site = SiteId::new(site).ok_or("a site")?;
    Ok(TxnId {
        site,
        time: Time::of(time),
    })
}

fn prepare(alloc: Global) -> Result<Record, Fail> {
    let value = Val::new(Bytes::new(b"v1".to_vec(alloc)?)).ok_or("a value")?;
    let write = WriteItem {
        key: key(alloc, b"x")?,
        value,
        over: Version::Initial,
    };
    let reads = Reads::new(Vec::new(alloc));
    let writes = Writes::new(vec![in alloc; write]?);
    let prepare = Prepare::new(id(0, 1000)?, reads, writes).ok_or("a transaction")?;
    Ok(Record::Prepare(prepare))
}

// What a decoder of records of two sites answers: how many bytes it took, or why it took none.
fn told(alloc: Global, input: &[u8]) -> Result<usize, DecodeFault> {
    let (_record, length) = decode_record(alloc, input, 2)?;
    Ok(length)
}

fn is_written_again(alloc: Global, input: &[u8]) -> Result<bool, Fail> {
    let (record, length) = decode_record(alloc, input, 2).ok().ok_or("a record")?;
    let bytes = encode_record(alloc, &record)?;
    Ok(length == input.len() && bytes.items() == input)
}

#[test]
fn a_prepare_has_nineteen_bytes(rt: HostRuntime) -> Result<(), Fail> {
    let alloc = rt.alloc();
    let bytes = encode_record(alloc, &prepare(alloc)?)?;
    assert_eq!(rt; bytes.items(), PREPARE.as_slice());
    Ok(())
}

#[test]
fn each_kind_is_read_and_written_again(rt: HostRuntime) -> Result<(), Fail> {
    let alloc = rt.alloc();
    assert!(rt; is_written_again(alloc, &PREPARE)?);
    assert!(rt; is_written_again(alloc, &COMMIT)?);
    assert!(rt; is_written_again(alloc, &ABORT)?);
    Ok(())
}

#[test]
fn what_follows_a_record_is_left(rt: HostRuntime) -> Result<(), Fail> {
    let alloc = rt.alloc();
    let mut longer = COMMIT.to_vec(alloc)?;
    longer.push(0)?;
    assert_eq!(rt; told(alloc, &longer), Ok(18));
    Ok(())
}

#[test]
fn each_front_of_a_record_is_cut(rt: HostRuntime) {
    let alloc = rt.alloc();
    for length in 0..PREPARE.len() {
        assert_eq!(rt; told(alloc, &PREPARE[..length]), Err(DecodeFault::Cut));
    }
    for length in 0..ABORT.len() {
        assert_eq!(rt; told(alloc, &ABORT[..length]), Err(DecodeFault::Cut));
    }
}

// The place, the byte that is put there, and the place that is refused.
const REFUSED: [(usize, u8, usize); 11] = [
    // the tag
    (0, 0, 0),
    (0, 4, 0),
    // a site that is not there, and the time 0 or one above 2^62
    (1, 2, 1),
    (2, 0x40, 2),
    (2, 0x80, 2),
    // seventeen reads, and seventeen writes
    (10, 17, 10),
    (11, 17, 11),
    // a key of no bytes, and one with a blank
    (12, 0, 12),
    (13, 32, 13),
    // a value of more than 1,024 bytes
    (14, 5, 14),
    // a version that is neither 0 nor 1
    (18, 2, 18),
];

#[test]
fn each_field_is_refused_at_its_first_byte(rt: HostRuntime) -> Result<(), Fail> {
    let alloc = rt.alloc();
    for (place, byte, at) in REFUSED {
        let mut input = PREPARE;
        if place < input.len() {
            input[place] = byte;
        }
        assert_eq!(rt; told(alloc, &input), Err(DecodeFault::Bad { at }));
    }
    Ok(())
}

#[test]
fn times_go_to_the_last(rt: HostRuntime) -> Result<(), Fail> {
    let alloc = rt.alloc();
    let mut last = COMMIT;
    last[10] = 0x40;
    last[17] = 0;
    assert_eq!(rt; told(alloc, &last), Ok(18));
    last[17] = 1;
    assert_eq!(rt; told(alloc, &last), Err(DecodeFault::Bad { at: 10 }));
    let mut early = COMMIT;
    early[17] = 5;
    assert_eq!(rt; told(alloc, &early), Err(DecodeFault::Bad { at: 10 }));
    let mut never = COMMIT;
    never[9] = 0;
    assert_eq!(rt; told(alloc, &never), Err(DecodeFault::Bad { at: 2 }));
    Ok(())
}

#[test]
fn a_key_given_twice_is_refused(rt: HostRuntime) -> Result<(), Fail> {
    let alloc = rt.alloc();
    let mut input = PREPARE[..10].to_vec(alloc)?;
    input.extend_from_slice(&[2, 1, 120, 0, 1, 120])?;
    assert_eq!(rt; told(alloc, &input), Err(DecodeFault::Bad { at: 15 }));
    Ok(())
}

fn longest(alloc: Global) -> Result<Record, Fail> {
    let mut reads = Vec::new(alloc);
    let mut writes = Vec::new(alloc);
    for number in 0..16u8 {
        let mut text = vec![in alloc; 97; 63]?;
        text.push(65 + number)?;
        let value = Val::new(Bytes::new(vec![in alloc; 7; 1024]?)).ok_or("a value")?;
        let over = Version::Of(id(31, 1 << 62)?);
        let read = ReadItem {
            key: key(alloc, &text)?,
            version: over,
        };
        let write = WriteItem {
            key: key(alloc, &text)?,
            value,
            over,
        };
        reads.push(read)?;
        writes.push(write)?;
    }
    let prepare = Prepare::new(id(1, 1 << 62)?, Reads::new(reads), Writes::new(writes));
    Ok(Record::Prepare(prepare.ok_or("a transaction")?))
}

#[test]
fn the_longest_prepare_is_read(rt: HostRuntime) -> Result<(), Fail> {
    let alloc = rt.alloc();
    let bytes = encode_record(alloc, &longest(alloc)?)?;
    assert_eq!(rt; bytes.items().len(), 18_828);
    assert!(rt; is_written_again(alloc, bytes.items())?);
    Ok(())
}

#[test]
fn a_head_is_the_whole_input(rt: HostRuntime) -> Result<(), Fail> {
    let alloc = rt.alloc();
    let head = Head {
        version: 1,
        fingerprint: [9; 32],
        site: SiteId::new(31).ok_or("a site")?,
    };
    let bytes = encode_head(alloc, &head)?;
    assert_eq!(rt; bytes.items().len(), 34);
    assert!(rt; matches!(decode_head(bytes.items()), Ok(read) if read == head));
    let mut longer = bytes.items().to_vec(alloc)?;
    longer.push(0)?;
    assert!(rt; matches!(decode_head(&longer), Err(DecodeFault::Bad { at: 34 })));
    assert!(rt; matches!(decode_head(&longer[..33]), Err(DecodeFault::Cut)));
    longer[0] = 0;
    assert!(rt; matches!(decode_head(&longer), Err(DecodeFault::Bad { at: 0 })));
    for form in 2..=255u8 {
        longer[0] = form;
        assert!(rt; matches!(decode_head(&longer), Err(DecodeFault::Bad { at: 0 })));
    }
    Ok(())
}
