// Entries and batches: their bytes, and where a reader refuses what is none.
ghost use Rattle.std.specs.Prelude.{IfOk};
ghost use Rattle.log_records.specs.Entries.{IsWritable};

use helios_model::{
    Ask, Bytes, Entries, Entry, Input, Key, PutItem, Puts, ReadItem, Reads, SiteId, Val, Version,
};
use log_records::{
    DecodeFault, decode_batch, decode_entry, encode_batch, encode_entry, entries_can_be_written,
};
use std::alloc::Global;
use std::test::Fail;

// At the reading 7, what reads x at the initial version and puts the bytes `v1` under y.
const REQUEST: [u8; 20] = [
    0, 0, 0, 0, 0, 0, 0, 7, 1, 1, 1, 120, 0, 1, 1, 121, 0, 2, 118, 49,
];

// At the reading 7, the question for a message to site 1.
const PULL: [u8; 10] = [0, 0, 0, 0, 0, 0, 0, 7, 2, 1];

// At the reading 7, a message of two sites from 0 to 1: the table 7, 6, 0, 6, the cover 7, 6, the commit of 1@5 at the time 6, and
// the digest as another program told it.
const PUSH: [u8; 111] = [
    0, 0, 0, 0, 0, 0, 0, 7, 3, 2, 0, 1, 0, 0, 0, 0, 0, 0, 0, 7, 0, 0, 0, 0, 0, 0, 0, 6, 0, 0, 0, 0,
    0, 0, 0, 0, 0, 0, 0, 0, 0, 0, 0, 6, 0, 0, 0, 0, 0, 0, 0, 7, 0, 0, 0, 0, 0, 0, 0, 6, 1, 2, 1, 0,
    0, 0, 0, 0, 0, 0, 5, 0, 0, 0, 0, 0, 0, 0, 6, 156, 105, 233, 113, 27, 19, 223, 225, 134, 106, 1,
    129, 157, 54, 247, 28, 15, 143, 255, 237, 25, 59, 64, 153, 114, 9, 184, 69, 27, 222, 135, 127,
];

// The two entries before the last.
const BATCH: [u8; 31] = [
    2, 0, 0, 0, 0, 0, 0, 0, 7, 1, 1, 1, 120, 0, 1, 1, 121, 0, 2, 118, 49, 0, 0, 0, 0, 0, 0, 0, 7,
    2, 1,
];

fn key(alloc: Global, text: &[u8]) -> Result<Key, Fail> {
    Ok(Key::new(Bytes::new(text.to_vec(alloc)?)).ok_or("a key")?)
}

fn request(alloc: Global) -> Result<Entry, Fail>
    ensures { IfOk result IsWritable }
{
    let read = ReadItem {
        key: key(alloc, b"x")?,
        version: Version::Initial,
    };
    let put = PutItem {
        key: key(alloc, b"y")?,
        value: Val::new(Bytes::new(b"v1".to_vec(alloc)?)).ok_or("a value")?,
    };
    let reads = Reads::new(vec![in alloc; read]?);
    let puts = Puts::new(vec![in alloc; put]?);
    Ok(Entry {
        reading: 7,
        input: Input::Request(Ask::new(reads, puts).ok_or("a request")?),
    })
}

fn pull() -> Result<Entry, Fail>
    ensures { IfOk result IsWritable }
{
    Ok(Entry {
        reading: 7,
        input: Input::Pull(SiteId::new(1).ok_or("a site")?),
    })
}

// What a decoder of entries of two sites answers: how many bytes it took, or why it took none.
fn told(alloc: Global, input: &[u8]) -> Result<usize, DecodeFault> {
    let (_entry, length) = decode_entry(alloc, input, 2)?;
    Ok(length)
}

// What a decoder of batches of two sites answers: how many entries there are, or why there are none.
fn counted(alloc: Global, input: &[u8]) -> Result<usize, DecodeFault> {
    let entries = decode_batch(alloc, input, 2)?;
    Ok(entries.items().len())
}

// Whether the whole input is an entry of two sites, which is written as it was read.
fn is_written_again(alloc: Global, input: &[u8]) -> Result<bool, Fail> {
    entries_can_be_written();
    match decode_entry(alloc, input, 2) {
        Err(_) => Ok(false),
        Ok((entry, length)) => {
            let bytes = encode_entry(alloc, &entry)?;
            Ok(length == input.len() && bytes.items() == input)
        }
    }
}

#[test]
fn each_kind_of_entry_is_written_as_it_was_read(rt: HostRuntime) -> Result<(), Fail> {
    let alloc = rt.alloc();
    assert!(rt; is_written_again(alloc, &REQUEST)?);
    assert!(rt; is_written_again(alloc, &PULL)?);
    assert!(rt; is_written_again(alloc, &PUSH)?);
    Ok(())
}

#[test]
fn entries_and_batches_have_their_bytes(rt: HostRuntime) -> Result<(), Fail> {
    let alloc = rt.alloc();
    let request = request(alloc)?;
    let bytes = encode_entry(alloc, &request)?;
    assert_eq!(rt; bytes.items(), REQUEST.as_slice());
    let pull = pull()?;
    let bytes = encode_entry(alloc, &pull)?;
    assert_eq!(rt; bytes.items(), PULL.as_slice());
    let entries = Entries::new(vec![in alloc; request, pull]?);
    let bytes = encode_batch(alloc, &entries)?;
    assert_eq!(rt; bytes.items(), BATCH.as_slice());
    Ok(())
}

#[test]
fn each_kind_of_entry_is_read(rt: HostRuntime) -> Result<(), Fail> {
    let alloc = rt.alloc();
    assert!(rt;
        matches!(
            decode_entry(alloc, &REQUEST, 2),
            Ok((
                Entry {
                    reading: 7,
                    input: Input::Request(_)
                },
                20
            ))
        )
    );
    assert!(rt;
        matches!(
            decode_entry(alloc, &PULL, 2),
            Ok((
                Entry {
                    reading: 7,
                    input: Input::Pull(_)
                },
                10
            ))
        )
    );
    assert!(rt;
        matches!(
            decode_entry(alloc, &PUSH, 2),
            Ok((
                Entry {
                    reading: 7,
                    input: Input::Push(_)
                },
                111
            ))
        )
    );
    assert_eq!(rt; counted(alloc, &BATCH), Ok(2));
    Ok(())
}

#[test]
fn what_follows_an_entry_is_left_and_behind_a_batch_is_bad(rt: HostRuntime) -> Result<(), Fail> {
    let alloc = rt.alloc();
    let mut longer = PULL.to_vec(alloc)?;
    longer.push(0)?;
    assert_eq!(rt; told(alloc, &longer), Ok(10));
    let mut longer = BATCH.to_vec(alloc)?;
    longer.push(0)?;
    assert_eq!(rt; counted(alloc, &longer), Err(DecodeFault::Bad { at: 31 }));
    Ok(())
}

#[test]
fn each_front_is_cut(rt: HostRuntime) {
    let alloc = rt.alloc();
    for length in 0..REQUEST.len() {
        assert_eq!(rt; told(alloc, &REQUEST[..length]), Err(DecodeFault::Cut));
    }
    for length in 0..PULL.len() {
        assert_eq!(rt; told(alloc, &PULL[..length]), Err(DecodeFault::Cut));
    }
    for length in 0..PUSH.len() {
        assert_eq!(rt; told(alloc, &PUSH[..length]), Err(DecodeFault::Cut));
    }
    for length in 0..BATCH.len() {
        assert_eq!(rt; counted(alloc, &BATCH[..length]), Err(DecodeFault::Cut));
    }
}

// With this byte put at its place, the input is refused there.
fn is_refused(alloc: Global, input: &[u8], place: usize, byte: u8) -> Result<bool, Fail> {
    let mut changed = input.to_vec(alloc)?;
    if place < changed.len() {
        changed[place] = byte;
    }
    Ok(told(alloc, &changed) == Err(DecodeFault::Bad { at: place }))
}

// The place in the request, and a byte that its field does not have.
const REFUSED: [(usize, u8); 12] = [
    // a kind that there is not
    (8, 0),
    (8, 4),
    // seventeen reads
    (9, 17),
    // a key of no bytes, one of sixty-five, and one with a blank
    (10, 0),
    (10, 65),
    (11, 32),
    // a version that is neither 0 nor 1
    (12, 2),
    // seventeen puts
    (13, 17),
    // a key of no bytes, and one with an equals sign
    (14, 0),
    (15, 61),
    // a value of more than 1,024 bytes
    (16, 4),
    (16, 255),
];

#[test]
fn each_field_is_refused_at_its_first_byte(rt: HostRuntime) -> Result<(), Fail> {
    let alloc = rt.alloc();
    for (place, byte) in REFUSED {
        assert!(rt;
            is_refused(alloc, &REQUEST, place, byte)?,
            "{byte} at {place}"
        );
    }
    assert!(rt; is_refused(alloc, &PULL, 9, 2)?);
    assert!(rt; is_refused(alloc, &PUSH, 10, 2)?);
    assert!(rt; is_refused(alloc, &PUSH, 11, 0)?);
    assert!(rt; is_refused(alloc, &PUSH, 60, 65)?);
    let mut other = PUSH;
    other[110] = 126;
    assert_eq!(rt; told(alloc, &other), Err(DecodeFault::BadDigest));
    Ok(())
}

#[test]
fn a_message_of_another_count_is_refused_at_its_count(rt: HostRuntime) -> Result<(), Fail> {
    let alloc = rt.alloc();
    for count in [0, 1, 3, 32, 33, 255] {
        assert!(rt; is_refused(alloc, &PUSH, 9, count)?);
        assert!(rt; is_refused(alloc, &PUSH[..10], 9, count)?);
    }
    assert_eq!(rt; told(alloc, &PUSH[..10]), Err(DecodeFault::Cut));
    assert!(rt;
        matches!(
            decode_entry(alloc, &PUSH, 3),
            Err(DecodeFault::Bad { at: 9 })
        )
    );
    assert!(rt;
        matches!(
            decode_entry(alloc, &PUSH, 1),
            Err(DecodeFault::Bad { at: 9 })
        )
    );
    Ok(())
}

#[test]
fn a_reading_is_any_number(rt: HostRuntime) {
    let alloc = rt.alloc();
    let input = [255, 255, 255, 255, 255, 255, 255, 255, 2, 1];
    assert!(rt;
        matches!(
            decode_entry(alloc, &input, 2),
            Ok((
                Entry {
                    reading: 0xffff_ffff_ffff_ffff,
                    input: Input::Pull(_)
                },
                10
            ))
        )
    );
}

// What reads x at the version of a site and a time whose first and last bytes these are.
const fn reads_of(site: u8, first: u8, last: u8) -> [u8; 23] {
    [
        0, 0, 0, 0, 0, 0, 0, 7, 1, 1, 1, 120, 1, site, first, 0, 0, 0, 0, 0, 0, last, 0,
    ]
}

#[test]
fn versions_name_any_site_up_to_the_last_time(rt: HostRuntime) {
    let alloc = rt.alloc();
    assert_eq!(rt; told(alloc, &reads_of(31, 0, 1)), Ok(23));
    assert_eq!(rt;
        told(alloc, &reads_of(32, 0, 1)),
        Err(DecodeFault::Bad { at: 13 })
    );
    assert_eq!(rt;
        told(alloc, &reads_of(31, 0, 0)),
        Err(DecodeFault::Bad { at: 14 })
    );
    assert_eq!(rt; told(alloc, &reads_of(31, 0x40, 0)), Ok(23));
    assert_eq!(rt;
        told(alloc, &reads_of(31, 0x40, 1)),
        Err(DecodeFault::Bad { at: 14 })
    );
}

#[test]
fn a_key_given_twice_is_refused(rt: HostRuntime) -> Result<(), Fail> {
    let alloc = rt.alloc();
    let mut puts = REQUEST[..9].to_vec(alloc)?;
    puts.extend_from_slice(&[0, 2, 1, 121, 0, 0, 1, 121])?;
    assert_eq!(rt; told(alloc, &puts), Err(DecodeFault::Bad { at: 16 }));
    let mut reads = REQUEST[..9].to_vec(alloc)?;
    reads.extend_from_slice(&[2, 1, 120, 0, 1, 120])?;
    assert_eq!(rt; told(alloc, &reads), Err(DecodeFault::Bad { at: 14 }));
    // a key that is read may be put
    let mut both = REQUEST;
    both[15] = 120;
    assert_eq!(rt; told(alloc, &both), Ok(20));
    Ok(())
}

#[test]
fn a_batch_has_from_one_to_sixteen_entries(rt: HostRuntime) -> Result<(), Fail> {
    let alloc = rt.alloc();
    for many in 0..18u8 {
        let mut input = vec![in alloc; many]?;
        for _ in 0..many {
            input.extend_from_slice(&PULL)?;
        }
        if many == 0 || many == 17 {
            assert_eq!(rt; counted(alloc, &input), Err(DecodeFault::Bad { at: 0 }));
        } else {
            assert_eq!(rt; counted(alloc, &input), Ok(many as usize));
        }
    }
    Ok(())
}
