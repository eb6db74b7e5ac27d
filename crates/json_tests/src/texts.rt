// The readers that all texts share: what each gives with ample memory, and where each refuses.
ghost use Rattle.json_text.specs.Arrays.{whole_number};
ghost use Rattle.json_text.specs.Reading.{required};
ghost use Rattle.json_tests.specs.declared.texts.Told.TheVariants.{Bad, NoMemory};

use json_text::{
    ItemReader, KeyReader, NamedVersion, PutReader, ReadReader, Refusal, Unread, id, is_row,
    line_of, named_version, read_keyed, read_list, read_names, read_parts, read_row, read_rows,
    read_square, stored_value, value_of, version,
};
use serde_json::Value;
use std::alloc::{AllocError, Global};
use std::test::Fail;

/// Why a list of whole numbers is refused.
#[derive(Clone, Copy, Debug, PartialEq, Eq)]
enum Told {
    TooMany,
    Bad(u64),
    NoMemory,
}

impl Refusal for Told {
    ghost memory = { NoMemory };

    fn no_memory() -> Told {
        Told::NoMemory
    }
}

/// Reads whole numbers, and tells the place of what is none.
#[derive(Drop)]
struct Counting;

impl ItemReader for Counting {
    type Item = u64;

    type Error = Told;

    ghost said = { λ _ place d. required (Bad place) (whole_number d) };

    fn read(&self, _alloc: Global, place: usize, value: &Value) -> Result<u64, Told> {
        match value.as_u64() {
            Some(number) => Ok(number),
            None => Err(Told::Bad(place as u64)),
        }
    }
}

fn read(alloc: Global, text: &str) -> Result<Value, Fail> {
    Ok(value_of(alloc, text.as_bytes())?.ok_or("no JSON")?)
}

#[test]
fn rows_and_squares_are_read(rt: HostRuntime) -> Result<(), Fail> {
    let alloc = rt.alloc();
    let value = read(alloc, "[[1,2],[3,18446744073709551615]]")?;
    let square = read_square::<u64>(alloc, 2, &value)?;
    assert_eq!(rt; square.as_slice(), [1, 2, 3, u64::MAX].as_slice());
    assert_eq!(rt;
        read_square::<u64>(alloc, 3, &value).err(),
        Some(Unread::OtherForm)
    );
    let rows = value.as_array().ok_or("no array")?.as_slice();
    assert_eq!(rt;
        read_rows::<u64>(alloc, 2, rows)?.as_slice(),
        square.as_slice()
    );
    assert_eq!(rt;
        read_rows::<u64>(alloc, 2, &[]).err(),
        Some(Unread::OtherForm)
    );
    let last = rows.last().ok_or("no row")?;
    assert!(rt; is_row::<u64>(2, last) && !is_row::<i64>(2, last));
    assert!(rt; !is_row::<u64>(1, last) && !is_row::<u64>(2, &value));
    let value = read(alloc, "[-9223372036854775808,0]")?;
    let row = read_row::<i64>(alloc, 2, &value)?;
    assert_eq!(rt; row.as_slice(), [i64::MIN, 0].as_slice());
    assert_eq!(rt;
        read_row::<u64>(alloc, 2, &value).err(),
        Some(Unread::OtherForm)
    );
    Ok(())
}

#[test]
fn a_list_tells_the_first_bad_place(rt: HostRuntime) -> Result<(), Fail> {
    let alloc = rt.alloc();
    let value = read(alloc, "[1,2,-3,\"x\"]")?;
    let items = value.as_array().ok_or("no array")?;
    let refused = read_list(alloc, items.as_slice(), 4, Told::TooMany, &Counting).err();
    assert_eq!(rt; refused, Some(Told::Bad(2)));
    let refused = read_list(alloc, items.as_slice(), 3, Told::TooMany, &Counting).err();
    assert_eq!(rt; refused, Some(Told::TooMany));
    let value = read(alloc, "[1,2]")?;
    let items = value.as_array().ok_or("no array")?;
    let numbers = read_list(alloc, items.as_slice(), 2, Told::TooMany, &Counting)?;
    assert_eq!(rt; numbers.as_slice(), [1, 2].as_slice());
    Ok(())
}

/// How many reads or writes the list of pairs has, where it is read.
fn counts(alloc: Global, text: &str) -> Result<(Option<usize>, Option<usize>), Fail> {
    let value = read(alloc, text)?;
    let items = value.as_array().ok_or("no array")?;
    let reads = read_keyed(alloc, items.as_slice(), &ReadReader).ok();
    let puts = read_keyed(alloc, items.as_slice(), &PutReader).ok();
    Ok((reads.map(|r| r.len()), puts.map(|p| p.len())))
}

#[test]
fn reads_and_writes_have_distinct_keys(rt: HostRuntime) -> Result<(), Fail> {
    let cases = [
        ("[[\"x\",\"initial\"],[\"y\",\"0@1\"]]", Some(2), Some(2)),
        ("[[\"x\",\"v\"]]", None, Some(1)),
        ("[[\"x\",\"initial\"],[\"x\",\"0@1\"]]", None, None),
        ("[[\"x\",\"initial\",1]]", None, None),
        ("[[\"\",\"initial\"]]", None, None),
        ("[]", Some(0), Some(0)),
    ];
    for (text, reads, puts) in cases {
        assert_eq!(rt; counts(rt.alloc(), text)?, (reads, puts));
    }
    Ok(())
}

#[test]
fn versions_are_read(rt: HostRuntime) -> Result<(), Fail> {
    let cases = [
        ("\"31@4611686018427387904\"", true, true, true),
        ("\"initial\"", false, true, true),
        ("\"current\"", false, false, true),
        ("\"32@1\"", false, false, false),
        ("\"0@0\"", false, false, false),
        ("\"00@1\"", false, false, false),
        ("\"0@01\"", false, false, false),
        ("1", false, false, false),
    ];
    for (text, is_id, is_version, is_named) in cases {
        let value = read(rt.alloc(), text)?;
        assert_eq!(rt; id(&value).is_some(), is_id);
        assert_eq!(rt; version(&value).is_some(), is_version);
        assert_eq!(rt; named_version(&value).is_some(), is_named);
    }
    let value = read(rt.alloc(), "\"current\"")?;
    assert!(rt; matches!(named_version(&value), Some(NamedVersion::Current)));
    Ok(())
}

#[test]
fn keys_values_and_names_are_read(rt: HostRuntime) -> Result<(), Fail> {
    let alloc = rt.alloc();
    let value = read(alloc, "[\"a\",\"b\"]")?;
    let items = value.as_array().ok_or("no array")?;
    let keys = read_parts(alloc, items.as_slice(), 2, &KeyReader)?;
    assert_eq!(rt; keys.len(), 2);
    assert_eq!(rt; keys[1].items(), b"b".as_slice());
    let few = read_parts(alloc, items.as_slice(), 1, &KeyReader).err();
    assert_eq!(rt; few, Some(Unread::OtherForm));
    let names = read_names(alloc, items)?;
    assert_eq!(rt; names.len(), 2);
    let value = read(alloc, "\"v1\"")?;
    assert_eq!(rt; stored_value(alloc, &value)?.items(), b"v1".as_slice());
    let value = read(alloc, "{\"b\":[1],\"a\":\"x\"}")?;
    assert_eq!(rt;
        line_of(alloc, &value)?.items(),
        b"{\"a\":\"x\",\"b\":[1]}\n".as_slice()
    );
    Ok(())
}
