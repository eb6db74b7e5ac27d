// Answers: their bytes, where an input is cut, and which inputs are bad.
use crate::texts::{bytes_of, with_message};
use helios_model::{Bytes, Reply, SiteId, State, Val, Version};
use link_codec::{Answer, LinkFault, append_answer, decode_answer, encode_answer};
use std::alloc::Global;
use std::test::Fail;

// What a decoder of answers says: how many bytes it took, or why it took none.
fn told(alloc: Global, input: &[u8]) -> Result<usize, LinkFault> {
    let (_answer, length) = decode_answer(alloc, input)?;
    Ok(length)
}

// Whether each front of an input is cut.
fn are_cut(alloc: Global, input: &[u8]) -> bool {
    for length in 0..input.len() {
        if told(alloc, &input[..length]) != Err(LinkFault::Cut) {
            return false;
        }
    }
    true
}

// Whether the whole input is an answer, which is read whatever follows it and is written as it was read.
fn is_written_again(alloc: Global, input: &[u8]) -> Result<bool, Fail> {
    let mut longer = input.to_vec(alloc)?;
    longer.push(255)?;
    match decode_answer(alloc, &longer) {
        Err(_) => Ok(false),
        Ok((answer, length)) => {
            let bytes = encode_answer(alloc, &answer)?;
            let mut out = Vec::new(alloc);
            append_answer(alloc, &mut out, &answer)?;
            Ok(length == input.len() && bytes.items() == input && out.as_slice() == input)
        }
    }
}

// An answer of each kind, and of each kind of reply but one with a message.
fn answers() -> &'static str {
    "\
        01 00000001 00 ; site 0\n\
        01 00000001 1f ; site 31\n\
        02 0000000a 010000000000000003e8 ; prepared 0@1000\n\
        02 0000000a 021f4000000000000000 ; committed 31@4611686018427387904\n\
        02 0000000d 03017801010000000000000001 ; overwritten x 1@1\n\
        02 0000000a 04010000000000000001 ; conflict 1@1\n\
        02 00000004 05000000 ; value initial, empty\n\
        02 0000000f 05010000000000000003e800027631 ; value 0@1000 v1\n\
        02 00000002 0600 ; state pending\n\
        02 00000002 0601 ; state committed\n\
        02 0000000b 06020100000000000003e8 ; state aborted 1@1000\n\
        02 00000002 0603 ; state unknown\n\
        02 00000001 08 ; taken\n\
        02 00000001 09 ; clock-spent\n\
        02 00000001 0a ; pool-full\n\
        03 00000001 01 ; code 1\n\
        03 00000001 07 ; code 7"
}

#[test]
fn each_answer_is_written_as_it_was_read(rt: HostRuntime) -> Result<(), Fail> {
    let alloc = rt.alloc();
    for line in answers().lines() {
        let input = bytes_of(alloc, line)?;
        assert!(rt; are_cut(alloc, &input), "{line}");
        assert!(rt; is_written_again(alloc, &input)?, "{line}");
    }
    let sent = with_message(alloc, "02 00000055 07")?;
    assert!(rt; are_cut(alloc, &sent));
    assert!(rt; is_written_again(alloc, &sent)?);
    Ok(())
}

// The answers to a Hello and to a Get of a key that nobody wrote.
fn session(alloc: Global) -> Result<Vec<u8>, Fail> {
    let mut out = Vec::new(alloc);
    let site = SiteId::new(0).ok_or("a site")?;
    append_answer(alloc, &mut out, &Answer::Welcome(site))?;
    let value = Val::new(Bytes::new(Vec::new(alloc))).ok_or("a value")?;
    let reply = Reply::Value {
        version: Version::Initial,
        value,
    };
    append_answer(alloc, &mut out, &Answer::Reply(reply))?;
    Ok(out)
}

#[test]
fn answers_have_their_bytes(rt: HostRuntime) -> Result<(), Fail> {
    let alloc = rt.alloc();
    let whole = bytes_of(alloc, "01 00000001 00 02 00000004 05000000")?;
    assert_eq!(rt; session(alloc)?.as_slice(), whole.as_slice());
    let unknown = encode_answer(alloc, &Answer::Reply(Reply::State(State::Unknown)))?;
    assert_eq!(rt;
        unknown.items(),
        bytes_of(alloc, "02 00000002 0603")?.as_slice()
    );
    let spent = encode_answer(alloc, &Answer::Reply(Reply::ClockSpent))?;
    assert_eq!(rt;
        spent.items(),
        bytes_of(alloc, "02 00000001 09")?.as_slice()
    );
    let refused = encode_answer(alloc, &Answer::Refuse(4))?;
    assert_eq!(rt;
        refused.items(),
        bytes_of(alloc, "03 00000001 04")?.as_slice()
    );
    Ok(())
}

// What no more bytes can make an answer, and its mistake.
fn bad() -> &'static str {
    "\
        00 ; no such kind\n\
        04 ; no such kind\n\
        ff ; no such kind\n\
        02 00128426 ; a body of 1,213,478 bytes\n\
        01 ffffffff ; a body of 4,294,967,295 bytes\n\
        01 00000001 20 ; the site 32\n\
        01 00000000 ; no site\n\
        01 00000002 0000 ; two bytes for a site\n\
        02 00000000 ; no reply\n\
        02 00000001 00 ; no such kind of reply\n\
        02 00000001 0b ; no such kind of reply\n\
        02 0000000a 01000000000000000000 ; an id of the time 0\n\
        02 0000000a 02200000000000000001 ; an id of the site 32\n\
        02 00000009 040000000000000001 ; an id of 8 bytes\n\
        02 0000000b 0400000000000000000100 ; an id of 10 bytes\n\
        02 00000003 030178 ; no version of the overwritten key\n\
        02 00000005 0301780000 ; a byte behind the version\n\
        02 00000004 05000401 ; a value of 1,025 bytes\n\
        02 00000004 05000001 ; a value that ends early\n\
        02 00000004 05020000 ; a version that is neither 0 nor 1\n\
        02 00000002 0604 ; no such kind of state\n\
        02 00000002 0602 ; an abort without its cause\n\
        02 00000002 0800 ; a byte behind a reply\n\
        03 00000001 00 ; the code 0\n\
        03 00000001 08 ; the code 8\n\
        03 00000000 ; no code"
}

#[test]
fn what_is_bad_is_bad_whatever_follows(rt: HostRuntime) -> Result<(), Fail> {
    let alloc = rt.alloc();
    for line in bad().lines() {
        let mut input = bytes_of(alloc, line)?;
        assert_eq!(rt; told(alloc, &input), Err(LinkFault::Bad), "{line}");
        input.extend_from_slice(&[0; 100])?;
        assert_eq!(rt; told(alloc, &input), Err(LinkFault::Bad), "longer {line}");
    }
    Ok(())
}

#[test]
fn an_answer_is_cut_by_its_kind_and_length_alone(rt: HostRuntime) -> Result<(), Fail> {
    let alloc = rt.alloc();
    for line in ["", "03 00000002", "02 00128425", "01 0000"] {
        let input = bytes_of(alloc, line)?;
        assert_eq!(rt; told(alloc, &input), Err(LinkFault::Cut), "{line}");
    }
    Ok(())
}
