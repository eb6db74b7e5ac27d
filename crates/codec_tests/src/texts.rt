// Bytes as hexadecimal texts.
use std::alloc::Global;
use std::test::Fail;

// The bytes that a line spells, up to the `;` behind which it says what they are.
pub(crate) fn bytes_of(alloc: Global, line: &str) -> Result<Vec<u8>, Fail> {
    let mut digits = Vec::new(alloc);
    for byte in line.bytes() {
        if byte == b';' {
            break;
        }
        if byte != b' ' {
            digits.push(byte)?;
        }
    }
    Ok(hex::decode(alloc, digits).ok().ok_or("hexadecimal digits")?)
}

// The message of two sites from 0 to 1 with the table 2000 6 / 7 8, the cover 2000 6 and no records; its digest is that of another
// program. It has 84 bytes.
pub(crate) fn message() -> &'static str {
    "020001 \
     00000000000007d0 0000000000000006 0000000000000007 0000000000000008 \
     00000000000007d0 0000000000000006 00 \
     3f0357e6f63b915bf13e09f8a3f4e653e131b3bc05ea5c3db5d4b58d5944fcf4"
}

// A line, with the message behind it.
pub(crate) fn with_message(alloc: Global, line: &str) -> Result<Vec<u8>, Fail> {
    let mut bytes = bytes_of(alloc, line)?;
    bytes.extend_from_slice(&bytes_of(alloc, message())?)?;
    Ok(bytes)
}
