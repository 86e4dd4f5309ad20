//! The text in a field of a row.
use std::alloc::{AllocError, Global};

/// The bytes of a field, in which `\n`, `\t`, `\r`, `\\` and `\xHH` stand for bytes.
pub fn unescaped(alloc: Global, field: &str) -> Result<Vec<u8>, AllocError> {
    let mut text = Vec::new(alloc);
    let mut escape = Vec::new(alloc);
    for b in field.bytes() {
        escape.push(b)?;
        let byte = match escape.as_slice() {
            [b'\\', b'n'] => b'\n',
            [b'\\', b't'] => b'\t',
            [b'\\', b'r'] => b'\r',
            [b'\\', b'\\'] => b'\\',
            [b'\\'] | [b'\\', b'x'] | [b'\\', b'x', _] => continue,
            [b'\\', b'x', high, low] => hexadecimal(*high) << 4 | hexadecimal(*low),
            _ => b,
        };
        text.push(byte)?;
        escape.clear();
    }
    Ok(text)
}

fn hexadecimal(b: u8) -> u8 {
    match b {
        b'0'..=b'9' => b - b'0',
        b'a'..=b'f' => b - b'a' + 10,
        _ => 0,
    }
}
