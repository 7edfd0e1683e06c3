use std::alloc::{AllocError, Global};

/// The value of a hexadecimal digit.
fn digit(byte: u8) -> u8 {
    match byte {
        b'0'..=b'9' => byte - b'0',
        b'a'..=b'f' => byte - b'a' + 10,
        _ => 0,
    }
}

/// The byte that stands behind a `\`, and how many bytes of the text it takes.
fn escape(text: &[u8]) -> (u8, usize) {
    match text {
        [b'r', ..] => (b'\r', 1),
        [b'n', ..] => (b'\n', 1),
        [b't', ..] => (b'\t', 1),
        [b'0', ..] => (0, 1),
        [b's', ..] => (b' ', 1),
        [b'x', high, low, ..] => (digit(*high).wrapping_mul(16).wrapping_add(digit(*low)), 3),
        [other, ..] => (*other, 1),
        [] => (b'\\', 0),
    }
}

/// Adds the bytes of a text without repetitions.
fn push_plain(bytes: &mut Vec<u8>, text: &[u8]) -> Result<(), AllocError> {
    let mut skip: usize = 0;
    for (place, byte) in text.iter().enumerate() {
        if skip > 0 {
            skip -= 1;
        } else if *byte == b'\\' {
            let (read, count) = escape(&text[place + 1..]);
            bytes.push(read)?;
            skip = count;
        } else {
            bytes.push(*byte)?;
        }
    }
    Ok(())
}

/// Adds the text between `\{` and `|}`, as often as the number before its bar says.
fn push_times(bytes: &mut Vec<u8>, inner: &str) -> Result<(), AllocError> {
    let (count, repeated) = inner.split_once('|').unwrap_or(("0", ""));
    for _turn in 0..count.parse::<usize>().unwrap_or(0) {
        push_plain(bytes, repeated.as_bytes())?;
    }
    Ok(())
}

/// The bytes that a text stands for: `\r`, `\n`, `\t`, `\0`, `\s` for a space, `\xHH`, and `\` before another byte for that byte. Between
/// `\{N|` and `|}` stands a text that comes N times.
pub fn unescaped(alloc: Global, text: &str) -> Result<Vec<u8>, AllocError> {
    let mut bytes = Vec::new(alloc);
    let mut rest = text;
    for _part in 0..text.len() {
        let Some((front, more)) = rest.split_once("\\{") else {
            break;
        };
        push_plain(&mut bytes, front.as_bytes())?;
        let (inner, behind) = more.split_once("|}").unwrap_or((more, ""));
        push_times(&mut bytes, inner)?;
        rest = behind;
    }
    push_plain(&mut bytes, rest.as_bytes())?;
    Ok(bytes)
}

/// Adds the text of bytes, each that isn't printable ASCII escaped.
pub fn push_escaped(text: &mut String, bytes: &[u8]) -> Result<(), AllocError> {
    for byte in bytes {
        match *byte {
            b'\r' => text.push_str("\\r")?,
            b'\n' => text.push_str("\\n")?,
            b'\t' => text.push_str("\\t")?,
            b' '..=b'~' => text.push(char::from(*byte))?,
            other => write!(text, "\\x{other:02x}")?,
        }
    }
    Ok(())
}

/// The text of bytes, each that isn't printable ASCII escaped.
pub fn escaped(alloc: Global, bytes: &[u8]) -> Result<String, AllocError> {
    let mut text = String::new(alloc);
    push_escaped(&mut text, bytes)?;
    Ok(text)
}
