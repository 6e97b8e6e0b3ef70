//! Lines of input in which bytes are spelled.
ghost use Rattle.std.specs.Prelude.{◌≤◌};

use mvcc_keys::Memory;

/// The value of a hexadecimal digit, and 0 of any other byte.
fn digit_value(digit: u8) -> u8
    ensures { result ≤ 15 }
{
    match digit {
        b'0'..=b'9' => digit - b'0',
        b'a'..=b'f' => digit - b'a' + 10,
        _ => 0,
    }
}

/// Appends `3 ab}c` as `abababc`.
fn put_repeated(piece: &str, out: &mut Vec<u8>) -> Result<(), Memory> {
    let Some((repetition, rest)) = piece.split_once('}') else {
        return Ok(());
    };
    if let Some((count, text)) = repetition.split_once(' ') {
        for _ in 0..count.parse::<u32>().unwrap_or(0) {
            out.extend_from_slice(text.as_bytes())?;
        }
    }
    Ok(out.extend_from_slice(rest.as_bytes())?)
}

/// Appends what follows a backslash.
fn put_escape(piece: &str, out: &mut Vec<u8>) -> Result<(), Memory> {
    if let Some(repetition) = piece.strip_prefix('{') {
        return put_repeated(repetition, out);
    }
    match piece.as_bytes() {
        [b'x', high, low, rest @ ..] => {
            out.push(digit_value(*high) * 16 + digit_value(*low))?;
            Ok(out.extend_from_slice(rest)?)
        }
        bytes => Ok(out.extend_from_slice(bytes)?),
    }
}

/// Appends a line in which `\x0a` is a byte and `\{3 ab}` is `ababab`. A backslash before anything
/// else is left out; one at the end takes the place of the line's end.
pub fn put_input(line: &str, out: &mut Vec<u8>) -> Result<(), Memory> {
    let (line, end) = match line.strip_suffix('\\') {
        Some(line) => (line, ""),
        None => (line, "\n"),
    };
    for (number, piece) in line.split('\\').enumerate() {
        if number == 0 {
            out.extend_from_slice(piece.as_bytes())?;
        } else {
            put_escape(piece, out)?;
        }
    }
    Ok(out.extend_from_slice(end.as_bytes())?)
}
