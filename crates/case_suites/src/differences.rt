//! Where two answers differ first, in a few hundred characters.
use mvcc_keys::Memory;

/// The most characters of a line that are shown.
const SHOWN_CHARACTERS: usize = 180;

/// The most characters before the first that differs that are shown.
const SHOWN_CHARACTERS_BEFORE: usize = 40;

/// The first line at which two answers differ: its number, and what it is in each of them.
#[derive(Drop)]
struct Difference<'a> {
    number: usize,
    expected: &'a str,
    actual: &'a str,
}

fn first_difference<'a>(expected: &'a str, actual: &'a str) -> Option<Difference<'a>> {
    let lines = expected.split('\n').zip(actual.split('\n'));
    for (number, (expected, actual)) in lines.enumerate() {
        if expected.as_bytes() != actual.as_bytes() {
            return Some(Difference {
                number,
                expected,
                actual,
            });
        }
    }
    None
}

/// How many characters two lines share at their front.
fn shared_characters(one: &str, other: &str) -> usize {
    one.chars()
        .zip(other.chars())
        .take_while(|pair| pair.0 == pair.1)
        .count()
}

/// Appends a line from one of its characters on.
fn put_shown(line: &str, start: usize, out: &mut String) -> Result<(), Memory> {
    for character in line.chars().skip(start).take(SHOWN_CHARACTERS) {
        out.push(character)?;
    }
    Ok(out.push('\n')?)
}

/// Appends the first line at which the answer differs from the expected one, both cut to what
/// stands around the first character that differs. A line that one of them lacks is empty.
pub fn put_difference(expected: &str, actual: &str, out: &mut String) -> Result<(), Memory> {
    let Some(difference) = first_difference(expected, actual) else {
        return Ok(());
    };
    let shared = shared_characters(difference.expected, difference.actual);
    let start = shared.saturating_sub(SHOWN_CHARACTERS_BEFORE);
    let number = difference.number.saturating_add(1);
    let column = shared.saturating_add(1);
    write!(out, "line {number}, character {column}\nexpected: ")?;
    put_shown(difference.expected, start, out)?;
    out.push_str("answered: ")?;
    put_shown(difference.actual, start, out)
}
