//! The text of a time, both ways.
ghost use Rattle.std.specs.Prelude.{◌≡◌, ◌++◌, ◌+◌, ◌-◌, ◌*◌, ◌≤◌, ◌^◌, true, OnOk, OnErr, IfSome, IfNone, Some};
ghost use Rattle.std.specs.Result.{result_ok};
ghost use Rattle.mvcc_keys.specs.TimeTexts.{time_text, read_time, read_digits, is_digit, are_digits, digits_after, is_least, is_point, time_of, TimesAreExact};

use crate::{Hlc, LOGICAL_MAX, Memory};
use std::fmt;

impl fmt::Display for Hlc {
    ghost output = { λ t. Some (time_text t) };

    fn fmt<W: fmt::Write>(&self, f: &mut fmt::Formatter<W>) -> fmt::Result {
        let wall = self.wall();
        let logical = self.logical();
        write!(f, "{wall}.{logical:010}")
    }
}

/// Appends the text of a time.
pub fn put_time_text(t: Hlc, out: &mut Vec<u8>) -> Result<(), Memory>
    ensures appended { OnOk result (out.new.items ≡ out.old.items ++ time_text t) }
    ensures kept { OnErr result (out.new.items ≡ out.old.items) }
{
    let alloc = *out.allocator();
    let Ok(text) = format!(in alloc; "{t}") else {
        return Err(Memory);
    };
    out.extend_from_slice(text.as_bytes()).map_err(|_| Memory)
}

/// The bytes are no time's text.
#[derive(Clone, Copy, Debug, PartialEq, Eq)]
pub struct TimeFault;

fn is_digit(byte: u8) -> bool
    ensures { result ≡ is_digit byte }
{
    48 <= byte && byte <= 57
}

/// Digits alone.
fn are_digits(digits: &[u8]) -> bool
    ensures { result ≡ are_digits digits.now }
{
    digits.iter().all(|d| is_digit(*d))
}

/// The value with one more digit, if it has at most 64 bits.
fn with_digit(value: u64, digit: u8) -> Option<u64>
    ensures some { IfSome result (λ n. n ≡ 10 * value + (digit - 48)) }
    ensures none { IfNone result (2 ^ 64 ≤ 10 * value + (digit - 48)) }
{
    let unit = u64::from(digit.saturating_sub(48));
    value.checked_mul(10)?.checked_add(unit)
}

/// The value of digits, if it has at most 64 bits.
fn digits_value(digits: &[u8]) -> Option<u64>
    ensures some { IfSome result (λ n. n ≡ digits_after 0 digits.now) }
    ensures none { IfNone result (2 ^ 64 ≤ digits_after 0 digits.now) }
{
    let mut value: u64 = 0;
    for digit in digits {
        let Some(more) = with_digit(value, *digit) else {
            return None;
        };
        value = more;
    }
    Some(value)
}

#[tactic(auto, unfolding(crate::specs::TimeTexts::read_digits))]
fn read_digits(digits: &[u8]) -> Option<u64>
    ensures { result ≡ read_digits digits.now }
{
    if !are_digits(digits) {
        return None;
    }
    digits_value(digits)
}

/// Some digits, and no zero in front of others.
fn is_least(digits: &[u8]) -> bool
    ensures { result ≡ is_least digits.now }
{
    match digits {
        [] => false,
        [_] => true,
        [first, ..] => *first != b'0',
    }
}

fn is_point(bytes: &[u8]) -> bool
    ensures { result ≡ is_point bytes.now }
{
    match bytes {
        [first, ..] => *first == b'.',
        [] => false,
    }
}

fn time_of(wall: Option<u64>, logical: Option<u64>) -> Option<Hlc>
    ensures { result ≡ time_of wall logical }
{
    let wall = wall?;
    let logical = logical?;
    if logical > u64::from(LOGICAL_MAX) {
        return None;
    }
    Hlc::new(wall, logical as u32)
}

/// The time that a text spells.
#[tactic(auto, unfolding(crate::specs::TimeTexts::read_time))]
pub fn parse_time(text: &[u8]) -> Result<Hlc, TimeFault>
    ensures { result_ok result ≡ read_time text.now }
{
    let len = text.len();
    if len < 11 {
        return Err(TimeFault);
    }
    let (wall, rest) = text.split_at(len - 11);
    if !is_least(wall) || !is_point(rest) {
        return Err(TimeFault);
    }
    let (_, logical) = rest.split_at(1);
    time_of(read_digits(wall), read_digits(logical)).ok_or(TimeFault)
}

/// A law: what is read of a text is the one time whose text it is.
pub fn times_are_exact()
    ensures { TimesAreExact }
{}
