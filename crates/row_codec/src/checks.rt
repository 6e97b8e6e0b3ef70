//! Tests of row keys that take no memory.
ghost use Rattle.std.specs.Prelude.{◌≡◌, ◌++◌, ◌∷◌, ◌≤◌, ◌<◌, [], length, false, true, ℕ, List, Result, Option, MatchOption, IfSome, None};
ghost use Rattle.std.specs.Option.{option_map};
ghost use Rattle.std.specs.Str.{is_utf8};
ghost use Rattle.key_encoding.specs.Reading.{read_uvarint, unescaped};
ghost use Rattle.key_encoding.specs.declared.fault.KeyFault.{KeyFault};
ghost use Rattle.row_codec.specs.KeyReading.{an_id, is_key_of, read_datum, read_row_key, read_string, read_values, valued, a_number, a_truth, read_number, a_text, some_bytes};
ghost use Rattle.row_codec.specs.KeyChecking.{IsPart, are_values, key_tests, held_bytes, left_after, rest_of, text_after, values_left};

use crate::Kind;
use crate::fields::{take_byte, take_id};
use crate::keys::take_number;

fn is_text(b: &[u8]) -> bool
    ensures { result ≡ is_utf8 b.now }
{
    match std::str::from_utf8(b) {
        Ok(_) => true,
        Err(_) => false,
    }
}

/// The bytes of a character that has begun.
#[derive(Clone, Copy)]
pub struct Held {
    bytes: [u8; 4],
    count: usize,
}

/// What is held after one more byte of a text, or none where the text can't go on.
fn with_byte(held: Held, byte: u8) -> Option<Held>
    requires { IsPart held }
    ensures part { IfSome result (λ h. IsPart h) }
    ensures value { (read : Result (List ℕ × List ℕ) KeyFault) → MatchOption result (text_after (held_bytes held ++ byte ∷ []) read ≡ None) (λ h. text_after (held_bytes h) read ≡ text_after (held_bytes held ++ byte ∷ []) read) }
{
    let mut bytes = held.bytes;
    bytes[held.count] = byte;
    let count = held.count + 1;
    if is_text(&bytes[..count]) {
        return Some(Held { bytes, count: 0 });
    }
    if count == 4 {
        return None;
    }
    Some(Held { bytes, count })
}

/// What follows escaped bytes.
fn skip_escaped(down: bool, b: &[u8]) -> Option<&[u8]>
    ensures { (len : ℕ) → option_map (λ r. r.now) result ≡ left_after (unescaped down len false b.now) }
{
    let mut left = b;
    loop {
        match key_encoding::next_escaped(left, b.len(), down) {
            Ok((Some(_), rest)) => left = rest,
            Ok((None, rest)) => return Some(rest),
            Err(_) => return None,
        }
    }
}

/// What follows an escaped text.
fn skip_escaped_text(down: bool, b: &[u8]) -> Option<&[u8]>
    ensures { (len : ℕ) → option_map (λ r. r.now) result ≡ text_after [] (unescaped down len false b.now) }
{
    let mut held = Held {
        bytes: [0; 4],
        count: 0,
    };
    let mut left = b;
    loop {
        match key_encoding::next_escaped(left, b.len(), down) {
            Ok((Some(byte), rest)) => {
                left = rest;
                match with_byte(held, byte) {
                    Some(more) => held = more,
                    None => return None,
                }
            }
            Ok((None, rest)) => return if held.count == 0 { Some(rest) } else { None },
            Err(_) => return None,
        }
    }
}

/// What follows bytes of a key.
fn skip_bytes(down: bool, b: &[u8]) -> Option<&[u8]>
    ensures { option_map (λ r. r.now) result ≡ left_after (read_string down b.now) }
{
    match b.split_first() {
        Some((marker, rest)) if *marker == if down { 0x13 } else { 0x12 } => skip_escaped(
            down, rest,
        ),
        _ => None,
    }
}

/// What follows a text of a key.
fn skip_text(down: bool, b: &[u8]) -> Option<&[u8]>
    ensures { option_map (λ r. r.now) result ≡ text_after [] (read_string down b.now) }
{
    match b.split_first() {
        Some((marker, rest)) if *marker == if down { 0x13 } else { 0x12 } => skip_escaped_text(
            down, rest,
        ),
        _ => None,
    }
}

/// What follows a number of a key, if it is in a range.
fn skip_number(down: bool, b: &[u8]) -> Option<&[u8]>
    ensures { option_map (λ r. r.now) result ≡ rest_of (valued a_number (read_number down b.now)) }
{
    match take_number(down, b) {
        Ok((_, rest)) => Some(rest),
        Err(_) => None,
    }
}

fn skip_bool(down: bool, b: &[u8]) -> Option<&[u8]>
    ensures { option_map (λ r. r.now) result ≡ rest_of (valued a_truth (read_number down b.now)) }
{
    match take_number(down, b) {
        Ok((0, rest)) => Some(rest),
        Ok((1, rest)) => Some(rest),
        _ => None,
    }
}

/// What follows a value of a kind.
#[tactic(auto, unfolding(crate::specs::KeyReading::read_datum))]
fn skip_value(kind: Kind, b: &[u8]) -> Option<&[u8]>
    ensures { option_map (λ r. r.now) result ≡ rest_of (read_datum kind b.now) }
{
    match kind {
        Kind::Int => skip_number(false, b),
        Kind::IntDown => skip_number(true, b),
        Kind::Text => skip_text(false, b),
        Kind::TextDown => skip_text(true, b),
        Kind::Bytes => skip_bytes(false, b),
        Kind::BytesDown => skip_bytes(true, b),
        Kind::Bool => skip_bool(false, b),
        Kind::BoolDown => skip_bool(true, b),
    }
}

/// What follows values of these kinds.
fn skip_values<'a>(kinds: &[Kind], b: &'a [u8]) -> Option<&'a [u8]>
    ensures { (len : ℕ) → option_map (λ r. r.now) result ≡ values_left (read_values kinds.now len b.now) }
{
    let mut left = b;
    for kind in kinds {
        let Some(rest) = skip_value(*kind, left) else {
            return None;
        };
        left = rest;
    }
    Some(left)
}

/// Whether values of these kinds, the column family and nothing more stand here.
#[tactic(auto, unfolding(crate::specs::KeyChecking::are_values))]
fn check_values(kinds: &[Kind], b: &[u8]) -> bool
    ensures { (len : ℕ) → result ≡ are_values kinds.now len b.now }
{
    let Some(rest) = skip_values(kinds, b) else {
        return false;
    };
    match take_byte(136, rest) {
        Some(rest) => rest.is_empty(),
        None => false,
    }
}

fn is_key(b: &[u8], table: u32, kinds: &[Kind]) -> bool
    ensures { (len : ℕ) → result ≡ key_tests table kinds.now len (valued an_id (read_uvarint b.now)) }
{
    let Some((id, rest)) = take_id(b) else {
        return false;
    };
    match take_byte(137, rest) {
        Some(rest) => check_values(kinds, rest) && id == table,
        None => false,
    }
}

/// Whether bytes are the key of a row of this table with key columns of these kinds.
pub fn check_row_key(b: &[u8], table: u32, kinds: &[Kind]) -> bool
    ensures { result ≡ is_key_of table (read_row_key kinds.now b.now) }
{
    is_key(b, table, kinds)
}
