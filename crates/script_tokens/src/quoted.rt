//! The tokens between quotes: texts, and bytes in hexadecimal digits.
ghost use Rattle.std.specs.Prelude.{◌≡◌, ◌<◌, ◌≤◌, ◌+◌, length, drop, option_map, Some, None, IfOk, IfSome, OnOk, ◌++◌, ◌∷◌, []};
ghost use Rattle.std.specs.List.{take_while};
ghost use Rattle.script_tokens.specs.Tokens.{is_digit, is_hex_digit, hex_value, begins_with_quote, begins_bytes, text_body, text_cut, utf8_text, is_doubled, hex_bytes, bytes_cut, bytes_after, cut};

use crate::Token;
use mvcc_keys::{Blob, Memory, Text};
use std::alloc::Global;

fn put_byte(found: &mut Vec<u8>, byte: u8) -> Result<(), Memory>
    ensures { OnOk result (found.new.items ≡ found.old.items ++ byte ∷ []) }
{
    Ok(found.push(byte)?)
}

/// Whether the second byte is a quote.
fn is_doubled(bytes: &[u8]) -> bool
    ensures { result ≡ is_doubled bytes.now }
{
    match bytes {
        [_, b, ..] => *b == b'\'',
        _ => false,
    }
}

/// What a text says after its first quote, and how many bytes it takes with its last.
fn text_body(alloc: Global, bytes: &[u8]) -> Result<Option<(Vec<u8>, usize)>, Memory>
    ensures value { IfOk result (λ o. option_map (λ x. (x.0.items, x.1)) o ≡ text_body bytes.now) }
    ensures within { IfOk result (λ o. IfSome o (λ x. x.1 ≤ length bytes.now)) }
{
    let mut found = Vec::new(alloc);
    let mut rest = bytes;
    let mut len: usize = 0;
    'all: while !rest.is_empty() {
        let first = rest[0];
        if first != b'\'' {
            put_byte(&mut found, first)?;
            rest = rest.split_at(1).1;
            len = bytes.len() - rest.len();
        } else {
            if !is_doubled(rest) {
                return Ok(Some((found, len + 1)));
            }
            put_byte(&mut found, b'\'')?;
            rest = rest.split_at(2).1;
            len = bytes.len() - rest.len();
        }
    }
    Ok(None)
}

/// The text of bytes that are UTF-8.
fn utf8_text(bytes: Vec<u8>) -> Option<Text>
    ensures { result ≡ utf8_text bytes.items }
{
    match String::from_utf8(bytes) {
        Ok(text) => Some(Text::from_string(text)),
        Err(_) => None,
    }
}

/// The text after its first quote.
pub(crate) fn text_token(alloc: Global, bytes: &[u8]) -> Result<(Token, usize), Memory>
    ensures value { IfOk result (λ x. cut x.0 x.1 ≡ text_cut (text_body bytes.now)) }
    ensures within { IfOk result (λ x. x.1 ≤ length bytes.now + 1) }
    ensures some { IfOk result (λ x. 0 < x.1) }
{
    let Some((found, len)) = text_body(alloc, bytes)? else {
        return Ok((Token::Bad, 1));
    };
    match utf8_text(found) {
        Some(text) => Ok((Token::Text(text), 1 + len)),
        None => Ok((Token::Bad, 1)),
    }
}

fn is_hex_digit(b: u8) -> bool
    ensures { result ≡ is_hex_digit b }
{
    b'0' <= b && b <= b'9' || b'a' <= b && b <= b'f' || b'A' <= b && b <= b'F'
}

/// The value of a digit, and 0 of any other byte.
fn hex_value(b: u8) -> u8
    ensures value { result ≡ hex_value b }
    ensures bound { result ≤ 15 }
{
    match b {
        b'0'..=b'9' => b - b'0',
        b'a'..=b'f' => b - b'a' + 10,
        b'A'..=b'F' => b - b'A' + 10,
        _ => 0,
    }
}

fn hex_len(bytes: &[u8]) -> usize
    ensures { result ≡ length (take_while is_hex_digit bytes.now) }
{
    bytes.iter().take_while(|b| is_hex_digit(**b)).count()
}

/// The hexadecimal digits at the front, and what follows them.
fn hex_digits_at(bytes: &[u8]) -> (&[u8], &[u8])
    ensures digits { result.0.now ≡ take_while is_hex_digit bytes.now }
    ensures rest { result.1.now ≡ drop (length (take_while is_hex_digit bytes.now)) bytes.now }
{
    let len = hex_len(bytes);
    bytes.split_at(len)
}

/// The bytes that pairs of digits write.
fn hex_bytes(alloc: Global, digits: &[u8]) -> Result<Vec<u8>, Memory>
    ensures { IfOk result (λ v. v.items ≡ hex_bytes digits.now) }
{
    let mut found = Vec::new(alloc);
    let mut rest = digits;
    'pairs: while rest.len() >= 2 {
        put_byte(&mut found, 16 * hex_value(rest[0]) + hex_value(rest[1]))?;
        rest = rest.split_at(2).1;
    }
    Ok(found)
}

fn begins_with_quote(bytes: &[u8]) -> bool
    ensures { result ≡ begins_with_quote bytes.now }
{
    match bytes.first() {
        Some(b) => *b == b'\'',
        None => false,
    }
}

/// `x` or `X` directly before a quote.
pub(crate) fn begins_bytes(first: u8, rest: &[u8]) -> bool
    ensures { result ≡ begins_bytes first rest.now }
{
    (first == b'x' || first == b'X') && begins_with_quote(rest)
}

fn after_first(bytes: &[u8]) -> &[u8]
    ensures { result.now ≡ drop 1 bytes.now }
{
    match bytes.split_first() {
        Some((_, rest)) => rest,
        None => bytes,
    }
}

/// The bytes after their `x`, from the quote on.
pub(crate) fn bytes_token(alloc: Global, rest: &[u8]) -> Result<(Token, usize), Memory>
    ensures value { IfOk result (λ x. cut x.0 x.1 ≡ bytes_after (drop 1 rest.now)) }
    ensures within { IfOk result (λ x. x.1 ≤ length rest.now + 1) }
    ensures some { IfOk result (λ x. 0 < x.1) }
{
    let (digits, end) = hex_digits_at(after_first(rest));
    if digits.len() % 2 != 0 || !begins_with_quote(end) {
        return Ok((Token::Bad, 1));
    }
    let found = hex_bytes(alloc, digits)?;
    Ok((Token::Bytes(Blob::from_vec(found)), 3 + digits.len()))
}
