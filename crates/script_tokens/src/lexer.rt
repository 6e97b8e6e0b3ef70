//! From the bytes of a line to its tokens.
ghost use Rattle.std.specs.Prelude.{◌≡◌, ◌<◌, ◌≤◌, ◌-◌, ◌+◌, length, drop, map, slice_index, IfOk, IfSome, IfNone, OnOk, ◌++◌, ◌∷◌, []};
ghost use Rattle.std.specs.Char.{to_ascii_lowercase};
ghost use Rattle.std.specs.List.{take_while};
ghost use Rattle.script_tokens.specs.Tokens.{is_blank, is_digit, is_word_start, is_word_byte, is_mark_byte, word_token, number_token, number_from, negative_cut, first_token, cut, is_bad, tokens, places};

use crate::Token;
use crate::quoted::{begins_bytes, bytes_token, text_token};
use mvcc_keys::Memory;
use std::alloc::Global;
use table_descriptors::Name;

/// A space, a tab or a carriage return.
pub fn is_blank(b: u8) -> bool
    ensures { result ≡ is_blank b }
{
    b == b' ' || b == b'\t' || b == b'\r'
}

fn is_digit(b: u8) -> bool
    ensures { result ≡ is_digit b }
{
    b'0' <= b && b <= b'9'
}

fn is_word_start(b: u8) -> bool
    ensures { result ≡ is_word_start b }
{
    b'a' <= b && b <= b'z' || b'A' <= b && b <= b'Z' || b == b'_'
}

fn is_word_byte(b: u8) -> bool
    ensures { result ≡ is_word_byte b }
{
    is_word_start(b) || is_digit(b)
}

fn is_mark_byte(b: u8) -> bool
    ensures { result ≡ is_mark_byte b }
{
    matches!(b, b'(' | b')' | b',' | b'.' | b';' | b'*' | b'=')
}

fn word_len(bytes: &[u8]) -> usize
    ensures { result ≡ length (take_while is_word_byte bytes.now) }
{
    bytes.iter().take_while(|b| is_word_byte(**b)).count()
}

fn digits_len(bytes: &[u8]) -> usize
    ensures { result ≡ length (take_while is_digit bytes.now) }
{
    bytes.iter().take_while(|b| is_digit(**b)).count()
}

/// The word bytes at the front.
fn word_at(bytes: &[u8]) -> &[u8]
    ensures { result.now ≡ take_while is_word_byte bytes.now }
{
    let len = word_len(bytes);
    bytes.split_at(len).0
}

/// The digits at the front.
fn digits_at(bytes: &[u8]) -> &[u8]
    ensures { result.now ≡ take_while is_digit bytes.now }
{
    let len = digits_len(bytes);
    bytes.split_at(len).0
}

fn lower_case(alloc: Global, word: &[u8]) -> Result<Vec<u8>, Memory>
    ensures { IfOk result (λ v. v.items ≡ map to_ascii_lowercase word.now) }
{
    Ok(word.iter().map(|b| b.to_ascii_lowercase()).collect(alloc)?)
}

fn word_token(alloc: Global, word: &[u8]) -> Result<Token, Memory>
    ensures { IfOk result (λ t. t ≡ word_token word.now) }
{
    let lower = lower_case(alloc, word)?;
    match Name::parse(alloc, lower.as_slice())? {
        Some(name) => Ok(Token::Word(name)),
        None => Ok(Token::Bad),
    }
}

/// The value of digits, if it is at most 2^63.
fn magnitude(digits: &[u8]) -> Option<u64>
    ensures some { IfSome result (λ n. n ≡ number_from 0 digits.now) }
    ensures bound { IfSome result (λ n. n ≤ 9223372036854775808) }
    ensures none { IfNone result (9223372036854775808 < number_from 0 digits.now) }
{
    let mut n: u64 = 0;
    for d in digits {
        if n > 922337203685477580 {
            return None;
        }
        n = 10 * n + u64::from(d.saturating_sub(48));
    }
    if n > 9223372036854775808 {
        return None;
    }
    Some(n)
}

fn number_token(negative: bool, digits: &[u8]) -> Token
    ensures { result ≡ number_token negative (number_from 0 digits.now) }
{
    let Some(n) = magnitude(digits) else {
        return Token::Bad;
    };
    match i64::try_from(n) {
        Ok(m) => Token::Number(if negative { -m } else { m }),
        Err(_) if negative => Token::Number(i64::MIN),
        Err(_) => Token::Bad,
    }
}

/// The number after a dash.
fn negative_token(bytes: &[u8]) -> (Token, usize)
    ensures value { cut result.0 result.1 ≡ negative_cut (take_while is_digit bytes.now) }
    ensures within { result.1 ≤ length bytes.now + 1 }
    ensures some { 0 < result.1 }
{
    let digits = digits_at(bytes);
    if digits.is_empty() {
        return (Token::Bad, 1);
    }
    (number_token(true, digits), 1 + digits.len())
}

/// The token at the front, and how many bytes it takes.
#[tactic(auto, unfolding(crate::specs::Tokens::first_token))]
fn first_token(alloc: Global, first: u8, bytes: &[u8]) -> Result<(Token, usize), Memory>
    requires some { 0 < length bytes.now }
    requires first { slice_index bytes.now 0 ≡ first }
    ensures token { IfOk result (λ c. cut c.0 c.1 ≡ first_token first (drop 1 bytes.now)) }
    ensures some { IfOk result (λ c. 0 < c.1) }
    ensures within { IfOk result (λ c. c.1 ≤ length bytes.now) }
{
    let rest = bytes.split_at(1).1;
    if begins_bytes(first, rest) {
        return bytes_token(alloc, rest);
    }
    if is_word_start(first) {
        let word = word_at(bytes);
        return Ok((word_token(alloc, word)?, word.len()));
    }
    if is_digit(first) {
        let digits = digits_at(bytes);
        return Ok((number_token(false, digits), digits.len()));
    }
    if first == b'-' {
        return Ok(negative_token(rest));
    }
    if first == b'\'' {
        return text_token(alloc, rest);
    }
    if is_mark_byte(first) {
        return Ok((Token::Mark(first), 1));
    }
    Ok((Token::Bad, 1))
}

fn put_token(found: &mut Vec<Token>, token: Token) -> Result<(), Memory>
    ensures { OnOk result (found.new.items ≡ found.old.items ++ token ∷ []) }
{
    Ok(found.push(token)?)
}

fn put_place(found: &mut Vec<usize>, place: usize) -> Result<(), Memory>
    ensures { OnOk result (found.new.items ≡ found.old.items ++ place ∷ []) }
{
    Ok(found.push(place)?)
}

fn is_bad(token: &Token) -> bool
    ensures { result ≡ is_bad token.now }
{
    matches!(token, Token::Bad)
}

/// The tokens of a line, and the place of the first byte of each, counted from 1.
pub fn tokens(alloc: Global, line: &[u8]) -> Result<(Vec<Token>, Vec<usize>), Memory>
    ensures { IfOk result (λ x. (x.0.items ≡ tokens line.now) × (x.1.items ≡ places line.now)) }
{
    let mut found = Vec::new(alloc);
    let mut places = Vec::new(alloc);
    let mut rest = line;
    'all: while !rest.is_empty() {
        let first = rest[0];
        if is_blank(first) {
            rest = rest.split_at(1).1;
        } else {
            let place = 1 + (line.len() - rest.len());
            let (token, len) = first_token(alloc, first, rest)?;
            let bad = is_bad(&token);
            put_token(&mut found, token)?;
            put_place(&mut places, place)?;
            if bad {
                return Ok((found, places));
            }
            rest = rest.split_at(len).1;
        }
    }
    Ok((found, places))
}
