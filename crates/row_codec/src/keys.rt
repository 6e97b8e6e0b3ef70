//! Row keys, whose bytes are in the order of rows.
ghost use Rattle.std.specs.Prelude.{◌≡◌, ◌++◌, ◌∷◌, ◌-◌, length, take, true, ◌⊎◌, Result, List, ℕ, Err, OnOk, OnErr, if◌then◌else◌};
ghost use Rattle.std.specs.Str.{is_utf8};
ghost use Rattle.key_encoding.specs.Reading.{Answers, no_memory, read_uvarint, result_now};
ghost use Rattle.key_encoding.specs.declared.fault.KeyFault.{KeyFault};
ghost use Rattle.row_codec.specs.RowKeys.{datum_code, number_code, string_code, values_code, row_key, is_of_kind, are_of_kinds};
ghost use Rattle.row_codec.specs.KeyReading.{FaultGives, Gives, or_at, valued, an_id, a_number, a_text, some_bytes, a_truth, read_byte, read_number, read_string, read_datum, read_values, read_key_front, read_row_key};

use crate::fields::{take_byte, take_id};
use crate::order::is_down;
use crate::{Blob, Datum, Kind, Memory, Row, RowFault, Text};
use key_encoding::{KeyFault, KeyKind};
use std::alloc::Global;

/// Whether a value is of a kind; NULL is of none.
pub fn is_of_kind(kind: Kind, value: &Datum) -> bool
    ensures { result ≡ is_of_kind kind value.now }
{
    match value {
        Datum::Int(_) => matches!(kind, Kind::Int | Kind::IntDown),
        Datum::Text(_) => matches!(kind, Kind::Text | Kind::TextDown),
        Datum::Bytes(_) => matches!(kind, Kind::Bytes | Kind::BytesDown),
        Datum::Bool(_) => matches!(kind, Kind::Bool | Kind::BoolDown),
        Datum::Null => false,
    }
}

/// Whether there is one value for each kind, of that kind.
pub fn are_of_kinds(kinds: &[Kind], values: &[Datum]) -> bool
    ensures { result ≡ are_of_kinds kinds.now values.now }
{
    let mut kinds_left = kinds;
    let mut left = values;
    'values: while !kinds_left.is_empty() && !left.is_empty() {
        if !is_of_kind(kinds_left[0], &left[0]) {
            return false;
        }
        kinds_left = kinds_left.split_at(1).1;
        left = left.split_at(1).1;
    }
    kinds_left.is_empty() && left.is_empty()
}

// ---- writing

fn put_number(down: bool, n: i64, out: &mut Vec<u8>) -> Result<(), Memory>
    ensures ok { OnOk result (out.new.items ≡ out.old.items ++ number_code down n) }
    ensures err { OnErr result (out.new.items ≡ out.old.items) }
{
    if down {
        key_encoding::put_varint_down(n, out).map_err(|_| Memory)
    } else {
        key_encoding::put_varint(n, out).map_err(|_| Memory)
    }
}

fn put_string(down: bool, b: &[u8], out: &mut Vec<u8>) -> Result<(), Memory>
    ensures ok { OnOk result (out.new.items ≡ out.old.items ++ string_code down b.now) }
    ensures err { OnErr result (out.new.items ≡ out.old.items) }
{
    if down {
        key_encoding::put_bytes_down(b, out).map_err(|_| Memory)
    } else {
        key_encoding::put_bytes(b, out).map_err(|_| Memory)
    }
}

fn put_value(down: bool, value: &Datum, out: &mut Vec<u8>) -> Result<(), Memory>
    ensures ok { OnOk result (out.new.items ≡ out.old.items ++ datum_code down value.now) }
    ensures err { OnErr result (out.new.items ≡ out.old.items) }
{
    match value {
        Datum::Int(n) => put_number(down, *n, out),
        Datum::Text(text) => put_string(down, text.as_bytes(), out),
        Datum::Bytes(bytes) => put_string(down, bytes.as_slice(), out),
        Datum::Bool(b) => put_number(down, i64::from(*b), out),
        Datum::Null => Ok(()),
    }
}

/// Appends the values of a key and the column family; where memory is wanting, a part of them.
fn put_values(kinds: &[Kind], values: &[Datum], out: &mut Vec<u8>) -> Result<(), Memory>
    ensures ok { OnOk result (out.new.items ≡ out.old.items ++ values_code kinds.now values.now) }
    ensures err { OnErr result (take (length out.old.items) out.new.items ≡ out.old.items) }
{
    let mut kinds_left = kinds;
    let mut left = values;
    'values: while !kinds_left.is_empty() && !left.is_empty() {
        put_value(is_down(kinds_left[0]), &left[0], out)?;
        kinds_left = kinds_left.split_at(1).1;
        left = left.split_at(1).1;
    }
    out.push(136).map_err(|_| Memory)
}

#[tactic(auto, unfolding(crate::specs::RowKeys::row_key))]
fn put_row_key(
    table: u32,
    kinds: &[Kind],
    values: &[Datum],
    out: &mut Vec<u8>,
) -> Result<(), Memory>
    ensures ok { OnOk result (out.new.items ≡ out.old.items ++ row_key table kinds.now values.now) }
    ensures err { OnErr result (take (length out.old.items) out.new.items ≡ out.old.items) }
{
    key_encoding::put_uvarint(u64::from(table), out).map_err(|_| Memory)?;
    out.push(137).map_err(|_| Memory)?;
    put_values(kinds, values, out)
}

/// Appends the key of a row of a table.
pub fn row_key(table: u32, kinds: &[Kind], key: &Row, out: &mut Vec<u8>) -> Result<(), Memory>
    requires { are_of_kinds kinds.now key.now ≡ true }
    ensures ok { OnOk result (out.new.items ≡ out.old.items ++ row_key table kinds.now key.now) }
    ensures err { OnErr result (out.new.items ≡ out.old.items) }
{
    let before = out.len();
    let done = put_row_key(table, kinds, key.as_slice(), out);
    if done.is_err() {
        out.truncate(before);
    }
    done
}

// ---- reading, in an input of `len` bytes

/// The place where a rest of the input begins.
fn place(len: usize, rest: &[u8]) -> usize
    ensures { result ≡ len - length rest.now }
{
    len.saturating_sub(rest.len())
}

fn take_table(b: &[u8], len: usize) -> Result<(u32, &[u8]), RowFault>
    ensures { Gives (λ p. (p.0, p.1.now)) result (or_at (len - length b.now) (valued an_id (read_uvarint b.now))) }
{
    match take_id(b) {
        Some((table, rest)) => Ok((table, rest)),
        None => Err(RowFault::At {
            offset: place(len, b),
        }),
    }
}

fn take_mark(mark: u8, b: &[u8], len: usize) -> Result<&[u8], RowFault>
    ensures { Gives (λ rest. rest.now) result (or_at (len - length b.now) (read_byte mark b.now)) }
{
    match take_byte(mark, b) {
        Some(rest) => Ok(rest),
        None => Err(RowFault::At {
            offset: place(len, b),
        }),
    }
}

pub(crate) fn take_number(down: bool, b: &[u8]) -> Result<(i64, &[u8]), KeyFault>
    ensures { result_now result ≡ read_number down b.now }
{
    if down {
        key_encoding::take_varint_down(b)
    } else {
        key_encoding::take_varint(b)
    }
}

fn take_string(alloc: Global, down: bool, b: &[u8]) -> Result<(Vec<u8>, &[u8]), KeyFault>
    ensures { Answers result (read_string down b.now) }
{
    if down {
        key_encoding::take_bytes_down(alloc, b)
    } else {
        key_encoding::take_bytes(alloc, b)
    }
}

/// A fault of a string at a field's place.
fn at_field(fault: KeyFault, at: usize) -> RowFault
    ensures { (read : Result (List ℕ × List ℕ) KeyFault) → (read ≡ Err fault) ⊎ (fault ≡ no_memory) → FaultGives result (or_at at (valued a_text read)) × FaultGives result (or_at at (valued some_bytes read)) }
{
    match fault.kind {
        KeyKind::Memory => RowFault::Memory,
        _ => RowFault::At { offset: at },
    }
}

fn take_int(down: bool, b: &[u8], at: usize) -> Result<(Datum, &[u8]), RowFault>
    ensures { Gives (λ p. (p.0, p.1.now)) result (or_at at (valued a_number (read_number down b.now))) }
{
    match take_number(down, b) {
        Ok((n, rest)) => Ok((Datum::Int(n), rest)),
        Err(_) => Err(RowFault::At { offset: at }),
    }
}

fn take_bool(down: bool, b: &[u8], at: usize) -> Result<(Datum, &[u8]), RowFault>
    ensures { Gives (λ p. (p.0, p.1.now)) result (or_at at (valued a_truth (read_number down b.now))) }
{
    match take_number(down, b) {
        Ok((0, rest)) => Ok((Datum::Bool(false), rest)),
        Ok((1, rest)) => Ok((Datum::Bool(true), rest)),
        _ => Err(RowFault::At { offset: at }),
    }
}

fn text_of(bytes: Vec<u8>) -> Option<Text>
    ensures { result ≡ (if is_utf8 bytes.items then Some bytes.items else None) }
{
    match String::from_utf8(bytes) {
        Ok(text) => Some(Text::from_string(text)),
        Err(_) => None,
    }
}

fn take_text(alloc: Global, down: bool, b: &[u8], at: usize) -> Result<(Datum, &[u8]), RowFault>
    ensures { Gives (λ p. (p.0, p.1.now)) result (or_at at (valued a_text (read_string down b.now))) }
{
    match take_string(alloc, down, b) {
        Ok((bytes, rest)) => match text_of(bytes) {
            Some(text) => Ok((Datum::Text(text), rest)),
            None => Err(RowFault::At { offset: at }),
        },
        Err(fault) => Err(at_field(fault, at)),
    }
}

fn take_blob(alloc: Global, down: bool, b: &[u8], at: usize) -> Result<(Datum, &[u8]), RowFault>
    ensures { Gives (λ p. (p.0, p.1.now)) result (or_at at (valued some_bytes (read_string down b.now))) }
{
    match take_string(alloc, down, b) {
        Ok((bytes, rest)) => Ok((Datum::Bytes(Blob::from_vec(bytes)), rest)),
        Err(fault) => Err(at_field(fault, at)),
    }
}

#[tactic(auto, unfolding(crate::specs::KeyReading::read_datum))]
fn take_value(alloc: Global, kind: Kind, b: &[u8], len: usize) -> Result<(Datum, &[u8]), RowFault>
    ensures { Gives (λ p. (p.0, p.1.now)) result (or_at (len - length b.now) (read_datum kind b.now)) }
{
    let at = place(len, b);
    match kind {
        Kind::Int => take_int(false, b, at),
        Kind::IntDown => take_int(true, b, at),
        Kind::Text => take_text(alloc, false, b, at),
        Kind::TextDown => take_text(alloc, true, b, at),
        Kind::Bytes => take_blob(alloc, false, b, at),
        Kind::BytesDown => take_blob(alloc, true, b, at),
        Kind::Bool => take_bool(false, b, at),
        Kind::BoolDown => take_bool(true, b, at),
    }
}

fn take_values<'a>(
    alloc: Global,
    kinds: &[Kind],
    b: &'a [u8],
    len: usize,
) -> Result<(Vec<Datum>, &'a [u8]), RowFault>
    ensures { Gives (λ p. (p.0.items, p.1.now)) result (read_values kinds.now len b.now) }
{
    let mut values = Vec::new(alloc);
    let mut left = b;
    for kind in kinds {
        let (value, rest) = take_value(alloc, *kind, left, len)?;
        if values.push(value).is_err() {
            return Err(RowFault::Memory);
        }
        left = rest;
    }
    Ok((values, left))
}

/// Reads the key of a row of some table with key columns of these kinds.
#[tactic(auto, unfolding(crate::specs::KeyReading::read_key_front, crate::specs::KeyReading::read_row_key))]
pub fn read_row_key(alloc: Global, b: &[u8], kinds: &[Kind]) -> Result<(u32, Row), RowFault>
    ensures { Gives (λ p. (p.0, p.1)) result (read_row_key kinds.now b.now) }
{
    let len = b.len();
    let (table, rest) = take_table(b, len)?;
    let rest = take_mark(137, rest, len)?;
    let (values, rest) = take_values(alloc, kinds, rest, len)?;
    let rest = take_mark(136, rest, len)?;
    if !rest.is_empty() {
        return Err(RowFault::At {
            offset: place(len, rest),
        });
    }
    Ok((table, Row::from_vec(values)))
}
