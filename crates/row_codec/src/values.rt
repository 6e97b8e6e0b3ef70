//! Row values: the cells that aren't in the key, in the order of their columns.
ghost use Rattle.std.specs.Prelude.{◌≡◌, ◌++◌, ◌∷◌, ◌≤◌, length, take, true, ℕ, ◌<◌, ◌-◌, IfSome, IfOk, OnOk, OnErr, if◌then◌else◌, Some, None};
ghost use Rattle.std.specs.Option.{option_map};
ghost use Rattle.std.specs.Str.{is_utf8};
ghost use Rattle.key_encoding.specs.Reading.{read_uvarint, read_varint};
ghost use Rattle.key_encoding.specs.Spelling.{varint};
ghost use Rattle.row_codec.specs.KeyReading.{Gives, or_at, a_number, a_text, an_id, some_bytes, valued};
ghost use Rattle.row_codec.specs.RowValues.{are_cells, sized, made, read_flag, marked_value, cell_code, row_value, read_sized, read_marked_value, read_cell, read_cells, with_cell, read_row_value, reads};
ghost use Rattle.row_codec.specs.Views.{seen, seen_cell};

use crate::fields::{put_sized, take_id, take_sized};
use crate::{Blob, Cell, Datum, Memory, RowFault, Text};
use std::alloc::Global;

/// Whether the columns of cells ascend from 1, and none is NULL.
pub fn are_cells(cells: &[Cell]) -> bool
    ensures { result ≡ are_cells 0 cells.now }
{
    let mut last = 0;
    for cell in cells {
        if cell.column <= last || matches!(cell.datum, Datum::Null) {
            return false;
        }
        last = cell.column;
    }
    true
}

// ---- writing

/// Appends a mark, a length and bytes; where memory is wanting, a part of them.
fn put_marked(mark: u8, b: &[u8], out: &mut Vec<u8>) -> Result<(), Memory>
    ensures ok { OnOk result (out.new.items ≡ out.old.items ++ mark ∷ sized b.now) }
    ensures err { OnErr result (take (length out.old.items) out.new.items ≡ out.old.items) }
{
    out.push(mark).map_err(|_| Memory)?;
    put_sized(b, out)
}

fn put_int(n: i64, out: &mut Vec<u8>) -> Result<(), Memory>
    ensures ok { OnOk result (out.new.items ≡ out.old.items ++ 1 ∷ varint n) }
    ensures err { OnErr result (take (length out.old.items) out.new.items ≡ out.old.items) }
{
    out.push(1).map_err(|_| Memory)?;
    key_encoding::put_varint(n, out).map_err(|_| Memory)
}

#[tactic(auto, unfolding(crate::specs::RowValues::marked_value))]
fn put_marked_value(value: &Datum, out: &mut Vec<u8>) -> Result<(), Memory>
    ensures ok { OnOk result (out.new.items ≡ out.old.items ++ marked_value value.now) }
    ensures err { OnErr result (take (length out.old.items) out.new.items ≡ out.old.items) }
{
    match value {
        Datum::Int(n) => put_int(*n, out),
        Datum::Text(text) => put_marked(2, text.as_bytes(), out),
        Datum::Bytes(bytes) => put_marked(3, bytes.as_slice(), out),
        Datum::Bool(b) => out
            .extend_from_slice(&[4, u8::from(*b)])
            .map_err(|_| Memory),
        Datum::Null => Ok(()),
    }
}

fn put_cell(cell: &Cell, out: &mut Vec<u8>) -> Result<(), Memory>
    ensures ok { OnOk result (out.new.items ≡ out.old.items ++ cell_code cell.now) }
    ensures err { OnErr result (take (length out.old.items) out.new.items ≡ out.old.items) }
{
    key_encoding::put_uvarint(u64::from(cell.column), out).map_err(|_| Memory)?;
    put_marked_value(&cell.datum, out)
}

fn put_cells(cells: &[Cell], out: &mut Vec<u8>) -> Result<(), Memory>
    ensures ok { OnOk result (out.new.items ≡ out.old.items ++ row_value cells.now) }
    ensures err { OnErr result (take (length out.old.items) out.new.items ≡ out.old.items) }
{
    for cell in cells {
        put_cell(cell, out)?;
    }
    Ok(())
}

/// Appends a row value.
pub fn row_value(cells: &[Cell], out: &mut Vec<u8>) -> Result<(), Memory>
    requires { are_cells 0 cells.now ≡ true }
    ensures ok { OnOk result (out.new.items ≡ out.old.items ++ row_value cells.now) }
    ensures err { OnErr result (out.new.items ≡ out.old.items) }
{
    let before = out.len();
    let done = put_cells(cells, out);
    if done.is_err() {
        out.truncate(before);
    }
    done
}

// ---- reading

/// A value in the bytes that it is read from.
#[derive(Clone, Copy)]
pub enum DatumView<'a> {
    Int(i64),
    Text(&'a str),
    Bytes(&'a [u8]),
    Bool(bool),
}

fn take_int(b: &[u8]) -> Option<(DatumView<'_>, &[u8])>
    ensures { option_map (λ p. (seen p.0, p.1.now)) result ≡ valued a_number (read_varint b.now) }
{
    match key_encoding::take_varint(b) {
        Ok((n, rest)) => Some((DatumView::Int(n), rest)),
        Err(_) => None,
    }
}

fn text_in(b: &[u8]) -> Option<&str>
    ensures { option_map (λ t. t.now) result ≡ (if is_utf8 b.now then Some b.now else None) }
{
    match std::str::from_utf8(b) {
        Ok(text) => Some(text),
        Err(_) => None,
    }
}

fn take_text(b: &[u8]) -> Option<(DatumView<'_>, &[u8])>
    ensures { option_map (λ p. (seen p.0, p.1.now)) result ≡ made a_text (read_sized b.now) }
{
    let Some((bytes, rest)) = take_sized(b) else {
        return None;
    };
    match text_in(bytes) {
        Some(text) => Some((DatumView::Text(text), rest)),
        None => None,
    }
}

fn take_blob(b: &[u8]) -> Option<(DatumView<'_>, &[u8])>
    ensures { option_map (λ p. (seen p.0, p.1.now)) result ≡ made some_bytes (read_sized b.now) }
{
    match take_sized(b) {
        Some((bytes, rest)) => Some((DatumView::Bytes(bytes), rest)),
        None => None,
    }
}

fn take_flag(b: &[u8]) -> Option<(DatumView<'_>, &[u8])>
    ensures { option_map (λ p. (seen p.0, p.1.now)) result ≡ read_flag b.now }
{
    match b.split_first() {
        Some((0, rest)) => Some((DatumView::Bool(false), rest)),
        Some((1, rest)) => Some((DatumView::Bool(true), rest)),
        _ => None,
    }
}

#[tactic(auto, unfolding(crate::specs::RowValues::read_marked_value))]
fn take_marked_value(b: &[u8]) -> Option<(DatumView<'_>, &[u8])>
    ensures { option_map (λ p. (seen p.0, p.1.now)) result ≡ read_marked_value b.now }
{
    let Some((mark, rest)) = b.split_first() else {
        return None;
    };
    match *mark {
        1 => take_int(rest),
        2 => take_text(rest),
        3 => take_blob(rest),
        4 => take_flag(rest),
        _ => None,
    }
}

/// A cell in the bytes that it is read from.
#[derive(Clone, Copy)]
pub struct CellView<'a> {
    pub column: u32,
    pub datum: DatumView<'a>,
}

/// The cell of a column after `last`.
#[tactic(auto, unfolding(crate::specs::RowValues::read_cell))]
fn take_cell(last: u32, b: &[u8]) -> Option<(CellView<'_>, &[u8])>
    ensures value { option_map (λ p. (seen_cell p.0, p.1.now)) result ≡ read_cell last b.now }
    ensures goes_on { IfSome result (λ p. (length p.1.now < length b.now)
        × ((len : ℕ) → read_cells (length b.now) last len b.now ≡ with_cell (seen_cell p.0) (read_cells (length p.1.now) p.0.column len p.1.now))) }
{
    let Some((column, rest)) = take_id(b) else {
        return None;
    };
    if column <= last {
        return None;
    }
    match take_marked_value(rest) {
        Some((datum, rest)) => Some((CellView { column, datum }, rest)),
        None => None,
    }
}

impl DatumView<'_> {
    fn copy(&self, alloc: Global) -> Result<Datum, Memory>
        ensures { IfOk result (λ x. x ≡ seen self.now) }
    {
        match self {
            DatumView::Int(n) => Ok(Datum::Int(*n)),
            DatumView::Text(text) => Ok(Datum::Text(Text::copy_of(alloc, text)?)),
            DatumView::Bytes(bytes) => Ok(Datum::Bytes(Blob::copy_of(alloc, bytes)?)),
            DatumView::Bool(b) => Ok(Datum::Bool(*b)),
        }
    }
}

/// The cell of a column after `last`, in an input of `len` bytes.
fn read_cell(alloc: Global, last: u32, b: &[u8], len: usize) -> Result<(Cell, &[u8]), RowFault>
    ensures value { Gives (λ p. (p.0, p.1.now)) result (or_at (len - length b.now) (read_cell last b.now)) }
    ensures goes_on { IfOk result (λ p. (length p.1.now < length b.now)
        × (read_cells (length b.now) last len b.now ≡ with_cell p.0 (read_cells (length p.1.now) p.0.column len p.1.now))) }
{
    let Some((cell, rest)) = take_cell(last, b) else {
        return Err(RowFault::At {
            offset: len.saturating_sub(b.len()),
        });
    };
    match cell.datum.copy(alloc) {
        Ok(datum) => Ok((
            Cell {
                column: cell.column,
                datum,
            },
            rest,
        )),
        Err(_) => Err(RowFault::Memory),
    }
}

/// Reads the cells of a row value.
pub fn read_row_value(alloc: Global, b: &[u8]) -> Result<Vec<Cell>, RowFault>
    ensures { Gives (λ cells. cells.items) result (read_row_value b.now) }
{
    let mut cells = Vec::new(alloc);
    let mut last = 0;
    let mut left = b;
    'cells: while !left.is_empty() {
        let (cell, rest) = read_cell(alloc, last, left, b.len())?;
        last = cell.column;
        if cells.push(cell).is_err() {
            return Err(RowFault::Memory);
        }
        left = rest;
    }
    Ok(cells)
}

/// Whether bytes are a row value.
pub fn check_row_value(b: &[u8]) -> bool
    ensures { result ≡ reads (read_row_value b.now) }
{
    let mut last = 0;
    let mut left = b;
    'cells: while !left.is_empty() {
        let Some((cell, rest)) = take_cell(last, left) else {
            return false;
        };
        last = cell.column;
        left = rest;
    }
    true
}
