//! The order of rows.
ghost use Rattle.std.specs.Prelude.{◌≡◌, length, drop};
ghost use Rattle.row_codec.specs.RowOrder.{rank, is_down, datum_cmp, first_cmp, row_cmp};

use crate::{Datum, Kind};
use std::cmp::Ordering;

fn rank(x: &Datum) -> u8
    ensures { result ≡ rank x.now }
{
    match x {
        Datum::Null => 0,
        Datum::Int(_) => 1,
        Datum::Text(_) => 2,
        Datum::Bytes(_) => 3,
        Datum::Bool(_) => 4,
    }
}

/// Numbers as numbers, texts and bytes bytewise, false before true.
pub fn datum_cmp(x: &Datum, y: &Datum) -> Ordering
    ensures { result ≡ datum_cmp x.now y.now }
{
    match (x, y) {
        (Datum::Int(m), Datum::Int(n)) => m.cmp(n),
        (Datum::Text(s), Datum::Text(t)) => s.as_bytes().cmp(t.as_bytes()),
        (Datum::Bytes(s), Datum::Bytes(t)) => s.as_slice().cmp(t.as_slice()),
        (Datum::Bool(a), Datum::Bool(b)) => a.cmp(b),
        _ => rank(x).cmp(&rank(y)),
    }
}

/// Whether a kind is that of a descending column.
pub(crate) fn is_down(kind: Kind) -> bool
    ensures { result ≡ is_down kind }
{
    matches!(
        kind,
        Kind::IntDown | Kind::TextDown | Kind::BytesDown | Kind::BoolDown
    )
}

/// The order of the values of the first of these columns, turned round in a descending one.
fn first_cmp(kinds: &[Kind], x: &Datum, y: &Datum) -> Ordering
    ensures { result ≡ first_cmp kinds.now x.now y.now }
{
    match kinds.first() {
        Some(kind) if is_down(*kind) => datum_cmp(y, x),
        _ => datum_cmp(x, y),
    }
}

fn after_first(kinds: &[Kind]) -> &[Kind]
    ensures { result.now ≡ drop 1 kinds.now }
{
    match kinds.split_first() {
        Some((_, rest)) => rest,
        None => kinds,
    }
}

/// The order of keys of these kinds, column after column.
pub fn row_cmp(kinds: &[Kind], x: &[Datum], y: &[Datum]) -> Ordering
    ensures { result ≡ row_cmp kinds.now x.now y.now }
{
    let mut kinds_left = kinds;
    let mut x_left = x;
    let mut y_left = y;
    'columns: while !x_left.is_empty() && !y_left.is_empty() {
        let order = first_cmp(kinds_left, &x_left[0], &y_left[0]);
        if order != Ordering::Equal {
            return order;
        }
        kinds_left = after_first(kinds_left);
        x_left = x_left.split_at(1).1;
        y_left = y_left.split_at(1).1;
    }
    x_left.len().cmp(&y_left.len())
}
