//! Changes of pieces.
ghost use Rattle.std.specs.Prelude.{◌≡◌, List, true, false, map, IfOk, OnOk, OnErr};
ghost use Rattle.std.specs.List.{AllByRecursion, dedup};
ghost use Rattle.mvcc_keys.specs.Times.{Time};
ghost use Rattle.range_tombstones.specs.Dates.{Ascends};
ghost use Rattle.range_tombstones.specs.declared.deletion.RangeDeletion.{RangeDeletion};
ghost use Rattle.range_tombstones.specs.Ranges.{bytes_lt, is_dated, range, with_range};
ghost use Rattle.range_tombstones.specs.Pieces.{begins_before, dates_at, dated, undated, dated_after, is_start, same_dates, IsMadeOf, IsSplit, MayDate, PartlyDated};

use crate::dates::Dates;
use crate::piece::Piece;
use crate::pieces::{count_begun, piece_at};
use mvcc_keys::{Blob, Hlc, Memory};
use std::alloc::Global;

/// The dates of the piece in which a key lies, copied.
fn copy_dates(alloc: Global, pieces: &[Piece], key: &[u8]) -> Result<Dates, Memory>
    requires { Ascends begins_before pieces.now }
    ensures { IfOk result (λ dates. dates ≡ dates_at key.now pieces.now) }
{
    match piece_at(pieces, key) {
        Some(piece) => piece.dates.copy(alloc),
        None => Ok(Dates::new(alloc)),
    }
}

/// Whether a piece begins at a key.
fn begins_at(pieces: &[Piece], key: &[u8]) -> bool
    requires { Ascends begins_before pieces.now }
    ensures { result ≡ is_start key.now pieces.now }
{
    match piece_at(pieces, key) {
        Some(piece) => piece.start.as_slice().cmp(key).is_eq(),
        None => false,
    }
}

/// Lets a piece begin at a key.
fn split(pieces: &mut Vec<Piece>, key: &[u8]) -> Result<(), Memory>
    requires { Ascends begins_before pieces.old.items }
    ensures ok { OnOk result (IsSplit key.now pieces.old.items pieces.new.items) }
    ensures err { OnErr result (pieces.new.items ≡ pieces.old.items) }
{
    if begins_at(pieces.as_slice(), key) {
        return Ok(());
    }
    let alloc = *pieces.allocator();
    let place = count_begun(pieces.as_slice(), key);
    let piece = Piece {
        start: Blob::copy_of(alloc, key)?,
        dates: copy_dates(alloc, pieces.as_slice(), key)?,
    };
    let refused = pieces.insert(place, piece).is_err();
    if refused {
        return Err(Memory);
    }
    Ok(())
}

/// Puts a date into the pieces from `lo` up to `hi`.
fn date_piece(piece: &mut Piece, lo: &[u8], hi: &[u8], t: Hlc) -> Result<(), Memory>
    ensures ok { OnOk result (piece.new ≡ dated lo.now hi.now t piece.old) }
    ensures err { OnErr result (piece.new ≡ piece.old) }
{
    let start = piece.start.as_slice();
    if lo.cmp(start).is_le() && start.cmp(hi).is_lt() {
        return piece.dates.insert(t);
    }
    Ok(())
}

fn date_pieces(pieces: &mut [Piece], lo: &[u8], hi: &[u8], t: Hlc) -> Result<(), Memory>
    ensures ok { OnOk result (pieces.new ≡ map (dated lo.now hi.now t) pieces.old) }
    ensures err { OnErr result (PartlyDated lo.now hi.now t pieces.old pieces.new) }
{
    for piece in pieces.iter_mut() {
        date_piece(piece, lo, hi, t)?;
    }
    Ok(())
}

fn undate_pieces(pieces: &mut [Piece], t: Hlc)
    ensures { pieces.new ≡ map (undated t) pieces.old }
{
    for piece in pieces.iter_mut() {
        piece.dates.remove(t);
    }
}

/// Puts a date into the pieces from `lo` up to `hi`, or leaves all as they were.
pub(crate) fn add_date(pieces: &mut [Piece], lo: &[u8], hi: &[u8], t: Hlc) -> Result<(), Memory>
    requires { AllByRecursion (MayDate t) pieces.old }
    ensures ok { OnOk result (pieces.new ≡ map (dated lo.now hi.now t) pieces.old) }
    ensures err { OnErr result (pieces.new ≡ pieces.old) }
{
    let refused = date_pieces(pieces, lo, hi, t).is_err();
    if refused {
        undate_pieces(pieces, t);
        return Err(Memory);
    }
    Ok(())
}

/// Keeps the dates after a time.
fn keep_after(pieces: &mut [Piece], g: Hlc)
    ensures { pieces.new ≡ map (dated_after g) pieces.old }
{
    for piece in pieces.iter_mut() {
        piece.dates.keep_after(g);
    }
}

/// Adds a range deletion to the pieces. What is split stays split where memory is refused.
pub(crate) fn add_range(pieces: &mut Vec<Piece>, lo: &[u8], hi: &[u8], t: Hlc) -> Result<(), Memory>
    requires made { (rs : List RangeDeletion) × IsMadeOf pieces.old.items rs × (is_dated t rs ≡ false) }
    requires order { bytes_lt lo.now hi.now ≡ true }
    ensures ok { OnOk result ((rs : List RangeDeletion) → IsMadeOf pieces.old.items rs → is_dated t rs ≡ false → IsMadeOf pieces.new.items (with_range (range lo.now hi.now t) rs)) }
    ensures err { OnErr result ((rs : List RangeDeletion) → IsMadeOf pieces.old.items rs → IsMadeOf pieces.new.items rs) }
{
    split(pieces, lo)?;
    split(pieces, hi)?;
    add_date(pieces.as_mut_slice(), lo, hi, t)
}

/// Forgets the dates up to a time, and joins pieces that then have the same dates.
pub(crate) fn collect(pieces: &mut Vec<Piece>, g: Hlc)
    ensures { pieces.new.items ≡ dedup same_dates (map (dated_after g) pieces.old.items) }
{
    keep_after(pieces.as_mut_slice(), g);
    pieces.dedup_by(|p, before| p.dates.is_same(&before.dates));
}
