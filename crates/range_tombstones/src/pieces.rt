//! The pieces of the key space, ascending.
ghost use Rattle.std.specs.Prelude.{◌≡◌, ◌≤◌, length, take, drop, filter, option_copied};
ghost use Rattle.range_tombstones.specs.Dates.{Ascends};
ghost use Rattle.range_tombstones.specs.Ranges.{bytes_le, bytes_lt};
ghost use Rattle.range_tombstones.specs.Pieces.{begins_before, piece_at};

use crate::piece::Piece;

/// How many pieces begin at or before a key.
pub(crate) fn count_begun(pieces: &[Piece], key: &[u8]) -> usize
    requires { Ascends begins_before pieces.now }
    ensures bound { result ≤ length pieces.now }
    ensures front { take result pieces.now ≡ filter (λ p. bytes_le p.start key.now) pieces.now }
    ensures back { drop result pieces.now ≡ filter (λ p. bytes_lt key.now p.start) pieces.now }
{
    pieces.partition_point(
        |p: &Piece| -> bool
            ensures { result ≡ bytes_le p.now.start key.entry.now }
        { p.start.as_slice().cmp(key).is_le() },
    )
}

/// The piece in which a key lies.
pub(crate) fn piece_at<'a>(pieces: &'a [Piece], key: &[u8]) -> Option<&'a Piece>
    requires { Ascends begins_before pieces.now }
    ensures { option_copied result ≡ piece_at key.now pieces.now }
{
    pieces[..count_begun(pieces, key)].last()
}
