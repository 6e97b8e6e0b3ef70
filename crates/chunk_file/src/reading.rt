//! Reading of single entries, in the bytes that they stand in.
ghost use Rattle.std.specs.Prelude.{◌≡◌};
ghost use Rattle.std.specs.Option.{option_map};
ghost use Rattle.chunk_file.specs.Entries.{comes_before, date_of, is_entry, is_range, is_row_key, may_follow, read_dated, read_put, read_del, read_range, read_entry, seen};
ghost use Rattle.mvcc_keys.specs.Entries.{key_of};
ghost use Rattle.chunk_file.specs.Chunks.{read_next};

use mvcc_keys::{EntryView, Hlc, cmp_mvcc, split_mvcc};
use row_codec::{Kind, check_row_key, check_row_value, take_sized};

/// The key and the date of the version's key in front, and what follows.
#[tactic(auto, unfolding(crate::specs::Entries::read_dated))]
fn take_dated(b: &[u8]) -> Option<((&[u8], Hlc), &[u8])>
    ensures { option_map (λ p. ((p.0.0.now, p.0.1), p.1.now)) result ≡ read_dated b.now }
{
    let Some((bytes, rest)) = take_sized(b) else {
        return None;
    };
    match split_mvcc(bytes) {
        Some(key) => Some((key, rest)),
        None => None,
    }
}

#[tactic(auto, unfolding(crate::specs::Entries::read_put))]
fn take_put(b: &[u8]) -> Option<(EntryView<'_>, &[u8])>
    ensures { option_map (λ p. (seen p.0, p.1.now)) result ≡ read_put b.now }
{
    let Some(((key, at), rest)) = take_dated(b) else {
        return None;
    };
    match take_sized(rest) {
        Some((value, rest)) => Some((EntryView::Put { key, at, value }, rest)),
        None => None,
    }
}

#[tactic(auto, unfolding(crate::specs::Entries::read_del))]
fn take_deletion(b: &[u8]) -> Option<(EntryView<'_>, &[u8])>
    ensures { option_map (λ p. (seen p.0, p.1.now)) result ≡ read_del b.now }
{
    match take_dated(b) {
        Some(((key, at), rest)) => Some((EntryView::Del { key, at }, rest)),
        None => None,
    }
}

#[tactic(auto, unfolding(crate::specs::Entries::read_range))]
fn take_range(b: &[u8]) -> Option<(EntryView<'_>, &[u8])>
    ensures { option_map (λ p. (seen p.0, p.1.now)) result ≡ read_range b.now }
{
    let Some(((lo, at), rest)) = take_dated(b) else {
        return None;
    };
    match take_sized(rest) {
        Some((hi, rest)) => Some((EntryView::Range { lo, hi, at }, rest)),
        None => None,
    }
}

/// The entry that is spelled in front, and what follows.
#[tactic(auto, unfolding(crate::specs::Entries::read_entry))]
pub(crate) fn take_entry(b: &[u8]) -> Option<(EntryView<'_>, &[u8])>
    ensures { option_map (λ p. (seen p.0, p.1.now)) result ≡ read_entry b.now }
{
    let Some((mark, rest)) = b.split_first() else {
        return None;
    };
    match *mark {
        1 => take_put(rest),
        2 => take_deletion(rest),
        3 => take_range(rest),
        _ => None,
    }
}

// ---- what an entry of a chunk must meet

fn is_range(entry: &EntryView<'_>) -> bool
    ensures { result ≡ is_range (seen entry.now) }
{
    matches!(entry, EntryView::Range { .. })
}

fn key_of<'a>(entry: &EntryView<'a>) -> &'a [u8]
    ensures { result.now ≡ key_of (seen entry.now) }
{
    match entry {
        EntryView::Put { key, .. } => key,
        EntryView::Del { key, .. } => key,
        EntryView::Range { lo, .. } => lo,
    }
}

fn date_of(entry: &EntryView<'_>) -> Hlc
    ensures { result ≡ date_of (seen entry.now) }
{
    match entry {
        EntryView::Put { at, .. } => *at,
        EntryView::Del { at, .. } => *at,
        EntryView::Range { at, .. } => *at,
    }
}

/// Whether an entry stands before another: puts and deletions by key, of one key the newer first,
/// and then range deletions by date.
#[tactic(auto, unfolding(crate::specs::Entries::comes_before))]
pub fn comes_before(first: &EntryView<'_>, second: &EntryView<'_>) -> bool
    ensures { result ≡ comes_before (seen first.now) (seen second.now) }
{
    if is_range(first) {
        return is_range(second) && date_of(first) < date_of(second);
    }
    is_range(second)
        || cmp_mvcc(
            key_of(first),
            date_of(first),
            key_of(second),
            date_of(second),
        )
        .is_lt()
}

fn may_follow(last: &Option<EntryView<'_>>, entry: &EntryView<'_>) -> bool
    ensures { result ≡ may_follow (option_map seen last.now) (seen entry.now) }
{
    match last {
        Some(last) => comes_before(last, entry),
        None => true,
    }
}

#[tactic(auto, unfolding(crate::specs::Entries::is_entry))]
fn is_entry(entry: &EntryView<'_>, table: u32, kinds: &[Kind]) -> bool
    ensures { result ≡ is_entry table kinds.now (seen entry.now) }
{
    match entry {
        EntryView::Put { key, value, .. } => {
            check_row_key(key, table, kinds) && check_row_value(value)
        }
        EntryView::Del { key, .. } => check_row_key(key, table, kinds),
        EntryView::Range { lo, hi, .. } => {
            check_row_key(lo, table, kinds) && check_row_key(hi, table, kinds) && lo.cmp(hi).is_lt()
        }
    }
}

/// The entry in front, if it is one of the table and may follow the one before it, and what
/// follows.
#[tactic(auto, unfolding(crate::specs::Chunks::read_next))]
pub(crate) fn take_next<'a>(
    table: u32,
    kinds: &[Kind],
    last: &Option<EntryView<'_>>,
    b: &'a [u8],
) -> Option<(EntryView<'a>, &'a [u8])>
    ensures { option_map (λ p. (seen p.0, p.1.now)) result ≡ read_next table kinds.now (option_map seen last.now) b.now }
{
    let Some((entry, rest)) = take_entry(b) else {
        return None;
    };
    if is_entry(&entry, table, kinds) && may_follow(last, &entry) {
        return Some((entry, rest));
    }
    None
}
