//! When a table is public, by its dated descriptors.
ghost use Rattle.std.specs.Prelude.{◌≡◌, ◌&&◌, if◌then◌else◌};
ghost use Rattle.mvcc_keys.specs.Times.{time_le};
ghost use Rattle.range_tombstones.specs.Intervals.{is_between};
ghost use Rattle.range_tombstones.specs.declared.upto.Upto.TheVariants.{At};
ghost use Rattle.introduced_spans.specs.Publicity.{is_public, public_at, begins, ends, becomes_public_in, time_after, is_public_after, is_public_in, later, later_or, last_end, upto_of};

use mvcc_keys::{Hlc, LOGICAL_MAX};
use range_tombstones::Upto;
use table_descriptors::{Descriptor, State};

fn is_public(d: &Descriptor) -> bool
    ensures { result ≡ is_public d.now }
{
    matches!(d.state(), State::Public)
}

/// Whether the latest descriptor dated at or before `t` says Public.
pub fn public_at(descriptors: &[Descriptor], t: Hlc) -> bool
    ensures { result ≡ public_at descriptors.now t }
{
    match descriptors.iter().rev().find(|d| d.modified() <= t) {
        Some(d) => is_public(d),
        None => false,
    }
}

/// Whether a descriptor makes its table public, after one that says so or not, in an interval.
fn begins_in(before: bool, d: &Descriptor, start: Hlc, end: Hlc) -> bool
    ensures { result ≡ (begins (before, d.now) && is_between start (At end) d.now.modified) }
{
    is_public(d) && !before && start < d.modified() && d.modified() <= end
}

/// Whether the table becomes public at a date after the start, up to the end.
#[tactic(auto, unfolding(crate::specs::Publicity::becomes_public_in))]
pub fn becomes_public_in(descriptors: &[Descriptor], start: Hlc, end: Hlc) -> bool
    ensures { result ≡ becomes_public_in descriptors.now start end }
{
    let mut before = false;
    for d in descriptors {
        if begins_in(before, d, start, end) {
            return true;
        }
        before = is_public(d);
    }
    false
}

/// The least time after one, where it isn't the last.
fn time_after(s: Hlc) -> Option<Hlc>
    ensures { result ≡ time_after s }
{
    if s.logical() < LOGICAL_MAX {
        return s.next();
    }
    if s.wall() < u64::MAX {
        return Some(Hlc::at_wall(s.wall() + 1));
    }
    None
}

fn is_public_after(descriptors: &[Descriptor], start: Hlc, end: Hlc) -> bool
    ensures { result ≡ is_public_after descriptors.now start end }
{
    match time_after(start) {
        Some(t) => t <= end && public_at(descriptors, t),
        None => false,
    }
}

/// Whether the table is public at some time after the start, up to the end.
#[tactic(auto, unfolding(crate::specs::Publicity::is_public_in))]
pub fn is_public_in(descriptors: &[Descriptor], start: Hlc, end: Hlc) -> bool
    ensures { result ≡ is_public_in descriptors.now start end }
{
    is_public_after(descriptors, start, end) || becomes_public_in(descriptors, start, end)
}

pub fn later(s: Hlc, t: Hlc) -> Hlc
    ensures { result ≡ later s t }
{
    if s < t { t } else { s }
}

fn later_or(best: Option<Hlc>, t: Hlc) -> Option<Hlc>
    ensures { result ≡ later_or best t }
{
    match best {
        Some(s) => Some(later(s, t)),
        None => Some(t),
    }
}

/// The later of the last date and this descriptor's, where it ends its table's publicity by `end`.
fn end_after(best: Option<Hlc>, before: bool, d: &Descriptor, end: Hlc) -> Option<Hlc>
    ensures { result ≡ (if ends (before, d.now) && time_le d.now.modified end then later_or best d.now.modified else best) }
{
    if before && !is_public(d) && d.modified() <= end {
        later_or(best, d.modified())
    } else {
        best
    }
}

/// The last date up to the end at which the table stopped being public.
fn last_end(descriptors: &[Descriptor], end: Hlc) -> Option<Hlc>
    ensures { result ≡ last_end descriptors.now end }
{
    let mut best = None;
    let mut before = false;
    for d in descriptors {
        best = end_after(best, before, d, end);
        before = is_public(d);
    }
    best
}

/// Up to which time of a layer with this end a table is public.
#[tactic(auto, unfolding(crate::specs::Publicity::upto_of))]
pub fn upto_of(descriptors: &[Descriptor], end: Hlc) -> Upto
    ensures { result ≡ upto_of descriptors.now end }
{
    if public_at(descriptors, end) {
        return Upto::At(end);
    }
    match last_end(descriptors, end) {
        Some(q) => Upto::Before(q),
        None => Upto::At(end),
    }
}
