//! The versions of a key.
ghost use Rattle.std.specs.Prelude.{◌≡◌, ◌≤◌, ◌++◌, [], OnOk, OnErr, length, option_map, ◌==◌};
ghost use Rattle.range_tombstones.specs.Intervals.{is_between};
ghost use Rattle.version_store.specs.Rows.{count_left, count_newer, first_between, first_upto, is_hidden, shows, shows_first, trimmed, with_version};

use mvcc_keys::{Blob, Hlc, Memory};
use range_tombstones::Upto;
use std::alloc::Global;
use std::collections::VecDeque;
use std::marker::Model;

/// What a key holds from a date on: a value, or nothing after a deletion.
#[derive(Drop)]
pub struct Version {
    pub at: Hlc,
    pub value: Option<Blob>,
}

/// The versions of a key, newest first. A queue takes a newer one in front without moving the
/// others.
#[derive(Drop)]
pub struct Row {
    versions: VecDeque<Version>,
}

impl Model for Row {
    ghost use Rattle.std.specs.Prelude.{List};
    ghost use Rattle.version_store.specs.declared.row.Version.{Version};

    ghost Value = { List Version };

    ghost view = { λ r. r.versions.items };
}

/// Whether the newest range deletion over a key is later than a version of it.
pub fn is_hidden(at: Hlc, cover: Option<Hlc>) -> bool
    ensures { result ≡ is_hidden at cover }
{
    match cover {
        Some(cover) => at < cover,
        None => false,
    }
}

fn shows(version: &Version, cover: Option<Hlc>) -> bool
    ensures { result ≡ shows version.now.value (is_hidden version.now.at cover) }
{
    match &version.value {
        Some(_) => !is_hidden(version.at, cover),
        None => false,
    }
}

/// How many versions in front are newer than a date.
#[tactic(auto, unfolding(crate::specs::Rows::count_newer))]
fn count_newer(versions: &[Version], at: Hlc) -> usize
    ensures value { result ≡ count_newer at versions.now }
    ensures bound { result ≤ length versions.now }
{
    for (i, version) in versions.iter().enumerate() {
        if version.at <= at {
            return i;
        }
    }
    versions.len()
}

/// Whether a date is in an interval.
pub fn is_between(from: Hlc, upto: &Upto, at: Hlc) -> bool
    ensures { result ≡ is_between from upto.now at }
{
    from < at && upto.holds(at)
}

#[tactic(auto, unfolding(crate::specs::Rows::first_upto))]
fn first_among<'a>(versions: &'a [Version], t: Hlc) -> Option<&'a Version>
    ensures { option_map (λ v. v.now) result ≡ first_upto t versions.now }
{
    for version in versions.iter() {
        if version.at <= t {
            return Some(version);
        }
    }
    None
}

#[tactic(auto, unfolding(crate::specs::Rows::first_between))]
fn first_within<'a>(versions: &'a [Version], from: Hlc, upto: &Upto) -> Option<&'a Version>
    ensures { option_map (λ v. v.now) result ≡ first_between from upto.now versions.now }
{
    for version in versions.iter() {
        if is_between(from, upto, version.at) {
            return Some(version);
        }
    }
    None
}

impl Row {
    pub fn new(alloc: Global) -> Row
        ensures { result ≡ [] }
    {
        Row {
            versions: VecDeque::new(alloc),
        }
    }

    /// The newer versions and the older ones, newest first; where they part is left open.
    pub fn as_slices(&self) -> (&[Version], &[Version])
        ensures { result.0.now ++ result.1.now ≡ self.now }
    {
        self.versions.as_slices()
    }

    pub fn is_empty(&self) -> bool
        ensures { result ≡ (length self.now == 0) }
    {
        self.versions.is_empty()
    }

    /// The newest version dated at or before a time.
    pub fn first_upto(&self, t: Hlc) -> Option<&Version>
        ensures { option_map (λ v. v.now) result ≡ first_upto t self.now }
    {
        let (newer, older) = self.versions.as_slices();
        match first_among(newer, t) {
            Some(version) => Some(version),
            None => first_among(older, t),
        }
    }

    /// The newest version of an interval.
    pub fn first_between(&self, from: Hlc, upto: &Upto) -> Option<&Version>
        ensures { option_map (λ v. v.now) result ≡ first_between from upto.now self.now }
    {
        let (newer, older) = self.versions.as_slices();
        match first_within(newer, from, upto) {
            Some(version) => Some(version),
            None => first_within(older, from, upto),
        }
    }

    /// How many versions are newer than a date.
    fn place_of(&self, at: Hlc) -> usize
        ensures place { result ≡ count_newer at self.now }
        ensures bound { result ≤ length self.now }
    {
        let (newer, older) = self.versions.as_slices();
        let place = count_newer(newer, at);
        if place < newer.len() {
            return place;
        }
        place + count_newer(older, at)
    }

    /// Puts a version behind the newer ones.
    pub fn insert(&mut self, version: Version) -> Result<(), Memory>
        ensures ok { OnOk result (self.new ≡ with_version version self.old) }
        ensures err { OnErr result (self.new ≡ self.old) }
    {
        let place = self.place_of(version.at);
        let refused = self.versions.insert(place, version).is_err();
        if refused {
            return Err(Memory);
        }
        Ok(())
    }

    /// Whether the row shows a value at `g`.
    fn shows_at(&self, g: Hlc, cover: Option<Hlc>) -> bool
        ensures { result ≡ shows_first cover (first_upto g self.now) }
    {
        match self.first_upto(g) {
            Some(version) => shows(version, cover),
            None => false,
        }
    }

    fn len(&self) -> usize
        ensures { result ≡ length self.now }
    {
        self.versions.len()
    }

    /// How many versions in front a collection up to `g` leaves.
    fn count_left(&self, g: Hlc, cover: Option<Hlc>) -> usize
        ensures { result ≡ count_left g cover self.now }
    {
        let newer = self.place_of(g);
        if self.len() <= newer {
            return newer;
        }
        if self.shows_at(g, cover) {
            newer + 1
        } else {
            newer
        }
    }

    /// Keeps the versions after `g` and the one that the row shows at `g`, if it shows one.
    pub fn trim(&mut self, g: Hlc, cover: Option<Hlc>)
        ensures { self.new ≡ trimmed g cover self.old }
    {
        let left = self.count_left(g, cover);
        self.versions.truncate(left);
    }
}
