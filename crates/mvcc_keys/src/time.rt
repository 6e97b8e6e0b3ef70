//! Times of the hybrid clock.
ghost use Rattle.std.specs.Prelude.{◌≡◌, ◌≤◌, SomeIff};
ghost use Rattle.mvcc_keys.specs.Times.{Time, time, zero_time, next, time_lt, time_le};
ghost use Rattle.mvcc_keys.specs.declared.time.TheConstants.{LOGICAL_MAX};

use std::marker::Model;

/// The greatest counter of a time.
pub const LOGICAL_MAX: u32 = 2147483647;

/// A wall number in nanoseconds and a counter of at most [`LOGICAL_MAX`], ordered by wall, then by
/// counter.
#[derive(Clone, Copy, Debug, PartialEq, Eq, PartialOrd, Ord)]
pub struct Hlc {
    wall: u64,
    logical: u32,
}

impl Model for Hlc {
    ghost use Rattle.std.specs.Prelude.{◌≤◌};
    ghost use Rattle.mvcc_keys.specs.Times.{Time, time};

    ghost Value = { Time };

    ghost view = { λ t. time t.wall t.logical };

    ghost invariant = { λ t. t.logical ≤ 2147483647 };

    ghost inverse = { λ t. record { wall = t.wall; logical = t.logical } };
}

impl Hlc {
    /// The time at which a clock starts.
    pub fn zero() -> Hlc
        ensures { result ≡ zero_time }
    {
        Hlc {
            wall: 0,
            logical: 0,
        }
    }

    /// The first time of a wall.
    pub fn at_wall(wall: u64) -> Hlc
        ensures { result ≡ time wall 0 }
    {
        Hlc { wall, logical: 0 }
    }

    /// The time of a wall and a counter, unless the counter is out of its range.
    pub fn new(wall: u64, logical: u32) -> Option<Hlc>
        ensures { SomeIff result (logical ≤ LOGICAL_MAX) (time wall logical) }
    {
        if logical <= LOGICAL_MAX {
            Some(Hlc { wall, logical })
        } else {
            None
        }
    }

    pub fn wall(self) -> u64
        ensures { result ≡ self.wall }
    {
        self.wall
    }

    pub fn logical(self) -> u32
        ensures value { result ≡ self.logical }
        ensures in_range { result ≤ LOGICAL_MAX }
    {
        self.logical
    }

    /// The time that a clock draws next, unless its counter is at its end.
    pub fn next(self) -> Option<Hlc>
        ensures { result ≡ next self }
    {
        if self.logical < LOGICAL_MAX {
            Some(Hlc {
                wall: self.wall,
                logical: self.logical + 1,
            })
        } else {
            None
        }
    }
}

/// A law: `<` and `<=` on times are the order by wall, then by counter.
pub fn is_before(s: Hlc, t: Hlc) -> bool
    ensures { result ≡ time_lt s t }
{
    s < t
}

/// Whether `s` isn't after `t`.
pub fn is_upto(s: Hlc, t: Hlc) -> bool
    ensures { result ≡ time_le s t }
{
    s <= t
}
