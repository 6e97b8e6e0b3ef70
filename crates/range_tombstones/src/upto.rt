//! Where an interval of times ends.
ghost use Rattle.std.specs.Prelude.{◌≡◌};
ghost use Rattle.range_tombstones.specs.Intervals.{is_between, within};

use mvcc_keys::Hlc;

/// The end of an interval: with this time, or just before it.
#[derive(Clone, Copy, Debug, PartialEq, Eq)]
pub enum Upto {
    At(Hlc),
    Before(Hlc),
}

impl Upto {
    /// Whether a time is in the interval.
    pub fn holds(self, t: Hlc) -> bool
        ensures { result ≡ within self t }
    {
        match self {
            Upto::At(end) => t <= end,
            Upto::Before(end) => t < end,
        }
    }
}

/// Whether a time is after one and in an interval.
pub(crate) fn is_between(from: Hlc, upto: &Upto, t: Hlc) -> bool
    ensures { result ≡ is_between from upto.now t }
{
    from < t && upto.holds(t)
}
