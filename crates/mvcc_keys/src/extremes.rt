//! The first and the last of some times.
ghost use Rattle.std.specs.Prelude.{◌≡◌};
ghost use Rattle.mvcc_keys.specs.Times.{earlier, earliest, later, latest, or_zero};

use crate::Hlc;

/// The earlier of the best so far and a time.
pub fn earlier(best: Option<Hlc>, time: Hlc) -> Option<Hlc>
    ensures { result ≡ earlier best time }
{
    match best {
        None => Some(time),
        Some(least) => {
            if time < least {
                Some(time)
            } else {
                Some(least)
            }
        }
    }
}

/// The later of the best so far and a time.
pub fn later(best: Option<Hlc>, time: Hlc) -> Option<Hlc>
    ensures { result ≡ later best time }
{
    match best {
        None => Some(time),
        Some(greatest) => {
            if greatest < time {
                Some(time)
            } else {
                Some(greatest)
            }
        }
    }
}

/// The first of some times, if there is one.
pub fn earliest(times: &[Hlc]) -> Option<Hlc>
    ensures { result ≡ earliest times.now }
{
    let mut best = None;
    for time in times {
        best = earlier(best, *time);
    }
    best
}

/// The last of some times, if there is one.
pub fn latest(times: &[Hlc]) -> Option<Hlc>
    ensures { result ≡ latest times.now }
{
    let mut best = None;
    for time in times {
        best = later(best, *time);
    }
    best
}

/// A time, or the clock's first where there is none.
pub fn time_or_zero(time: Option<Hlc>) -> Hlc
    ensures { result ≡ or_zero time }
{
    match time {
        None => Hlc::zero(),
        Some(time) => time,
    }
}
