//! Why there is no chain, no join and no span.
use mvcc_keys::Hlc;

/// Why no chain leads to a time: the first of these that holds.
#[derive(Clone, Copy, Debug, PartialEq, Eq)]
pub enum CoverFault {
    /// No layer has the time in its interval; the least and the greatest end.
    NotCovered { first: Hlc, last: Hlc },
    /// No layer serves the time, and one over it has a later floor: the least such floor.
    HistoryCollected { floor: Hlc },
    /// No layer serves the time: the nearest ends on both sides.
    NeedsHistory { below: Hlc, above: Hlc },
    /// A layer is missing: the greatest end before the time that adjoining layers reach, and the
    /// least start of a layer that serves it.
    Gap { reached: Hlc, wants: Hlc },
    Memory,
}

/// Why no layers join two times.
#[derive(Clone, Copy, Debug, PartialEq, Eq)]
pub enum JoinFault {
    NoChain { from: Hlc, to: Hlc },
    Memory,
}

/// Why no layers tell the changes between two times.
#[derive(Clone, Copy, Debug, PartialEq, Eq)]
pub enum SpanFault {
    NoSpan,
    Memory,
}
