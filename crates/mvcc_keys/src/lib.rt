//! Times of the hybrid clock, keys of versions, and the values that contracts see as lists.
#![tactic(auto)]

mod bytes;
mod codes;
mod entries;
mod extremes;
mod items;
mod time;
mod time_text;

pub use bytes::{Blob, Memory, Text};
pub use codes::{
    cmp_mvcc, encode_mvcc, mvcc_keys_are_exact, put_time, split_mvcc, take_time,
    time_bytes_are_exact,
};
pub use entries::{Entry, EntryView};
pub use extremes::{earlier, earliest, later, latest, time_or_zero};
pub use items::Items;
pub use time::{Hlc, LOGICAL_MAX};
pub use time_text::{TimeFault, parse_time, put_time_text, times_are_exact};
