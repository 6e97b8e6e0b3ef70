//! Merges of the entries of one table in several layers, streamed over their chunks.
#![tactic(auto)]

mod changes;
mod chunks;
mod cursor;
mod entry_merge;
mod laws;
mod loading;
mod parts;
mod points;
mod range_set;
mod ranges;
mod row_merge;
mod rows;
mod start;
mod walk;
mod wanted;

pub use chunks::{Chunks, MergeFault};
pub use entry_merge::EntryMerge;
pub use laws::{chains_are_whole, joins_are_direct};
pub use mvcc_keys::{Entry, Memory};
pub use parts::Part;
pub use row_codec::Kind;
pub use row_merge::RowMerge;
