//! Chunks: up to 256 dated facts of one table in one file, written, and read without memory.
#![tactic(auto)]

mod checks;
mod held;
mod laws;
mod malformed;
mod reading;
mod view;
mod writing;

pub use held::HeldChunk;
pub use laws::{chunks_are_exact, entries_are_ordered, faults_are_first};
pub use malformed::Malformed;
pub use mvcc_keys::{Entry, EntryView, Memory};
pub use reading::comes_before;
pub use row_codec::Kind;
pub use view::{ChunkIter, ChunkView};
pub use writing::write_chunk_bytes;
