//! The chunks of one table in the layers of a chain, loaded from a disk and tested.
#![tactic(auto)]

mod chunks;
mod laws;
mod parts;
mod told;

pub use chunks::{StoredChunks, load_chunk, malformed};
pub use collection_dir::DirFault;
pub use laws::are_bytes;
pub use layer_merge::{Chunks, Part};
pub use parts::{StoredPart, merge_parts, stored_parts};
pub use row_codec::Kind;
