//! A collection's layers as objects on a disk: written, finished, forgotten and read.
#![tactic(auto)]

mod chunks;
mod fault;
mod finishing;
mod forgetting;
mod laws;
mod objects;
mod reading;
mod versions;

pub use chunks::write_chunk;
pub use fault::DirFault;
pub use finishing::finish_layer;
pub use forgetting::forget_layer;
pub use laws::one_layer_may_change_in_either;
pub use reading::{read_chunk, read_manifest};
