//! The outside: what a run reads from, writes to and keeps its objects on.
#![tactic(auto)]

mod call;
mod disk;
mod entries;
mod folder;
mod memory;
mod memory_disk;
mod next_bytes;
mod replacing;
mod standard;
mod sure;
mod sure_disk;
mod traits;

pub use call::{DiskCall, calls_text};
pub use disk::{Disk, DiskFault};
pub use folder::FolderDisk;
pub use memory::{MemorySink, MemorySource};
pub use memory_disk::MemoryDisk;
pub use replacing::replace;
pub use standard::{StdSink, StdSource};
pub use sure::{SureSink, SureSource, sure_streams_never_fail};
pub use sure_disk::{SureDisk, sure_disks_never_fail};
pub use traits::{Failed, Sink, Source};
