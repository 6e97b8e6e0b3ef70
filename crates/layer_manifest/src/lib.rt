//! Manifests: what a layer of a backup holds, and their bytes in both versions.
#![tactic(auto)]

mod copying;
mod counts;
mod faults;
mod items;
mod laws;
mod manifest;
mod reading;
mod tables;
mod writing;

pub use counts::{chunk_count, entry_count};
pub use faults::ManifestFault;
pub use laws::manifest_faults_are_first;
pub use manifest::{ChunkInfo, Manifest, TablePart};
pub use reading::{manifests_are_exact, read_manifest_bytes};
pub use writing::write_manifest;
