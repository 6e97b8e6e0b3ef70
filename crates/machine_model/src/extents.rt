//! What a backup is to cover.
use mvcc_keys::Hlc;
use table_descriptors::{Name, Scope};

/// Where the layer of a backup goes, and what it is to cover. The start of an increment is where
/// the layers before it end, that of a full backup is zero. The layer's floor isn't among this: it
/// follows from the thresholds of its tables.
#[derive(Drop)]
pub struct Extent {
    pub collection: Name,
    /// The end of the full backup to which the layer belongs.
    pub full: Hlc,
    pub start: Hlc,
    pub end: Hlc,
    pub history: bool,
    pub scope: Scope,
}
