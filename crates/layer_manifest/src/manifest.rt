//! What a manifest tells of its layer.
use mvcc_keys::{Blob, Hlc, Items};
use table_descriptors::{Descriptor, Name, Scope};

/// A chunk of a table: its entries, the length and the SHA-256 of its bytes, and from version 2 on
/// the least and the greatest row key in it.
#[derive(Debug, Drop)]
pub struct ChunkInfo {
    pub entries: u32,
    pub length: u64,
    pub digest: [u8; 32],
    pub bounds: Option<(Blob, Blob)>,
}

/// What a layer holds of a table: its descriptors by date, and its chunks in order.
#[derive(Debug, Drop)]
pub struct TablePart {
    pub id: u32,
    pub introduced: bool,
    pub descriptors: Items<Descriptor>,
    pub chunks: Items<ChunkInfo>,
}

/// A layer as it is stored. Chunks are numbered from 0 through all tables.
#[derive(Debug, Drop)]
pub struct Manifest {
    pub cluster: Name,
    pub job: u32,
    pub full: Hlc,
    pub start: Hlc,
    pub end: Hlc,
    pub floor: Hlc,
    pub history: bool,
    pub scope: Scope,
    pub tables: Items<TablePart>,
    pub version: u8,
}
