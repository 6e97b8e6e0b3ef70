//! What the name of an object tells: its layer, and which part of it.
ghost use Rattle.std.specs.Prelude.{◌≡◌, ◌<◌, ◌^◌, ◌↔◌, true, IfOk};
ghost use Rattle.mvcc_keys.specs.Times.{IsTime};
ghost use Rattle.layer_model.specs.Names.{IsLayerName, IsNumbered};

use mvcc_keys::{Hlc, Memory};
use std::alloc::Global;
use table_descriptors::{CHUNKS_MAX, Name};

/// The layer of a backup from a start to an end, in the subdirectory of a cluster and a full
/// backup's end.
#[derive(Debug, Drop)]
pub struct LayerName {
    pub collection: Name,
    pub cluster: Name,
    pub full: Hlc,
    pub start: Hlc,
    pub end: Hlc,
    pub job: u32,
}

/// Each time is in its range.
fn is_time(t: Hlc)
    ensures { IsTime t }
{
    let _ = t.wall();
    let _ = t.logical();
}

/// A job has 32 bits.
fn is_job(n: u32)
    ensures { n < 2 ^ 32 }
{}

impl LayerName {
    /// The same name.
    pub fn copy(&self, alloc: Global) -> Result<LayerName, Memory>
        ensures same { IfOk result (λ n. n ≡ self.now) }
        ensures form { IfOk result IsLayerName }
    {
        is_time(self.full);
        is_time(self.start);
        is_time(self.end);
        is_job(self.job);
        Ok(LayerName {
            collection: self.collection.copy(alloc)?,
            cluster: self.cluster.copy(alloc)?,
            full: self.full,
            start: self.start,
            end: self.end,
            job: self.job,
        })
    }
}

/// A part of a layer. Chunks, and the marks of chunks, are numbered below 1,000,000.
#[derive(Clone, Copy, Debug, PartialEq, Eq)]
pub enum Part {
    Gate,
    Manifest,
    Chunk(u32),
    Mark(u32),
}

impl Part {
    /// Whether its number has at most six digits.
    pub fn is_numbered(self) -> bool
        ensures { result ≡ true ↔ IsNumbered self }
    {
        match self {
            Part::Gate | Part::Manifest => true,
            Part::Chunk(n) | Part::Mark(n) => n < CHUNKS_MAX,
        }
    }
}

/// The name of one object.
#[derive(Debug, Drop)]
pub struct ObjectName {
    pub layer: LayerName,
    pub part: Part,
}
