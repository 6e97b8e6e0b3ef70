//! Chunks that a case gives, and the list of the loads that were made of them.
ghost use Rattle.std.specs.Prelude.{None};

use layer_merge::Chunks;
use std::alloc::Global;

/// Why a chunk isn't answered.
#[derive(Drop)]
pub enum Refusal {
    Refused,
    Absent,
    Memory,
}

/// The bytes of a chunk by its layer and number.
#[derive(Drop)]
pub struct StoredChunk {
    pub layer: usize,
    pub number: u32,
    pub bytes: Vec<u8>,
    pub refused: bool,
}

/// The chunks of a case, and the layers and numbers of those that were loaded.
#[derive(Drop)]
pub struct Source {
    pub alloc: Global,
    pub chunks: Vec<StoredChunk>,
    pub loads: Vec<(usize, u32)>,
}

impl StoredChunk {
    fn answer(&self, alloc: Global) -> Result<Vec<u8>, Refusal> {
        if self.refused {
            return Err(Refusal::Refused);
        }
        match Vec::from_slice(alloc, self.bytes.as_slice()) {
            Ok(bytes) => Ok(bytes),
            Err(_) => Err(Refusal::Memory),
        }
    }
}

impl Source {
    fn stored(&self, layer: usize, number: u32) -> Result<Vec<u8>, Refusal> {
        for stored in &self.chunks {
            if stored.layer == layer && stored.number == number {
                return stored.answer(self.alloc);
            }
        }
        Err(Refusal::Absent)
    }
}

impl Chunks for Source {
    type Fault = Refusal;

    ghost kept = { λ a b. Unit {0} };

    ghost came = { λ a b layer table chunk r. Unit {0} };

    ghost loads = { λ a. None };

    ghost kept_same = { λ a. tt };

    ghost kept_chain = { λ a b c k l. tt };

    ghost came_later = { λ a b c layer table chunk r k h. tt };

    ghost came_earlier = { λ a b c layer table chunk r h k. tt };

    fn load(&mut self, layer: usize, _table: u32, chunk: u32) -> Result<Vec<u8>, Refusal> {
        if self.loads.push((layer, chunk)).is_err() {
            return Err(Refusal::Memory);
        }
        self.stored(layer, chunk)
    }
}
