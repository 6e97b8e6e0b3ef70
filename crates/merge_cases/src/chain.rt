//! The parts of a chain, with their chunks, as the lines of a case give them.
use crate::source::{Source, StoredChunk};
use crate::words::{entry_of, key, number, put_of, size, word};
use chunk_file::write_chunk_bytes;
use layer_merge::Part;
use mvcc_keys::{Blob, Entry, Hlc, Memory};
use row_codec::CHUNK_ENTRIES_MAX;
use std::alloc::Global;

/// The parts of a case, and the bytes of their chunks.
#[derive(Drop)]
pub struct Chain {
    pub alloc: Global,
    pub parts: Vec<Part>,
    pub source: Source,
}

/// The entries of the words of a line from one on.
fn entries_from(alloc: Global, line: &str, first: usize) -> Result<Vec<Entry>, Memory> {
    let mut entries = Vec::new(alloc);
    for text in line.split(' ').skip(first) {
        entries.push(entry_of(alloc, text)?)?;
    }
    Ok(entries)
}

/// The bounds of the words `bounds least greatest` of a line, if it has them.
fn bounds_of(alloc: Global, line: &str) -> Result<Option<(Blob, Blob)>, Memory> {
    if word(line, 1) != "bounds" {
        return Ok(None);
    }
    let least = key(alloc, number(word(line, 2)))?;
    let greatest = key(alloc, number(word(line, 3)))?;
    Ok(Some((least, greatest)))
}

/// Puts of value 1 at all keys from one up to another.
fn puts_between(alloc: Global, first: u64, last: u64, at: Hlc) -> Result<Vec<Entry>, Memory> {
    let mut entries = Vec::new(alloc);
    for key in first..last.saturating_add(1) {
        entries.push(put_of(alloc, key, 1, at)?)?;
    }
    Ok(entries)
}

impl Chain {
    pub fn new(alloc: Global) -> Chain {
        Chain {
            alloc,
            parts: Vec::new(alloc),
            source: Source {
                alloc,
                chunks: Vec::new(alloc),
                loads: Vec::new(alloc),
            },
        }
    }

    /// Begins a part: `part 0` or `part 0 introduced`.
    fn begin_part(&mut self, line: &str) -> Result<(), Memory> {
        Ok(
            self.parts.push(Part {
                layer: size(word(line, 1)),
                introduced: word(line, 2) == "introduced",
                chunks: 0,
                bounds: Vec::new(self.alloc),
            })?,
        )
    }

    /// Counts a chunk more in the last part, and answers its layer and number.
    fn count(&mut self, bounds: Option<(Blob, Blob)>) -> Result<(usize, u32), Memory> {
        let Some(part) = self.parts.last_mut() else {
            return Err(Memory);
        };
        part.bounds.push(bounds)?;
        let number = part.chunks;
        part.chunks = number.saturating_add(1);
        Ok((part.layer, number))
    }

    fn add_chunk(&mut self, entries: &[Entry], bounds: Option<(Blob, Blob)>) -> Result<(), Memory> {
        let mut bytes = Vec::new(self.alloc);
        write_chunk_bytes(entries, &mut bytes)?;
        let (layer, number) = self.count(bounds)?;
        Ok(
            self.source.chunks.push(StoredChunk {
                layer,
                number,
                bytes,
                refused: false,
            })?,
        )
    }

    /// Adds chunks of at most 256 of the entries each.
    fn add_chunks(&mut self, entries: &[Entry]) -> Result<(), Memory> {
        for piece in entries.chunks(CHUNK_ENTRIES_MAX as usize) {
            self.add_chunk(piece, None)?;
        }
        Ok(())
    }

    /// Spoils the last chunk: its first byte is another (`spoil`), its last byte is missing
    /// (`cut`), or it isn't answered (`refuse`).
    fn spoil(&mut self, how: &str) {
        if let Some(chunk) = self.source.chunks.last_mut() {
            match how {
                "spoil" => {
                    if let Some(first) = chunk.bytes.first_mut() {
                        *first = 0;
                    }
                }
                "cut" => {
                    chunk.bytes.pop();
                }
                _ => chunk.refused = true,
            }
        }
    }

    /// Takes a line that says what the chain has, and answers whether it is one: `part 0`,
    /// `chunk` or `chunk bounds 3 7` with entries behind it, `fill 1 600 2` for puts of the keys
    /// from 1 to 600 with date 2, `spoil`, `cut`, `refuse`.
    pub fn take(&mut self, line: &str) -> Result<bool, Memory> {
        match word(line, 0) {
            "part" => self.begin_part(line)?,
            "chunk" => self.take_chunk(line)?,
            "fill" => self.fill(line)?,
            "spoil" => self.spoil("spoil"),
            "cut" => self.spoil("cut"),
            "refuse" => self.spoil("refuse"),
            _ => return Ok(false),
        }
        Ok(true)
    }

    fn take_chunk(&mut self, line: &str) -> Result<(), Memory> {
        let bounds = bounds_of(self.alloc, line)?;
        let first = if bounds.is_some() { 4 } else { 1 };
        let entries = entries_from(self.alloc, line, first)?;
        self.add_chunk(&entries, bounds)
    }

    fn fill(&mut self, line: &str) -> Result<(), Memory> {
        let at = crate::words::date(word(line, 3));
        let entries = puts_between(self.alloc, number(word(line, 1)), number(word(line, 2)), at)?;
        self.add_chunks(&entries)
    }
}
