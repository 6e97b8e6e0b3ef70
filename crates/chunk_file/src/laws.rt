//! What holds of chunks.
ghost use Rattle.chunk_file.specs.Chunks.{ChunksAreExact};
ghost use Rattle.chunk_file.specs.Entries.{EntriesAreOrdered};
ghost use Rattle.chunk_file.specs.Faults.{FaultsAreFirst};

/// A law: what is read as a chunk are just the chunks that are written, and different lists of
/// entries have different bytes.
pub fn chunks_are_exact()
    ensures { ChunksAreExact }
{}

/// A law: bytes that are no chunk are refused at the first item that isn't spelled or doesn't fit
/// those before it, or at the first byte left over.
pub fn faults_are_first()
    ensures { FaultsAreFirst }
{}

/// A law: the order of entries is strict, and each entry of a chunk stands before all after it.
pub fn entries_are_ordered()
    ensures { EntriesAreOrdered }
{}
