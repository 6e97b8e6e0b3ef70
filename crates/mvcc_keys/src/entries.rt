//! Versions as they are stored and exported, with keys and values in bytes.
ghost use Rattle.std.specs.Prelude.{◌≡◌};
ghost use Rattle.mvcc_keys.specs.Entries.{end_of, key_of};

use crate::{Blob, Hlc};

/// A put, a deletion, or a range deletion of the keys from `lo` up to, not including, `hi`.
#[derive(Debug, Drop)]
pub enum Entry {
    Put { key: Blob, at: Hlc, value: Blob },
    Del { key: Blob, at: Hlc },
    Range { lo: Blob, hi: Blob, at: Hlc },
}

impl Entry {
    /// The key of a put or of a deletion, the first key of a range deletion.
    pub fn key(&self) -> &[u8]
        ensures { result.now ≡ key_of self.now }
    {
        match self {
            Entry::Put { key, .. } => key.as_slice(),
            Entry::Del { key, .. } => key.as_slice(),
            Entry::Range { lo, .. } => lo.as_slice(),
        }
    }

    /// The key of a put or of a deletion, the end of a range deletion.
    pub fn end(&self) -> &[u8]
        ensures { result.now ≡ end_of self.now }
    {
        match self {
            Entry::Put { key, .. } => key.as_slice(),
            Entry::Del { key, .. } => key.as_slice(),
            Entry::Range { hi, .. } => hi.as_slice(),
        }
    }
}

/// The same, borrowed from the bytes that it was read from.
#[derive(Clone, Copy, Debug)]
pub enum EntryView<'a> {
    Put {
        key: &'a [u8],
        at: Hlc,
        value: &'a [u8],
    },
    Del {
        key: &'a [u8],
        at: Hlc,
    },
    Range {
        lo: &'a [u8],
        hi: &'a [u8],
        at: Hlc,
    },
}
