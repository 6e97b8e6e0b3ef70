//! Why a call on a layer's objects gave no answer.
use mvcc_keys::{Memory, Text};
use outside_world::DiskFault;
use thiserror::Error;

/// The digests are SHA-256. `found` is none where the object is absent.
#[derive(Debug, Drop, Error)]
pub enum DirFault {
    /// The disk failed, and counted it.
    #[error("the disk failed")]
    Failed,
    /// Want of memory.
    #[error("out of memory")]
    Memory,
    /// A chunk isn't the one that its manifest tells of.
    #[error("{object:?} is damaged")]
    Damaged {
        object: Text,
        wanted: [u8; 32],
        found: Option<[u8; 32]>,
    },
    /// An object breaks its grammar, or doesn't belong to its name.
    #[error("{object:?} is malformed at {offset}")]
    Malformed {
        object: Text,
        offset: usize,
    },
    /// A layer's gate is open over another manifest.
    #[error("{object:?} is another layer's")]
    LayerDiffers {
        object: Text,
        wanted: [u8; 32],
        found: Option<[u8; 32]>,
    },
}

impl From<Memory> for DirFault {
    ghost use Rattle.std.specs.Prelude.{◌≡◌};
    ghost use Rattle.collection_dir.specs.declared.fault.DirFault.TheVariants.{Memory as no_memory};

    ghost from_gives = { λ _ e. e ≡ no_memory };

    fn from(_refused: Memory) -> DirFault {
        DirFault::Memory
    }
}

impl From<DiskFault> for DirFault {
    ghost use Rattle.std.specs.Prelude.{◌≡◌};
    ghost use Rattle.collection_dir.specs.Faults.{fault_of};

    ghost from_gives = { λ d e. e ≡ fault_of d };

    fn from(fault: DiskFault) -> DirFault {
        match fault {
            DiskFault::Failed => DirFault::Failed,
            DiskFault::Memory => DirFault::Memory,
        }
    }
}
