//! Why bytes are no manifest.
use mvcc_keys::Memory;

/// The place where the first item begins that doesn't read or doesn't go with those before it, or
/// want of memory.
#[derive(Clone, Copy, Debug, PartialEq, Eq)]
pub enum ManifestFault {
    Malformed { offset: usize },
    Memory,
}

impl From<Memory> for ManifestFault {
    ghost use Rattle.std.specs.Prelude.{◌≡◌};
    ghost use Rattle.layer_manifest.specs.declared.faults.ManifestFault.TheVariants.{Memory as no_memory};

    ghost from_gives = { λ _ e. e ≡ no_memory };

    fn from(_refused: Memory) -> ManifestFault {
        ManifestFault::Memory
    }
}
