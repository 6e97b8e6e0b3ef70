//! Why bytes of rows were refused.
ghost use Rattle.std.specs.Prelude.{◌≡◌};
ghost use Rattle.row_codec.specs.declared.faults.RowFault.TheVariants.{Memory as NoMemory};

use crate::Memory;

/// What is wrong with a row key, a row value or a descriptor.
#[derive(Clone, Copy, Debug, PartialEq, Eq)]
pub enum RowFault {
    /// The first field, cell or byte left over that doesn't read begins here.
    At { offset: usize },
    /// Want of memory.
    Memory,
}

impl From<Memory> for RowFault {
    ghost from_gives = { λ _ e. e ≡ NoMemory };

    fn from(_refused: Memory) -> RowFault {
        RowFault::Memory
    }
}
