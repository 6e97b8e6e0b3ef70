//! Why a line gives no command.
use mvcc_keys::Memory;

/// A malformed line breaks off at a column, counted from 1.
#[derive(Clone, Copy, Debug, PartialEq, Eq)]
pub enum LineFault {
    Wrong { column: usize },
    Memory,
}

impl From<Memory> for LineFault {
    ghost use Rattle.std.specs.Prelude.{◌≡◌};
    ghost use Rattle.command_lang.specs.declared.faults.LineFault.TheVariants.{Memory as no_memory};

    ghost from_gives = { λ _ e. e ≡ no_memory };

    fn from(_refused: Memory) -> LineFault {
        LineFault::Memory
    }
}
