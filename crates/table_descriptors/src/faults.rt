//! Why no descriptor is made.
use mvcc_keys::Memory;

/// The least number of a rule that is broken, or want of memory.
#[derive(Clone, Copy, Debug, PartialEq, Eq)]
pub enum SchemaFault {
    BadSchema { which: u8 },
    Memory,
}

impl From<Memory> for SchemaFault {
    ghost use Rattle.std.specs.Prelude.{◌≡◌};
    ghost use Rattle.table_descriptors.specs.declared.faults.SchemaFault.TheVariants.{Memory as no_memory};

    ghost from_gives = { λ _ e. e ≡ no_memory };

    fn from(_refused: Memory) -> SchemaFault {
        SchemaFault::Memory
    }
}
