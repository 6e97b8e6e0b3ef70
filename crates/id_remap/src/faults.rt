//! Why tables don't get new ids.
ghost use Rattle.std.specs.Prelude.{◌≡◌};
ghost use Rattle.id_remap.specs.declared.faults.RemapFault.TheVariants.{Memory as no_memory};

use mvcc_keys::Memory;
use table_descriptors::Name;

/// Why a restore's tables don't get new ids. Tables are named by their database and their name.
#[derive(Drop)]
pub enum RemapFault {
    /// A table, by its old id, references one that isn't chosen, least id.
    MissingReference { table: u32, referenced: u32 },
    NoSuchDatabase { database: Name },
    DatabaseExists { database: Name },
    NameTaken { table: (Name, Name) },
    TooManyTables,
    Memory,
}

impl From<Memory> for RemapFault {
    ghost from_gives = { λ _ e. e ≡ no_memory };

    fn from(_refused: Memory) -> RemapFault {
        RemapFault::Memory
    }
}
