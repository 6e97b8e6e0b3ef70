//! Why a call on a catalog is refused.
ghost use Rattle.std.specs.Prelude.{◌≡◌};
ghost use Rattle.schema_catalog.specs.declared.faults.CatalogFault.TheVariants.{Memory as no_memory};

use mvcc_keys::Memory;
use table_descriptors::Name;

/// Why a call on a catalog is refused. A refused call changes nothing. Tables are named by their
/// database and their name.
#[derive(Drop)]
pub enum CatalogFault {
    NoSuchDatabase { database: Name },
    DatabaseExists { database: Name },
    NoSuchTable { table: (Name, Name) },
    NameTaken { table: (Name, Name) },
    NotPublic { table: (Name, Name) },
    /// The least number of a rule that is broken.
    BadSchema { which: u8 },
    /// The least id of another table that references one to be dropped.
    Referenced { by: u32 },
    TooManyTables,
    Memory,
}

impl From<Memory> for CatalogFault {
    ghost from_gives = { λ _ e. e ≡ no_memory };

    fn from(_refused: Memory) -> CatalogFault {
        CatalogFault::Memory
    }
}
