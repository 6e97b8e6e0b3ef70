//! Why a command isn't carried out.
ghost use Rattle.std.specs.Prelude.{◌≡◌};
ghost use Rattle.cluster_core.specs.declared.halts.Halt.TheVariants.{Memory as no_memory};
ghost use Rattle.machine_model.specs.Refusals.{refusal_of_catalog, refusal_of_rows};
ghost use Rattle.machine_model.specs.Backups.{refusal_of_plan};
ghost use Rattle.machine_model.specs.Restores.{refusal_of_remap};
ghost use Rattle.cluster_core.specs.Halting.{halt_of, halt_of_dir};

use collection_dir::DirFault;
use id_remap::RemapFault;
use introduced_spans::PlanFault;
use mvcc_keys::Memory;
use reply_texts::Refusal;
use schema_catalog::CatalogFault;
use table_rows::RowsFault;

/// Why a command isn't carried out: a refusal, a fault of the disk, or want of memory.
#[derive(Drop)]
pub enum Halt {
    Refused(Refusal),
    Disk,
    Memory,
}

impl From<Memory> for Halt {
    ghost from_gives = { λ _ e. e ≡ no_memory };

    fn from(_wanted: Memory) -> Halt {
        Halt::Memory
    }
}

impl From<CatalogFault> for Halt {
    ghost from_gives = { λ fault e. e ≡ halt_of (refusal_of_catalog fault) };

    fn from(fault: CatalogFault) -> Halt {
        match fault {
            CatalogFault::NoSuchDatabase { database } => {
                Halt::Refused(Refusal::NoSuchDatabase { database })
            }
            CatalogFault::DatabaseExists { database } => {
                Halt::Refused(Refusal::DatabaseExists { database })
            }
            CatalogFault::NoSuchTable { table } => Halt::Refused(Refusal::NoSuchTable { table }),
            CatalogFault::NameTaken { table } => Halt::Refused(Refusal::NameTaken { table }),
            CatalogFault::NotPublic { table } => Halt::Refused(Refusal::NotPublic { table }),
            CatalogFault::BadSchema { which } => Halt::Refused(Refusal::BadSchema { which }),
            CatalogFault::Referenced { by } => Halt::Refused(Refusal::Referenced { by }),
            CatalogFault::TooManyTables => Halt::Refused(Refusal::TooManyTables),
            CatalogFault::Memory => Halt::Memory,
        }
    }
}

impl From<RowsFault> for Halt {
    ghost from_gives = { λ fault e. e ≡ halt_of (refusal_of_rows fault) };

    fn from(fault: RowsFault) -> Halt {
        match fault {
            RowsFault::WrongRow { row, column } => {
                Halt::Refused(Refusal::WrongRow { row, column })
            }
            RowsFault::TooLarge { row } => Halt::Refused(Refusal::TooLarge { row }),
            RowsFault::DuplicateKey { row } => Halt::Refused(Refusal::DuplicateKey { row }),
            RowsFault::EmptyRange => Halt::Refused(Refusal::EmptyRange),
            RowsFault::Memory => Halt::Memory,
        }
    }
}

impl From<PlanFault> for Halt {
    ghost from_gives = { λ fault e. e ≡ halt_of (refusal_of_plan fault) };

    fn from(fault: PlanFault) -> Halt {
        match fault {
            PlanFault::StartCollected {
                table,
                threshold,
                start,
            } => Halt::Refused(Refusal::StartCollected {
                table,
                threshold,
                start,
            }),
            PlanFault::Collected { table, threshold } => {
                Halt::Refused(Refusal::Collected { table, threshold })
            }
            PlanFault::Memory => Halt::Memory,
        }
    }
}

impl From<RemapFault> for Halt {
    ghost from_gives = { λ fault e. e ≡ halt_of (refusal_of_remap fault) };

    fn from(fault: RemapFault) -> Halt {
        match fault {
            RemapFault::MissingReference { table, referenced } => {
                Halt::Refused(Refusal::MissingReference { table, referenced })
            }
            RemapFault::NoSuchDatabase { database } => {
                Halt::Refused(Refusal::NoSuchDatabase { database })
            }
            RemapFault::DatabaseExists { database } => {
                Halt::Refused(Refusal::DatabaseExists { database })
            }
            RemapFault::NameTaken { table } => Halt::Refused(Refusal::NameTaken { table }),
            RemapFault::TooManyTables => Halt::Refused(Refusal::TooManyTables),
            RemapFault::Memory => Halt::Memory,
        }
    }
}

impl From<DirFault> for Halt {
    ghost from_gives = { λ fault e. e ≡ halt_of_dir fault };

    fn from(fault: DirFault) -> Halt {
        match fault {
            DirFault::Failed => Halt::Disk,
            DirFault::Memory => Halt::Memory,
            DirFault::Damaged {
                object,
                wanted,
                found,
            } => Halt::Refused(Refusal::Damaged {
                object,
                wanted,
                found,
            }),
            DirFault::Malformed { object, offset } => {
                Halt::Refused(Refusal::Malformed { object, offset })
            }
            DirFault::LayerDiffers {
                object,
                wanted,
                found,
            } => Halt::Refused(Refusal::LayerDiffers {
                object,
                wanted,
                found,
            }),
        }
    }
}
