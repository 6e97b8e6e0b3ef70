//! Why a step gave no reply.
use mvcc_keys::Memory;
use thiserror::Error;

#[derive(Clone, Copy, Debug, PartialEq, Eq, Error)]
pub enum RunFault {
    /// The disk failed, and counted it.
    #[error("the disk failed")]
    Disk,
    /// Want of memory.
    #[error("out of memory")]
    Memory,
    /// An earlier step gave no reply.
    #[error("an earlier command gave no reply")]
    Ended,
}

impl From<Memory> for RunFault {
    ghost use Rattle.std.specs.Prelude.{◌≡◌};
    ghost use Rattle.cluster_core.specs.declared.fault.RunFault.TheVariants.{Memory as no_memory};

    ghost from_gives = { λ _ e. e ≡ no_memory };

    fn from(_wanted: Memory) -> RunFault {
        RunFault::Memory
    }
}
