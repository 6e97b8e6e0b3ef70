//! Why a run stops before the end of its script, and how it ended.
ghost use Rattle.std.specs.Prelude.{◌≡◌};
ghost use Rattle.backup_run.specs.declared.stops.Stop.TheVariants.{WriteFault};
ghost use Rattle.backup_run.specs.Endings.{ending_of, stop_of};

use outside_world::{DiskFault, Failed};

#[derive(Clone, Copy, Debug, PartialEq, Eq)]
pub enum Stop {
    Malformed,
    WriteFault,
    DiskFault,
    Memory,
}

impl From<DiskFault> for Stop {
    ghost from_gives = { λ fault e. e ≡ stop_of fault };

    fn from(fault: DiskFault) -> Stop {
        match fault {
            DiskFault::Failed => Stop::DiskFault,
            DiskFault::Memory => Stop::Memory,
        }
    }
}

impl From<Failed> for Stop {
    ghost from_gives = { λ _ e. e ≡ WriteFault };

    fn from(_failed: Failed) -> Stop {
        Stop::WriteFault
    }
}

/// How a run ended.
#[derive(Clone, Copy, Debug, PartialEq, Eq)]
pub enum Ending {
    AllDone,
    SomeRefused,
    IllFormed,
    ReadFault,
    Unwritten,
    DiskFailed,
    NoMemory,
}

pub fn ending_of(stop: Stop) -> Ending
    ensures { result ≡ ending_of stop }
{
    match stop {
        Stop::Malformed => Ending::IllFormed,
        Stop::WriteFault => Ending::Unwritten,
        Stop::DiskFault => Ending::DiskFailed,
        Stop::Memory => Ending::NoMemory,
    }
}
