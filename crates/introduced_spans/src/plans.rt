//! Plans of layers, and why there is none.
use mvcc_keys::{Hlc, Items, Memory};
use span_export::Plan;

/// What a layer covers: from its start to its end, with history each time from its floor on.
/// Definitions speak of it, also of layers of which the floor is recorded.
#[derive(Clone, Copy, Debug)]
pub struct Span {
    pub start: Hlc,
    pub end: Hlc,
    pub floor: Hlc,
    pub history: bool,
}

/// How a table is exported, and the time from which on its facts must be kept meanwhile. An
/// introduced table became public in the layer's interval.
#[derive(Clone, Copy, Debug)]
pub struct TablePlan {
    pub id: u32,
    pub introduced: bool,
    pub plan: Plan,
    pub protected: Hlc,
}

/// The floor of a layer, and its tables by id.
#[derive(Debug, Drop)]
pub struct LayerPlan {
    pub floor: Hlc,
    pub tables: Items<TablePlan>,
}

/// The time before which nothing is kept of a table.
#[derive(Clone, Copy, Debug)]
pub struct Threshold {
    pub table: u32,
    pub at: Hlc,
}

/// Why a layer can't be planned.
#[derive(Clone, Copy, Debug)]
pub enum PlanFault {
    /// The least id of a table that earlier layers hold, and of which the start is collected.
    StartCollected {
        table: u32,
        threshold: Hlc,
        start: Hlc,
    },
    /// The least id of an introduced table of which the end is collected.
    Collected {
        table: u32,
        threshold: Hlc,
    },
    Memory,
}

impl From<Memory> for PlanFault {
    ghost use Rattle.std.specs.Prelude.{◌≡◌};
    ghost use Rattle.introduced_spans.specs.declared.plans.PlanFault.TheVariants.{Memory as no_memory};

    ghost from_gives = { λ _ e. e ≡ no_memory };

    fn from(_refused: Memory) -> PlanFault {
        PlanFault::Memory
    }
}
