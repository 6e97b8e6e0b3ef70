//! What holds of every plan.
ghost use Rattle.introduced_spans.specs.PlanLaws.{PlansStand, FullPlansAreWhole};

/// A law: a plan's tables ascend by id, and are tables of the catalog and of the scope. The floor
/// isn't before the start. Where no test refuses the layer, the floor isn't after the end, and what
/// is exported and protected of a table isn't before its threshold.
pub fn plans_stand()
    ensures { PlansStand }
{}

/// A law: a full layer without history has each of the scope's tables that is public at the end,
/// introduced and whole as of the end, where all descriptors are dated after the clock's start.
pub fn full_plans_are_whole()
    ensures { FullPlansAreWhole }
{}
