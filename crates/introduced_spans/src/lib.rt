//! Which tables a layer has, from which floor on and by which plan each is exported.
#![tactic(auto)]

mod laws;
mod planning;
mod plans;
mod publicity;
mod tables;

pub use laws::{full_plans_are_whole, plans_stand};
pub use planning::plan_layer;
pub use plans::{LayerPlan, PlanFault, Span, TablePlan, Threshold};
