//! Range deletions of keys.
#![tactic(auto)]

mod changes;
mod dates;
mod deletion;
mod fragments;
mod piece;
mod pieces;
mod upto;

pub use fragments::Fragments;
pub use upto::Upto;
