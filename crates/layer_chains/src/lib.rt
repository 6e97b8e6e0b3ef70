//! Chains of layers, which records form one to a time and what their entries show of a table; and
//! layers that adjoin, joined into one without history.
#![tactic(auto)]

mod laws;

pub use laws::{chains_show_tables, joins_are_direct};
