//! Rows of tables over a store of versions.
#![tactic(auto)]

mod checks;
mod columns;
mod faults;
mod rows;
mod values;

pub use faults::{RowsFault, SelectFault};
pub use rows::TableRows;
