//! Databases and tables by name and by date.
#![tactic(auto)]

mod catalog;
mod dated;
mod faults;
mod laws;

pub use catalog::{Catalog, FIRST_TABLE_ID};
pub use faults::CatalogFault;
pub use laws::drops_are_of_these;
