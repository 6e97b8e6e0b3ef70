//! Stores of dated facts in bytes.
#![tactic(auto)]

mod calls;
mod choice;
mod entries;
mod fact_list;
mod laws;
mod listings;
mod mvcc_map;
mod newest;
mod replaying;
mod row;
mod rows;
mod table_versions;
mod versions;
mod walk;

pub use calls::{VersionAnswer, VersionCall};
pub use fact_list::FactList;
pub use laws::keys_are_ordered;
pub use mvcc_map::MvccMap;
pub use replaying::replay;
pub use versions::Versions;
