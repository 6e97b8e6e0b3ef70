//! Keys under the new ids of their tables.
#![tactic(auto)]

mod id_map;
mod laws;
mod rewriting;

pub use id_map::{IdMap, are_ascending};
pub use laws::{rewritten_keys_differ, rewritten_keys_keep_their_order};
pub use rewriting::{RewriteFault, rewrite};
