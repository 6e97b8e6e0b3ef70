//! What commands are answered, and the text of each answer.
#![tactic(auto)]

mod answers;
mod backups;
mod laws;
mod refusals;
mod replies;
mod rows;

pub use answers::{Answer, RestoredTable, put_answer};
pub use laws::values_read_back;
pub use refusals::{Refusal, put_refusal};
pub use replies::{Reply, Response};
