//! Lines of a script, and the commands that they ask for.
#![tactic(auto)]

mod command;
mod faults;
mod forms;
mod laws;
mod layer_forms;
mod limits;
mod reading;

pub use command::{Command, Tbl};
pub use faults::LineFault;
pub use laws::{forms_are_exact, read_commands_are_typed, readings_are_exact};
pub use limits::LINE_BYTES_MAX;
pub use reading::parse_line;
pub use script_grammar::Src;
