//! The table machine and what a script is answered: definitions and the laws of a ready disk.
#![tactic(auto)]

mod extents;
mod laws;
mod limits;

pub use extents::Extent;
pub use laws::{
    appended_scripts_go_on, complete_disks_are_done, empty_disks_are_ready, later_machines_stand,
    longer_scripts_stand, open_layers_are_the_machines, scripts_are_their_lines,
    scripts_end_by_commands, scripts_have_proper_histories, steps_are_later, steps_keep_history,
    steps_keep_order,
};
pub use limits::{EVENTS_MAX, SCRIPT_BYTES_MAX, TABLES_MAX};
