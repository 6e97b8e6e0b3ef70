//! Layers of backups as they are stored: the names of their objects, both ways, and when their
//! objects are safe, open and whole.
#![tactic(auto)]

mod laws;
mod names;
mod reading;
mod writing;

pub use laws::{
    names_are_exact, names_differ, nothing_stands, one_layer_may_change, part_names_differ,
};
pub use names::{LayerName, ObjectName, Part};
pub use reading::read_name;
pub use writing::{part_name, write_name};
