//! The parts of which the forms of commands are made.
#![tactic(auto)]

mod backups;
mod broken;
mod forms;
mod laws;
mod options;
mod parts;

pub use backups::{Src, collection, source_in, tables};
pub use broken::Broken;
pub use forms::{
    Item, Part, begins_with_word, ending, farthest, is_mark, list_of, many, mark, word,
};
pub use laws::{parts_are_exact, sources_are_exact};
pub use options::{BackupOptions, backup_clauses, restore_options};
pub use parts::{
    asof, column, columns, count, key, kind, name, new_name, references, row, rows, table, time,
};
pub use script_tokens::{Token, is_blank, tokens};
