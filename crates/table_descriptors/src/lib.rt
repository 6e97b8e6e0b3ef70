//! Names, columns and descriptors of tables.
#![tactic(auto)]

mod changes;
mod changing;
mod columns;
mod copying;
mod descriptor_files;
mod descriptors;
mod faults;
mod fields;
mod key_names;
mod laws;
mod limits;
mod names;
mod restored;
mod rules;
mod scopes;

pub use changes::Change;
pub use columns::{Column, State};
pub use descriptor_files::{
    descriptors_are_exact, read_descriptor, take_descriptor, write_descriptor,
};
pub use descriptors::Descriptor;
pub use faults::SchemaFault;
pub use fields::{
    FieldFault, broken, put_ids, put_number, take_count, take_exactly, take_flag, take_id,
    take_name, take_number, take_sized, take_time,
};
pub use key_names::KeyNames;
pub use laws::descriptor_faults_are_first;
pub use limits::{CHUNKS_MAX, COLUMNS_MAX, NAME_BYTES_MAX, NEXT_COLUMN_ID_MAX};
pub use names::Name;
pub use row_codec::put_sized;
pub use rules::{broken_rule, repeats_id};
pub use scopes::Scope;
