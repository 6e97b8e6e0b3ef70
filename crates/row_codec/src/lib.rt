//! Rows: their values, their kinds and their order.
#![tactic(auto)]

mod checks;
mod faults;
mod fields;
mod keys;
mod laws;
mod limits;
mod order;
mod rows;
mod values;

pub use checks::check_row_key;
pub use faults::RowFault;
pub use fields::{put_sized, take_sized};
pub use keys::{are_of_kinds, is_of_kind, read_row_key, row_key};
pub use laws::{
    key_faults_are_first, row_keys_are_exact, row_keys_are_ordered, row_values_are_exact,
    value_faults_are_first,
};
pub use limits::{CHUNK_ENTRIES_MAX, ROW_KEY_BYTES_MAX, ROW_VALUE_BYTES_MAX};
pub use mvcc_keys::{Blob, Items, Memory, Text};
pub use order::{datum_cmp, row_cmp};
pub use rows::{Cell, Datum, Kind, Row};
pub use values::{are_cells, check_row_value, read_row_value, row_value};
