//! Keys in bytes whose order is the order of the values: numbers and byte strings, ascending and
//! descending.
#![tactic(auto)]

mod fault;
mod laws;
mod numbers;
mod strings;

pub use fault::{KeyFault, KeyKind, Memory};
pub use laws::{
    bytes_are_a_code, bytes_down_are_a_code, escape_faults_are_first, uvarints_are_a_code,
    varints_are_a_code, varints_down_are_a_code,
};
pub use numbers::{
    put_uvarint, put_varint, put_varint_down, take_uvarint, take_varint, take_varint_down,
};
pub use strings::{next_escaped, put_bytes, put_bytes_down, take_bytes, take_bytes_down};
