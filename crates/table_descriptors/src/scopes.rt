//! What a backup covers.
use crate::Name;
use mvcc_keys::Items;

/// The tables of a database, or those of a list of ids, ascending.
#[derive(Debug, Drop)]
pub enum Scope {
    Database(Name),
    Tables(Items<u32>),
}
