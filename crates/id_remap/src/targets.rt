//! Where the tables of a restore go.
use table_descriptors::Name;

/// Tables go to the database that they were in, or to a given one that is there; a whole database
/// goes to one that the restore creates.
#[derive(Drop)]
pub enum Target {
    Tables { into: Option<Name> },
    Database { name: Name },
}
