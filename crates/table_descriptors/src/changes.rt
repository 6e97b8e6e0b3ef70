//! Changes of a table's descriptor.
use crate::{Name, State};
use row_codec::Kind;

/// What a command or a job makes of a descriptor.
#[derive(Debug, Drop)]
pub enum Change {
    Add { name: Name, kind: Kind },
    Remove { name: Name },
    RenameColumn { from: Name, to: Name },
    Rename { to: Name },
    Become(State),
}
