//! The descriptor that a restore makes of an older one.
ghost use Rattle.std.specs.Prelude.{◌≡◌, false, IfOk};
ghost use Rattle.table_descriptors.specs.Descriptors.{repeats_id};
ghost use Rattle.table_descriptors.specs.Restoring.{restored_schema};

use crate::changing::copies;
use crate::columns::State;
use crate::descriptors::{Descriptor, a_time};
use crate::names::Name;
use mvcc_keys::{Hlc, Memory};
use std::alloc::Global;

impl Descriptor {
    /// The same table under a new id, in a database and with references of its own: Offline and of
    /// version 1.
    #[tactic(auto, unfolding(crate::specs::Restoring::restored_schema))]
    pub fn restored(
        &self,
        alloc: Global,
        id: u32,
        database: &Name,
        references: &[u32],
        at: Hlc,
    ) -> Result<Descriptor, Memory>
        requires { repeats_id references.now ≡ false }
        ensures { IfOk result (λ d. d ≡ restored_schema self.now id database.now references.now at) }
    {
        Ok(Descriptor {
            id,
            version: 1,
            database: database.copy(alloc)?,
            name: self.name.copy(alloc)?,
            state: State::Offline,
            columns: copies(alloc, self.columns.as_slice())?,
            key_columns: Vec::from_slice(alloc, self.key_columns.as_slice())?,
            references: Vec::from_slice(alloc, references)?,
            next_column: self.next_column,
            modified: a_time(at),
            down: Vec::from_slice(alloc, self.down.as_slice())?,
        })
    }
}
