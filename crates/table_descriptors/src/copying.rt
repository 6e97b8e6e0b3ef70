//! Copies of descriptors.
ghost use Rattle.std.specs.Prelude.{◌≡◌, IfOk};

use crate::changing::copies;
use crate::descriptors::Descriptor;
use mvcc_keys::Memory;
use std::alloc::Global;

impl Descriptor {
    /// The same descriptor.
    pub fn copy(&self, alloc: Global) -> Result<Descriptor, Memory>
        ensures { IfOk result (λ d. d ≡ self.now) }
    {
        Ok(Descriptor {
            id: self.id,
            version: self.version,
            database: self.database.copy(alloc)?,
            name: self.name.copy(alloc)?,
            state: self.state,
            columns: copies(alloc, self.columns.as_slice())?,
            key_columns: Vec::from_slice(alloc, self.key_columns.as_slice())?,
            references: Vec::from_slice(alloc, self.references.as_slice())?,
            next_column: self.next_column,
            modified: self.modified,
            down: Vec::from_slice(alloc, self.down.as_slice())?,
        })
    }
}
