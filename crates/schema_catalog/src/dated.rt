//! The descriptors of a table, by date.
ghost use Rattle.std.specs.Prelude.{◌≡◌, ◌∷◌, ◌++◌, ◌-◌, take, length, [], IfOk, OnOk, OnErr};
ghost use Rattle.std.specs.List.{list_any};
ghost use Rattle.std.specs.Option.{option_copied};
ghost use Rattle.history_model.specs.Histories.{has_name, in_force, is_dropped, is_named};
ghost use Rattle.schema_catalog.specs.Catalogs.{is_referring, refers};
ghost use Rattle.table_descriptors.specs.Descriptors.{has_id};

use mvcc_keys::{Hlc, Memory};
use std::alloc::Global;
use std::marker::Model;
use table_descriptors::{Descriptor, Name, State};

/// The descriptors of a table in the order of their dates.
#[derive(Drop)]
pub(crate) struct Dated {
    descriptors: Vec<Descriptor>,
}

impl Model for Dated {
    ghost use Rattle.std.specs.Prelude.{List};
    ghost use Rattle.table_descriptors.specs.Descriptors.{Schema};

    ghost Value = { List Schema };

    ghost view = { λ d. d.descriptors.items };
}

/// Whether the descriptor has this name and isn't Dropped.
fn has_name(database: &Name, name: &Name, d: &Descriptor) -> bool
    ensures { result ≡ has_name (database.now, name.now) d.now }
{
    d.database().is_same(database) && d.name().is_same(name) && d.state() != State::Dropped
}

fn has_id(id: u32, ids: &[u32]) -> bool
    ensures { result ≡ has_id id ids.now }
{
    ids.contains(&id)
}

/// Whether one of some ids is among these.
fn has_any(some: &[u32], ids: &[u32]) -> bool
    ensures { result ≡ list_any (λ id. has_id id ids.now) some.now }
{
    some.iter().any(|id| has_id(*id, ids))
}

fn is_dropped(state: State) -> bool
    ensures { result ≡ is_dropped state }
{
    matches!(state, State::Dropped)
}

/// Whether a descriptor that isn't dropped, of none of these tables, references one of them.
fn is_referring(ids: &[u32], d: &Descriptor) -> bool
    ensures { result ≡ is_referring ids.now d.now }
{
    if is_dropped(d.state()) {
        return false;
    }
    if has_id(d.id(), ids) {
        return false;
    }
    has_any(d.references(), ids)
}

impl Dated {
    /// A table with one descriptor.
    pub(crate) fn new(alloc: Global, d: Descriptor) -> Result<Dated, Memory>
        ensures { IfOk result (λ t. t ≡ d ∷ []) }
    {
        let mut descriptors = Vec::new(alloc);
        descriptors.push(d)?;
        Ok(Dated { descriptors })
    }

    pub(crate) fn as_slice(&self) -> &[Descriptor]
        ensures { result.now ≡ self.now }
    {
        self.descriptors.as_slice()
    }

    /// The latest descriptor dated at or before t.
    pub(crate) fn in_force(&self, t: Hlc) -> Option<&Descriptor>
        ensures { option_copied result ≡ in_force self.now t }
    {
        self.descriptors.iter().rev().find(|d| d.modified() <= t)
    }

    /// Whether the name belongs to the table at t.
    pub(crate) fn is_named(&self, database: &Name, name: &Name, t: Hlc) -> bool
        ensures { result ≡ is_named (database.now, name.now) t self.now }
    {
        match self.in_force(t) {
            Some(d) => has_name(database, name, d),
            None => false,
        }
    }

    /// Whether the table isn't among these, isn't dropped, and references one of them.
    pub(crate) fn refers(&self, ids: &[u32], t: Hlc) -> bool
        ensures { result ≡ refers ids.now t self.now }
    {
        match self.in_force(t) {
            Some(d) => is_referring(ids, d),
            None => false,
        }
    }

    /// One descriptor more.
    pub(crate) fn push(&mut self, d: Descriptor) -> Result<(), Memory>
        ensures pushed { OnOk result (self.new ≡ self.old ++ d ∷ []) }
        ensures kept { OnErr result (self.new ≡ self.old) }
    {
        Ok(self.descriptors.push(d)?)
    }

    /// Takes back the descriptor that was pushed last.
    pub(crate) fn pop(&mut self)
        ensures { self.new ≡ take (length self.old - 1) self.old }
    {
        let _ = self.descriptors.pop();
    }
}
