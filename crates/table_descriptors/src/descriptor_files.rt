//! Descriptors in files, both ways.
ghost use Rattle.std.specs.Prelude.{◌≡◌, ℕ, List, ◌++◌, ◌∷◌, [], nat_lt, length, take, map, IfOk, OnOk, OnErr};
ghost use Rattle.std.specs.List.{list_any};
ghost use Rattle.row_codec.specs.KeyReading.{Gives};
ghost use Rattle.table_descriptors.specs.Fields.{Reads, list_code, read_items, read_byte};
ghost use Rattle.table_descriptors.specs.Descriptors.{last_key, column_id, is_column};
ghost use Rattle.table_descriptors.specs.DescriptorFiles.{form_of, form_code, state_of, state_code, kind_at, kind_code, column_code, key_code, direction_code, descends, directed, names_code, front_code, back_code, schema_code, read_column, read_columns, has_key, key_id, is_down, has_to_descend, read_direction, read_key, read_keys, read_reference, read_references, read_next, down_of, read_schema, read_descriptor, DescriptorsAreExact, IsSetOf};

use crate::changing::has_column;
use crate::columns::{Column, State};
use crate::descriptors::Descriptor;
use crate::fields::{
    FieldFault, broken, put_ids, put_number, take_count, take_flag, take_id, take_name,
    take_number, take_time,
};
use crate::limits::COLUMNS_MAX;
use mvcc_keys::Memory;
use row_codec::{Kind, RowFault, put_sized};
use std::alloc::Global;
use std::collections::BTreeSet;

// ---- writing

fn form_code(descends: bool) -> u8
    ensures { result ≡ form_code descends }
{
    if descends { 2 } else { 1 }
}

fn state_code(state: State) -> u8
    ensures { result ≡ state_code state }
{
    match state {
        State::Public => 1,
        State::Offline => 2,
        State::Dropped => 3,
    }
}

fn kind_code(kind: Kind) -> u8
    ensures { result ≡ kind_code kind }
{
    match kind {
        Kind::Int => 1,
        Kind::Text => 2,
        Kind::Bytes => 3,
        Kind::Bool => 4,
        _ => 0,
    }
}

fn put_column(column: &Column, out: &mut Vec<u8>) -> Result<(), Memory>
    ensures ok { OnOk result (out.new.items ≡ out.old.items ++ column_code column.now) }
    ensures err { OnErr result (take (length out.old.items) out.new.items ≡ out.old.items) }
{
    put_number(u64::from(column.id), out)?;
    put_sized(column.name.as_bytes(), out)?;
    out.push(kind_code(column.kind)).map_err(|_| Memory)
}

fn put_columns(columns: &[Column], out: &mut Vec<u8>) -> Result<(), Memory>
    ensures ok { OnOk result (out.new.items ≡ out.old.items ++ list_code column_code columns.now) }
    ensures err { OnErr result (take (length out.old.items) out.new.items ≡ out.old.items) }
{
    put_number(columns.len() as u64, out)?;
    for column in columns {
        put_column(column, out)?;
    }
    Ok(())
}

fn put_key(id: u32, down: bool, descends: bool, out: &mut Vec<u8>) -> Result<(), Memory>
    ensures ok { OnOk result (out.new.items ≡ out.old.items ++ key_code descends (id, down)) }
    ensures err { OnErr result (take (length out.old.items) out.new.items ≡ out.old.items) }
{
    put_number(u64::from(id), out)?;
    if !descends {
        return Ok(());
    }
    out.push(u8::from(down)).map_err(|_| Memory)
}

fn put_keys(ids: &[u32], down: &[u32], out: &mut Vec<u8>) -> Result<(), Memory>
    ensures ok { OnOk result (out.new.items ≡ out.old.items ++ list_code (key_code (nat_lt 0 (length down.now))) (directed down.now ids.now)) }
    ensures err { OnErr result (take (length out.old.items) out.new.items ≡ out.old.items) }
{
    put_number(ids.len() as u64, out)?;
    for id in ids {
        put_key(*id, down.contains(id), down.len() > 0, out)?;
    }
    Ok(())
}

impl Descriptor {
    fn put_names(&self, out: &mut Vec<u8>) -> Result<(), Memory>
        ensures ok { OnOk result (out.new.items ≡ out.old.items ++ names_code self.now) }
        ensures err { OnErr result (take (length out.old.items) out.new.items ≡ out.old.items) }
    {
        put_sized(self.database.as_bytes(), out)?;
        put_sized(self.name.as_bytes(), out)?;
        out.push(state_code(self.state)).map_err(|_| Memory)
    }

    /// Appends the fields before the columns.
    #[tactic(auto, using(crate::proofs::FieldLaws::kept_front))]
    fn put_front(&self, out: &mut Vec<u8>) -> Result<(), Memory>
        ensures ok { OnOk result (out.new.items ≡ out.old.items ++ front_code self.now) }
        ensures err { OnErr result (take (length out.old.items) out.new.items ≡ out.old.items) }
    {
        out.push(form_code(self.down.len() > 0))
            .map_err(|_| Memory)?;
        put_number(u64::from(self.id), out)?;
        put_number(u64::from(self.version), out)?;
        self.put_names(out)
    }

    /// Appends the columns and the fields after them.
    fn put_back(&self, out: &mut Vec<u8>) -> Result<(), Memory>
        ensures ok { OnOk result (out.new.items ≡ out.old.items ++ back_code self.now) }
        ensures err { OnErr result (take (length out.old.items) out.new.items ≡ out.old.items) }
    {
        put_columns(self.columns.as_slice(), out)?;
        put_keys(self.key_columns.as_slice(), self.down.as_slice(), out)?;
        put_ids(self.references.as_slice(), out)?;
        put_number(u64::from(self.next_column), out)?;
        mvcc_keys::put_time(self.modified, out)
    }

    #[tactic(auto, unfolding(crate::specs::DescriptorFiles::schema_code))]
    fn put(&self, out: &mut Vec<u8>) -> Result<(), Memory>
        ensures ok { OnOk result (out.new.items ≡ out.old.items ++ schema_code self.now) }
        ensures err { OnErr result (take (length out.old.items) out.new.items ≡ out.old.items) }
    {
        self.put_front(out)?;
        self.put_back(out)
    }
}

/// Appends a descriptor.
pub fn write_descriptor(descriptor: &Descriptor, out: &mut Vec<u8>) -> Result<(), Memory>
    ensures ok { OnOk result (out.new.items ≡ out.old.items ++ schema_code descriptor.now) }
    ensures err { OnErr result (out.new.items ≡ out.old.items) }
{
    let before = out.len();
    let done = descriptor.put(out);
    if done.is_err() {
        out.truncate(before);
    }
    done
}

// ---- reading

fn take_form(b: &[u8]) -> Result<(bool, &[u8]), FieldFault>
    ensures { Reads (λ p. (p.0, p.1.now)) result (read_byte form_of b.now) }
{
    match b.split_first() {
        Some((1, rest)) => Ok((false, rest)),
        Some((2, rest)) => Ok((true, rest)),
        _ => Err(broken(b)),
    }
}

fn take_state(b: &[u8]) -> Result<(State, &[u8]), FieldFault>
    ensures { Reads (λ p. (p.0, p.1.now)) result (read_byte state_of b.now) }
{
    match b.split_first() {
        Some((1, rest)) => Ok((State::Public, rest)),
        Some((2, rest)) => Ok((State::Offline, rest)),
        Some((3, rest)) => Ok((State::Dropped, rest)),
        _ => Err(broken(b)),
    }
}

fn take_kind(b: &[u8]) -> Result<(Kind, &[u8]), FieldFault>
    ensures { Reads (λ p. (p.0, p.1.now)) result (read_byte kind_at b.now) }
{
    match b.split_first() {
        Some((1, rest)) => Ok((Kind::Int, rest)),
        Some((2, rest)) => Ok((Kind::Text, rest)),
        Some((3, rest)) => Ok((Kind::Bytes, rest)),
        Some((4, rest)) => Ok((Kind::Bool, rest)),
        _ => Err(broken(b)),
    }
}

fn last_id(columns: &[Column]) -> u32
    ensures { result ≡ last_key column_id columns.now }
{
    match columns.last() {
        Some(column) => column.id,
        None => 0,
    }
}

/// A column after others.
#[tactic(auto, unfolding(crate::specs::DescriptorFiles::read_column))]
fn take_column<'a>(
    alloc: Global,
    before: &[Column],
    b: &'a [u8],
) -> Result<(Column, &'a [u8]), FieldFault>
    ensures { Reads (λ p. (p.0, p.1.now)) result (read_column before.now b.now) }
{
    let (id, rest) = take_id(b)?;
    if id <= last_id(before) {
        return Err(broken(b));
    }
    let (name, after) = take_name(alloc, rest)?;
    if has_column(before, &name) {
        return Err(broken(rest));
    }
    let (kind, after) = take_kind(after)?;
    Ok((Column { id, name, kind }, after))
}

fn take_each_column(alloc: Global, count: u64, b: &[u8]) -> Result<(Vec<Column>, &[u8]), FieldFault>
    ensures { Reads (λ p. (p.0.items, p.1.now)) result (read_items read_column count [] b.now) }
{
    let mut columns = Vec::new(alloc);
    let mut left = b;
    let mut wanted = count;
    'columns: while wanted > 0 {
        let (column, rest) = take_column(alloc, columns.as_slice(), left)?;
        if columns.push(column).is_err() {
            return Err(FieldFault::Memory);
        }
        left = rest;
        wanted -= 1;
    }
    Ok((columns, left))
}

fn take_columns(alloc: Global, b: &[u8]) -> Result<(Vec<Column>, &[u8]), FieldFault>
    ensures { Reads (λ p. (p.0.items, p.1.now)) result (read_columns b.now) }
{
    let (count, rest) = take_number(b)?;
    if count < 1 || count > COLUMNS_MAX as u64 {
        return Err(broken(b));
    }
    take_each_column(alloc, count, rest)
}

fn has_column_id(columns: &[Column], id: u32) -> bool
    ensures { result ≡ is_column id columns.now }
{
    columns.iter().any(|column| column.id == id)
}

fn has_key(keys: &[(u32, bool)], id: u32) -> bool
    ensures { result ≡ has_key id keys.now }
{
    keys.iter().any(|(key, _)| *key == id)
}

fn has_down(keys: &[(u32, bool)]) -> bool
    ensures { result ≡ list_any is_down keys.now }
{
    keys.iter().any(|(_, down)| *down)
}

fn has_to_descend(count: u64, before: &[(u32, bool)]) -> bool
    ensures { result ≡ has_to_descend count before.now }
{
    before.len() as u64 + 1 == count && !has_down(before)
}

/// Whether a key column descends, which the first form doesn't say.
fn take_direction(descends: bool, has_to: bool, b: &[u8]) -> Result<(bool, &[u8]), FieldFault>
    ensures { Reads (λ p. (p.0, p.1.now)) result (read_direction descends has_to b.now) }
{
    if !descends {
        return Ok((false, b));
    }
    let (down, rest) = take_flag(b)?;
    if has_to && !down {
        return Err(broken(b));
    }
    Ok((down, rest))
}

/// A key column after others, of so many.
#[tactic(auto, unfolding(crate::specs::DescriptorFiles::read_key))]
fn take_key<'a>(
    descends: bool,
    columns: &[Column],
    count: u64,
    before: &[(u32, bool)],
    b: &'a [u8],
) -> Result<((u32, bool), &'a [u8]), FieldFault>
    ensures { Reads (λ p. (p.0, p.1.now)) result (read_key descends columns.now count before.now b.now) }
{
    let (id, rest) = take_id(b)?;
    if !has_column_id(columns, id) || has_key(before, id) {
        return Err(broken(b));
    }
    let (down, rest) = take_direction(descends, has_to_descend(count, before), rest)?;
    Ok(((id, down), rest))
}

fn take_each_key<'a>(
    alloc: Global,
    descends: bool,
    columns: &[Column],
    count: u64,
    b: &'a [u8],
) -> Result<(Vec<(u32, bool)>, &'a [u8]), FieldFault>
    ensures { Reads (λ p. (p.0.items, p.1.now)) result (read_items (read_key descends columns.now count) count [] b.now) }
{
    let mut keys = Vec::new(alloc);
    let mut left = b;
    let mut wanted = count;
    'keys: while wanted > 0 {
        let (key, rest) = take_key(descends, columns, count, keys.as_slice(), left)?;
        if keys.push(key).is_err() {
            return Err(FieldFault::Memory);
        }
        left = rest;
        wanted -= 1;
    }
    Ok((keys, left))
}

fn take_keys<'a>(
    alloc: Global,
    descends: bool,
    columns: &[Column],
    b: &'a [u8],
) -> Result<(Vec<(u32, bool)>, &'a [u8]), FieldFault>
    ensures { Reads (λ p. (p.0.items, p.1.now)) result (read_keys descends columns.now b.now) }
{
    let (count, rest) = take_number(b)?;
    if count < 1 {
        return Err(broken(b));
    }
    take_each_key(alloc, descends, columns, count, rest)
}

/// A reference that isn't among those before it, and is among them from now on.
#[tactic(auto, unfolding(crate::specs::DescriptorFiles::read_reference))]
fn take_reference<'a>(seen: &mut BTreeSet<u32>, b: &'a [u8]) -> Result<(u32, &'a [u8]), FieldFault>
    ensures read { (before : List ℕ) → IsSetOf seen.old before → Reads (λ p. (p.0, p.1.now)) result (read_reference before b.now) }
    ensures seen { (before : List ℕ) → IsSetOf seen.old before → IfOk result (λ p. IsSetOf seen.new (before ++ p.0 ∷ [])) }
{
    let (id, rest) = take_id(b)?;
    match seen.insert(id) {
        Ok(true) => Ok((id, rest)),
        Ok(false) => Err(broken(b)),
        Err(_) => Err(FieldFault::Memory),
    }
}

fn take_each_reference(alloc: Global, count: u64, b: &[u8]) -> Result<(Vec<u32>, &[u8]), FieldFault>
    ensures { Reads (λ p. (p.0.items, p.1.now)) result (read_items read_reference count [] b.now) }
{
    let mut seen = BTreeSet::new(alloc);
    let mut references = Vec::new(alloc);
    let mut left = b;
    let mut wanted = count;
    'references: while wanted > 0 {
        let (id, rest) = take_reference(&mut seen, left)?;
        if references.push(id).is_err() {
            return Err(FieldFault::Memory);
        }
        left = rest;
        wanted -= 1;
    }
    Ok((references, left))
}

fn take_references(alloc: Global, b: &[u8]) -> Result<(Vec<u32>, &[u8]), FieldFault>
    ensures { Reads (λ p. (p.0.items, p.1.now)) result (read_references b.now) }
{
    let (count, rest) = take_number(b)?;
    take_each_reference(alloc, count, rest)
}

fn take_next<'a>(columns: &[Column], b: &'a [u8]) -> Result<(u32, &'a [u8]), FieldFault>
    ensures { Reads (λ p. (p.0, p.1.now)) result (read_next columns.now b.now) }
{
    let (id, rest) = take_id(b)?;
    if id <= last_id(columns) {
        return Err(broken(b));
    }
    Ok((id, rest))
}

fn ids_of(alloc: Global, keys: &[(u32, bool)]) -> Result<Vec<u32>, Memory>
    ensures { IfOk result (λ v. v.items ≡ map key_id keys.now) }
{
    Ok(keys.iter().map(|(id, _)| *id).collect(alloc)?)
}

fn down_of(alloc: Global, keys: &[(u32, bool)]) -> Result<Vec<u32>, Memory>
    ensures { IfOk result (λ v. v.items ≡ down_of keys.now) }
{
    let down = keys.iter().filter(|(_, is_down)| *is_down);
    Ok(down.map(|(id, _)| *id).collect(alloc)?)
}

/// A descriptor in front, and what follows it.
#[tactic(auto, unfolding(crate::specs::DescriptorFiles::read_schema))]
pub fn take_descriptor(alloc: Global, b: &[u8]) -> Result<(Descriptor, &[u8]), FieldFault>
    ensures { Reads (λ p. (p.0, p.1.now)) result (read_schema b.now) }
{
    let (descends, rest) = take_form(b)?;
    let (id, rest) = take_id(rest)?;
    let (version, rest) = take_count(rest)?;
    let (database, rest) = take_name(alloc, rest)?;
    let (name, rest) = take_name(alloc, rest)?;
    let (state, rest) = take_state(rest)?;
    let (columns, rest) = take_columns(alloc, rest)?;
    let (keys, rest) = take_keys(alloc, descends, columns.as_slice(), rest)?;
    let (references, rest) = take_references(alloc, rest)?;
    let (next_column, rest) = take_next(columns.as_slice(), rest)?;
    let (modified, rest) = match take_time(rest) {
        Ok(read) => read,
        Err(fault) => return Err(fault),
    };
    let key_columns = ids_of(alloc, keys.as_slice())?;
    let down = down_of(alloc, keys.as_slice())?;
    let d = Descriptor {
        id,
        version,
        database,
        name,
        state,
        columns,
        key_columns,
        references,
        next_column,
        modified,
        down,
    };
    Ok((d, rest))
}

/// Reads bytes that are one descriptor.
#[tactic(auto, unfolding(crate::specs::DescriptorFiles::read_descriptor))]
pub fn read_descriptor(alloc: Global, b: &[u8]) -> Result<Descriptor, RowFault>
    ensures { Gives (λ d. d) result (read_descriptor b.now) }
{
    match take_descriptor(alloc, b) {
        Ok((d, rest)) if rest.is_empty() => Ok(d),
        Ok((_, rest)) => Err(RowFault::At {
            offset: b.len().saturating_sub(rest.len()),
        }),
        Err(FieldFault::Broken { left }) => Err(RowFault::At {
            offset: b.len().saturating_sub(left),
        }),
        Err(FieldFault::Memory) => Err(RowFault::Memory),
    }
}

/// A law: what is read as a descriptor are just the descriptors that are written, each of which
/// is a proper one, and different ones have different bytes.
pub fn descriptors_are_exact()
    ensures { DescriptorsAreExact }
{}
