//! Rows of tables over a store of versions.
ghost use Rattle.std.specs.Prelude.{◌≡◌, ◌∷◌, [], ◌<◌, ◌^◌, ℕ, List, None, true, map, filter_map, option_to_list, ◌++◌, IfOk, OnOk, OnErr};
ghost use Rattle.mvcc_keys.specs.Times.{time_lt};
ghost use Rattle.row_codec.specs.declared.rows.Kind.{Kind};
ghost use Rattle.row_codec.specs.declared.rows.Datum.{Datum};
ghost use Rattle.row_codec.specs.declared.rows.Cell.{Cell};
ghost use Rattle.row_codec.specs.RowKeys.{row_key, are_of_kinds, IsKey};
ghost use Rattle.row_codec.specs.RowValues.{row_value};
ghost use Rattle.table_descriptors.specs.Descriptors.{key_kinds};
ghost use Rattle.fact_model.specs.Facts.{Fact};
ghost use Rattle.history_model.specs.Rows.{key_of, put_of, wrong_column};
ghost use Rattle.table_rows.specs.RowTables.{RowTables, HasRows, HasFront, IsTableOf, IsCells, MayAdd, MayAddAll, with_facts, with_threshold, deletion};
ghost use Rattle.table_rows.specs.Checks.{rows_fault, keys_fault, range_fault, Finds, Shows, items_of, row_in};

use crate::checks::{
    is_empty_range, key_bytes, keys_of, large_key, large_row, repeated_key, value_bytes, wrong_key,
    wrong_row,
};
use crate::columns::{cells_of, key_of, shown_row};
use crate::values::{prove_cells_fit, prove_values_fit};
use crate::{RowsFault, SelectFault};
use mvcc_keys::{Entry, Hlc, Memory};
use row_codec::{Kind, Row, RowFault, read_row_key, read_row_value};
use std::alloc::Global;
use std::marker::Model;
use table_descriptors::Descriptor;
use version_store::Versions;

/// Rows of tables, kept as versions in a store.
#[derive(Drop)]
pub struct TableRows<V> {
    alloc: Global,
    store: V,
}

impl<V> Model for TableRows<V> {
    ghost Value = { V };

    ghost view = { λ r. r.store };
}

fn is_before(s: Hlc, t: Hlc) -> bool
    ensures { result ≡ time_lt s t }
{
    s < t
}

impl<V: Versions> TableRows<V> {
    pub fn new(alloc: Global, store: V) -> TableRows<V>
        ensures { result ≡ store }
    {
        TableRows { alloc, store }
    }

    pub fn store(&self) -> &V
        ensures { result.now ≡ self.now }
    {
        &self.store
    }

    /// The tests of rows for an UPSERT, which don't look at the store.
    #[tactic(auto, unfolding(crate::specs::Checks::rows_fault))]
    pub fn check_rows(&self, d: &Descriptor, rows: &[Row]) -> Result<(), RowsFault>
        ensures { Finds result (rows_fault d.now rows.now) }
    {
        if let Some((row, column)) = wrong_row(d, rows) {
            return Err(RowsFault::WrongRow { row, column });
        }
        let kinds = d.key_kinds(self.alloc)?;
        if let Some(row) = large_row(self.alloc, d, &kinds, rows)? {
            return Err(RowsFault::TooLarge { row });
        }
        d.proper();
        let keys = keys_of(self.alloc, d, rows)?;
        if let Some(row) = repeated_key(self.alloc, &kinds, &keys)? {
            return Err(RowsFault::DuplicateKey { row });
        }
        Ok(())
    }

    /// The tests of keys for a DELETE.
    #[tactic(auto, unfolding(crate::specs::Checks::keys_fault))]
    pub fn check_keys(&self, d: &Descriptor, keys: &[Row]) -> Result<(), RowsFault>
        ensures { Finds result (keys_fault d.now keys.now) }
    {
        let kinds = d.key_kinds(self.alloc)?;
        if let Some((row, column)) = wrong_key(&kinds, keys) {
            return Err(RowsFault::WrongRow { row, column });
        }
        if let Some(row) = large_key(self.alloc, &kinds, keys)? {
            return Err(RowsFault::TooLarge { row });
        }
        if let Some(row) = repeated_key(self.alloc, &kinds, keys)? {
            return Err(RowsFault::DuplicateKey { row });
        }
        Ok(())
    }

    /// The tests of a range for a DELETE RANGE; `lo` is row 1, `hi` row 2.
    #[tactic(auto, unfolding(crate::specs::Checks::range_fault))]
    pub fn check_range(&self, d: &Descriptor, lo: &Row, hi: &Row) -> Result<(), RowsFault>
        ensures { Finds result (range_fault d.now lo.now hi.now) }
    {
        let kinds = d.key_kinds(self.alloc)?;
        let ends = [lo.copy(self.alloc)?, hi.copy(self.alloc)?];
        if let Some((row, column)) = wrong_key(&kinds, &ends) {
            return Err(RowsFault::WrongRow { row, column });
        }
        if let Some(row) = large_key(self.alloc, &kinds, &ends)? {
            return Err(RowsFault::TooLarge { row });
        }
        if is_empty_range(&kinds, lo, hi) {
            return Err(RowsFault::EmptyRange);
        }
        Ok(())
    }

    /// Puts a stored row: a row key of a table, and a row value.
    pub fn put_stored(&mut self, key: &[u8], at: Hlc, value: &[u8]) -> Result<(), Memory>
        ensures added { OnOk result ((T : RowTables) (id : ℕ) (xs : List Datum) (cells : List Cell) → HasRows (V.stands self.old) T → id < 2 ^ 32 →
            key.now ≡ row_key id (T.kinds id) xs → IsKey (T.kinds id) xs → value.now ≡ row_value cells → IsCells cells →
            MayAdd T id (Fact.Put xs cells at) → HasRows (V.stands self.new) (with_facts id (Fact.Put xs cells at ∷ []) T)) }
        ensures kept { OnErr result ((T : RowTables) → HasRows (V.stands self.old) T → HasRows (V.stands self.new) T) }
    {
        self.store.put(key, at, value)
    }

    /// Puts a row.
    fn put_row(&mut self, d: &Descriptor, kinds: &[Kind], row: &Row, at: Hlc) -> Result<(), Memory>
        requires kinds { kinds.now ≡ key_kinds d.now }
        requires fits { wrong_column d.now row.now ≡ None }
        ensures added { OnOk result ((T : RowTables) → HasRows (V.stands self.old) T → IsTableOf T d.now →
            (IsKey (T.kinds d.now.id) (key_of d.now row.now) → MayAdd T d.now.id (put_of d.now at row.now)) → HasRows (V.stands self.new) (with_facts d.now.id (put_of d.now at row.now ∷ []) T)) }
        ensures kept { OnErr result ((T : RowTables) → HasRows (V.stands self.old) T → HasRows (V.stands self.new) T) }
    {
        d.proper();
        let key = key_of(self.alloc, d, row)?;
        prove_values_fit(&key);
        let cells = cells_of(self.alloc, d, row)?;
        prove_cells_fit(&cells);
        let key = key_bytes(self.alloc, d.id(), kinds, &key)?;
        let value = value_bytes(self.alloc, &cells)?;
        self.put_stored(&key, at, &value)
    }

    /// Puts rows that passed `check_rows`, each dated `at`.
    pub fn upsert(&mut self, d: &Descriptor, rows: &[Row], at: Hlc) -> Result<(), Memory>
        requires { rows_fault d.now rows.now ≡ None }
        ensures added { OnOk result ((T : RowTables) → HasRows (V.stands self.old) T → IsTableOf T d.now → MayAddAll T d.now.id (map (put_of d.now at) rows.now) →
            HasRows (V.stands self.new) (with_facts d.now.id (map (put_of d.now at) rows.now) T)) }
        ensures part { OnErr result ((T : RowTables) → HasRows (V.stands self.old) T → IsTableOf T d.now → MayAddAll T d.now.id (map (put_of d.now at) rows.now) →
            HasFront (V.stands self.new) T d.now.id (map (put_of d.now at) rows.now)) }
    {
        let kinds = d.key_kinds(self.alloc)?;
        for row in rows {
            self.put_row(d, &kinds, row, at)?;
        }
        Ok(())
    }

    /// Deletes a key.
    fn delete_key(
        &mut self,
        d: &Descriptor,
        kinds: &[Kind],
        key: &Row,
        at: Hlc,
    ) -> Result<(), Memory>
        requires kinds { kinds.now ≡ key_kinds d.now }
        requires fits { are_of_kinds (key_kinds d.now) key.now ≡ true }
        ensures added { OnOk result ((T : RowTables) → HasRows (V.stands self.old) T → IsTableOf T d.now →
            (IsKey (T.kinds d.now.id) key.now → MayAdd T d.now.id (deletion at key.now)) → HasRows (V.stands self.new) (with_facts d.now.id (deletion at key.now ∷ []) T)) }
        ensures kept { OnErr result ((T : RowTables) → HasRows (V.stands self.old) T → HasRows (V.stands self.new) T) }
    {
        prove_values_fit(key);
        let bytes = key_bytes(self.alloc, d.id(), kinds, key)?;
        self.store.delete(&bytes, at)
    }

    /// Deletes keys that passed `check_keys`, each dated `at`, whether their rows are there or not.
    pub fn delete(&mut self, d: &Descriptor, keys: &[Row], at: Hlc) -> Result<(), Memory>
        requires { keys_fault d.now keys.now ≡ None }
        ensures added { OnOk result ((T : RowTables) → HasRows (V.stands self.old) T → IsTableOf T d.now → MayAddAll T d.now.id (map (deletion at) keys.now) →
            HasRows (V.stands self.new) (with_facts d.now.id (map (deletion at) keys.now) T)) }
        ensures part { OnErr result ((T : RowTables) → HasRows (V.stands self.old) T → IsTableOf T d.now → MayAddAll T d.now.id (map (deletion at) keys.now) →
            HasFront (V.stands self.new) T d.now.id (map (deletion at) keys.now)) }
    {
        let kinds = d.key_kinds(self.alloc)?;
        for key in keys {
            self.delete_key(d, &kinds, key, at)?;
        }
        Ok(())
    }

    /// Deletes the keys from `lo` up to, not including, `hi`, which passed `check_range`.
    pub fn delete_range(
        &mut self,
        d: &Descriptor,
        lo: &Row,
        hi: &Row,
        at: Hlc,
    ) -> Result<(), Memory>
        requires { range_fault d.now lo.now hi.now ≡ None }
        ensures added { OnOk result ((T : RowTables) → HasRows (V.stands self.old) T → IsTableOf T d.now → MayAdd T d.now.id (Fact.DelRange lo.now hi.now at) →
            HasRows (V.stands self.new) (with_facts d.now.id (Fact.DelRange lo.now hi.now at ∷ []) T)) }
        ensures kept { OnErr result ((T : RowTables) → HasRows (V.stands self.old) T → HasRows (V.stands self.new) T) }
    {
        let kinds = d.key_kinds(self.alloc)?;
        prove_values_fit(lo);
        prove_values_fit(hi);
        let from = key_bytes(self.alloc, d.id(), &kinds, lo)?;
        let to = key_bytes(self.alloc, d.id(), &kinds, hi)?;
        self.store.delete_range(&from, &to, at)
    }

    /// The rows of a table as of t, in the columns of a descriptor.
    pub fn select(&self, d: &Descriptor, t: Hlc) -> Result<Vec<Row>, SelectFault>
        ensures { (T : RowTables) → HasRows (V.stands self.now) T → IsTableOf T d.now → Shows T d.now t (items_of result) }
    {
        let threshold = self.store.threshold(d.id());
        if is_before(t, threshold) {
            return Err(SelectFault::Collected { threshold });
        }
        let kinds = d.key_kinds(self.alloc)?;
        let seen = self.store.scan_as_of(d.id(), t)?;
        Ok(rows_in(self.alloc, d, &kinds, &seen)?)
    }

    /// Forgets what no read of the table at or after `g` needs, where `g` is above its threshold.
    pub fn collect(&mut self, table: u32, g: Hlc) -> Result<(), Memory>
        ensures raised { OnOk result ((T : RowTables) → HasRows (V.stands self.old) T → HasRows (V.stands self.new) (with_threshold table g T)) }
        ensures kept { OnErr result ((T : RowTables) → HasRows (V.stands self.old) T → HasRows (V.stands self.new) T) }
    {
        self.store.collect(table, g)
    }
}

/// The row of a put whose key and value are those of a row.
#[tactic(auto, unfolding(crate::specs::Checks::row_in))]
fn row_in(
    alloc: Global,
    d: &Descriptor,
    kinds: &[Kind],
    entry: &Entry,
) -> Result<Option<Row>, Memory>
    ensures { IfOk result (λ r. r ≡ row_in d.now kinds.now entry.now) }
{
    let Entry::Put { key, value, .. } = entry else {
        return Ok(None);
    };
    let key = match read_row_key(alloc, key.as_slice(), kinds) {
        Ok((_, key)) => key,
        Err(RowFault::At { .. }) => return Ok(None),
        Err(RowFault::Memory) => return Err(Memory),
    };
    match read_row_value(alloc, value.as_slice()) {
        Ok(cells) => Ok(Some(shown_row(alloc, d, &key, &cells)?)),
        Err(RowFault::At { .. }) => Ok(None),
        Err(RowFault::Memory) => Err(Memory),
    }
}

fn add_row(rows: &mut Vec<Row>, row: Option<Row>) -> Result<(), Memory>
    ensures { OnOk result (rows.new.items ≡ rows.old.items ++ option_to_list row) }
{
    match row {
        Some(row) => Ok(rows.push(row)?),
        None => Ok(()),
    }
}

/// The rows of puts.
fn rows_in(
    alloc: Global,
    d: &Descriptor,
    kinds: &[Kind],
    entries: &[Entry],
) -> Result<Vec<Row>, Memory>
    ensures { IfOk result (λ v. v.items ≡ filter_map (row_in d.now kinds.now) entries.now) }
{
    let mut rows = Vec::new(alloc);
    for entry in entries {
        let row = row_in(alloc, d, kinds, entry)?;
        add_row(&mut rows, row)?;
    }
    Ok(rows)
}
