//! Stored rows put under new ids.
ghost use Rattle.std.specs.Prelude.{◌≡◌, ◌<◌, ◌^◌, ◌∷◌, [], ℕ, List, Some, Ok, true, map, nat_eq, IfOk, IfErr, OnOk, OnErr};
ghost use Rattle.std.specs.List.{AllByRecursion};
ghost use Rattle.std.specs.Map.{lookup};
ghost use Rattle.mvcc_keys.specs.Times.{time_lt};
ghost use Rattle.history_model.specs.Rows.{RowItem};
ghost use Rattle.row_codec.specs.declared.rows.Kind.{Kind};
ghost use Rattle.table_rows.specs.RowTables.{HasFront, HasRows, MayAdd, RowTables, with_facts};
ghost use Rattle.key_rewriter.specs.Rewriting.{rewritten};
ghost use Rattle.restore_rows.specs.declared.putting.RestoreFault.TheVariants.{Memory as no_memory};
ghost use Rattle.layer_chains.specs.Chains.{stored_put};
ghost use Rattle.restore_rows.specs.Putting.{AreItems, IsItem, IsMapped, put_at};

use key_rewriter::{IdMap, RewriteFault, rewrite};
use mvcc_keys::{Entry, Hlc, Memory};
use std::alloc::Global;
use table_rows::TableRows;
use version_store::Versions;

/// Why entries weren't put.
#[derive(Clone, Copy, Debug, PartialEq, Eq)]
pub enum RestoreFault {
    /// An entry is no put, or there is no new id for its key.
    Unmapped,
    Memory,
}

impl From<Memory> for RestoreFault {
    ghost from_gives = { λ _ e. e ≡ no_memory };

    fn from(_refused: Memory) -> RestoreFault {
        RestoreFault::Memory
    }
}

/// A key with the new id in place of the old one.
fn new_key(alloc: Global, key: &[u8], ids: &IdMap) -> Result<Vec<u8>, RestoreFault>
    ensures key { IfOk result (λ v. rewritten ids.now key.now ≡ Ok v.items) }
    ensures unmapped { IfErr result (λ e. (new : List ℕ) → rewritten ids.now key.now ≡ Ok new → e ≡ no_memory) }
{
    let mut new = Vec::new(alloc);
    match rewrite(key, ids, &mut new) {
        Ok(()) => Ok(new),
        Err(RewriteFault::Memory) => Err(RestoreFault::Memory),
        Err(_) => Err(RestoreFault::Unmapped),
    }
}

/// Puts an entry under its table's new id, dated `at`.
fn put_entry<V: Versions>(
    alloc: Global,
    rows: &mut TableRows<V>,
    ids: &IdMap,
    entry: &Entry,
    at: Hlc,
) -> Result<(), RestoreFault>
    ensures added { OnOk result ((T : RowTables) (old new : ℕ) (item : RowItem) → HasRows (V.stands rows.old) T → entry.now ≡ stored_put old (T.kinds new) item → old < 2 ^ 32 → new < 2 ^ 32
        → lookup (nat_eq old) ids.now ≡ Some new → IsItem (T.kinds new) item → MayAdd T new (put_at at item) → HasRows (V.stands rows.new) (with_facts new (put_at at item ∷ []) T)) }
    ensures kept { OnErr result ((T : RowTables) → HasRows (V.stands rows.old) T → HasRows (V.stands rows.new) T) }
    ensures unmapped { IfErr result (λ e. IsMapped ids.now entry.now → e ≡ no_memory) }
{
    let Entry::Put { key, value, .. } = entry else {
        return Err(RestoreFault::Unmapped);
    };
    let key = new_key(alloc, key.as_slice(), ids)?;
    Ok(rows.put_stored(&key, at, value.as_slice())?)
}

/// Puts entries under their table's new id, each dated `at`. At an error those that were put stay.
pub fn put_rows<V: Versions>(
    alloc: Global,
    rows: &mut TableRows<V>,
    ids: &IdMap,
    entries: &[Entry],
    at: Hlc,
) -> Result<(), RestoreFault>
    ensures added { (T : RowTables) (old new : ℕ) (items : List RowItem) → HasRows (V.stands rows.old) T → entries.now ≡ map (stored_put old (T.kinds new)) items → old < 2 ^ 32 → new < 2 ^ 32
        → lookup (nat_eq old) ids.now ≡ Some new → T.facts new ≡ [] → time_lt (T.threshold new) at ≡ true → AreItems (T.kinds new) items
        → OnOk result (HasRows (V.stands rows.new) (with_facts new (map (put_at at) items) T)) }
    ensures part { (T : RowTables) (old new : ℕ) (items : List RowItem) → HasRows (V.stands rows.old) T → entries.now ≡ map (stored_put old (T.kinds new)) items → old < 2 ^ 32 → new < 2 ^ 32
        → lookup (nat_eq old) ids.now ≡ Some new → T.facts new ≡ [] → time_lt (T.threshold new) at ≡ true → AreItems (T.kinds new) items
        → OnErr result (HasFront (V.stands rows.new) T new (map (put_at at) items)) }
    ensures sound { (kinds : List Kind) (old new : ℕ) (items : List RowItem) → entries.now ≡ map (stored_put old kinds) items → old < 2 ^ 32
        → lookup (nat_eq old) ids.now ≡ Some new → IfErr result (λ e. e ≡ no_memory) }
    ensures unmapped { IfErr result (λ e. AllByRecursion (IsMapped ids.now) entries.now → e ≡ no_memory) }
{
    for entry in entries {
        // Not `?`, which would pass the fault through `From`, of which the clauses on faults say nothing.
        match put_entry(alloc, rows, ids, entry, at) {
            Ok(()) => {}
            Err(fault) => return Err(fault),
        }
    }
    Ok(())
}
