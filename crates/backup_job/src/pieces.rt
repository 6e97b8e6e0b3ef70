//! The next entries that a job has to write.
ghost use Rattle.std.specs.Prelude.{◌<◌, length, None, IfOk};
ghost use Rattle.std.specs.List.{AllByRecursion};
ghost use Rattle.version_store.specs.Tables.{Tables};
ghost use Rattle.backup_job.specs.Jobs.{IsReached, IsStillKept, remaining_from};
ghost use Rattle.backup_job.specs.Searches.{IsNext, IsNextAt, IsWithin};

use crate::chunks::chunk_size;
use introduced_spans::TablePlan;
use mvcc_keys::{Entry, Memory};
use span_export::{Cursor, export};
use std::alloc::Global;
use version_store::Versions;

/// The entries of a chunk of the table at a place, and the cursor after them.
#[derive(Drop)]
pub struct Piece {
    pub place: usize,
    pub entries: Vec<Entry>,
    pub cursor: Cursor,
}

/// The entries of the table at a place that follow a cursor, as many as a chunk has, if there
/// are any.
fn piece_at<V: Versions>(
    alloc: Global,
    store: &V,
    plans: &[TablePlan],
    place: usize,
    cursor: &Cursor,
) -> Result<Option<Piece>, Memory>
    requires { place < length plans.now }
    ensures next { IfOk result (λ next. (h : Tables) → V.stands store.now h → AllByRecursion (IsStillKept h) plans.now → IsReached h place cursor.now plans.now → IsNextAt h plans.now place cursor.now next) }
    ensures within { IfOk result (IsWithin plans.now) }
{
    let plan = &plans[place];
    let (entries, cursor) = export(alloc, store, plan.id, &plan.plan, cursor, chunk_size())?;
    if entries.is_empty() {
        return Ok(None);
    }
    Ok(Some(Piece {
        place,
        entries,
        cursor,
    }))
}

/// The first piece of the tables from a place on.
fn first_piece<V: Versions>(
    alloc: Global,
    store: &V,
    plans: &[TablePlan],
    from: usize,
) -> Result<Option<Piece>, Memory>
    ensures next { IfOk result (λ next. (h : Tables) → V.stands store.now h → AllByRecursion (IsStillKept h) plans.now → IsNext h plans.now (remaining_from h from None plans.now) next) }
    ensures within { IfOk result (IsWithin plans.now) }
{
    let start = Cursor::start();
    let mut at = from;
    'tables: while at < plans.len() {
        match piece_at(alloc, store, plans, at, &start)? {
            Some(piece) => return Ok(Some(piece)),
            None => at += 1,
        }
    }
    Ok(None)
}

/// The first piece that is left of the table at a place, after a cursor, and of those after it.
pub fn next_piece<V: Versions>(
    alloc: Global,
    store: &V,
    plans: &[TablePlan],
    place: usize,
    cursor: &Cursor,
) -> Result<Option<Piece>, Memory>
    ensures next { IfOk result (λ next. (h : Tables) → V.stands store.now h → AllByRecursion (IsStillKept h) plans.now → IsReached h place cursor.now plans.now → IsNext h plans.now (remaining_from h place cursor.now plans.now) next) }
    ensures within { IfOk result (IsWithin plans.now) }
{
    if plans.len() <= place {
        return Ok(None);
    }
    match piece_at(alloc, store, plans, place, cursor)? {
        Some(piece) => Ok(Some(piece)),
        None => first_piece(alloc, store, plans, place + 1),
    }
}
