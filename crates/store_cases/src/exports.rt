//! Exports of a table in pieces.
use crate::texts::{put_entries, short, size, time, upto, word};
use mvcc_keys::Memory;
use span_export::{Cursor, Plan, export};
use std::alloc::Global;
use version_store::Versions;

/// The plan of `changes table after upto n`, of `newest`, which leaves out older changes of a key,
/// of `whole table floor upto n`, or of `visible`, which leaves out what changed after the floor.
fn plan_of(line: &str) -> Option<Plan> {
    let from = time(word(line, 2));
    let upto = upto(word(line, 3));
    match word(line, 0) {
        "changes" => Some(Plan::Changes {
            after: from,
            upto,
            every: true,
        }),
        "newest" => Some(Plan::Changes {
            after: from,
            upto,
            every: false,
        }),
        "whole" => Some(Plan::Whole {
            floor: from,
            upto,
            every: true,
        }),
        "visible" => Some(Plan::Whole {
            floor: from,
            upto,
            every: false,
        }),
        _ => None,
    }
}

pub fn is_export(line: &str) -> bool {
    plan_of(line).is_some()
}

/// The most pieces of an export.
const PIECES_MAX: usize = 100;

/// Appends the pieces of a plan, each with ` |` behind it, up to one that is empty.
fn put_pieces<V: Versions>(
    alloc: Global,
    store: &V,
    line: &str,
    plan: &Plan,
    out: &mut String,
) -> Result<(), Memory> {
    let mut cursor = Cursor::start();
    for _ in 0..PIECES_MAX {
        let (entries, next) = export(
            alloc,
            store,
            short(word(line, 1)),
            plan,
            &cursor,
            size(word(line, 4)),
        )?;
        cursor = next;
        if entries.is_empty() {
            break;
        }
        put_entries(&entries, out)?;
        out.push_str(" |")?;
    }
    Ok(())
}

/// Appends a line with the pieces of the line's plan.
pub fn put_export<V: Versions>(
    alloc: Global,
    store: &V,
    line: &str,
    out: &mut String,
) -> Result<(), Memory> {
    out.push_str(word(line, 0))?;
    if let Some(plan) = plan_of(line) {
        put_pieces(alloc, store, line, &plan, out)?;
    }
    Ok(out.push('\n')?)
}
