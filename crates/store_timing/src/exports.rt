//! What layers take: exports in pieces.
use crate::stores::{key, put_rows};
use mvcc_keys::{Hlc, Memory};
use range_tombstones::Upto;
use span_export::{Cursor, Plan, export};
use std::alloc::Global;
use version_store::{MvccMap, Versions};

/// As many entries as a chunk has.
const PIECE_ENTRIES: usize = 256;

fn last() -> Upto {
    Upto::At(Hlc::at_wall(u64::MAX))
}

/// Exports a plan of table 100 in pieces, and answers how many pieces and entries there were.
fn export_all(alloc: Global, store: &MvccMap, plan: &Plan) -> Result<(usize, usize), Memory> {
    let mut cursor = Cursor::start();
    let mut pieces = 0usize;
    let mut entries = 0usize;
    for _ in 0..u32::MAX {
        let (piece, next) = export(alloc, store, 100, plan, &cursor, PIECE_ENTRIES)?;
        if piece.is_empty() {
            break;
        }
        pieces = pieces.wrapping_add(1);
        entries = entries.wrapping_add(piece.len());
        cursor = next;
    }
    Ok((pieces, entries))
}

/// So many rows as a full layer without history.
pub fn full(alloc: Global, n: u32) -> Result<(usize, usize), Memory> {
    let mut store = MvccMap::new(alloc);
    put_rows(&mut store, n, 1)?;
    let plan = Plan::Whole {
        floor: Hlc::at_wall(u64::MAX),
        upto: last(),
        every: false,
    };
    export_all(alloc, &store, &plan)
}

/// So many rows, put twice, as a full layer with the history of the second time.
pub fn history(alloc: Global, n: u32) -> Result<(usize, usize), Memory> {
    let mut store = MvccMap::new(alloc);
    put_rows(&mut store, n, 1)?;
    put_rows(&mut store, n, u64::from(n) + 1)?;
    let plan = Plan::Whole {
        floor: Hlc::at_wall(u64::from(n)),
        upto: last(),
        every: true,
    };
    export_all(alloc, &store, &plan)
}

/// So many rows, put three times, as an increment without history from the second time on.
pub fn changes(alloc: Global, n: u32) -> Result<(usize, usize), Memory> {
    let mut store = MvccMap::new(alloc);
    put_rows(&mut store, n, 1)?;
    put_rows(&mut store, n, u64::from(n) + 1)?;
    put_rows(&mut store, n, 2 * u64::from(n) + 1)?;
    let plan = Plan::Changes {
        after: Hlc::at_wall(u64::from(n)),
        upto: last(),
        every: false,
    };
    export_all(alloc, &store, &plan)
}

/// So many versions of one row as an increment with history.
pub fn versions(alloc: Global, n: u32) -> Result<(usize, usize), Memory> {
    let mut store = MvccMap::new(alloc);
    for i in 0..n {
        store.put(&key(7), Hlc::at_wall(u64::from(i) + 1), &i.to_be_bytes())?;
    }
    let plan = Plan::Changes {
        after: Hlc::zero(),
        upto: last(),
        every: true,
    };
    export_all(alloc, &store, &plan)
}

/// So many range deletions, each of keys of its own, as an increment.
pub fn deletions(alloc: Global, n: u32) -> Result<(usize, usize), Memory> {
    let mut store = MvccMap::new(alloc);
    for i in 0..n {
        let lo = i.wrapping_mul(2);
        let hi = key(lo.wrapping_add(1));
        store.delete_range(&key(lo), &hi, Hlc::at_wall(u64::from(i) + 1))?;
    }
    let plan = Plan::Changes {
        after: Hlc::zero(),
        upto: last(),
        every: true,
    };
    export_all(alloc, &store, &plan)
}
