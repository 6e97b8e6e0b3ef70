//! Puts, scans and range deletions.
use mvcc_keys::{Hlc, Memory};
use range_tombstones::Upto;
use std::alloc::Global;
use version_store::{MvccMap, Versions};

/// A key of table 100.
pub fn key(i: u32) -> [u8; 5] {
    let [a, b, c, d] = i.to_be_bytes();
    [0xec, a, b, c, d]
}

/// Puts the rows 0 to `n` in no order, each a nanosecond after the one before, from a date on.
pub fn put_rows(store: &mut MvccMap, n: u32, from: u64) -> Result<(), Memory> {
    for i in 0..n {
        let place = i.wrapping_mul(2654435761);
        let at = Hlc::at_wall(from.wrapping_add(u64::from(i)));
        store.put(&key(place), at, &place.to_be_bytes())?;
    }
    Ok(())
}

/// Puts so many rows in no order, and answers how many a scan shows before and after half of them
/// were deleted.
pub fn put_and_scan(alloc: Global, n: u32) -> Result<(usize, usize), Memory> {
    let mut store = MvccMap::new(alloc);
    put_rows(&mut store, n, 1)?;
    let all = store.scan_as_of(100, Hlc::at_wall(u64::MAX))?;
    for i in 0..n / 2 {
        let place = i.wrapping_mul(2654435761);
        store.delete(&key(place), Hlc::at_wall(u64::from(n) + u64::from(i) + 1))?;
    }
    let rest = store.scan_as_of(100, Hlc::at_wall(u64::MAX))?;
    Ok((all.len(), rest.len()))
}

/// Adds so many range deletions, asks for keys among them, and answers how many ranges are listed
/// and how many keys were there.
pub fn add_and_ask(alloc: Global, n: u32) -> Result<(usize, usize), Memory> {
    let mut store = MvccMap::new(alloc);
    for i in 0..n {
        let hi = key((n - i).saturating_add(n));
        store.delete_range(&key(i), &hi, Hlc::at_wall(u64::from(i) + 2))?;
    }
    store.put(&key(n / 2), Hlc::at_wall(u64::MAX), &[1])?;
    let mut found = 0usize;
    for i in 0..100000u32 {
        let asked = key(i.wrapping_mul(7) % n.saturating_mul(2).max(1));
        if store.get_as_of(&asked, Hlc::at_wall(u64::MAX)).is_some() {
            found = found.wrapping_add(1);
        }
    }
    let ranges = store.ranges(100, Hlc::zero(), Upto::At(Hlc::at_wall(u64::MAX)))?;
    Ok((ranges.len(), found))
}
