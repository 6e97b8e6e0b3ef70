//! Calls of stores, and their answers, in words.
use crate::texts::{key, put_entries, put_text, put_time, short, size, time, upto, word};
use mvcc_keys::{Blob, Entry, Hlc, Memory};
use std::alloc::Global;
use version_store::{VersionAnswer, VersionCall};

fn put_call(alloc: Global, line: &str) -> Result<VersionCall, Memory> {
    let key = key(alloc, word(line, 1))?;
    let value = Blob::copy_of(alloc, word(line, 3).as_bytes())?;
    let at = time(word(line, 2));
    Ok(VersionCall::Put { key, at, value })
}

fn range_call(alloc: Global, line: &str) -> Result<VersionCall, Memory> {
    let lo = key(alloc, word(line, 1))?;
    let hi = key(alloc, word(line, 2))?;
    let at = time(word(line, 3));
    Ok(VersionCall::DeleteRange { lo, hi, at })
}

/// The place of the words `key date` at a line's end, behind a word `after`, if that is there.
fn place_of(
    alloc: Global,
    after: &str,
    key_word: &str,
    date: &str,
) -> Result<Option<(Blob, Hlc)>, Memory> {
    if after != "after" {
        return Ok(None);
    }
    Ok(Some((key(alloc, key_word)?, time(date))))
}

fn scan_after_call(alloc: Global, line: &str) -> Result<VersionCall, Memory> {
    Ok(VersionCall::ScanAfter {
        after: place_of(alloc, word(line, 4), word(line, 5), word(line, 6))?,
        table: short(word(line, 1)),
        t: time(word(line, 2)),
        n: size(word(line, 3)),
    })
}

fn newest_events_call(alloc: Global, line: &str) -> Result<VersionCall, Memory> {
    Ok(VersionCall::NewestEvents {
        after: place_of(alloc, word(line, 5), word(line, 6), word(line, 7))?,
        table: short(word(line, 1)),
        from: time(word(line, 2)),
        upto: upto(word(line, 3)),
        n: size(word(line, 4)),
    })
}

fn events_call(alloc: Global, line: &str) -> Result<VersionCall, Memory> {
    Ok(VersionCall::Events {
        after: place_of(alloc, word(line, 5), word(line, 6), word(line, 7))?,
        table: short(word(line, 1)),
        from: time(word(line, 2)),
        upto: upto(word(line, 3)),
        n: size(word(line, 4)),
    })
}

fn ranges_call(line: &str) -> VersionCall {
    VersionCall::Ranges {
        table: short(word(line, 1)),
        from: time(word(line, 2)),
        upto: upto(word(line, 3)),
    }
}

/// A call that changes a store.
fn change_of(alloc: Global, line: &str) -> Result<VersionCall, Memory> {
    let at = time(word(line, 2));
    match word(line, 0) {
        "put" => put_call(alloc, line),
        "range" => range_call(alloc, line),
        "delete" => Ok(VersionCall::Delete {
            key: key(alloc, word(line, 1))?,
            at,
        }),
        _ => Ok(VersionCall::Collect {
            table: short(word(line, 1)),
            g: at,
        }),
    }
}

/// The call of a line that begins with its name:
/// `put key date value`, `delete key date`, `range lo hi date`, `collect table date`,
/// `get key date`, `scan table date`, `next table date n after key date` for a scan after a place,
/// `latest table from upto n after key date`, `events table from upto n after key date`,
/// `ranges table from upto`, `threshold table`.
pub fn call_of(alloc: Global, line: &str) -> Result<VersionCall, Memory> {
    let table = short(word(line, 1));
    let t = time(word(line, 2));
    match word(line, 0) {
        "get" => Ok(VersionCall::GetAsOf {
            key: key(alloc, word(line, 1))?,
            t,
        }),
        "scan" => Ok(VersionCall::ScanAsOf { table, t }),
        "next" => scan_after_call(alloc, line),
        "events" => events_call(alloc, line),
        "latest" => newest_events_call(alloc, line),
        "ranges" => Ok(ranges_call(line)),
        "threshold" => Ok(VersionCall::Threshold { table }),
        _ => change_of(alloc, line),
    }
}

fn put_listed(name: &str, entries: &[Entry], out: &mut String) -> Result<(), Memory> {
    out.push_str(name)?;
    put_entries(entries, out)
}

fn put_got(value: &Option<Blob>, out: &mut String) -> Result<(), Memory> {
    match value {
        Some(value) => {
            out.push_str("get ")?;
            put_text(value.as_slice(), out)
        }
        None => Ok(out.push_str("get none")?),
    }
}

fn put_threshold(at: Hlc, out: &mut String) -> Result<(), Memory> {
    out.push_str("threshold ")?;
    put_time(at, out)
}

fn put_name(name: &str, out: &mut String) -> Result<(), Memory> {
    Ok(out.push_str(name)?)
}

pub fn put_answer(answer: &VersionAnswer, out: &mut String) -> Result<(), Memory> {
    match answer {
        VersionAnswer::Put => put_name("put", out),
        VersionAnswer::Delete => put_name("delete", out),
        VersionAnswer::DeleteRange => put_name("range", out),
        VersionAnswer::GetAsOf(value) => put_got(value, out),
        VersionAnswer::ScanAsOf(seen) => put_listed("scan", seen.as_slice(), out),
        VersionAnswer::ScanAfter(seen) => put_listed("next", seen.as_slice(), out),
        VersionAnswer::NewestEvents(seen) => put_listed("latest", seen.as_slice(), out),
        VersionAnswer::Events(seen) => put_listed("events", seen.as_slice(), out),
        VersionAnswer::Ranges(seen) => put_listed("ranges", seen.as_slice(), out),
        VersionAnswer::Collect => put_name("collect", out),
        VersionAnswer::Threshold(at) => put_threshold(*at, out),
    }
}
