//! Calls on range deletions.
use crate::texts::{date_of, put_text, put_time, time, upto, word};
use mvcc_keys::{Entry, Hlc, Memory};
use range_tombstones::{Fragments, Upto};
use std::alloc::Global;

/// Adds a range deletion. What may not be added is told.
fn add(fragments: &mut Fragments, line: &str, out: &mut String) -> Result<(), Memory> {
    let lo = word(line, 1).as_bytes();
    let hi = word(line, 2).as_bytes();
    let date = time(word(line, 3));
    if !lo.cmp(hi).is_lt() {
        return Ok(out.push_str("empty")?);
    }
    if fragments.has_date(date) {
        return Ok(out.push_str("dated")?);
    }
    fragments.add(lo, hi, date)?;
    Ok(out.push_str("added")?)
}

fn put_newest(newest: Option<Hlc>, out: &mut String) -> Result<(), Memory> {
    match newest {
        Some(date) => put_time(date, out),
        None => Ok(out.push_str("none")?),
    }
}

/// Appends ` lo..hi@3`.
fn put_range(entry: &Entry, out: &mut String) -> Result<(), Memory> {
    out.push(' ')?;
    put_text(entry.key(), out)?;
    out.push_str("..")?;
    put_text(entry.end(), out)?;
    out.push('@')?;
    put_time(date_of(entry), out)
}

fn put_ranges(
    fragments: &Fragments,
    from: Hlc,
    upto: Upto,
    out: &mut String,
) -> Result<(), Memory> {
    out.push_str("ranges")?;
    for entry in &fragments.originals(from, upto)? {
        put_range(entry, out)?;
    }
    Ok(())
}

fn put_whether(whether: bool, out: &mut String) -> Result<(), Memory> {
    Ok(out.push_str(if whether { "yes" } else { "no" })?)
}

fn collect(fragments: &mut Fragments, g: Hlc, out: &mut String) -> Result<(), Memory> {
    fragments.collect(g);
    Ok(out.push_str("collected")?)
}

/// Makes the call of a line: `add lo hi date`, `newest key upto`, `ranges from upto`, `has date`,
/// `collect date`, or `holds upto date`, which asks an interval's end.
fn call(fragments: &mut Fragments, line: &str, out: &mut String) -> Result<(), Memory> {
    match word(line, 0) {
        "add" => add(fragments, line, out),
        "newest" => {
            let newest = fragments.newest(word(line, 1).as_bytes(), time(word(line, 2)));
            put_newest(newest, out)
        }
        "ranges" => put_ranges(fragments, time(word(line, 1)), upto(word(line, 2)), out),
        "has" => put_whether(fragments.has_date(time(word(line, 1))), out),
        "collect" => collect(fragments, time(word(line, 1)), out),
        "holds" => put_whether(upto(word(line, 1)).holds(time(word(line, 2))), out),
        _ => Err(Memory),
    }
}

/// Makes the calls of the lines on no range deletions.
pub fn answer(alloc: Global, lines: &str, out: &mut String) -> Result<(), Memory> {
    let mut fragments = Fragments::new(alloc);
    for line in lines.split('\n').filter(|line| !line.is_empty()) {
        call(&mut fragments, line, out)?;
        out.push('\n')?;
    }
    Ok(())
}
