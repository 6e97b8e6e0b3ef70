//! Times, and keys of versions.
use crate::words::{
    bytes_of, first_word, id_of, number_of, order_text, put_bytes, put_spelling, time_of,
};
use mvcc_keys::{
    Hlc, Memory, cmp_mvcc, earliest, encode_mvcc, latest, parse_time, put_time, put_time_text,
    split_mvcc, take_time, time_or_zero,
};
use std::alloc::Global;

fn put_read_time(time: Hlc, rest: &[u8], alloc: Global, out: &mut String) -> Result<(), Memory> {
    write!(out, "{time}")?;
    let mut spelling = Vec::new(alloc);
    put_time(time, &mut spelling)?;
    put_spelling(&spelling, rest, out)
}

pub fn put_time_of(alloc: Global, bytes: &[u8], out: &mut String) -> Result<(), Memory> {
    let Some((time, rest)) = take_time(bytes) else {
        return Ok(out.push_str("no time")?);
    };
    put_read_time(time, rest, alloc, out)
}

/// Appends the parts of a time, and the time that a clock draws after it.
fn put_parts(time: Hlc, out: &mut String) -> Result<(), Memory> {
    let wall = time.wall();
    let counter = time.logical();
    write!(out, "wall {wall} counter {counter}")?;
    let Some(next) = time.next() else {
        return Ok(out.push_str(" is the last")?);
    };
    Ok(write!(out, " next {next}")?)
}

fn put_read_text(time: Hlc, alloc: Global, out: &mut String) -> Result<(), Memory> {
    put_parts(time, out)?;
    let mut text = Vec::new(alloc);
    put_time_text(time, &mut text)?;
    out.push_str(" text ")?;
    out.push_str(std::str::from_utf8(&text).unwrap_or("?"))?;
    Ok(())
}

/// Reads the text of a time.
pub fn put_text(alloc: Global, text: &str, out: &mut String) -> Result<(), Memory> {
    let Ok(time) = parse_time(text.as_bytes()) else {
        return Ok(out.push_str("no time")?);
    };
    put_read_text(time, alloc, out)
}

/// Makes a time of a wall and a counter.
pub fn put_clock(parts: &str, out: &mut String) -> Result<(), Memory> {
    let (wall, counter) = first_word(parts);
    let Some(time) = Hlc::new(number_of(wall), id_of(counter)) else {
        return Ok(out.push_str("no time")?);
    };
    put_parts(time, out)
}

fn times_of(alloc: Global, words: &str) -> Result<Vec<Hlc>, Memory> {
    let mut times = Vec::new(alloc);
    for word in words.split(' ') {
        if !word.is_empty() {
            times.push(time_of(word))?;
        }
    }
    Ok(times)
}

/// Appends the first and the last of some times.
pub fn put_extremes(alloc: Global, words: &str, out: &mut String) -> Result<(), Memory> {
    let times = times_of(alloc, words)?;
    let first = time_or_zero(earliest(&times));
    let last = time_or_zero(latest(&times));
    Ok(write!(out, "first {first} last {last}")?)
}

fn put_read_version(key: &[u8], time: Hlc, alloc: Global, out: &mut String) -> Result<(), Memory> {
    write!(out, "{time} of")?;
    put_bytes(key, out)?;
    let mut spelling = Vec::new(alloc);
    encode_mvcc(key, time, &mut spelling)?;
    out.push_str(" is")?;
    put_bytes(&spelling, out)
}

/// Reads the key of a version.
pub fn put_version(alloc: Global, bytes: &[u8], out: &mut String) -> Result<(), Memory> {
    let Some((key, time)) = split_mvcc(bytes) else {
        return Ok(out.push_str("no version")?);
    };
    put_read_version(key, time, alloc, out)
}

/// Appends the order of two versions, each given by its key and its time.
pub fn put_order(alloc: Global, words: &str, out: &mut String) -> Result<(), Memory> {
    let (key, rest) = first_word(words);
    let (time, rest) = first_word(rest);
    let (other, other_time) = first_word(rest);
    let key = bytes_of(alloc, key)?;
    let other = bytes_of(alloc, other)?;
    let order = cmp_mvcc(&key, time_of(time), &other, time_of(other_time));
    Ok(out.push_str(order_text(order))?)
}
