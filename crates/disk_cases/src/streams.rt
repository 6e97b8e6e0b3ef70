//! Reads of sources and writes to sinks.
use crate::spelling::{number, put_bytes, size, word};
use mvcc_keys::Memory;
use outside_world::{
    MemorySink, MemorySource, Sink, Source, StdSink, StdSource, SureSink, SureSource,
};
use std::alloc::Global;
use std::fs;

/// The most bytes that a read asks for.
const ROOM_BYTES: usize = 8;

/// Reads into so much room.
fn put_read<S: Source>(source: &mut S, len: usize, out: &mut String) -> Result<(), Memory> {
    let mut room = [0u8; ROOM_BYTES];
    let len = len.min(ROOM_BYTES);
    match source.read(&mut room[..len]) {
        Ok(count) => put_bytes(&room[..count.min(len)], out)?,
        Err(_) => out.push_str("failed")?,
    }
    Ok(out.push('\n')?)
}

/// Makes the reads `read len` of the lines.
fn put_reads<S: Source>(source: &mut S, lines: &str, out: &mut String) -> Result<(), Memory> {
    for line in lines.split('\n').filter(|line| line.starts_with("read ")) {
        put_read(source, size(word(line, 1)), out)?;
    }
    Ok(())
}

/// Writes a piece.
fn put_write<K: Sink>(sink: &mut K, piece: &str, out: &mut String) -> Result<(), Memory> {
    match sink.write(piece.as_bytes()) {
        Ok(count) => write!(out, "{count}")?,
        Err(_) => out.push_str("failed")?,
    }
    Ok(out.push('\n')?)
}

/// Makes the writes `write text` of the lines.
fn put_writes<K: Sink>(sink: &mut K, lines: &str, out: &mut String) -> Result<(), Memory> {
    for line in lines.split('\n').filter(|line| line.starts_with("write ")) {
        put_write(sink, word(line, 1), out)?;
    }
    Ok(())
}

/// The numbers that stand behind two words of a line.
fn fails_of(alloc: Global, line: &str) -> Result<Vec<u64>, Memory> {
    let mut fails = Vec::new(alloc);
    for text in line.split(' ').skip(2) {
        fails.push(number(text))?;
    }
    Ok(fails)
}

fn put_memory_source(
    alloc: Global,
    first: &str,
    lines: &str,
    out: &mut String,
) -> Result<(), Memory> {
    let bytes = Vec::from_slice(alloc, word(first, 1).as_bytes())?;
    let mut source = MemorySource::new(bytes, fails_of(alloc, first)?);
    put_reads(&mut source, lines, out)
}

fn put_sure_source(
    alloc: Global,
    first: &str,
    lines: &str,
    out: &mut String,
) -> Result<(), Memory> {
    let bytes = Vec::from_slice(alloc, word(first, 1).as_bytes())?;
    put_reads(&mut SureSource::new(bytes), lines, out)
}

fn put_std_source(first: &str, lines: &str, out: &mut String) -> Result<(), Memory> {
    put_reads(&mut StdSource::new(word(first, 1).as_bytes()), lines, out)
}

/// Reads of a folder, which fail.
fn put_folder_source(rt: &HostRuntime, lines: &str, out: &mut String) -> Result<(), Memory> {
    match fs::open(rt, ".") {
        Ok(file) => put_reads(&mut StdSource::new(file), lines, out),
        Err(_) => Err(Memory),
    }
}

fn put_memory_sink(
    alloc: Global,
    first: &str,
    lines: &str,
    out: &mut String,
) -> Result<(), Memory> {
    let mut sink = MemorySink::new(alloc, size(word(first, 1)), fails_of(alloc, first)?)?;
    put_writes(&mut sink, lines, out)?;
    out.push_str("held ")?;
    put_bytes(sink.held(), out)?;
    Ok(out.push('\n')?)
}

fn put_std_sink(first: &str, lines: &str, out: &mut String) -> Result<(), Memory> {
    let mut room = [0u8; ROOM_BYTES];
    let len = size(word(first, 1)).min(ROOM_BYTES);
    put_writes(&mut StdSink::new(&mut room[..len]), lines, out)
}

/// Writes to a file that is open to read alone, which fail.
fn put_closed_sink(rt: &HostRuntime, lines: &str, out: &mut String) -> Result<(), Memory> {
    match fs::open(rt, ".") {
        Ok(file) => put_writes(&mut StdSink::new(file), lines, out),
        Err(_) => Err(Memory),
    }
}

/// Makes the reads or writes of the lines on what the first line says: `source text failing..`,
/// `sure text`, `std text` or `folder` for reads, `sink room failing..`, `any`, `room len` or
/// `closed` for writes.
pub fn answer(rt: &HostRuntime, lines: &str, out: &mut String) -> Result<(), Memory> {
    let first = lines.split('\n').next().unwrap_or("");
    match word(first, 0) {
        "source" => put_memory_source(rt.alloc(), first, lines, out),
        "sure" => put_sure_source(rt.alloc(), first, lines, out),
        "std" => put_std_source(first, lines, out),
        "folder" => put_folder_source(rt, lines, out),
        "sink" => put_memory_sink(rt.alloc(), first, lines, out),
        "any" => put_writes(&mut SureSink::new(), lines, out),
        "room" => put_std_sink(first, lines, out),
        "closed" => put_closed_sink(rt, lines, out),
        _ => Err(Memory),
    }
}
