//! Answers what bytes are read as, and whether writing what was read gives the same bytes.
#![tactic(auto)]

mod chunks;
mod descriptors;
mod edits;
mod manifests;
mod numbers;
mod objects;
mod rewrites;
mod rows;
mod times;
mod words;

use case_suites::{Answers, run_suites};
use mvcc_keys::Memory;
use std::alloc::Global;
use std::io;
use std::process::ExitCode;
use words::{bytes_of, first_word};

/// The reader that was asked last, and the bytes that it was given.
#[derive(Drop)]
struct Codes {
    reader: String,
    bytes: Vec<u8>,
}

/// Reads bytes by the reader that its word and its parameters name.
fn read(alloc: Global, reader: &str, bytes: &[u8], out: &mut String) -> Result<(), Memory> {
    let (word, parameters) = first_word(reader);
    match word {
        "unsigned" => numbers::put_unsigned(alloc, bytes, out),
        "signed" => numbers::put_signed(alloc, bytes, out),
        "signed-down" => numbers::put_signed_down(alloc, bytes, out),
        "string" => numbers::put_string(alloc, bytes, out),
        "string-down" => numbers::put_string_down(alloc, bytes, out),
        "time" => times::put_time_of(alloc, bytes, out),
        "version" => times::put_version(alloc, bytes, out),
        "key" => rows::put_key(alloc, parameters, bytes, out),
        "value" => rows::put_value(alloc, bytes, out),
        "cells" => rows::put_orders(alloc, bytes, out),
        "name" => descriptors::put_name(alloc, bytes, out),
        "descriptor" => descriptors::put_descriptor(alloc, bytes, out),
        "chunk" => chunks::put_chunk(alloc, parameters, bytes, out),
        "manifest" => manifests::put_manifest(alloc, bytes, out),
        "rewrite" => rewrites::put_rewritten(alloc, parameters, bytes, out),
        _ => Ok(out.push_str("no such reader")?),
    }
}

impl Codes {
    fn keep(&mut self, reader: &str, bytes: Vec<u8>) -> Result<(), Memory> {
        self.reader.clear();
        self.reader.push_str(reader)?;
        self.bytes = bytes;
        Ok(())
    }

    /// Reads the bytes of the line before it, changed.
    fn edit(&mut self, alloc: Global, line: &str, out: &mut String) -> Result<(), Memory> {
        let bytes = edits::edited(alloc, &self.bytes, line)?;
        read(alloc, &self.reader, &bytes, out)
    }

    /// Makes or changes a descriptor, whose bytes the lines after it may edit.
    fn describe(&mut self, alloc: Global, line: &str, out: &mut String) -> Result<(), Memory> {
        let bytes = descriptors::put_described(alloc, &self.bytes, line, out)?;
        self.keep("descriptor", bytes)
    }

    fn read_line(&mut self, alloc: Global, line: &str, out: &mut String) -> Result<(), Memory> {
        let (reader, digits) = line.rsplit_once(' ').unwrap_or((line, ""));
        let bytes = bytes_of(alloc, digits)?;
        read(alloc, reader, &bytes, out)?;
        self.keep(reader, bytes)
    }

    fn put_line(&mut self, alloc: Global, line: &str, out: &mut String) -> Result<(), Memory> {
        let (word, rest) = first_word(line);
        match word {
            "cut" | "change" | "replace" | "append" => self.edit(alloc, line, out),
            "create" | "alter" | "restore" => self.describe(alloc, line, out),
            "text" => times::put_text(alloc, rest, out),
            "clock" => times::put_clock(rest, out),
            "times" => times::put_extremes(alloc, rest, out),
            "versions" => times::put_order(alloc, rest, out),
            "rows" => rows::put_order(alloc, rest, out),
            "object" => objects::put_object(alloc, rest, out),
            "part" => objects::put_part_of(rest, out),
            "ids" => rewrites::put_ids(alloc, rest, out),
            _ => self.read_line(alloc, line, out),
        }
    }
}

impl Answers for Codes {
    fn set(&mut self, _alloc: Global, _setting: &str) -> Result<(), Memory> {
        Err(Memory)
    }

    fn answer(&mut self, alloc: Global, given: &[u8], out: &mut String) -> Result<(), Memory> {
        let Ok(lines) = std::str::from_utf8(given) else {
            return Err(Memory);
        };
        let line = lines.strip_suffix("\n").unwrap_or(lines);
        self.put_line(alloc, line, out)?;
        Ok(out.push('\n')?)
    }
}

fn main(rt: HostRuntime) -> io::Result<ExitCode> {
    let alloc = rt.alloc();
    let mut codes = Codes {
        reader: String::new(alloc),
        bytes: Vec::new(alloc),
    };
    run_suites(&rt, &mut codes)
}
