//! Merges of a chain, and their answers in words.
ghost use Rattle.std.specs.Prelude.{◌≡◌, Bool, false, OnOk};

use crate::chain::Chain;
use crate::source::{Refusal, Source};
use crate::words::{TABLE, date, key, number, put_entry, size, word};
use layer_merge::{EntryMerge, MergeFault, RowMerge};
use mvcc_keys::{Entry, Memory};
use row_codec::Kind;
use std::alloc::Global;

/// The key kinds of the table.
const KINDS: [Kind; 1] = [Kind::Int];

/// The most items that are asked for, where a line doesn't say how many.
const ITEMS_MAX: usize = 1_000_000;

/// The most items that are told one by one.
const TOLD_MAX: usize = 40;

/// Why no more items came.
#[derive(Drop)]
enum Ending {
    /// As many came as were asked for.
    Enough,
    End,
    Fault(MergeFault<Refusal>),
}

/// A merge, which gives one item after another.
trait Merge {
    ghost failed: { Self → Bool };

    /// The next item; None at the end. It isn't asked of a merge that failed.
    fn next_item(&mut self, source: &mut Source) -> Result<Option<Entry>, MergeFault<Refusal>>
        requires { failed self.old ≡ false }
        ensures { OnOk result (failed self.new ≡ false) };
}

impl Merge for RowMerge {
    ghost failed = { λ merge. merge.failed };

    fn next_item(&mut self, source: &mut Source) -> Result<Option<Entry>, MergeFault<Refusal>> {
        self.next(source)
    }
}

impl Merge for EntryMerge {
    ghost failed = { λ merge. merge.failed };

    fn next_item(&mut self, source: &mut Source) -> Result<Option<Entry>, MergeFault<Refusal>> {
        self.next(source)
    }
}

/// Takes so many items, or those up to the end or to a fault.
fn take_items<M: Merge>(
    merge: &mut M,
    source: &mut Source,
    count: usize,
    items: &mut Vec<Entry>,
) -> Ending
    requires { M.failed merge.old ≡ false }
{
    for _ in 0..count {
        match merge.next_item(source) {
            Ok(Some(entry)) => {
                if items.push(entry).is_err() {
                    return Ending::Fault(MergeFault::Memory);
                }
            }
            Ok(None) => return Ending::End,
            Err(fault) => return Ending::Fault(fault),
        }
    }
    Ending::Enough
}

fn put_refusal(refusal: &Refusal, out: &mut String) -> Result<(), Memory> {
    Ok(out.push_str(match refusal {
        Refusal::Refused => " refused",
        Refusal::Absent => " absent",
        Refusal::Memory => " memory",
    })?)
}

fn put_fault(fault: &MergeFault<Refusal>, out: &mut String) -> Result<(), Memory> {
    match fault {
        MergeFault::Chunk(refusal) => put_refusal(refusal, out),
        MergeFault::Malformed {
            layer,
            chunk,
            offset,
        } => Ok(write!(out, " malformed {layer}:{chunk} at {offset}")?),
        MergeFault::Memory => Ok(out.push_str(" memory")?),
    }
}

fn put_ending(ending: &Ending, out: &mut String) -> Result<(), Memory> {
    match ending {
        Ending::Enough => Ok(()),
        Ending::End => Ok(out.push_str(" end")?),
        Ending::Fault(fault) => put_fault(fault, out),
    }
}

/// Appends the items one by one, or how many they are with the first and the last of them.
fn put_items(items: &[Entry], out: &mut String) -> Result<(), Memory> {
    if items.len() > TOLD_MAX {
        let count = items.len();
        write!(out, " {count} items:")?;
    }
    for (place, entry) in items.iter().enumerate() {
        if items.len() <= TOLD_MAX || place == 0 || place == items.len() - 1 {
            put_entry(entry, out)?;
        }
    }
    Ok(())
}

/// How many items a word asks for.
fn count_of(text: &str) -> usize {
    if text.is_empty() {
        ITEMS_MAX
    } else {
        size(text)
    }
}

/// Appends the rows of `rows 5`, or the first three of `rows 5 3`.
fn put_rows(alloc: Global, chain: &mut Chain, line: &str, out: &mut String) -> Result<(), Memory> {
    let t = date(word(line, 1));
    let mut merge = RowMerge::new(alloc, TABLE, &KINDS, &chain.parts, t)?;
    let mut items = Vec::new(alloc);
    let count = count_of(word(line, 2));
    let ending = take_items(&mut merge, &mut chain.source, count, &mut items);
    put_items(&items, out)?;
    put_ending(&ending, out)
}

/// Appends the rows of `within 5 3 7`: as of 5, of the keys from 3 to below 7.
fn put_within(
    alloc: Global,
    chain: &mut Chain,
    line: &str,
    out: &mut String,
) -> Result<(), Memory> {
    let t = date(word(line, 1));
    let lo = key(alloc, number(word(line, 2)))?;
    let hi = key(alloc, number(word(line, 3)))?;
    let mut merge = RowMerge::within(
        alloc,
        TABLE,
        &KINDS,
        &chain.parts,
        t,
        lo.as_slice(),
        hi.as_slice(),
    )?;
    let mut items = Vec::new(alloc);
    let ending = take_items(&mut merge, &mut chain.source, ITEMS_MAX, &mut items);
    put_items(&items, out)?;
    put_ending(&ending, out)
}

/// Appends the entries of `entries 0 5`, or the first three of `entries 0 5 3`.
fn put_merged(
    alloc: Global,
    chain: &mut Chain,
    line: &str,
    out: &mut String,
) -> Result<(), Memory> {
    let from = date(word(line, 1));
    let to = date(word(line, 2));
    let mut merge = EntryMerge::new(alloc, TABLE, &KINDS, &chain.parts, from, to)?;
    let mut items = Vec::new(alloc);
    let count = count_of(word(line, 3));
    let ending = take_items(&mut merge, &mut chain.source, count, &mut items);
    put_items(&items, out)?;
    put_ending(&ending, out)
}

/// Appends the layers and numbers of the chunks loaded so far, and forgets them.
fn put_loads(chain: &mut Chain, out: &mut String) -> Result<(), Memory> {
    for (layer, number) in &chain.source.loads {
        write!(out, " {layer}:{number}")?;
    }
    chain.source.loads.clear();
    Ok(())
}

fn put_answer(
    alloc: Global,
    chain: &mut Chain,
    line: &str,
    out: &mut String,
) -> Result<(), Memory> {
    out.push_str(word(line, 0))?;
    match word(line, 0) {
        "rows" => put_rows(alloc, chain, line, out)?,
        "within" => put_within(alloc, chain, line, out)?,
        "entries" => put_merged(alloc, chain, line, out)?,
        "loads" => put_loads(chain, out)?,
        _ => return Err(Memory),
    }
    Ok(out.push('\n')?)
}

/// Makes the chain of the lines, and the merges of it.
pub fn answer(alloc: Global, lines: &str, out: &mut String) -> Result<(), Memory> {
    let mut chain = Chain::new(alloc);
    for line in lines.split('\n').filter(|line| !line.is_empty()) {
        if !chain.take(line)? {
            put_answer(alloc, &mut chain, line, out)?;
        }
    }
    Ok(())
}
