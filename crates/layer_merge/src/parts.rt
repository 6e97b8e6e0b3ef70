//! The parts of a merge.
ghost use Rattle.std.specs.Prelude.{◌≡◌, IfOk, None, slice_get};
ghost use Rattle.std.specs.List.{list_any};
ghost use Rattle.layer_merge.specs.FromLast.{from_last};
ghost use Rattle.layer_merge.specs.Parts.{is_introduced};
ghost use Rattle.layer_merge.specs.Within.{AreAsked, may_hold, wanted_numbers};

use crate::Memory;
use crate::ranges::Waiting;
use crate::wanted::Wanted;
use mvcc_keys::Blob;
use std::alloc::Global;
use std::collections::VecDeque;

/// What a layer of a chain has of a table: how many chunks, and per chunk its least and greatest
/// key, where its manifest tells them.
#[derive(Debug, Drop)]
pub struct Part {
    pub layer: usize,
    pub introduced: bool,
    pub chunks: u32,
    pub bounds: Vec<Option<(Blob, Blob)>>,
}

/// Whether one of the parts introduces the table.
pub(crate) fn any_introduced(parts: &[Part]) -> bool
    ensures { result ≡ list_any is_introduced parts.now }
{
    parts.iter().any(|p| p.introduced)
}

/// The parts that count: from the last one on that introduces the table, or all.
pub(crate) fn counted(parts: &[Part]) -> &[Part]
    ensures { result.now ≡ from_last is_introduced parts.now }
{
    let mut rest = parts;
    while let Some((_, others)) = rest.split_first() {
        if !any_introduced(others) {
            return rest;
        }
        rest = others;
    }
    rest
}

/// Whether a chunk of a part may hold something of the keys that are asked for.
fn may_hold(part: &Part, number: u32, wanted: &Wanted) -> bool
    ensures { result ≡ may_hold wanted.now (slice_get part.now.bounds.items number) }
{
    match part.bounds.as_slice().get(number as usize) {
        Some(Some((least, greatest))) => wanted.reaches(least.as_slice(), greatest.as_slice()),
        _ => true,
    }
}

/// The numbers of the chunks of a part that may hold something of the keys that are asked for.
fn numbers_of(alloc: Global, part: &Part, wanted: &Wanted) -> Result<VecDeque<u32>, Memory>
    ensures { IfOk result (λ ns. ns.items ≡ wanted_numbers wanted.now part.now) }
{
    let mut numbers = VecDeque::new(alloc);
    for number in 0..part.chunks {
        if may_hold(part, number, wanted) {
            if numbers.push_back(number).is_err() {
                return Err(Memory);
            }
        }
    }
    Ok(numbers)
}

/// Parts, with their chunks to load for the keys that are asked for.
pub(crate) fn waiting_of(
    alloc: Global,
    parts: &[Part],
    wanted: &Wanted,
) -> Result<VecDeque<Waiting>, Memory>
    ensures { IfOk result (λ ws. AreAsked wanted.now parts.now ws.items) }
{
    let mut waiting = VecDeque::new(alloc);
    for part in parts {
        let numbers = match numbers_of(alloc, part, wanted) {
            Ok(numbers) => numbers,
            Err(refused) => return Err(refused),
        };
        let layer = part.layer;
        if waiting.push_back(Waiting { layer, numbers }).is_err() {
            return Err(Memory);
        }
    }
    Ok(waiting)
}
