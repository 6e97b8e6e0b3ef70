//! The search for the best way: for each number of layers that are left, the layers from which
//! a way arrives with as many; then, from the start, the best of those that follow.
ghost use Rattle.std.specs.Prelude.{◌≡◌, ℕ, ◌+◌, ◌-◌, ◌<◌, ◌≤◌, ◌&&◌, ◌||◌, suc, false, true, length, map, List, IfOk, MatchOption, if◌then◌else◌, Some, None, ◌++◌, ◌∷◌, [], OnOk};
ghost use Rattle.mvcc_keys.specs.Times.{time_lt, time_le, time_eq};
ghost use Rattle.chain_resolver.specs.Ways.{IsBestWay, NoWay, usable};
ghost use Rattle.chain_resolver.specs.Steps.{IsForward, Walks, can};
ghost use Rattle.chain_resolver.specs.Tasks.{AreRows, BestBelow, CanStart, StartsAt, better, leads_on, leads_to, marked_of, route_of};

use crate::layer::{Layer, serves};
use crate::task::Task;
use mvcc_keys::{Hlc, Items, Memory};
use std::alloc::{AllocError, Global};

/// Whether a layer tells the changes after `from` or after its start.
fn is_usable(layer: &Layer, from: Hlc) -> bool
    ensures { result ≡ usable from layer.now }
{
    layer.history && (layer.floor <= layer.start || layer.floor <= from)
}

/// Whether a layer may come first, or after another.
fn follows(task: &Task, before: Option<Layer>, layer: &Layer) -> bool
    ensures { result ≡ (route_of task.now).follows before layer.now }
{
    match *task {
        Task::Chain(_) => match before {
            None => Hlc::zero() == layer.start,
            Some(last) => last.end == layer.start,
        },
        Task::Join(from, _) => match before {
            None => from == layer.start,
            Some(last) => last.end == layer.start,
        },
        Task::Span(from, _) => match before {
            None => is_usable(layer, from) && layer.start <= from && from < layer.end,
            Some(last) => is_usable(layer, from) && last.end == layer.start,
        },
    }
}

/// Whether a layer may come last.
fn arrives(task: &Task, layer: &Layer) -> bool
    ensures { result ≡ (route_of task.now).arrives layer.now }
{
    match *task {
        Task::Chain(t) => serves(layer, t),
        Task::Join(_, to) => layer.end == to,
        Task::Span(_, to) => layer.start < to && to <= layer.end,
    }
}

/// The layers that a row marks.
fn marked_layers(alloc: Global, layers: &[Layer], row: &[bool]) -> Result<Vec<Layer>, AllocError>
    ensures { IfOk result (λ v. v.items ≡ marked_of layers.now row.now) }
{
    layers
        .iter()
        .zip(row.iter())
        .filter(|(_, mark)| **mark)
        .map(|(layer, _)| *layer)
        .collect(alloc)
}

/// Whether one of some layers may follow.
fn leads(next: &[Layer], task: &Task, layer: Layer) -> bool
    ensures { result ≡ leads_to (route_of task.now) next.now layer }
{
    next.iter().any(|m| follows(task, Some(layer), m))
}

/// The layers that one of some layers may follow.
fn row_to(
    alloc: Global,
    layers: &[Layer],
    task: &Task,
    next: &[Layer],
) -> Result<Items<bool>, Memory>
    ensures { IfOk result (λ v. v ≡ map (leads_to (route_of task.now) next.now) layers.now) }
{
    let mut marks = Vec::new(alloc);
    for layer in layers {
        marks.push(leads(next, task, *layer))?;
    }
    Ok(Items::from_vec(marks))
}

/// The layers that may come last.
fn first_row(alloc: Global, layers: &[Layer], task: &Task) -> Result<Items<bool>, Memory>
    ensures { IfOk result (λ row. row ≡ map (can (route_of task.now) layers.now 0) layers.now) }
{
    let mut marks = Vec::new(alloc);
    for layer in layers {
        marks.push(arrives(task, layer))?;
    }
    Ok(Items::from_vec(marks))
}

/// The layers that a layer of this row may follow.
fn row_before(
    alloc: Global,
    layers: &[Layer],
    task: &Task,
    row: &[bool],
) -> Result<Items<bool>, Memory>
    ensures { IfOk result (λ v. v ≡ map (leads_on (route_of task.now) layers.now row.now) layers.now) }
{
    let next = marked_layers(alloc, layers, row)?;
    row_to(alloc, layers, task, next.as_slice())
}

/// The better of the best so far and a layer at a later place: the greater end, then the lower
/// place.
fn better_of(best: Option<(usize, Layer)>, place: usize, layer: Layer) -> Option<(usize, Layer)>
    ensures { result ≡ better best place layer }
{
    match best {
        None => Some((place, layer)),
        Some((p, last)) => {
            if last.end < layer.end {
                Some((place, layer))
            } else {
                Some((p, last))
            }
        }
    }
}

/// The best so far, with a layer at a later place if that is marked and fits.
fn take_if(
    best: Option<(usize, Layer)>,
    place: usize,
    layer: Layer,
    marked: bool,
    fits: bool,
) -> Option<(usize, Layer)>
    ensures { result ≡ (if marked && fits then better best place layer else best) }
{
    if marked && fits {
        better_of(best, place, layer)
    } else {
        best
    }
}

/// The best of the marked layers that may follow.
fn choose(
    layers: &[Layer],
    task: &Task,
    row: &[bool],
    before: &Option<Layer>,
) -> Option<(usize, Layer)>
    requires { length row.now ≡ length layers.now }
    ensures { BestBelow (route_of task.now) layers.now row.now before.now (length layers.now) result }
{
    let mut best = None;
    for i in 0..layers.len() {
        let layer = layers[i];
        let fits = follows(task, *before, &layer);
        best = take_if(best, i, layer, row[i], fits);
    }
    best
}

fn put_place(places: &mut Vec<usize>, place: usize) -> Result<(), Memory>
    ensures { OnOk result (places.new.items ≡ places.old.items ++ (place ∷ [])) }
{
    places.push(place).map_err(|_| Memory)
}

fn put_row(rows: &mut Vec<Items<bool>>, row: Items<bool>) -> Result<(), Memory>
    ensures { OnOk result (rows.new.items ≡ rows.old.items ++ (row ∷ [])) }
{
    rows.push(row).map_err(|_| Memory)
}

/// The row of the layers from which a way arrives with one more layer.
fn next_row(
    alloc: Global,
    layers: &[Layer],
    task: &Task,
    rows: &[Items<bool>],
) -> Result<Items<bool>, Memory>
    requires { AreRows (route_of task.now) layers.now rows.now }
    ensures { IfOk result (λ v. v ≡ map (can (route_of task.now) layers.now (length rows.now)) layers.now) }
{
    if rows.len() == 0 {
        first_row(alloc, layers, task)
    } else {
        row_before(alloc, layers, task, rows[rows.len() - 1].as_slice())
    }
}

/// Whether a layer of this row may come first.
fn can_start(layers: &[Layer], task: &Task, row: &[bool]) -> bool
    requires { length row.now ≡ length layers.now }
    ensures { (k : ℕ) → row.now ≡ map (can (route_of task.now) layers.now k) layers.now → result ≡ CanStart (route_of task.now) layers.now None k }
{
    choose(layers, task, row, &None).is_some()
}

/// The places of a walk over these rows.
fn walk(
    alloc: Global,
    layers: &[Layer],
    task: &Task,
    rows: &[Items<bool>],
) -> Result<Vec<usize>, Memory>
    requires rows { AreRows (route_of task.now) layers.now rows.now }
    requires start { StartsAt (route_of task.now) layers.now None (length rows.now) }
    ensures { IfOk result (λ v. (Walks (route_of task.now) layers.now None v.items) × (length v.items ≡ length rows.now)) }
{
    let mut places = Vec::new(alloc);
    let mut before = None;
    let mut left = rows.len();
    while left > 0 {
        left -= 1;
        let Some((place, layer)) = choose(layers, task, rows[left].as_slice(), &before) else {
            unreachable!()
        };
        put_place(&mut places, place)?;
        before = Some(layer);
    }
    Ok(places)
}

/// The best way, if there is one.
pub fn best_way(alloc: Global, layers: &[Layer], task: &Task) -> Result<Option<Vec<usize>>, Memory>
    requires { IsForward (route_of task.now) layers.now }
    ensures { IfOk result (λ o. MatchOption o (NoWay (route_of task.now) layers.now) (λ v. IsBestWay (route_of task.now) layers.now v.items)) }
{
    let mut rows: Vec<Items<bool>> = Vec::new(alloc);
    'rows: while rows.len() < layers.len() {
        let row = next_row(alloc, layers, task, rows.as_slice())?;
        let starts = can_start(layers, task, row.as_slice());
        put_row(&mut rows, row)?;
        if starts {
            let places = walk(alloc, layers, task, rows.as_slice())?;
            return Ok(Some(places));
        }
    }
    Ok(None)
}
