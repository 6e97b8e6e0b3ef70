//! How far adjoining layers from zero reach.
ghost use Rattle.std.specs.Prelude.{◌≡◌, ◌&&◌, map, filter, IfOk, length};
ghost use Rattle.std.specs.List.{list_any, zip};
ghost use Rattle.mvcc_keys.specs.Times.{time_eq, latest, or_zero};
ghost use Rattle.chain_resolver.specs.Reaching.{marked_times, reach, reach_on, reached_times};

use crate::layer::Layer;
use mvcc_keys::{Hlc, Items, Memory, latest, time_or_zero};
use std::alloc::{AllocError, Global};

/// Whether a marked layer ends at `start`.
fn is_marked_before(layers: &[Layer], row: &[bool], start: Hlc) -> bool
    ensures { result ≡ list_any (λ p. time_eq p.0.end start && p.1) (zip layers.now row.now) }
{
    layers
        .iter()
        .zip(row.iter())
        .any(|(before, mark)| before.end == start && *mark)
}

fn reaches(layers: &[Layer], row: &[bool], layer: &Layer) -> bool
    ensures { result ≡ reach_on layers.now row.now layer.now }
{
    Hlc::zero() == layer.start || is_marked_before(layers, row, layer.start)
}

/// The layers that start at zero or at the end of a marked one.
fn reach_row(alloc: Global, layers: &[Layer], row: &[bool]) -> Result<Items<bool>, Memory>
    ensures { IfOk result (λ next. next ≡ map (reach_on layers.now row.now) layers.now) }
{
    let mut marks = Vec::new(alloc);
    for layer in layers {
        marks.push(reaches(layers, row, layer))?;
    }
    Ok(Items::from_vec(marks))
}

fn no_row(alloc: Global, layers: &[Layer]) -> Result<Items<bool>, Memory>
    ensures { IfOk result (λ row. row ≡ map (reach layers.now 0) layers.now) }
{
    let mut marks = Vec::new(alloc);
    for _layer in layers {
        marks.push(false)?;
    }
    Ok(Items::from_vec(marks))
}

/// The layers to whose ends adjoining layers from zero lead.
fn last_row(alloc: Global, layers: &[Layer]) -> Result<Items<bool>, Memory>
    ensures { IfOk result (λ row. row ≡ map (reach layers.now (length layers.now)) layers.now) }
{
    let mut row = no_row(alloc, layers)?;
    for k in 0..layers.len() {
        row = reach_row(alloc, layers, row.as_slice())?;
    }
    Ok(row)
}

fn ends_of_marked(
    alloc: Global,
    layers: &[Layer],
    row: &[bool],
    t: Hlc,
) -> Result<Vec<Hlc>, AllocError>
    ensures { IfOk result (λ times. times.items ≡ marked_times t layers.now row.now) }
{
    layers
        .iter()
        .zip(row.iter())
        .filter(|(layer, mark)| layer.end < t && **mark)
        .map(|(layer, _)| layer.end)
        .collect(alloc)
}

/// The greatest time before `t` that adjoining layers from zero reach, or zero.
pub fn reached_before(alloc: Global, layers: &[Layer], t: Hlc) -> Result<Hlc, Memory>
    ensures { IfOk result (λ x. x ≡ or_zero (latest (reached_times layers.now t (length layers.now)))) }
{
    let row = last_row(alloc, layers)?;
    let times = ends_of_marked(alloc, layers, row.as_slice(), t)?;
    Ok(time_or_zero(latest(times.as_slice())))
}
