//! The reason why no chain leads to a time.
ghost use Rattle.std.specs.Prelude.{◌≡◌, ◌&&◌, map, filter, IfOk};
ghost use Rattle.std.specs.List.{list_any};
ghost use Rattle.mvcc_keys.specs.Times.{time_lt, earlier, earliest, later, latest, or_zero};
ghost use Rattle.chain_resolver.specs.Ways.{serves};
ghost use Rattle.chain_resolver.specs.Cover.{ends_of, is_over, late_floors, reason, unserved};

use crate::faults::CoverFault;
use crate::layer::{Layer, serves};
use mvcc_keys::{Hlc, Memory, earliest, latest, time_or_zero};
use std::alloc::{AllocError, Global};

/// Whether a layer has `t` in its interval.
fn is_over(layer: &Layer, t: Hlc) -> bool
    ensures { result ≡ is_over t layer.now }
{
    layer.start < t && t <= layer.end
}

fn any_is_over(layers: &[Layer], t: Hlc) -> bool
    ensures { result ≡ list_any (is_over t) layers.now }
{
    layers.iter().any(|layer| is_over(layer, t))
}

fn any_serves(layers: &[Layer], t: Hlc) -> bool
    ensures { result ≡ list_any (λ l. serves l t) layers.now }
{
    layers.iter().any(|layer| serves(layer, t))
}

fn ends_of(alloc: Global, layers: &[Layer]) -> Result<Vec<Hlc>, AllocError>
    ensures { IfOk result (λ times. times.items ≡ ends_of layers.now) }
{
    layers.iter().map(|layer| layer.end).collect(alloc)
}

fn late_floors(alloc: Global, layers: &[Layer], t: Hlc) -> Result<Vec<Hlc>, AllocError>
    ensures { IfOk result (λ times. times.items ≡ late_floors t layers.now) }
{
    layers
        .iter()
        .filter(|layer| is_over(layer, t) && (layer.history && t < layer.floor))
        .map(|layer| layer.floor)
        .collect(alloc)
}

fn starts_of_serving(alloc: Global, layers: &[Layer], t: Hlc) -> Result<Vec<Hlc>, AllocError>
    ensures { IfOk result (λ times. times.items ≡ map (λ l. l.start) (filter (λ l. serves l t) layers.now)) }
{
    layers
        .iter()
        .filter(|layer| serves(layer, t))
        .map(|layer| layer.start)
        .collect(alloc)
}

fn times_before(alloc: Global, times: &[Hlc], t: Hlc) -> Result<Vec<Hlc>, AllocError>
    ensures { IfOk result (λ before. before.items ≡ filter (λ s. time_lt s t) times.now) }
{
    times.iter().filter(|s| **s < t).map(|s| *s).collect(alloc)
}

fn times_after(alloc: Global, times: &[Hlc], t: Hlc) -> Result<Vec<Hlc>, AllocError>
    ensures { IfOk result (λ after. after.items ≡ filter (λ s. time_lt t s) times.now) }
{
    times.iter().filter(|s| t < **s).map(|s| *s).collect(alloc)
}

/// Why no layer serves `t`, given the least of the floors that are too late.
fn unserved(alloc: Global, ends: &[Hlc], t: Hlc, floor: Option<Hlc>) -> Result<CoverFault, Memory>
    ensures { IfOk result (λ fault. fault ≡ unserved ends.now t floor) }
{
    match floor {
        Some(floor) => Ok(CoverFault::HistoryCollected { floor }),
        None => {
            let before = times_before(alloc, ends, t)?;
            let after = times_after(alloc, ends, t)?;
            let below = time_or_zero(latest(before.as_slice()));
            let above = time_or_zero(earliest(after.as_slice()));
            Ok(CoverFault::NeedsHistory { below, above })
        }
    }
}

/// Why no chain leads to `t`, where adjoining layers from zero reach up to `reached` before it.
pub fn reason(alloc: Global, layers: &[Layer], t: Hlc, reached: Hlc) -> Result<CoverFault, Memory>
    ensures { IfOk result (λ fault. fault ≡ reason layers.now t reached) }
{
    let ends = ends_of(alloc, layers)?;
    if !any_is_over(layers, t) {
        let first = time_or_zero(earliest(ends.as_slice()));
        let last = time_or_zero(latest(ends.as_slice()));
        return Ok(CoverFault::NotCovered { first, last });
    }
    if !any_serves(layers, t) {
        let floors = late_floors(alloc, layers, t)?;
        return unserved(alloc, ends.as_slice(), t, earliest(floors.as_slice()));
    }
    let starts = starts_of_serving(alloc, layers, t)?;
    let wants = time_or_zero(earliest(starts.as_slice()));
    Ok(CoverFault::Gap { reached, wants })
}
