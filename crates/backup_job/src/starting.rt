//! The manifest of a layer before its chunks are known.
ghost use Rattle.std.specs.Prelude.{◌≡◌, ◌++◌, ◌∷◌, [], map, filter, option_to_list, IfOk, OnOk};
ghost use Rattle.std.specs.List.{AllByRecursion};
ghost use Rattle.table_descriptors.specs.Descriptors.{IsProperSchema};
ghost use Rattle.range_tombstones.specs.declared.upto.Upto.TheVariants.{At};
ghost use Rattle.range_tombstones.specs.Intervals.{is_between};
ghost use Rattle.history_model.specs.Histories.{in_force};
ghost use Rattle.schema_catalog.specs.Catalogs.{history_of};
ghost use Rattle.layer_objects.specs.Contents.{AreProper, bare_manifest, part_of};
ghost use Rattle.introduced_spans.specs.Spans.{layer_descriptors};

use introduced_spans::{LayerPlan, TablePlan};
use layer_manifest::{Manifest, TablePart};
use layer_model::LayerName;
use mvcc_keys::{Hlc, Items, Memory};
use schema_catalog::Catalog;
use std::alloc::Global;
use table_descriptors::{Descriptor, Scope};

fn push_copy(alloc: Global, d: &Descriptor, copies: &mut Vec<Descriptor>) -> Result<(), Memory>
    ensures more { OnOk result (copies.new.items ≡ copies.old.items ++ d.now ∷ []) }
    ensures proper { OnOk result (AllByRecursion IsProperSchema copies.old.items → AllByRecursion IsProperSchema copies.new.items) }
{
    let copy = d.copy(alloc)?;
    copy.proper();
    copies.push(copy).map_err(|_| Memory)
}

/// Copies the descriptor of a table that is in force at a time, if there is one.
fn push_at(
    alloc: Global,
    catalog: &Catalog,
    id: u32,
    t: Hlc,
    copies: &mut Vec<Descriptor>,
) -> Result<(), Memory>
    ensures more { OnOk result (copies.new.items ≡ copies.old.items ++ option_to_list (in_force (history_of catalog.now id) t)) }
    ensures proper { OnOk result (AllByRecursion IsProperSchema copies.old.items → AllByRecursion IsProperSchema copies.new.items) }
{
    match catalog.at(id, t) {
        Some(d) => push_copy(alloc, d, copies),
        None => Ok(()),
    }
}

fn is_between(d: &Descriptor, from: Hlc, end: Hlc) -> bool
    ensures { result ≡ is_between from (At end) d.now.modified }
{
    from < d.modified() && d.modified() <= end
}

fn push_if_between(
    alloc: Global,
    d: &Descriptor,
    from: Hlc,
    end: Hlc,
    copies: &mut Vec<Descriptor>,
) -> Result<(), Memory>
    ensures more { OnOk result (copies.new.items ≡ copies.old.items ++ filter (λ e. is_between from (At end) e.modified) (d.now ∷ [])) }
    ensures proper { OnOk result (AllByRecursion IsProperSchema copies.old.items → AllByRecursion IsProperSchema copies.new.items) }
{
    if is_between(d, from, end) {
        push_copy(alloc, d, copies)
    } else {
        Ok(())
    }
}

/// Copies those that are dated in an interval.
fn push_between(
    alloc: Global,
    descriptors: &[Descriptor],
    from: Hlc,
    end: Hlc,
    copies: &mut Vec<Descriptor>,
) -> Result<(), Memory>
    ensures more { OnOk result (copies.new.items ≡ copies.old.items ++ filter (λ d. is_between from (At end) d.modified) descriptors.now) }
    ensures proper { OnOk result (AllByRecursion IsProperSchema copies.old.items → AllByRecursion IsProperSchema copies.new.items) }
{
    for d in descriptors {
        push_if_between(alloc, d, from, end, copies)?;
    }
    Ok(())
}

fn layer_descriptors(
    alloc: Global,
    catalog: &Catalog,
    history: bool,
    floor: Hlc,
    end: Hlc,
    id: u32,
) -> Result<Vec<Descriptor>, Memory>
    ensures copies { IfOk result (λ v. v.items ≡ layer_descriptors history floor end (history_of catalog.now id)) }
    ensures proper { IfOk result (λ v. AllByRecursion IsProperSchema v.items) }
{
    let mut copies = Vec::new(alloc);
    if !history {
        push_at(alloc, catalog, id, end, &mut copies)?;
        return Ok(copies);
    }
    push_at(alloc, catalog, id, floor, &mut copies)?;
    push_between(alloc, catalog.history(id), floor, end, &mut copies)?;
    Ok(copies)
}

fn part_of(
    alloc: Global,
    catalog: &Catalog,
    history: bool,
    floor: Hlc,
    end: Hlc,
    plan: &TablePlan,
) -> Result<TablePart, Memory>
    ensures part { IfOk result (λ part. part ≡ part_of catalog.now history floor end plan.now) }
    ensures proper { IfOk result (λ part. AllByRecursion IsProperSchema part.descriptors) }
{
    let descriptors = layer_descriptors(alloc, catalog, history, floor, end, plan.id)?;
    Ok(TablePart {
        id: plan.id,
        introduced: plan.introduced,
        descriptors: Items::from_vec(descriptors),
        chunks: Items::from_vec(Vec::new(alloc)),
    })
}

fn parts_of(
    alloc: Global,
    catalog: &Catalog,
    history: bool,
    floor: Hlc,
    end: Hlc,
    plans: &[TablePlan],
) -> Result<Vec<TablePart>, Memory>
    ensures parts { IfOk result (λ parts. parts.items ≡ map (part_of catalog.now history floor end) plans.now) }
    ensures proper { IfOk result (λ parts. AreProper parts.items) }
{
    let mut parts = Vec::new(alloc);
    for plan in plans {
        parts.push(part_of(alloc, catalog, history, floor, end, plan)?)?;
    }
    Ok(parts)
}

/// The manifest of a layer by its name and its plan, in version 2, without chunks.
pub fn bare_manifest(
    alloc: Global,
    name: &LayerName,
    history: bool,
    scope: Scope,
    plan: &LayerPlan,
    catalog: &Catalog,
) -> Result<Manifest, Memory>
    ensures manifest { IfOk result (λ m. m ≡ bare_manifest name.now history scope plan.now catalog.now) }
    ensures proper { IfOk result (λ m. AreProper m.tables) }
{
    let cluster = name.cluster.copy(alloc)?;
    let plans = plan.tables.as_slice();
    let parts = parts_of(alloc, catalog, history, plan.floor, name.end, plans)?;
    Ok(Manifest {
        cluster,
        job: name.job,
        full: name.full,
        start: name.start,
        end: name.end,
        floor: plan.floor,
        history,
        scope,
        tables: Items::from_vec(parts),
        version: 2,
    })
}
