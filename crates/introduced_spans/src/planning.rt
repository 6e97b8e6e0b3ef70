//! The plan of a layer.
ghost use Rattle.std.specs.Prelude.{◌≡◌, ◌&&◌, not, None, IfOk, IfErr, if◌then◌else◌};
ghost use Rattle.mvcc_keys.specs.Times.{time_lt};
ghost use Rattle.introduced_spans.specs.Spans.{is_introduced, threshold_of, greatest_threshold, start_collected, end_collected, fault_of, plan_of, layer_plan, plan_fault, FaultIs};

use crate::plans::{LayerPlan, PlanFault, Span, Threshold};
use crate::publicity::later;
use crate::tables::{
    introduced_of, is_introduced, members_of, scope_ids, table_plans, threshold_of,
};
use mvcc_keys::{Hlc, Items};
use schema_catalog::Catalog;
use std::alloc::Global;
use table_descriptors::Scope;

/// The greatest of the start and the thresholds of some tables.
fn greatest_threshold(thresholds: &[Threshold], start: Hlc, ids: &[u32]) -> Hlc
    ensures { result ≡ greatest_threshold (threshold_of thresholds.now) start ids.now }
{
    let mut floor = start;
    for id in ids {
        floor = later(floor, threshold_of(thresholds, *id));
    }
    floor
}

fn floor_of(history: bool, thresholds: &[Threshold], start: Hlc, introduced: &[u32]) -> Hlc
    ensures { result ≡ (if history then greatest_threshold (threshold_of thresholds.now) start introduced.now else start) }
{
    if history {
        greatest_threshold(thresholds, start, introduced)
    } else {
        start
    }
}

/// Whether a table that earlier layers hold is collected after the start.
fn is_start_collected(catalog: &Catalog, span: &Span, thresholds: &[Threshold], id: u32) -> bool
    ensures { result ≡ (not (is_introduced catalog.now.tables span.now.start span.now.end id) && time_lt span.now.start (threshold_of thresholds.now id)) }
{
    !is_introduced(catalog, span.start, span.end, id) && span.start < threshold_of(thresholds, id)
}

fn start_collected(
    catalog: &Catalog,
    span: &Span,
    thresholds: &[Threshold],
    members: &[u32],
) -> Option<PlanFault>
    ensures { result ≡ start_collected catalog.now.tables span.now (threshold_of thresholds.now) members.now }
{
    match members
        .iter()
        .find(|id| is_start_collected(catalog, span, thresholds, **id))
    {
        Some(id) => Some(PlanFault::StartCollected {
            table: *id,
            threshold: threshold_of(thresholds, *id),
            start: span.start,
        }),
        None => None,
    }
}

fn end_collected(end: Hlc, thresholds: &[Threshold], introduced: &[u32]) -> Option<PlanFault>
    ensures { result ≡ end_collected end (threshold_of thresholds.now) introduced.now }
{
    match introduced
        .iter()
        .find(|id| end < threshold_of(thresholds, **id))
    {
        Some(id) => Some(PlanFault::Collected {
            table: *id,
            threshold: threshold_of(thresholds, *id),
        }),
        None => None,
    }
}

/// The first test that refuses a layer.
fn fault_of(
    catalog: &Catalog,
    span: &Span,
    thresholds: &[Threshold],
    members: &[u32],
    introduced: &[u32],
) -> Option<PlanFault>
    ensures { result ≡ fault_of catalog.now.tables span.now (threshold_of thresholds.now) members.now introduced.now }
{
    match start_collected(catalog, span, thresholds, members) {
        Some(fault) => Some(fault),
        None => end_collected(span.end, thresholds, introduced),
    }
}

/// The plan of a layer with these members, unless a test refuses it.
fn plan_members(
    alloc: Global,
    catalog: &Catalog,
    span: &Span,
    thresholds: &[Threshold],
    members: &[u32],
    introduced: &[u32],
) -> Result<LayerPlan, PlanFault>
    ensures planned { IfOk result (λ plan. plan ≡ plan_of catalog.now.tables span.now members.now) }
    ensures allowed { IfOk result (λ _. fault_of catalog.now.tables span.now (threshold_of thresholds.now) members.now introduced.now ≡ None) }
    ensures fault { IfErr result (λ e. FaultIs e (fault_of catalog.now.tables span.now (threshold_of thresholds.now) members.now introduced.now)) }
{
    if let Some(fault) = fault_of(catalog, span, thresholds, members, introduced) {
        return Err(fault);
    }
    let plans = table_plans(alloc, catalog, members, span)?;
    Ok(LayerPlan {
        floor: span.floor,
        tables: Items::from_vec(plans),
    })
}

/// The plan of a layer over the tables of a scope, from its start to its end, with history or
/// without. The threshold of a table is that of the first entry with its id, or the clock's first
/// time where there is none.
#[tactic(auto, unfolding(crate::specs::Spans::layer_plan, crate::specs::Spans::plan_fault, crate::specs::Spans::span_of, crate::specs::Spans::members_of, crate::specs::Spans::introduced_ids))]
pub fn plan_layer(
    alloc: Global,
    catalog: &Catalog,
    scope: &Scope,
    start: Hlc,
    end: Hlc,
    history: bool,
    thresholds: &[Threshold],
) -> Result<LayerPlan, PlanFault>
    ensures planned { IfOk result (λ plan. plan ≡ layer_plan catalog.now.tables scope.now start end history (threshold_of thresholds.now)) }
    ensures allowed { IfOk result (λ _. plan_fault catalog.now.tables scope.now start end history (threshold_of thresholds.now) ≡ None) }
    ensures fault { IfErr result (λ e. FaultIs e (plan_fault catalog.now.tables scope.now start end history (threshold_of thresholds.now))) }
{
    let ids = scope_ids(alloc, catalog, scope)?;
    let introduced = introduced_of(alloc, catalog, &ids, start, end)?;
    let floor = floor_of(history, thresholds, start, &introduced);
    let span = Span {
        start,
        end,
        floor,
        history,
    };
    let members = members_of(alloc, catalog, &ids, &span)?;
    plan_members(alloc, catalog, &span, thresholds, &members, &introduced)
}
