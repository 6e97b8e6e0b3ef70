//! The tables of a scope: which are introduced, which are members, and how each is exported.
ghost use Rattle.std.specs.Prelude.{◌≡◌, ◌||◌, map, filter, IfOk};
ghost use Rattle.introduced_spans.specs.Publicity.{public_at, becomes_public_in};
ghost use Rattle.introduced_spans.specs.Spans.{is_in_scope, scope_ids, is_introduced, threshold_of, is_member_over, is_member, plan_by, protected_by, table_plan};

use crate::plans::{Span, TablePlan, Threshold};
use crate::publicity::{becomes_public_in, is_public_in, public_at, upto_of};
use mvcc_keys::{Hlc, Memory};
use range_tombstones::Upto;
use schema_catalog::{Catalog, FIRST_TABLE_ID};
use span_export::Plan;
use std::alloc::Global;
use table_descriptors::{Descriptor, Scope};

fn is_in_scope(catalog: &Catalog, scope: &Scope, id: u32) -> bool
    ensures { result ≡ is_in_scope catalog.now.tables scope.now id }
{
    match scope {
        Scope::Database(name) => match catalog.history(id).first() {
            Some(d) => d.database().is_same(name),
            None => false,
        },
        Scope::Tables(ids) => ids.as_slice().contains(&id),
    }
}

/// The ids of the catalog's tables that the scope has.
#[tactic(auto, unfolding(crate::specs::Spans::scope_ids))]
pub fn scope_ids(alloc: Global, catalog: &Catalog, scope: &Scope) -> Result<Vec<u32>, Memory>
    ensures { IfOk result (λ ids. ids.items ≡ scope_ids catalog.now.tables scope.now) }
{
    let ids = FIRST_TABLE_ID..catalog.next_id();
    Ok(
        ids.filter(|id| is_in_scope(catalog, scope, *id))
            .collect(alloc)?,
    )
}

pub fn is_introduced(catalog: &Catalog, start: Hlc, end: Hlc, id: u32) -> bool
    ensures { result ≡ is_introduced catalog.now.tables start end id }
{
    becomes_public_in(catalog.history(id), start, end)
}

/// Those of some tables that are introduced.
pub fn introduced_of(
    alloc: Global,
    catalog: &Catalog,
    ids: &[u32],
    start: Hlc,
    end: Hlc,
) -> Result<Vec<u32>, Memory>
    ensures { IfOk result (λ v. v.items ≡ filter (is_introduced catalog.now.tables start end) ids.now) }
{
    let introduced = ids
        .iter()
        .copied()
        .filter(|id| is_introduced(catalog, start, end, *id));
    Ok(introduced.collect(alloc)?)
}

/// The threshold of the first entry with the id, or the clock's first time.
pub fn threshold_of(thresholds: &[Threshold], id: u32) -> Hlc
    ensures { result ≡ threshold_of thresholds.now id }
{
    match thresholds.iter().find(|t| t.table == id) {
        Some(t) => t.at,
        None => Hlc::zero(),
    }
}

/// Whether an introduced table is public at the floor, or becomes so later.
fn is_seen(descriptors: &[Descriptor], span: &Span) -> bool
    ensures { result ≡ (public_at descriptors.now span.now.floor || becomes_public_in descriptors.now span.now.floor span.now.end) }
{
    public_at(descriptors, span.floor) || becomes_public_in(descriptors, span.floor, span.end)
}

fn is_member(catalog: &Catalog, span: &Span, id: u32) -> bool
    ensures { result ≡ is_member catalog.now.tables span.now id }
{
    let descriptors = catalog.history(id);
    if !span.history {
        return public_at(descriptors, span.end);
    }
    is_public_in(descriptors, span.start, span.end)
        && (!becomes_public_in(descriptors, span.start, span.end) || is_seen(descriptors, span))
}

/// Those of some tables that the layer has.
pub fn members_of(
    alloc: Global,
    catalog: &Catalog,
    ids: &[u32],
    span: &Span,
) -> Result<Vec<u32>, Memory>
    ensures { IfOk result (λ v. v.items ≡ filter (is_member catalog.now.tables span.now) ids.now) }
{
    let members = ids
        .iter()
        .copied()
        .filter(|id| is_member(catalog, span, *id));
    Ok(members.collect(alloc)?)
}

fn plan_by(introduced: bool, span: &Span, descriptors: &[Descriptor]) -> Plan
    ensures { result ≡ plan_by span.now.history introduced span.now descriptors.now }
{
    let every = span.history;
    let upto = if every {
        upto_of(descriptors, span.end)
    } else {
        Upto::At(span.end)
    };
    if !introduced {
        let after = span.start;
        return Plan::Changes { after, upto, every };
    }
    let floor = if every { span.floor } else { span.end };
    Plan::Whole { floor, upto, every }
}

/// The time from which on a table's facts must be kept while it is exported.
fn protected_by(introduced: bool, span: &Span) -> Hlc
    ensures { result ≡ protected_by span.now.history introduced span.now }
{
    if !introduced {
        return span.start;
    }
    if span.history { span.floor } else { span.end }
}

#[tactic(auto, unfolding(crate::specs::Spans::table_plan))]
fn table_plan(catalog: &Catalog, span: &Span, id: u32) -> TablePlan
    ensures { result ≡ table_plan catalog.now.tables span.now id }
{
    let introduced = is_introduced(catalog, span.start, span.end, id);
    TablePlan {
        id,
        introduced,
        plan: plan_by(introduced, span, catalog.history(id)),
        protected: protected_by(introduced, span),
    }
}

pub fn table_plans(
    alloc: Global,
    catalog: &Catalog,
    members: &[u32],
    span: &Span,
) -> Result<Vec<TablePlan>, Memory>
    ensures { IfOk result (λ v. v.items ≡ map (table_plan catalog.now.tables span.now) members.now) }
{
    let plans = members.iter().map(|id| table_plan(catalog, span, *id));
    Ok(plans.collect(alloc)?)
}
