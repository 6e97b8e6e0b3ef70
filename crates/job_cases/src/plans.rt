//! Plans of layers over a catalog.
use crate::words::{after, cut, has, name, number, numbers, put_time, time};
use introduced_spans::{LayerPlan, PlanFault, TablePlan, Threshold, plan_layer};
use mvcc_keys::{Hlc, Items, Memory};
use range_tombstones::Upto;
use schema_catalog::Catalog;
use span_export::Plan;
use std::alloc::Global;
use table_descriptors::Scope;

/// The scope `d` of a database, or `100,102` of tables.
pub fn scope(alloc: Global, text: &str) -> Result<Scope, Memory> {
    if text.starts_with('1') {
        return Ok(Scope::Tables(Items::from_vec(numbers(alloc, text)?)));
    }
    Ok(Scope::Database(name(alloc, text)?))
}

/// The thresholds `100:4,101:8.2`.
pub fn thresholds(alloc: Global, text: &str) -> Result<Vec<Threshold>, Memory> {
    let mut thresholds = Vec::new(alloc);
    for word in text.split(',') {
        if let Some((table, at)) = word.split_once(':') {
            thresholds.push(Threshold {
                table: number(table),
                at: time(at),
            })?;
        }
    }
    Ok(thresholds)
}

fn put_upto(upto: Upto, out: &mut String) -> Result<(), Memory> {
    match upto {
        Upto::At(t) => {
            out.push_str(" upto ")?;
            put_time(t, out)
        }
        Upto::Before(t) => {
            out.push_str(" before ")?;
            put_time(t, out)
        }
    }
}

fn put_kind(
    word: &str,
    from: Hlc,
    upto: Upto,
    every: bool,
    out: &mut String,
) -> Result<(), Memory> {
    out.push_str(word)?;
    put_time(from, out)?;
    put_upto(upto, out)?;
    Ok(out.push_str(if every { " every" } else { " newest" })?)
}

fn put_plan(plan: Plan, out: &mut String) -> Result<(), Memory> {
    match plan {
        Plan::Changes { after, upto, every } => put_kind(
            " changes after ",
            after,
            upto,
            every,
            out,
        ),
        Plan::Whole { floor, upto, every } => put_kind(" whole from ", floor, upto, every, out),
    }
}

fn put_table(table: &TablePlan, out: &mut String) -> Result<(), Memory> {
    let id = table.id;
    write!(out, "{id}")?;
    put_plan(table.plan, out)?;
    out.push_str(if table.introduced {
        " introduced"
    } else {
        " held"
    })?;
    out.push_str(" protected ")?;
    put_time(table.protected, out)?;
    Ok(out.push('\n')?)
}

fn put_layer(plan: &LayerPlan, out: &mut String) -> Result<(), Memory> {
    out.push_str("floor ")?;
    put_time(plan.floor, out)?;
    out.push('\n')?;
    for table in plan.tables.as_slice() {
        put_table(table, out)?;
    }
    Ok(())
}

fn put_collected(word: &str, table: u32, threshold: Hlc, out: &mut String) -> Result<(), Memory> {
    write!(out, "{word} {table} threshold ")?;
    put_time(threshold, out)
}

pub fn put_fault(fault: PlanFault, out: &mut String) -> Result<(), Memory> {
    match fault {
        PlanFault::StartCollected {
            table,
            threshold,
            start,
        } => {
            put_collected("StartCollected", table, threshold, out)?;
            out.push_str(" start ")?;
            put_time(start, out)?;
        }
        PlanFault::Collected { table, threshold } => {
            put_collected("Collected", table, threshold, out)?;
        }
        PlanFault::Memory => return Err(Memory),
    }
    Ok(out.push('\n')?)
}

/// `plan d from 0 to 7 history thresholds 101:5`
pub fn answer(
    alloc: Global,
    catalog: &Catalog,
    line: &str,
    out: &mut String,
) -> Result<(), Memory> {
    let scope = scope(alloc, cut(line).0)?;
    let thresholds = thresholds(alloc, after(line, "thresholds"))?;
    let (start, end) = (time(after(line, "from")), time(after(line, "to")));
    let history = has(line, "history");
    match plan_layer(alloc, catalog, &scope, start, end, history, &thresholds) {
        Ok(plan) => put_layer(&plan, out),
        Err(fault) => put_fault(fault, out),
    }
}
