//! Questions on lists of layers.
use crate::texts::{put_time, short, time, word};
use chain_resolver::{
    CoverFault, JoinFault, Layer, SpanFault, join, layers_are_ordered, resolve, serves, span,
};
use mvcc_keys::{Hlc, Memory};
use std::alloc::Global;

/// The layer `layer start end`, without history, or `layer start end floor`, with history from the
/// floor on.
fn layer_of(line: &str) -> Layer {
    let start = time(word(line, 1));
    let floor = word(line, 3);
    Layer {
        start,
        end: time(word(line, 2)),
        floor: if floor.is_empty() { start } else { time(floor) },
        history: !floor.is_empty(),
    }
}

fn at(logical: u32) -> Hlc {
    Hlc::new(0, logical).unwrap_or(Hlc::zero())
}

/// Adds `line count without`: so many layers in a line, but for one.
fn put_line(line: &str, layers: &mut Vec<Layer>) -> Result<(), Memory> {
    let without = word(line, 2);
    for start in 0..short(word(line, 1)) {
        if without.is_empty() || start != short(without) {
            layers.push(Layer {
                start: at(start),
                end: at(start.saturating_add(1)),
                floor: at(start),
                history: false,
            })?;
        }
    }
    Ok(())
}

fn put_places(places: &[usize], out: &mut String) -> Result<(), Memory> {
    out.push_str("layers")?;
    for place in places {
        write!(out, " {place}")?;
    }
    Ok(())
}

fn put_times(
    name: &str,
    first: (&str, Hlc),
    second: (&str, Hlc),
    out: &mut String,
) -> Result<(), Memory> {
    out.push_str(name)?;
    out.push_str(first.0)?;
    put_time(first.1, out)?;
    out.push_str(second.0)?;
    put_time(second.1, out)
}

fn put_collected(floor: Hlc, out: &mut String) -> Result<(), Memory> {
    out.push_str("HistoryCollected floor=")?;
    put_time(floor, out)
}

fn put_fault(fault: CoverFault, out: &mut String) -> Result<(), Memory> {
    match fault {
        CoverFault::NotCovered { first, last } => {
            put_times("NotCovered", (" first=", first), (" last=", last), out)
        }
        CoverFault::HistoryCollected { floor } => put_collected(floor, out),
        CoverFault::NeedsHistory { below, above } => {
            put_times("NeedsHistory", (" below=", below), (" above=", above), out)
        }
        CoverFault::Gap { reached, wants } => {
            put_times("Gap", (" reached=", reached), (" wants=", wants), out)
        }
        CoverFault::Memory => Err(Memory),
    }
}

fn put_join_fault(fault: JoinFault, out: &mut String) -> Result<(), Memory> {
    match fault {
        JoinFault::NoChain { from, to } => {
            put_times("NoChain", (" from=", from), (" to=", to), out)
        }
        JoinFault::Memory => Err(Memory),
    }
}

fn put_chain(alloc: Global, layers: &[Layer], t: Hlc, out: &mut String) -> Result<(), Memory> {
    if !layers_are_ordered(layers) {
        return Ok(out.push_str("not ordered")?);
    }
    match resolve(alloc, layers, t) {
        Ok(places) => put_places(&places, out),
        Err(fault) => put_fault(fault, out),
    }
}

fn put_join(
    alloc: Global,
    layers: &[Layer],
    from: Hlc,
    to: Hlc,
    out: &mut String,
) -> Result<(), Memory> {
    if !layers_are_ordered(layers) {
        return Ok(out.push_str("not ordered")?);
    }
    match join(alloc, layers, from, to) {
        Ok(places) => put_places(&places, out),
        Err(fault) => put_join_fault(fault, out),
    }
}

fn put_span(
    alloc: Global,
    layers: &[Layer],
    from: Hlc,
    to: Hlc,
    out: &mut String,
) -> Result<(), Memory> {
    if !layers_are_ordered(layers) {
        return Ok(out.push_str("not ordered")?);
    }
    match span(alloc, layers, from, to) {
        Ok(places) => put_places(&places, out),
        Err(SpanFault::NoSpan) => Ok(out.push_str("NoSpan")?),
        Err(SpanFault::Memory) => Err(Memory),
    }
}

fn put_serving(layers: &[Layer], t: Hlc, out: &mut String) -> Result<(), Memory> {
    out.push_str("serve")?;
    for (place, layer) in layers.iter().enumerate() {
        if serves(layer, t) {
            write!(out, " {place}")?;
        }
    }
    Ok(())
}

/// Answers `resolve time`, `join from to`, `span from to`, or `serves time`.
fn ask(alloc: Global, layers: &[Layer], line: &str, out: &mut String) -> Result<(), Memory> {
    let first = time(word(line, 1));
    let second = time(word(line, 2));
    match word(line, 0) {
        "resolve" => put_chain(alloc, layers, first, out)?,
        "join" => put_join(alloc, layers, first, second, out)?,
        "span" => put_span(alloc, layers, first, second, out)?,
        "serves" => put_serving(layers, first, out)?,
        _ => return Err(Memory),
    }
    Ok(out.push('\n')?)
}

/// Answers the questions of the lines on the layers of the lines before them.
pub fn answer(alloc: Global, lines: &str, out: &mut String) -> Result<(), Memory> {
    let mut layers = Vec::new(alloc);
    for line in lines.split('\n').filter(|line| !line.is_empty()) {
        match word(line, 0) {
            "layer" => layers.push(layer_of(line))?,
            "line" => put_line(line, &mut layers)?,
            _ => ask(alloc, &layers, line, out)?,
        }
    }
    Ok(())
}
