//! Names of objects.
use crate::words::{first_word, id_of};
use layer_model::{LayerName, ObjectName, Part, part_name, read_name, write_name};
use mvcc_keys::{Memory, Text};
use std::alloc::Global;

fn put_part(part: Part, out: &mut String) -> Result<(), Memory> {
    match part {
        Part::Gate => Ok(out.push_str(" gate")?),
        Part::Manifest => Ok(out.push_str(" manifest")?),
        Part::Chunk(number) => Ok(write!(out, " chunk {number}")?),
        Part::Mark(number) => Ok(write!(out, " mark {number}")?),
    }
}

fn put_layer(layer: &LayerName, out: &mut String) -> Result<(), Memory> {
    let full = layer.full;
    let start = layer.start;
    let end = layer.end;
    let job = layer.job;
    write!(
        out,
        "{} {}/{full} from {start} to {end} job {job}",
        layer.collection, layer.cluster
    )?;
    Ok(())
}

/// Appends whether the name of an object, and that of the part of a copy of its layer, are the text.
fn put_names(
    alloc: Global,
    object: &ObjectName,
    text: &str,
    out: &mut String,
) -> Result<(), Memory> {
    if !object.part.is_numbered() {
        return Ok(());
    }
    let name = write_name(alloc, object)?;
    let layer = object.layer.copy(alloc)?;
    let same = name.as_str() == text && is_named(alloc, &layer, object.part, text)?;
    Ok(out.push_str(if same { " again" } else { " other" })?)
}

/// Whether a part of a layer has this name.
fn is_named(alloc: Global, layer: &LayerName, part: Part, text: &str) -> Result<bool, Memory> {
    if !part.is_numbered() {
        return Ok(false);
    }
    let name = part_name(alloc, layer, part)?;
    Ok(name.as_str() == text)
}

/// Reads the name of an object.
pub fn put_object(alloc: Global, text: &str, out: &mut String) -> Result<(), Memory> {
    let name = Text::copy_of(alloc, text)?;
    let Some(object) = read_name(alloc, &name)? else {
        return Ok(out.push_str("no object")?);
    };
    put_layer(&object.layer, out)?;
    put_part(object.part, out)?;
    put_names(alloc, &object, text, out)
}

fn part_of(words: &str) -> Part {
    let (word, number) = first_word(words);
    match word {
        "chunk" => Part::Chunk(id_of(number)),
        "mark" => Part::Mark(id_of(number)),
        "manifest" => Part::Manifest,
        _ => Part::Gate,
    }
}

/// Tells whether a part has a name.
pub fn put_part_of(words: &str, out: &mut String) -> Result<(), Memory> {
    let part = part_of(words);
    Ok(out.push_str(if part.is_numbered() {
        "has a name"
    } else {
        "has no name"
    })?)
}
