//! Runs that are stopped, and run again over what is left.
use crate::objects::{are_same, copy_objects};
use crate::plan::Plan;
use crate::runs::{Ran, put_calls, run_over, run_whole};
use mvcc_keys::{Blob, Memory, Text};
use outside_world::MemoryDisk;
use std::alloc::Global;

/// What is left of touched bytes.
#[derive(Clone, Copy)]
enum Image {
    Absent,
    Whole,
    Half,
}

const IMAGES: &[(Image, &str)] = &[
    (Image::Absent, "absent"),
    (Image::Whole, "whole"),
    (Image::Half, "half"),
];

fn left_of(bytes: &[u8], image: Image) -> Option<&[u8]> {
    match image {
        Image::Absent => None,
        Image::Whole => Some(bytes),
        Image::Half => Some(bytes.split_at(bytes.len() / 2).0),
    }
}

fn is_touched(disk: &MemoryDisk, name: &Text) -> bool {
    disk.touched()
        .iter()
        .any(|touched| touched.as_str() == name.as_str())
}

/// The bytes of the last object of this name.
fn bytes_of<'a>(objects: &'a [(Text, Blob)], name: &Text) -> Option<&'a [u8]> {
    let found = objects
        .iter()
        .rev()
        .find(|object| object.0.as_str() == name.as_str())?;
    Some(found.1.as_slice())
}

/// What a crash may leave: what isn't touched stays, and of each touched name what it holds, or, once
/// it is removed, what it held.
fn image_of(
    alloc: Global,
    disk: &MemoryDisk,
    seen: &[(Text, Blob)],
    image: Image,
) -> Result<Vec<(Text, Blob)>, Memory> {
    let mut objects = Vec::new(alloc);
    for (name, bytes) in disk.held() {
        if !is_touched(disk, name) {
            objects.push((name.copy(alloc)?, bytes.copy(alloc)?))?;
        }
    }
    for name in disk.touched() {
        let left = bytes_of(seen, name).and_then(|bytes| left_of(bytes, image));
        if let Some(left) = left {
            objects.push((name.copy(alloc)?, Blob::copy_of(alloc, left)?))?;
        }
    }
    Ok(objects)
}

/// Appends the calls of a run over what is left, and how it ends otherwise than the whole run.
fn put_again(plan: &Plan, again: &Ran, whole: &Ran, out: &mut String) -> Result<(), Memory> {
    if again.code != whole.code || again.text.as_slice() != whole.text.as_slice() {
        out.push_str(" OTHER REPLIES")?;
    }
    if !are_same(again.disk.held(), whole.disk.held()) {
        out.push_str(" OTHER OBJECTS")?;
    }
    put_calls(&again.disk, plan.front.as_str(), out)
}

/// Runs again over an image, and answers whether what is then told is not what the line had, which
/// becomes that.
fn tells_more(
    alloc: Global,
    plan: &Plan,
    script: &[u8],
    left: Vec<(Text, Blob)>,
    whole: &Ran,
    line: &mut String,
) -> Result<bool, Memory> {
    let again = run_over(alloc, plan, script, left, None)?;
    let mut text = String::new(alloc);
    put_again(plan, &again, whole, &mut text)?;
    let is_new = text.as_str() != line.as_str();
    *line = text;
    Ok(is_new)
}

/// What the stops so far came to: the line of each image, and all objects that were held.
#[derive(Drop)]
struct Stops {
    lines: Vec<String>,
    seen: Vec<(Text, Blob)>,
}

/// Appends the lines of the runs after a stop that are not those after the stop before, and answers
/// whether the stop came after all calls.
fn put_stop(
    alloc: Global,
    plan: &Plan,
    script: &[u8],
    whole: &Ran,
    stop: u64,
    stops: &mut Stops,
    out: &mut String,
) -> Result<bool, Memory> {
    let stopped = run_whole(alloc, plan, script, Some(stop))?;
    copy_objects(alloc, stopped.disk.held(), &mut stops.seen)?;
    for ((image, name), line) in IMAGES.iter().zip(&mut stops.lines) {
        let left = image_of(alloc, &stopped.disk, &stops.seen, *image)?;
        if tells_more(alloc, plan, script, left, whole, line)? {
            let calls = line.as_str();
            write!(out, "stop {stop} {name}:{calls}")?;
        }
    }
    Ok(stopped.code == whole.code)
}

/// Stops a run after each of its calls.
pub fn put_stops(
    alloc: Global,
    plan: &Plan,
    script: &[u8],
    whole: &Ran,
    out: &mut String,
) -> Result<(), Memory> {
    let mut lines = Vec::new(alloc);
    for _ in IMAGES {
        lines.push(String::new(alloc))?;
    }
    let mut stops = Stops {
        lines,
        seen: Vec::new(alloc),
    };
    for stop in 0..10_000 {
        if put_stop(alloc, plan, script, whole, stop, &mut stops, out)? {
            break;
        }
    }
    Ok(())
}
