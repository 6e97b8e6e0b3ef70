//! Calls that are stopped, and made again over what is left.
use crate::plan::Plan;
use crate::runs::{memory_disk, put_calls, put_noted};
use mvcc_keys::{Blob, Memory, Text};
use outside_world::MemoryDisk;
use std::alloc::Global;

/// What is left of touched bytes.
#[derive(Clone, Copy)]
enum Image {
    Absent,
    Half,
    Whole,
}

const IMAGES: &[(Image, &str)] = &[
    (Image::Absent, "absent"),
    (Image::Half, "half"),
    (Image::Whole, "whole"),
];

fn left_of(bytes: &[u8], image: Image) -> Option<&[u8]> {
    match image {
        Image::Absent => None,
        Image::Half => Some(bytes.split_at(bytes.len() / 2).0),
        Image::Whole => Some(bytes),
    }
}

fn is_touched(disk: &MemoryDisk, name: &Text) -> bool {
    disk.touched()
        .iter()
        .any(|touched| touched.as_str() == name.as_str())
}

/// What a crash may leave of a disk, with all touched names alike.
fn image_of(alloc: Global, disk: &MemoryDisk, image: Image) -> Result<Vec<(Text, Blob)>, Memory> {
    let mut objects = Vec::new(alloc);
    for (name, bytes) in disk.held() {
        let left = if is_touched(disk, name) {
            left_of(bytes.as_slice(), image)
        } else {
            Some(bytes.as_slice())
        };
        if let Some(left) = left {
            objects.push((name.copy(alloc)?, Blob::copy_of(alloc, left)?))?;
        }
    }
    Ok(objects)
}

fn is_same(object: &(Text, Blob), other: &(Text, Blob)) -> bool {
    object.0.as_str() == other.0.as_str() && object.1.as_slice() == other.1.as_slice()
}

fn are_same(objects: &[(Text, Blob)], others: &[(Text, Blob)]) -> bool {
    let mut all = objects.len() == others.len();
    for (object, other) in objects.iter().zip(others) {
        all = all && is_same(object, other);
    }
    all
}

/// Makes the calls again over an image, and appends the calls of that disk.
fn put_again(
    alloc: Global,
    plan: &Plan,
    lines: &str,
    left: &[(Text, Blob)],
    whole: &MemoryDisk,
    out: &mut String,
) -> Result<(), Memory> {
    let mut answers = String::new(alloc);
    let mut disk = memory_disk(alloc, plan, left, None)?;
    put_calls(alloc, &mut disk, plan, lines, &mut answers)?;
    if !are_same(disk.held(), whole.held()) {
        out.push_str(" OTHER OBJECTS")?;
    }
    put_noted(alloc, disk.calls(), plan.front.as_str(), out)
}

/// Appends the line of an image, unless it is as that of the stop before.
fn put_image(
    alloc: Global,
    plan: &Plan,
    lines: &str,
    head: &str,
    left: &[(Text, Blob)],
    whole: &MemoryDisk,
    before: &mut String,
    out: &mut String,
) -> Result<(), Memory> {
    let mut text = String::new(alloc);
    put_again(alloc, plan, lines, left, whole, &mut text)?;
    if text.as_str() != before.as_str() {
        write!(out, "{head}:{text}")?;
    }
    *before = text;
    Ok(())
}

/// Appends the lines of the runs after a stop that are not those after the stop before, and answers
/// whether the stop came after all calls.
fn put_stop(
    alloc: Global,
    plan: &Plan,
    lines: &str,
    whole: &MemoryDisk,
    stop: u64,
    before: &mut [String],
    out: &mut String,
) -> Result<bool, Memory> {
    let mut answers = String::new(alloc);
    let mut stopped = memory_disk(alloc, plan, &plan.objects, Some(stop))?;
    put_calls(alloc, &mut stopped, plan, lines, &mut answers)?;
    for ((image, name), line) in IMAGES.iter().zip(before) {
        let left = image_of(alloc, &stopped, *image)?;
        let head = format!(in alloc; "stop {stop} {name}")?;
        put_image(alloc, plan, lines, head.as_str(), &left, whole, line, out)?;
    }
    Ok(stopped.calls().len() == whole.calls().len() && stopped.calls().iter().all(|call| call.1))
}

/// Stops the calls after each of them.
pub fn put_stops(
    alloc: Global,
    plan: &Plan,
    lines: &str,
    whole: &MemoryDisk,
    out: &mut String,
) -> Result<(), Memory> {
    let mut before = Vec::new(alloc);
    for _ in IMAGES {
        before.push(String::new(alloc))?;
    }
    for stop in 0..1000 {
        if put_stop(alloc, plan, lines, whole, stop, &mut before, out)? {
            break;
        }
    }
    Ok(())
}
