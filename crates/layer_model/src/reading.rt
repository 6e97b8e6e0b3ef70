//! Names of objects, read.
ghost use Rattle.std.specs.Prelude.{◌≡◌, ◌-◌, ◌≤◌, IfOk, length, option_map};
ghost use Rattle.std.specs.List.{list_all, take_while};
ghost use Rattle.mvcc_keys.specs.TimeTexts.{are_digits};
ghost use Rattle.layer_model.specs.Names.{IsNameOf, digit_value, is_lower_digit, is_no_point, read_job, read_job_field, read_name, read_numbers, read_numbered, read_part, read_six, read_time, read_time_field, read_word};

use crate::{LayerName, ObjectName, Part};
use hex::FromHex;
use mvcc_keys::{Hlc, Memory, Text, take_time};
use std::alloc::Global;
use table_descriptors::Name;

fn word_len(b: &[u8]) -> usize
    ensures { result ≡ length (take_while is_no_point b.now) }
{
    b.iter().take_while(|x| **x != b'.').count()
}

/// The bytes before the first point, and those after it.
#[tactic(auto, unfolding(crate::specs::Names::read_word))]
fn read_word(b: &[u8]) -> Option<(&[u8], &[u8])>
    ensures { option_map (λ p. (p.0.now, p.1.now)) result ≡ read_word b.now }
{
    let len = word_len(b);
    if len >= b.len() {
        return None;
    }
    let (word, rest) = b.split_at(len);
    Some((word, rest.split_at(1).1))
}

fn is_lower_digit(b: u8) -> bool
    ensures { result ≡ is_lower_digit b }
{
    48 <= b && b <= 57 || 97 <= b && b <= 102
}

fn are_lower_digits(digits: &[u8]) -> bool
    ensures { result ≡ list_all is_lower_digit digits.now }
{
    digits.iter().all(|d| is_lower_digit(*d))
}

#[tactic(auto, unfolding(crate::specs::Names::read_time, crate::specs::Names::read_hex))]
fn read_time(digits: &[u8]) -> Option<Hlc>
    ensures { result ≡ read_time digits.now }
{
    if !are_lower_digits(digits) {
        return None;
    }
    match <[u8; 12]>::from_hex(digits) {
        Ok(bytes) => match take_time(&bytes) {
            Some((t, _)) => Some(t),
            None => None,
        },
        Err(_) => None,
    }
}

#[tactic(auto, unfolding(crate::specs::Names::read_job, crate::specs::Names::read_hex, mvcc_keys::specs::Codes::number32))]
fn read_job(digits: &[u8]) -> Option<u32>
    ensures { result ≡ read_job digits.now }
{
    if !are_lower_digits(digits) {
        return None;
    }
    match <[u8; 4]>::from_hex(digits) {
        Ok(bytes) => Some(u32::from_be_bytes(bytes)),
        Err(_) => None,
    }
}

fn digit_value(b: u8) -> u32
    ensures value { result ≡ digit_value b }
    ensures bound { result ≤ 255 }
{
    u32::from(b.saturating_sub(48))
}

fn are_digits(digits: &[u8]) -> bool
    ensures { result ≡ are_digits digits.now }
{
    digits.iter().all(|d| 48 <= *d && *d <= 57)
}

/// The number that six decimal digits write.
#[tactic(auto, unfolding(crate::specs::Names::read_six))]
fn read_six(ds: &[u8]) -> Option<u32>
    ensures { result ≡ read_six ds.now }
{
    if ds.len() != 6 || !are_digits(ds) {
        return None;
    }
    Some(
        100000 * digit_value(ds[0])
            + 10000 * digit_value(ds[1])
            + 1000 * digit_value(ds[2])
            + 100 * digit_value(ds[3])
            + 10 * digit_value(ds[4])
            + digit_value(ds[5]),
    )
}

/// A chunk or a mark.
fn read_numbered(text: &[u8]) -> Option<Part>
    ensures { result ≡ read_numbered text.now }
{
    match text.split_first() {
        Some((b'c', digits)) => read_six(digits).map(Part::Chunk),
        Some((b'm', digits)) => read_six(digits).map(Part::Mark),
        _ => None,
    }
}

#[tactic(auto, unfolding(crate::specs::Names::read_part))]
fn read_part(text: &[u8]) -> Option<Part>
    ensures { result ≡ read_part text.now }
{
    if text == b"gate".as_slice() {
        Some(Part::Gate)
    } else if text == b"manifest".as_slice() {
        Some(Part::Manifest)
    } else {
        read_numbered(text)
    }
}

/// What follows the collection and the cluster in a name.
#[derive(Clone, Copy)]
struct Numbers {
    full: Hlc,
    start: Hlc,
    end: Hlc,
    job: u32,
    part: Part,
}

/// A time, a point, and what follows.
#[tactic(auto, unfolding(crate::specs::Names::read_time_field))]
fn read_time_field(b: &[u8]) -> Option<(Hlc, &[u8])>
    ensures { option_map (λ p. (p.0, p.1.now)) result ≡ read_time_field b.now }
{
    let (word, rest) = read_word(b)?;
    let t = read_time(word)?;
    Some((t, rest))
}

/// A job, a point, and what follows.
#[tactic(auto, unfolding(crate::specs::Names::read_job_field))]
fn read_job_field(b: &[u8]) -> Option<(u32, &[u8])>
    ensures { option_map (λ p. (p.0, p.1.now)) result ≡ read_job_field b.now }
{
    let (word, rest) = read_word(b)?;
    let job = read_job(word)?;
    Some((job, rest))
}

#[tactic(auto, unfolding(crate::specs::Names::read_numbers))]
fn read_numbers(b: &[u8]) -> Option<Numbers>
    ensures { result ≡ read_numbers b.now }
{
    let Some((full, rest)) = read_time_field(b) else {
        return None;
    };
    let Some((start, rest)) = read_time_field(rest) else {
        return None;
    };
    let Some((end, rest)) = read_time_field(rest) else {
        return None;
    };
    let Some((job, rest)) = read_job_field(rest) else {
        return None;
    };
    let Some(part) = read_part(rest) else {
        return None;
    };
    Some(Numbers {
        full,
        start,
        end,
        job,
        part,
    })
}

#[tactic(auto, unfolding(crate::specs::Names::read_name))]
fn read_object(alloc: Global, text: &Text) -> Result<Option<ObjectName>, Memory>
    ensures { IfOk result (λ n. n ≡ read_name text.now) }
{
    let Some((collection, rest)) = read_word(text.as_bytes()) else {
        return Ok(None);
    };
    let Some((cluster, rest)) = read_word(rest) else {
        return Ok(None);
    };
    let Some(numbers) = read_numbers(rest) else {
        return Ok(None);
    };
    let Some(collection) = Name::parse(alloc, collection)? else {
        return Ok(None);
    };
    let Some(cluster) = Name::parse(alloc, cluster)? else {
        return Ok(None);
    };
    let layer = LayerName {
        collection,
        cluster,
        full: numbers.full,
        start: numbers.start,
        end: numbers.end,
        job: numbers.job,
    };
    Ok(Some(ObjectName {
        layer,
        part: numbers.part,
    }))
}

/// The object whose name a text is, None where it is no object's name.
#[tactic(auto, using(crate::proofs::NameLaws::read_names))]
pub fn read_name(alloc: Global, text: &Text) -> Result<Option<ObjectName>, Memory>
    ensures value { IfOk result (λ n. n ≡ read_name text.now) }
    ensures name { IfOk result (IsNameOf text.now) }
{
    read_object(alloc, text)
}
