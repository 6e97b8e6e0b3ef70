//! Names of objects, written.
ghost use Rattle.std.specs.Prelude.{◌≡◌, ◌++◌, IfOk, string_bytes};
ghost use Rattle.layer_model.specs.Names.{IsNumbered, job_digits, object_name, part_text, six_digits, time_digits};

use crate::{LayerName, ObjectName, Part};
use mvcc_keys::{Hlc, Memory, Text, put_time};
use std::alloc::Global;

fn time_digits(alloc: Global, t: Hlc) -> Result<String, Memory>
    ensures { IfOk result (λ s. string_bytes s ≡ time_digits t) }
{
    let mut bytes = Vec::new(alloc);
    put_time(t, &mut bytes)?;
    Ok(hex::encode(alloc, bytes.as_slice())?)
}

#[tactic(auto, unfolding(mvcc_keys::specs::Codes::bytes32))]
fn job_digits(alloc: Global, job: u32) -> Result<String, Memory>
    ensures { IfOk result (λ s. string_bytes s ≡ job_digits job) }
{
    Ok(hex::encode(alloc, job.to_be_bytes())?)
}

/// `c` or `m`, and six digits.
fn number_text(alloc: Global, letter: &str, n: u32) -> Result<String, Memory>
    ensures { IfOk result (λ s. string_bytes s ≡ letter.now ++ six_digits n) }
{
    let (a, b, c) = (n / 100000 % 10, n / 10000 % 10, n / 1000 % 10);
    let (d, e, f) = (n / 100 % 10, n / 10 % 10, n % 10);
    Ok(format!(in alloc; "{letter}{a}{b}{c}{d}{e}{f}")?)
}

#[tactic(auto, unfolding(crate::specs::Names::part_text))]
fn part_text(alloc: Global, part: Part) -> Result<String, Memory>
    ensures { IfOk result (λ s. string_bytes s ≡ part_text part) }
{
    match part {
        Part::Gate => Ok(String::from_str(alloc, "gate")?),
        Part::Manifest => Ok(String::from_str(alloc, "manifest")?),
        Part::Chunk(n) => number_text(alloc, "c", n),
        Part::Mark(n) => number_text(alloc, "m", n),
    }
}

/// The name of a part of a layer.
#[tactic(auto, unfolding(crate::specs::Names::object_name))]
pub fn part_name(alloc: Global, layer: &LayerName, part: Part) -> Result<Text, Memory>
    requires { IsNumbered part }
    ensures { IfOk result (λ text. text ≡ object_name layer.now part) }
{
    let full = time_digits(alloc, layer.full)?;
    let start = time_digits(alloc, layer.start)?;
    let end = time_digits(alloc, layer.end)?;
    let job = job_digits(alloc, layer.job)?;
    let part = part_text(alloc, part)?;
    let collection = layer.collection.as_str();
    let cluster = layer.cluster.as_str();
    let text = format!(in alloc; "{collection}.{cluster}.{full}.{start}.{end}.{job}.{part}")?;
    Ok(Text::from_string(text))
}

/// The name of an object.
pub fn write_name(alloc: Global, n: &ObjectName) -> Result<Text, Memory>
    requires { IsNumbered n.now.part }
    ensures { IfOk result (λ text. text ≡ object_name n.now.layer n.now.part) }
{
    part_name(alloc, &n.layer, n.part)
}
