//! The calls that change a disk, and how they are shown.
ghost use Rattle.std.specs.Prelude.{◌≡◌, ◌++◌, ◌∷◌, [], IfOk, OnOk, string_bytes};
ghost use Rattle.outside_world.specs.CallTexts.{call_text, calls_text, mark_text, with_call};

use mvcc_keys::{Memory, Text};
use std::alloc::Global;

/// A call of a disk as its list of calls shows it.
#[derive(Drop)]
pub enum DiskCall {
    Put(Text),
    Removal(Text),
    Sync,
}

fn put_named(sign: &str, name: &Text, text: &mut String) -> Result<(), Memory>
    ensures { OnOk result (string_bytes text.new ≡ string_bytes text.old ++ (sign.now ++ name.now)) }
{
    text.push_str(sign)?;
    Ok(text.push_str(name.as_str())?)
}

fn put_call(call: &DiskCall, text: &mut String) -> Result<(), Memory>
    ensures { OnOk result (string_bytes text.new ≡ string_bytes text.old ++ call_text call.now) }
{
    match call {
        DiskCall::Put(name) => put_named("+", name, text),
        DiskCall::Removal(name) => put_named("-", name, text),
        DiskCall::Sync => Ok(text.push_str("/")?),
    }
}

fn put_mark(ok: bool, text: &mut String) -> Result<(), Memory>
    ensures { OnOk result (string_bytes text.new ≡ string_bytes text.old ++ mark_text ok) }
{
    Ok(text.push_str(if ok { "" } else { "!" })?)
}

fn add_call(call: &(DiskCall, bool), text: &mut String) -> Result<(), Memory>
    ensures { OnOk result (string_bytes text.new ≡ with_call (string_bytes text.old) call.now) }
{
    text.push_str(" ")?;
    put_call(&call.0, text)?;
    put_mark(call.1, text)
}

/// ` +name` for a put, ` -name` for a removal and ` /` for a sync, with `!` behind one that failed.
pub fn calls_text(alloc: Global, calls: &[(DiskCall, bool)]) -> Result<String, Memory>
    ensures { IfOk result (λ text. string_bytes text ≡ calls_text calls.now) }
{
    let mut text = String::new(alloc);
    for call in calls {
        add_call(call, &mut text)?;
    }
    Ok(text)
}
