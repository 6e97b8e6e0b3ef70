//! What a line reads as.
ghost use Rattle.std.specs.Prelude.{◌≡◌, ◌-◌, ◌+◌, ◌≤◌, length, get_or};
ghost use Rattle.command_lang.specs.declared.limits.TheConstants.{LINE_BYTES_MAX};
ghost use Rattle.command_lang.specs.Lines.{reading, after_blanks, is_skipped_text, column_of, ReadsAs};

use crate::forms::command;
use crate::{Command, LINE_BYTES_MAX, LineFault};
use script_grammar::{Broken, is_blank, tokens};
use std::alloc::Global;

/// What follows the blanks at the front.
fn after_blanks(line: &[u8]) -> &[u8]
    ensures { result.now ≡ after_blanks line.now }
{
    let mut rest = line;
    'blanks: while !rest.is_empty() {
        if !is_blank(rest[0]) {
            return rest;
        }
        rest = rest.split_at(1).1;
    }
    rest
}

/// Nothing, or a comment.
fn is_skipped_text(text: &[u8]) -> bool
    ensures { result ≡ is_skipped_text text.now }
{
    match text {
        [] => true,
        [_] => false,
        [first, second, ..] => *first == b'-' && *second == b'-',
    }
}

/// The place at which a line breaks off, where so many tokens are left.
fn column_of(places: &[usize], left: usize, len: usize) -> usize
    requires { len ≤ LINE_BYTES_MAX }
    ensures { result ≡ column_of places.now left len }
{
    match places.get(places.len().saturating_sub(left)) {
        Some(place) => *place,
        None => len + 1,
    }
}

/// The command of a line, or nothing for a blank line and for a comment. `first` says that no
/// command came before it.
#[tactic(auto, unfolding(crate::specs::Lines::reading))]
pub fn parse_line(alloc: Global, line: &[u8], first: bool) -> Result<Option<Command>, LineFault>
    ensures { ReadsAs result (reading first line.now) }
{
    if line.len() > LINE_BYTES_MAX {
        return Err(LineFault::Wrong {
            column: LINE_BYTES_MAX + 1,
        });
    }
    if is_skipped_text(after_blanks(line)) {
        return Ok(None);
    }
    let (found, places) = tokens(alloc, line)?;
    match command(alloc, first, &found) {
        Ok(command) => Ok(Some(command)),
        Err(Broken::At(left)) => Err(LineFault::Wrong {
            column: column_of(&places, left, line.len()),
        }),
        Err(Broken::Memory) => Err(LineFault::Memory),
    }
}
