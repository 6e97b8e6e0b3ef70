//! Answers each reply, spelled as the name of its variant and its fields, by the text that it has.
#![tactic(auto)]

mod answers;
mod fields;
mod refusals;

use case_suites::{Answers, run_suites};
use fields::field;
use mvcc_keys::Memory;
use reply_texts::{Reply, Response};
use std::alloc::Global;
use std::io;
use std::process::ExitCode;

/// Spells replies.
#[derive(Drop)]
struct Replies {}

/// The reply of a line, with items in the lines after it.
fn response(alloc: Global, line: &str, items: &str) -> Result<Option<Response>, Memory> {
    if field(line, 0) == "refused" {
        return Ok(refusals::refusal(alloc, line)?.map(Response::Refused));
    }
    Ok(answers::answer(alloc, line, items)?.map(Response::Answered))
}

fn put_reply(alloc: Global, response: Response, out: &mut String) -> Result<(), Memory> {
    let reply = Reply::new(alloc, response)?;
    Ok(out.push_str(str::from_utf8(reply.text.as_slice()).unwrap_or("no UTF-8\n"))?)
}

impl Answers for Replies {
    fn set(&mut self, _alloc: Global, _setting: &str) -> Result<(), Memory> {
        Ok(())
    }

    fn answer(&mut self, alloc: Global, input: &[u8], out: &mut String) -> Result<(), Memory> {
        let text = str::from_utf8(input).unwrap_or("");
        let (line, items) = text.split_once('\n').unwrap_or((text, ""));
        match response(alloc, line, items)? {
            Some(response) => put_reply(alloc, response, out),
            None => Ok(out.push_str("unknown\n")?),
        }
    }
}

fn main(rt: HostRuntime) -> io::Result<ExitCode> {
    run_suites(&rt, &mut Replies {})
}
