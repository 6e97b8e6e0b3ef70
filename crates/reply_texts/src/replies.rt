//! Replies: what a command is answered, and its text.
ghost use Rattle.std.specs.Prelude.{◌≡◌, IfOk};
ghost use Rattle.reply_texts.specs.Texts.{reply_text, refusal_of};

use crate::answers::{Answer, put_answer};
use crate::refusals::{Refusal, put_refusal};
use mvcc_keys::{Blob, Memory};
use std::alloc::Global;

/// What a command is answered.
#[derive(Drop)]
pub enum Response {
    Refused(Refusal),
    Answered(Answer),
}

/// What a command is answered, as it is written: the whole text, and the refusal if it is one.
#[derive(Drop)]
pub struct Reply {
    pub refusal: Option<Refusal>,
    pub text: Blob,
}

/// The text of a response.
#[tactic(auto, unfolding(crate::specs::Texts::reply_text))]
fn response_text(alloc: Global, response: &Response) -> Result<Vec<u8>, Memory>
    ensures { IfOk result (λ v. v.items ≡ reply_text response.now) }
{
    let mut text = Vec::new(alloc);
    match response {
        Response::Refused(refusal) => put_refusal(refusal, &mut text)?,
        Response::Answered(answer) => put_answer(answer, &mut text)?,
    }
    Ok(text)
}

fn refusal_of(response: Response) -> Option<Refusal>
    ensures { result ≡ refusal_of response }
{
    match response {
        Response::Refused(refusal) => Some(refusal),
        Response::Answered(_) => None,
    }
}

impl Reply {
    pub fn new(alloc: Global, response: Response) -> Result<Reply, Memory>
        ensures text { IfOk result (λ r. r.text ≡ reply_text response) }
        ensures refusal { IfOk result (λ r. r.refusal ≡ refusal_of response) }
    {
        let text = Blob::from_vec(response_text(alloc, &response)?);
        Ok(Reply {
            refusal: refusal_of(response),
            text,
        })
    }
}
