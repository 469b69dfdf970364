//! The reply that tells an answer in a text.
ghost use Rattle.std.specs.Prelude.{◌≡◌, ◌++◌, ℕ, List, OnOk, OnErr};
ghost use Rattle.cue_replica.specs.Answers.{of_text};
ghost use Rattle.cue_wire.specs.Serving.{IsRequestAnswered, IsReply, told_bytes};

use crate::page::Page;
use crate::reply::{accept, refuse};
use cue_replica::{Kind, Memory, Refusal, Replica, Status, TextQuestion, write_answer};
use std::alloc::Global;

/// Adds the reply to a question whose answer is a text. The text goes to a page while it is made,
/// and no more of it is made than the page holds.
///
/// # Errors
///
/// `Memory`, and then nothing is added.
pub fn add_text_reply(
    alloc: Global,
    question: TextQuestion,
    site: &Replica,
    out: &mut Vec<u8>,
) -> Result<(), Memory>
    ensures ok { OnOk result ((reply : List ℕ) × IsRequestAnswered (of_text question) site.now reply
        × (out.new.items ≡ out.old.items ++ reply)) }
    ensures err { OnErr result (out.new.items ≡ out.old.items) }
{
    let mut page = Page::new(alloc);
    match write_answer(alloc, question, site, &mut page) {
        Ok(status) => accept_answer(question, status, page.bytes(), out),
        Err(_) if page.is_full() => refuse(out, Refusal::at(Kind::ReplyTooLong, 0)),
        Err(memory) => Err(memory),
    }
}

/// Adds the reply that tells an answer of these bytes, or that it is too long.
fn accept_answer(
    question: TextQuestion,
    status: Status,
    bytes: &[u8],
    out: &mut Vec<u8>,
) -> Result<(), Memory>
    ensures ok { OnOk result ((reply : List ℕ) × IsReply (told_bytes (of_text question) bytes.now status) reply
        × (out.new.items ≡ out.old.items ++ reply)) }
    ensures err { OnErr result (out.new.items ≡ out.old.items) }
{
    match question {
        TextQuestion::Export => accept(out, &[status.code()], bytes),
        _ => accept(out, &[], bytes),
    }
}
