ghost use Rattle.std.specs.Prelude.{◌++◌, IfOk};
ghost use Rattle.cue_replica.specs.Answers.{line_end, of_text, HasBytesAndStatus, IsWholeAnswer};

use crate::answering::write_answer;
use crate::question::{SiteQuestion, Status, TextQuestion};
use crate::replica::Replica;
use cue_lattice::Memory;
use std::alloc::Global;

/// What a site answers: the bytes, and the status of a run that prints them.
#[derive(Debug, Drop)]
pub struct Answer {
    pub bytes: Vec<u8>,
    pub status: Status,
}

/// What the site answers, made whole. Behind a JSON text stands no line break.
///
/// # Errors
///
/// `Memory`.
pub fn answer_to(alloc: Global, question: SiteQuestion, site: &Replica) -> Result<Answer, Memory>
    ensures tells { IfOk result (IsWholeAnswer question site.now) }
{
    match question.as_text() {
        None => Ok(Answer {
            bytes: site.state(alloc)?,
            status: Status::Done,
        }),
        Some(question) => text_to(alloc, question, site),
    }
}

/// The answer to a question as a run prints it: with a line break behind a JSON text.
///
/// # Errors
///
/// `Memory`.
pub fn to_printed(question: SiteQuestion, mut answer: Answer) -> Result<Answer, Memory>
    ensures prints { IfOk result (λ shown.
        HasBytesAndStatus shown (answer.bytes.items ++ line_end question answer.status) answer.status) }
{
    if question == SiteQuestion::Export && answer.status == Status::Done {
        answer.bytes.push(b'\n')?;
    }
    Ok(answer)
}

/// What the site answers in a text.
fn text_to(alloc: Global, question: TextQuestion, site: &Replica) -> Result<Answer, Memory>
    ensures tells { IfOk result (IsWholeAnswer (of_text question) site.now) }
{
    let mut text = String::new(alloc);
    let status = write_answer(alloc, question, site, &mut text)?;
    Ok(Answer {
        bytes: text.into_bytes(),
        status,
    })
}
