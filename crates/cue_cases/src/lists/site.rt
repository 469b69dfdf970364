//! One site, what it is handed and what it answers.
use anyhow::{Context, anyhow};
use cue_program::{
    Enough, Input, InputReader, Replica, RunError, SiteQuestion, answer_to, take_file, to_printed,
};
use std::alloc::Global;

/// What a run prints, and its exit status.
#[derive(Drop)]
pub struct Reply {
    pub bytes: Vec<u8>,
    pub status: u8,
}

/// Hands inputs to a site in their order, up to the first that is refused.
pub fn take_all(alloc: Global, site: &mut Replica, inputs: &[Vec<u8>]) -> Result<(), RunError> {
    let mut number = 0usize;
    for bytes in inputs {
        number = number.saturating_add(1);
        let file = Input::<Enough>::begin(alloc, bytes.as_slice())?;
        take_file(site, file, number)?;
    }
    Ok(())
}

/// What the site answers, or in its place the line of the input that was refused.
pub fn answer(
    alloc: Global,
    question: SiteQuestion,
    site: &Replica,
    came: Result<(), RunError>,
) -> anyhow::Result<Reply> {
    match came {
        Ok(()) => {
            let told = answer_to(alloc, question, site)
                .ok()
                .context("out of memory")?;
            let shown = to_printed(question, told).ok().context("out of memory")?;
            Ok(Reply {
                bytes: shown.bytes,
                status: shown.status.code(),
            })
        }
        Err(RunError::RefusedInput(why, input)) => {
            let (number, name, place) = (why.kind.number(), why.kind.name(), why.place);
            let line = format!(in alloc; "refused {number} {name} at {place} in {input}\n")?;
            Ok(Reply {
                bytes: line.into_bytes(),
                status: 1,
            })
        }
        Err(_) => Err(anyhow!("inputs that could not be taken")),
    }
}

/// The output as text: that of a state in hexadecimal.
pub fn written(alloc: Global, question: SiteQuestion, reply: &Reply) -> anyhow::Result<String> {
    if question == SiteQuestion::State && reply.status == 0 {
        return Ok(hex::encode(alloc, reply.bytes.as_slice())?);
    }
    let text = std::str::from_utf8(reply.bytes.as_slice())
        .ok()
        .context("an output that is no text")?;
    Ok(String::from_str(alloc, text)?)
}

/// A document that meets the table of the site, in JSON, or `none`.
pub fn document(alloc: Global, site: &Replica) -> anyhow::Result<String> {
    match site.document(alloc).ok().context("out of memory")? {
        Some(document) => Ok(format!(in alloc; "{}\n", document.to_string(alloc)?)?),
        None => Ok(String::from_str(alloc, "none\n")?),
    }
}
