//! Lists of cases, each of which is a line: a JSON object. `inputs` is a list of texts and of
//! states (`{"hex": ".."}`), which are handed on in order as files; `export`, `report`, `print` and
//! `state` are each a list of the exit status and the output, that of a state in hexadecimal.
use crate::lists::site::{Reply, written};
use anyhow::{Context, anyhow};
use cue_program::SiteQuestion;
use serde_json::Value;
use std::alloc::Global;

/// The bytes of each input, as those of a file.
pub fn inputs_of(alloc: Global, list: &Value) -> anyhow::Result<Vec<Vec<u8>>> {
    let members = list
        .get("inputs")
        .and_then(Value::as_array)
        .context("a line without inputs")?;
    let mut inputs = Vec::new(alloc);
    for input in members {
        inputs.push(bytes_of(alloc, input)?)?;
    }
    Ok(inputs)
}

/// The bytes of a text or of a state.
fn bytes_of(alloc: Global, input: &Value) -> anyhow::Result<Vec<u8>> {
    if let Some(text) = input.as_str() {
        return Ok(text.as_bytes().to_vec(alloc)?);
    }
    let digits = input
        .get("hex")
        .and_then(Value::as_str)
        .context("an input that is neither a text nor a state")?;
    Ok(hex::decode(alloc, digits)?)
}

/// Whether the answer is the one that the line has under this name.
pub fn agrees(
    alloc: Global,
    list: &Value,
    name: &str,
    question: SiteQuestion,
    reply: &Reply,
) -> anyhow::Result<bool> {
    let wanted = list
        .get(name)
        .and_then(Value::as_array)
        .context("a line without one of the answers")?;
    let [status, output] = wanted.as_slice() else {
        return Err(anyhow!("an answer that isn't a status and an output"));
    };
    let status = status.as_u64().context("a status that is no number")?;
    let output = output.as_str().context("an output that is no text")?;
    let found = written(alloc, question, reply)?;
    Ok(u64::from(reply.status) == status && found.as_str() == output)
}
