use anyhow::{Context, anyhow};
use cue_replica::{Export, Replica};
use serde_json::Value;
use std::alloc::Global;

/// An input: a text or state bytes.
#[derive(Drop)]
pub enum Input {
    Text(String),
    State(Vec<u8>),
}

/// The inputs of a line.
pub fn inputs_of(alloc: Global, list: &Value) -> anyhow::Result<Vec<Input>> {
    let members = list
        .get("inputs")
        .and_then(Value::as_array)
        .context("a line without inputs")?;
    let mut inputs = Vec::new(alloc);
    for input in members {
        inputs.push(input_of(alloc, input)?)?;
    }
    Ok(inputs)
}

/// A text or a state.
fn input_of(alloc: Global, input: &Value) -> anyhow::Result<Input> {
    if let Some(text) = input.as_str() {
        return Ok(Input::Text(String::from_str(alloc, text)?));
    }
    let digits = input
        .get("hex")
        .and_then(Value::as_str)
        .context("an input that is neither a text nor a state")?;
    Ok(Input::State(hex::decode(alloc, digits)?))
}

/// A new site that has taken the inputs in their order.
pub fn site_of(alloc: Global, inputs: &[Input]) -> anyhow::Result<Replica> {
    let mut site = Replica::new(alloc);
    for input in inputs {
        let taken = match input {
            Input::Text(text) => site.submit(text.as_str()),
            Input::State(bytes) => site.take(bytes.as_slice()),
        };
        if taken.is_err() {
            return Err(anyhow!("an input that is refused"));
        }
    }
    Ok(site)
}

/// Whether it is the document that the line has.
pub fn is_wanted(alloc: Global, found: &Option<Value>, wanted: &Value) -> anyhow::Result<bool> {
    match found {
        None => Ok(wanted.as_str() == Some("none")),
        Some(document) => {
            let found = document.to_string(alloc)?;
            let wanted = wanted.to_string(alloc)?;
            Ok(found.as_str() == wanted.as_str())
        }
    }
}

/// Hands the members of an object to the site as a text, and tells whether the site exports this
/// document then, without a conflict and with nothing missing. Another document than an object is
/// no text.
pub fn reads_back(
    alloc: Global,
    site: &mut Replica,
    document: &Value,
) -> anyhow::Result<Option<bool>> {
    if document.as_object().is_none() {
        return Ok(None);
    }
    let whole = document.to_string(alloc)?;
    let text = whole
        .as_str()
        .strip_prefix('{')
        .and_then(|members| members.strip_suffix('}'))
        .context("an object without braces")?;
    if site.submit(text).is_err() {
        return Ok(Some(false));
    }
    match site.export(alloc).ok().context("out of memory")? {
        Export::Json(exported) => Ok(Some(exported.as_str() == whole.as_str())),
        Export::Conflicts(_) | Export::Incomplete(_) => Ok(Some(false)),
    }
}
