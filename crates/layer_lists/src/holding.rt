//! What a site holds in the end, against what it must hold.
use anyhow::{Context, anyhow};
use cue_layers::{Layer, LayerKind, Layers, LayersRefusal, Replica};
use cue_layers_why::{why, why_lines};
use cue_places::read_path;
use cue_replica::{SiteQuestion, answer_to, to_printed};
use serde_json::Value;
use std::alloc::Global;

/// What is asked of a view, with its name in lists.
const QUESTIONS: [(SiteQuestion, &str); 3] = [
    (SiteQuestion::Export, "export"),
    (SiteQuestion::Report, "report"),
    (SiteQuestion::Print, "print"),
];

/// What of a site differs from what it must hold, in words.
pub fn differences(
    alloc: Global,
    site: &Layers,
    owed: &Value,
    limit: u64,
) -> anyhow::Result<Vec<&'static str>> {
    let mut found = Vec::new(alloc);
    let bytes = site.write(alloc).ok().context("out of memory")?;
    if text_in(owed, "layers")? != hex::encode(alloc, bytes.as_slice())?.as_str() {
        found.push("the layers bytes are others")?;
    }
    if !has_names(site.entries(), list_in(owed, "names")?)? {
        found.push("the names or revisions are others")?;
    }
    for (question, name) in QUESTIONS {
        if !answers(alloc, site, limit, question, list_in(owed, name)?)? {
            found.push(name)?;
        }
    }
    for asked in list_in(owed, "why")? {
        if !is_why(alloc, site, asked)? {
            found.push("why is another")?;
        }
    }
    Ok(found)
}

fn text_in<'v>(value: &'v Value, name: &str) -> anyhow::Result<&'v str> {
    value
        .get(name)
        .and_then(Value::as_str)
        .context("a site without one of its texts")
}

fn list_in<'v>(value: &'v Value, name: &str) -> anyhow::Result<&'v [Value]> {
    let list = value
        .get(name)
        .and_then(Value::as_array)
        .context("a site without one of its lists")?;
    Ok(list.as_slice())
}

/// Whether these are the layers, each with its kind, its name and its revision.
fn has_names(layers: &[Layer], owed: &[Value]) -> anyhow::Result<bool> {
    if layers.len() != owed.len() {
        return Ok(false);
    }
    for (layer, owed) in layers.iter().zip(owed) {
        let parts = owed.as_array().context("a name that is no list")?;
        let [kind, name, revision] = parts.as_slice() else {
            return Err(anyhow!("a name of another form"));
        };
        let is_owed = kind.as_str() == Some(word_of(layer.kind))
            && name.as_str() == Some(layer.name.as_str())
            && revision.as_u64() == Some(layer.revision);
        if !is_owed {
            return Ok(false);
        }
    }
    Ok(true)
}

fn word_of(kind: LayerKind) -> &'static str {
    match kind {
        LayerKind::Layer => "layer",
        LayerKind::Policy => "policy",
    }
}

/// Whether the view answers a question so: by a status and an output.
fn answers(
    alloc: Global,
    site: &Layers,
    limit: u64,
    question: SiteQuestion,
    owed: &[Value],
) -> anyhow::Result<bool> {
    let [status, output] = owed else {
        return Err(anyhow!("an answer that isn't a status and an output"));
    };
    let (status, output) = (status.as_u64(), output.as_str());
    match site.view(alloc, limit) {
        Ok(view) => {
            let (code, bytes) = answer_of(alloc, question, &view)?;
            Ok(
                status == Some(u64::from(code))
                    && output.map(str::as_bytes) == Some(bytes.as_slice()),
            )
        }
        Err(LayersRefusal::ViewTooLarge) => {
            Ok(status == Some(1) && output == Some("refused 30 ViewTooLarge at 0\n"))
        }
        Err(_) => Err(anyhow!("out of memory")),
    }
}

/// What is printed of a view, and the exit status.
fn answer_of(
    alloc: Global,
    question: SiteQuestion,
    view: &Replica,
) -> anyhow::Result<(u8, Vec<u8>)> {
    let answer = answer_to(alloc, question, view)
        .ok()
        .context("out of memory")?;
    let shown = to_printed(question, answer).ok().context("out of memory")?;
    Ok((shown.status.code(), shown.bytes))
}

/// Whether these are the lines that say why at a path.
fn is_why(alloc: Global, site: &Layers, asked: &Value) -> anyhow::Result<bool> {
    let parts = asked.as_array().context("a question why that is no list")?;
    let [path, lines] = parts.as_slice() else {
        return Err(anyhow!("a question why of another form"));
    };
    let path = path.as_str().context("a path that is no text")?;
    let path = read_path(alloc, path).ok().context("out of memory")?;
    let path = path.context("a path of another form")?;
    let named = why(alloc, site, path.as_slice())
        .ok()
        .context("out of memory")?;
    let found = why_lines(alloc, named.as_slice())
        .ok()
        .context("out of memory")?;
    Ok(lines.as_str() == Some(found.as_str()))
}
