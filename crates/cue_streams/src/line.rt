use anyhow::{Context, anyhow};
use serde_json::Value;
use std::alloc::Global;

/// How a stream ends.
#[derive(Clone, Copy, Debug, PartialEq, Eq)]
pub enum End {
    /// Between two frames.
    Whole,
    /// Within a frame.
    Cut,
    /// At a length that no frame has.
    TooLong,
}

/// A stream of requests, and what it must come to.
#[derive(Drop)]
pub struct Line {
    pub requests: Vec<u8>,
    pub replies: Vec<u8>,
    pub end: End,
    /// The status of an export afterwards, and its bytes.
    pub status: u64,
    pub output: String,
}

impl Line {
    /// Reads a line.
    pub fn read(alloc: Global, text: &str) -> anyhow::Result<Line> {
        let line = Value::from_str(alloc, text)?;
        let export = line
            .get("export")
            .and_then(Value::as_array)
            .context("a line without an export")?;
        let [status, output] = export.as_slice() else {
            return Err(anyhow!("an export that isn't a status and an output"));
        };
        let output = output.as_str().context("an output that is no text")?;
        Ok(Line {
            requests: bytes_at(alloc, &line, "stream")?,
            replies: bytes_at(alloc, &line, "replies")?,
            end: end_of(&line)?,
            status: status.as_u64().context("a status that is no number")?,
            output: String::from_str(alloc, output)?,
        })
    }
}

/// The bytes that stand under a name in hexadecimal.
fn bytes_at(alloc: Global, line: &Value, name: &str) -> anyhow::Result<Vec<u8>> {
    let digits = line
        .get(name)
        .and_then(Value::as_str)
        .context("a line without one of its streams")?;
    Ok(hex::decode(alloc, digits)?)
}

/// How the stream of a line ends.
fn end_of(line: &Value) -> anyhow::Result<End> {
    match line.get("ends").and_then(Value::as_str) {
        Some("whole") => Ok(End::Whole),
        Some("cut") => Ok(End::Cut),
        Some("FrameTooLong") => Ok(End::TooLong),
        _ => Err(anyhow!("a line without an end")),
    }
}
