//! Paths as reports write them, which are read.
ghost use Rattle.std.specs.Prelude.{◌≡◌, ◌<◌, ◌≤◌, length, map, IfOk, IfSome, IsTrue};
ghost use Rattle.cue_row.specs.PathText.{path_text};
ghost use Rattle.cue_row.specs.Steps.{step_of};

use cue_lattice::{Memory, Text};
use cue_row::{Step, push_steps};
use std::alloc::Global;
use std::str;

/// The steps of a path that is written as reports write it, the root as `.`. Nothing is returned for
/// a text that reports write of no path.
///
/// # Errors
///
/// `Memory`.
pub fn read_path(alloc: Global, text: &str) -> Result<Option<Vec<Step>>, Memory>
    ensures { IfOk result (λ found. IfSome found (λ steps.
        path_text (map step_of steps.items) ≡ text.now)) }
{
    match read_steps(alloc, text.as_bytes())? {
        Some(steps) => {
            if is_spelled(alloc, steps.as_slice(), text)? {
                return Ok(Some(steps));
            }
            Ok(None)
        }
        None => Ok(None),
    }
}

/// Whether reports write the path of these steps so.
fn is_spelled(alloc: Global, steps: &[Step], text: &str) -> Result<bool, Memory>
    ensures { IfOk result (λ same. IsTrue same → path_text (map step_of steps.now) ≡ text.now) }
{
    let mut spelled = String::new(alloc);
    push_steps(&mut spelled, steps)?;
    Ok(spelled.as_str() == text)
}

/// The steps of a path, in a looser spelling.
fn read_steps(alloc: Global, text: &[u8]) -> Result<Option<Vec<Step>>, Memory> {
    let mut steps = Vec::new(alloc);
    if text == b".".as_slice() {
        return Ok(Some(steps));
    }
    let mut rest = Some(text);
    while let Some(left) = rest {
        let (front, after) = split_step(left);
        match read_step(alloc, front)? {
            Some(step) => steps.push(step)?,
            None => return Ok(None),
        }
        rest = after;
    }
    Ok(Some(steps))
}

/// The text in front of the first dot that is outside quotation marks, and what follows the dot.
fn split_step(text: &[u8]) -> (&[u8], Option<&[u8]>)
    ensures { IfSome result.1 (λ rest. length rest.now < length text.now) }
{
    let end = step_end(text);
    if end < text.len() {
        return (&text[..end], Some(&text[end + 1..]));
    }
    (text, None)
}

/// Where the first dot is that is outside quotation marks; the length where there is none.
fn step_end(text: &[u8]) -> usize
    ensures { result ≤ length text.now }
{
    let mut is_quoted = false;
    let mut is_escaped = false;
    for (i, &byte) in text.iter().enumerate() {
        if is_escaped {
            is_escaped = false;
        } else if byte == b'"' {
            is_quoted = !is_quoted;
        } else if byte == b'\\' {
            is_escaped = is_quoted;
        } else if byte == b'.' && !is_quoted {
            return i;
        }
    }
    text.len()
}

/// The step that is written so: a quoted label, an index, or a bare label.
fn read_step(alloc: Global, text: &[u8]) -> Result<Option<Step>, Memory> {
    let Ok(text) = str::from_utf8(text) else {
        return Ok(None);
    };
    if let Some(rest) = text.strip_prefix("\"") {
        return quoted_step(alloc, rest);
    }
    if let Ok(number) = text.parse::<u32>() {
        return Ok(Some(Step::Index(number)));
    }
    Ok(Some(Step::Label(Text::from_str(alloc, text)?)))
}

/// The label that is written so behind its first quotation mark.
fn quoted_step(alloc: Global, rest: &str) -> Result<Option<Step>, Memory> {
    let Some(inner) = rest.strip_suffix("\"") else {
        return Ok(None);
    };
    match unescape(alloc, inner)? {
        Some(label) => Ok(Some(Step::Label(Text::new(alloc, label)?))),
        None => Ok(None),
    }
}

/// What was read of an escape.
#[derive(Clone, Copy, Debug, PartialEq, Eq)]
enum Escape {
    /// None has begun.
    None,
    /// The backslash.
    Begun,
    /// `\u` and so many hexadecimal digits of this value.
    Code(u8, u32),
}

/// The text that is written so between quotation marks.
fn unescape(alloc: Global, text: &str) -> Result<Option<String>, Memory> {
    let mut out = String::new(alloc);
    let mut escape = Escape::None;
    for character in text.chars() {
        match read_char(&mut out, escape, character)? {
            Some(next) => escape = next,
            None => return Ok(None),
        }
    }
    if escape != Escape::None {
        return Ok(None);
    }
    Ok(Some(out))
}

/// Reads a character behind what was read of an escape, and returns what is read of one then.
fn read_char(out: &mut String, escape: Escape, character: char) -> Result<Option<Escape>, Memory> {
    match escape {
        Escape::None => {
            if character == '\\' {
                return Ok(Some(Escape::Begun));
            }
            out.push(character)?;
            Ok(Some(Escape::None))
        }
        Escape::Begun => read_escape(out, character),
        Escape::Code(count, value) => read_digit(out, count, value, character),
    }
}

/// Reads the character behind a backslash.
fn read_escape(out: &mut String, character: char) -> Result<Option<Escape>, Memory> {
    let meant = match character {
        '"' => '"',
        '\\' => '\\',
        'n' => '\n',
        'r' => '\r',
        't' => '\t',
        'u' => return Ok(Some(Escape::Code(0, 0))),
        _ => return Ok(None),
    };
    out.push(meant)?;
    Ok(Some(Escape::None))
}

/// Reads a digit of a code, of which there are four.
fn read_digit(
    out: &mut String,
    count: u8,
    value: u32,
    character: char,
) -> Result<Option<Escape>, Memory> {
    let Some(digit) = character.to_digit(16) else {
        return Ok(None);
    };
    let value = value % 4096 * 16 + digit;
    if count < 3 {
        return Ok(Some(Escape::Code(count + 1, value)));
    }
    match char::from_u32(value) {
        Some(meant) => {
            out.push(meant)?;
            Ok(Some(Escape::None))
        }
        None => Ok(None),
    }
}
