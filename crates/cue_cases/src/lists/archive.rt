//! Archives of cases, in the form in which the language's own repository keeps its tests (`txtar`).
//! A line `-- CASE/NAME --` begins a file, which goes on to the next such line; what stands before
//! the first one is a comment. Files whose names end in `.cue` are the inputs of their case, in
//! their order; `export`, `report`, `print` and `document` are what must be answered; all else is a
//! note.
use std::alloc::{AllocError, Global};

/// A file of a case.
#[derive(Drop)]
struct Part<'a> {
    name: &'a str,
    text: String,
}

/// Inputs, and what one new site must answer that has taken them.
#[derive(Drop)]
pub struct Case<'a> {
    pub name: &'a str,
    parts: Vec<Part<'a>>,
}

impl<'a> Case<'a> {
    /// The bytes of each input.
    pub fn inputs(&self, alloc: Global) -> Result<Vec<Vec<u8>>, AllocError> {
        let mut inputs = Vec::new(alloc);
        for part in &self.parts {
            if part.name.ends_with(".cue") {
                inputs.push(part.text.as_bytes().to_vec(alloc)?)?;
            }
        }
        Ok(inputs)
    }

    /// What must be answered, where the case says so.
    pub fn wanted(&self, name: &str) -> Option<&str> {
        let part = self.parts.iter().find(|part| part.name == name)?;
        Some(part.text.as_str())
    }

    /// Puts a line into the file that was begun last.
    fn add(&mut self, line: &str) -> Result<(), AllocError> {
        if let Some(part) = self.parts.last_mut() {
            part.text.push_str(line)?;
            part.text.push('\n')?;
        }
        Ok(())
    }
}

/// The case and the name of the file that a line begins.
fn begun(line: &str) -> Option<(&str, &str)> {
    line.strip_prefix("-- ")?
        .strip_suffix(" --")?
        .split_once('/')
}

/// Begins a file, of the last case where that has the name, else of a new one.
fn begin<'a>(
    alloc: Global,
    cases: &mut Vec<Case<'a>>,
    case: &'a str,
    name: &'a str,
) -> Result<(), AllocError> {
    let part = Part {
        name,
        text: String::new(alloc),
    };
    match cases.last_mut() {
        Some(last) if last.name == case => last.parts.push(part)?,
        _ => cases.push(Case {
            name: case,
            parts: vec![in alloc; part]?,
        })?,
    }
    Ok(())
}

/// The cases of an archive, each of whose files stand together.
pub fn cases(alloc: Global, archive: &str) -> Result<Vec<Case<'_>>, AllocError> {
    let mut cases = Vec::new(alloc);
    for line in archive.lines() {
        if let Some((case, name)) = begun(line) {
            begin(alloc, &mut cases, case, name)?;
        } else if let Some(last) = cases.last_mut() {
            last.add(line)?;
        }
    }
    Ok(cases)
}
