//! Texts that are written for the tests.
use cue_lattice::Memory;
use std::alloc::Global;
use std::fmt::Debug;

/// What a call has made where memory was there. It goes on to the next call as it is, so that a
/// test holds no value that is dropped on its ways out.
pub type Made<T> = Result<T, Memory>;

/// The text of these parts.
pub fn joined(alloc: Global, parts: &[&str]) -> Made<String> {
    Ok(parts.concat(alloc)?)
}

/// A text some times.
pub fn repeated(alloc: Global, part: &str, count: usize) -> Made<String> {
    let mut text = String::new(alloc);
    for _ in 0..count {
        text.push_str(part)?;
    }
    Ok(text)
}

/// A text some times, and what stands before and after it.
pub fn long(alloc: Global, before: &str, part: &str, count: usize, after: &str) -> Made<String> {
    let middle = repeated(alloc, part, count)?;
    joined(alloc, &[before, middle.as_str(), after])
}

/// A text and another one after it.
pub fn followed(text: Made<String>, after: Made<String>) -> Made<String> {
    let mut text = text?;
    text.push_str(after?.as_str())?;
    Ok(text)
}

/// A value as it is written for debugging.
pub fn debugged<D: Debug>(alloc: Global, value: &D) -> Made<String> {
    Ok(format!(in alloc; "{value:?}")?)
}
