//! Texts in any order as an ascending list.
ghost use Rattle.std.specs.Prelude.{◌≡◌, ℕ, List, IfOk};
ghost use Rattle.cue_sets.specs.Texts.{is_listed, IsAscending};

use cue_lattice::{Memory, Text};
use std::alloc::Global;

/// The same texts in their order, each of them once.
pub(crate) fn sort_texts(alloc: Global, mut texts: Vec<Text>) -> Result<Vec<Text>, Memory>
    ensures ascending { IfOk result (λ sorted. IsAscending sorted.items) }
    ensures listed { IfOk result (λ sorted. (text : List ℕ) →
        is_listed sorted.items text ≡ is_listed texts.items text) }
{
    texts.sort_unstable_by(|one, other| one.compare(other));
    let mut sorted = Vec::with_capacity(alloc, texts.len())?;
    let mut rest = texts.into_iter();
    let Some(mut held) = rest.next() else {
        return Ok(sorted);
    };
    for text in rest {
        if !held.same(&text) {
            sorted.push(held)?;
            held = text;
        }
    }
    sorted.push(held)?;
    Ok(sorted)
}
