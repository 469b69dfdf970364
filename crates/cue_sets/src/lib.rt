//! Sets of integers of 64 bits and sets of texts, each with one form for its members.
//!
//! A set is its members: the contract of each call says which members its answer has, and what a
//! set lists is its one form, so that sets with equal members are equal values.
#![tactic(auto)]

mod combination;
mod gaps;
mod int_set;
mod joining;
mod kept;
mod leaving;
mod merging;
mod pieces;
mod sorting;
mod text_change;
mod text_set;
mod texts;
mod uniting;

pub use cue_lattice::{Memory, Narrow, Narrowed, Text};
pub use int_set::IntSet;
pub use text_change::TextChange;
pub use text_set::TextSet;
pub use texts::are_same;
