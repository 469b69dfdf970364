//! Sets of scalars, and values with defaults as the CUE language has them.
//!
//! A set of scalars is its members, in one form. A value with a default is a pair of such sets,
//! which follows the CUE language specification's rules for `&`, for `|` and for marks.
#![tactic(auto)]

mod scalar_change;
mod scalar_set;
mod valued;

pub use cue_lattice::{Memory, Narrow, Scalar};
pub use cue_sets::{IntSet, TextSet};
pub use scalar_change::ScalarChange;
pub use scalar_set::ScalarSet;
pub use valued::Valued;
