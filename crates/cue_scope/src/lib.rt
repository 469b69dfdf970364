//! Names, definitions and limits: what the definitions of a text are, and in which order they can
//! be taken.
#![tactic(auto)]

mod components;
mod counts;
mod definitions;
mod graph;
mod measure;
mod memory;
mod named;
mod names;
mod resolved;
mod scope;
mod words;

pub use cue_lattice::Refusal;
pub use cue_syntax::{Declaration, Expr, File, Label};
pub use definitions::{Definition, Definitions};
pub use named::Named;
pub use resolved::{Resolved, resolve};
