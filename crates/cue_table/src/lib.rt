//! A table as a tree: what is known at each path of a configuration, and the readers of it.
#![tactic(auto)]

mod begins;
mod branch;
mod chain;
mod changes;
mod child;
mod cursor;
mod draft;
mod elements;
mod fill;
mod iter;
mod laws;
mod lists;
mod many;
mod measure;
mod meet;
mod near;
mod node;
mod one_step;
mod open;
mod place;
mod rest;
mod rows;
mod runs;
mod same;
mod slot;
mod step_ref;
mod table;
mod valid;

pub use branch::Branch;
pub use cue_lattice::{Memory, Narrow};
pub use cue_row::{Path, Row, Step};
pub use draft::Draft;
pub use iter::{Children, Items, Labels, Spans};
pub use laws::{equal_answers, equal_rows, meet_is_greatest_lower_bound, rows_in_order};
pub use place::Place;
pub use slot::Slot;
pub use step_ref::{Span, StepRef};
pub use table::Table;
pub use valid::valid_tables_meet;
