//! The row of a configuration table, the paths at which rows stand, and how paths are written.
#![tactic(auto)]

mod covering;
mod kind;
mod labels;
mod level;
mod made;
mod parts;
mod path;
mod question;
mod quoted;
mod row;
mod scalars;
mod small;
mod spelling;
mod step;
mod valid;

pub use cue_lattice::{Memory, Narrow, Narrowed, Scalar, Text};
pub use cue_scalars::ScalarSet;
pub use kind::RowKind;
pub use labels::LabelSet;
pub use level::Level;
pub use parts::RowParts;
pub use path::Path;
pub use question::{Question, one_question};
pub use quoted::push_quoted;
pub use row::Row;
pub use scalars::Scalars;
pub use spelling::{is_bare, path_text, push_steps};
pub use step::Step;
pub use valid::valid_rows_meet;
