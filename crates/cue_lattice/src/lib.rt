//! The words that every layer of the configuration store speaks: how large things may be, what a
//! refusal is, what may be unified, and what it means that something refuses a question.
//!
//! The definitions of the whole store's meaning stand in `specs/`: limits, scalars, documents,
//! paths, questions, pieces and worlds.
#![tactic(auto)]

mod limits;
mod memory;
mod narrow;
mod pair;
mod refusal;
mod scalar;
mod text;

pub use limits::{LENGTH_LIMIT, LEVEL_LIMIT, STEP_LIMIT, TEXT_LIMIT, WORD_LIMIT};
pub use memory::Memory;
pub use narrow::{Narrow, Narrowed, meet_all};
pub use pair::{Pair, Side};
pub use refusal::{Form, Kind, Refusal};
pub use scalar::Scalar;
pub use text::Text;
