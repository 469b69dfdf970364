//! The parser of the CUE profile: from the tokens of a text to its tree.
#![tactic(auto)]

mod cursor;
mod expression;
mod file;
mod form;
mod label;
mod literal;
mod memory;
mod spelling;
mod spot;
mod stop;
mod tree;

pub use cue_lattice::Refusal;
pub use cue_lex::{Token, Word};
pub use file::parse;
pub use spelling::one_tree;
pub use tree::{
    Comparison, Declaration, Expr, File, Identifier, Label, LabelName, Mark, Package, Rest, Sign,
    Signed, Term,
};
