//! The lexer of the CUE profile: from a text to its tokens, with the commas that line breaks
//! insert, or to the first fault from the left.
//!
//! It follows the section "Lexical elements" of the CUE Language Specification, as far as the
//! profile goes. A text is UTF-8, and places are byte offsets. Letters and digits of names are
//! those of Unicode 18.0. Tokens borrow their names and strings from the text.
#![tactic(auto)]

mod character;
mod integer;
mod lexeme;
mod lexer;
mod mark;
mod name;
mod punctuation;
mod quoted;
mod string;
mod token;
mod word;

pub use cue_lattice::{Memory, Refusal, Text};
pub use lexer::lex;
pub use mark::longest_mark;
pub use name::{bottom_before_names, longest_identifier};
pub use punctuation::Punctuation;
pub use quoted::Quoted;
pub use token::{Token, TokenKind};
pub use word::Word;
