ghost use Rattle.std.specs.Prelude.{◌≡◌};
ghost use Rattle.cue_lex.specs.Kinds.{is_minus, ends_line, HasWord};

use crate::{Punctuation, Quoted, Word};

/// A token of a text: what it is, and from which byte to before which byte it stands. A text has at
/// most 1,048,576 bytes. An inserted comma is empty: `from` and `to` are the end of the token
/// before it.
#[derive(Debug, Drop)]
pub struct Token<'a> {
    pub kind: TokenKind<'a>,
    pub from: u32,
    pub to: u32,
}

/// What a token is. Names, and strings with no escape, are slices of the text.
#[derive(Debug, Drop)]
pub enum TokenKind<'a> {
    /// An identifier that begins with neither `#` nor `_`.
    Name(Word<'a>),
    /// An identifier that begins with `#`, with that sign.
    Definition(Word<'a>),
    /// An identifier that begins with `_`, as `_`, `_x` or `_#x`.
    Hidden(Word<'a>),
    /// A string, as the text that it stands for.
    Text(Quoted<'a>),
    /// An integer's magnitude. The one above `i64::MAX` stands after a `-` only.
    Integer(u64),
    /// `_|_`
    Bottom,
    Mark(Punctuation),
}

impl<'a> TokenKind<'a> {
    /// Says by its contract that what the token names or quotes is a word: in UTF-8, and of at most
    /// [`WORD_LIMIT`](cue_lattice::WORD_LIMIT) bytes. It computes nothing.
    pub fn has_word(&self)
        ensures { HasWord self.now }
    {
        match self {
            TokenKind::Name(name) | TokenKind::Definition(name) | TokenKind::Hidden(name) => {
                let _ = name.as_str();
            }
            TokenKind::Text(text) => {
                let _ = text.as_str();
            }
            TokenKind::Integer(_) | TokenKind::Bottom | TokenKind::Mark(_) => {}
        }
    }

    pub(crate) fn is_minus(&self) -> bool
        ensures { result ≡ is_minus self.now }
    {
        match self {
            TokenKind::Mark(Punctuation::Minus) => true,
            _ => false,
        }
    }

    /// Whether a line break after the token inserts a comma.
    pub(crate) fn ends_line(&self) -> bool
        ensures { result ≡ ends_line self.now }
    {
        match self {
            TokenKind::Name(_)
            | TokenKind::Definition(_)
            | TokenKind::Hidden(_)
            | TokenKind::Text(_)
            | TokenKind::Integer(_)
            | TokenKind::Bottom
            | TokenKind::Mark(
                Punctuation::CloseParenthesis
                | Punctuation::CloseBracket
                | Punctuation::CloseBrace
                | Punctuation::Ellipsis
                | Punctuation::Question
                | Punctuation::Exclamation,
            ) => true,
            _ => false,
        }
    }
}
