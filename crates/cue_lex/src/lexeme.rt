ghost use Rattle.std.specs.Prelude.{◌≡◌, ◌<◌, ◌+◌, ◌^◌, length, not, ◌==◌, IfOk, IfErr};
ghost use Rattle.std.specs.Prelude.{slice_index};
ghost use Rattle.std.specs.List.{prefix_len};
ghost use Rattle.std.specs.Str.{IsCharBoundary};
ghost use Rattle.cue_lattice.specs.Refusal.{memory};
ghost use Rattle.cue_lex.specs.Lexemes.{LexesTo, lexeme, len_of};

use crate::TokenKind;
use crate::integer::integer;
use crate::mark::mark;
use crate::name::{identifier_len, name, run_len};
use crate::string::string;
use cue_lattice::{Kind, Refusal};
use std::alloc::Global;

/// What stands at a place of a text.
#[derive(Drop)]
pub enum Lexeme<'a> {
    /// White space other than a line break, or a comment, of so many bytes.
    Blank(usize),
    LineBreak,
    /// A token, and how many bytes it has.
    Word(TokenKind<'a>, usize),
}

impl<'a> Lexeme<'a> {
    /// How many bytes it has.
    pub fn len(&self) -> usize
        ensures { result ≡ len_of self.now }
    {
        match self {
            Lexeme::Blank(len) => *len,
            Lexeme::LineBreak => 1,
            Lexeme::Word(_, len) => *len,
        }
    }
}

/// What stands at the front of a text that isn't empty and stands at `at`.
#[tactic(auto, unfolding(crate::specs::Lexemes::lexeme))]
pub fn lexeme_at<'a>(
    alloc: Global,
    text: &'a str,
    at: usize,
    after_minus: bool,
) -> Result<Lexeme<'a>, Refusal>
    requires nonempty { 0 < length text.now }
    requires room { at + length text.now < 2 ^ 63 }
    ensures gives { LexesTo result (lexeme after_minus at text.now) }
    ensures some { IfOk result (λ found. 0 < len_of found) }
    ensures boundary { IfOk result (λ found. IsCharBoundary text.now (len_of found)) }
    // Only a string wants memory.
    ensures memory { IfErr result (λ refusal. refusal ≡ memory → slice_index text.now 0 ≡ 34) }
{
    let bytes = text.as_bytes();
    if let Some((mark, len)) = mark(bytes) {
        return Ok(Lexeme::Word(TokenKind::Mark(mark), len));
    }
    let first = bytes[0];
    match first {
        b' ' | b'\t' | b'\r' => return Ok(Lexeme::Blank(1)),
        b'\n' => return Ok(Lexeme::LineBreak),
        b'"' => return string(alloc, text, at),
        b'0'..=b'9' => return integer(bytes, at, after_minus),
        _ => {}
    }
    if first.is_ascii_alphabetic() {
        return name(text, run_len(text), at);
    }
    if bytes.starts_with(b"//") {
        return Ok(Lexeme::Blank(line_len(bytes)));
    }
    if bytes.starts_with(b"_|_") {
        return Ok(Lexeme::Word(TokenKind::Bottom, 3));
    }
    match identifier_len(text) {
        0 => Err(Refusal::at(Kind::BadCharacter, at)),
        len => name(text, len, at),
    }
}

/// How many bytes stand before the first line break.
fn line_len(bytes: &[u8]) -> usize
    ensures { result ≡ prefix_len (λ byte. not (byte == 10)) bytes.now }
{
    bytes.iter().take_while(|byte| **byte != b'\n').count()
}
