ghost use Rattle.std.specs.Prelude.{◌≡◌, ◌<◌, ◌+◌, max, length, IfOk};
ghost use Rattle.std.specs.List.{prefix_len};
ghost use Rattle.std.specs.Str.{IsCharBoundary};
ghost use Rattle.cue_lex.specs.Characters.{is_ascii_part};
ghost use Rattle.cue_lex.specs.Names.{run_len, word_len, signed_len, identifier_len};
ghost use Rattle.cue_lex.specs.Longest.{TakesTheLongestIdentifier, TakesBottomBeforeNames};
ghost use Rattle.cue_lex.specs.Lexemes.{lex_name, len_of};

use crate::character::{is_ascii_part, is_letter, is_name_part};
use crate::lexeme::Lexeme;
use crate::{TokenKind, Word};
use cue_lattice::{Kind, Refusal};

/// How many bytes the letters and digits at the front have.
#[inline]
pub fn run_len(text: &str) -> usize
    ensures value { result ≡ run_len text.now }
    ensures boundary { IsCharBoundary text.now result }
{
    let bytes = text.as_bytes();
    let ascii = ascii_len(bytes);
    if ascii == bytes.len() || bytes[ascii] < 128 {
        return ascii;
    }
    ascii + wide_len(&text[ascii..])
}

/// How many letters and digits of ASCII stand at the front.
fn ascii_len(bytes: &[u8]) -> usize
    ensures { result ≡ prefix_len is_ascii_part bytes.now }
{
    bytes
        .iter()
        .take_while(|byte| is_ascii_part(**byte))
        .count()
}

/// How many bytes the letters and digits at the front have, character by character.
#[cold]
#[inline(never)]
fn wide_len(text: &str) -> usize
    ensures value { result ≡ run_len text.now }
    ensures boundary { IsCharBoundary text.now result }
{
    let mut len = 0;
    let mut rest = text.chars();
    while let Some(c) = rest.next() {
        if !is_name_part(c) {
            return len;
        }
        len += c.len_utf8();
    }
    len
}

/// How many bytes a letter and the letters and digits after it have, at the front; 0 where no
/// letter stands there.
#[tactic(auto, unfolding(crate::specs::Names::word_len))]
fn word_len(text: &str) -> usize
    ensures value { result ≡ word_len text.now }
    ensures boundary { IsCharBoundary text.now result }
{
    match text.chars().next() {
        Some(c) if is_letter(c) => run_len(text),
        _ => 0,
    }
}

/// The same after a sign, the sign included.
#[tactic(auto, unfolding(crate::specs::Names::signed_len))]
fn signed_len(text: &str, sign: &str) -> usize
    ensures value { result ≡ signed_len sign.now text.now }
    ensures boundary { IsCharBoundary text.now result }
{
    if !text.as_bytes().starts_with(sign.as_bytes()) {
        return 0;
    }
    let len = word_len(&text[sign.len()..]);
    if len > 0 { sign.len() + len } else { 0 }
}

/// How many bytes the longest identifier at the front has; 0 where none stands there.
#[tactic(auto, unfolding(crate::specs::Names::identifier_len))]
pub fn identifier_len(text: &str) -> usize
    ensures value { result ≡ identifier_len text.now }
    ensures boundary { IsCharBoundary text.now result }
{
    word_len(text)
        .max(signed_len(text, "#"))
        .max(signed_len(text, "_#"))
}

/// The identifier of this length at the front.
#[tactic(auto, unfolding(crate::specs::Lexemes::lex_name, crate::specs::Lexemes::name_kind))]
pub fn name<'a>(text: &'a str, len: usize, at: usize) -> Result<Lexeme<'a>, Refusal>
    requires nonempty { 0 < len }
    requires boundary { IsCharBoundary text.now len }
    ensures value { result ≡ lex_name at len text.now }
    ensures len { IfOk result (λ found. len_of found ≡ len) }
{
    let spelling = &text[..len];
    let Some(word) = Word::new(spelling) else {
        return Err(Refusal::at(Kind::TextTooLong, at));
    };
    let kind = match spelling.as_bytes()[0] {
        b'#' => TokenKind::Definition(word),
        b'_' => TokenKind::Hidden(word),
        _ => TokenKind::Name(word),
    };
    Ok(Lexeme::Word(kind, len))
}

/// Says by its contract that where an identifier stands `lex` takes one, and that no longer one
/// stands there.
#[tactic(auto, using(crate::proofs::Longest::takes_the_longest_identifier))]
pub fn longest_identifier()
    ensures { TakesTheLongestIdentifier }
{}

/// Says by its contract that where `_|_` stands `lex` takes it, and that each identifier that
/// stands there is shorter.
#[tactic(auto, using(crate::proofs::Bottom::takes_bottom_before_names))]
pub fn bottom_before_names()
    ensures { TakesBottomBeforeNames }
{}
