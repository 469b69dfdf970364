ghost use Rattle.std.specs.Prelude.{◌≡◌, ◌≢◌, ◌≤◌, ◌<◌, ◌+◌, ◌-◌, ℕ, Bool, true, List, Result};
ghost use Rattle.std.specs.Prelude.{length, IfOk, IfErr, Ok, Err, None};
ghost use Rattle.cue_lattice.specs.Limits.{text_limit};
ghost use Rattle.cue_lattice.specs.Refusal.{memory};
ghost use Rattle.cue_lex.specs.Tokens.{tokens, text_too_long, LexedPiece, at_place, commas};
ghost use Rattle.cue_lex.specs.Inner.Tokens.{prepend_tokens};
ghost use Rattle.cue_lex.specs.First.{begins_some};
ghost use Rattle.cue_lex.specs.Inner.First.{IsBlank};
ghost use Rattle.cue_lex.specs.Lexemes.{len_of};

use crate::lexeme::{Lexeme, lexeme_at};
use crate::{Punctuation, Token, TokenKind};
use cue_lattice::{Kind, Memory, Refusal, TEXT_LIMIT};
use std::alloc::Global;

/// The tokens of a text in the order of the text, with the commas that its line breaks insert.
///
/// The tokens are those of the section "Lexical elements" of the CUE Language Specification, as far
/// as the profile has them: identifiers, integers, strings in double quotes, `_|_` and punctuation.
/// Places are bytes of the text, which is UTF-8, and may have 1,048,576 of them. Letters and digits
/// of names are those of Unicode 18.0. Names, and strings with no escape, are slices of the text.
///
/// # Errors
///
/// The first fault from the left: `TooLong` (looked at before all others), `BadCharacter`,
/// `BadString`, `BadNumber`, `IntRange` and `TextTooLong`, with its place; or `Memory`, where
/// memory ran out before a fault was found. A text that is too long is always refused as such, and
/// so is a first byte, white space and comments apart, that begins no token.
#[tactic(auto, unfolding(crate::specs::Tokens::tokens))]
pub fn lex<'a>(alloc: Global, text: &'a str) -> Result<Vec<Token<'a>>, Refusal>
    // What is answered is the tokens of the text.
    ensures found { IfOk result (λ all. tokens text.now ≡ Ok all.items) }
    // A refusal is the text's first fault, unless memory ran out.
    ensures refused { IfErr result (λ refusal. refusal ≢ memory → tokens text.now ≡ Err refusal) }
    // What is found before any memory is wanted is always told.
    ensures long { IfErr result (λ refusal. text_limit < length text.now → refusal ≡ text_too_long) }
    ensures begins { IfErr result (λ refusal. refusal ≡ memory → begins_some text.now ≡ true) }
{
    if text.len() > TEXT_LIMIT {
        return Err(Refusal::at(Kind::TooLong, TEXT_LIMIT));
    }
    tokens_of(alloc, text)
}

/// The tokens of a text that is not too long.
#[tactic(auto, unfolding(crate::specs::Tokens::tokens))]
fn tokens_of<'a>(alloc: Global, text: &'a str) -> Result<Vec<Token<'a>>, Refusal>
    requires { length text.now ≤ text_limit }
    ensures found { IfOk result (λ all. tokens text.now ≡ Ok all.items) }
    ensures refused { IfErr result (λ refusal. refusal ≢ memory → tokens text.now ≡ Err refusal) }
    ensures begins { IfErr result (λ refusal. refusal ≡ memory → begins_some text.now ≡ true) }
{
    let mut tokens = Vec::new(alloc);
    let mut before = Before {
        is_minus: false,
        line_end: None,
    };
    let mut at = 0;
    let mut rest = text;
    while !rest.is_empty() {
        let found = lexeme_at(alloc, rest, at, before.is_minus)?;
        let len = found.len();
        before = add(&mut tokens, before, found, at)?;
        at += len;
        rest = &rest[len..];
    }
    Ok(tokens)
}

/// What the last token says of what follows it.
#[derive(Clone, Copy)]
struct Before {
    is_minus: bool,
    /// The token's end, where a line break after it inserts a comma.
    line_end: Option<u32>,
}

/// Adds what stands at `at` to the tokens.
fn add<'a>(
    tokens: &mut Vec<Token<'a>>,
    before: Before,
    found: Lexeme<'a>,
    at: usize,
) -> Result<Before, Memory>
    requires { at + len_of found ≤ text_limit }
    // The tokens and what they say of what follows give the same tokens in all, whatever follows.
    ensures adds { IfOk result (λ after. (rest : Bool → ℕ → Result (List LexedPiece) Refusal) →
        prepend_tokens tokens.old.items
        (commas before.line_end (at_place before.is_minus at (Ok found.entry) rest))
        ≡ prepend_tokens tokens.new.items
        (commas after.line_end (rest after.is_minus (len_of found.entry - 1)))) }
    // Blanks before the first token are not kept.
    ensures stays { IfOk result (λ after. IsBlank found.entry → before.line_end ≡ None →
        (after.line_end ≡ None) × (after.is_minus ≡ before.is_minus)) }
    ensures memory { IfErr result (λ _. IsBlank found.entry → before.line_end ≡ None → ⊥) }
{
    match found {
        Lexeme::Blank(_) => Ok(before),
        Lexeme::LineBreak => {
            if let Some(end) = before.line_end {
                tokens.push(Token {
                    kind: TokenKind::Mark(Punctuation::Comma),
                    from: end,
                    to: end,
                })?;
            }
            Ok(Before {
                is_minus: before.is_minus,
                line_end: None,
            })
        }
        Lexeme::Word(kind, len) => {
            let to = (at + len) as u32;
            let after = Before {
                is_minus: kind.is_minus(),
                line_end: kind.ends_line().then_some(to),
            };
            let from = at as u32;
            tokens.push(Token { kind, from, to })?;
            Ok(after)
        }
    }
}
