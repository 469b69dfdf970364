ghost use Rattle.std.specs.Prelude.{◌≡◌, ◌+◌, ◌<◌, ◌∷◌, ◌↔◌, [], IfOk, IfErr, IfSome, IfNone};
ghost use Rattle.std.specs.Prelude.{length, MatchOption, IsTrue, false, codes};
ghost use Rattle.cue_syntax.specs.Spelling.{SpellsTree, one, one_at, comma_if, IsTokenPlace};
ghost use Rattle.cue_syntax.specs.Operands.{IsOperandAt, EndsOperand};
ghost use Rattle.cue_syntax.specs.Parsed.{IsFurther, IsOnward};
ghost use Rattle.cue_lattice.specs.Refusal.{refusal_at};
ghost use Rattle.cue_syntax.specs.Stops.{at_hand};
ghost use Rattle.cue_syntax.specs.Viability.{place_of_symbol, IsTokenAt, IsSignAt, BeginsExpression};
ghost use Rattle.cue_syntax.specs.Viability.{IsMark};

use crate::stop::{ParserStop, Why};
use cue_lattice::{Kind, Refusal};
use cue_lex::{Punctuation, Token, TokenKind};

/// The tokens that are left, and where the text ends.
#[derive(Clone, Copy)]
pub struct TokenCursor<'a> {
    pub rest: &'a [Token<'a>],
    /// The length of the text in bytes, the place of a refusal after the last token.
    pub end: usize,
}

/// What a parsing function answers: what it read, and the tokens after it.
pub type Parsed<'a, T> = Result<(T, TokenCursor<'a>), ParserStop>;

/// Which rule of the grammar an operand or a bound follows, by its first tokens.
#[derive(Clone, Copy)]
pub enum Operand {
    Parenthesis,
    Struct,
    List,
    /// `close` before a parenthesis.
    Close,
    /// What holds no other expression.
    Literal,
}

impl<'a> TokenCursor<'a> {
    /// The token at hand, and the cursor after it.
    pub fn next(self) -> Option<(&'a Token<'a>, TokenCursor<'a>)>
        ensures first { MatchOption result (self.entry.rest.now ≡ []) (λ x. self.entry.rest.now
            ≡ x.0.now ∷ x.1.rest.now) }
        ensures end { IfSome result (λ x. x.1.end ≡ self.entry.end) }
    {
        let (token, rest) = self.rest.split_first()?;
        Some((
            token,
            TokenCursor {
                rest,
                end: self.end,
            },
        ))
    }

    /// Whether no token is left.
    pub fn is_at_end(self) -> bool
        ensures { IsTrue result ↔ (self.entry.rest.now ≡ []) }
    {
        self.rest.is_empty()
    }

    /// Whether this token stands at hand.
    pub fn is_at(self, wanted: Punctuation) -> bool
        ensures { IsTrue result ↔ IsSignAt (TokenKind.Mark wanted) self.entry.rest.now }
    {
        match self.next() {
            Some((token, _)) => is_punctuation(&token.kind, wanted),
            None => false,
        }
    }

    /// After this token, where it stands at hand.
    pub fn skip(self, wanted: Punctuation) -> Option<TokenCursor<'a>>
        ensures further { IfSome result (λ after. IsFurther self.entry after) }
        ensures reads { IfSome result (λ after.
            SpellsTree self.entry.rest.now (one (TokenKind.Mark wanted)) after.rest.now) }
        ensures missing { IfNone result (¬ IsSignAt (TokenKind.Mark wanted) self.entry.rest.now) }
    {
        let (token, after) = self.next()?;
        if is_punctuation(&token.kind, wanted) {
            Some(after)
        } else {
            None
        }
    }

    /// After this token, which has to stand at hand.
    pub fn expect(self, wanted: Punctuation) -> Result<TokenCursor<'a>, ParserStop>
        ensures further { IfOk result (λ after. IsFurther self.entry after) }
        ensures reads { IfOk result (λ after.
            SpellsTree self.entry.rest.now (one (TokenKind.Mark wanted)) after.rest.now) }
        ensures refused { IfErr result (λ r.
            r ≡ at_hand Why.Syntax self.entry.end self.entry.rest.now) }
        ensures missing { IfErr result (λ r.
            ¬ IsSignAt (TokenKind.Mark wanted) self.entry.rest.now) }
    {
        self.skip(wanted).ok_or(self.syntax())
    }

    /// Whether a comma stands at hand, and the cursor after it.
    pub fn trailing_comma(self) -> (bool, TokenCursor<'a>)
        ensures onward { IsOnward self.entry result.1 }
        ensures reads { SpellsTree self.entry.rest.now (comma_if result.0) result.1.rest.now }
        ensures taken { IsTrue result.0 → length result.1.rest.now < length self.entry.rest.now }
        ensures missing { result.0 ≡ false → ¬ IsSignAt (TokenKind.Mark Punctuation.Comma)
            self.entry.rest.now }
    {
        match self.skip(Punctuation::Comma) {
            Some(after) => (true, after),
            None => (false, self),
        }
    }

    /// Where the token at hand begins, or the text ends.
    pub fn place(self) -> usize
        ensures is { IsTokenPlace self.entry.rest.now result }
        ensures place { result ≡ place_of_symbol self.entry.end self.entry.rest.now }
    {
        match self.next() {
            Some((token, _)) => token.from as usize,
            None => self.end,
        }
    }

    /// A refusal at the token at hand.
    pub fn refuse(self, kind: Kind) -> Refusal
        ensures { result ≡ refusal_at kind (place_of_symbol self.entry.end self.entry.rest.now) }
    {
        Refusal::at(kind, self.place())
    }

    /// A stop at the token at hand.
    fn stop(self, why: Why) -> ParserStop
        ensures { result ≡ at_hand why self.entry.end self.entry.rest.now }
    {
        ParserStop {
            why,
            left: self.rest.len(),
        }
    }

    /// The token at hand can't go on.
    pub fn syntax(self) -> ParserStop
        ensures { result ≡ at_hand Why.Syntax self.entry.end self.entry.rest.now }
    {
        self.stop(Why::Syntax)
    }

    /// The room after the token at hand, which opens a level. With no room left it is refused.
    pub fn open_level(self, room: usize) -> Result<usize, ParserStop>
        ensures left { IfOk result (λ left. left + 1 ≡ room) }
        ensures refused { IfErr result (λ r.
            r ≡ at_hand Why.Nesting self.entry.end self.entry.rest.now) }
        ensures none { IfErr result (λ r. room ≡ 0) }
    {
        if room == 0 {
            Err(self.stop(Why::Nesting))
        } else {
            Ok(room - 1)
        }
    }

    /// Whether the token at hand begins an expression.
    pub fn begins_expression(self) -> bool
        ensures { IsTrue result ↔ IsTokenAt BeginsExpression self.entry.rest.now }
    {
        match self.next() {
            Some((token, _)) => begins_expression(&token.kind),
            None => false,
        }
    }

    /// Which operand stands at hand.
    pub fn operand(self) -> Operand
        ensures { IsOperandAt result self.entry.rest.now }
    {
        match self.next() {
            Some((token, after)) => match &token.kind {
                TokenKind::Mark(Punctuation::OpenParenthesis) => Operand::Parenthesis,
                TokenKind::Mark(Punctuation::OpenBrace) => Operand::Struct,
                TokenKind::Mark(Punctuation::OpenBracket) => Operand::List,
                TokenKind::Name(name) => {
                    if name.as_str() == "close" && after.is_at(Punctuation::OpenParenthesis) {
                        Operand::Close
                    } else {
                        Operand::Literal
                    }
                }
                _ => Operand::Literal,
            },
            None => Operand::Literal,
        }
    }

    /// Where the `close` at hand begins, and the cursor after it.
    pub fn expect_close(self) -> Parsed<'a, usize>
        requires { IsSignAt (TokenKind.Name (codes "close")) self.rest.now }
        ensures further { IfOk result (λ r. IsFurther self.entry r.1) }
        ensures reads { IfOk result (λ r.
            SpellsTree self.entry.rest.now (one_at r.0 (TokenKind.Name (codes "close"))) r.1.rest.now) }
        ensures taken { IfErr result (λ r. ⊥) }
    {
        let Some((token, after)) = self.next() else {
            return Err(self.syntax());
        };
        match &token.kind {
            TokenKind::Name(name) => {
                if name.as_str() == "close" {
                    Ok((token.from as usize, after))
                } else {
                    Err(self.syntax())
                }
            }
            _ => Err(self.syntax()),
        }
    }

    /// Whether what stands at hand ends an operand and what holds it: no mark that joins operands,
    /// and no call.
    pub fn ends_operand(self) -> bool
        ensures { IsTrue result → EndsOperand self.entry.rest.now }
    {
        match self.next() {
            Some((token, _)) => match &token.kind {
                TokenKind::Mark(
                    Punctuation::Ampersand | Punctuation::Bar | Punctuation::OpenParenthesis,
                ) => false,
                _ => true,
            },
            None => true,
        }
    }

    /// Whether a mark stands at hand: a colon, `?` or `!`.
    pub fn is_at_mark(self) -> bool
        ensures { IsTrue result ↔ IsTokenAt IsMark self.entry.rest.now }
    {
        match self.next() {
            Some((token, _)) => is_mark(&token.kind),
            None => false,
        }
    }
}

/// Whether a token is this mark.
fn is_punctuation(kind: &TokenKind, wanted: Punctuation) -> bool
    ensures { IsTrue result ↔ (kind.now ≡ TokenKind.Mark wanted) }
{
    match kind {
        TokenKind::Mark(mark) => *mark == wanted,
        _ => false,
    }
}

fn begins_expression(kind: &TokenKind) -> bool
    ensures { IsTrue result ↔ BeginsExpression kind.now }
{
    match kind {
        TokenKind::Name(_)
        | TokenKind::Definition(_)
        | TokenKind::Hidden(_)
        | TokenKind::Text(_)
        | TokenKind::Integer(_)
        | TokenKind::Bottom
        | TokenKind::Mark(
            Punctuation::OpenBrace
            | Punctuation::OpenBracket
            | Punctuation::OpenParenthesis
            | Punctuation::Star
            | Punctuation::Minus
            | Punctuation::Plus
            | Punctuation::Less
            | Punctuation::AtMost
            | Punctuation::Greater
            | Punctuation::AtLeast
            | Punctuation::NotEqual,
        ) => true,
        TokenKind::Mark(
            Punctuation::CloseBrace
            | Punctuation::CloseBracket
            | Punctuation::CloseParenthesis
            | Punctuation::Colon
            | Punctuation::Comma
            | Punctuation::Question
            | Punctuation::Exclamation
            | Punctuation::Bar
            | Punctuation::Ampersand
            | Punctuation::Ellipsis,
        ) => false,
    }
}

fn is_mark(kind: &TokenKind) -> bool
    ensures { IsTrue result ↔ IsMark kind.now }
{
    match kind {
        TokenKind::Mark(Punctuation::Colon | Punctuation::Question | Punctuation::Exclamation) =>
            true,
        _ => false,
    }
}
