ghost use Rattle.std.specs.Prelude.{◌≡◌, ◌∷◌, [], ◌↔◌, IfOk, IfErr, IfSome, IsTrue};
ghost use Rattle.cue_syntax.specs.Spelling.{SpellsTree, one, spell_signed};
ghost use Rattle.cue_syntax.specs.Spelling.{identifier_kind, comparison_kind};
ghost use Rattle.cue_syntax.specs.Grammar as Grammar;
ghost use Rattle.cue_syntax.specs.Grammar.{IsInRange, IsOperand};
ghost use Rattle.cue_syntax.specs.Grammar.{IsClause, IsKeyword};
ghost use Rattle.cue_syntax.specs.Viability.{IsTokenAt, IsSignAt, Opens, IsCallOfClose};
ghost use Rattle.cue_syntax.specs.Viability.{BeginsInteger};
ghost use Rattle.cue_syntax.specs.Inner.Viability.{IsIdentifier, IsComparison};
ghost use Rattle.cue_syntax.specs.Operands.{EndsOperand};
ghost use Rattle.cue_syntax.specs.Inner.Operands.{IsBeginning, IsSign};
ghost use Rattle.cue_syntax.specs.Recogniser.{unary, signed, magnitude};
ghost use Rattle.cue_syntax.specs.Parsed.{IsFurther, ReadsLiteral, MovesBetween, RefusesAlways};

use crate::cursor::{Parsed, TokenCursor};
use crate::tree::{Comparison, Expr, Identifier, Sign, Signed};
use cue_lex::{Punctuation, TokenKind, Word};

/// An expression that holds no other: a name, an integer, a string, `_|_` or a bound.
pub fn literal<'a>(cursor: TokenCursor<'a>) -> Parsed<'a, Expr<'a>>
    requires opens { ¬ IsTokenAt Opens cursor.rest.now }
    requires call { ¬ IsCallOfClose cursor.rest.now }
    ensures spelled { IfOk result (ReadsLiteral cursor.entry) }
    ensures further { IfOk result (λ r. IsFurther cursor.entry r.1) }
    ensures moves { IfOk result (λ r. MovesBetween 0 (unary ∷ []) [] cursor.entry r.1) }
    ensures refused { IfErr result (RefusesAlways (unary ∷ []) cursor.entry) }
{
    let Some((token, after)) = cursor.next() else {
        return Err(cursor.syntax());
    };
    match &token.kind {
        TokenKind::Name(_) | TokenKind::Hidden(_) | TokenKind::Definition(_) => {
            let (name, after) = identifier(cursor)?;
            Ok((
                Expr::Name {
                    name,
                    from: token.from as usize,
                },
                after,
            ))
        }
        TokenKind::Text(text) => Ok((Expr::Text(text.word()), after)),
        TokenKind::Bottom => Ok((Expr::Bottom, after)),
        TokenKind::Integer(_) => integer(cursor),
        TokenKind::Mark(mark) => match literal_of(*mark) {
            Beginning::Integer => integer(cursor),
            Beginning::Bound => bound(cursor),
            Beginning::NotEqual => other_than(cursor),
            Beginning::Nothing => Err(cursor.syntax()),
        },
    }
}

/// A literal of one token, where what stands behind it ends the expression.
#[inline(always)]
pub fn single_literal<'a>(cursor: TokenCursor<'a>) -> Option<(Expr<'a>, TokenCursor<'a>)>
    ensures spelled { IfSome result (ReadsLiteral cursor.entry) }
    ensures further { IfSome result (λ r. IsFurther cursor.entry r.1) }
    ensures moves { IfSome result (λ r. MovesBetween 0 (unary ∷ []) [] cursor.entry r.1) }
    ensures unmarked { IfSome result (λ r.
        ¬ IsSignAt (TokenKind.Mark Punctuation.Star) cursor.entry.rest.now) }
    ensures ends { IfSome result (λ r. EndsOperand r.1.rest.now) }
{
    let (token, after) = cursor.next()?;
    if !after.ends_operand() {
        return None;
    }
    match &token.kind {
        TokenKind::Integer(magnitude) => {
            if *magnitude > greatest_magnitude(Sign::Absent) {
                return None;
            }
            let integer = Signed {
                sign: Sign::Absent,
                magnitude: *magnitude,
            };
            Some((Expr::Integer(integer), after))
        }
        TokenKind::Text(text) => Some((Expr::Text(text.word()), after)),
        TokenKind::Name(name) => {
            if is_keyword(name) {
                return None;
            }
            let name = Identifier::Plain(name.share());
            let from = token.from as usize;
            Some((Expr::Name { name, from }, after))
        }
        TokenKind::Definition(name) => {
            let name = Identifier::Definition(name.share());
            let from = token.from as usize;
            Some((Expr::Name { name, from }, after))
        }
        _ => None,
    }
}

/// Which literal a mark begins.
pub(crate) enum Beginning {
    /// An integer, by its sign.
    Integer,
    /// `<` and its like, and an integer.
    Bound,
    /// `!=`, and an integer or a string.
    NotEqual,
    Nothing,
}

fn literal_of(mark: Punctuation) -> Beginning
    ensures { IsBeginning result mark }
{
    match mark {
        Punctuation::Minus | Punctuation::Plus => Beginning::Integer,
        Punctuation::Less => Beginning::Bound,
        Punctuation::AtMost => Beginning::Bound,
        Punctuation::Greater => Beginning::Bound,
        Punctuation::AtLeast => Beginning::Bound,
        Punctuation::NotEqual => Beginning::NotEqual,
        _ => Beginning::Nothing,
    }
}

/// An integer as an expression.
fn integer<'a>(cursor: TokenCursor<'a>) -> Parsed<'a, Expr<'a>>
    requires { IsTokenAt BeginsInteger cursor.rest.now }
    ensures spelled { IfOk result (ReadsLiteral cursor.entry) }
    ensures further { IfOk result (λ r. IsFurther cursor.entry r.1) }
    ensures moves { IfOk result (λ r. MovesBetween 0 (unary ∷ []) [] cursor.entry r.1) }
    ensures refused { IfErr result (RefusesAlways (unary ∷ []) cursor.entry) }
{
    let (integer, after) = signed(cursor)?;
    Ok((Expr::Integer(integer), after))
}

/// An identifier as an operand: no keyword, and no call.
fn identifier<'a>(cursor: TokenCursor<'a>) -> Parsed<'a, Identifier<'a>>
    requires is { IsTokenAt IsIdentifier cursor.rest.now }
    requires call { ¬ IsCallOfClose cursor.rest.now }
    ensures further { IfOk result (λ r. IsFurther cursor.entry r.1) }
    ensures spelled { IfOk result (λ r. SpellsTree cursor.entry.rest.now (one (identifier_kind r.0))
        r.1.rest.now) }
    ensures operand { IfOk result (λ r. IsOperand r.0) }
    ensures moves { IfOk result (λ r. MovesBetween 0 (unary ∷ []) [] cursor.entry r.1) }
    ensures refused { IfErr result (RefusesAlways (unary ∷ []) cursor.entry) }
{
    let Some((token, after)) = cursor.next() else {
        return Err(cursor.syntax());
    };
    match &token.kind {
        TokenKind::Name(name) => {
            if is_keyword(name) {
                return Err(cursor.syntax());
            }
            if after.is_at(Punctuation::OpenParenthesis) {
                return Err(after.syntax());
            }
            Ok((Identifier::Plain(name.share()), after))
        }
        TokenKind::Hidden(name) => {
            if after.is_at(Punctuation::OpenParenthesis) {
                return Err(after.syntax());
            }
            Ok((Identifier::Hidden(name.share()), after))
        }
        TokenKind::Definition(name) => Ok((Identifier::Definition(name.share()), after)),
        _ => Err(cursor.syntax()),
    }
}

/// Whether a plain name is kept for clauses, and no operand.
pub fn is_keyword(name: &Word) -> bool
    ensures { IsTrue result ↔ IsKeyword name.now }
{
    is_clause(name) || name.as_str() == "in" || name.as_str() == "package"
}

/// Whether a plain name begins a clause that the profile leaves out.
pub fn is_clause(name: &Word) -> bool
    ensures { IsTrue result ↔ IsClause name.now }
{
    name.as_str() == "let"
        || name.as_str() == "for"
        || name.as_str() == "if"
        || name.as_str() == "import"
}

/// An integer with its sign.
fn signed<'a>(cursor: TokenCursor<'a>) -> Parsed<'a, Signed>
    ensures further { IfOk result (λ r. IsFurther cursor.entry r.1) }
    ensures spelled { IfOk result (λ r.
        SpellsTree cursor.entry.rest.now (spell_signed r.0) r.1.rest.now) }
    ensures range { IfOk result (λ r. IsInRange r.0) }
    ensures moves { IfOk result (λ r. MovesBetween 0 (signed ∷ []) [] cursor.entry r.1) }
    ensures refused { IfErr result (RefusesAlways (signed ∷ []) cursor.entry) }
{
    let Some((token, after)) = cursor.next() else {
        return Err(cursor.syntax());
    };
    match sign_of(&token.kind) {
        Sign::Minus => magnitude(Sign::Minus, after),
        Sign::Plus => magnitude(Sign::Plus, after),
        Sign::Absent => magnitude(Sign::Absent, cursor),
    }
}

/// The sign that a token is.
fn sign_of(kind: &TokenKind) -> Sign
    ensures { IsSign result kind.now }
{
    match kind {
        TokenKind::Mark(Punctuation::Minus) => Sign::Minus,
        TokenKind::Mark(Punctuation::Plus) => Sign::Plus,
        _ => Sign::Absent,
    }
}

/// The greatest magnitude of an integer with this sign. The lexer gives no greater one.
fn greatest_magnitude(sign: Sign) -> u64
    ensures { result ≡ Grammar.greatest_magnitude sign }
{
    match sign {
        Sign::Minus => 9_223_372_036_854_775_808,
        Sign::Absent | Sign::Plus => 9_223_372_036_854_775_807,
    }
}

/// The magnitude after a sign.
fn magnitude<'a>(sign: Sign, cursor: TokenCursor<'a>) -> Parsed<'a, Signed>
    ensures further { IfOk result (λ r. IsFurther cursor.entry r.1) }
    ensures spelled { IfOk result (λ r.
        SpellsTree cursor.entry.rest.now (one (TokenKind.Integer r.0.magnitude)) r.1.rest.now) }
    ensures signed { IfOk result (λ r. r.0.sign ≡ sign) }
    ensures range { IfOk result (λ r. IsInRange r.0) }
    ensures moves { IfOk result (λ r. MovesBetween 0 (magnitude sign ∷ []) [] cursor.entry r.1) }
    ensures refused { IfErr result (RefusesAlways (magnitude sign ∷ []) cursor.entry) }
{
    let Some((token, after)) = cursor.next() else {
        return Err(cursor.syntax());
    };
    match &token.kind {
        TokenKind::Integer(magnitude) => {
            if *magnitude > greatest_magnitude(sign) {
                return Err(cursor.syntax());
            }
            Ok((
                Signed {
                    sign,
                    magnitude: *magnitude,
                },
                after,
            ))
        }
        _ => Err(cursor.syntax()),
    }
}

/// `<` and its like, and an integer.
fn bound<'a>(cursor: TokenCursor<'a>) -> Parsed<'a, Expr<'a>>
    requires { IsTokenAt IsComparison cursor.rest.now }
    ensures spelled { IfOk result (ReadsLiteral cursor.entry) }
    ensures further { IfOk result (λ r. IsFurther cursor.entry r.1) }
    ensures moves { IfOk result (λ r. MovesBetween 0 (unary ∷ []) [] cursor.entry r.1) }
    ensures refused { IfErr result (RefusesAlways (unary ∷ []) cursor.entry) }
{
    let (comparison, after) = comparison(cursor)?;
    let (integer, rest) = signed(after)?;
    Ok((Expr::Bound(comparison, integer), rest))
}

fn comparison<'a>(cursor: TokenCursor<'a>) -> Parsed<'a, Comparison>
    requires { IsTokenAt IsComparison cursor.rest.now }
    ensures further { IfOk result (λ r. IsFurther cursor.entry r.1) }
    ensures spelled { IfOk result (λ r. SpellsTree cursor.entry.rest.now (one (comparison_kind r.0))
        r.1.rest.now) }
    ensures taken { IfErr result (λ r. ⊥) }
{
    let Some((token, after)) = cursor.next() else {
        return Err(cursor.syntax());
    };
    match &token.kind {
        TokenKind::Mark(Punctuation::Less) => Ok((Comparison::Less, after)),
        TokenKind::Mark(Punctuation::AtMost) => Ok((Comparison::AtMost, after)),
        TokenKind::Mark(Punctuation::Greater) => Ok((Comparison::Greater, after)),
        TokenKind::Mark(Punctuation::AtLeast) => Ok((Comparison::AtLeast, after)),
        _ => Err(cursor.syntax()),
    }
}

/// `!=`, and an integer or a string.
fn other_than<'a>(cursor: TokenCursor<'a>) -> Parsed<'a, Expr<'a>>
    requires { IsSignAt (TokenKind.Mark Punctuation.NotEqual) cursor.rest.now }
    ensures spelled { IfOk result (ReadsLiteral cursor.entry) }
    ensures further { IfOk result (λ r. IsFurther cursor.entry r.1) }
    ensures moves { IfOk result (λ r. MovesBetween 0 (unary ∷ []) [] cursor.entry r.1) }
    ensures refused { IfErr result (RefusesAlways (unary ∷ []) cursor.entry) }
{
    let after = cursor.expect(Punctuation::NotEqual)?;
    if let Some((token, rest)) = after.next() {
        if let TokenKind::Text(text) = &token.kind {
            return Ok((Expr::OtherText(text.word()), rest));
        }
    }
    let (integer, rest) = signed(after)?;
    Ok((Expr::OtherInteger(integer), rest))
}
