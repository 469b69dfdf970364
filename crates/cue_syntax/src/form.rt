ghost use Rattle.std.specs.Prelude.{◌≡◌, ◌≤◌, MatchOption, IsTrue, ◌↔◌, length, take, drop, codes};
ghost use Rattle.cue_syntax.specs.Viability.{IsTokenAt, IsSignAt, NextSign, Next, IsMark, IsHidden};
ghost use Rattle.cue_syntax.specs.Viability.{IsKeywordName, place_of_symbol};
ghost use Rattle.cue_syntax.specs.Viability.{IsDefinition, IsCallable, BeginsClause, BeginsInteger};
ghost use Rattle.cue_syntax.specs.Forms.{IsFormAt, IsOfDeclaration, IsTextToken, SeesLabel};
ghost use Rattle.cue_syntax.specs.Inner.Forms.{HasNoForm};
ghost use Rattle.cue_syntax.specs.Forms.{SeesDynamicLabel, NextMark};
ghost use Rattle.cue_syntax.specs.Refusals.{RefusalSays, RefusalSaysOf, IsNamedEarly, IsKindAfter};
ghost use Rattle.cue_syntax.specs.Refusals.{FormIsAfter, IsValueKeyword};
ghost use Rattle.cue_syntax.specs.Spots.{spot_of};

use crate::cursor::TokenCursor;
use crate::literal::{is_clause, is_keyword};
use crate::spot::{Position, find_spot};
use crate::stop::{ParserStop, Why};
use cue_lattice::{Form, Kind, Refusal};
use cue_lex::{Punctuation, Token, TokenKind};

/// What is said of the place at which the parser stopped. `end` is the length of the text in bytes.
pub fn refusal<'t>(tokens: &'t [Token<'t>], end: usize, stop: ParserStop) -> Refusal
    requires { stop.left ≤ length tokens.now }
    ensures { RefusalSays end tokens.now stop result }
{
    let text = TokenCursor { rest: tokens, end };
    let read = tokens.len() - stop.left;
    match stop.why {
        Why::Memory(memory) => Refusal::from(memory),
        Why::Nesting => after(text, read).refuse(Kind::Nesting),
        Why::Syntax => refusal_after(text, read),
    }
}

/// What is said where the tokens leave the grammar after so many of them: of the last one that was
/// read, if that is named early, or else of the symbol after it.
fn refusal_after(text: TokenCursor, read: usize) -> Refusal
    requires { read ≤ length text.rest.now }
    ensures { RefusalSaysOf text.entry.end text.entry.rest.now read result }
{
    if read > 0 && is_named_early(text, read - 1) {
        return symbol_refusal(text, read - 1);
    }
    symbol_refusal(text, read)
}

/// Whether the token after so many is named though the grammar has it, where the next symbol leaves
/// the grammar.
fn is_named_early(text: TokenCursor, read: usize) -> bool
    requires { read ≤ length text.rest.now }
    ensures { IsTrue result ↔ IsNamedEarly read text.entry.rest.now }
{
    form_after(text, read).is_some() || is_value_keyword(text, read)
}

/// What is said of the symbol after so many of the tokens.
fn symbol_refusal(text: TokenCursor, read: usize) -> Refusal
    requires { read ≤ length text.rest.now }
    ensures place { result.place ≡ place_of_symbol text.entry.end (drop read text.entry.rest.now) }
    ensures kind { IsKindAfter read text.entry.rest.now result.kind }
{
    let kind = match form_after(text, read) {
        Some(form) => Kind::LeftOut(form),
        None => Kind::Syntax,
    };
    after(text, read).refuse(kind)
}

/// The form that the profile leaves out and that stands after so many of the tokens, if one does.
fn form_after(text: TokenCursor, read: usize) -> Option<Form>
    requires { read ≤ length text.rest.now }
    ensures { MatchOption result
        ((form : Form) → ¬ FormIsAfter read text.entry.rest.now form)
        (λ form. FormIsAfter read text.entry.rest.now form) }
{
    if read == 0 && begins_package(text) {
        return None;
    }
    form(spot_after(text, read), after(text, read))
}

/// Whether a keyword stands as a value after so many of the tokens.
fn is_value_keyword(text: TokenCursor, read: usize) -> bool
    requires { read ≤ length text.rest.now }
    ensures { IsTrue result ↔ IsValueKeyword read text.entry.rest.now }
{
    match spot_after(text, read) {
        Position::Value => is_at_keyword(after(text, read)),
        _ => false,
    }
}

/// The tokens from the symbol after so many of them on.
fn after<'a>(text: TokenCursor<'a>, read: usize) -> TokenCursor<'a>
    requires { read ≤ length text.rest.now }
    ensures rest { result.rest.now ≡ drop read text.entry.rest.now }
    ensures end { result.end ≡ text.entry.end }
{
    let (_, rest) = text.rest.split_at(read);
    TokenCursor {
        rest,
        end: text.end,
    }
}

/// The spot of the symbol after so many of the tokens.
fn spot_after(text: TokenCursor, read: usize) -> Position
    requires { read ≤ length text.rest.now }
    ensures { result ≡ spot_of (take read text.entry.rest.now) }
{
    let (before, _) = text.rest.split_at(read);
    find_spot(before)
}

/// Whether the name `package` stands at hand, and no mark after it.
fn begins_package(cursor: TokenCursor) -> bool
    ensures { IsTrue result ↔ IsSignAt (TokenKind.Name (codes "package")) cursor.entry.rest.now
        × ¬ Next IsMark cursor.entry.rest.now }
{
    match cursor.next() {
        Some((token, after)) => match &token.kind {
            TokenKind::Name(name) => name.as_str() == "package" && !after.is_at_mark(),
            _ => false,
        },
        None => false,
    }
}

/// Whether a keyword stands at hand.
fn is_at_keyword(cursor: TokenCursor) -> bool
    ensures { IsTrue result ↔ IsTokenAt IsKeywordName cursor.entry.rest.now }
{
    match cursor.next() {
        Some((token, _)) => match &token.kind {
            TokenKind::Name(name) => is_keyword(name),
            _ => false,
        },
        None => false,
    }
}

/// The form that the profile leaves out and that stands at a spot, if one does.
fn form(spot: Position, cursor: TokenCursor) -> Option<Form>
    ensures { MatchOption result (HasNoForm spot cursor.entry.rest.now) (λ form.
        IsFormAt form spot cursor.entry.rest.now) }
{
    match spot {
        Position::Top => declaration_form(cursor, Position::Top),
        Position::Inner => declaration_form(cursor, Position::Inner),
        Position::Value => value_form(cursor),
        Position::Operand => {
            if begins_call(cursor) {
                Some(Form::Call)
            } else {
                None
            }
        }
        Position::Ellipsis => {
            if cursor.begins_expression() {
                Some(Form::TypedEllipsis)
            } else {
                None
            }
        }
        Position::Bound => {
            if cursor.begins_expression() && !is_at_integer(cursor) {
                Some(Form::Bound)
            } else {
                None
            }
        }
        Position::NotEqual => {
            if cursor.begins_expression() && !is_at_integer(cursor) && !is_at_text(cursor) {
                Some(Form::Bound)
            } else {
                None
            }
        }
        Position::CloseArgument => {
            if cursor.begins_expression() && !cursor.is_at(Punctuation::OpenBrace) {
                Some(Form::CloseArgument)
            } else {
                None
            }
        }
        Position::CloseName | Position::Other => None,
    }
}

/// The form that stands where a declaration begins.
fn declaration_form(cursor: TokenCursor, spot: Position) -> Option<Form>
    requires { IsOfDeclaration spot }
    ensures { MatchOption result (HasNoForm spot cursor.entry.rest.now) (λ form.
        IsFormAt form spot cursor.entry.rest.now) }
{
    if begins_hidden_label(cursor) {
        return Some(Form::HiddenLabel);
    }
    if begins_marked_definition(cursor) {
        return Some(Form::MarkedDefinition);
    }
    if begins_definition(cursor) {
        return match spot {
            Position::Inner => Some(Form::NestedDefinition),
            _ => None,
        };
    }
    if begins_any_label(cursor) {
        return None;
    }
    if begins_clause(cursor) {
        return Some(Form::Clause);
    }
    if begins_dynamic_label(cursor) {
        return Some(Form::DynamicLabel);
    }
    if cursor.begins_expression() {
        return Some(Form::Embedding);
    }
    None
}

/// The form that stands after the colon of a field or a definition.
fn value_form(cursor: TokenCursor) -> Option<Form>
    ensures { MatchOption result (HasNoForm Position.Value cursor.entry.rest.now) (λ form.
        IsFormAt form Position.Value cursor.entry.rest.now) }
{
    if begins_hidden_label(cursor) {
        return Some(Form::HiddenLabel);
    }
    if begins_marked_definition(cursor) {
        return Some(Form::MarkedDefinition);
    }
    if begins_definition(cursor) {
        return Some(Form::NestedDefinition);
    }
    if begins_call(cursor) {
        return Some(Form::Call);
    }
    None
}

/// Whether a hidden name and a mark stand at hand.
fn begins_hidden_label(cursor: TokenCursor) -> bool
    ensures { IsTrue result ↔ IsTokenAt IsHidden cursor.entry.rest.now
        × Next IsMark cursor.entry.rest.now }
{
    match cursor.next() {
        Some((token, after)) => match &token.kind {
            TokenKind::Hidden(_) => after.is_at_mark(),
            _ => false,
        },
        None => false,
    }
}

/// Whether a definition and `?` or `!` stand at hand.
fn begins_marked_definition(cursor: TokenCursor) -> bool
    ensures { IsTrue result ↔ IsTokenAt IsDefinition cursor.entry.rest.now
        × NextMark cursor.entry.rest.now }
{
    match cursor.next() {
        Some((token, after)) => match &token.kind {
            TokenKind::Definition(_) => { after.is_at_mark() && !after.is_at(Punctuation::Colon) }
            _ => false,
        },
        None => false,
    }
}

/// Whether a definition and a colon stand at hand.
pub fn begins_definition(cursor: TokenCursor) -> bool
    ensures { IsTrue result ↔ IsTokenAt IsDefinition cursor.entry.rest.now
        × NextSign (TokenKind.Mark Punctuation.Colon) cursor.entry.rest.now }
{
    match cursor.next() {
        Some((token, after)) => match &token.kind {
            TokenKind::Definition(_) => after.is_at(Punctuation::Colon),
            _ => false,
        },
        None => false,
    }
}

/// Whether what can be a label, and a mark, stand at hand.
fn begins_any_label(cursor: TokenCursor) -> bool
    ensures { IsTrue result ↔ SeesLabel cursor.entry.rest.now }
{
    match cursor.next() {
        Some((token, after)) => match &token.kind {
            TokenKind::Name(_)
            | TokenKind::Definition(_)
            | TokenKind::Hidden(_)
            | TokenKind::Text(_) => after.is_at_mark(),
            _ => false,
        },
        None => false,
    }
}

/// Whether a name that begins a clause stands at hand.
fn begins_clause(cursor: TokenCursor) -> bool
    ensures { IsTrue result ↔ IsTokenAt BeginsClause cursor.entry.rest.now }
{
    match cursor.next() {
        Some((token, _)) => match &token.kind {
            TokenKind::Name(name) => is_clause(name),
            _ => false,
        },
        None => false,
    }
}

/// Whether a label in brackets or parentheses begins at hand.
fn begins_dynamic_label(cursor: TokenCursor) -> bool
    ensures { IsTrue result ↔ SeesDynamicLabel cursor.entry.rest.now }
{
    cursor.is_at(Punctuation::OpenBracket) || cursor.is_at(Punctuation::OpenParenthesis)
}

/// Whether a call of anything but `close` begins at hand.
fn begins_call(cursor: TokenCursor) -> bool
    ensures { IsTrue result ↔ IsTokenAt IsCallable cursor.entry.rest.now
        × NextSign (TokenKind.Mark Punctuation.OpenParenthesis) cursor.entry.rest.now }
{
    match cursor.next() {
        Some((token, after)) => match &token.kind {
            TokenKind::Name(name) => {
                name.as_str() != "close" && after.is_at(Punctuation::OpenParenthesis)
            }
            TokenKind::Hidden(_) => after.is_at(Punctuation::OpenParenthesis),
            _ => false,
        },
        None => false,
    }
}

/// Whether an integer or its sign stands at hand.
fn is_at_integer(cursor: TokenCursor) -> bool
    ensures { IsTrue result ↔ IsTokenAt BeginsInteger cursor.entry.rest.now }
{
    match cursor.next() {
        Some((token, _)) => match &token.kind {
            TokenKind::Integer(_) | TokenKind::Mark(Punctuation::Minus | Punctuation::Plus) => true,
            _ => false,
        },
        None => false,
    }
}

/// Whether a string stands at hand.
fn is_at_text(cursor: TokenCursor) -> bool
    ensures { IsTrue result ↔ IsTokenAt IsTextToken cursor.entry.rest.now }
{
    match cursor.next() {
        Some((token, _)) => match &token.kind {
            TokenKind::Text(_) => true,
            _ => false,
        },
        None => false,
    }
}
