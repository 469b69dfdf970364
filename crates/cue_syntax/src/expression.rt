ghost use Rattle.std.specs.Prelude.{◌≡◌, ◌+◌, ◌⊎◌, ◌↔◌, ◌∷◌, [], IfOk, IfErr, IsTrue};
ghost use Rattle.std.specs.Prelude.{Bool, false, true};
ghost use Rattle.cue_syntax.specs.Syntax.{expression, rest_of_tree, branch_tree, entry_tree};
ghost use Rattle.cue_syntax.specs.Syntax.{elements_of_list, entries};
ghost use Rattle.cue_syntax.specs.Grammar.{IsExpression, IsUnary, IsConjunct, IsNested, AreNested};
ghost use Rattle.cue_syntax.specs.Grammar.{AreEntries};
ghost use Rattle.cue_syntax.specs.Inner.Grammar.{IsTermOf, IsEntry, IsRestOf, AreElementTokens, AreBraced};
ghost use Rattle.cue_syntax.specs.Viability.{IsSignAt, IsCallOfClose, BeginsLabel};
ghost use Rattle.cue_syntax.specs.Viability.{BeginsDefinition, EndsHere};
ghost use Rattle.cue_syntax.specs.Inner.Viability.{behind_begun};
ghost use Rattle.cue_syntax.specs.Recogniser as goals;
ghost use Rattle.cue_syntax.specs.Recogniser.{row_goal, levels_of};
ghost use Rattle.cue_syntax.specs.Parsed.{IsFurther, IsOnward, ReadsExpression};
ghost use Rattle.cue_syntax.specs.Parsed.{MovesBetween, ParserRefuses};
ghost use Rattle.std.specs.Prelude.{MatchResult};
ghost use Rattle.cue_syntax.specs.Begun.{MayBeginEntry};
ghost use Rattle.cue_syntax.specs.Stops.{IsMemoryParserStop, at_hand};

use crate::cursor::{Operand, Parsed, TokenCursor};
use crate::form;
use crate::label::{begins_label, label, labels};
use crate::literal::{literal, single_literal};
use crate::memory::{boxed, drop_spare_room, push};
use crate::stop::{ParserStop, Why};
use crate::tree::{Declaration, Expr, Rest, Term};
use cue_lex::{Punctuation, TokenKind};
use std::alloc::Global;

/// Declarations or elements with commas between them, and whether a comma stands after the last
/// one.
#[derive(Drop)]
pub struct CommaList<T> {
    pub items: Vec<T>,
    pub comma: bool,
}

/// An expression: a conjunction, or two or more terms joined by `|`.
#[cycle(parser)]
pub fn expression<'a>(alloc: Global, cursor: TokenCursor<'a>, room: usize) -> Parsed<'a, Expr<'a>>
    ensures spelled { IfOk result (ReadsExpression room cursor.entry) }
    ensures further { IfOk result (λ r. IsFurther cursor.entry r.1) }
    ensures moves { IfOk result (λ r.
        MovesBetween room (goals.expression ∷ []) [] cursor.entry r.1) }
    ensures refused { IfErr result (ParserRefuses room (goals.expression ∷ []) cursor.entry) }
{
    match single_literal(cursor) {
        Some(read) => Ok(read),
        None => compound(alloc, cursor, room),
    }
}

/// An expression that is no literal alone.
#[cycle(parser)]
fn compound<'a>(alloc: Global, cursor: TokenCursor<'a>, room: usize) -> Parsed<'a, Expr<'a>>
    ensures spelled { IfOk result (ReadsExpression room cursor.entry) }
    ensures further { IfOk result (λ r. IsFurther cursor.entry r.1) }
    ensures moves { IfOk result (λ r.
        MovesBetween room (goals.expression ∷ []) [] cursor.entry r.1) }
    ensures refused { IfErr result (ParserRefuses room (goals.expression ∷ []) cursor.entry) }
{
    if cursor.is_at(Punctuation::Star) {
        let (marked, behind) = term(alloc, cursor, room)?;
        return disjunction(alloc, cursor, marked, behind, room);
    }
    let (first, rest) = unary(alloc, cursor, room)?;
    if rest.ends_operand() {
        return Ok((first, rest));
    }
    after_operand(alloc, cursor, first, rest, room)
}

/// An expression without a mark, of which the first operand or bound is read.
#[cycle(parser)]
fn after_operand<'a>(
    alloc: Global,
    cursor: TokenCursor<'a>,
    first: Expr<'a>,
    rest: TokenCursor<'a>,
    room: usize,
) -> Parsed<'a, Expr<'a>>
    requires unmarked { ¬ IsSignAt (TokenKind.Mark Punctuation.Star) cursor.rest.now }
    requires spelled { IsExpression room cursor.rest.now (expression first) rest.rest.now }
    requires further { IsFurther cursor rest }
    requires moves { MovesBetween room (goals.unary ∷ []) [] cursor rest }
    requires unary { IsUnary (expression first) }
    ensures spelled { IfOk result (ReadsExpression room cursor.entry) }
    ensures further { IfOk result (λ r. IsFurther cursor.entry r.1) }
    ensures moves { IfOk result (λ r.
        MovesBetween room (goals.expression ∷ []) [] cursor.entry r.1) }
    ensures refused { IfErr result (ParserRefuses room (goals.expression ∷ []) cursor.entry) }
{
    let from = cursor.place();
    let (value, rest) = parts(alloc, cursor, first, rest, room)?;
    let first = Term {
        marked: false,
        from,
        value,
    };
    disjunction(alloc, cursor, first, rest, room)
}

/// An expression of which the first term is read: this term, or two or more joined by `|`.
#[cycle(parser)]
fn disjunction<'a>(
    alloc: Global,
    cursor: TokenCursor<'a>,
    first: Term<'a>,
    rest: TokenCursor<'a>,
    room: usize,
) -> Parsed<'a, Expr<'a>>
    requires spelled { IsTermOf room cursor.rest.now (branch_tree first) rest.rest.now }
    requires further { IsFurther cursor rest }
    requires moves { MovesBetween room (goals.term ∷ []) [] cursor rest }
    requires marked { IsTrue first.marked
        ↔ IsSignAt (TokenKind.Mark Punctuation.Star) cursor.rest.now }
    ensures spelled { IfOk result (ReadsExpression room cursor.entry) }
    ensures further { IfOk result (λ r. IsFurther cursor.entry r.1) }
    ensures moves { IfOk result (λ r.
        MovesBetween room (goals.expression ∷ []) [] cursor.entry r.1) }
    ensures refused { IfErr result (ParserRefuses room (goals.expression ∷ []) cursor.entry) }
{
    let Some(mut after) = rest.skip(Punctuation::Bar) else {
        if first.marked {
            return Err(rest.syntax());
        }
        return Ok((first.value, rest));
    };
    let mut terms = Vec::new(alloc);
    push(&mut terms, first)?;
    'terms: loop {
        let (next, rest) = term(alloc, after, room)?;
        push(&mut terms, next)?;
        match rest.skip(Punctuation::Bar) {
            Some(behind) => after = behind,
            None => return Ok((Expr::Disjunction(terms), rest)),
        }
    }
}

/// A term of a disjunction.
#[cycle(parser)]
fn term<'a>(alloc: Global, cursor: TokenCursor<'a>, room: usize) -> Parsed<'a, Term<'a>>
    ensures further { IfOk result (λ r. IsFurther cursor.entry r.1) }
    ensures spelled { IfOk result (λ r. IsTermOf room cursor.entry.rest.now (branch_tree r.0)
        r.1.rest.now) }
    ensures moves { IfOk result (λ r. MovesBetween room (goals.term ∷ []) [] cursor.entry r.1) }
    ensures refused { IfErr result (ParserRefuses room (goals.term ∷ []) cursor.entry) }
    ensures marked { IfOk result (λ r. IsTrue r.0.marked
        ↔ IsSignAt (TokenKind.Mark Punctuation.Star) cursor.entry.rest.now) }
{
    match cursor.skip(Punctuation::Star) {
        Some(after) => {
            let from = after.place();
            let (value, rest) = unary(alloc, after, room)?;
            Ok((
                Term {
                    marked: true,
                    from,
                    value,
                },
                rest,
            ))
        }
        None => {
            let from = cursor.place();
            let (value, rest) = conjunction(alloc, cursor, room)?;
            Ok((
                Term {
                    marked: false,
                    from,
                    value,
                },
                rest,
            ))
        }
    }
}

/// One part, or two or more parts joined by `&`.
#[cycle(parser)]
fn conjunction<'a>(alloc: Global, cursor: TokenCursor<'a>, room: usize) -> Parsed<'a, Expr<'a>>
    ensures spelled { IfOk result (ReadsExpression room cursor.entry) }
    ensures further { IfOk result (λ r. IsFurther cursor.entry r.1) }
    ensures moves { IfOk result (λ r.
        MovesBetween room (goals.unary ∷ goals.more_parts ∷ []) [] cursor.entry r.1) }
    ensures conjunct { IfOk result (λ r. IsConjunct (expression r.0)) }
    ensures refused { IfErr result (ParserRefuses room (goals.unary ∷ goals.more_parts ∷ [])
        cursor.entry) }
{
    let (first, rest) = unary(alloc, cursor, room)?;
    parts(alloc, cursor, first, rest, room)
}

/// One part, which is read, or two or more parts joined by `&`.
#[cycle(parser)]
fn parts<'a>(
    alloc: Global,
    cursor: TokenCursor<'a>,
    first: Expr<'a>,
    rest: TokenCursor<'a>,
    room: usize,
) -> Parsed<'a, Expr<'a>>
    requires spelled { IsExpression room cursor.rest.now (expression first) rest.rest.now }
    requires further { IsFurther cursor rest }
    requires moves { MovesBetween room (goals.unary ∷ []) [] cursor rest }
    requires unary { IsUnary (expression first) }
    ensures spelled { IfOk result (ReadsExpression room cursor.entry) }
    ensures further { IfOk result (λ r. IsFurther cursor.entry r.1) }
    ensures moves { IfOk result (λ r.
        MovesBetween room (goals.unary ∷ goals.more_parts ∷ []) [] cursor.entry r.1) }
    ensures conjunct { IfOk result (λ r. IsConjunct (expression r.0)) }
    ensures refused { IfErr result (ParserRefuses room (goals.unary ∷ goals.more_parts ∷ [])
        cursor.entry) }
{
    let Some(mut after) = rest.skip(Punctuation::Ampersand) else {
        return Ok((first, rest));
    };
    let mut parts = Vec::new(alloc);
    push(&mut parts, first)?;
    'parts: loop {
        let (next, rest) = unary(alloc, after, room)?;
        push(&mut parts, next)?;
        match rest.skip(Punctuation::Ampersand) {
            Some(behind) => after = behind,
            None => return Ok((Expr::Conjunction(parts), rest)),
        }
    }
}

/// An operand or a bound.
#[cycle(parser)]
fn unary<'a>(alloc: Global, cursor: TokenCursor<'a>, room: usize) -> Parsed<'a, Expr<'a>>
    ensures spelled { IfOk result (ReadsExpression room cursor.entry) }
    ensures further { IfOk result (λ r. IsFurther cursor.entry r.1) }
    ensures moves { IfOk result (λ r. MovesBetween room (goals.unary ∷ []) [] cursor.entry r.1) }
    ensures unary { IfOk result (λ r. IsUnary (expression r.0)) }
    ensures refused { IfErr result (ParserRefuses room (goals.unary ∷ []) cursor.entry) }
{
    match cursor.operand() {
        Operand::Parenthesis => parenthesis(alloc, cursor, room),
        Operand::Struct => structure(alloc, cursor, room),
        Operand::List => list(alloc, cursor, room),
        Operand::Close => close(alloc, cursor, room),
        Operand::Literal => literal(cursor),
    }
}

/// An expression in parentheses.
#[cycle(parser)]
fn parenthesis<'a>(alloc: Global, cursor: TokenCursor<'a>, room: usize) -> Parsed<'a, Expr<'a>>
    requires { IsSignAt (TokenKind.Mark Punctuation.OpenParenthesis) cursor.rest.now }
    ensures spelled { IfOk result (ReadsExpression room cursor.entry) }
    ensures further { IfOk result (λ r. IsFurther cursor.entry r.1) }
    ensures moves { IfOk result (λ r. MovesBetween room (goals.unary ∷ []) [] cursor.entry r.1) }
    ensures unary { IfOk result (λ r. IsUnary (expression r.0)) }
    ensures refused { IfErr result (ParserRefuses room (goals.unary ∷ []) cursor.entry) }
{
    let inside = cursor.open_level(room)?;
    let open = cursor.expect(Punctuation::OpenParenthesis)?;
    let (inner, last) = expression(alloc, open, inside)?;
    let (comma, last) = last.trailing_comma();
    let rest = last.expect(Punctuation::CloseParenthesis)?;
    let inner = boxed(alloc, inner)?;
    Ok((Expr::Parenthesis { inner, comma }, rest))
}

/// A struct literal.
#[cycle(parser)]
fn structure<'a>(alloc: Global, cursor: TokenCursor<'a>, room: usize) -> Parsed<'a, Expr<'a>>
    requires { IsSignAt (TokenKind.Mark Punctuation.OpenBrace) cursor.rest.now }
    ensures spelled { IfOk result (ReadsExpression room cursor.entry) }
    ensures further { IfOk result (λ r. IsFurther cursor.entry r.1) }
    ensures moves { IfOk result (λ r. MovesBetween room (goals.unary ∷ []) [] cursor.entry r.1) }
    ensures unary { IfOk result (λ r. IsUnary (expression r.0)) }
    ensures refused { IfErr result (ParserRefuses room (goals.unary ∷ []) cursor.entry) }
{
    let inside = cursor.open_level(room)?;
    let open = cursor.expect(Punctuation::OpenBrace)?;
    let (row, rest) = braces(alloc, open, inside)?;
    Ok((
        Expr::Struct {
            declarations: drop_spare_room(row.items),
            comma: row.comma,
        },
        rest,
    ))
}

/// `close` and a struct literal in parentheses.
#[cycle(parser)]
fn close<'a>(alloc: Global, cursor: TokenCursor<'a>, room: usize) -> Parsed<'a, Expr<'a>>
    requires { IsCallOfClose cursor.rest.now }
    ensures spelled { IfOk result (ReadsExpression room cursor.entry) }
    ensures further { IfOk result (λ r. IsFurther cursor.entry r.1) }
    ensures moves { IfOk result (λ r. MovesBetween room (goals.unary ∷ []) [] cursor.entry r.1) }
    ensures unary { IfOk result (λ r. IsUnary (expression r.0)) }
    ensures refused { IfErr result (ParserRefuses room (goals.unary ∷ []) cursor.entry) }
{
    let (from, after) = cursor.expect_close()?;
    let inside = after.open_level(room)?;
    let open = after.expect(Punctuation::OpenParenthesis)?;
    let brace = open.expect(Punctuation::OpenBrace)?;
    let last = open.open_level(inside)?;
    let (row, last) = braces(alloc, brace, last)?;
    let (comma, last) = last.trailing_comma();
    let rest = last.expect(Punctuation::CloseParenthesis)?;
    Ok((
        Expr::Close {
            from,
            declarations: drop_spare_room(row.items),
            inner_comma: row.comma,
            comma,
        },
        rest,
    ))
}

/// A list literal.
#[cycle(parser)]
fn list<'a>(alloc: Global, cursor: TokenCursor<'a>, room: usize) -> Parsed<'a, Expr<'a>>
    requires { IsSignAt (TokenKind.Mark Punctuation.OpenBracket) cursor.rest.now }
    ensures spelled { IfOk result (ReadsExpression room cursor.entry) }
    ensures further { IfOk result (λ r. IsFurther cursor.entry r.1) }
    ensures moves { IfOk result (λ r. MovesBetween room (goals.unary ∷ []) [] cursor.entry r.1) }
    ensures unary { IfOk result (λ r. IsUnary (expression r.0)) }
    ensures refused { IfErr result (ParserRefuses room (goals.unary ∷ []) cursor.entry) }
{
    let inside = cursor.open_level(room)?;
    let open = cursor.expect(Punctuation::OpenBracket)?;
    let (row, last) = elements(alloc, open, inside)?;
    if row.comma || row.items.is_empty() {
        if let Some(after) = last.skip(Punctuation::Ellipsis) {
            let (further, after) = list_rest(alloc, after, inside)?;
            let (comma, after) = after.trailing_comma();
            let rest = after.expect(Punctuation::CloseBracket)?;
            return Ok((
                Expr::List {
                    elements: row.items,
                    rest: further,
                    comma,
                },
                rest,
            ));
        }
    }
    let rest = last.expect(Punctuation::CloseBracket)?;
    Ok((
        Expr::List {
            elements: row.items,
            rest: Rest::Ends,
            comma: row.comma,
        },
        rest,
    ))
}

/// What the `...` of a list says of further elements: the expression after it, if one follows.
#[cycle(parser)]
fn list_rest<'a>(alloc: Global, cursor: TokenCursor<'a>, room: usize) -> Parsed<'a, Rest<'a>>
    ensures onward { IfOk result (λ r. IsOnward cursor.entry r.1) }
    ensures spelled { IfOk result (λ r.
        IsRestOf room cursor.entry.rest.now (rest_of_tree r.0) r.1.rest.now) }
    ensures moves { IfOk result (λ r.
        MovesBetween (1 + room) (goals.dots ∷ []) (goals.bracket ∷ []) cursor.entry r.1) }
    ensures refused { IfErr result (ParserRefuses (1 + room) (goals.dots ∷ []) cursor.entry) }
{
    if cursor.is_at(Punctuation::Comma) || cursor.is_at(Punctuation::CloseBracket) {
        return Ok((Rest::GoesOn, cursor));
    }
    let (each, rest) = expression(alloc, cursor, room)?;
    let each = boxed(alloc, each)?;
    Ok((Rest::Each(each), rest))
}

/// The elements of a list, up to its `...` or its end.
#[cycle(parser)]
fn elements<'a>(
    alloc: Global,
    cursor: TokenCursor<'a>,
    room: usize,
) -> Parsed<'a, CommaList<Expr<'a>>>
    ensures onward { IfOk result (λ r. IsOnward cursor.entry r.1) }
    ensures spelled { IfOk result (λ r.
        AreElementTokens room cursor.entry.rest.now (elements_of_list r.0.items.items) r.0.comma r.1.rest.now) }
    ensures moves { IfOk result (λ r. MovesBetween (1 + room) (goals.elements ∷ [])
        (row_goal goals.elements goals.more_elements r.0.comma r.0.items.items ∷ [])
        cursor.entry r.1) }
    ensures last { IfOk result (λ r. r.0.comma ≡ false
        → ¬ IsSignAt (TokenKind.Mark Punctuation.Comma) r.1.rest.now) }
    ensures open { IfOk result (λ r. (r.0.comma ≡ true) ⊎ (r.0.items.items ≡ []) →
        IsSignAt (TokenKind.Mark Punctuation.CloseBracket) r.1.rest.now
        ⊎ IsSignAt (TokenKind.Mark Punctuation.Ellipsis) r.1.rest.now) }
    ensures refused { IfErr result (ParserRefuses (1 + room) (goals.elements ∷ []) cursor.entry) }
{
    let mut items = Vec::new(alloc);
    let mut comma = false;
    let mut rest = cursor;
    'elements: while !rest.is_at(Punctuation::CloseBracket) && !rest.is_at(Punctuation::Ellipsis) {
        let (element, behind) = expression(alloc, rest, room)?;
        push(&mut items, element)?;
        (comma, rest) = behind.trailing_comma();
        if !comma {
            return Ok((CommaList { items, comma }, rest));
        }
    }
    Ok((CommaList { items, comma }, rest))
}

/// Declarations and the brace that closes them.
#[cycle(parser)]
fn braces<'a>(
    alloc: Global,
    cursor: TokenCursor<'a>,
    room: usize,
) -> Parsed<'a, CommaList<Declaration<'a>>>
    ensures onward { IfOk result (λ r. IsOnward cursor.entry r.1) }
    ensures spelled { IfOk result (λ r.
        AreBraced room cursor.entry.rest.now (entries r.0.items.items) r.0.comma r.1.rest.now) }
    ensures moves { IfOk result (λ r.
        MovesBetween (1 + room) (goals.entries false ∷ []) [] cursor.entry r.1) }
    ensures refused { IfErr result (ParserRefuses (1 + room) (goals.entries false ∷ []) cursor.entry) }
{
    let (row, last) = declarations(alloc, cursor, false, room)?;
    let rest = last.expect(Punctuation::CloseBrace)?;
    Ok((row, rest))
}

/// Declarations, up to what can't begin another one: at the top the end, below it a `}`.
#[cycle(parser)]
pub fn declarations<'a>(
    alloc: Global,
    cursor: TokenCursor<'a>,
    top: bool,
    room: usize,
) -> Parsed<'a, CommaList<Declaration<'a>>>
    ensures onward { IfOk result (λ r. IsOnward cursor.entry r.1) }
    ensures spelled { IfOk result (λ r.
        AreEntries room cursor.entry.rest.now (entries r.0.items.items) r.0.comma r.1.rest.now) }
    ensures nested { IfOk result (λ r. top ≡ false → AreNested (entries r.0.items.items)) }
    ensures moves { IfOk result (λ r. MovesBetween (levels_of (goals.entries top) + room)
        (goals.entries top ∷ [])
        (row_goal (goals.entries top) (goals.more_entries top) r.0.comma r.0.items.items ∷ [])
        cursor.entry r.1) }
    ensures last { IfOk result (λ r. r.0.comma ≡ false
        → ¬ IsSignAt (TokenKind.Mark Punctuation.Comma) r.1.rest.now) }
    ensures open { IfOk result (λ r. (r.0.comma ≡ true) ⊎ (r.0.items.items ≡ [])
        → EndsHere top r.1.rest.now) }
    ensures refused { IfErr result (ParserRefuses (levels_of (goals.entries top) + room)
        (goals.entries top ∷ []) cursor.entry) }
    ensures begins { IfErr result (λ r. IsMemoryParserStop r → MayBeginEntry cursor.entry.rest.now) }
{
    let mut items = Vec::new(alloc);
    let mut comma = false;
    let mut rest = cursor;
    'declarations: while !ends_declarations(rest, top) {
        let (item, behind) = declaration(alloc, rest, top, room)?;
        push(&mut items, item)?;
        (comma, rest) = behind.trailing_comma();
        if !comma {
            return Ok((CommaList { items, comma }, rest));
        }
    }
    Ok((CommaList { items, comma }, rest))
}

fn ends_declarations(cursor: TokenCursor, top: bool) -> bool
    ensures { IsTrue result ↔ EndsHere top cursor.entry.rest.now }
{
    if top {
        cursor.is_at_end()
    } else {
        cursor.is_at(Punctuation::CloseBrace)
    }
}

/// A declaration. A definition stands at the top alone.
#[cycle(parser)]
fn declaration<'a>(
    alloc: Global,
    cursor: TokenCursor<'a>,
    top: bool,
    room: usize,
) -> Parsed<'a, Declaration<'a>>
    requires { ¬ EndsHere top cursor.rest.now }
    ensures further { IfOk result (λ r. IsFurther cursor.entry r.1) }
    ensures spelled { IfOk result (λ r. IsEntry room cursor.entry.rest.now (entry_tree r.0)
        r.1.rest.now) }
    ensures nested { IfOk result (λ r. top ≡ false → IsNested (entry_tree r.0)) }
    ensures moves { IfOk result (λ r. MovesBetween (levels_of (goals.entries top) + room)
        (goals.entries top ∷ []) (goals.more_entries top ∷ []) cursor.entry r.1) }
    ensures refused { IfErr result (ParserRefuses (levels_of (goals.entries top) + room)
        (goals.entries top ∷ []) cursor.entry) }
    ensures begins { MatchResult result (λ r. MayBeginEntry cursor.entry.rest.now)
        (λ r. IsMemoryParserStop r → MayBeginEntry cursor.entry.rest.now) }
{
    if let Some(after) = cursor.skip(Punctuation::Ellipsis) {
        return Ok((Declaration::Ellipsis, after));
    }
    if begins_label(cursor) {
        return field(alloc, cursor, room);
    }
    if begins_definition(cursor, top) {
        return definition(alloc, cursor, room);
    }
    Err(no_declaration(cursor, top))
}

/// Where the tokens leave the grammar if no declaration stands at hand: at the first token, or
/// after it where a declaration can begin with it.
fn no_declaration(cursor: TokenCursor, top: bool) -> ParserStop
    ensures { result ≡ at_hand Why.Syntax cursor.entry.end (behind_begun top cursor.entry.rest.now) }
{
    match cursor.next() {
        Some((token, after)) => match &token.kind {
            TokenKind::Name(_) | TokenKind::Text(_) => after.syntax(),
            TokenKind::Definition(_) => { if top { after.syntax() } else { cursor.syntax() } }
            _ => cursor.syntax(),
        },
        None => cursor.syntax(),
    }
}

/// Whether a definition stands at hand.
fn begins_definition(cursor: TokenCursor, top: bool) -> bool
    ensures top { IsTrue result → top ≡ true }
    ensures begins { IsTrue result → BeginsDefinition cursor.entry.rest.now }
    ensures no { result ≡ false → top ≡ true → ¬ BeginsDefinition cursor.entry.rest.now }
{
    top && form::begins_definition(cursor)
}

/// A field with its chain of labels.
#[cycle(parser)]
fn field<'a>(alloc: Global, cursor: TokenCursor<'a>, room: usize) -> Parsed<'a, Declaration<'a>>
    requires { BeginsLabel cursor.rest.now }
    ensures further { IfOk result (λ r. IsFurther cursor.entry r.1) }
    ensures spelled { IfOk result (λ r. IsEntry room cursor.entry.rest.now (entry_tree r.0)
        r.1.rest.now) }
    ensures nested { IfOk result (λ r. IsNested (entry_tree r.0)) }
    ensures moves { IfOk result (λ r. (top : Bool) →
        MovesBetween (levels_of (goals.entries top) + room) (goals.entries top ∷ [])
        (goals.more_entries top ∷ []) cursor.entry r.1) }
    ensures refused { IfErr result (λ r. (top : Bool) →
        ParserRefuses (levels_of (goals.entries top) + room) (goals.entries top ∷ []) cursor.entry r) }
{
    let (label, after) = label(cursor)?;
    let chain = labels(alloc, after, room)?;
    let (value, rest) = expression(alloc, chain.after, chain.room)?;
    Ok((
        Declaration::Field {
            label,
            chain: chain.labels,
            value,
        },
        rest,
    ))
}

/// A definition with its chain of labels.
#[cycle(parser)]
fn definition<'a>(
    alloc: Global,
    cursor: TokenCursor<'a>,
    room: usize,
) -> Parsed<'a, Declaration<'a>>
    requires { BeginsDefinition cursor.rest.now }
    ensures further { IfOk result (λ r. IsFurther cursor.entry r.1) }
    ensures spelled { IfOk result (λ r. IsEntry room cursor.entry.rest.now (entry_tree r.0)
        r.1.rest.now) }
    ensures moves { IfOk result (λ r. MovesBetween room (goals.entries true ∷ [])
        (goals.more_entries true ∷ []) cursor.entry r.1) }
    ensures refused { IfErr result (ParserRefuses room (goals.entries true ∷ []) cursor.entry) }
{
    let Some((token, after)) = cursor.next() else {
        return Err(cursor.syntax());
    };
    let TokenKind::Definition(name) = &token.kind else {
        return Err(cursor.syntax());
    };
    let after = after.expect(Punctuation::Colon)?;
    let name = name.share();
    let chain = labels(alloc, after, room)?;
    let (value, rest) = expression(alloc, chain.after, chain.room)?;
    Ok((
        Declaration::Definition {
            name,
            from: token.from as usize,
            chain: chain.labels,
            value,
        },
        rest,
    ))
}
