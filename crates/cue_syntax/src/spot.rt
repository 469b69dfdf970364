ghost use Rattle.std.specs.Prelude.{◌≡◌, ◌↔◌, ◌<◌, ◌^◌, List, [], ◌∷◌};
ghost use Rattle.cue_syntax.specs.Spots as spots;
ghost use Rattle.cue_syntax.specs.Spots.{spot_of, open_after};
ghost use Rattle.cue_syntax.specs.Inner.Backwards.{open_from, open_at_symbol, KnowsOpen, ClosesFew, IsCloseName};

use cue_lex::{Punctuation, Token, TokenKind};

/// Where a symbol stands in a text, by the tokens before it.
#[derive(Clone, Copy)]
pub enum Position {
    /// Where a declaration of the text begins.
    Top,
    /// Where a declaration of a struct begins.
    Inner,
    /// After the colon of a field or a definition.
    Value,
    /// Where an operand begins elsewhere.
    Operand,
    /// After the `...` of the text or of a struct.
    Ellipsis,
    /// After `<`, `<=`, `>` or `>=`.
    Bound,
    /// After `!=`.
    NotEqual,
    /// After the name `close`.
    CloseName,
    /// After `close(`.
    CloseArgument,
    /// Anywhere else.
    Other,
}

/// What a brace, a bracket or a parenthesis opened.
#[derive(Clone, Copy)]
pub enum Inside {
    Struct,
    List,
    /// A list, after its `...`.
    Rest,
    Parenthesis,
}

/// Where the symbol after these tokens stands. It takes no memory: it goes back from the last token
/// to the bracket that is open there.
pub fn find_spot(before: &[Token]) -> Position
    ensures { result ≡ spot_of before.now }
{
    match before.split_last() {
        Some((last, earlier)) => spot_after(find_open(earlier), own_spot(earlier), &last.kind),
        None => Position::Top,
    }
}

/// The spot of the symbol after these tokens, as far as a parenthesis there asks for it.
fn own_spot(before: &[Token]) -> Position
    ensures { IsCloseName result ↔ IsCloseName (spot_of before.now) }
{
    match before.split_last() {
        Some((last, _)) => spot_after(None, Position::Other, &last.kind),
        None => Position::Top,
    }
}

/// What is open after these tokens, the innermost of it; nothing is at the top of the text.
fn find_open(before: &[Token]) -> Option<Inside>
    ensures { result ≡ spots.innermost_open (open_from [] before.now) }
{
    let mut back = Back {
        closed: 0,
        has_rest: false,
    };
    let mut left = before.len();
    'tokens: while left > 0 {
        left -= 1;
        match step_back(back, &before[left].kind) {
            BackStep::Open(inside) => return Some(inside),
            BackStep::Further(further) => back = further,
        }
    }
    None
}

/// What is known of the brackets on the way back from a symbol.
#[derive(Clone, Copy)]
pub(crate) struct Back {
    /// How many of them close on the way, and do not open on it.
    pub closed: usize,
    /// Whether `...` stands on the way, in the innermost bracket that is open at the symbol.
    pub has_rest: bool,
}

/// What a token tells on the way back.
pub(crate) enum BackStep {
    /// It opens what is open at the symbol.
    Open(Inside),
    Further(Back),
}

/// The step back over a bracket that opens.
fn open(back: Back, inside: Inside) -> BackStep
    requires { back.closed < 2 ^ 62 }
    ensures tells { (opened : List Inside) → KnowsOpen result opened (open_at_symbol back (inside ∷ opened)) }
    ensures few { ClosesFew result back.closed }
{
    if back.closed > 0 {
        return BackStep::Further(Back {
            closed: back.closed - 1,
            has_rest: back.has_rest,
        });
    }
    match inside {
        Inside::List if back.has_rest => BackStep::Open(Inside::Rest),
        _ => BackStep::Open(inside),
    }
}

/// The step back over a token.
fn step_back(back: Back, kind: &TokenKind) -> BackStep
    requires { back.closed < 2 ^ 62 }
    ensures tells { (opened : List Inside)
        → KnowsOpen result opened (open_at_symbol back (open_after opened kind.now)) }
    ensures few { ClosesFew result back.closed }
{
    let Back { closed, has_rest } = back;
    match kind {
        TokenKind::Mark(Punctuation::OpenBrace) => open(back, Inside::Struct),
        TokenKind::Mark(Punctuation::OpenParenthesis) => open(back, Inside::Parenthesis),
        TokenKind::Mark(Punctuation::OpenBracket) => open(back, Inside::List),
        TokenKind::Mark(
            Punctuation::CloseBrace | Punctuation::CloseBracket | Punctuation::CloseParenthesis,
        ) => {
            BackStep::Further(Back {
                closed: closed + 1,
                has_rest,
            })
        }
        TokenKind::Mark(Punctuation::Ellipsis) => BackStep::Further(Back {
            closed,
            has_rest: has_rest || closed == 0,
        }),
        _ => BackStep::Further(back),
    }
}

/// Where the symbol after a token stands, by what is open around that token and by its own spot.
fn spot_after(inside: Option<Inside>, spot: Position, kind: &TokenKind) -> Position
    ensures { result ≡ spots.spot_after inside spot kind.now }
{
    match kind {
        TokenKind::Mark(Punctuation::Colon) => Position::Value,
        TokenKind::Mark(Punctuation::OpenBrace) => Position::Inner,
        TokenKind::Mark(
            Punctuation::OpenBracket
            | Punctuation::Ampersand
            | Punctuation::Bar
            | Punctuation::Star,
        ) => { Position::Operand }
        TokenKind::Mark(Punctuation::OpenParenthesis) => match spot {
            Position::CloseName => Position::CloseArgument,
            _ => Position::Operand,
        },
        TokenKind::Mark(Punctuation::Comma) => match inside {
            None => Position::Top,
            Some(Inside::Struct) => Position::Inner,
            Some(Inside::List) => Position::Operand,
            _ => Position::Other,
        },
        TokenKind::Mark(Punctuation::Ellipsis) => match inside {
            None | Some(Inside::Struct) => Position::Ellipsis,
            Some(Inside::List) => Position::Operand,
            _ => Position::Other,
        },
        TokenKind::Mark(
            Punctuation::Less | Punctuation::AtMost | Punctuation::Greater | Punctuation::AtLeast,
        ) => { Position::Bound }
        TokenKind::Mark(Punctuation::NotEqual) => Position::NotEqual,
        TokenKind::Name(name) => {
            if name.as_str() == "close" {
                Position::CloseName
            } else {
                Position::Other
            }
        }
        _ => Position::Other,
    }
}
