//! The parts of an `&`: those that are scalars, and the definitions that others name.
ghost use Rattle.std.specs.Prelude.{◌↔◌, ℕ, IfSome, IsTrue};
ghost use Rattle.cue_scope.specs.Graph.{IsNodeIn};
ghost use Rattle.cue_scope.specs.Kept.{nodes_kept};
ghost use Rattle.cue_syntax.specs.Syntax.{expression};
ghost use Rattle.cue_eval.specs.Inner.Parts.{IsScalarPart, IsUseOf};

use cue_scope::Definitions;
use cue_syntax::{Expr, Identifier};

/// Whether a part is a literal of scalars, a disjunction or a name of the language, also in
/// parentheses.
pub(crate) fn is_scalar_part(part: &Expr) -> bool
    ensures { IsTrue result → IsScalarPart (expression part.now) }
{
    match part {
        Expr::Parenthesis { inner, .. } => is_scalar_part(inner),
        Expr::Name { name, .. } => matches!(name, Identifier::Plain(_)),
        Expr::Disjunction(_) => true,
        Expr::Integer(_) => true,
        Expr::Text(_) => true,
        Expr::Bottom => true,
        Expr::Bound(_, _) => true,
        Expr::OtherInteger(_) => true,
        Expr::OtherText(_) => true,
        Expr::Struct { .. } => false,
        Expr::Close { .. } => false,
        Expr::List { .. } => false,
        Expr::Conjunction(_) => false,
    }
}

/// The number of the definition that a part names, also in parentheses.
pub(crate) fn number_of(definitions: &Definitions, part: &Expr) -> Option<usize>
    ensures { IfSome result (IsUseOf (nodes_kept definitions.now) part.now) }
{
    match part {
        Expr::Parenthesis { inner, .. } => number_of(definitions, inner),
        Expr::Name { name, .. } => match name {
            Identifier::Definition(name) => definitions.number(name.as_str()),
            Identifier::Plain(_) => None,
            Identifier::Hidden(_) => None,
        },
        _ => None,
    }
}

/// These numbers, each once.
pub(crate) fn remove_repeats(numbers: Vec<usize>) -> Vec<usize>
    ensures { (i : ℕ) → IsNodeIn i result.items ↔ IsNodeIn i numbers.items }
{
    let mut each = numbers;
    each.sort_unstable();
    each.dedup();
    each
}
