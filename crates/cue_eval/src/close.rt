//! Closing the body of a definition: where it writes struct literals itself, the labels that these
//! don't declare are left out.
ghost use Rattle.std.specs.Prelude.{IfOk};
ghost use Rattle.cue_syntax.specs.Syntax as tree;
ghost use Rattle.cue_scope.specs.Core.{Core};
ghost use Rattle.cue_scope.specs.Meaning.{nest_in_labels};
ghost use Rattle.cue_eval.specs.Inner.Adding.{IsBodyKnown, IsClosedBody};
ghost use Rattle.cue_eval.specs.Evaluated.{HasAnswersOf};
ghost use Rattle.cue_eval.specs.Inner.Told.{DeclaresLiterals, meaning_in_scope};
ghost use Rattle.cue_eval.specs.declared.declares.LiteralSelection.TheVariants as whoses;

use crate::declared::Declared;
use crate::declares::{LiteralScope, LiteralSelection, wrap_in_chain};
use crate::left_out::label_sets;
use cue_lattice::Memory;
use cue_row::Row;
use cue_syntax::{Expr, Label};
use cue_table::Table;
use std::alloc::Global;

/// The body of a definition, closed.
#[derive(Drop)]
pub(crate) struct Closed {
    /// What a use of the definition refuses.
    pub(crate) rows: Table<Row>,
    /// Where one of its struct literals has a `...`, also in definitions that it names.
    pub(crate) dots: Table<Declared>,
}

impl<'a, 'f, 't> LiteralScope<'a, 'f, 't> {
    /// What is told of a body.
    pub(crate) fn body(
        &self,
        whose: LiteralSelection,
        chain: &[Label],
        value: &Expr,
    ) -> Result<Table<Declared>, Memory>
        requires { IsBodyKnown self.now chain.now (tree.expression value.now) }
        ensures { IfOk result
            (DeclaresLiterals whose (nest_in_labels chain.now (meaning_in_scope self.now (tree.expression value.now)))) }
    {
        let table = self.expression(whose, value)?;
        wrap_in_chain(self.alloc, whose, chain, table)
    }
}

/// Closes the body of a definition, of which the rows are given, with what its own literals
/// declare, and where one of all its literals has a `...`.
pub(crate) fn close(
    alloc: Global,
    own: &Table<Declared>,
    dots: Table<Declared>,
    rows: Table<Row>,
) -> Result<Closed, Memory>
    ensures { IfOk result (λ closed. (c : Core) → DeclaresLiterals whoses.Own c own.now →
        DeclaresLiterals whoses.Dotted c dots → HasAnswersOf c rows → IsClosedBody c closed) }
{
    let sets = label_sets(alloc, own, &dots, &rows)?;
    let mut closed = rows;
    closed.meet_with(sets)?;
    Ok(Closed { rows: closed, dots })
}
