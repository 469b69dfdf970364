//! Evaluation of texts.
ghost use Rattle.std.specs.Prelude.{IfOk};
ghost use Rattle.cue_scope.specs.Files.{entries_of};
ghost use Rattle.cue_scope.specs.Meaning.{meant_text};
ghost use Rattle.cue_eval.specs.Evaluated.{IsEvaluated};

use crate::definitions::EvaluatedDefinitions;
use cue_lattice::Memory;
use cue_row::Row;
use cue_scope::Resolved;
use cue_table::Table;
use std::alloc::Global;

/// The table of a legal text: at each path it refuses what the struct of the text's regular
/// declarations refuses.
///
/// # Errors
///
/// `Memory`.
pub fn evaluate(alloc: Global, resolved: &Resolved) -> Result<Table<Row>, Memory>
    ensures { IfOk result (IsEvaluated (meant_text (entries_of resolved.now))) }
{
    let declarations = resolved.declarations();
    let definitions = resolved.definitions();
    let order = resolved.order();
    let mut found = EvaluatedDefinitions::none(alloc, resolved)?;
    for number in order {
        let definition = &definitions.all()[*number];
        let is_scalar = resolved.is_scalar(*number);
        let defined = found.define(alloc, definitions, definition, is_scalar)?;
        found.keep(*number, defined);
    }
    let tables = found.tables(alloc, definitions);
    tables.literal(declarations)
}
