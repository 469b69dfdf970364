ghost use Rattle.std.specs.Prelude.{◌≡◌, ◌<◌, ◌⊎◌, length, IfOk, IfErr, OnOk, IsErrOf};
ghost use Rattle.cue_lattice.specs.Limits.{text_limit};
ghost use Rattle.cue_lattice.specs.Question.{SameAnswers};
ghost use Rattle.cue_lattice.specs.Refusal.{memory};
ghost use Rattle.cue_lex.specs.Tokens.{text_too_long};
ghost use Rattle.cue_row.specs.Row.{RowRefusesQuestion};
ghost use Rattle.cue_table.specs.Refuses.{TableRefuses};
ghost use Rattle.cue_table.specs.Valid.{IsValidTable};
ghost use Rattle.cue_replica.specs.Texts.{IsLegalText, text_refuses, IsTextFault};
ghost use Rattle.cue_replica.specs.Texts.{IsTextRefusedAtOnce};

use cue_eval::evaluate;
use cue_lattice::Refusal;
use cue_lex::lex;
use cue_row::Row;
use cue_scope::resolve;
use cue_syntax::parse;
use cue_table::Table;
use std::alloc::Global;

/// What a text means, as a table: it refuses exactly what the text refuses, and is valid.
///
/// # Errors
///
/// The first fault among the tokens; else, where no tree spells them, a refusal that fits; else the
/// first check of names, definitions and limits that the text fails. And `Memory`.
pub fn read(alloc: Global, text: &str) -> Result<Table<Row>, Refusal>
    ensures legal { OnOk result (IsLegalText text.now) }
    ensures answers { IfOk result (λ table. SameAnswers (TableRefuses RowRefusesQuestion table)
        (text_refuses text.now)) }
    ensures valid { IfOk result IsValidTable }
    // Want of memory hides no fault that is found with none.
    ensures refused { IfErr result (λ why.
        ((why ≡ memory) × ¬ IsTextRefusedAtOnce text.now) ⊎ IsTextFault text.now why) }
    ensures long { text_limit < length text.now → IsErrOf result text_too_long }
{
    let tokens = lex(alloc, text)?;
    let file = parse(alloc, &tokens, text.len())?;
    let resolved = resolve(alloc, &file)?;
    let table = evaluate(alloc, &resolved)?;
    Ok(table)
}
