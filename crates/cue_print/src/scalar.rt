ghost use Rattle.std.specs.Prelude.{◌≡◌, ◌++◌, Some, map, IfOk, OnErr, OnOk};
ghost use Rattle.std.specs.Io.KnownBytes.{Appends};
ghost use Rattle.cue_device.specs.Texts.{WritesPrefix};
ghost use Rattle.cue_print.specs.Difference.{scalars_without};
ghost use Rattle.cue_print.specs.Printed.{scalar_value};
ghost use Rattle.cue_print.specs.Spelled.{default_text, terms_text, value_text};
ghost use Rattle.cue_print.specs.Terms.{terms_of};
ghost use Rattle.cue_print.specs.Inner.TermOf.{term_of};

use crate::term::PrintedTerm;
use crate::terms::{push_operand, push_terms, terms_of};
use crate::writer::Scratch;
use cue_device::TextSink;
use cue_lattice::{Memory, Narrow};
use cue_row::{Row, Scalars};
use cue_scalars::ScalarSet;
use std::alloc::Global;

/// Writes the scalars that may stand: those that are usual, marked as a default, in front of the
/// others, unless all are usual.
pub(crate) fn push_scalar<S: TextSink>(
    scratch: &mut Scratch,
    out: &mut S,
    row: &Row,
) -> Result<(), S::SinkError>
    ensures told { OnOk result (Appends (S.taken out.old) (S.taken out.new)
        (value_text (scalar_value (terms_of row.now.value) (terms_of row.now.usual)
        (terms_of (scalars_without row.now.value row.now.usual))))) }
    ensures begun { OnErr result (WritesPrefix (S.taken out.old) (S.taken out.new)
        (value_text (scalar_value (terms_of row.now.value) (terms_of row.now.usual)
        (terms_of (scalars_without row.now.value row.now.usual))))) }
{
    let others = unusual_text(scratch.alloc, row)?;
    let terms = terms_of(scratch.alloc, &Scalars::of(&others))?;
    if terms.is_empty() {
        let all = terms_of(scratch.alloc, &row.value())?;
        return push_terms(scratch, out, &all);
    }
    let usual = terms_of(scratch.alloc, &row.usual())?;
    push_marked(scratch, out, &usual, &terms)
}

/// The scalars that may stand and are not usual.
fn unusual_text(alloc: Global, row: &Row) -> Result<ScalarSet, Memory>
    ensures { IfOk result (λ set. set ≡ scalars_without row.now.value row.now.usual) }
{
    row.known();
    let set = row.without_usual(alloc)?;
    set.known();
    Ok(set)
}

/// Writes what is usual as a default, and the others behind it.
#[tactic(auto, using(crate::proofs::Turns::turns))]
fn push_marked<S: TextSink>(
    scratch: &mut Scratch,
    out: &mut S,
    usual: &[PrintedTerm],
    others: &[PrintedTerm],
) -> Result<(), S::SinkError>
    ensures told { OnOk result (Appends (S.taken out.old) (S.taken out.new)
        (default_text (Some (map term_of usual.now)) ++ terms_text (map term_of others.now))) }
    ensures begun { OnErr result (WritesPrefix (S.taken out.old) (S.taken out.new)
        (default_text (Some (map term_of usual.now)) ++ terms_text (map term_of others.now))) }
{
    push_default(scratch, out, usual)?;
    push_terms(scratch, out, others)?;
    Ok(())
}

/// Writes what is usual as a default in front of others.
#[tactic(auto, unfolding(crate::specs::Spelled::default_text), using(crate::proofs::Turns::turns))]
fn push_default<S: TextSink>(
    scratch: &mut Scratch,
    out: &mut S,
    usual: &[PrintedTerm],
) -> Result<(), S::SinkError>
    ensures told { OnOk result (Appends (S.taken out.old) (S.taken out.new)
        (default_text (Some (map term_of usual.now)))) }
    ensures begun { OnErr result (WritesPrefix (S.taken out.old) (S.taken out.new)
        (default_text (Some (map term_of usual.now)))) }
{
    out.put("*")?;
    push_operand(scratch, out, usual)?;
    out.put(" | ")?;
    Ok(())
}
