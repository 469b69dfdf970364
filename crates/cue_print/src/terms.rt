//! The terms of a set of scalars.
ghost use Rattle.std.specs.Prelude.{◌≡◌, ◌++◌, [], map, codes, IfOk, OnErr, OnOk};
ghost use Rattle.std.specs.Io.KnownBytes.{Appends};
ghost use Rattle.cue_device.specs.Texts.{WritesPrefix};
ghost use Rattle.cue_print.specs.Expressions.{text};
ghost use Rattle.cue_print.specs.Spelled.{join_texts, enclose_text, term_text, is_compound};
ghost use Rattle.cue_print.specs.Spelled.{terms_text, operand_text};
ghost use Rattle.cue_print.specs.Terms.{truth_terms, piece_term, text_terms, terms_of};
ghost use Rattle.cue_print.specs.Inner.TermOf.{term_of};

use crate::term::{PrintedTerm, is_conjunction, push_term};
use crate::writer::{Scratch, separate};
use cue_device::TextSink;
use cue_lattice::{Memory, Text};
use cue_row::Scalars;
use std::alloc::Global;

/// The terms of a set: null, truth values, integers upwards, texts by their bytes.
#[tactic(auto, unfolding(crate::specs::Terms::terms_of))]
pub(crate) fn terms_of<'a>(alloc: Global, set: &Scalars<'a>) -> Result<Vec<PrintedTerm<'a>>, Memory>
    ensures { IfOk result (λ terms. map term_of terms.items ≡ terms_of set.now) }
{
    let mut terms = Vec::new(alloc);
    if set.null() {
        terms.push(PrintedTerm::Null)?;
    }
    add_truths(&mut terms, set.no(), set.yes())?;
    add_pieces(&mut terms, set.pieces())?;
    let (all_but, texts) = set.texts();
    add_texts(&mut terms, all_but, texts)?;
    Ok(terms)
}

/// Adds the truth values, by whether each is in the set.
fn add_truths(terms: &mut Vec<PrintedTerm>, no: bool, yes: bool) -> Result<(), Memory>
    ensures { OnOk result (map term_of terms.new.items
        ≡ map term_of terms.old.items ++ truth_terms no yes) }
{
    match (no, yes) {
        (false, false) => {}
        (true, false) => terms.push(PrintedTerm::Truth(false))?,
        (false, true) => terms.push(PrintedTerm::Truth(true))?,
        (true, true) => terms.push(PrintedTerm::Truths)?,
    }
    Ok(())
}

/// Adds the pieces of a set of integers.
fn add_pieces(terms: &mut Vec<PrintedTerm>, pieces: &[(i64, i64)]) -> Result<(), Memory>
    ensures { OnOk result (map term_of terms.new.items
        ≡ map term_of terms.old.items ++ map piece_term pieces.now) }
{
    for piece in pieces {
        terms.push(term_of_piece(*piece))?;
    }
    Ok(())
}

/// The integers from a first to a last one, as a term.
fn term_of_piece<'a>(piece: (i64, i64)) -> PrintedTerm<'a>
    ensures { term_of result ≡ piece_term piece }
{
    let (first, last) = piece;
    if first == i64::MIN && last == i64::MAX {
        return PrintedTerm::Integers;
    }
    if first == last {
        return PrintedTerm::Number(first);
    }
    if first == i64::MIN {
        return PrintedTerm::AtMost(last);
    }
    if last == i64::MAX {
        return PrintedTerm::AtLeast(first);
    }
    PrintedTerm::Between(first, last)
}

/// Adds the terms of a set of texts: of all but the listed ones, or of these.
fn add_texts<'a>(
    terms: &mut Vec<PrintedTerm<'a>>,
    all_but: bool,
    texts: &'a [Text],
) -> Result<(), Memory>
    ensures { OnOk result (map term_of terms.new.items
        ≡ map term_of terms.old.items ++ text_terms (all_but, texts.now)) }
{
    if !all_but {
        return add_listed(terms, texts);
    }
    if texts.is_empty() {
        terms.push(PrintedTerm::Texts)?;
    } else {
        terms.push(PrintedTerm::OtherTexts(texts))?;
    }
    Ok(())
}

/// Adds each text.
fn add_listed<'a>(terms: &mut Vec<PrintedTerm<'a>>, texts: &'a [Text]) -> Result<(), Memory>
    ensures { OnOk result (map term_of terms.new.items
        ≡ map term_of terms.old.items ++ map text texts.now) }
{
    for text in texts {
        terms.push(PrintedTerm::Text(text))?;
    }
    Ok(())
}

/// Writes a disjunction. That of no terms lets nothing stand.
#[tactic(auto, unfolding(crate::specs::Spelled::terms_text))]
pub(crate) fn push_terms<S: TextSink>(
    scratch: &mut Scratch,
    out: &mut S,
    terms: &[PrintedTerm],
) -> Result<(), S::SinkError>
    ensures told { OnOk result (Appends (S.taken out.old) (S.taken out.new)
        (terms_text (map term_of terms.now))) }
    ensures begun { OnErr result (WritesPrefix (S.taken out.old) (S.taken out.new)
        (terms_text (map term_of terms.now))) }
{
    if terms.is_empty() {
        out.put("_|_")?;
        return Ok(());
    }
    push_each(scratch, out, terms)
}

/// Writes terms with `|` between them.
fn push_each<S: TextSink>(
    scratch: &mut Scratch,
    out: &mut S,
    terms: &[PrintedTerm],
) -> Result<(), S::SinkError>
    ensures told { OnOk result (Appends (S.taken out.old) (S.taken out.new)
        (join_texts (codes " | ") (map term_text (map term_of terms.now)))) }
    ensures begun { OnErr result (WritesPrefix (S.taken out.old) (S.taken out.new)
        (join_texts (codes " | ") (map term_text (map term_of terms.now)))) }
{
    for (i, term) in terms.iter().enumerate() {
        separate(out, " | ", i == 0)?;
        push_term(scratch, out, term)?;
    }
    Ok(())
}

/// Writes a disjunction as one operand: in parentheses, where it has several terms or one with `&`.
#[tactic(auto, unfolding(crate::specs::Spelled::operand_text))]
pub(crate) fn push_operand<S: TextSink>(
    scratch: &mut Scratch,
    out: &mut S,
    terms: &[PrintedTerm],
) -> Result<(), S::SinkError>
    ensures told { OnOk result (Appends (S.taken out.old) (S.taken out.new)
        (operand_text (map term_of terms.now))) }
    ensures begun { OnErr result (WritesPrefix (S.taken out.old) (S.taken out.new)
        (operand_text (map term_of terms.now))) }
{
    if is_compound(terms) {
        push_enclosed(scratch, out, terms)
    } else {
        push_terms(scratch, out, terms)
    }
}

/// Writes a disjunction in parentheses.
#[tactic(auto, using(crate::proofs::Turns::turns))]
fn push_enclosed<S: TextSink>(
    scratch: &mut Scratch,
    out: &mut S,
    terms: &[PrintedTerm],
) -> Result<(), S::SinkError>
    ensures told { OnOk result (Appends (S.taken out.old) (S.taken out.new)
        (enclose_text (codes "(") (terms_text (map term_of terms.now)) (codes ")"))) }
    ensures begun { OnErr result (WritesPrefix (S.taken out.old) (S.taken out.new)
        (enclose_text (codes "(") (terms_text (map term_of terms.now)) (codes ")"))) }
{
    out.put("(")?;
    push_terms(scratch, out, terms)?;
    out.put(")")?;
    Ok(())
}

/// Whether a disjunction is more than one operand.
fn is_compound(terms: &[PrintedTerm]) -> bool
    ensures { result ≡ is_compound (map term_of terms.now) }
{
    match terms {
        [] => false,
        [term] => is_conjunction(term),
        _ => true,
    }
}
