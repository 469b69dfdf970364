ghost use Rattle.std.specs.Prelude.{◌≡◌, ◌++◌, map, OnErr, OnOk, codes};
ghost use Rattle.std.specs.Fmt.{signed_decimal};
ghost use Rattle.std.specs.Io.KnownBytes.{Appends};
ghost use Rattle.cue_device.specs.Texts.{WritesPrefix};
ghost use Rattle.cue_print.specs.Spelled.{join_texts, spell_unequal, term_text, is_conjunction};
ghost use Rattle.cue_print.specs.Inner.TermOf.{term_of};

use crate::writer::{Scratch, push_integer, push_text, separate};
use cue_device::TextSink;
use cue_lattice::Text;

/// A term of a disjunction of scalars.
#[derive(Clone, Copy, Debug)]
pub(crate) enum PrintedTerm<'a> {
    /// `null`
    Null,
    /// `bool`
    Truths,
    /// `false` or `true`
    Truth(bool),
    /// `int`
    Integers,
    /// One integer.
    Number(i64),
    /// All integers up to this one.
    AtMost(i64),
    /// All integers from this one on.
    AtLeast(i64),
    /// The integers from the first to the last.
    Between(i64, i64),
    /// `string`
    Texts,
    /// One text.
    Text(&'a Text),
    /// All texts but these.
    OtherTexts(&'a [Text]),
}

/// Whether a term is written with `&`.
pub(crate) fn is_conjunction(term: &PrintedTerm) -> bool
    ensures { result ≡ is_conjunction (term_of term.now) }
{
    match term {
        PrintedTerm::Between(_, _) => true,
        PrintedTerm::OtherTexts(texts) => texts.len() > 1,
        _ => false,
    }
}

/// Writes a term.
#[tactic(auto, unfolding(crate::specs::Spelled::term_text), using(crate::proofs::Turns::turns))]
pub(crate) fn push_term<S: TextSink>(
    scratch: &mut Scratch,
    out: &mut S,
    term: &PrintedTerm,
) -> Result<(), S::SinkError>
    ensures told { OnOk result (Appends (S.taken out.old) (S.taken out.new)
        (term_text (term_of term.now))) }
    ensures begun { OnErr result (WritesPrefix (S.taken out.old) (S.taken out.new)
        (term_text (term_of term.now))) }
{
    match term {
        PrintedTerm::Null => out.put("null")?,
        PrintedTerm::Truths => out.put("bool")?,
        PrintedTerm::Truth(false) => out.put("false")?,
        PrintedTerm::Truth(true) => out.put("true")?,
        PrintedTerm::Integers => out.put("int")?,
        PrintedTerm::Number(number) => push_integer(out, *number)?,
        PrintedTerm::AtMost(last) => push_bound(out, "<=", *last)?,
        PrintedTerm::AtLeast(first) => push_bound(out, ">=", *first)?,
        PrintedTerm::Between(first, last) => push_bounds(out, ">=", *first, " & <=", *last)?,
        PrintedTerm::Texts => out.put("string")?,
        PrintedTerm::Text(text) => push_text(scratch, out, text.as_str())?,
        PrintedTerm::OtherTexts(texts) => push_others(scratch, out, texts)?,
    }
    Ok(())
}

/// Writes a sign and a number.
#[tactic(auto, using(crate::proofs::Turns::turns))]
fn push_bound<S: TextSink>(out: &mut S, sign: &str, number: i64) -> Result<(), S::SinkError>
    ensures told { OnOk result (Appends (S.taken out.old) (S.taken out.new)
        (sign.now ++ signed_decimal number)) }
    ensures begun { OnErr result (WritesPrefix (S.taken out.old) (S.taken out.new)
        (sign.now ++ signed_decimal number)) }
{
    out.put(sign)?;
    push_integer(out, number)?;
    Ok(())
}

/// Writes two signs with a number each.
#[tactic(auto, using(crate::proofs::Turns::turns))]
fn push_bounds<S: TextSink>(
    out: &mut S,
    low: &str,
    first: i64,
    high: &str,
    last: i64,
) -> Result<(), S::SinkError>
    ensures told { OnOk result (Appends (S.taken out.old) (S.taken out.new)
        ((low.now ++ signed_decimal first) ++ (high.now ++ signed_decimal last))) }
    ensures begun { OnErr result (WritesPrefix (S.taken out.old) (S.taken out.new)
        ((low.now ++ signed_decimal first) ++ (high.now ++ signed_decimal last))) }
{
    push_bound(out, low, first)?;
    push_bound(out, high, last)?;
    Ok(())
}

/// Writes that none of these texts may stand.
fn push_others<S: TextSink>(
    scratch: &mut Scratch,
    out: &mut S,
    texts: &[Text],
) -> Result<(), S::SinkError>
    ensures told { OnOk result (Appends (S.taken out.old) (S.taken out.new)
        (join_texts (codes " & ") (map spell_unequal texts.now))) }
    ensures begun { OnErr result (WritesPrefix (S.taken out.old) (S.taken out.new)
        (join_texts (codes " & ") (map spell_unequal texts.now))) }
{
    for (i, text) in texts.iter().enumerate() {
        separate(out, " & ", i == 0)?;
        push_unequal(scratch, out, text)?;
    }
    Ok(())
}

/// Writes that a text may not stand.
#[tactic(auto, using(crate::proofs::Turns::turns))]
fn push_unequal<S: TextSink>(
    scratch: &mut Scratch,
    out: &mut S,
    text: &Text,
) -> Result<(), S::SinkError>
    ensures told { OnOk result (Appends (S.taken out.old) (S.taken out.new)
        (spell_unequal text.now)) }
    ensures begun { OnErr result (WritesPrefix (S.taken out.old) (S.taken out.new)
        (spell_unequal text.now)) }
{
    out.put("!=")?;
    push_text(scratch, out, text.as_str())?;
    Ok(())
}
