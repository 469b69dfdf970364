//! What lets anything stand.
ghost use Rattle.std.specs.Prelude.{◌++◌, codes, OnErr, OnOk};
ghost use Rattle.std.specs.Io.KnownBytes.{Appends};
ghost use Rattle.cue_device.specs.Texts.{WritesPrefix};
ghost use Rattle.cue_row.specs.Quoted.{quote_text};
ghost use Rattle.cue_print.specs.Expressions.{top};
ghost use Rattle.cue_print.specs.Inner.Writing.{after_conjunction, longest_text};
ghost use Rattle.cue_print.specs.Printed.{elements};
ghost use Rattle.cue_print.specs.Spelled.{element_texts, join_texts, list_text};

use crate::writer::{Scratch, push_text, separate};
use cue_device::TextSink;
use cue_lattice::Text;

/// Writes an optional field of anything.
#[tactic(auto, using(crate::proofs::Turns::turns))]
pub(crate) fn push_free_field<S: TextSink>(
    scratch: &mut Scratch,
    out: &mut S,
    label: &Text,
) -> Result<(), S::SinkError>
    ensures told { OnOk result (Appends (S.taken out.old) (S.taken out.new)
        (quote_text label.now ++ codes "?: _")) }
    ensures begun { OnErr result (WritesPrefix (S.taken out.old) (S.taken out.new)
        (quote_text label.now ++ codes "?: _")) }
{
    push_text(scratch, out, label.as_str())?;
    out.put("?: _")?;
    Ok(())
}

/// Writes a list of the greatest length behind others, unless the elements alone tell the list.
#[tactic(auto, unfolding(crate::specs::Inner::Writing::longest_text), using(crate::proofs::Turns::one_or_none))]
pub(crate) fn push_longest<S: TextSink>(
    out: &mut S,
    most: Option<u32>,
    is_exact: bool,
) -> Result<(), S::SinkError>
    ensures told { OnOk result (Appends (S.taken out.old) (S.taken out.new)
        (longest_text most is_exact)) }
    ensures begun { OnErr result (WritesPrefix (S.taken out.old) (S.taken out.new)
        (longest_text most is_exact)) }
{
    match most {
        Some(most) if !is_exact => push_free_list(out, most),
        _ => Ok(()),
    }
}

/// Writes a list of as many free elements behind others.
#[tactic(auto, using(crate::proofs::Turns::turns))]
fn push_free_list<S: TextSink>(out: &mut S, count: u32) -> Result<(), S::SinkError>
    ensures told { OnOk result (Appends (S.taken out.old) (S.taken out.new)
        (after_conjunction (list_text (element_texts (elements count (λ n. top)))))) }
    ensures begun { OnErr result (WritesPrefix (S.taken out.old) (S.taken out.new)
        (after_conjunction (list_text (element_texts (elements count (λ n. top)))))) }
{
    out.put(" & [")?;
    push_free_elements(out, count)?;
    out.put("]")?;
    Ok(())
}

/// Writes as many free elements.
fn push_free_elements<S: TextSink>(out: &mut S, count: u32) -> Result<(), S::SinkError>
    ensures told { OnOk result (Appends (S.taken out.old) (S.taken out.new)
        (join_texts (codes ", ") (element_texts (elements count (λ n. top))))) }
    ensures begun { OnErr result (WritesPrefix (S.taken out.old) (S.taken out.new)
        (join_texts (codes ", ") (element_texts (elements count (λ n. top))))) }
{
    for number in 0..count {
        separate(out, ", ", number == 0)?;
        out.put("_")?;
    }
    Ok(())
}
