ghost use Rattle.std.specs.Prelude.{◌≡◌, OnErr, OnOk};
ghost use Rattle.std.specs.Fmt.{signed_decimal};
ghost use Rattle.std.specs.Io.KnownBytes.{Appends};
ghost use Rattle.cue_device.specs.Texts.{WritesPrefix};
ghost use Rattle.cue_row.specs.Quoted.{quote_text};
ghost use Rattle.cue_print.specs.Inner.Writing.{separator_before};

use cue_device::TextSink;
use cue_row::push_quoted;
use itoa::Buffer;
use std::alloc::Global;

/// What a walk over a table needs beside the sink: where memory comes from, and a text that is
/// written anew for each one between quotation marks.
#[derive(Drop)]
pub(crate) struct Scratch {
    pub(crate) alloc: Global,
    text: String,
}

impl Scratch {
    /// Nothing is written yet.
    pub(crate) fn new(alloc: Global) -> Scratch {
        Scratch {
            alloc,
            text: String::new(alloc),
        }
    }
}

/// Writes a text between quotation marks.
#[tactic(auto, using(crate::proofs::Turns::one_or_none))]
pub(crate) fn push_text<S: TextSink>(
    scratch: &mut Scratch,
    out: &mut S,
    text: &str,
) -> Result<(), S::SinkError>
    ensures told { OnOk result (Appends (S.taken out.old) (S.taken out.new) (quote_text text.now)) }
    ensures begun { OnErr result (WritesPrefix (S.taken out.old) (S.taken out.new) (quote_text text.now)) }
{
    scratch.text.clear();
    push_quoted(&mut scratch.text, text)?;
    out.put(scratch.text.as_str())?;
    Ok(())
}

/// Writes a separator, unless what follows is the first of its list.
#[tactic(auto, using(crate::proofs::Turns::one_or_none))]
pub(crate) fn separate<S: TextSink>(
    out: &mut S,
    separator: &str,
    is_first: bool,
) -> Result<(), S::SinkError>
    ensures told { OnOk result (Appends (S.taken out.old) (S.taken out.new)
        (separator_before separator.now is_first)) }
    ensures begun { OnErr result (WritesPrefix (S.taken out.old) (S.taken out.new)
        (separator_before separator.now is_first)) }
{
    if !is_first {
        out.put(separator)?;
    }
    Ok(())
}

/// Writes an integer in decimal digits, with a sign where it is negative.
pub(crate) fn push_integer<S: TextSink>(out: &mut S, integer: i64) -> Result<(), S::SinkError>
    ensures told { OnOk result (Appends (S.taken out.old) (S.taken out.new)
        (signed_decimal integer)) }
    ensures begun { OnErr result (WritesPrefix (S.taken out.old) (S.taken out.new)
        (signed_decimal integer)) }
{
    let mut buffer = Buffer::new();
    out.put(buffer.format(integer))?;
    Ok(())
}
