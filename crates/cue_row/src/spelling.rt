ghost use Rattle.std.specs.Prelude.{◌≡◌, ◌++◌, map, IfOk, OnErr, OnOk, string_bytes};
ghost use Rattle.std.specs.List.{flat_map};
ghost use Rattle.cue_row.specs.Begun.{StillBegins};
ghost use Rattle.cue_row.specs.PathText.{is_word_byte, is_bare, step_text, path_text};
ghost use Rattle.cue_row.specs.Inner.PathText.{dot_and_step};
ghost use Rattle.cue_row.specs.Steps.{step_of};

use crate::quoted::push_quoted;
use crate::{Path, Step};
use cue_lattice::Memory;
use itoa::Buffer;
use std::alloc::Global;

/// The path as reports write it: `.` for the root, and otherwise its steps with `.` between them.
/// An index is its decimal digits. A label is bare where [`is_bare`] says so, and otherwise quoted,
/// as a CUE string literal.
pub fn path_text(alloc: Global, path: &Path) -> Result<String, Memory>
    ensures { IfOk result (λ text. string_bytes text ≡ path_text path.now) }
{
    let mut out = String::new(alloc);
    push_steps(&mut out, path.steps())?;
    Ok(out)
}

/// Writes the path of these steps, which may be more than a [`Path`] has.
pub fn push_steps(out: &mut String, steps: &[Step]) -> Result<(), Memory>
    ensures written { OnOk result
        (string_bytes out.new ≡ string_bytes out.old ++ path_text (map step_of steps.now)) }
    // Where memory runs out, what stood there before still begins the text.
    ensures kept { OnErr result (StillBegins (string_bytes out.old) (string_bytes out.new)) }
{
    match steps {
        [] => out.push('.')?,
        [first, rest @ ..] => {
            push_step(out, first)?;
            push_rest(out, rest)?;
        }
    }
    Ok(())
}

/// Writes a dot and the step, for each step.
fn push_rest(out: &mut String, steps: &[Step]) -> Result<(), Memory>
    ensures written { OnOk result (string_bytes out.new
        ≡ string_bytes out.old ++ flat_map dot_and_step steps.now) }
    ensures kept { OnErr result (StillBegins (string_bytes out.old) (string_bytes out.new)) }
{
    for step in steps {
        out.push('.')?;
        push_step(out, step)?;
    }
    Ok(())
}

/// Writes one step.
fn push_step(out: &mut String, step: &Step) -> Result<(), Memory>
    ensures written { OnOk result (string_bytes out.new
        ≡ string_bytes out.old ++ step_text (step_of step.now)) }
    ensures kept { OnErr result (StillBegins (string_bytes out.old) (string_bytes out.new)) }
{
    match step {
        Step::Label(label) => {
            if is_bare(label.as_bytes()) {
                out.push_str(label.as_str())?;
            } else {
                push_quoted(out, label.as_str())?;
            }
        }
        Step::Index(number) => {
            let mut buffer = Buffer::new();
            out.push_str(buffer.format(*number))?;
        }
    }
    Ok(())
}

/// Whether a label of these bytes needs no quotation marks in a path: it consists of ASCII letters
/// and digits, `_` and `$`, is not empty and does not begin with a digit.
pub fn is_bare(label: &[u8]) -> bool
    ensures { result ≡ is_bare label.now }
{
    match label {
        [] => false,
        [first, ..] => !first.is_ascii_digit() && label.iter().all(|byte| is_word_byte(*byte)),
    }
}

/// Whether a bare label may have this byte.
fn is_word_byte(byte: u8) -> bool
    ensures { result ≡ is_word_byte byte }
{
    byte.is_ascii_alphanumeric() || byte == b'_' || byte == b'$'
}
