ghost use Rattle.std.specs.Prelude.{◌≡◌, ◌++◌, IfOk, OnOk, string_bytes};
ghost use Rattle.std.specs.List.{flat_map};
ghost use Rattle.cue_report.specs.Lines.{conflict_line, gap_line, line_of_report, report_line_end};
ghost use Rattle.cue_report.specs.Lines.{cause_text, lack_text};

use crate::{Conflict, Gap, ReportPlace};
use cue_lattice::Memory;
use cue_row::push_steps;
use std::alloc::Global;

/// A line for each conflict, as `conflict a no value`, and then one for each gap, as `incomplete a
/// missing`. Each ends with U+000A.
pub fn lines(alloc: Global, conflicts: &[Conflict], gaps: &[Gap]) -> Result<String, Memory>
    ensures { IfOk result (λ text. string_bytes text
        ≡ flat_map conflict_line conflicts.now ++ flat_map gap_line gaps.now) }
{
    let mut out = String::new(alloc);
    push_conflicts(&mut out, conflicts)?;
    push_gaps(&mut out, gaps)?;
    Ok(out)
}

/// Writes a line for each conflict.
fn push_conflicts(out: &mut String, conflicts: &[Conflict]) -> Result<(), Memory>
    ensures { OnOk result
        (string_bytes out.new ≡ string_bytes out.old ++ flat_map conflict_line conflicts.now) }
{
    for conflict in conflicts {
        push_line(
            out,
            "conflict ",
            &conflict.path,
            cause(conflict.no_value, conflict.not_allowed),
        )?;
    }
    Ok(())
}

/// Writes a line for each gap.
fn push_gaps(out: &mut String, gaps: &[Gap]) -> Result<(), Memory>
    ensures { OnOk result
        (string_bytes out.new ≡ string_bytes out.old ++ flat_map gap_line gaps.now) }
{
    for gap in gaps {
        push_line(out, "incomplete ", &gap.path, gap_reason(gap.missing))?;
    }
    Ok(())
}

/// Writes one line: what it reports, where, and why.
fn push_line(out: &mut String, what: &str, path: &ReportPlace, why: &str) -> Result<(), Memory>
    ensures { OnOk result
        (string_bytes out.new ≡ string_bytes out.old ++ line_of_report what.now path.now why.now) }
{
    out.push_str(what)?;
    push_steps(out, path.steps())?;
    end_line(out, why)?;
    Ok(())
}

/// Writes the end of a line: why it is there.
pub(crate) fn end_line(out: &mut String, why: &str) -> Result<(), Memory>
    ensures { OnOk result
        (string_bytes out.new ≡ string_bytes out.old ++ report_line_end why.now) }
{
    out.push(' ')?;
    out.push_str(why)?;
    out.push('\n')?;
    Ok(())
}

/// Why it is a conflict.
pub(crate) fn cause(no_value: bool, not_allowed: bool) -> &'static str
    ensures { result.now ≡ cause_text no_value not_allowed }
{
    match (no_value, not_allowed) {
        (true, true) => "no value, label not allowed",
        (true, false) => "no value",
        (false, true) => "label not allowed",
        (false, false) => "",
    }
}

/// What is lacking.
pub(crate) fn gap_reason(missing: bool) -> &'static str
    ensures { result.now ≡ lack_text missing }
{
    if missing {
        "missing"
    } else {
        "not a single value"
    }
}
