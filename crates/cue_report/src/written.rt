ghost use Rattle.std.specs.Prelude.{◌≡◌, ◌+◌, ◌++◌, OnOk, OnErr, IfOk, codes, string_bytes};
ghost use Rattle.std.specs.List.{flat_map};
ghost use Rattle.cue_lattice.specs.Path.{index};
ghost use Rattle.cue_row.specs.PathText.{label_text, path_text, step_text};
ghost use Rattle.cue_table.specs.StepsOfCode.{step_at};
ghost use Rattle.cue_report.specs.Lines.{conflict_line, gap_line, report_line_end};
ghost use Rattle.cue_report.specs.Inner.Telling.{WritesPieces, WritesPiecesPrefix};
ghost use Rattle.cue_report.specs.Inner.Trail.{dotted_behind, shown_steps};

use crate::report::{cause, end_line, gap_reason};
use crate::sink::{ConflictSink, GapSink};
use cue_device::TextSink;
use cue_lattice::{Memory, Text};
use cue_row::{Step, is_bare, push_quoted, push_steps};
use cue_table::StepRef;
use std::alloc::Global;
use std::marker::PhantomData;
use std::slice::from_ref;

/// What a search finds, told as lines of a text, of which each is put as a whole.
#[derive(Drop)]
pub(crate) struct Written<S> {
    /// How many bytes were told.
    told: u64,
    /// The line at hand.
    line: String,
    /// The path of a list of which elements are told, as it stands in front of each.
    list: String,
    out: PhantomData<S>,
}

impl<S: TextSink> Written<S> {
    pub fn new(alloc: Global) -> Written<S>
        ensures { result.told ≡ 0 }
    {
        Written {
            told: 0,
            line: String::new(alloc),
            list: String::new(alloc),
            out: PhantomData,
        }
    }

    /// Puts the line at hand.
    fn put_line(&mut self, out: &mut S) -> Result<(), S::SinkError>
        ensures list { OnOk result (string_bytes self.new.list ≡ string_bytes self.old.list) }
        ensures told { OnOk result (WritesPieces
            (record { count = self.old.told; known = S.taken out.old })
            (record { count = self.new.told; known = S.taken out.new })
            (string_bytes self.old.line)) }
        ensures begun { OnErr result (WritesPiecesPrefix
            (record { count = self.old.told; known = S.taken out.old })
            (record { count = self.new.told; known = S.taken out.new })
            (string_bytes self.old.line)) }
    {
        let told = with_more(self.told, self.line.len())?;
        out.put(self.line.as_str())?;
        self.told = told;
        Ok(())
    }

    /// The line of a conflict.
    fn conflict_line(
        &mut self,
        steps: &[StepRef],
        no_value: bool,
        not_allowed: bool,
    ) -> Result<(), Memory>
        ensures told { self.new.told ≡ self.old.told }
        ensures line { OnOk result (string_bytes self.new.line ≡ conflict_line (record {
          path = shown_steps steps.now;
          no_value = no_value;
          not_allowed = not_allowed;
        })) }
    {
        self.line.clear();
        self.line.push_str("conflict ")?;
        push_place(&mut self.line, steps)?;
        end_line(&mut self.line, cause(no_value, not_allowed))?;
        Ok(())
    }

    /// The line of a gap.
    fn gap_line(&mut self, steps: &[StepRef], missing: bool) -> Result<(), Memory>
        ensures told { self.new.told ≡ self.old.told }
        ensures line { OnOk result (string_bytes self.new.line
            ≡ gap_line (record { path = shown_steps steps.now; missing = missing })) }
    {
        self.line.clear();
        self.line.push_str("incomplete ")?;
        push_place(&mut self.line, steps)?;
        end_line(&mut self.line, gap_reason(missing))?;
        Ok(())
    }

    /// The line of a free element of the list whose path is at hand.
    fn element_line(&mut self, number: u32) -> Result<(), Memory>
        ensures told { self.new.told ≡ self.old.told }
        ensures list { OnOk result (string_bytes self.new.list ≡ string_bytes self.old.list) }
        ensures line { OnOk result (string_bytes self.new.line
            ≡ codes "incomplete " ++ (string_bytes self.old.list ++ (step_text (index number)
            ++ report_line_end (codes "not a single value")))) }
    {
        self.line.clear();
        self.line.push_str("incomplete ")?;
        self.line.push_str(self.list.as_str())?;
        push_index(&mut self.line, number)?;
        end_line(&mut self.line, gap_reason(false))?;
        Ok(())
    }

    /// The path of a list.
    fn list_path(&mut self, steps: &[StepRef]) -> Result<(), Memory>
        ensures told { self.new.told ≡ self.old.told }
        ensures list { OnOk result
            (string_bytes self.new.list ≡ flat_map dotted_behind (shown_steps steps.now)) }
    {
        self.list.clear();
        push_above(&mut self.list, steps)
    }
}

/// How many bytes were told, with so many more.
fn with_more(told: u64, more: usize) -> Result<u64, Memory>
    ensures { IfOk result (λ all. all ≡ told + more) }
{
    let more = more as u64;
    match told.checked_add(more) {
        Some(all) => Ok(all),
        None => Err(Memory::too_many(told, more)),
    }
}

impl<S: TextSink> ConflictSink for Written<S> {
    type Out = S;

    type Piece = u8;

    type SinkError = S::SinkError;

    ghost tally = { λ written out. record { count = written.told; known = S.taken out } };

    ghost piece = { conflict_line };

    fn len(&self, _out: &S) -> u64 {
        self.told
    }

    fn conflict(
        &mut self,
        out: &mut S,
        steps: &[StepRef],
        no_value: bool,
        not_allowed: bool,
    ) -> Result<(), S::SinkError> {
        self.conflict_line(steps, no_value, not_allowed)?;
        self.put_line(out)?;
        Ok(())
    }
}

impl<S: TextSink> GapSink for Written<S> {
    type Out = S;

    type Piece = u8;

    type SinkError = S::SinkError;

    ghost tally = { λ written out. record { count = written.told; known = S.taken out } };

    ghost piece = { gap_line };

    fn len(&self, _out: &S) -> u64 {
        self.told
    }

    fn gap(&mut self, out: &mut S, steps: &[StepRef], missing: bool) -> Result<(), S::SinkError> {
        self.gap_line(steps, missing)?;
        self.put_line(out)?;
        Ok(())
    }

    fn free_elements(
        &mut self,
        out: &mut S,
        steps: &[StepRef],
        first: u32,
        end: u32,
    ) -> Result<(), S::SinkError> {
        if first >= end {
            return Ok(());
        }
        self.list_path(steps)?;
        for number in first..end {
            self.element_line(number)?;
            self.put_line(out)?;
        }
        Ok(())
    }
}

/// Writes the path to which these steps lead.
fn push_place(out: &mut String, steps: &[StepRef]) -> Result<(), Memory>
    ensures { OnOk result (string_bytes out.new
        ≡ string_bytes out.old ++ path_text (shown_steps steps.now)) }
{
    match steps {
        [] => out.push('.')?,
        [above @ .., last] => {
            push_above(out, above)?;
            push_step(out, *last)?;
        }
    }
    Ok(())
}

/// Writes each of the steps with a dot behind it.
fn push_above(out: &mut String, steps: &[StepRef]) -> Result<(), Memory>
    ensures { OnOk result (string_bytes out.new
        ≡ string_bytes out.old ++ flat_map dotted_behind (shown_steps steps.now)) }
{
    for step in steps {
        push_step(out, *step)?;
        out.push('.')?;
    }
    Ok(())
}

/// Writes one step.
fn push_step(out: &mut String, step: StepRef) -> Result<(), Memory>
    ensures { OnOk result (string_bytes out.new
        ≡ string_bytes out.old ++ step_text (step_at step.entry)) }
{
    match step {
        StepRef::Label(label) => push_label(out, label),
        StepRef::Index(number) => push_index(out, number),
    }
}

/// Writes the step to the field with a label.
fn push_label(out: &mut String, label: &Text) -> Result<(), Memory>
    ensures { OnOk result (string_bytes out.new ≡ string_bytes out.old ++ label_text label.now) }
{
    if is_bare(label.as_bytes()) {
        out.push_str(label.as_str())?;
        return Ok(());
    }
    push_quoted(out, label.as_str())
}

/// Writes the step to the element with an index.
fn push_index(out: &mut String, number: u32) -> Result<(), Memory>
    ensures { OnOk result
        (string_bytes out.new ≡ string_bytes out.old ++ step_text (index number)) }
{
    push_steps(out, from_ref(&Step::Index(number)))
}
