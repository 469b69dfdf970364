ghost use Rattle.std.specs.Prelude.{◌≡◌, ◌↔◌, Bool, false, Some, []};
ghost use Rattle.std.specs.Prelude.{IfOk, IfSome, IfNone, IsTrue, OnOk, OnErr, nat_lt};
ghost use Rattle.std.specs.Option.{option_map};
ghost use Rattle.cue_row.specs.Row.{IsRow, RowRefusesQuestion};
ghost use Rattle.cue_table.specs.Refuses.{TableRefuses};
ghost use Rattle.cue_table.specs.Spans.{branches_of_span};
ghost use Rattle.cue_table.specs.StepsOfCode.{span_of};
ghost use Rattle.cue_table.specs.Tree.{none, row_of, rest_below};
ghost use Rattle.cue_report.specs.Inner.GapSearch.{IsGapAt, IsOpenAt, IsGapHere, IsGapIn, WritesGapsWhere};
ghost use Rattle.cue_report.specs.Inner.GapSearch.{WritesGapsPrefixWhere};
ghost use Rattle.cue_report.specs.Inner.GapSearch.{IsGapBelow, IsGapAmong, IsGapOnward};
ghost use Rattle.cue_report.specs.Inner.GapSearch.{free_before, free_elements, next_after};
ghost use Rattle.cue_report.specs.Inner.GapSearch.{gaps_above};
ghost use Rattle.cue_report.specs.Gaps.{AreGaps};
ghost use Rattle.cue_report.specs.Lines.{WritesGapsPrefix, WritesGaps};
ghost use Rattle.cue_report.specs.Inner.Search.{lacks_value, least_at};
ghost use Rattle.cue_report.specs.Inner.Telling.{WritesPieces, WritesPiecesPrefix};
ghost use Rattle.cue_report.specs.Inner.Trail.{shown_steps};

use crate::demand::{demanded_end, is_demanded, is_refused, least_of, rest_from};
use crate::listed::Listed;
use crate::place::enter;
use crate::sink::GapSink;
use crate::written::Written;
use crate::{ReportPlace, demand};
use cue_device::TextSink;
use cue_lattice::{Memory, Narrow};
use cue_row::{Level, Row};
use cue_table::{Branch, Span, StepRef, Table};
use std::alloc::Global;

/// A place for which more has to be said before anything can be exported.
#[derive(Debug, Drop)]
pub struct Gap {
    /// Where it is.
    pub path: ReportPlace,
    /// A required field is not given. Otherwise there is no single value.
    pub missing: bool,
}

/// The gaps of a table, in the order of their paths: the demanded places without a conflict that
/// are missing, or where no single value is told.
pub fn incomplete(alloc: Global, table: &Table<Row>) -> Result<Vec<Gap>, Memory>
    ensures { IfOk result (λ gaps. AreGaps (TableRefuses RowRefusesQuestion table.now) gaps.items) }
{
    let mut found = Vec::new(alloc);
    let mut search = GapSearch::new(alloc, Listed::new(alloc));
    search.visit(&mut found, &table.root(), false)?;
    Ok(found)
}

/// Tells of each gap of a table by a line, in the order of their paths, as [`crate::lines`] writes
/// them, and whether there was one. They are told while the table is walked.
///
/// # Errors
///
/// Where no more is taken; then the front of the lines was.
pub fn write_gaps<S: TextSink>(
    alloc: Global,
    table: &Table<Row>,
    out: &mut S,
) -> Result<bool, S::SinkError>
    ensures lines { IfOk result (λ some. WritesGaps (TableRefuses RowRefusesQuestion table.now) some
        (S.taken out.old) (S.taken out.new)) }
    ensures begun { OnErr result (WritesGapsPrefix (TableRefuses RowRefusesQuestion table.now)
        (S.taken out.old) (S.taken out.new)) }
{
    let mut search = GapSearch::new(alloc, Written::new(alloc));
    search.visit(out, &table.root(), false)?;
    Ok(search.has_written(out))
}

/// A search for gaps, from the root on.
#[derive(Drop)]
struct GapSearch<'a, S> {
    alloc: Global,
    /// How they are told.
    sink: S,
    /// The steps to the place at hand.
    steps: Vec<StepRef<'a>>,
}

impl<'a, S: GapSink> GapSearch<'a, S> {
    /// A search that stands at the root.
    fn new(alloc: Global, sink: S) -> GapSearch<'a, S>
        ensures sink { result.sink ≡ sink }
        ensures steps { result.steps.items ≡ [] }
    {
        GapSearch {
            alloc,
            sink,
            steps: Vec::new(alloc),
        }
    }

    /// Whether anything was told.
    fn has_written(&self, out: &S::Out) -> bool
        ensures { result ≡ nat_lt 0 (S.tally self.now.sink out.now).count }
    {
        self.sink.len(out) > 0
    }

    /// Looks for gaps at a place, of which the place above refuses the label or not, and below it.
    #[cycle(walk)]
    fn visit(
        &mut self,
        out: &mut S::Out,
        branch: &Branch<'a, Row>,
        not_allowed: bool,
    ) -> Result<(), S::SinkError>
        ensures steps { OnOk result (self.new.steps.items ≡ self.old.steps.items) }
        ensures gaps { OnOk result (WritesGapsWhere S.piece
            (IsGapIn not_allowed branch.now)
            (shown_steps self.old.steps.items)
            (S.tally self.old.sink out.old) (S.tally self.new.sink out.new)) }
        ensures begun { OnErr result (WritesGapsPrefixWhere S.piece
            (IsGapIn not_allowed branch.now)
            (shown_steps self.old.steps.items)
            (S.tally self.old.sink out.old) (S.tally self.new.sink out.new)) }
    {
        let row = branch.row();
        look_at(
            self.alloc,
            &mut self.sink,
            out,
            &self.steps,
            row,
            not_allowed,
        )?;
        let least = least_of(row);
        // The first element that is not looked at.
        let mut next = 0;
        for (span, child) in branch.spans() {
            next = reach(&mut self.sink, out, &self.steps, next, least, span)?;
            self.visit_span(out, row, span, &child)?;
        }
        let end = rest_from(branch, least);
        self.sink.free_elements(out, &self.steps, next, end)?;
        self.visit_rest(out, branch)?;
        Ok(())
    }

    /// Looks for gaps at the branches of a place that are kept as one.
    #[cycle(walk)]
    fn visit_span(
        &mut self,
        out: &mut S::Out,
        above: Option<&Row>,
        span: Span<'a>,
        child: &Branch<'a, Row>,
    ) -> Result<(), S::SinkError>
        ensures steps { OnOk result (self.new.steps.items ≡ self.old.steps.items) }
        ensures gaps { OnOk result (WritesGapsWhere S.piece
            (IsGapBelow (option_map (λ row. row.now) above.entry)
            (branches_of_span (span_of span.entry) child.now none))
            (shown_steps self.old.steps.items)
            (S.tally self.old.sink out.old) (S.tally self.new.sink out.new)) }
        ensures begun { OnErr result (WritesGapsPrefixWhere S.piece
            (IsGapBelow (option_map (λ row. row.now) above.entry)
            (branches_of_span (span_of span.entry) child.now none))
            (shown_steps self.old.steps.items)
            (S.tally self.old.sink out.old) (S.tally self.new.sink out.new)) }
    {
        match span {
            Span::Label(label) => {
                let step = StepRef::Label(label);
                if is_demanded(above, step, child.row()) {
                    enter(&mut self.steps, step)?;
                    self.visit(out, child, is_refused(above, step))?;
                    self.steps.pop();
                }
                Ok(())
            }
            Span::Elements { first, more } => {
                let end = demanded_end(least_of(above), first, more);
                self.visit_run(out, first, end, child)?;
                Ok(())
            }
        }
    }

    /// Looks for gaps at the elements of a place that each list has and that are its rest.
    #[cycle(walk)]
    fn visit_rest(&mut self, out: &mut S::Out, branch: &Branch<'a, Row>) -> Result<(), S::SinkError>
        ensures steps { OnOk result (self.new.steps.items ≡ self.old.steps.items) }
        ensures gaps { OnOk result (WritesGapsWhere S.piece
            (IsGapOnward (least_at (row_of branch.now)) (rest_below branch.now))
            (shown_steps self.old.steps.items)
            (S.tally self.old.sink out.old) (S.tally self.new.sink out.new)) }
        ensures begun { OnErr result (WritesGapsPrefixWhere S.piece
            (IsGapOnward (least_at (row_of branch.now)) (rest_below branch.now))
            (shown_steps self.old.steps.items)
            (S.tally self.old.sink out.old) (S.tally self.new.sink out.new)) }
    {
        let Some(rest) = branch.rest() else {
            return Ok(());
        };
        let least = least_of(branch.row());
        self.visit_run(out, rest_from(branch, least), least, &rest)?;
        Ok(())
    }

    /// Looks for gaps at the elements of a place from the first on, before the end, which are
    /// alike. Where nothing is told of one, nothing is of those behind it.
    #[cycle(walk)]
    fn visit_run(
        &mut self,
        out: &mut S::Out,
        first: u32,
        end: u32,
        element: &Branch<'a, Row>,
    ) -> Result<(), S::SinkError>
        ensures steps { OnOk result (self.new.steps.items ≡ self.old.steps.items) }
        ensures gaps { OnOk result (WritesGapsWhere S.piece
            (IsGapAmong first end element.now)
            (shown_steps self.old.steps.items)
            (S.tally self.old.sink out.old) (S.tally self.new.sink out.new)) }
        ensures begun { OnErr result (WritesGapsPrefixWhere S.piece
            (IsGapAmong first end element.now)
            (shown_steps self.old.steps.items)
            (S.tally self.old.sink out.old) (S.tally self.new.sink out.new)) }
    {
        for number in first..end {
            let before = self.sink.len(out);
            enter(&mut self.steps, StepRef::Index(number))?;
            self.visit(out, element, false)?;
            self.steps.pop();
            if self.sink.len(out) == before {
                return Ok(());
            }
        }
        Ok(())
    }
}

/// Looks for a gap at the place at hand, by the row there.
fn look_at<S: GapSink>(
    alloc: Global,
    sink: &mut S,
    out: &mut S::Out,
    steps: &[StepRef],
    row: Option<&Row>,
    not_allowed: bool,
) -> Result<(), S::SinkError>
    requires { IfSome row (λ row. IsRow row.now) }
    ensures gaps { OnOk result (WritesGapsWhere S.piece
        (IsGapHere not_allowed (option_map (λ row. row.now) row.entry))
        (shown_steps steps.now)
        (S.tally sink.old out.old) (S.tally sink.new out.new)) }
    ensures begun { OnErr result (WritesGapsPrefixWhere S.piece
        (IsGapHere not_allowed (option_map (λ row. row.now) row.entry))
        (shown_steps steps.now)
        (S.tally sink.old out.old) (S.tally sink.new out.new)) }
{
    if not_allowed {
        return Ok(());
    }
    match gap_at(alloc, row)? {
        None => Ok(()),
        Some(missing) => {
            sink.gap(out, steps, missing)?;
            Ok(())
        }
    }
}

/// Tells the elements of the place at hand from the next on that are before this span, if so
/// many elements are demanded and one of the span is: they are free. Tells the first one behind
/// the demanded elements of the span.
fn reach<S: GapSink>(
    sink: &mut S,
    out: &mut S::Out,
    steps: &[StepRef],
    next: u32,
    least: u32,
    span: Span,
) -> Result<u32, S::SinkError>
    ensures gaps { OnOk result (WritesPieces (S.tally sink.old out.old)
        (S.tally sink.new out.new)
        (gaps_above S.piece (shown_steps steps.now)
        (free_before next least (span_of span.entry)))) }
    ensures begun { OnErr result (WritesPiecesPrefix (S.tally sink.old out.old)
        (S.tally sink.new out.new)
        (gaps_above S.piece (shown_steps steps.now)
        (free_before next least (span_of span.entry)))) }
    ensures next { IfOk result (λ found. found ≡ next_after next least (span_of span.entry)) }
{
    match span {
        Span::Label(_) => Ok(next),
        Span::Elements { first, more } => {
            if first >= least {
                return Ok(next);
            }
            sink.free_elements(out, steps, next, first)?;
            Ok(demanded_end(least, first, more))
        }
    }
}

/// The gap at a place whose label is allowed, by the row there: whether it is missing. There is
/// none where no value may stand, or where a single value is told.
#[inline(always)]
fn gap_at(alloc: Global, row: Option<&Row>) -> Result<Option<bool>, Memory>
    requires { IfSome row (λ row. IsRow row.now) }
    ensures some { IfOk result (λ found.
        IfSome found (IsGapAt (option_map (λ row. row.now) row.entry))) }
    ensures none { IfOk result (λ found.
        IfNone found ((missing : Bool)
        → ¬ IsGapAt (option_map (λ row. row.now) row.entry) missing)) }
{
    let Some(row) = row else {
        return Ok(Some(false));
    };
    if demand::lacks_value(row) {
        return Ok(None);
    }
    if let Level::Required = row.level() {
        return Ok(Some(true));
    }
    if is_open(alloc, row)? {
        return Ok(Some(false));
    }
    Ok(None)
}

/// Whether a row with a value tells no single one: anything may stand, or only scalars, of which
/// none is chosen.
fn is_open(alloc: Global, row: &Row) -> Result<bool, Memory>
    requires form { IsRow row.now }
    requires value { lacks_value row.now ≡ false }
    ensures { IfOk result (λ found. IsTrue found ↔ IsOpenAt (Some row.now)) }
{
    match (row.struct_ok(), row.list_ok()) {
        (true, true) => Ok(row.has_all_scalars()),
        (false, false) => Ok(row.chosen(alloc)?.is_none()),
        (true, false) | (false, true) => Ok(false),
    }
}
