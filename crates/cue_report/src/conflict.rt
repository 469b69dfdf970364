ghost use Rattle.std.specs.Prelude.{◌≡◌, ◌↔◌, ◌-◌, false, [], IfOk, IfSome};
ghost use Rattle.std.specs.Prelude.{OnOk, OnErr, nat_lt};
ghost use Rattle.std.specs.Option.{option_map};
ghost use Rattle.cue_row.specs.Row.{IsRow, RowRefusesQuestion};
ghost use Rattle.cue_table.specs.Refuses.{TableRefuses};
ghost use Rattle.cue_table.specs.Spans.{branches_of_span};
ghost use Rattle.cue_table.specs.StepsOfCode.{span_of};
ghost use Rattle.cue_table.specs.Tree.{none, row_of, rest_below};
ghost use Rattle.cue_table.specs.Valid.{IsValidTable};
ghost use Rattle.cue_report.specs.Documents.{SomeMeets};
ghost use Rattle.cue_report.specs.Lines.{WritesConflictsPrefix, WritesConflicts};
ghost use Rattle.cue_report.specs.Listing.{AreConflicts};
ghost use Rattle.cue_report.specs.Inner.Search.{has_no_value, conflict_here, conflicts_in};
ghost use Rattle.cue_report.specs.Inner.Search.{conflicts_below, conflicts_onward, each_index};
ghost use Rattle.cue_report.specs.Inner.Search.{conflicts_under};
ghost use Rattle.cue_report.specs.Inner.Telling.{WritesPieces, WritesPiecesPrefix};
ghost use Rattle.cue_report.specs.Inner.Trail.{shown_steps};

use crate::ReportPlace;
use crate::demand::{demanded_end, is_demanded, is_refused, lacks_value, least_of, rest_from};
use crate::listed::Listed;
use crate::place::enter;
use crate::sink::ConflictSink;
use crate::written::Written;
use cue_device::TextSink;
use cue_lattice::Memory;
use cue_row::Row;
use cue_table::{Branch, Span, StepRef, Table};
use std::alloc::Global;

/// A place where nothing may stand, or whose label is not allowed, or both.
#[derive(Debug, Drop)]
pub struct Conflict {
    /// Where it is.
    pub path: ReportPlace,
    /// No value may stand there.
    pub no_value: bool,
    /// The struct above does not allow the label.
    pub not_allowed: bool,
}

/// The conflicts of a table, in the order of their paths: the demanded places where no value may
/// stand, or whose label the place above does not allow.
pub fn conflicts(alloc: Global, table: &Table<Row>) -> Result<Vec<Conflict>, Memory>
    ensures conflicts { IfOk result (λ found.
        AreConflicts (TableRefuses RowRefusesQuestion table.now) found.items) }
    // Of a valid table there are none exactly where some document meets it.
    ensures exact { IsValidTable table.now → IfOk result (λ found.
        (found.items ≡ []) ↔ SomeMeets (TableRefuses RowRefusesQuestion table.now)) }
{
    let mut found = Vec::new(alloc);
    let mut search = ConflictSearch::new(alloc, Listed::new(alloc));
    search.visit(&mut found, &table.root(), false)?;
    Ok(found)
}

/// Tells of each conflict of a table by a line, in the order of their paths, as [`crate::lines`]
/// writes them, and whether there was one. They are told while the table is walked.
///
/// # Errors
///
/// Where no more is taken; then the front of the lines was.
pub fn write_conflicts<S: TextSink>(
    alloc: Global,
    table: &Table<Row>,
    out: &mut S,
) -> Result<bool, S::SinkError>
    ensures lines { IfOk result (λ some. WritesConflicts (TableRefuses RowRefusesQuestion table.now) some
        (S.taken out.old) (S.taken out.new)) }
    ensures begun { OnErr result (WritesConflictsPrefix (TableRefuses RowRefusesQuestion table.now)
        (S.taken out.old) (S.taken out.new)) }
{
    let mut search = ConflictSearch::new(alloc, Written::new(alloc));
    search.visit(out, &table.root(), false)?;
    Ok(search.has_written(out))
}

/// A search for conflicts, from the root on.
#[derive(Drop)]
struct ConflictSearch<'a, S> {
    /// How they are told.
    sink: S,
    /// The steps to the place at hand.
    steps: Vec<StepRef<'a>>,
}

impl<'a, S: ConflictSink> ConflictSearch<'a, S> {
    /// A search that stands at the root.
    fn new(alloc: Global, sink: S) -> ConflictSearch<'a, S>
        ensures sink { result.sink ≡ sink }
        ensures steps { result.steps.items ≡ [] }
    {
        ConflictSearch {
            sink,
            steps: Vec::new(alloc),
        }
    }

    /// Whether anything was told.
    fn has_written(&self, out: &S::Out) -> bool
        ensures { result ≡ nat_lt 0 (S.tally self.now.sink out.now).count }
    {
        self.sink.len(out) > 0
    }

    /// Looks for conflicts at a place, of which the place above refuses the label or not, and below
    /// it.
    #[cycle(walk)]
    fn visit(
        &mut self,
        out: &mut S::Out,
        branch: &Branch<'a, Row>,
        not_allowed: bool,
    ) -> Result<(), S::SinkError>
        ensures steps { OnOk result (self.new.steps.items ≡ self.old.steps.items) }
        ensures found { OnOk result (WritesPieces (S.tally self.old.sink out.old)
            (S.tally self.new.sink out.new)
            (conflicts_under S.piece (shown_steps self.old.steps.items)
            (conflicts_in not_allowed branch.now))) }
        ensures begun { OnErr result (WritesPiecesPrefix (S.tally self.old.sink out.old)
            (S.tally self.new.sink out.new)
            (conflicts_under S.piece (shown_steps self.old.steps.items)
            (conflicts_in not_allowed branch.now))) }
    {
        let row = branch.row();
        look_at(&mut self.sink, out, &self.steps, row, not_allowed)?;
        for (span, child) in branch.spans() {
            self.visit_span(out, row, span, &child)?;
        }
        self.visit_rest(out, branch)?;
        Ok(())
    }

    /// Looks for conflicts at the branches of a place that are kept as one.
    #[cycle(walk)]
    fn visit_span(
        &mut self,
        out: &mut S::Out,
        above: Option<&Row>,
        span: Span<'a>,
        child: &Branch<'a, Row>,
    ) -> Result<(), S::SinkError>
        ensures steps { OnOk result (self.new.steps.items ≡ self.old.steps.items) }
        ensures found { OnOk result (WritesPieces (S.tally self.old.sink out.old)
            (S.tally self.new.sink out.new)
            (conflicts_under S.piece (shown_steps self.old.steps.items)
            (conflicts_below (option_map (λ row. row.now) above.entry)
            (branches_of_span (span_of span.entry) child.now none)))) }
        ensures begun { OnErr result (WritesPiecesPrefix (S.tally self.old.sink out.old)
            (S.tally self.new.sink out.new)
            (conflicts_under S.piece (shown_steps self.old.steps.items)
            (conflicts_below (option_map (λ row. row.now) above.entry)
            (branches_of_span (span_of span.entry) child.now none)))) }
    {
        match span {
            Span::Label(label) => {
                let step = StepRef::Label(label);
                if is_demanded(above, step, child.row()) {
                    enter(&mut self.steps, step)?;
                    self.visit(out, child, is_refused(above, step))?;
                    self.steps.pop();
                }
                Ok(())
            }
            Span::Elements { first, more } => {
                let end = demanded_end(least_of(above), first, more);
                self.visit_run(out, first, end, child)?;
                Ok(())
            }
        }
    }

    /// Looks for conflicts at the elements of a place that each list has and that are its rest.
    #[cycle(walk)]
    fn visit_rest(&mut self, out: &mut S::Out, branch: &Branch<'a, Row>) -> Result<(), S::SinkError>
        ensures steps { OnOk result (self.new.steps.items ≡ self.old.steps.items) }
        ensures found { OnOk result (WritesPieces (S.tally self.old.sink out.old)
            (S.tally self.new.sink out.new)
            (conflicts_under S.piece (shown_steps self.old.steps.items)
            (conflicts_onward (row_of branch.now) (rest_below branch.now)))) }
        ensures begun { OnErr result (WritesPiecesPrefix (S.tally self.old.sink out.old)
            (S.tally self.new.sink out.new)
            (conflicts_under S.piece (shown_steps self.old.steps.items)
            (conflicts_onward (row_of branch.now) (rest_below branch.now)))) }
    {
        let Some(rest) = branch.rest() else {
            return Ok(());
        };
        let least = least_of(branch.row());
        self.visit_run(out, rest_from(branch, least), least, &rest)?;
        Ok(())
    }

    /// Looks for conflicts at the elements of a place from the first on, before the end, which are
    /// alike. Where nothing is told of one, nothing is of those behind it.
    #[cycle(walk)]
    fn visit_run(
        &mut self,
        out: &mut S::Out,
        first: u32,
        end: u32,
        element: &Branch<'a, Row>,
    ) -> Result<(), S::SinkError>
        ensures steps { OnOk result (self.new.steps.items ≡ self.old.steps.items) }
        ensures found { OnOk result (WritesPieces (S.tally self.old.sink out.old)
            (S.tally self.new.sink out.new)
            (conflicts_under S.piece (shown_steps self.old.steps.items)
            (each_index first (end - first) (conflicts_in false element.now)))) }
        ensures begun { OnErr result (WritesPiecesPrefix (S.tally self.old.sink out.old)
            (S.tally self.new.sink out.new)
            (conflicts_under S.piece (shown_steps self.old.steps.items)
            (each_index first (end - first) (conflicts_in false element.now)))) }
    {
        for number in first..end {
            let before = self.sink.len(out);
            enter(&mut self.steps, StepRef::Index(number))?;
            self.visit(out, element, false)?;
            self.steps.pop();
            if self.sink.len(out) == before {
                return Ok(());
            }
        }
        Ok(())
    }
}

/// Looks for a conflict at the place at hand, by the row there.
fn look_at<S: ConflictSink>(
    sink: &mut S,
    out: &mut S::Out,
    steps: &[StepRef],
    row: Option<&Row>,
    not_allowed: bool,
) -> Result<(), S::SinkError>
    requires { IfSome row (λ row. IsRow row.now) }
    ensures found { OnOk result (WritesPieces (S.tally sink.old out.old)
        (S.tally sink.new out.new)
        (conflicts_under S.piece (shown_steps steps.now) (conflict_here
        (has_no_value (option_map (λ row. row.now) row.entry)) not_allowed))) }
    ensures begun { OnErr result (WritesPiecesPrefix (S.tally sink.old out.old)
        (S.tally sink.new out.new)
        (conflicts_under S.piece (shown_steps steps.now) (conflict_here
        (has_no_value (option_map (λ row. row.now) row.entry)) not_allowed))) }
{
    let no_value = match row {
        None => false,
        Some(row) => lacks_value(row),
    };
    if no_value || not_allowed {
        sink.conflict(out, steps, no_value, not_allowed)?;
    }
    Ok(())
}
