//! What closing the body of a definition adds, place by place.
ghost use Rattle.std.specs.Prelude.{◌≡◌, ◌↔◌, ◌≤◌, ◌<◌, ◌^◌, ◌⊎◌, [], ◌∷◌, ℕ, List};
ghost use Rattle.std.specs.Prelude.{All, None, IsTrue, IfOk, IfNone, IfSome, OnOk};
ghost use Rattle.std.specs.Prelude.{true, false};
ghost use Rattle.std.specs.BinaryHeap.{IsHeap, heap_items};
ghost use Rattle.std.specs.List.{Contains};
ghost use Rattle.std.specs.Option.{option_and_then};
ghost use Rattle.std.specs.Ordering.{nat_cmp};
ghost use Rattle.cue_lattice.specs.Limits.{step_limit};
ghost use Rattle.cue_lattice.specs.Path as paths;
ghost use Rattle.cue_lattice.specs.Path.{index};
ghost use Rattle.cue_row.specs.LabelSets.{RefusesLabel};
ghost use Rattle.cue_row.specs.Questions.{question_of};
ghost use Rattle.cue_row.specs.Row.{RefusesAsked, IsRow};
ghost use Rattle.cue_row.specs.Steps.{step_of};
ghost use Rattle.cue_row.specs.declared.question.Question.{Question as Questions};
ghost use Rattle.cue_sets.specs.Texts.{is_text_member};
ghost use Rattle.cue_table.specs.Depth.{tree_depth};
ghost use Rattle.cue_table.specs.Form.{IsTable};
ghost use Rattle.cue_table.specs.Refuses.{TableRefuses, RowRefuses};
ghost use Rattle.cue_table.specs.StepsOfCode.{span_of};
ghost use Rattle.cue_table.specs.Tree.{step_into};
ghost use Rattle.cue_eval.specs.Inner.Adding.{OnlyLabels, AllowsAll, ClosingAddsAt, ClosingAddsHere, IsStepInto};
ghost use Rattle.cue_eval.specs.Inner.Adding.{IsAddedBy, IsAllBelow, AreOwnLabels, AreAddedAt};
ghost use Rattle.cue_eval.specs.Inner.Adding.{AreFields};
ghost use Rattle.cue_eval.specs.Inner.Adding.{AreBounds, AreBoundsBelow, AreBoundsOf, AreFew};
ghost use Rattle.cue_eval.specs.Inner.Adding.{AreKept};
ghost use Rattle.cue_eval.specs.Inner.Adding.{AreStretches};
ghost use Rattle.cue_eval.specs.Inner.Adding.{HasBoundsOf, IsSpanWithin, root_row, step_below};
ghost use Rattle.cue_eval.specs.Telling.{DeclaredRefuses};
ghost use Rattle.cue_eval.specs.declared.declared.DeclaredQuestion.TheVariants.{Stands};

use crate::declared::Declared;
use cue_lattice::{Memory, Narrow, Text};
use cue_row::{LabelSet, Row, RowParts, Step};
use cue_sets::TextSet;
use cue_table::{Branch, Span, Table};
use std::alloc::Global;
use std::collections::BinaryHeap;

/// The label sets that closing a body adds, as a table. One is added at each path where a struct
/// literal of the body itself stands, but where no literal has a `...` and no label is refused yet.
pub(crate) fn label_sets(
    alloc: Global,
    own: &Table<Declared>,
    dots: &Table<Declared>,
    rows: &Table<Row>,
) -> Result<Table<Row>, Memory>
    ensures { IfOk result (IsAddedBy own.now dots.now rows.now) }
{
    let body = ClosingPlace {
        own: own.root(),
        dots: Some(dots.root()),
        rows: Some(rows.root()),
    };
    body.label_sets(alloc)
}

/// A place of a body at which a struct literal of its own may stand, or below.
#[derive(Drop)]
struct ClosingPlace<'a> {
    /// What the body's own struct literals declare.
    own: Branch<'a, Declared>,
    /// Where one of all struct literals has a `...`.
    dots: Option<Branch<'a, Declared>>,
    /// What the body refuses.
    rows: Option<Branch<'a, Row>>,
}

impl<'a> ClosingPlace<'a> {
    /// The label sets that are added here and below.
    #[cycle(sets)]
    fn label_sets(&self, alloc: Global) -> Result<Table<Row>, Memory>
        requires { tree_depth self.now.own ≤ step_limit }
        ensures form { IfOk result (IsTable RefusesAsked IsRow) }
        ensures added { IfOk result (λ sets. (path : paths.Path) (question : Questions) →
            TableRefuses RefusesAsked sets path question
            ↔ ClosingAddsAt self.now path (question_of question)) }
    {
        let steps = self.own_labels(alloc)?;
        let fields = self.fields(alloc, &steps)?;
        let sets = self.and_elements(alloc, fields)?;
        self.and_here(alloc, sets)
    }

    /// Those of the fields, and those of the elements.
    #[cycle(sets)]
    fn and_elements(
        &self,
        alloc: Global,
        fields: Vec<(Step, Table<Row>)>,
    ) -> Result<Table<Row>, Memory>
        requires depth { tree_depth self.now.own ≤ step_limit }
        requires fields { AreFields self.now fields.items }
        ensures form { IfOk result (IsTable RefusesAsked IsRow) }
        ensures all { IfOk result (IsAllBelow self.now) }
    {
        let stretches = self.stretches(alloc)?;
        let mut all = Table::of_branches(alloc, fields)?;
        all.meet_with(Table::of_elements(alloc, stretches)?)?;
        Ok(all)
    }

    /// Those of the elements, from the last to the first: each stretch that is alike is gone into
    /// once.
    #[cycle(sets)]
    fn stretches(&self, alloc: Global) -> Result<Vec<(u64, Table<Row>)>, Memory>
        requires { tree_depth self.now.own ≤ step_limit }
        ensures few { IfOk result (λ stretches. All (λ one. one.0 ≤ 2 ^ 32) stretches.items) }
        ensures depth { IfOk result (λ stretches.
            All (λ one. tree_depth one.1 < step_limit) stretches.items) }
        ensures added { IfOk result (λ stretches. AreStretches self.now 0 stretches.items) }
    {
        let mut bounds = self.stretch_starts(alloc)?;
        let mut stretches = Vec::new(alloc);
        let Some(last) = bounds.pop() else {
            // The bounds have 0.
            return Ok(stretches);
        };
        stretches.push((last, self.element(alloc, last)?))?;
        let mut from = last;
        while let Some(first) = bounds.pop() {
            if first < from {
                stretches.push((first, self.element(alloc, first)?))?;
                from = first;
            }
        }
        Ok(stretches)
    }

    /// Those of the element with an index.
    #[cycle(sets)]
    fn element(&self, alloc: Global, number: u64) -> Result<Table<Row>, Memory>
        requires { tree_depth self.now.own ≤ step_limit }
        ensures depth { IfOk result (λ sets. tree_depth sets < step_limit) }
        ensures added { IfOk result (λ sets. (path : paths.Path) (question : Questions) →
            TableRefuses RefusesAsked sets path question
            ↔ ClosingAddsAt self.now (index number ∷ path) (question_of question)) }
    {
        match self.item(number) {
            None => Ok(Table::new(alloc)),
            Some(place) => {
                let sets = place.label_sets(alloc)?;
                Ok(sets)
            }
        }
    }

    /// These, and what is added at the place itself.
    fn and_here(&self, alloc: Global, sets: Table<Row>) -> Result<Table<Row>, Memory>
        ensures form { IfOk result (IsTable RefusesAsked IsRow) }
        ensures added { IfOk result (λ all. (path : paths.Path) (question : Questions) →
            TableRefuses RefusesAsked all path question ↔ (TableRefuses RefusesAsked sets path question
            ⊎ ((path ≡ []) × ClosingAddsHere self.now (question_of question)))) }
    {
        match self.row(alloc)? {
            None => Ok(sets),
            Some(row) => {
                let mut all = sets;
                all.meet_row(row)?;
                Ok(all)
            }
        }
    }

    /// Those that are added below these steps.
    #[cycle(sets)]
    fn fields(&self, alloc: Global, steps: &[Step]) -> Result<Vec<(Step, Table<Row>)>, Memory>
        requires { tree_depth self.now.own ≤ step_limit }
        ensures { IfOk result (λ branches. AreAddedAt self.now steps.now branches.items) }
    {
        let mut branches = Vec::new(alloc);
        for step in steps {
            if let Some(place) = self.place_below(step) {
                branches.push((step.copy(alloc)?, place.label_sets(alloc)?))?;
            }
        }
        Ok(branches)
    }

    /// The labels at which something stands of what the body writes itself.
    fn own_labels(&self, alloc: Global) -> Result<Vec<Step>, Memory>
        ensures { IfOk result (λ steps. AreOwnLabels self.now.own steps.items) }
    {
        let mut steps = Vec::new(alloc);
        for (label, _) in self.own.labels() {
            steps.push(Step::Label(Text::from_str(alloc, label)?))?;
        }
        Ok(steps)
    }

    /// The indexes at which other elements begin, with 0: between two of them closing adds the same
    /// in all elements, and so it does from the last one on.
    fn stretch_starts(&self, alloc: Global) -> Result<BinaryHeap<u64>, Memory>
        ensures heap { IfOk result (λ bounds. IsHeap nat_cmp (heap_items bounds)) }
        ensures first { IfOk result (λ bounds. Contains (heap_items bounds) 0) }
        ensures few { IfOk result (λ bounds. AreFew (heap_items bounds)) }
        ensures alike { IfOk result (λ bounds. AreBounds self.now (heap_items bounds)) }
    {
        let mut bounds = BinaryHeap::new(alloc);
        bounds.push(0)?;
        if has_no_elements(&self.own) {
            return Ok(bounds);
        }
        push_bounds(&mut bounds, &self.own)?;
        push_bounds_below(&mut bounds, &self.dots)?;
        push_bounds_below(&mut bounds, &self.rows)?;
        Ok(bounds)
    }

    /// The place one step below, where the body's own struct literals stand there or below.
    fn place_below(&self, step: &Step) -> Option<ClosingPlace<'a>>
        ensures some { IfSome result (IsStepInto self.now (step_of step.now)) }
        ensures none { IfNone result (step_into self.now.own (step_of step.now) ≡ None) }
    {
        Some(ClosingPlace {
            own: self.own.find(step)?,
            dots: find(&self.dots, step),
            rows: find(&self.rows, step),
        })
    }

    /// The place of an element, where the body's own struct literals stand there or below.
    fn item(&self, number: u64) -> Option<ClosingPlace<'a>>
        ensures some { IfSome result (IsStepInto self.now (index number)) }
        ensures none { IfNone result (step_into self.now.own (index number) ≡ None) }
    {
        Some(ClosingPlace {
            own: item(&self.own, number)?,
            dots: find_item(&self.dots, number),
            rows: find_item(&self.rows, number),
        })
    }

    /// What is added at the place itself.
    fn row(&self, alloc: Global) -> Result<Option<Row>, Memory>
        ensures { IfOk result (λ row. (question : Questions) →
            RowRefuses RefusesAsked row question ↔ ClosingAddsHere self.now (question_of question)) }
    {
        let Some(own) = self.own.row() else {
            return Ok(None);
        };
        if !own.stands || has_dots(&self.dots) || !allows_all(&self.rows) {
            return Ok(None);
        }
        match declared_labels(alloc, &own.undeclared)? {
            None => Ok(None),
            Some(labels) => Ok(Some(row_of_labels(alloc, labels)?)),
        }
    }
}

/// The branch one step below, where there is one.
fn find<'a, R: Narrow>(branch: &Option<Branch<'a, R>>, step: &Step) -> Option<Branch<'a, R>>
    ensures { result ≡ option_and_then (λ tree. step_into tree (step_of step.now)) branch.now }
{
    branch.as_ref()?.find(step)
}

/// The branch of an element, where there is one.
fn find_item<'a, R: Narrow>(branch: &Option<Branch<'a, R>>, number: u64) -> Option<Branch<'a, R>>
    ensures { result ≡ step_below branch.now (index number) }
{
    item(branch.as_ref()?, number)
}

/// The branch of an element: from an index on that of the rest, and before it one of its own.
#[tactic(auto, using(crate::proofs::LabelTables::alike_into))]
fn item<'a, R: Narrow>(branch: &Branch<'a, R>, number: u64) -> Option<Branch<'a, R>>
    ensures { result ≡ step_into branch.now (index number) }
{
    if number < branch.fixed() {
        branch.find(&Step::Index(number as u32))
    } else {
        branch.rest()
    }
}

/// Whether no element stands at a place.
fn has_no_elements<R: Narrow>(branch: &Branch<R>) -> bool
    ensures { IsTrue result → (i : ℕ) → step_into branch.now (index i) ≡ None }
{
    branch.rest().is_none() && branch.fixed() == 0
}

/// Puts in the indexes at which other elements of a branch begin, where there is one.
fn push_bounds_below<R: Narrow>(
    bounds: &mut BinaryHeap<u64>,
    branch: &Option<Branch<R>>,
) -> Result<(), Memory>
    requires heap { IsHeap nat_cmp (heap_items bounds.old) }
    requires few { AreFew (heap_items bounds.old) }
    ensures heap { OnOk result (IsHeap nat_cmp (heap_items bounds.new)) }
    ensures few { OnOk result (AreFew (heap_items bounds.new)) }
    ensures kept { OnOk result (AreKept (heap_items bounds.old) (heap_items bounds.new)) }
    ensures alike { OnOk result (AreBoundsBelow branch.now (heap_items bounds.new)) }
{
    match branch {
        None => Ok(()),
        Some(branch) => push_bounds(bounds, branch),
    }
}

/// Puts in the indexes at which other elements of a branch begin.
fn push_bounds<R: Narrow>(bounds: &mut BinaryHeap<u64>, branch: &Branch<R>) -> Result<(), Memory>
    requires heap { IsHeap nat_cmp (heap_items bounds.old) }
    requires few { AreFew (heap_items bounds.old) }
    ensures heap { OnOk result (IsHeap nat_cmp (heap_items bounds.new)) }
    ensures few { OnOk result (AreFew (heap_items bounds.new)) }
    ensures kept { OnOk result (AreKept (heap_items bounds.old) (heap_items bounds.new)) }
    ensures alike { OnOk result (AreBoundsOf branch.now (heap_items bounds.new)) }
{
    let fixed = branch.fixed();
    for (span, _) in branch.spans() {
        push_span(bounds, span)?;
    }
    push_bound(bounds, fixed)?;
    Ok(())
}

/// Puts in the first index of a span, and that behind its last one.
fn push_span(bounds: &mut BinaryHeap<u64>, span: Span) -> Result<(), Memory>
    requires heap { IsHeap nat_cmp (heap_items bounds.old) }
    requires few { AreFew (heap_items bounds.old) }
    requires within { IsSpanWithin (2 ^ 32) (span_of span) }
    ensures heap { OnOk result (IsHeap nat_cmp (heap_items bounds.new)) }
    ensures few { OnOk result (AreFew (heap_items bounds.new)) }
    ensures kept { OnOk result (AreKept (heap_items bounds.old) (heap_items bounds.new)) }
    ensures there { OnOk result (HasBoundsOf (span_of span.entry) (heap_items bounds.new)) }
{
    match span {
        Span::Label(_) => Ok(()),
        Span::Elements { first, more } => {
            push_bound(bounds, u64::from(first))?;
            push_bound(bounds, u64::from(first) + u64::from(more) + 1)?;
            Ok(())
        }
    }
}

/// Puts in an index, or the one behind the last.
fn push_bound(bounds: &mut BinaryHeap<u64>, index: u64) -> Result<(), Memory>
    requires heap { IsHeap nat_cmp (heap_items bounds.old) }
    requires few { AreFew (heap_items bounds.old) }
    requires index { index ≤ 2 ^ 32 }
    ensures heap { OnOk result (IsHeap nat_cmp (heap_items bounds.new)) }
    ensures few { OnOk result (AreFew (heap_items bounds.new)) }
    ensures kept { OnOk result (AreKept (heap_items bounds.old) (heap_items bounds.new)) }
    ensures there { OnOk result (Contains (heap_items bounds.new) index) }
{
    bounds.push(index)?;
    Ok(())
}

/// Whether a literal has a `...` at a place.
fn has_dots(dots: &Option<Branch<Declared>>) -> bool
    ensures { IsTrue result ↔ RowRefuses DeclaredRefuses (root_row dots.now) Stands }
{
    match dots {
        None => false,
        Some(dots) => match dots.row() {
            None => false,
            Some(row) => row.stands,
        },
    }
}

/// Whether no label is left out at a place.
fn allows_all(rows: &Option<Branch<Row>>) -> bool
    ensures { IsTrue result ↔ AllowsAll (root_row rows.now) }
{
    match rows {
        None => true,
        Some(rows) => match rows.row() {
            None => true,
            Some(row) => row.labels().is_none(),
        },
    }
}

/// The row that lets these labels stand alone, and refuses nothing else.
fn row_of_labels(alloc: Global, labels: LabelSet) -> Result<Row, Memory>
    ensures { IfOk result (λ row. (question : Questions) →
        RefusesAsked row question ↔ OnlyLabels labels (question_of question)) }
{
    let parts = RowParts {
        labels,
        ..RowParts::free(alloc)
    };
    Row::from_parts(alloc, parts)
}

/// The labels that are declared, where these are finitely many and all others are not.
fn declared_labels(alloc: Global, undeclared: &TextSet) -> Result<Option<LabelSet>, Memory>
    ensures some { IfOk result (λ found. IfSome found
        (λ labels. (undeclared.now.0 ≡ true) ×
        ((l : List ℕ) → RefusesLabel labels l ↔ (is_text_member undeclared.now l ≡ true)))) }
    ensures none { IfOk result (λ found. IfNone found (undeclared.now.0 ≡ false)) }
{
    let (all_but, labels) = undeclared.copy(alloc)?.into_texts();
    if !all_but {
        return Ok(None);
    }
    Ok(LabelSet::listing(labels))
}
