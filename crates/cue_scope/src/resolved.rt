ghost use Rattle.std.specs.Prelude.{◌≡◌, ◌<◌, ◌⊎◌, ◌-◌, ◌^◌, min, ℕ, List, length, slice_get};
ghost use Rattle.std.specs.Prelude.{slice_index_or, IfOk, IfErr, OnOk};
ghost use Rattle.cue_lattice.specs.Refusal.{memory};
ghost use Rattle.cue_syntax.specs.Syntax.{entries};
ghost use Rattle.cue_scope.specs.Core as core;
ghost use Rattle.cue_scope.specs.Definitions as defining;
ghost use Rattle.cue_scope.specs.Files.{entries_of};
ghost use Rattle.cue_scope.specs.Graph as graphs;
ghost use Rattle.cue_scope.specs.Kept.{nodes_kept};
ghost use Rattle.cue_scope.specs.Meaning as meaning;
ghost use Rattle.cue_scope.specs.Measures as totals;
ghost use Rattle.cue_scope.specs.Measures.{IsUse};
ghost use Rattle.cue_scope.specs.Ordering.{graph_of};
ghost use Rattle.cue_scope.specs.Refusing.{IsLegalTree, TextRefuses, IsCycleAt};
ghost use Rattle.cue_scope.specs.Limits as limits;
ghost use Rattle.cue_scope.specs.Reached.{IsReachedOrder, times_in_list};
ghost use Rattle.cue_scope.specs.Written.{written_uses};
ghost use Rattle.cue_scope.specs.Uses as using;

use crate::counts::counts_of;
use crate::definitions::Definitions;
use crate::graph::{Order, order_of, reach_all};
use crate::measure::{KnownMeasures, Measure};
use crate::memory::{new_measures, push};
use crate::names::Uses;
use cue_lattice::{Kind, Refusal};
use cue_syntax::{Declaration, File};
use std::alloc::Global;
use std::marker::Model;

/// A legal text, and what evaluation needs of its definitions. Contracts see it as the file that it
/// is of, which follows the grammar and is legal by this type.
#[derive(Drop)]
pub struct Resolved<'f, 't> {
    file: &'f File<'t>,
    definitions: Definitions<'f, 't>,
    measures: Vec<Measure>,
    order: Vec<usize>,
    counts: Vec<usize>,
    size: usize,
}

impl<'f, 't> Model for Resolved<'f, 't> {
    ghost use Rattle.cue_syntax.specs.declared.tree.File.{File};
    ghost use Rattle.cue_syntax.specs.contracts.tree.File as whole;
    ghost use Rattle.std.specs.Coded.{codes};
    ghost use Rattle.std.specs.Prelude.{[]};
    ghost use mir.Syntax.{named};

    ghost Value = { File };

    ghost coded = { Prim.hlevel
        (codes, (whole.the_row (record { mir = named 0; lft = [] })).coded) };

    ghost use Rattle.cue_scope.specs.Resolving.{IsResolved};

    ghost view = { λ resolved. resolved.file.now };

    ghost invariant = { IsResolved };
}

/// Checks a text: its names, its definitions, the terms of its disjunctions and its limits.
///
/// # Errors
///
/// The first of these checks that the text fails: `Repeated`; `FieldReference` and `UnknownName`,
/// by the first name; `Cycle`; `NotScalar`; `TooLarge`; `TooDeep`. Each comes with the place that
/// it names. And `Memory`.
pub fn resolve<'f, 't>(alloc: Global, file: &'f File<'t>) -> Result<Resolved<'f, 't>, Refusal>
    ensures legal { OnOk result (IsLegalTree (entries_of file.now)) }
    ensures resolved { IfOk result (λ r. r ≡ file.now) }
    ensures refused { IfErr result (λ r. (r ≡ memory) ⊎ TextRefuses (entries_of file.now) r) }
{
    let declarations = file.declarations.as_slice();
    let definitions = Definitions::of(alloc, declarations)?;
    let uses = Uses::of(alloc, &definitions, declarations)?;
    let order = order_definitions(alloc, &definitions, &uses)?;
    let measures = measures_of(alloc, &definitions, &order)?;
    let whole = measure(&definitions, &measures, declarations);
    whole.check()?;
    let order = keep_reached(alloc, &uses.of_definitions, &uses.of_fields, &order)?;
    let counts = counts_of(alloc, &uses.of_definitions, &uses.of_fields, &order)?;
    Ok(Resolved {
        file,
        definitions,
        measures,
        order,
        counts,
        size: whole.size,
    })
}

/// The definitions in an order in which each comes after those that it uses.
fn order_definitions(
    alloc: Global,
    definitions: &Definitions,
    uses: &Uses,
) -> Result<Vec<usize>, Refusal>
    requires { graph_of uses.now.of_definitions.items ≡ using.graph (nodes_kept definitions.now) }
    ensures acyclic { OnOk result (graphs.IsAcyclic (using.graph (nodes_kept definitions.now))) }
    ensures ordered { IfOk result (λ v. graphs.IsOrder
        (using.graph (nodes_kept definitions.now)) v.items) }
    ensures refused { IfErr result (λ r. (r ≡ memory)
        ⊎ ((r.kind ≡ Kind.Cycle) × IsCycleAt (nodes_kept definitions.now) r.place)) }
{
    match order_of(alloc, &uses.of_definitions)? {
        Order::Ordered(order) => Ok(order),
        Order::Cycle(number) => {
            let definition = &definitions.all()[number];
            Err(Refusal::at(Kind::Cycle, definition.from))
        }
    }
}

/// The measures of the definitions, taken in an order in which each comes after those that it uses.
fn measures_of(
    alloc: Global,
    definitions: &Definitions,
    order: &[usize],
) -> Result<Vec<Measure>, Refusal>
    requires { graphs.IsOrder (using.graph (nodes_kept definitions.now)) order.now }
    ensures length { IfOk result (λ v. length v.items ≡ length (nodes_kept definitions.now)) }
    ensures measured { IfOk result (λ v. (i : ℕ) (d : Measure) →
        i < length (nodes_kept definitions.now) →
        IsUse (slice_index_or v.items i d) (meaning.meaning_of_number (nodes_kept definitions.now) i)) }
    ensures memory { IfErr result (λ r. r ≡ memory) }
{
    let mut measures = new_measures(alloc, definitions.all().len())?;
    for number in order {
        let known = KnownMeasures {
            definitions,
            measures: &measures,
        };
        let measure = known.definition(*number);
        measures[*number] = measure;
    }
    Ok(measures)
}

/// The measure of the struct that a text means, with the terms of its definitions.
fn measure(definitions: &Definitions, measures: &[Measure], declarations: &[Declaration]) -> Measure
    requires length { length measures.now ≡ length (nodes_kept definitions.now) }
    requires measured { (i : ℕ) (d : Measure) → i < length (nodes_kept definitions.now) →
        IsUse (slice_index_or measures.now i d) (meaning.meaning_of_number (nodes_kept definitions.now) i) }
    ensures { totals.IsMeasured result (totals.as_literal 1
        (totals.total_of_file (nodes_kept definitions.now) (entries declarations.now))) }
{
    let known = KnownMeasures {
        definitions,
        measures,
    };
    known.file(declarations).literal(1)
}

/// Those nodes of an order that are reached from some nodes.
fn keep_reached(
    alloc: Global,
    graph: &[Vec<usize>],
    from: &[usize],
    order: &[usize],
) -> Result<Vec<usize>, Refusal>
    requires closed { graphs.IsClosed (graph_of graph.now) }
    requires inside { (i : ℕ) → graphs.IsNodeIn i from.now → i < length graph.now }
    requires ordered { graphs.IsOrder (graph_of graph.now) order.now }
    ensures kept { IfOk result (λ v. IsReachedOrder (graph_of graph.now) from.now v.items) }
    ensures memory { IfErr result (λ r. r ≡ memory) }
{
    let reached = reach_all(alloc, graph, from)?;
    let mut kept = Vec::new(alloc);
    for number in order {
        if reached[*number] {
            push(&mut kept, *number)?;
        }
    }
    Ok(kept)
}

impl<'f, 't> Resolved<'f, 't> {
    /// The declarations of the text, which is legal. The regular ones are those of the struct that
    /// it means.
    pub fn declarations(&self) -> &'f [Declaration<'t>]
        ensures declarations { result.now ≡ self.now.declarations.items }
        ensures legal { IsLegalTree (entries_of self.now) }
    {
        self.file.declarations.as_slice()
    }

    /// The definitions of the text. A use of one means its body, closed.
    pub fn definitions(&self) -> &Definitions<'f, 't>
        ensures all { nodes_kept result.now ≡ defining.definitions (entries_of self.now) }
        ensures uses { (i : ℕ) → let ds = defining.definitions (entries_of self.now) in i
            < length ds → meaning.meaning_of_number ds i
            ≡ meaning.meant_use ds (meaning.meaning_of_number ds) (slice_get ds i) }
    {
        &self.definitions
    }

    /// The numbers of the definitions that the regular declarations reach, each once, after those
    /// that it uses.
    pub fn order(&self) -> &[usize]
        ensures { let ds = defining.definitions (entries_of self.now) in IsReachedOrder
            (using.graph ds) (using.uses_of_fields ds (entries_of self.now)) result.now }
    {
        &self.order
    }

    /// Whether the body of a definition is scalar, by its number.
    pub fn is_scalar(&self, number: usize) -> bool
        requires { number < length (defining.definitions (entries_of self.now)) }
        ensures { result ≡ core.is_scalar (meaning.meaning_of_number
            (defining.definitions (entries_of self.now)) number) }
    {
        self.measures[number].scalar
    }

    /// How often the regular declarations and the bodies of the definitions that they reach name a
    /// definition, by its number, where each is looked at once. It is counted no further than
    /// `usize::MAX`.
    pub fn count(&self, number: usize) -> usize
        requires { number < length (defining.definitions (entries_of self.now)) }
        ensures { (order : List ℕ) → let ds = defining.definitions
            (entries_of self.now) in IsReachedOrder (using.graph ds)
            (using.uses_of_fields ds (entries_of self.now)) order →
            result ≡ min (times_in_list number (written_uses ds (entries_of self.now) order)) (2 ^ 64 - 1) }
    {
        self.counts[number]
    }

    /// The size of the struct that the text means, at most 65,536.
    pub fn size(&self) -> u64
        ensures { result ≡ limits.size (meaning.meant_text (entries_of self.now)) }
    {
        self.size as u64
    }
}
