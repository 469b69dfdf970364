//! What expressions refuse, as tables.
ghost use Rattle.std.specs.Prelude.{◌≡◌, ◌<◌, ◌≤◌, ◌⊎◌, ℕ, List, None, IfOk, OnOk};
ghost use Rattle.std.specs.Prelude.{length, slice_index_or};
ghost use Rattle.cue_lattice.specs.Limits.{length_limit, step_limit};
ghost use Rattle.cue_lattice.specs.Question.{SameAnswers};
ghost use Rattle.cue_row.specs.Row.{RefusesAsked, IsRow};
ghost use Rattle.cue_scope.specs.Core as core;
ghost use Rattle.cue_scope.specs.Core.{Core};
ghost use Rattle.cue_scope.specs.Definitions.{Definition};
ghost use Rattle.cue_scope.specs.Limits as limits;
ghost use Rattle.cue_scope.specs.Meaning.{meaning_of_number, meant_rest, nest_in_labels};
ghost use Rattle.cue_scope.specs.Uses.{uses_of_name};
ghost use Rattle.cue_syntax.specs.Syntax as tree;
ghost use Rattle.cue_table.specs.Form.{IsTable};
ghost use Rattle.cue_eval.specs.Evaluated.{HasAnswersOf};
ghost use Rattle.cue_eval.specs.Inner.Known.{core_of, named_core, parts_of, rest_of};
ghost use Rattle.cue_eval.specs.Inner.Gathered.{TreeRefusals, FurtherRefuse};
ghost use Rattle.cue_eval.specs.Places.{ListRefuses};
ghost use Rattle.cue_eval.specs.Inner.Parts.{AreAdded};
ghost use Rattle.cue_eval.specs.Inner.Ready.{all_definitions, members_of, AreKnown, IsReady};
ghost use Rattle.cue_eval.specs.Inner.Ready.{IsTableAt};
ghost use Rattle.cue_eval.specs.Inner.Ready.{AreReadyParts, AreReadyElements, IsReadyRest};
ghost use Rattle.cue_eval.specs.Inner.Ready.{AreReadyEntries, AreReadyFields, IsField, AreGiven};
ghost use Rattle.cue_eval.specs.Inner.Ready.{AtLabels, IsScalarLeaf};
ghost use Rattle.cue_eval.specs.Refuses.{ElementsRefuse, ElementRefuses, is_open_list};

use crate::build::{
    list_of, mark, push_scalars, put_behind, scalar_table, step_to, struct_of, table_of,
};
use crate::labels::labels_of;
use crate::pair::{Pairs, all_but};
use crate::parts::{is_scalar_part, number_of, remove_repeats};
use crate::rows::{integer_row, text_row};
use crate::scalars::{bottom_value, integer_of};
use cue_lattice::Memory;
use cue_row::{LabelSet, Row, Step};
use cue_syntax::{Declaration, Expr, Identifier, Label, Rest};
use cue_table::Table;

/// The definitions of a text, with the table of each one that was evaluated, and its pair where it
/// is scalar.
#[derive(Clone, Copy, Drop)]
pub(crate) struct TableBuilder<'a, 'f, 't> {
    pub pairs: Pairs<'a, 'f, 't>,
    /// By the numbers of the definitions.
    pub tables: &'a [Option<Table<Row>>],
}

impl<'a, 'f, 't> TableBuilder<'a, 'f, 't> {
    /// What an expression refuses.
    #[cycle(rows)]
    pub(crate) fn rows(&self, expression: &Expr) -> Result<Table<Row>, Memory>
        requires { IsReady self.now (tree.expression expression.now) }
        ensures form { IfOk result (IsTable RefusesAsked IsRow) }
        ensures answers { IfOk result (HasAnswersOf
            (core_of self.now.pairs (tree.expression expression.now))) }
    {
        match expression {
            Expr::Name { name, .. } => self.name(name),
            Expr::Parenthesis { inner, .. } => self.rows(inner),
            Expr::Struct { declarations, .. } => self.literal(declarations),
            Expr::Close { declarations, .. } => self.closed_literal(declarations),
            Expr::List { elements, rest, .. } => {
                let list = self.list(elements, goes_on(rest))?;
                self.and_each(list, elements.len(), rest)
            }
            Expr::Conjunction(parts) => self.conjunction(parts),
            Expr::Disjunction(_) => self.scalar(expression),
            Expr::Integer(_) => self.scalar(expression),
            Expr::Text(_) => self.scalar(expression),
            Expr::Bottom => self.scalar(expression),
            Expr::Bound(_, _) => self.scalar(expression),
            Expr::OtherInteger(_) => self.scalar(expression),
            Expr::OtherText(_) => self.scalar(expression),
        }
    }

    /// A scalar expression that is neither a name nor a conjunction. One integer or one text is a
    /// row at once, without its set.
    #[inline(always)]
    fn scalar(&self, expression: &Expr) -> Result<Table<Row>, Memory>
        requires ready { IsReady self.now (tree.expression expression.now) }
        requires scalar { IsScalarLeaf (tree.expression expression.now) }
        ensures form { IfOk result (IsTable RefusesAsked IsRow) }
        ensures answers { IfOk result (HasAnswersOf
            (core_of self.now.pairs (tree.expression expression.now))) }
    {
        let alloc = self.pairs.alloc;
        match expression {
            Expr::Integer(written) => table_of(alloc, integer_row(integer_of(*written))),
            Expr::Text(text) => table_of(alloc, text_row(text.to_text(alloc)?)),
            _ => scalar_table(alloc, self.pairs.pair(expression)?),
        }
    }

    /// A name.
    fn name(&self, name: &Identifier) -> Result<Table<Row>, Memory>
        requires { AreKnown self.now (uses_of_name (all_definitions self.now) name.now) }
        ensures form { IfOk result (IsTable RefusesAsked IsRow) }
        ensures answers { IfOk result (HasAnswersOf (named_core self.now.pairs name.now)) }
    {
        match name {
            Identifier::Definition(text) => self.use_definition(text.as_str()),
            Identifier::Hidden(text) => self.use_hidden(text.as_str()),
            Identifier::Plain(_) => {
                let valued = self.pairs.name(name)?;
                scalar_table(self.pairs.alloc, valued)
            }
        }
    }

    /// A name that begins with `_`.
    fn use_hidden(&self, name: &str) -> Result<Table<Row>, Memory>
        ensures form { IfOk result (IsTable RefusesAsked IsRow) }
        ensures answers { IfOk result (HasAnswersOf
            (named_core self.now.pairs (Identifier.Hidden name.now))) }
    {
        let alloc = self.pairs.alloc;
        if name == "_" {
            return Ok(Table::new(alloc));
        }
        scalar_table(alloc, bottom_value(alloc))
    }

    /// A use of a definition.
    fn use_definition(&self, name: &str) -> Result<Table<Row>, Memory>
        requires { AreKnown self.now (uses_of_name (all_definitions self.now)
            (Identifier.Definition name.now)) }
        ensures form { IfOk result (IsTable RefusesAsked IsRow) }
        ensures answers { IfOk result (HasAnswersOf
            (named_core self.now.pairs (Identifier.Definition name.now))) }
    {
        let alloc = self.pairs.alloc;
        match self.pairs.definitions.number(name) {
            None => scalar_table(alloc, bottom_value(alloc)),
            Some(number) => self.copy_definition(number),
        }
    }

    /// Parts that are joined by `&`. Scalars among them are joined as such and make one table, and
    /// a definition that several of them name is copied once. Where all are `!=` and texts, or `!=` and
    /// integers, these are put straight into one set.
    #[cycle(rows)]
    fn conjunction(&self, parts: &[Expr]) -> Result<Table<Row>, Memory>
        requires { AreReadyParts self.now (tree.elements_of_list parts.now) }
        ensures form { IfOk result (IsTable RefusesAsked IsRow) }
        ensures answers { IfOk result (HasAnswersOf
            (core.conjunction (parts_of self.now.pairs (tree.elements_of_list parts.now)))) }
    {
        if let Some(valued) = all_but(self.pairs.alloc, parts)? {
            return scalar_table(self.pairs.alloc, valued);
        }
        let mut tables = Vec::new(self.pairs.alloc);
        let mut scalars = Vec::new(self.pairs.alloc);
        let mut numbers = Vec::new(self.pairs.alloc);
        for part in parts {
            if is_scalar_part(part) {
                scalars.push(self.pairs.pair(part)?)?;
            } else {
                match number_of(self.pairs.definitions, part) {
                    Some(number) => numbers.push(number)?,
                    None => tables.push(self.rows(part)?)?,
                }
            }
        }
        push_scalars(self.pairs.alloc, scalars, &mut tables)?;
        self.push_definitions(&remove_repeats(numbers), &mut tables)?;
        Table::unify_all(self.pairs.alloc, tables)
    }

    /// Copies of the tables of definitions.
    fn push_definitions(
        &self,
        numbers: &[usize],
        tables: &mut Vec<Table<Row>>,
    ) -> Result<(), Memory>
        requires { AreKnown self.now numbers.now }
        ensures { OnOk result
            (AreAdded (all_definitions self.now) tables.old.items numbers.now tables.new.items) }
    {
        for number in numbers {
            tables.push(self.copy_definition(*number)?)?;
        }
        Ok(())
    }

    /// A copy of the table of a definition.
    fn copy_definition(&self, number: usize) -> Result<Table<Row>, Memory>
        requires { IsTableAt (meaning_of_number (all_definitions self.now) number)
            (slice_index_or self.now.tables.now number None) }
        ensures form { IfOk result (IsTable RefusesAsked IsRow) }
        ensures answers { IfOk result (HasAnswersOf (meaning_of_number (all_definitions self.now) number)) }
    {
        let alloc = self.pairs.alloc;
        match self.tables.get(number) {
            None => Ok(Table::new(alloc)),
            Some(None) => Ok(Table::new(alloc)),
            Some(Some(table)) => table.copy(alloc),
        }
    }

    /// The struct of a literal's declarations, or of the regular ones of a text.
    #[cycle(rows)]
    pub(crate) fn literal(&self, declarations: &[Declaration]) -> Result<Table<Row>, Memory>
        requires { AreReadyFields self.now (tree.entries declarations.now) }
        ensures form { IfOk result (IsTable RefusesAsked IsRow) }
        ensures answers { IfOk result (HasAnswersOf
            (core.struct (members_of self.now (tree.entries declarations.now)))) }
    {
        let fields = self.fields(declarations)?;
        let labels = LabelSet::all(self.pairs.alloc);
        struct_of(self.pairs.alloc, fields, labels)
    }

    /// `close` of a struct literal.
    #[cycle(rows)]
    fn closed_literal(&self, declarations: &[Declaration]) -> Result<Table<Row>, Memory>
        requires { AreReadyEntries self.now (tree.entries declarations.now) }
        ensures form { IfOk result (IsTable RefusesAsked IsRow) }
        ensures answers { IfOk result (HasAnswersOf
            (core.close (members_of self.now (tree.entries declarations.now)))) }
    {
        let fields = self.fields(declarations)?;
        let labels = labels_of(self.pairs.alloc, declarations)?;
        struct_of(self.pairs.alloc, fields, labels)
    }

    /// The fields among declarations, each with its step, in the order of the text.
    #[cycle(rows)]
    fn fields(&self, declarations: &[Declaration]) -> Result<Vec<(Step, Table<Row>)>, Memory>
        requires { AreReadyFields self.now (tree.entries declarations.now) }
        ensures { IfOk result (λ fields. AreGiven
            (AtLabels (members_of self.now (tree.entries declarations.now))) fields.items) }
    {
        let mut fields = Vec::new(self.pairs.alloc);
        for declaration in declarations {
            match declaration {
                Declaration::Ellipsis => {}
                Declaration::Definition { .. } => {}
                Declaration::Field {
                    label,
                    chain,
                    value,
                } => {
                    let field = self.field(label, chain, value)?;
                    fields.push(field)?;
                }
            }
        }
        Ok(fields)
    }

    /// A field with its step.
    #[cycle(rows)]
    pub(crate) fn field(
        &self,
        label: &Label,
        chain: &[Label],
        value: &Expr,
    ) -> Result<(Step, Table<Row>), Memory>
        requires ready { IsReady self.now (tree.expression value.now) }
        requires depth { limits.depth (nest_in_labels chain.now
            (core_of self.now.pairs (tree.expression value.now))) < step_limit }
        ensures { IfOk result (IsField label.now
            (nest_in_labels chain.now (core_of self.now.pairs (tree.expression value.now)))) }
    {
        let step = step_to(self.pairs.alloc, label)?;
        let mut table = self.rows(value)?;
        put_behind(self.pairs.alloc, chain, &mut table)?;
        mark(&mut table, label.mark)?;
        Ok((step, table))
    }

    /// A list of these elements, and whether it goes on.
    #[cycle(rows)]
    fn list(&self, elements: &[Expr], goes_on: bool) -> Result<Table<Row>, Memory>
        requires { AreReadyElements self.now (tree.elements_of_list elements.now) }
        ensures form { IfOk result (IsTable RefusesAsked IsRow) }
        ensures answers { IfOk result (λ list. SameAnswers (TreeRefusals list)
            (ElementsRefuse (ListRefuses (length elements.now) goes_on) (ElementRefuses
            (core.followed_by (parts_of self.now.pairs (tree.elements_of_list elements.now)) core.ends)))) }
    {
        let mut steps = Vec::new(self.pairs.alloc);
        for element in elements {
            let table = self.rows(element)?;
            let index = steps.len() as u32;
            steps.push((Step::Index(index), table))?;
        }
        list_of(self.pairs.alloc, steps, goes_on)
    }

    /// A list of so many elements, with what each further one is.
    #[cycle(rows)]
    fn and_each(&self, list: Table<Row>, count: usize, rest: &Rest) -> Result<Table<Row>, Memory>
        requires ready { IsReadyRest self.now (tree.rest_of_tree rest.now) }
        requires count { count ≤ length_limit }
        ensures form { IfOk result (IsTable RefusesAsked IsRow) }
        ensures answers { IfOk result (λ all. SameAnswers (TreeRefusals all)
            (λ path question. TreeRefusals list path question
            ⊎ FurtherRefuse count (rest_of self.now.pairs (tree.rest_of_tree rest.now)) path question)) }
    {
        match rest {
            Rest::Ends => Ok(list),
            Rest::GoesOn => Ok(list),
            Rest::Each(each) => {
                let further = self.rows(each)?;
                let mut all = list;
                all.meet_rest(count as u64, further)?;
                Ok(all)
            }
        }
    }
}

/// Whether a list goes on behind its elements.
fn goes_on(rest: &Rest) -> bool
    ensures { (ds : List Definition) (meaning_of_number : ℕ → Core) →
        result ≡ is_open_list (meant_rest ds meaning_of_number (tree.rest_of_tree rest.now)) }
{
    !matches!(rest, Rest::Ends)
}
