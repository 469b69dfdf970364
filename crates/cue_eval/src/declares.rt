//! What the struct literals that an expression writes itself declare together, place by place; and
//! where one of all, also those in definitions that it names, has a `...`.
ghost use Rattle.std.specs.Prelude.{◌≡◌, ◌↔◌, ◌+◌, ◌≤◌, ◌<◌, ℕ, List, [], true, length, IfOk};
ghost use Rattle.std.specs.Prelude.{IsTrue};
ghost use Rattle.cue_lattice.specs.Limits.{length_limit, step_limit};
ghost use Rattle.cue_syntax.specs.Syntax as tree;
ghost use Rattle.cue_scope.specs.Core.{Core, struct, list, ends, followed_by, conjunction};
ghost use Rattle.cue_scope.specs.Core.{member};
ghost use Rattle.cue_scope.specs.Core.{no_members};
ghost use Rattle.cue_scope.specs.Definitions.{Definition as DefinitionOf};
ghost use Rattle.cue_scope.specs.Kept.{nodes_kept};
ghost use Rattle.cue_scope.specs.Limits.{depth};
ghost use Rattle.cue_scope.specs.Meaning.{meaning_of_number, meant_name, meant_members, nest_in_labels};
ghost use Rattle.cue_scope.specs.Meaning.{text_of};
ghost use Rattle.cue_table.specs.Depth.{tree_depth};
ghost use Rattle.cue_eval.specs.Telling.{DeclaredRefuses};
ghost use Rattle.cue_eval.specs.Inner.Telling.{literal_declares};
ghost use Rattle.cue_eval.specs.Inner.Told.{DeclaresLiterals, DeclaresFields, IsKnown, ArePartsKnown};
ghost use Rattle.cue_eval.specs.Inner.Told.{AreElementsKnown, AreMembersKnown, IsNameKnown};
ghost use Rattle.cue_eval.specs.Inner.Told.{IsRooted};
ghost use Rattle.cue_eval.specs.Inner.Told.{meaning_in_scope, mean_elements, mean_rest, mean_members};
ghost use Rattle.cue_eval.specs.Inner.Told.{IsRestKnown};
ghost use Rattle.cue_eval.specs.Inner.Told.{DeclareBeyond, own_literals_declare};
ghost use Rattle.cue_eval.specs.declared.declares.LiteralSelection.TheVariants as whoses;

use crate::build::step_to;
use crate::declared::{Declared, DeclaredQuestion};
use crate::labels::has_ellipsis;
use cue_lattice::{Memory, Narrow, meet_all};
use cue_row::{Path, Step};
use cue_scope::Definitions;
use cue_sets::TextSet;
use cue_syntax::{Declaration, Expr, Identifier, Label, LabelName, Rest};
use cue_table::Table;
use std::alloc::Global;

/// Whose struct literals are looked at.
#[derive(Clone, Copy, Debug)]
pub(crate) enum LiteralSelection {
    /// Those that the expression writes itself, for what they declare.
    Own,
    /// All, also those in definitions that it names, for whether one has a `...`.
    Dotted,
}

/// What is known of definitions: where a literal in each has a `...`, as far as they were looked
/// at.
#[derive(Clone, Copy, Drop)]
pub(crate) struct LiteralScope<'a, 'f, 't> {
    pub(crate) alloc: Global,
    pub(crate) definitions: &'a Definitions<'f, 't>,
    pub(crate) dots: &'a [Option<Table<Declared>>],
}

impl<'a, 'f, 't> LiteralScope<'a, 'f, 't> {
    /// An expression.
    #[cycle(told)]
    pub(crate) fn expression(
        &self,
        whose: LiteralSelection,
        expression: &Expr,
    ) -> Result<Table<Declared>, Memory>
        requires { IsKnown self.now (tree.expression expression.now) }
        ensures { IfOk result (DeclaresLiterals whose (meaning_in_scope self.now (tree.expression expression.now))) }
    {
        match expression {
            Expr::Name { name, .. } => self.name(whose, name),
            Expr::Parenthesis { inner, .. } => self.expression(whose, inner),
            Expr::Struct { declarations, .. } => self.literal(whose, declarations),
            Expr::Close { declarations, .. } => self.literal(whose, declarations),
            Expr::List { elements, rest, .. } => {
                let list = self.elements(whose, elements)?;
                self.and_each(whose, list, elements.len(), rest)
            }
            Expr::Conjunction(parts) => self.parts(whose, parts),
            Expr::Disjunction(_) => Ok(Table::new(self.alloc)),
            Expr::Integer(_) => Ok(Table::new(self.alloc)),
            Expr::Text(_) => Ok(Table::new(self.alloc)),
            Expr::Bottom => Ok(Table::new(self.alloc)),
            Expr::Bound(_, _) => Ok(Table::new(self.alloc)),
            Expr::OtherInteger(_) => Ok(Table::new(self.alloc)),
            Expr::OtherText(_) => Ok(Table::new(self.alloc)),
        }
    }

    /// The parts of a conjunction.
    #[cycle(told)]
    fn parts(&self, whose: LiteralSelection, parts: &[Expr]) -> Result<Table<Declared>, Memory>
        requires { ArePartsKnown self.now (tree.elements_of_list parts.now) }
        ensures { IfOk result
            (DeclaresLiterals whose (conjunction (mean_elements self.now (tree.elements_of_list parts.now)))) }
    {
        let mut tables = Vec::new(self.alloc);
        for part in parts {
            tables.push(self.expression(whose, part)?)?;
        }
        Table::unify_all(self.alloc, tables)
    }

    /// The elements of a list.
    #[cycle(told)]
    fn elements(
        &self,
        whose: LiteralSelection,
        elements: &[Expr],
    ) -> Result<Table<Declared>, Memory>
        requires { AreElementsKnown self.now (tree.elements_of_list elements.now) }
        ensures { IfOk result (DeclaresLiterals whose
            (list (followed_by (mean_elements self.now (tree.elements_of_list elements.now)) ends))) }
    {
        let mut branches = Vec::new(self.alloc);
        let mut index: u32 = 0;
        for element in elements {
            branches.push((Step::Index(index), self.expression(whose, element)?))?;
            index += 1;
        }
        Table::of_branches(self.alloc, branches)
    }

    /// A list of so many elements, with what each further one is.
    #[cycle(told)]
    fn and_each(
        &self,
        whose: LiteralSelection,
        list: Table<Declared>,
        count: usize,
        rest: &Rest,
    ) -> Result<Table<Declared>, Memory>
        requires known { IsRestKnown self.now (tree.rest_of_tree rest.now) }
        requires count { count ≤ length_limit }
        ensures { IfOk result (DeclareBeyond whose count
            (mean_rest self.now (tree.rest_of_tree rest.now)) list) }
    {
        match rest {
            Rest::Ends => Ok(list),
            Rest::GoesOn => Ok(list),
            Rest::Each(each) => {
                let further = self.expression(whose, each)?;
                let mut all = list;
                all.meet_rest(count as u64, further)?;
                Ok(all)
            }
        }
    }

    /// A struct literal.
    #[cycle(told)]
    fn literal(
        &self,
        whose: LiteralSelection,
        declarations: &[Declaration],
    ) -> Result<Table<Declared>, Memory>
        requires { AreMembersKnown self.now (tree.entries declarations.now) }
        ensures { IfOk result
            (DeclaresLiterals whose (struct (mean_members self.now (tree.entries declarations.now)))) }
    {
        let table = self.fields(whose, declarations)?;
        if is_declared_here(whose, declarations) {
            at_root(
                self.alloc,
                table,
                &declare_struct(self.alloc, declarations)?,
            )
        } else {
            Ok(table)
        }
    }

    /// The fields of a struct literal.
    #[cycle(told)]
    fn fields(
        &self,
        whose: LiteralSelection,
        declarations: &[Declaration],
    ) -> Result<Table<Declared>, Memory>
        requires { AreMembersKnown self.now (tree.entries declarations.now) }
        ensures { IfOk result (DeclaresFields whose
            (mean_members self.now (tree.entries declarations.now))) }
    {
        let mut branches = Vec::new(self.alloc);
        for declaration in declarations {
            match declaration {
                Declaration::Ellipsis => {}
                Declaration::Field {
                    label,
                    chain,
                    value,
                } => {
                    let value = self.expression(whose, value)?;
                    let below = wrap_in_chain(self.alloc, whose, chain, value)?;
                    branches.push((step_to(self.alloc, label)?, below))?;
                }
                Declaration::Definition { .. } => {}
            }
        }
        Table::of_branches(self.alloc, branches)
    }

    /// A name.
    fn name(&self, whose: LiteralSelection, name: &Identifier) -> Result<Table<Declared>, Memory>
        requires { IsNameKnown self.now name.now }
        ensures { IfOk result
            (DeclaresLiterals whose (meant_name (nodes_kept self.now.definitions.now)
            (meaning_of_number (nodes_kept self.now.definitions.now)) name.now)) }
    {
        match name {
            Identifier::Plain(_) => Ok(Table::new(self.alloc)),
            Identifier::Hidden(_) => Ok(Table::new(self.alloc)),
            Identifier::Definition(name) => match whose {
                LiteralSelection::Own => Ok(Table::new(self.alloc)),
                LiteralSelection::Dotted => self.use_definition(name.as_str()),
            },
        }
    }

    /// A use of a definition.
    fn use_definition(&self, name: &str) -> Result<Table<Declared>, Memory>
        requires { IsNameKnown self.now (Identifier.Definition name.now) }
        ensures { IfOk result (DeclaresLiterals whoses.Dotted
            (meant_name (nodes_kept self.now.definitions.now)
            (meaning_of_number (nodes_kept self.now.definitions.now)) (Identifier.Definition name.now))) }
    {
        match self.definitions.number(name) {
            None => Ok(Table::new(self.alloc)),
            Some(number) => match self.dots.get(number) {
                None => Ok(Table::new(self.alloc)),
                Some(kept) => match kept {
                    None => Ok(Table::new(self.alloc)),
                    Some(dots) => dots.copy(self.alloc),
                },
            },
        }
    }
}

/// What is told of an expression, behind a chain of labels, each of which is in a struct of its
/// own.
pub(crate) fn wrap_in_chain(
    alloc: Global,
    whose: LiteralSelection,
    chain: &[Label],
    table: Table<Declared>,
) -> Result<Table<Declared>, Memory>
    requires { length chain.now + tree_depth table ≤ step_limit }
    ensures told { IfOk result (λ all. (c : Core) → DeclaresLiterals whose c table →
        DeclaresLiterals whose (nest_in_labels chain.now c) all) }
    ensures depth { IfOk result (λ all. tree_depth all ≤ length chain.now + tree_depth table) }
{
    match chain.split_first() {
        None => Ok(table),
        Some((first, rest)) => {
            let below = wrap_in_chain(alloc, whose, rest, table)?;
            one_field(alloc, whose, first, below)
        }
    }
}

/// A struct literal of one declaration.
fn one_field(
    alloc: Global,
    whose: LiteralSelection,
    label: &Label,
    below: Table<Declared>,
) -> Result<Table<Declared>, Memory>
    requires { tree_depth below < step_limit }
    ensures told { IfOk result (λ all. (c : Core) → DeclaresLiterals whose c below →
        DeclaresLiterals whose (struct (member (text_of label.now.name) label.now.mark c no_members)) all) }
    ensures depth { IfOk result (λ all. tree_depth all ≤ tree_depth below + 1) }
{
    let mut branches = Vec::with_capacity(alloc, 1)?;
    branches.push((step_to(alloc, label)?, below))?;
    let table = Table::of_branches(alloc, branches)?;
    match whose {
        LiteralSelection::Dotted => Ok(table),
        LiteralSelection::Own => {
            let here = Declared {
                stands: true,
                undeclared: TextSet::but(alloc, label_text(label))?,
            };
            at_root(alloc, table, &here)
        }
    }
}

/// The table with a row at its root besides.
fn at_root(alloc: Global, table: Table<Declared>, row: &Declared) -> Result<Table<Declared>, Memory>
    ensures { IfOk result (IsRooted table row.now) }
{
    let mut all = table;
    all.add(&Path::root(alloc), row)?;
    Ok(all)
}

/// Whether something is told of a struct literal at its own place.
fn is_declared_here(whose: LiteralSelection, declarations: &[Declaration]) -> bool
    ensures told { IsTrue result → (ds : List DefinitionOf) (meaning_of_number : ℕ → Core) (asked : DeclaredQuestion) →
        (literal_declares asked (meant_members ds meaning_of_number (tree.entries declarations.now)) ≡ true)
        ↔ own_literals_declare whose asked (meant_members ds meaning_of_number (tree.entries declarations.now)) }
    ensures untold { ¬ IsTrue result → (ds : List DefinitionOf) (meaning_of_number : ℕ → Core)
        (asked : DeclaredQuestion) →
        ¬ own_literals_declare whose asked (meant_members ds meaning_of_number (tree.entries declarations.now)) }
{
    match whose {
        LiteralSelection::Own => true,
        LiteralSelection::Dotted => has_ellipsis(declarations),
    }
}

/// What a struct literal declares.
fn declare_struct(alloc: Global, declarations: &[Declaration]) -> Result<Declared, Memory>
    ensures { IfOk result (λ known. (ds : List DefinitionOf) (meaning_of_number : ℕ → Core) (asked : DeclaredQuestion) →
        DeclaredRefuses known asked ↔ (literal_declares asked (meant_members ds meaning_of_number (tree.entries declarations.now))
        ≡ true)) }
{
    let mut sets = Vec::new(alloc);
    for declaration in declarations {
        match declaration {
            Declaration::Ellipsis => sets.push(TextSet::none(alloc))?,
            Declaration::Field { label, .. } => sets.push(TextSet::but(alloc, label_text(label))?)?,
            Declaration::Definition { .. } => {}
        }
    }
    Ok(Declared {
        stands: true,
        undeclared: meet_all(alloc, &sets)?,
    })
}

/// The text of a label.
fn label_text<'l>(label: &'l Label) -> &'l str
    ensures { result.now ≡ text_of label.now.name }
{
    match &label.name {
        LabelName::Plain(word) => word.as_str(),
        LabelName::Quoted(word) => word.as_str(),
    }
}
