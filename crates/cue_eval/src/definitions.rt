//! What is known of the definitions of a text, and what their bodies refuse.
ghost use Rattle.std.specs.Prelude.{◌≡◌, ◌<◌, Some, None, [], ◌∷◌, IfOk, OnOk, IfSome, length};
ghost use Rattle.std.specs.Prelude.{slice_set, slice_index_or};
ghost use Rattle.cue_row.specs.declared.parts.RowParts.{RowParts as Rows};
ghost use Rattle.cue_scope.specs.Core as core;
ghost use Rattle.cue_scope.specs.Core.{conjunction};
ghost use Rattle.cue_scope.specs.Definitions.{definitions as definitions_of};
ghost use Rattle.cue_scope.specs.Files.{entries_of};
ghost use Rattle.cue_scope.specs.Kept.{nodes_kept};
ghost use Rattle.cue_scope.specs.Listed.{definition_of};
ghost use Rattle.cue_scope.specs.Meaning.{meaning_of_number, meant, meant_elements, meant_name, nest_in_labels};
ghost use Rattle.cue_scope.specs.Uses.{uses, uses_of_elements, uses_of_name};
ghost use Rattle.cue_syntax.specs.Syntax as tree;
ghost use Rattle.cue_table.specs.Tree.{Tree};
ghost use Rattle.cue_eval.specs.declared.declared.Declared.{Declared as Declares};
ghost use Rattle.cue_eval.specs.Inner.Adding.{IsClosedBody};
ghost use Rattle.cue_eval.specs.Inner.Finding.{body_of, HasRoom, AreOnce, IsOnce, IsDefinable};
ghost use Rattle.cue_eval.specs.Inner.Finding.{IsDefined};
ghost use Rattle.cue_eval.specs.Inner.Finding.{IsFindable, AreFindable, IsFoundBody, IsKept};

use crate::close::{Closed, close};
use crate::declared::Declared;
use crate::declares::{LiteralScope, LiteralSelection};
use crate::pair::Pairs;
use crate::parts::is_scalar_part;
use crate::tables::TableBuilder;
use crate::{build, declares};
use cue_lattice::Memory;
use cue_row::Row;
use cue_scalars::Valued;
use cue_scope::{Definition, Definitions, Resolved};
use cue_syntax::{Expr, Identifier};
use cue_table::Table;
use std::alloc::Global;

/// What is known of a definition.
#[derive(Drop)]
pub(crate) struct Defined {
    /// The value and the default of its body, where this is scalar.
    pub(crate) pair: Option<Valued>,
    pub(crate) closed: Closed,
}

/// What is known of an expression at the root of a body.
#[derive(Drop)]
pub(crate) struct Body {
    /// What it refuses.
    pub(crate) rows: Table<Row>,
    /// Where one of its struct literals has a `...`, also in definitions that it names.
    pub(crate) dots: Table<Declared>,
}

/// What is known of the definitions of a text, by their numbers.
#[derive(Drop)]
pub(crate) struct EvaluatedDefinitions {
    pub(crate) pairs: Vec<Option<Valued>>,
    pub(crate) tables: Vec<Option<Table<Row>>>,
    pub(crate) dots: Vec<Option<Table<Declared>>>,
    /// Whether the text names it once in all.
    pub(crate) once: Vec<bool>,
}

impl EvaluatedDefinitions {
    /// Room for the definitions of a text, of which nothing is known but how often they are used.
    pub(crate) fn none(alloc: Global, resolved: &Resolved) -> Result<EvaluatedDefinitions, Memory>
        ensures room { IfOk result (HasRoom (length (definitions_of (entries_of resolved.now)))) }
        ensures once { IfOk result (λ found. AreOnce (entries_of resolved.now) found.once.items) }
    {
        let count = resolved.definitions().all().len();
        let pairs = empty_entries(alloc, count)?;
        let tables = empty_entries(alloc, count)?;
        let dots = empty_entries(alloc, count)?;
        let once = used_once(alloc, resolved)?;
        Ok(EvaluatedDefinitions {
            pairs,
            tables,
            dots,
            once,
        })
    }

    /// What a use of a definition means. A definition that the text names once, in this body, gives
    /// its table away here: of it nothing is known afterwards.
    pub(crate) fn define(
        &mut self,
        alloc: Global,
        definitions: &Definitions,
        definition: &Definition,
        is_scalar: bool,
    ) -> Result<Defined, Memory>
        requires definable { IsDefinable (nodes_kept definitions.now)
            (definition_of definition.now) self.old }
        requires is_scalar { is_scalar ≡ core.is_scalar
            (body_of (nodes_kept definitions.now) (definition_of definition.now)) }
        ensures defined { IfOk result (IsDefined
            (body_of (nodes_kept definitions.now) (definition_of definition.now))) }
        ensures kept { OnOk result
            (IsKept (uses (nodes_kept definitions.now) (definition_of definition.now).value) self.old
            self.new) }
    {
        let closed = self.close_body(alloc, definitions, definition)?;
        let pair = if is_scalar {
            let tables = self.tables(alloc, definitions);
            Some(tables.pairs.pair(definition.value)?)
        } else {
            None
        };
        Ok(Defined { pair, closed })
    }

    /// The body of a definition, closed.
    fn close_body(
        &mut self,
        alloc: Global,
        definitions: &Definitions,
        definition: &Definition,
    ) -> Result<Closed, Memory>
        requires { IsDefinable (nodes_kept definitions.now) (definition_of definition.now) self.old }
        ensures closed { IfOk result (IsClosedBody
            (nest_in_labels (definition_of definition.now).chain
            (meant (nodes_kept definitions.now) (meaning_of_number (nodes_kept definitions.now))
            (definition_of definition.now).value))) }
        ensures kept { OnOk result
            (IsKept (uses (nodes_kept definitions.now) (definition_of definition.now).value) self.old
            self.new) }
    {
        let sight = self.literal_scope(alloc, &*definitions);
        let own = sight.body(LiteralSelection::Own, definition.chain, definition.value)?;
        let Body { mut rows, dots } = self.body(alloc, definitions, definition.value)?;
        build::put_behind(alloc, definition.chain, &mut rows)?;
        let dots = declares::wrap_in_chain(
            alloc,
            LiteralSelection::Dotted,
            definition.chain,
            dots,
        )?;
        close(alloc, &own, dots, rows)
    }

    /// An expression at the root of a body. What is known of a definition that is used once is
    /// taken over, and copied where there are several uses.
    #[cycle(body)]
    fn body(
        &mut self,
        alloc: Global,
        definitions: &Definitions,
        expression: &Expr,
    ) -> Result<Body, Memory>
        requires { IsFindable (nodes_kept definitions.now) (tree.expression expression.now) self.old }
        ensures body { IfOk result (IsFoundBody
            (meant (nodes_kept definitions.now) (meaning_of_number (nodes_kept definitions.now))
            (tree.expression expression.now))) }
        ensures kept { OnOk result
            (IsKept (uses (nodes_kept definitions.now) (tree.expression expression.now)) self.old
            self.new) }
    {
        match expression {
            Expr::Parenthesis { inner, .. } => self.body(alloc, definitions, inner),
            Expr::Conjunction(parts) => self.parts(alloc, definitions, parts),
            Expr::Name { name, .. } => match self.used_once(definitions, name) {
                Some(number) => Ok(self.take(alloc, number)),
                None => self.copy_body(alloc, definitions, expression),
            },
            _ => self.copy_body(alloc, definitions, expression),
        }
    }

    /// Parts that are joined by `&` at the root of a body. Scalars among them are joined as such
    /// and make one table.
    #[cycle(body)]
    fn parts(
        &mut self,
        alloc: Global,
        definitions: &Definitions,
        parts: &[Expr],
    ) -> Result<Body, Memory>
        requires { AreFindable (nodes_kept definitions.now) (tree.elements_of_list parts.now) self.old }
        ensures body { IfOk result (IsFoundBody
            (conjunction (meant_elements (nodes_kept definitions.now) (meaning_of_number (nodes_kept definitions.now))
            (tree.elements_of_list parts.now)))) }
        ensures kept { OnOk result
            (IsKept (uses_of_elements (nodes_kept definitions.now) (tree.elements_of_list parts.now)) self.old
            self.new) }
    {
        let mut all_rows = Vec::new(alloc);
        let mut all_dots = Vec::new(alloc);
        let mut scalars = Vec::new(alloc);
        for part in parts {
            if is_scalar_part(part) {
                let tables = self.tables(alloc, definitions);
                scalars.push(tables.pairs.pair(part)?)?;
            } else {
                let Body { rows, dots } = self.body(alloc, definitions, part)?;
                all_rows.push(rows)?;
                all_dots.push(dots)?;
            }
        }
        build::push_scalars(alloc, scalars, &mut all_rows)?;
        let rows = Table::unify_all(alloc, all_rows)?;
        let dots = Table::unify_all(alloc, all_dots)?;
        Ok(Body { rows, dots })
    }

    /// An expression. What is known of the definitions that it names is copied.
    fn copy_body(
        &self,
        alloc: Global,
        definitions: &Definitions,
        expression: &Expr,
    ) -> Result<Body, Memory>
        requires { IsFindable (nodes_kept definitions.now) (tree.expression expression.now) self.now }
        ensures { IfOk result
            (IsFoundBody (meant (nodes_kept definitions.now) (meaning_of_number (nodes_kept definitions.now))
            (tree.expression expression.now))) }
    {
        let rows = self.tables(alloc, definitions).rows(expression)?;
        let dots = self
            .literal_scope(alloc, definitions)
            .expression(LiteralSelection::Dotted, expression)?;
        Ok(Body { rows, dots })
    }

    /// The number of the definition that a name stands for, where this is its only use.
    fn used_once(&self, definitions: &Definitions, name: &Identifier) -> Option<usize>
        ensures once { IfSome result (IsOnce self.now) }
        ensures named { IfSome result (λ number.
            uses_of_name (nodes_kept definitions.now) name.now ≡ number ∷ []) }
        ensures means { IfSome result (λ number.
            meant_name (nodes_kept definitions.now) (meaning_of_number (nodes_kept definitions.now)) name.now
            ≡ meaning_of_number (nodes_kept definitions.now) number) }
    {
        match name {
            Identifier::Definition(name) => {
                let number = definitions.number(name.as_str())?;
                match self.once.get(number) {
                    Some(true) => Some(number),
                    Some(false) => None,
                    None => None,
                }
            }
            Identifier::Plain(_) => None,
            Identifier::Hidden(_) => None,
        }
    }

    /// Takes over what is known of a definition.
    fn take(&mut self, alloc: Global, number: usize) -> Body
        requires tables { number < length self.old.tables.items }
        requires dots { number < length self.old.dots.items }
        ensures rows { (table : Tree Rows) → slice_index_or self.old.tables.items number None
            ≡ Some table → result.rows ≡ table }
        ensures marks { (table : Tree Declares) →
            slice_index_or self.old.dots.items number None ≡ Some table → result.dots ≡ table }
        ensures pairs { self.new.pairs.items ≡ self.old.pairs.items }
        ensures once { self.new.once.items ≡ self.old.once.items }
        ensures tables { self.new.tables.items ≡ slice_set self.old.tables.items number None }
        ensures dots { self.new.dots.items ≡ slice_set self.old.dots.items number None }
    {
        let rows = self.tables[number].take();
        let dots = self.dots[number].take();
        Body {
            rows: rows.unwrap_or(Table::new(alloc)),
            dots: dots.unwrap_or(Table::new(alloc)),
        }
    }

    /// Keeps what is known of a definition, by its number.
    pub(crate) fn keep(&mut self, number: usize, defined: Defined)
        requires pairs { number < length self.old.pairs.items }
        requires tables { number < length self.old.tables.items }
        requires dots { number < length self.old.dots.items }
        ensures pairs { self.new.pairs.items ≡ slice_set self.old.pairs.items number defined.pair }
        ensures tables { self.new.tables.items
            ≡ slice_set self.old.tables.items number (Some defined.closed.rows) }
        ensures dots { self.new.dots.items ≡ slice_set self.old.dots.items number
            (Some defined.closed.dots) }
        ensures once { self.new.once.items ≡ self.old.once.items }
    {
        let Defined { pair, closed } = defined;
        let Closed { rows, dots } = closed;
        self.pairs[number] = pair;
        self.tables[number] = Some(rows);
        self.dots[number] = Some(dots);
    }

    /// The tables that are known.
    pub(crate) fn tables<'a, 'f, 't>(
        &'a self,
        alloc: Global,
        definitions: &'a Definitions<'f, 't>,
    ) -> TableBuilder<'a, 'f, 't>
        ensures definitions { result.pairs.definitions.now ≡ definitions.now }
        ensures pairs { result.pairs.pairs.now ≡ self.now.pairs.items }
        ensures tables { result.tables.now ≡ self.now.tables.items }
    {
        TableBuilder {
            pairs: Pairs {
                alloc,
                definitions,
                pairs: &self.pairs,
            },
            tables: &self.tables,
        }
    }

    /// Where a literal in each definition has a `...`, as far as that is known.
    fn literal_scope<'a, 'f, 't>(
        &'a self,
        alloc: Global,
        definitions: &'a Definitions<'f, 't>,
    ) -> LiteralScope<'a, 'f, 't>
        ensures definitions { result.definitions.now ≡ definitions.now }
        ensures dots { result.dots.now ≡ self.now.dots.items }
    {
        LiteralScope {
            alloc,
            definitions,
            dots: &self.dots,
        }
    }
}

/// A list with this many entries, all of them empty.
fn empty_entries<T: Drop>(alloc: Global, count: usize) -> Result<Vec<Option<T>>, Memory>
    ensures { IfOk result (λ all. length all.items ≡ count) }
{
    let mut all = Vec::with_capacity(alloc, count)?;
    for _ in 0..count {
        all.push(None)?;
    }
    Ok(all)
}

/// For each definition of a text, whether the text names it exactly once.
fn used_once(alloc: Global, resolved: &Resolved) -> Result<Vec<bool>, Memory>
    ensures { IfOk result (λ once. AreOnce (entries_of resolved.now) once.items) }
{
    let count = resolved.definitions().all().len();
    let mut once = Vec::with_capacity(alloc, count)?;
    for number in 0..count {
        once.push(resolved.count(number) == 1)?;
    }
    Ok(once)
}
