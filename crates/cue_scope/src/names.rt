ghost use Rattle.std.specs.Prelude.{◌≡◌, [], map, IfOk, IfErr, OnOk};
ghost use Rattle.cue_syntax.specs.Syntax as tree;
ghost use Rattle.cue_scope.specs.Names as naming;
ghost use Rattle.cue_scope.specs.Uses as using;
ghost use Rattle.cue_scope.specs.Definitions as defining;
ghost use Rattle.cue_scope.specs.Kept.{nodes_kept};
ghost use Rattle.cue_scope.specs.Ordering.{graph_of};
ghost use Rattle.cue_scope.specs.Scopes.{scope_of, definitions_at, IsWalked, IsScopeStopped};

use crate::definitions::Definitions;
use crate::memory::push;
use crate::named::{Named, is_literal};
use crate::scope::Scope;
use crate::words::WordLabels;
use cue_lattice::{Kind, Refusal};
use cue_syntax::{Declaration, Expr, Identifier, Label, Rest, Term};
use std::alloc::Global;

/// Which definitions a text uses, by their numbers, as often as it names them.
#[derive(Drop)]
pub struct Uses {
    /// Those that each definition uses.
    pub of_definitions: Vec<Vec<usize>>,
    /// Those that the regular declarations use.
    pub of_fields: Vec<usize>,
}

impl Uses {
    /// Looks up each name of a text.
    ///
    /// # Errors
    ///
    /// `FieldReference` or `UnknownName` at the first name that can't stand where it does, and
    /// `Memory`.
    pub fn of<'f, 't>(
        alloc: Global,
        definitions: &Definitions<'f, 't>,
        declarations: &'f [Declaration<'t>],
    ) -> Result<Uses, Refusal>
        requires { nodes_kept definitions.now ≡ defining.definitions (tree.entries declarations.now) }
        ensures named { OnOk result (naming.name_faults (tree.entries declarations.now) ≡ []) }
        ensures graph { IfOk result (λ u. graph_of u.of_definitions.items
            ≡ using.graph (nodes_kept definitions.now)) }
        ensures fields { IfOk result (λ u. u.of_fields.items
            ≡ using.uses_of_fields (nodes_kept definitions.now) (tree.entries declarations.now)) }
        ensures refused { IfErr result (IsScopeStopped
            (naming.name_faults (tree.entries declarations.now))) }
    {
        let outside = NameScope {
            alloc,
            definitions,
            scope: Scope::Outermost,
        };
        outside.file(declarations)
    }
}

/// A place in a text, from where names are looked up. Each look-up puts the number of the
/// definition that a name uses behind those that were used before.
#[derive(Clone, Copy, Drop)]
pub struct NameScope<'a, 'f, 't> {
    pub alloc: Global,
    pub definitions: &'a Definitions<'f, 't>,
    pub scope: Scope<'a, 'f, 't>,
}

impl<'a, 'f, 't> NameScope<'a, 'f, 't> {
    /// The declarations of a text, which is a struct literal of its own.
    fn file(&self, declarations: &'f [Declaration<'t>]) -> Result<Uses, Refusal>
        ensures named { OnOk result (naming.faults_of_entries (definitions_at self.now)
            (naming.scope_inside (tree.entries declarations.now) (scope_of self.now.scope))
            (tree.entries declarations.now) ≡ []) }
        ensures graph { IfOk result (λ u. graph_of u.of_definitions.items
            ≡ map (λ d. using.uses (definitions_at self.now) d.value)
            (defining.definitions (tree.entries declarations.now))) }
        ensures fields { IfOk result (λ u. u.of_fields.items
            ≡ using.uses_of_fields (definitions_at self.now) (tree.entries declarations.now)) }
        ensures refused { IfErr result (IsScopeStopped
            (naming.faults_of_entries (definitions_at self.now)
            (naming.scope_inside (tree.entries declarations.now) (scope_of self.now.scope))
            (tree.entries declarations.now))) }
    {
        let labels = WordLabels::of(declarations);
        let inner = NameScope {
            alloc: self.alloc,
            definitions: self.definitions,
            scope: Scope::Literal {
                labels: &labels,
                outer: &self.scope,
            },
        };
        inner.text(declarations)
    }

    /// The declarations of a text, from inside it.
    fn text(&self, declarations: &'f [Declaration<'t>]) -> Result<Uses, Refusal>
        ensures named { OnOk result (naming.faults_of_entries (definitions_at self.now)
            (scope_of self.now.scope) (tree.entries declarations.now) ≡ []) }
        ensures graph { IfOk result (λ u. graph_of u.of_definitions.items
            ≡ map (λ d. using.uses (definitions_at self.now) d.value)
            (defining.definitions (tree.entries declarations.now))) }
        ensures fields { IfOk result (λ u. u.of_fields.items
            ≡ using.uses_of_fields (definitions_at self.now) (tree.entries declarations.now)) }
        ensures refused { IfErr result (IsScopeStopped
            (naming.faults_of_entries (definitions_at self.now) (scope_of self.now.scope)
            (tree.entries declarations.now))) }
    {
        let mut of_definitions = Vec::new(self.alloc);
        let mut of_fields = Vec::new(self.alloc);
        for declaration in declarations {
            match declaration {
                Declaration::Ellipsis => {}
                Declaration::Field { chain, value, .. } => {
                    self.look_up_value(&mut of_fields, chain, value)?;
                }
                Declaration::Definition { chain, value, .. } => {
                    let mut uses = Vec::new(self.alloc);
                    self.look_up_value(&mut uses, chain, value)?;
                    push(&mut of_definitions, uses)?;
                }
            }
        }
        Ok(Uses {
            of_definitions,
            of_fields,
        })
    }

    /// Looks up a name.
    fn name(&self, uses: &mut Vec<usize>, name: &Identifier, from: usize) -> Result<(), Refusal>
        ensures walked { OnOk result (IsWalked
            (naming.fault_of_name (definitions_at self.now) (scope_of self.now.scope) name.now from)
            (using.uses_of_name (definitions_at self.now) name.now) uses.old.items uses.new.items) }
        ensures stopped { IfErr result (IsScopeStopped
            (naming.fault_of_name (definitions_at self.now) (scope_of self.now.scope) name.now from)) }
    {
        match name {
            Identifier::Definition(name) => match self.definitions.number(name.as_str()) {
                Some(number) => push(uses, number),
                None => Err(Refusal::at(Kind::UnknownName, from)),
            },
            Identifier::Plain(name) => self.look_up_plain(name.as_str(), from),
            Identifier::Hidden(name) => {
                if name.as_str() == "_" {
                    Ok(())
                } else {
                    Err(Refusal::at(Kind::UnknownName, from))
                }
            }
        }
    }

    /// Looks up a plain name.
    fn look_up_plain(&self, name: &str, from: usize) -> Result<(), Refusal>
        ensures walked { OnOk result (naming.fault_of_name (definitions_at self.now)
            (scope_of self.now.scope) (Identifier.Plain name.now) from ≡ []) }
        ensures stopped { IfErr result (IsScopeStopped
            (naming.fault_of_name (definitions_at self.now) (scope_of self.now.scope)
            (Identifier.Plain name.now) from)) }
    {
        if is_literal(name) {
            return Ok(());
        }
        if self.scope.has(name) {
            return Err(Refusal::at(Kind::FieldReference, from));
        }
        match Named::of(name) {
            Some(_) => Ok(()),
            None => Err(Refusal::at(Kind::UnknownName, from)),
        }
    }

    /// Looks up `close`, which is called.
    fn close(&self, from: usize) -> Result<(), Refusal>
        ensures walked { OnOk result (naming.fault_of_close (scope_of self.now.scope) from ≡ []) }
        ensures stopped { IfErr result (IsScopeStopped
            (naming.fault_of_close (scope_of self.now.scope) from)) }
    {
        if self.scope.has("close") {
            return Err(Refusal::at(Kind::FieldReference, from));
        }
        Ok(())
    }

    /// What stands behind a chain of labels.
    #[cycle(names)]
    pub fn look_up_value(
        &self,
        uses: &mut Vec<usize>,
        chain: &'f [Label<'t>],
        value: &'f Expr<'t>,
    ) -> Result<(), Refusal>
        ensures walked { OnOk result (IsWalked
            (naming.faults (definitions_at self.now)
            (naming.scope_behind chain.now (scope_of self.now.scope)) (tree.expression value.now))
            (using.uses (definitions_at self.now) (tree.expression value.now)) uses.old.items
            uses.new.items) }
        ensures stopped { IfErr result (IsScopeStopped
            (naming.faults (definitions_at self.now)
            (naming.scope_behind chain.now (scope_of self.now.scope)) (tree.expression value.now))) }
    {
        let inner = NameScope {
            alloc: self.alloc,
            definitions: self.definitions,
            scope: Scope::Chain {
                labels: chain,
                outer: &self.scope,
            },
        };
        inner.expression(uses, value)
    }

    /// An expression.
    #[cycle(names)]
    fn expression(&self, uses: &mut Vec<usize>, expression: &'f Expr<'t>) -> Result<(), Refusal>
        ensures walked { OnOk result (IsWalked
            (naming.faults (definitions_at self.now) (scope_of self.now.scope)
            (tree.expression expression.now))
            (using.uses (definitions_at self.now) (tree.expression expression.now)) uses.old.items
            uses.new.items) }
        ensures stopped { IfErr result (IsScopeStopped
            (naming.faults (definitions_at self.now) (scope_of self.now.scope)
            (tree.expression expression.now))) }
    {
        match expression {
            Expr::Name { name, from } => self.name(uses, name, *from),
            Expr::Parenthesis { inner, .. } => self.expression(uses, inner),
            Expr::Struct { declarations, .. } => self.literal(uses, declarations),
            Expr::Close {
                from,
                declarations,
                ..
            } => {
                self.close(*from)?;
                self.literal(uses, declarations)
            }
            Expr::List { elements, rest, .. } => {
                self.elements(uses, elements)?;
                self.rest(uses, rest)
            }
            Expr::Conjunction(elements) => self.elements(uses, elements),
            Expr::Disjunction(terms) => self.terms(uses, terms),
            Expr::Integer(_) => Ok(()),
            Expr::Text(_) => Ok(()),
            Expr::Bottom => Ok(()),
            Expr::Bound(_, _) => Ok(()),
            Expr::OtherInteger(_) => Ok(()),
            Expr::OtherText(_) => Ok(()),
        }
    }

    /// A struct literal.
    #[cycle(names)]
    fn literal(
        &self,
        uses: &mut Vec<usize>,
        declarations: &'f [Declaration<'t>],
    ) -> Result<(), Refusal>
        ensures walked { OnOk result (IsWalked
            (naming.faults_of_entries (definitions_at self.now)
            (naming.scope_inside (tree.entries declarations.now) (scope_of self.now.scope))
            (tree.entries declarations.now)) (using.uses_of_entries (definitions_at self.now)
            (tree.entries declarations.now)) uses.old.items uses.new.items) }
        ensures stopped { IfErr result (IsScopeStopped
            (naming.faults_of_entries (definitions_at self.now)
            (naming.scope_inside (tree.entries declarations.now) (scope_of self.now.scope))
            (tree.entries declarations.now))) }
    {
        let labels = WordLabels::of(declarations);
        let inner = NameScope {
            alloc: self.alloc,
            definitions: self.definitions,
            scope: Scope::Literal {
                labels: &labels,
                outer: &self.scope,
            },
        };
        inner.declarations(uses, declarations)
    }

    /// The declarations of a struct literal, from inside it.
    #[cycle(names)]
    fn declarations(
        &self,
        uses: &mut Vec<usize>,
        declarations: &'f [Declaration<'t>],
    ) -> Result<(), Refusal>
        ensures walked { OnOk result (IsWalked
            (naming.faults_of_entries (definitions_at self.now) (scope_of self.now.scope)
            (tree.entries declarations.now)) (using.uses_of_entries (definitions_at self.now)
            (tree.entries declarations.now)) uses.old.items uses.new.items) }
        ensures stopped { IfErr result (IsScopeStopped
            (naming.faults_of_entries (definitions_at self.now) (scope_of self.now.scope)
            (tree.entries declarations.now))) }
    {
        for declaration in declarations {
            match declaration {
                Declaration::Ellipsis => {}
                Declaration::Field { chain, value, .. } => self.look_up_value(uses, chain, value)?,
                Declaration::Definition { chain, value, .. } => self.look_up_value(
                    uses, chain, value,
                )?,
            }
        }
        Ok(())
    }

    /// The elements of a list, or the parts of a conjunction.
    #[cycle(names)]
    fn elements(&self, uses: &mut Vec<usize>, elements: &'f [Expr<'t>]) -> Result<(), Refusal>
        ensures walked { OnOk result (IsWalked
            (naming.faults_of_elements (definitions_at self.now) (scope_of self.now.scope)
            (tree.elements_of_list elements.now)) (using.uses_of_elements (definitions_at self.now)
            (tree.elements_of_list elements.now)) uses.old.items uses.new.items) }
        ensures stopped { IfErr result (IsScopeStopped
            (naming.faults_of_elements (definitions_at self.now) (scope_of self.now.scope)
            (tree.elements_of_list elements.now))) }
    {
        for element in elements {
            self.expression(uses, element)?;
        }
        Ok(())
    }

    /// What stands behind the last element of a list.
    #[cycle(names)]
    fn rest(&self, uses: &mut Vec<usize>, rest: &'f Rest<'t>) -> Result<(), Refusal>
        ensures walked { OnOk result (IsWalked
            (naming.faults_of_rest (definitions_at self.now) (scope_of self.now.scope)
            (tree.rest_of_tree rest.now)) (using.uses_of_rest (definitions_at self.now)
            (tree.rest_of_tree rest.now)) uses.old.items uses.new.items) }
        ensures stopped { IfErr result (IsScopeStopped
            (naming.faults_of_rest (definitions_at self.now) (scope_of self.now.scope)
            (tree.rest_of_tree rest.now))) }
    {
        match rest {
            Rest::Ends => Ok(()),
            Rest::GoesOn => Ok(()),
            Rest::Each(each) => self.expression(uses, each),
        }
    }

    /// The terms of a disjunction.
    #[cycle(names)]
    fn terms(&self, uses: &mut Vec<usize>, terms: &'f [Term<'t>]) -> Result<(), Refusal>
        ensures walked { OnOk result (IsWalked
            (naming.faults_of_branches (definitions_at self.now) (scope_of self.now.scope)
            (tree.branches_of_list terms.now)) (using.uses_of_branches (definitions_at self.now)
            (tree.branches_of_list terms.now)) uses.old.items uses.new.items) }
        ensures stopped { IfErr result (IsScopeStopped
            (naming.faults_of_branches (definitions_at self.now) (scope_of self.now.scope)
            (tree.branches_of_list terms.now))) }
    {
        for term in terms {
            self.expression(uses, &term.value)?;
        }
        Ok(())
    }
}
