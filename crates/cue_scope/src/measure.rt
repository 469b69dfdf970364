ghost use Rattle.std.specs.Prelude.{◌≡◌, ◌+◌, [], ℕ, List, true, length, ◌<◌, IfErr, OnOk};
ghost use Rattle.cue_syntax.specs.Syntax as tree;
ghost use Rattle.cue_scope.specs.Kept.{nodes_kept};
ghost use Rattle.cue_scope.specs.Meaning as meaning;
ghost use Rattle.cue_scope.specs.Measures as totals;
ghost use Rattle.cue_scope.specs.Measures.{Total, IsMeasured, IsMeasureKnown};
ghost use Rattle.cue_scope.specs.Uses as using;
ghost use Rattle.cue_scope.specs.Graph.{IsOrder, targets};

use crate::definitions::Definitions;
use cue_lattice::{Kind, Refusal};
use cue_syntax::{Declaration, Expr, Identifier, Label, Rest, Term};

/// The greatest size of a text, and one more: a size that isn't counted further.
pub const LARGE: usize = 65_537;

/// The greatest length of a path, and one more: a length that isn't counted further.
pub const DEEP: usize = 65;

/// What the checks ask of an expression.
#[derive(Clone, Copy, Debug)]
pub struct Measure {
    /// Whether it is scalar.
    pub scalar: bool,
    /// Its size, or `LARGE` where it is larger.
    pub size: usize,
    /// How many steps its longest path has, or `DEEP` where these are more.
    pub depth: usize,
    /// Where its first term that isn't scalar begins.
    pub term: Option<usize>,
}

impl Measure {
    /// Of no parts.
    pub fn none() -> Measure
        ensures { IsMeasured result totals.none }
    {
        Measure {
            scalar: true,
            size: 0,
            depth: 0,
            term: None,
        }
    }

    /// Of a name or a literal.
    fn leaf(scalar: bool) -> Measure
        ensures { IsMeasured result (totals.leaf scalar) }
    {
        Measure {
            scalar,
            size: 1,
            depth: 0,
            term: None,
        }
    }

    /// Of parts side by side.
    pub fn join_beside(self, other: Measure) -> Measure
        ensures { (a b : Total) → IsMeasured self a → IsMeasured other b →
            IsMeasured result (totals.join_totals a b) }
    {
        Measure {
            scalar: self.scalar && other.scalar,
            size: self.size.saturating_add(other.size).min(LARGE),
            depth: self.depth.max(other.depth),
            term: match self.term {
                Some(place) => Some(place),
                None => other.term,
            },
        }
    }

    /// With so much more size.
    pub fn add_size(self, more: usize) -> Measure
        ensures { (t : Total) → IsMeasured self t → IsMeasured result (totals.add_to_size more t) }
    {
        Measure {
            scalar: self.scalar,
            size: self.size.saturating_add(more).min(LARGE),
            depth: self.depth,
            term: self.term,
        }
    }

    /// Of a struct or a list of these parts, with so much more size.
    pub fn literal(self, more: usize) -> Measure
        ensures { (t : Total) → IsMeasured self t → IsMeasured result (totals.as_literal more t) }
    {
        Measure {
            scalar: false,
            size: self.size.saturating_add(more).min(LARGE),
            depth: self.depth,
            term: self.term,
        }
    }

    /// As a field of a struct, of which it matters no more whether it is scalar.
    pub fn field(self) -> Measure
        ensures { (t : Total) → IsMeasured self t → IsMeasured result (totals.as_field t) }
    {
        Measure {
            scalar: true,
            size: self.size.saturating_add(1).min(LARGE),
            depth: self.depth.saturating_add(1).min(DEEP),
            term: self.term,
        }
    }

    /// As an element of a list.
    fn element(self) -> Measure
        ensures { (t : Total) → IsMeasured self t → IsMeasured result (totals.as_element t) }
    {
        Measure {
            scalar: true,
            size: self.size,
            depth: self.depth.saturating_add(1).min(DEEP),
            term: self.term,
        }
    }

    /// As a term that begins at this place.
    fn term(self, place: usize) -> Measure
        ensures { (t : Total) → IsMeasured self t → IsMeasured result (totals.as_term place t) }
    {
        Measure {
            scalar: self.scalar,
            size: self.size,
            depth: self.depth,
            term: if self.scalar { self.term } else { Some(place) },
        }
    }

    /// Behind a chain of labels, each of which is in a struct of its own.
    pub fn behind_chain(self, chain: &[Label]) -> Measure
        ensures { (t : Total) → IsMeasured self t →
            IsMeasured result (totals.behind_labels (length chain.now) t) }
    {
        let labels = chain.len();
        Measure {
            scalar: self.scalar && labels == 0,
            size: self
                .size
                .saturating_add(labels.saturating_mul(2))
                .min(LARGE),
            depth: self.depth.saturating_add(labels).min(DEEP),
            term: self.term,
        }
    }

    /// Whether it passes the checks on terms, sizes and paths.
    ///
    /// # Errors
    ///
    /// `NotScalar`, `TooLarge` or `TooDeep`, the first that is.
    pub fn check(self) -> Result<(), Refusal>
        ensures within { OnOk result ((t : Total) → IsMeasured self t → totals.IsMeasureWithin t) }
        ensures beyond { IfErr result (λ r. (t : Total) → IsMeasured self t →
            totals.IsMeasureBeyond t r.kind r.place) }
    {
        if let Some(place) = self.term {
            return Err(Refusal::at(Kind::NotScalar, place));
        }
        if self.size >= LARGE {
            return Err(Refusal::at(Kind::TooLarge, 0));
        }
        if self.depth >= DEEP {
            return Err(Refusal::at(Kind::TooDeep, 0));
        }
        Ok(())
    }

    /// Of its terms that aren't scalar alone.
    pub fn only_terms(self) -> Measure
        ensures { (t : Total) → IsMeasured self t → IsMeasured result (totals.only_places t) }
    {
        Measure {
            scalar: true,
            size: 0,
            depth: 0,
            term: self.term,
        }
    }
}

/// What is known of definitions: the measure of a use of each, as far as they were measured.
#[derive(Clone, Copy, Drop)]
pub struct KnownMeasures<'a, 'f, 't> {
    pub definitions: &'a Definitions<'f, 't>,
    pub measures: &'a [Measure],
}

impl<'a, 'f, 't> KnownMeasures<'a, 'f, 't> {
    /// A name.
    fn name(&self, name: &Identifier) -> Measure
        ensures { IsMeasureKnown self.now (using.uses_of_name (nodes_kept self.now.definitions.now) name.now) →
            IsMeasured result (totals.total_of
            (meaning.meant_name (nodes_kept self.now.definitions.now)
            (meaning.meaning_of_number (nodes_kept self.now.definitions.now)) name.now) []) }
    {
        match name {
            Identifier::Plain(_) => Measure::leaf(true),
            Identifier::Hidden(name) => Measure::leaf(name.as_str() != "_"),
            Identifier::Definition(name) => self.use_definition(name.as_str()),
        }
    }

    /// A use of a definition.
    fn use_definition(&self, name: &str) -> Measure
        ensures { IsMeasureKnown self.now (using.uses_of_name (nodes_kept self.now.definitions.now)
            (Identifier.Definition name.now)) →
            IsMeasured result (totals.total_of
            (meaning.meant_name (nodes_kept self.now.definitions.now)
            (meaning.meaning_of_number (nodes_kept self.now.definitions.now)) (Identifier.Definition name.now))
            []) }
    {
        match self.definitions.number(name) {
            None => Measure::leaf(true),
            Some(number) => match self.measures.get(number) {
                None => Measure::leaf(true),
                Some(measure) => Measure {
                    scalar: measure.scalar,
                    size: measure.size,
                    depth: measure.depth,
                    term: None,
                },
            },
        }
    }

    /// A use of a definition, by its number.
    pub fn definition(&self, number: usize) -> Measure
        requires { number < length (nodes_kept self.now.definitions.now) }
        ensures { (order : List ℕ) → IsOrder (using.graph (nodes_kept self.now.definitions.now)) order →
            IsMeasureKnown self.now (targets (using.graph (nodes_kept self.now.definitions.now)) number) →
            totals.IsUse result (meaning.meaning_of_number (nodes_kept self.now.definitions.now) number) }
    {
        let definition = &self.definitions.all()[number];
        let value = self.expression(definition.value);
        value.behind_chain(definition.chain).add_size(1)
    }

    /// The regular declarations of a text, with the terms of its definitions.
    pub fn file(&self, declarations: &[Declaration]) -> Measure
        ensures { IsMeasureKnown self.now (using.uses_of_entries (nodes_kept self.now.definitions.now)
            (tree.entries declarations.now)) →
            IsMeasured result (totals.total_of_file (nodes_kept self.now.definitions.now)
            (tree.entries declarations.now)) }
    {
        let mut all = Measure::none();
        for declaration in declarations {
            match declaration {
                Declaration::Ellipsis => {}
                Declaration::Field { chain, value, .. } => {
                    all = all.join_beside(self.expression(value).behind_chain(chain).field());
                }
                Declaration::Definition { value, .. } => {
                    all = all.join_beside(self.expression(value).only_terms());
                }
            }
        }
        all
    }

    /// An expression.
    #[cycle(measure)]
    pub fn expression(&self, expression: &Expr) -> Measure
        ensures { IsMeasureKnown self.now (using.uses (nodes_kept self.now.definitions.now)
            (tree.expression expression.now)) →
            IsMeasured result (totals.total_measure (nodes_kept self.now.definitions.now)
            (tree.expression expression.now)) }
    {
        match expression {
            Expr::Name { name, .. } => self.name(name),
            Expr::Parenthesis { inner, .. } => self.expression(inner),
            Expr::Struct { declarations, .. } => self.declarations(declarations).literal(1),
            Expr::Close { declarations, .. } => self.declarations(declarations).literal(2),
            Expr::List { elements, rest, .. } => {
                self.elements(elements)
                    .join_beside(self.rest(rest))
                    .literal(1)
            }
            Expr::Conjunction(parts) => self.parts(parts).add_size(1),
            Expr::Disjunction(terms) => self.terms(terms).add_size(1),
            Expr::Integer(_) => Measure::leaf(true),
            Expr::Text(_) => Measure::leaf(true),
            Expr::Bottom => Measure::leaf(true),
            Expr::Bound(_, _) => Measure::leaf(true),
            Expr::OtherInteger(_) => Measure::leaf(true),
            Expr::OtherText(_) => Measure::leaf(true),
        }
    }

    /// The declarations of a struct literal.
    #[cycle(measure)]
    fn declarations(&self, declarations: &[Declaration]) -> Measure
        ensures { IsMeasureKnown self.now (using.uses_of_entries (nodes_kept self.now.definitions.now)
            (tree.entries declarations.now)) →
            IsMeasured result (totals.total_of_entries (nodes_kept self.now.definitions.now)
            (tree.entries declarations.now)) }
    {
        let mut all = Measure::none();
        for declaration in declarations {
            match declaration {
                Declaration::Ellipsis => all = all.add_size(1),
                Declaration::Field { chain, value, .. } => {
                    all = all.join_beside(self.expression(value).behind_chain(chain).field());
                }
                Declaration::Definition { value, .. } => {
                    all = all.join_beside(self.expression(value).only_terms());
                }
            }
        }
        all
    }

    /// The parts of a conjunction.
    #[cycle(measure)]
    fn parts(&self, parts: &[Expr]) -> Measure
        ensures { IsMeasureKnown self.now (using.uses_of_elements (nodes_kept self.now.definitions.now)
            (tree.elements_of_list parts.now)) → IsMeasured result
            (totals.total_of_parts (nodes_kept self.now.definitions.now) (tree.elements_of_list parts.now)) }
    {
        let mut all = Measure::none();
        for part in parts {
            all = all.join_beside(self.expression(part));
        }
        all
    }

    /// The elements of a list.
    #[cycle(measure)]
    fn elements(&self, elements: &[Expr]) -> Measure
        ensures { IsMeasureKnown self.now (using.uses_of_elements (nodes_kept self.now.definitions.now)
            (tree.elements_of_list elements.now)) → IsMeasured result
            (totals.total_of_elements (nodes_kept self.now.definitions.now)
            (tree.elements_of_list elements.now)) }
    {
        let mut all = Measure::none();
        for element in elements {
            all = all.join_beside(self.expression(element).element());
        }
        all
    }

    /// What stands behind the last element of a list.
    #[cycle(measure)]
    fn rest(&self, rest: &Rest) -> Measure
        ensures { IsMeasureKnown self.now (using.uses_of_rest (nodes_kept self.now.definitions.now)
            (tree.rest_of_tree rest.now)) → IsMeasured result
            (totals.total_of_rest (nodes_kept self.now.definitions.now) (tree.rest_of_tree rest.now)) }
    {
        match rest {
            Rest::Ends => Measure::none(),
            Rest::GoesOn => Measure::none().add_size(1),
            Rest::Each(each) => self.expression(each).element().add_size(1),
        }
    }

    /// The terms of a disjunction.
    #[cycle(measure)]
    fn terms(&self, terms: &[Term]) -> Measure
        ensures { IsMeasureKnown self.now (using.uses_of_branches (nodes_kept self.now.definitions.now)
            (tree.branches_of_list terms.now)) → IsMeasured result
            (totals.total_of_terms (nodes_kept self.now.definitions.now) (tree.branches_of_list terms.now)) }
    {
        let mut all = Measure::none();
        for term in terms {
            all = all.join_beside(self.expression(&term.value).term(term.from));
        }
        all
    }
}
