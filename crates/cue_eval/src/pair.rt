//! The value and the default of scalar expressions.
ghost use Rattle.std.specs.Prelude.{◌≡◌, ◌<◌, ◌&&◌, ℕ, ℤ, List, length, map, All, IfOk, IfSome};
ghost use Rattle.cue_sets.specs.Pieces.{is_int64, is_member};
ghost use Rattle.cue_sets.specs.Texts.{is_listed, is_member_if, is_text_member};
ghost use Rattle.cue_scalars.specs.Pairs as joining;
ghost use Rattle.cue_scalars.specs.Values.{pair_of_value};
ghost use Rattle.cue_syntax.specs.Grammar.{AreRight, IsInRange};
ghost use Rattle.cue_syntax.specs.Syntax as tree;
ghost use Rattle.cue_scope.specs.Meaning.{meant_word};
ghost use Rattle.cue_eval.specs.Inner.Known.{named_core, core_of, parts_of, choices_of, IsPairable};
ghost use Rattle.cue_eval.specs.Inner.Known.{ArePairable, ArePairableTerms, IsPairableName};
ghost use Rattle.cue_eval.specs.Inner.Written.{AreIntegerTerms, AreTextTerms, IsAllBut};
ghost use Rattle.cue_eval.specs.Inner.Written.{IsAllButIntegers, IsAllButTexts, is_listed_integer};
ghost use Rattle.cue_eval.specs.Pairs.{pair, pairs_of, terms_of};

use crate::scalars::{
    bottom_value, bound_value, integer_alone, integer_of, named_set, null_alone, of_integers,
    of_texts, other_integers, other_texts, text_alone, truth_alone,
};
use cue_lattice::{Memory, Text};
use cue_scalars::Valued;
use cue_scope::{Definitions, Named};
use cue_sets::{IntSet, TextSet};
use cue_syntax::{Expr, Identifier, Signed, Term};
use std::alloc::Global;

/// The definitions of a text, and the value and default of those that are scalar, as far as they
/// are known.
#[derive(Clone, Copy, Drop)]
pub(crate) struct Pairs<'a, 'f, 't> {
    pub alloc: Global,
    pub definitions: &'a Definitions<'f, 't>,
    /// By the numbers of the definitions.
    pub pairs: &'a [Option<Valued>],
}

impl<'a, 'f, 't> Pairs<'a, 'f, 't> {
    /// The value and the default of a scalar expression.
    #[cycle(pair)]
    pub(crate) fn pair(&self, expression: &Expr) -> Result<Valued, Memory>
        requires { IsPairable self.now (tree.expression expression.now) }
        ensures { IfOk result (λ valued. pair_of_value valued
            ≡ pair (core_of self.now (tree.expression expression.now))) }
    {
        match expression {
            Expr::Name { name, .. } => self.name(name),
            Expr::Integer(written) => Ok(integer_alone(self.alloc, integer_of(*written))),
            Expr::Text(text) => text_alone(self.alloc, text.as_str()),
            Expr::Bottom => Ok(bottom_value(self.alloc)),
            Expr::Bound(comparison, written) => Ok(bound_value(
                self.alloc,
                *comparison,
                integer_of(*written),
            )),
            Expr::OtherInteger(written) => other_integers(self.alloc, integer_of(*written)),
            Expr::OtherText(text) => other_texts(self.alloc, text.as_str()),
            Expr::Parenthesis { inner, .. } => self.pair(inner),
            Expr::Conjunction(parts) => self.conjunction(parts),
            Expr::Disjunction(terms) => self.disjunction(terms),
            Expr::Struct { .. } => Ok(bottom_value(self.alloc)),
            Expr::Close { .. } => Ok(bottom_value(self.alloc)),
            Expr::List { .. } => Ok(bottom_value(self.alloc)),
        }
    }

    /// Parts that are joined by `&`.
    #[cycle(pair)]
    fn conjunction(&self, parts: &[Expr]) -> Result<Valued, Memory>
        requires some { 0 < length parts.now }
        requires parts { ArePairable self.now (tree.elements_of_list parts.now) }
        ensures { IfOk result (λ valued. pair_of_value valued
            ≡ joining.all_of (pairs_of (parts_of self.now (tree.elements_of_list parts.now)))) }
    {
        let mut pairs = Vec::new(self.alloc);
        for part in parts {
            let pair = self.pair(part)?;
            pairs.push(pair)?;
        }
        Valued::and_all(self.alloc, pairs)
    }

    /// Terms that are joined by `|`. Integers are put straight into one set, and so are texts, where
    /// each is there once.
    #[cycle(pair)]
    fn disjunction(&self, terms: &[Term]) -> Result<Valued, Memory>
        requires { ArePairableTerms self.now (tree.branches_of_list terms.now) }
        ensures { IfOk result (λ valued. pair_of_value valued
            ≡ joining.disjunction (terms_of (choices_of self.now (tree.branches_of_list terms.now)))) }
    {
        if let Some(texts) = texts_of_terms(self.alloc, terms)? {
            if let Some(set) = set_of_texts(false, texts) {
                return Ok(of_texts(self.alloc, set));
            }
        }
        if let Some(numbers) = integers_of_terms(self.alloc, terms)? {
            let set = set_of_integers(self.alloc, &numbers)?;
            return Ok(of_integers(self.alloc, set));
        }
        let mut pairs = Vec::new(self.alloc);
        for term in terms {
            let pair = self.pair(&term.value)?;
            pairs.push((term.marked, pair))?;
        }
        Valued::or(self.alloc, pairs)
    }

    /// A name.
    pub(crate) fn name(&self, name: &Identifier) -> Result<Valued, Memory>
        requires { IsPairableName self.now name.now }
        ensures { IfOk result (λ valued. pair_of_value valued ≡ pair (named_core self.now name.now)) }
    {
        match name {
            Identifier::Plain(name) => value_of_word(self.alloc, name.as_str()),
            Identifier::Definition(name) => self.use_definition(name.as_str()),
            Identifier::Hidden(_) => Ok(bottom_value(self.alloc)),
        }
    }

    /// A use of a definition.
    fn use_definition(&self, name: &str) -> Result<Valued, Memory>
        requires { IsPairableName self.now (Identifier.Definition name.now) }
        ensures { IfOk result (λ valued. pair_of_value valued
            ≡ pair (named_core self.now (Identifier.Definition name.now))) }
    {
        match self.definitions.number(name) {
            None => Ok(bottom_value(self.alloc)),
            Some(number) => match self.pairs.get(number) {
                None => Ok(bottom_value(self.alloc)),
                Some(None) => Ok(bottom_value(self.alloc)),
                Some(Some(pair)) => pair.copy(self.alloc),
            },
        }
    }
}

/// The texts of terms, where each term is a text without a mark.
fn texts_of_terms(alloc: Global, terms: &[Term]) -> Result<Option<Vec<Text>>, Memory>
    ensures { IfOk result (λ found. IfSome found (λ texts. AreTextTerms terms.now texts.items)) }
{
    if !are_texts(terms) {
        return Ok(None);
    }
    let mut texts = Vec::with_capacity(alloc, terms.len())?;
    for term in terms {
        match &term.value {
            Expr::Text(text) if !term.marked => texts.push(text.to_text(alloc)?)?,
            _ => return Ok(None),
        }
    }
    Ok(Some(texts))
}

/// Whether each term is a text without a mark.
fn are_texts(terms: &[Term]) -> bool {
    terms.iter().all(|term| !term.marked && matches!(&term.value, Expr::Text(_)))
}

/// The integers of terms, where each term is an integer without a mark.
fn integers_of_terms(alloc: Global, terms: &[Term]) -> Result<Option<Vec<Signed>>, Memory>
    ensures { IfOk result (λ found. IfSome found (λ numbers.
        AreIntegerTerms terms.now numbers.items)) }
{
    if !are_integers(terms) {
        return Ok(None);
    }
    let mut numbers = Vec::with_capacity(alloc, terms.len())?;
    for term in terms {
        match &term.value {
            Expr::Integer(written) if !term.marked => numbers.push(*written)?,
            _ => return Ok(None),
        }
    }
    Ok(Some(numbers))
}

/// Whether each term is an integer without a mark.
fn are_integers(terms: &[Term]) -> bool {
    terms.iter().all(|term| !term.marked && matches!(&term.value, Expr::Integer(_)))
}

/// The value of some parts, where each part is `!=` and a text, and none is there twice, or each is
/// `!=` and an integer.
pub(crate) fn all_but(alloc: Global, parts: &[Expr]) -> Result<Option<Valued>, Memory>
    requires { AreRight (tree.elements_of_list parts.now) }
    ensures { IfOk result (λ found. IfSome found (IsAllBut parts.now)) }
{
    match parts {
        [Expr::OtherText(_), ..] => all_but_texts(alloc, parts),
        [Expr::OtherInteger(_), ..] => all_but_integers(alloc, parts),
        _ => Ok(None),
    }
}

/// All texts but those of some parts, where each part is `!=` and a text, and none is there twice.
fn all_but_texts(alloc: Global, parts: &[Expr]) -> Result<Option<Valued>, Memory>
    ensures { IfOk result (λ found. IfSome found (IsAllButTexts parts.now)) }
{
    let Some(texts) = texts_of_parts(alloc, parts)? else {
        return Ok(None);
    };
    if texts.is_empty() {
        return Ok(None);
    }
    match set_of_texts(true, texts) {
        None => Ok(None),
        Some(set) => Ok(Some(of_texts(alloc, set))),
    }
}

/// The texts of parts, where each part is `!=` and a text.
fn texts_of_parts(alloc: Global, parts: &[Expr]) -> Result<Option<Vec<Text>>, Memory>
    ensures { IfOk result (λ found. IfSome found (λ texts.
        parts.now ≡ map Expr.OtherText texts.items)) }
{
    if !are_other_texts(parts) {
        return Ok(None);
    }
    let mut texts = Vec::with_capacity(alloc, parts.len())?;
    for part in parts {
        match part {
            Expr::OtherText(text) => texts.push(text.to_text(alloc)?)?,
            _ => return Ok(None),
        }
    }
    Ok(Some(texts))
}

/// Whether each part is `!=` and a text.
fn are_other_texts(parts: &[Expr]) -> bool {
    parts.iter().all(|part| matches!(part, Expr::OtherText(_)))
}

/// All integers but those of some parts, where each part is `!=` and an integer.
fn all_but_integers(alloc: Global, parts: &[Expr]) -> Result<Option<Valued>, Memory>
    requires { AreRight (tree.elements_of_list parts.now) }
    ensures { IfOk result (λ found. IfSome found (IsAllButIntegers parts.now)) }
{
    let Some(numbers) = integers_of_parts(alloc, parts)? else {
        return Ok(None);
    };
    if numbers.is_empty() {
        return Ok(None);
    }
    let left_out = set_of_integers(alloc, &numbers)?;
    let set = IntSet::full().without(alloc, &left_out)?;
    Ok(Some(of_integers(alloc, set)))
}

/// The integers of parts, where each part is `!=` and an integer.
fn integers_of_parts(alloc: Global, parts: &[Expr]) -> Result<Option<Vec<Signed>>, Memory>
    ensures { IfOk result (λ found. IfSome found (λ numbers.
        parts.now ≡ map Expr.OtherInteger numbers.items)) }
{
    if !are_other_integers(parts) {
        return Ok(None);
    }
    let mut numbers = Vec::with_capacity(alloc, parts.len())?;
    for part in parts {
        match part {
            Expr::OtherInteger(written) => numbers.push(*written)?,
            _ => return Ok(None),
        }
    }
    Ok(Some(numbers))
}

/// Whether each part is `!=` and an integer.
fn are_other_integers(parts: &[Expr]) -> bool {
    parts
        .iter()
        .all(|part| matches!(part, Expr::OtherInteger(_)))
}

/// The set of these integers, which are sorted once.
fn set_of_integers(alloc: Global, numbers: &[Signed]) -> Result<IntSet, Memory>
    requires { All IsInRange numbers.now }
    ensures { IfOk result (λ set. (n : ℤ) →
        is_member set n ≡ (is_int64 n && is_listed_integer numbers.now n)) }
{
    let mut sets = Vec::with_capacity(alloc, numbers.len())?;
    for number in numbers {
        sets.push(IntSet::one(integer_of(*number)))?;
    }
    IntSet::union_all(alloc, sets)
}

/// The set of these texts or, if `all_but` is true, of all others, where none is there twice.
fn set_of_texts(all_but: bool, mut texts: Vec<Text>) -> Option<TextSet>
    ensures { IfSome result (λ set. (text : List ℕ) →
        is_text_member set text ≡ is_member_if all_but (is_listed texts.items text)) }
{
    texts.sort_unstable_by(|one, other| one.compare(other));
    TextSet::from_texts(all_but, texts)
}

/// A name of a scalar, or of a set of scalars; any other has no meaning.
fn value_of_word(alloc: Global, name: &str) -> Result<Valued, Memory>
    ensures { IfOk result (λ valued. pair_of_value valued ≡ pair (meant_word name.now)) }
{
    match name {
        "true" => Ok(truth_alone(alloc, true)),
        "false" => Ok(truth_alone(alloc, false)),
        "null" => Ok(null_alone(alloc)),
        _ => match Named::of(name) {
            None => Ok(bottom_value(alloc)),
            Some(set) => named_set(alloc, set),
        },
    }
}
