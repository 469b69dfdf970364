//! Words that have a meaning of their own, and the labels of a struct literal that hide them.
ghost use Rattle.std.specs.Prelude.{◌≡◌, ◌<◌, ◌||◌, ℕ, List, Some, IfSome, slice_index_or};
ghost use Rattle.std.specs.Prelude.{false};
ghost use Rattle.cue_syntax.specs.Syntax.{entries};
ghost use Rattle.cue_scope.specs.Names.{has_label, is_unquoted};
ghost use Rattle.cue_scope.specs.Words.{word_number};

use crate::named::Named;
use cue_syntax::{Declaration, LabelName};

/// How many words have a meaning of their own: the names of sets, and `close`.
const WORDS: usize = 12;

/// The number of `close` among them; the names of sets have those before.
const CLOSE: usize = 11;

/// The unquoted labels of a struct literal. Of the words that have a meaning it is kept which stand
/// among them; for any other word, which is a fault wherever it is looked up, they are searched.
#[derive(Drop)]
pub struct WordLabels<'f, 't> {
    declarations: &'f [Declaration<'t>],
    /// By the numbers of the words.
    hidden: [bool; WORDS],
    ghost told: { (t : List ℕ) → (at : ℕ) → word_number t ≡ Some at
        → slice_index_or hidden at false ≡ has_label t (entries declarations.now) },
}

impl<'f, 't> WordLabels<'f, 't> {
    ghost use Rattle.cue_scope.specs.Hiding.{labels_in};

    /// Those of these declarations.
    pub fn of(declarations: &'f [Declaration<'t>]) -> WordLabels<'f, 't>
        ensures { labels_in result ≡ entries declarations.now }
    {
        let mut hidden = [false; WORDS];
        for declaration in declarations {
            match declaration {
                Declaration::Ellipsis => {}
                Declaration::Definition { .. } => {}
                Declaration::Field { label, .. } => hide(&mut hidden, &label.name),
            }
        }
        WordLabels {
            declarations,
            hidden,
        }
    }

    /// Whether one of them is this word.
    pub fn has(&self, name: &str) -> bool
        ensures { result ≡ has_label name.now (labels_in self.now) }
    {
        match number_of(name) {
            Some(number) => self.hidden[number],
            None => is_declared(self.declarations, name),
        }
    }
}

/// Notes that a label hides its word, where this has a meaning.
fn hide(hidden: &mut [bool; WORDS], label: &LabelName)
    ensures { (t : List ℕ) → (at : ℕ) → word_number t ≡ Some at
        → slice_index_or hidden.new at false
        ≡ (is_unquoted t label.now || slice_index_or hidden.old at false) }
{
    if let LabelName::Plain(word) = label {
        if let Some(number) = number_of(word.as_str()) {
            hidden[number] = true;
        }
    }
}

/// The number of a word that has a meaning.
fn number_of(word: &str) -> Option<usize>
    ensures number { result ≡ word_number word.now }
    ensures few { IfSome result (λ number. number < 12) }
{
    if word == "close" {
        return Some(CLOSE);
    }
    match Named::of(word) {
        None => None,
        Some(named) => Some(named as usize),
    }
}

/// Whether one of the declarations has this label, unquoted.
fn is_declared(declarations: &[Declaration], name: &str) -> bool
    ensures { result ≡ has_label name.now (entries declarations.now) }
{
    for declaration in declarations {
        if let Declaration::Field { label, .. } = declaration {
            if is_unquoted(name, &label.name) {
                return true;
            }
        }
    }
    false
}

/// Whether the label has this name and no quotes.
pub fn is_unquoted(name: &str, label: &LabelName) -> bool
    ensures { result ≡ is_unquoted name.now label.now }
{
    match label {
        LabelName::Plain(plain) => name == plain.as_str(),
        LabelName::Quoted(_) => false,
    }
}
