ghost use Rattle.std.specs.Prelude.{◌≡◌};
ghost use Rattle.cue_scope.specs.Scopes.{scope_of, has_chained};

use crate::words::{WordLabels, is_unquoted};
use cue_syntax::Label;

/// The struct literals that enclose a place in a text, from the innermost one outwards.
#[derive(Clone, Copy, Drop)]
pub enum Scope<'a, 'f, 't> {
    /// Nothing encloses the place.
    Outermost,
    /// A struct literal, of which these are the unquoted labels.
    Literal {
        labels: &'a WordLabels<'f, 't>,
        outer: &'a Scope<'a, 'f, 't>,
    },
    /// The structs of a chain of labels, each of which has one label.
    Chain {
        labels: &'f [Label<'t>],
        outer: &'a Scope<'a, 'f, 't>,
    },
}

impl<'a, 'f, 't> Scope<'a, 'f, 't> {
    /// Whether an enclosing struct has this label, unquoted.
    pub fn has(&self, name: &str) -> bool
        ensures { result ≡ scope_of self.now name.now }
    {
        match *self {
            Scope::Outermost => false,
            Scope::Literal { labels, outer } => labels.has(name) || outer.has(name),
            Scope::Chain { labels, outer } => is_among(labels, name) || outer.has(name),
        }
    }
}

/// Whether one of the labels has this name and no quotes.
fn is_among(labels: &[Label], name: &str) -> bool
    ensures { result ≡ has_chained name.now labels.now }
{
    for label in labels {
        if is_unquoted(name, &label.name) {
            return true;
        }
    }
    false
}
