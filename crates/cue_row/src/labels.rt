ghost use Rattle.std.specs.Prelude.{◌≡◌, ◌↔◌, ℕ, List, None, Some, IfSome};
ghost use Rattle.std.specs.Prelude.{IfNone};
ghost use Rattle.std.specs.Option.{option_map};
ghost use Rattle.cue_sets.specs.Texts.{IsAscending};
ghost use Rattle.cue_row.specs.LabelSets.{allows_label, AreLabels};

use cue_lattice::{Memory, Narrow, Text};
use cue_sets::TextSet;
use std::alloc::Global;
use std::marker::Model;

/// Which labels may stand directly below a place: all, or a finite set. Contracts see nothing where
/// all may stand, and otherwise the list of those that may, strictly ascending by their bytes.
#[derive(Debug, Drop)]
pub struct LabelSet {
    set: TextSet,
}

impl Model for LabelSet {
    ghost use Rattle.std.specs.Prelude.{Option, List, ℕ};
    ghost use Rattle.cue_row.specs.LabelSets.{labels_of, IsLabelSet};

    ghost Value = { Option (List (List ℕ)) };

    ghost view = { λ labels. labels_of labels.set };

    ghost invariant = { λ labels. IsLabelSet labels.set };
}

impl LabelSet {
    /// All labels. This takes no memory.
    pub fn all(alloc: Global) -> LabelSet
        ensures { result ≡ None }
    {
        LabelSet {
            set: TextSet::all(alloc),
        }
    }

    /// These labels alone, where they ascend strictly by their bytes. This takes no memory.
    pub fn listing(labels: Vec<Text>) -> Option<LabelSet>
        ensures some { IfSome result (λ set. set ≡ Some labels.items) }
        ensures none { IfNone result (¬ IsAscending labels.items) }
    {
        match TextSet::from_texts(false, labels) {
            None => None,
            Some(set) => Some(LabelSet { set }),
        }
    }

    /// The labels that may stand, where not all may.
    pub fn listed(&self) -> Option<&[Text]>
        ensures list { option_map (λ labels. labels.now) result ≡ self.now }
        ensures ascending { AreLabels self.now }
    {
        let (all, labels) = self.set.listed();
        if all { None } else { Some(labels) }
    }

    /// Whether a label may stand. This is a binary search.
    pub fn allows(&self, label: &str) -> bool
        ensures { result ≡ allows_label self.now label.now }
    {
        self.set.contains(label)
    }
}

/// The labels that may not stand are refused.
impl Narrow for LabelSet {
    ghost use Rattle.std.specs.Prelude.{◌≡◌, ℕ, List, ◌↔◌};
    ghost use Rattle.cue_row.specs.LabelSets.{RefusesLabel, AreLabels};
    ghost use Rattle.cue_row.specs.LabelLaws.{same_labels};

    type Question = Text;

    ghost refuses = { RefusesLabel };

    ghost is_value = { AreLabels };

    ghost exact = { same_labels };

    fn free(alloc: Global) -> Result<LabelSet, Memory> {
        Ok(LabelSet::all(alloc))
    }

    fn is_free(&self) -> bool {
        self.set.is_free()
    }

    fn meet(&self, alloc: Global, other: &LabelSet) -> Result<LabelSet, Memory> {
        let set = Narrow::meet(&self.set, alloc, &other.set)?;
        set.known();
        Ok(LabelSet { set })
    }

    fn same(&self, other: &LabelSet) -> bool {
        self.set.same(&other.set)
    }

    fn copy(&self, alloc: Global) -> Result<LabelSet, Memory> {
        Ok(LabelSet {
            set: self.set.copy(alloc)?,
        })
    }

    fn known(&self) {
        let _set = &self.set;
    }
}
