//! The parts of which a place of the view is made.
ghost use Rattle.std.specs.Prelude.{◌≡◌, ◌↔◌, IsTrue};
ghost use Rattle.cue_policies.specs.Patterns.{IsPatternOf};
ghost use Rattle.cue_policies.specs.Inner.Parts.{kind_of, role_below};

use crate::labels::is_pattern;
use cue_row::Row;
use cue_table::Branch;

/// What a place of a table is in the view.
#[derive(Clone, Copy, Debug, PartialEq, Eq)]
pub(crate) enum Role {
    /// A place of a layer proper.
    Layer,
    /// A place of a policy.
    Policy,
    /// What a pattern of a policy holds: its own level plays no part.
    Pattern,
}

/// A place of a table, with its role.
#[derive(Drop)]
pub(crate) struct ViewPart<'a> {
    pub role: Role,
    pub branch: Branch<'a, Row>,
}

impl Role {
    /// The role of what is at a plain label, or an element.
    pub fn role_below(self) -> Role
        ensures { result ≡ role_below self }
    {
        match self {
            Role::Layer => Role::Layer,
            Role::Policy | Role::Pattern => Role::Policy,
        }
    }

    /// Whether a label is a pattern in a part of this role.
    pub fn has_pattern(self, label: &str) -> bool
        ensures { IsTrue result ↔ IsPatternOf (kind_of self) label.now }
    {
        match self {
            Role::Layer => false,
            Role::Policy | Role::Pattern => is_pattern(label),
        }
    }
}
