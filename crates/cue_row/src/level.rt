ghost use Rattle.std.specs.Prelude.{◌≡◌, ◌↔◌, ◌<◌, IsTrue, max, IfSome, IfNone};
ghost use Rattle.cue_row.specs.Levels.{level_of};

/// How much a fragment asks of a field. Unification takes the greater level.
#[derive(Clone, Copy, Debug, PartialEq, Eq)]
pub enum Level {
    /// The field is constrained where it is there. This is level 0, which the root and the elements
    /// of lists have too.
    Optional,
    /// The field has to be given. This is level 1.
    Required,
    /// The field is there. This is level 2.
    Given,
}

impl Level {
    /// The number of the level: 0, 1 or 2.
    pub fn number(self) -> u8
        ensures { result ≡ level_of self }
    {
        match self {
            Level::Optional => 0,
            Level::Required => 1,
            Level::Given => 2,
        }
    }

    /// The level with this number, where there is one.
    pub fn from_number(number: u8) -> Option<Level>
        ensures some { IfSome result (λ level. level_of level ≡ number) }
        ensures none { IfNone result (2 < number) }
    {
        match number {
            0 => Some(Level::Optional),
            1 => Some(Level::Required),
            2 => Some(Level::Given),
            3..=u8::MAX => None,
        }
    }

    /// The greater of two levels.
    pub fn greater(self, other: Level) -> Level
        ensures { level_of result ≡ max (level_of self) (level_of other) }
    {
        match self {
            Level::Optional => other,
            Level::Required => match other {
                Level::Given => Level::Given,
                Level::Optional | Level::Required => Level::Required,
            },
            Level::Given => Level::Given,
        }
    }

    /// Whether both are one level.
    pub fn same(self, other: Level) -> bool
        ensures { IsTrue result ↔ (self ≡ other) }
    {
        match (self, other) {
            (Level::Optional, Level::Optional)
            | (Level::Required, Level::Required)
            | (Level::Given, Level::Given) => true,
            _ => false,
        }
    }
}
