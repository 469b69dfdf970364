ghost use Rattle.std.specs.Prelude.{◌≡◌};
ghost use Rattle.cue_sets.specs.Inner.Combination.{combination_keeps};

/// How two sets are combined into one.
#[derive(Clone, Copy, Debug, PartialEq, Eq)]
pub(crate) enum Combination {
    /// The members of both.
    Meet,
    /// The members of either.
    Union,
    /// The members of the left one that the right one lacks.
    Without,
}

impl Combination {
    /// Whether a value is kept that is in the left set, in the right set, in both or in neither.
    pub(crate) fn keeps(self, left: bool, right: bool) -> bool
        ensures { result ≡ combination_keeps self left right }
    {
        match self {
            Combination::Meet => left && right,
            Combination::Union => left || right,
            Combination::Without => left && !right,
        }
    }
}
