ghost use Rattle.std.specs.Prelude.{◌≡◌, ◌↔◌, IfOk, IsTrue};
ghost use Rattle.cue_table.specs.Slots.{slot_cmp};
ghost use Rattle.cue_table.specs.SlotsOfCode.{slot_of};

use cue_lattice::Memory;
use cue_row::Step;
use std::alloc::Global;
use std::cmp::Ordering;

/// What a branch hangs at: one step, or all elements of a list from an index on.
#[derive(Debug, Drop)]
pub enum Slot {
    /// The field or the element of this step.
    At(Step),
    /// Each element from this index on, counted from 0 and at most 2^32.
    From(u64),
}

impl Slot {
    /// How two slots compare: steps as steps do, and all of them before elements from an index on.
    pub fn compare(&self, other: &Slot) -> Ordering
        ensures { result ≡ slot_cmp (slot_of self.now) (slot_of other.now) }
    {
        match (self, other) {
            (Slot::At(left), Slot::At(right)) => left.compare(right),
            (Slot::At(_), Slot::From(_)) => Ordering::Less,
            (Slot::From(_), Slot::At(_)) => Ordering::Greater,
            (Slot::From(left), Slot::From(right)) => left.cmp(right),
        }
    }

    /// Whether both are one slot.
    pub fn same(&self, other: &Slot) -> bool
        ensures { IsTrue result ↔ (self.now ≡ other.now) }
    {
        match (self, other) {
            (Slot::At(left), Slot::At(right)) => left.same(right),
            (Slot::From(left), Slot::From(right)) => left == right,
            _ => false,
        }
    }

    pub fn copy(&self, alloc: Global) -> Result<Slot, Memory>
        ensures { IfOk result (λ slot. slot ≡ self.now) }
    {
        match self {
            Slot::At(step) => Ok(Slot::At(step.copy(alloc)?)),
            Slot::From(number) => Ok(Slot::From(*number)),
        }
    }
}
