ghost use Rattle.std.specs.Prelude.{◌≡◌, ◌<◌, [], ◌∷◌, ◌++◌, length, map, IfOk, IfSome, IfNone};
ghost use Rattle.cue_lattice.specs.Limits.{step_limit};
ghost use Rattle.cue_table.specs.Slots.{at, place_cmp};
ghost use Rattle.cue_table.specs.SlotsOfCode.{slot_of, IsWithinDepth};

use crate::Slot;
use cue_lattice::{Memory, STEP_LIMIT};
use cue_row::Path;
use std::alloc::Global;
use std::cmp::Ordering;
use std::marker::Model;

/// Where a row of a table is kept: the slots that lead there from the root, at most
/// [`STEP_LIMIT`] of them. Contracts see the list of them.
#[derive(Debug, Drop)]
pub struct Place {
    slots: Vec<Slot>,
}

impl Model for Place {
    ghost use Rattle.std.specs.Prelude.{map};
    ghost use Rattle.cue_table.specs.Slots.{Slot};
    ghost use Rattle.std.specs.Prelude.{List};

    ghost Value = { List Slot };

    ghost use Rattle.cue_table.specs.SlotsOfCode.{slot_of, IsWithinDepth};

    ghost view = { λ place. map slot_of place.slots.items };

    ghost invariant = { λ place. IsWithinDepth (map slot_of place.slots.items) };
}

impl Place {
    /// The place of these slots, or nothing where they are more than [`STEP_LIMIT`].
    pub fn new(slots: Vec<Slot>) -> Option<Place>
        ensures some { IfSome result (λ place. place ≡ map slot_of slots.items) }
        ensures none { IfNone result (step_limit < length slots.items) }
    {
        if slots.len() > STEP_LIMIT {
            return None;
        }
        Some(Place { slots })
    }

    /// The root, to which no slot leads. This takes no memory.
    pub fn root(alloc: Global) -> Place
        ensures { result ≡ [] }
    {
        Place {
            slots: Vec::new(alloc),
        }
    }

    /// The place at a path: each step stands by itself.
    pub fn of_path(alloc: Global, path: Path) -> Result<Place, Memory>
        ensures { IfOk result (λ place. place ≡ map at path) }
    {
        let steps = path.into_steps();
        let mut slots = Vec::with_capacity(alloc, steps.len())?;
        for step in steps {
            slots.push(Slot::At(step))?;
        }
        Ok(Place { slots })
    }

    /// The slots from the root.
    pub fn slots(&self) -> &[Slot]
        ensures list { map slot_of result.now ≡ self.now }
        ensures few { IsWithinDepth self.now }
    {
        self.slots.as_slice()
    }

    /// Gives the slots back.
    pub fn into_slots(self) -> Vec<Slot>
        ensures list { map slot_of result.items ≡ self }
        ensures few { IsWithinDepth self }
    {
        self.slots
    }

    /// The place one slot further.
    pub fn then(&self, alloc: Global, slot: Slot) -> Result<Place, Memory>
        requires { length self.now < step_limit }
        ensures { IfOk result (λ place. place ≡ self.now ++ slot_of slot ∷ []) }
    {
        let mut slots = copy_slots(alloc, self.slots())?;
        slots.push(slot)?;
        Ok(Place { slots })
    }

    /// How two places compare, slot by slot; a place comes before those that it begins.
    pub fn compare(&self, other: &Place) -> Ordering
        ensures { result ≡ place_cmp self.now other.now }
    {
        compare_slots(self.slots(), other.slots())
    }

    pub fn copy(&self, alloc: Global) -> Result<Place, Memory>
        ensures { IfOk result (λ place. place ≡ self.now) }
    {
        Ok(Place {
            slots: copy_slots(alloc, self.slots())?,
        })
    }
}

/// How two lists of slots compare, slot by slot.
fn compare_slots(left: &[Slot], right: &[Slot]) -> Ordering
    ensures { result ≡ place_cmp (map slot_of left.now) (map slot_of right.now) }
{
    let Some((first, left)) = left.split_first() else {
        return if right.is_empty() {
            Ordering::Equal
        } else {
            Ordering::Less
        };
    };
    let Some((other, right)) = right.split_first() else {
        return Ordering::Greater;
    };
    match first.compare(other) {
        Ordering::Equal => compare_slots(left, right),
        order => order,
    }
}

/// The same slots.
fn copy_slots(alloc: Global, slots: &[Slot]) -> Result<Vec<Slot>, Memory>
    ensures { IfOk result (λ copied. copied.items ≡ slots.now) }
{
    let mut copied = Vec::with_capacity(alloc, slots.len())?;
    for slot in slots {
        copied.push(slot.copy(alloc)?)?;
    }
    Ok(copied)
}
