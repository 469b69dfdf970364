//! Places, read from the front of the bytes. Rows come in the order of their places, so a place
//! mostly begins as the one before it does: what both have in common is compared with the bytes,
//! and only the rest is made.

ghost use Rattle.std.specs.Prelude.{◌≡◌, ◌<◌, ◌≤◌, ◌++◌, length, map, take, IfOk, IfErr, IfSome};
ghost use Rattle.std.specs.List.{flat_map, AllByRecursion};
ghost use Rattle.cue_lattice.specs.Limits.{step_limit};
ghost use Rattle.cue_row.specs.Steps.{step_of};
ghost use Rattle.cue_table.specs.SlotsOfCode.{slot_of};
ghost use Rattle.cue_codec.specs.declared.version.Version.{Version as Versions};
ghost use Rattle.cue_codec.specs.Entry.{at, step_kind, path_of_place};
ghost use Rattle.cue_codec.specs.Known.{slot_with, IsIndexKnown};
ghost use Rattle.cue_codec.specs.Parts.{text_bytes, step_bytes, path_bytes};
ghost use Rattle.cue_codec.specs.Reading.{ReadsItem, ReadsNoItem};
ghost use Rattle.cue_codec.specs.Inner.Reading.{AreSo, IsNoneRead};
ghost use Rattle.cue_codec.specs.StateRow.{IsStateStep, IsStatePath};

use crate::lists::one_text;
use crate::reading::{u16_at, u32_at};
use crate::unread::Unread;
use crate::version::Version;
use cue_lattice::{STEP_LIMIT, Text};
use cue_row::Step;
use cue_table::{Place, Slot};
use std::alloc::Global;

/// A label, an index, or the rest of a list, whose number is known from the row above.
fn step_at(
    alloc: Global,
    version: Version,
    number: u64,
    bytes: &[u8],
) -> Result<(Slot, &[u8]), Unread>
    ensures ok { IfOk result (λ x. ReadsItem (IsStateStep version) (step_bytes version)
        (step_kind (slot_of x.0)) bytes.now x.1.now) }
    ensures known { IfOk result (λ x. slot_of x.0 ≡ slot_with number (step_kind (slot_of x.0))) }
    ensures refused { IfErr result (λ why. IsNoneRead why
        (ReadsNoItem (IsStateStep version) (step_bytes version)) bytes.now) }
{
    let Some((tag, rest)) = bytes.split_first() else {
        return Err(Unread::Cut);
    };
    match *tag {
        0 => {
            let (text, rest) = one_text(alloc, rest)?;
            Ok((Slot::At(Step::Label(text)), rest))
        }
        1 => {
            let Some((number, rest)) = u32_at(rest) else {
                return Err(Unread::Cut);
            };
            Ok((Slot::At(Step::Index(number)), rest))
        }
        2 => match version {
            Version::First => Err(Unread::Wrong),
            Version::Second => Ok((Slot::From(number), rest)),
        },
        3..=u8::MAX => Err(Unread::Wrong),
    }
}

/// What stands after a text, where its bytes stand in front.
fn after_text<'a>(text: &Text, bytes: &'a [u8]) -> Option<&'a [u8]>
    ensures { IfSome result (λ rest. bytes.now ≡ text_bytes text.now ++ rest.now) }
{
    let (len, rest) = u16_at(bytes)?;
    let text = text.as_bytes();
    if len as usize != text.len() {
        return None;
    }
    let rest = rest.strip_prefix(text)?;
    Some(rest)
}

/// What stands after a label or an index, where its bytes stand in front, which are the same in
/// each version.
#[tactic(auto, unfolding(crate::specs::Parts::step_bytes))]
fn after_step<'a>(step: &Step, bytes: &'a [u8]) -> Option<&'a [u8]>
    ensures { IfSome result (λ rest. (version : Versions) →
        bytes.now ≡ step_bytes version (at (step_of step.now)) ++ rest.now) }
{
    let (tag, rest) = bytes.split_first()?;
    match step {
        Step::Label(label) => {
            if *tag != 0 {
                return None;
            }
            after_text(label, rest)
        }
        Step::Index(number) => {
            if *tag != 1 {
                return None;
            }
            let (found, rest) = u32_at(rest)?;
            if found != *number {
                return None;
            }
            Some(rest)
        }
    }
}

/// What stands after a step, where its bytes stand in front.
#[tactic(auto, unfolding(crate::specs::Parts::step_bytes))]
fn after_slot<'a>(slot: &Slot, bytes: &'a [u8]) -> Option<&'a [u8]>
    ensures { IfSome result (λ rest. (version : Versions) →
        bytes.now ≡ step_bytes version (step_kind (slot_of slot.now)) ++ rest.now) }
{
    match slot {
        Slot::At(step) => after_step(step, bytes),
        Slot::From(_) => {
            let (tag, rest) = bytes.split_first()?;
            if *tag != 2 {
                return None;
            }
            Some(rest)
        }
    }
}

/// With how many of these steps, of so many at most, the bytes begin, and what stands after them.
fn skip_shared<'a>(slots: &[Slot], count: u8, bytes: &'a [u8]) -> (usize, &'a [u8])
    ensures few { (result.0 ≤ length slots.now) × (result.0 ≤ count) }
    ensures parts { (version : Versions) → bytes.now
        ≡ flat_map (step_bytes version) (path_of_place (map slot_of (take result.0 slots.now)))
        ++ result.1.now }
{
    let mut len = 0;
    let mut rest = bytes;
    for slot in slots {
        if len == count as usize {
            return (len, rest);
        }
        let Some(after) = after_slot(slot, rest) else {
            return (len, rest);
        };
        len += 1;
        rest = after;
    }
    (len, rest)
}

/// So many steps. Of the steps of the place before, those are kept with which the bytes begin.
fn each_step<'a>(
    alloc: Global,
    version: Version,
    before: Vec<Slot>,
    known: &[u64],
    count: u8,
    bytes: &'a [u8],
) -> Result<(Vec<Slot>, &'a [u8]), Unread>
    requires steps { AllByRecursion (IsStateStep version) (path_of_place (map slot_of before.items)) }
    requires known { IsIndexKnown known.now (map slot_of before.items) }
    requires deep { count ≤ length known.now }
    ensures ok { IfOk result (λ x. ReadsItem (AreSo (IsStateStep version) count)
        (flat_map (step_bytes version)) (path_of_place (map slot_of x.0.items)) bytes.now x.1.now) }
    ensures numbers { IfOk result (λ x. IsIndexKnown known.now (map slot_of x.0.items)) }
    ensures refused { IfErr result (λ why. IsNoneRead why
        (ReadsNoItem (AreSo (IsStateStep version) count) (flat_map (step_bytes version))) bytes.now) }
{
    let mut slots = before;
    let (len, behind) = skip_shared(slots.as_slice(), count, bytes);
    slots.truncate(len);
    let mut rest = behind;
    while slots.len() < count as usize {
        let (slot, after) = step_at(alloc, version, known[slots.len()], rest)?;
        let Ok(()) = slots.push(slot) else {
            return Err(Unread::Memory);
        };
        rest = after;
    }
    Ok((slots, rest))
}

/// The place of a row, where it is known of each row above from which index on its elements are
/// alike. Of the place before it those steps are kept with which it begins too, so that only what
/// differs is made.
pub fn path_at<'a>(
    alloc: Global,
    version: Version,
    before: Place,
    known: &[u64],
    bytes: &'a [u8],
) -> Result<(Place, &'a [u8]), Unread>
    requires steps { IsStatePath version (path_of_place before) }
    requires known { IsIndexKnown known.now before }
    requires deep { step_limit < length known.now }
    ensures ok { IfOk result (λ x. ReadsItem (IsStatePath version) (path_bytes version)
        (path_of_place x.0) bytes.now x.1.now) }
    ensures numbers { IfOk result (λ x. IsIndexKnown known.now x.0) }
    ensures refused { IfErr result (λ why. IsNoneRead why
        (ReadsNoItem (IsStatePath version) (path_bytes version)) bytes.now) }
{
    let Some((count, rest)) = bytes.split_first() else {
        return Err(Unread::Cut);
    };
    let asked = *count as usize;
    if asked > STEP_LIMIT {
        return Err(Unread::Wrong);
    }
    let (slots, rest) = each_step(alloc, version, before.into_slots(), known, *count, rest)?;
    let Some(place) = Place::new(slots) else {
        return Err(Unread::Wrong);
    };
    Ok((place, rest))
}
