//! Two ascending lists of texts as one, by one walk.
ghost use Rattle.std.specs.Prelude.{◌≡◌, ◌∷◌, ◌++◌, [], length, drop, IfOk, IfSome, IfNone};
ghost use Rattle.std.specs.Prelude.{IsTrue, OnOk};
ghost use Rattle.cue_sets.specs.Inner.Apart.{AreApart};
ghost use Rattle.cue_sets.specs.Inner.Merge.{combination_lists, merge_texts};
ghost use Rattle.cue_sets.specs.Inner.Walk.{left_of, next_if, IsNext};
ghost use Rattle.cue_sets.specs.Texts.{IsAscending};

use crate::texts::Lists;
use cue_lattice::{Memory, Text};
use std::alloc::Global;
use std::cmp::Ordering;
use std::collections::VecDeque;

/// What is left of a list of texts that is walked.
#[derive(Drop)]
pub(crate) enum MergeWalk<'a> {
    /// The list stays as it is, and its texts are copied.
    Stays(&'a [Text]),
    /// The list is taken over, and its texts are moved.
    Moves(VecDeque<Text>),
}

impl<'a> MergeWalk<'a> {
    /// How many texts are left.
    fn len(&self) -> usize
        ensures { result ≡ length (left_of self.now) }
    {
        match self {
            MergeWalk::Stays(texts) => texts.len(),
            MergeWalk::Moves(texts) => texts.len(),
        }
    }

    /// The next text.
    fn first(&self) -> Option<&Text>
        ensures some { IfSome result (λ text.
            left_of self.now ≡ text.now ∷ drop 1 (left_of self.now)) }
        ensures none { IfNone result (left_of self.now ≡ []) }
    {
        match self {
            MergeWalk::Stays(texts) => texts.first(),
            MergeWalk::Moves(texts) => texts.front(),
        }
    }

    /// Goes past the next text, and puts it at the end of a list where it is kept.
    fn step(&mut self, alloc: Global, kept: bool, texts: &mut Vec<Text>) -> Result<(), Memory>
        ensures left { OnOk result (left_of self.new ≡ drop 1 (left_of self.old)) }
        ensures texts { OnOk result
            (texts.new.items ≡ texts.old.items ++ next_if kept (left_of self.old)) }
    {
        match self {
            MergeWalk::Stays(left) => {
                let [text, later @ ..] = *left else {
                    return Ok(());
                };
                if kept {
                    texts.push(text.copy(alloc)?)?;
                }
                *left = later;
            }
            MergeWalk::Moves(left) => {
                let Some(text) = left.pop_front() else {
                    return Ok(());
                };
                if kept {
                    texts.push(text)?;
                }
            }
        }
        Ok(())
    }
}

/// How the next text of the left list stands to that of the right one, where one has a text. Behind
/// all texts is the end of a list.
#[tactic(auto, using(crate::proofs::Next::next_of_first))]
fn order(left: &MergeWalk<'_>, right: &MergeWalk<'_>) -> Option<Ordering>
    ensures some { IfSome result (λ order. IsNext order (left_of left.now) (left_of right.now)) }
    ensures none { IfNone result ((left_of left.now ≡ []) × (left_of right.now ≡ [])) }
{
    match (left.first(), right.first()) {
        (None, None) => None,
        (Some(_), None) => Some(Ordering::Less),
        (None, Some(_)) => Some(Ordering::Greater),
        (Some(on_left), Some(on_right)) => Some(on_left.compare(on_right)),
    }
}

/// The list of a combination of two sets. Both lists are walked once. A text that both have is
/// taken from the right one.
pub(crate) fn merge(
    alloc: Global,
    how: Lists,
    mut left: MergeWalk<'_>,
    mut right: MergeWalk<'_>,
) -> Result<Vec<Text>, Memory>
    ensures { IfOk result (λ texts.
        texts.items ≡ merge_texts (combination_lists how.how how.left_all_but how.right_all_but)
        (left_of left.entry) (left_of right.entry)) }
{
    let mut texts = Vec::with_capacity(alloc, left.len().saturating_add(right.len()))?;
    let (of_left, of_right) = (how.keeps(true, false), how.keeps(false, true));
    let of_both = how.keeps(true, true);
    while let Some(order) = order(&left, &right) {
        match order {
            Ordering::Less => left.step(alloc, of_left, &mut texts)?,
            Ordering::Equal => {
                left.step(alloc, false, &mut texts)?;
                right.step(alloc, of_both, &mut texts)?;
            }
            Ordering::Greater => right.step(alloc, of_right, &mut texts)?,
        }
    }
    Ok(texts)
}

/// Whether the last text of an ascending list is below the first one of another. Then a combination
/// that lists the texts of both has the one list after the other.
pub(crate) fn is_before(left: &[Text], right: &[Text]) -> bool
    requires { IsAscending left.now }
    ensures { IsTrue result → AreApart left.now right.now }
{
    if left.is_empty() || right.is_empty() {
        return true;
    }
    left[left.len() - 1].compare(&right[0]).is_lt()
}
