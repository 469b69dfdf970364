ghost use Rattle.std.specs.Prelude.{◌≡◌, ℕ, ◌↔◌, List, IfOk, IsTrue, true, false, replicate};
ghost use Rattle.cue_sets.specs.Inner.Combination.{combination_keeps};
ghost use Rattle.cue_sets.specs.Inner.Merge.{combination_lists};
ghost use Rattle.cue_sets.specs.Texts.{is_member_if, is_listed, IsAscending, IsFirstText};

use crate::combination::Combination;
use cue_lattice::{Memory, Text};
use std::alloc::Global;
use std::cmp::Ordering;

/// Whether a text is a member of a set, by whether it is listed. `all_but` says that the set has
/// all texts but the listed ones.
pub(crate) fn is_member(all_but: bool, listed: bool) -> bool
    ensures { result ≡ is_member_if all_but listed }
{
    all_but != listed
}

/// How the lists of two sets become that of their combination.
#[derive(Clone, Copy)]
pub(crate) struct Lists {
    pub(crate) how: Combination,
    /// Whether the left set has all texts but the listed ones.
    pub(crate) left_all_but: bool,
    /// Whether the right set has all texts but the listed ones.
    pub(crate) right_all_but: bool,
}

impl Lists {
    /// Whether the combination has all texts but the listed ones.
    pub(crate) fn all_but(self) -> bool
        ensures { result ≡ combination_keeps self.how self.left_all_but self.right_all_but }
    {
        self.how.keeps(self.left_all_but, self.right_all_but)
    }

    /// Whether the combination lists each text that one set alone lists.
    pub(crate) fn keep_each(self) -> bool
        ensures left { IsTrue result →
            combination_lists self.how self.left_all_but self.right_all_but true false ≡ true }
        ensures right { IsTrue result →
            combination_lists self.how self.left_all_but self.right_all_but false true ≡ true }
    {
        self.keeps(true, false) && self.keeps(false, true)
    }

    /// Whether the combination lists a text, by which of the two sets list it.
    pub(crate) fn keeps(self, in_left: bool, in_right: bool) -> bool
        ensures { result ≡ combination_lists self.how self.left_all_but self.right_all_but in_left in_right }
    {
        let kept = self.how.keeps(
            is_member(self.left_all_but, in_left),
            is_member(self.right_all_but, in_right),
        );
        is_member(self.all_but(), kept)
    }
}

/// Whether a text is listed, by a binary search.
pub(crate) fn has(texts: &[Text], text: &str) -> bool
    requires { IsAscending texts.now }
    ensures { result ≡ is_listed texts.now text.now }
{
    texts
        .binary_search_by(|listed| listed.as_bytes().cmp(text.as_bytes()))
        .is_ok()
}

/// Whether each text is below the next one by its bytes.
pub(crate) fn ascends(texts: &[Text]) -> bool
    ensures { IsTrue result ↔ IsAscending texts.now }
{
    for index in 1..texts.len() {
        match texts[index - 1].compare(&texts[index]) {
            Ordering::Less => {}
            Ordering::Equal | Ordering::Greater => return false,
        }
    }
    true
}

/// Whether the other list has each of these texts, or, if `wanted` is false, has none of them. A
/// few texts are looked up one by one, and many are walked side by side with the other list.
pub(crate) fn each_is_listed(texts: &[Text], others: &[Text], wanted: bool) -> bool
    requires texts { IsAscending texts.now }
    requires others { IsAscending others.now }
    ensures { IsTrue result ↔
        ((text : List ℕ) → is_listed texts.now text ≡ true → is_listed others.now text ≡ wanted) }
{
    if texts.len() < others.len() / 16 {
        return each_is_found(texts, others, wanted);
    }
    each_is_walked(texts, others, wanted)
}

/// What `each_is_listed` answers, by a search for each of the texts.
fn each_is_found(texts: &[Text], others: &[Text], wanted: bool) -> bool
    requires { IsAscending others.now }
    ensures { IsTrue result ↔
        ((text : List ℕ) → is_listed texts.now text ≡ true → is_listed others.now text ≡ wanted) }
{
    for text in texts {
        if has(others, text.as_str()) != wanted {
            return false;
        }
    }
    true
}

/// What `each_is_listed` answers, by one walk over both lists.
fn each_is_walked(texts: &[Text], others: &[Text], wanted: bool) -> bool
    requires texts { IsAscending texts.now }
    requires others { IsAscending others.now }
    ensures { IsTrue result ↔
        ((text : List ℕ) → is_listed texts.now text ≡ true → is_listed others.now text ≡ wanted) }
{
    let (mut left, mut right) = (texts, others);
    while let [text, later @ ..] = left {
        let order = match right {
            [] => Ordering::Less,
            [other, ..] => text.compare(other),
        };
        if order.is_le() {
            if order.is_eq() != wanted {
                return false;
            }
            left = later;
        }
        if order.is_ge() {
            right = &right[1..];
        }
    }
    true
}

/// Whether two lists have the same texts in the same order.
pub fn are_same(left: &[Text], right: &[Text]) -> bool
    ensures { IsTrue result ↔ (left.now ≡ right.now) }
{
    if left.len() != right.len() {
        return false;
    }
    for (index, text) in left.iter().enumerate() {
        if !text.same(&right[index]) {
            return false;
        }
    }
    true
}

/// A list of the same texts.
pub(crate) fn copies(alloc: Global, texts: &[Text]) -> Result<Vec<Text>, Memory>
    ensures { IfOk result (λ copied. copied.items ≡ texts.now) }
{
    let mut copied = Vec::with_capacity(alloc, texts.len())?;
    for text in texts {
        copied.push(text.copy(alloc)?)?;
    }
    Ok(copied)
}

/// How many texts at the front of an ascending list are those of zero, one, two, .. characters
/// U+0000. No text is below these, so the next of them is the least that is not listed.
pub(crate) fn zeros_listed(texts: &[Text]) -> usize
    requires { IsAscending texts.now }
    ensures { IsFirstText (true, texts.now) (replicate result 0) }
{
    for (count, text) in texts.iter().enumerate() {
        if !are_zeros(text.as_bytes(), count) {
            return count;
        }
    }
    texts.len()
}

/// Whether these are so many zero bytes.
fn are_zeros(bytes: &[u8], count: usize) -> bool
    ensures { IsTrue result ↔ (bytes.now ≡ replicate count 0) }
{
    bytes.len() == count && bytes.iter().all(|byte| *byte == 0)
}

/// The text of so many characters U+0000.
pub(crate) fn zeros(alloc: Global, count: usize) -> Result<Text, Memory>
    ensures { IfOk result (λ text. text ≡ replicate count 0) }
{
    let mut text = String::with_capacity(alloc, count)?;
    for _index in 0..count {
        text.push('\0')?;
    }
    Text::new(alloc, text)
}
