ghost use Rattle.std.specs.Prelude.{◌≡◌, ◌↔◌, ℕ, Bool, List, [], ◌∷◌, true, false, not, ◌&&◌, ◌||◌};
ghost use Rattle.std.specs.Prelude.{IfOk, IfSome, IfNone, IsTrue};
ghost use Rattle.std.specs.List.{list_all, list_any};
ghost use Rattle.cue_sets.specs.Inner.Combination.{combination_keeps};
ghost use Rattle.cue_sets.specs.Inner.Walk.{left_of};
ghost use Rattle.cue_sets.specs.Changes.{IsChanged, Unifies};
ghost use Rattle.cue_sets.specs.declared.text_change.TextChange.TheVariants.{Keep, Lack};
ghost use Rattle.cue_sets.specs.Texts.{is_listed, is_text_member, IsAscending, IsFirstText};
ghost use Rattle.cue_sets.specs.Texts.{IsOnlyText};

use crate::TextChange;
use crate::combination::Combination;
use crate::joining::{move_to_room, put_each};
use crate::leaving::remove_each;
use crate::merging::{MergeWalk, is_before, merge};
use crate::sorting::sort_texts;
use crate::texts::{
    Lists, are_same, ascends, copies, each_is_listed, has, is_member, zeros, zeros_listed,
};
use cue_lattice::{Memory, Narrow, Narrowed, Text};
use std::alloc::Global;
use std::collections::VecDeque;
use std::marker::Model;

/// How many texts are searched for or taken out of a list one by one, however long that is.
const FEW: usize = 8;

/// How many texts are put into a list one by one, where that is long.
const FEW_MORE: usize = 32;

/// A set of texts: a finite one, or all texts but finitely many.
///
/// It lists its members, or the texts that it lacks, strictly ascending by their bytes. So sets
/// with equal members are equal values.
#[derive(Debug, Drop)]
pub struct TextSet {
    all_but: bool,
    texts: Vec<Text>,
}

impl Model for TextSet {
    ghost use Rattle.std.specs.Prelude.{Bool, List, ℕ};
    ghost use Rattle.cue_sets.specs.Texts.{IsAscending};

    ghost Value = { Bool × List (List ℕ) };

    ghost view = { λ set. (set.all_but, set.texts.items) };

    ghost invariant = { λ set. IsAscending set.texts.items };
}

impl TextSet {
    /// No text. This takes no memory.
    pub fn none(alloc: Global) -> TextSet
        ensures { result ≡ (false, []) }
    {
        TextSet {
            all_but: false,
            texts: Vec::new(alloc),
        }
    }

    /// All texts. This takes no memory.
    pub fn all(alloc: Global) -> TextSet
        ensures { result ≡ (true, []) }
    {
        TextSet {
            all_but: true,
            texts: Vec::new(alloc),
        }
    }

    /// One text.
    pub fn one(alloc: Global, text: &str) -> Result<TextSet, Memory>
        ensures { IfOk result (λ set. set ≡ (false, text.now ∷ [])) }
    {
        TextSet::list_one(alloc, false, text)
    }

    /// All texts but one.
    pub fn but(alloc: Global, text: &str) -> Result<TextSet, Memory>
        ensures { IfOk result (λ set. set ≡ (true, text.now ∷ [])) }
    {
        TextSet::list_one(alloc, true, text)
    }

    /// Whether a text is a member. This is a binary search.
    pub fn contains(&self, text: &str) -> bool
        ensures { result ≡ is_text_member self.now text.now }
    {
        is_member(self.all_but, has(self.texts.as_slice(), text))
    }

    /// Whether there is no member.
    pub fn is_empty(&self) -> bool
        ensures { IsTrue result ↔ (self.now ≡ (false, [])) }
    {
        !self.all_but && self.texts.is_empty()
    }

    /// The members of both sets.
    pub fn meet(&self, alloc: Global, other: &TextSet) -> Result<TextSet, Memory>
        ensures { IfOk result (λ met. (text : List ℕ) →
            is_text_member met text ≡ (is_text_member self.now text
            && is_text_member other.now text)) }
    {
        self.combine_with(alloc, Combination::Meet, other)
    }

    /// The members of either set.
    pub fn union(&self, alloc: Global, other: &TextSet) -> Result<TextSet, Memory>
        ensures { IfOk result (λ all. (text : List ℕ) →
            is_text_member all text ≡ (is_text_member self.now text
            || is_text_member other.now text)) }
    {
        self.combine_with(alloc, Combination::Union, other)
    }

    /// The members of both sets, whose texts are moved and not copied.
    pub fn into_meet(self, alloc: Global, other: TextSet) -> Result<TextSet, Memory>
        ensures { IfOk result (λ met. (text : List ℕ) →
            is_text_member met text ≡ (is_text_member self text && is_text_member other text)) }
    {
        self.into_combined(alloc, Combination::Meet, other)
    }

    /// The members of either set, whose texts are moved and not copied.
    pub fn into_union(self, alloc: Global, other: TextSet) -> Result<TextSet, Memory>
        ensures { IfOk result (λ all. (text : List ℕ) →
            is_text_member all text ≡ (is_text_member self text || is_text_member other text)) }
    {
        self.into_combined(alloc, Combination::Union, other)
    }

    /// The members of one or more of these sets, which are taken over. The texts of all finite sets
    /// are sorted, and then walked once.
    pub fn union_all(alloc: Global, sets: Vec<TextSet>) -> Result<TextSet, Memory>
        ensures { IfOk result (λ all. (text : List ℕ) →
            is_text_member all text ≡ list_any (λ set. is_text_member set text) sets.items) }
    {
        let (texts, others) = TextSet::gather_texts(alloc, sets)?;
        if texts.is_empty() {
            return Ok(others);
        }
        let listed = TextSet {
            all_but: false,
            texts: sort_texts(alloc, texts)?,
        };
        listed.into_union(alloc, others)
    }

    /// The members of all of these sets, which are taken over. The texts that sets of all texts but
    /// some lack are sorted, and then walked once.
    pub fn meet_all(alloc: Global, sets: Vec<TextSet>) -> Result<TextSet, Memory>
        ensures { IfOk result (λ met. (text : List ℕ) →
            is_text_member met text ≡ list_all (λ set. is_text_member set text) sets.items) }
    {
        let (texts, others) = TextSet::gather_lacked(alloc, sets)?;
        if texts.is_empty() {
            return Ok(others);
        }
        let lacking = TextSet {
            all_but: true,
            texts: sort_texts(alloc, texts)?,
        };
        lacking.into_meet(alloc, others)
    }

    /// The members of this set that the other lacks.
    pub fn without(&self, alloc: Global, other: &TextSet) -> Result<TextSet, Memory>
        ensures { IfOk result (λ rest. (text : List ℕ) →
            is_text_member rest text ≡ (is_text_member self.now text
            && not (is_text_member other.now text))) }
    {
        self.combine_with(alloc, Combination::Without, other)
    }

    /// The only member, where there is one.
    pub fn single(&self) -> Option<&str>
        ensures some { IfSome result (λ text. IsOnlyText self.now text.now) }
        ensures none { IfNone result ((text : List ℕ) → ¬ IsOnlyText self.now text) }
    {
        if self.all_but {
            return None;
        }
        if self.texts.len() != 1 {
            return None;
        }
        Some(self.texts[0].as_str())
    }

    /// The least member by bytes, where there is one. Of all texts but some it is the first of the
    /// texts of zero, one, two, .. characters U+0000 that the set has.
    pub fn first(&self, alloc: Global) -> Result<Option<Text>, Memory>
        ensures some { IfOk result (λ found. IfSome found (IsFirstText self.now)) }
        ensures none { IfOk result (λ found. IfNone found (self.now ≡ (false, []))) }
    {
        if self.all_but {
            return Ok(Some(zeros(alloc, zeros_listed(self.texts.as_slice()))?));
        }
        if self.texts.is_empty() {
            return Ok(None);
        }
        Ok(Some(self.texts[0].copy(alloc)?))
    }

    /// Whether the set has all texts but the listed ones, and the listed texts, strictly ascending
    /// by their bytes.
    pub fn listed(&self) -> (bool, &[Text])
        ensures all_but { result.0 ≡ self.now.0 }
        ensures texts { result.1.now ≡ self.now.1 }
        ensures ascending { IsAscending self.now.1 }
    {
        (self.all_but, self.texts.as_slice())
    }

    /// The set that has these texts, or, if `all_but` is true, all others, where they ascend
    /// strictly by their bytes. This takes no memory.
    pub fn from_texts(all_but: bool, texts: Vec<Text>) -> Option<TextSet>
        ensures some { IfSome result (λ set. set ≡ (all_but, texts.items)) }
        ensures none { IfNone result (¬ IsAscending texts.items) }
    {
        if !ascends(texts.as_slice()) {
            return None;
        }
        Some(TextSet { all_but, texts })
    }

    /// Gives back what the set lists, as `listed` does. This takes no memory.
    pub fn into_texts(self) -> (bool, Vec<Text>)
        ensures all_but { result.0 ≡ self.0 }
        ensures texts { result.1.items ≡ self.1 }
        ensures ascending { IsAscending self.1 }
    {
        (self.all_but, self.texts)
    }

    /// Whether each member is one of the other set too. This takes no memory.
    pub fn is_within(&self, other: &TextSet) -> bool
        ensures { IsTrue result ↔
            ((text : List ℕ) → is_text_member self.now text ≡ true →
            is_text_member other.now text ≡ true) }
    {
        let (texts, others) = (self.texts.as_slice(), other.texts.as_slice());
        if self.all_but {
            return other.all_but && each_is_listed(others, texts, true);
        }
        each_is_listed(texts, others, !other.all_but)
    }

    /// What becomes of this set where the other one is unified into it. Where one of the two is
    /// finite, and one lists few texts and the other many, this takes no memory. Where both are all
    /// texts but some, and this one lists many and the other few, it copies no text.
    pub fn change_by(&self, alloc: Global, mut other: TextSet) -> Result<TextChange, Memory>
        ensures { IfOk result (λ change. Unifies change self.now other) }
    {
        if !other.all_but && other.is_kept_soon(self) {
            other.keep(self);
            return Ok(TextChange::Become(other));
        }
        if !self.all_but && self.is_kept_soon(&other) {
            return Ok(TextChange::Keep(other));
        }
        if self.all_but && other.all_but && other.is_soon_put_into(self) {
            return self.lack_more(alloc, other);
        }
        match self.narrowed_by(alloc, other)? {
            Narrowed::Unchanged => Ok(TextChange::Stay),
            Narrowed::To(met) => Ok(TextChange::Become(met)),
        }
    }

    /// Changes the set where it stands. This takes no memory.
    pub fn apply(&mut self, change: TextChange)
        ensures { IsChanged change self.old self.new }
    {
        match change {
            TextChange::Stay => {}
            TextChange::Become(set) => *self = set,
            TextChange::Keep(set) => self.keep(&set),
            TextChange::Lack { texts, room } => self.lack(texts, room),
        }
    }

    /// Whether few comparisons tell which of the listed texts the other set has.
    fn is_kept_soon(&self, other: &TextSet) -> bool {
        let (count, others) = (self.texts.len(), other.texts.len());
        count <= FEW || count < others / 16 || other.all_but && others <= FEW
    }

    /// Of the texts that are listed, those stay that the other set has.
    fn keep(&mut self, other: &TextSet)
        ensures { IsChanged (Keep other.now) self.old self.new }
    {
        if other.all_but && other.texts.len() <= FEW {
            remove_each(&mut self.texts, other.texts.as_slice());
            return;
        }
        self.texts.retain(|text| other.contains(text.as_str()));
    }

    /// Whether it takes few steps to put the listed texts among those of the other set.
    fn is_soon_put_into(&self, other: &TextSet) -> bool {
        let count = self.texts.len();
        count <= FEW_MORE && count < other.texts.len() / 16
    }

    /// What becomes of this set where it lacks the texts too that the other lacks. The room is
    /// twice what it takes, so that a set to which this happens again and again is moved but
    /// seldom.
    fn lack_more(&self, alloc: Global, other: TextSet) -> Result<TextChange, Memory>
        requires this { self.now.0 ≡ true }
        requires other { other.0 ≡ true }
        ensures { IfOk result (λ change. Unifies change self.now other) }
    {
        if self.is_within(&other) {
            return Ok(TextChange::Stay);
        }
        let count = self.texts.len() + other.texts.len();
        let room = Vec::with_capacity(alloc, count.saturating_mul(2))?;
        Ok(TextChange::Lack {
            texts: other.texts,
            room,
        })
    }

    /// Lacks these texts too, where there is room for all.
    fn lack(&mut self, texts: Vec<Text>, room: Vec<Text>)
        ensures { IsChanged (Lack texts room) self.old self.new }
    {
        let count = self.texts.len() + texts.len();
        if !self.all_but || !room.is_empty() || room.capacity() < count {
            return;
        }
        move_to_room(&mut self.texts, room, texts.len());
        put_each(&mut self.texts, texts);
    }

    /// The texts of the finite ones of these sets, and the members of one or more of the others.
    fn gather_texts(alloc: Global, sets: Vec<TextSet>) -> Result<(Vec<Text>, TextSet), Memory>
        ensures { IfOk result (λ gathered. (text : List ℕ) →
            (is_listed gathered.0.items text || is_text_member gathered.1 text)
            ≡ list_any (λ set. is_text_member set text) sets.items) }
    {
        let mut texts = Vec::new(alloc);
        let mut others = TextSet::none(alloc);
        for set in sets {
            if set.all_but {
                others = others.into_union(alloc, set)?;
            } else {
                let TextSet {
                    texts: mut more,
                    ..
                } = set;
                texts.append(&mut more)?;
            }
        }
        Ok((texts, others))
    }

    /// The texts that one or more of these sets of all texts but some lack, and the members of all
    /// of the finite ones.
    fn gather_lacked(alloc: Global, sets: Vec<TextSet>) -> Result<(Vec<Text>, TextSet), Memory>
        ensures { IfOk result (λ found. (text : List ℕ) →
            (not (is_listed found.0.items text) && is_text_member found.1 text)
            ≡ list_all (λ set. is_text_member set text) sets.items) }
    {
        let mut texts = Vec::new(alloc);
        let mut others = TextSet::all(alloc);
        for set in sets {
            if set.all_but {
                let TextSet {
                    texts: mut more,
                    ..
                } = set;
                texts.append(&mut more)?;
            } else {
                others = others.into_meet(alloc, set)?;
            }
        }
        Ok((texts, others))
    }

    fn combine_with(
        &self,
        alloc: Global,
        how: Combination,
        other: &TextSet,
    ) -> Result<TextSet, Memory>
        ensures { IfOk result (λ set. (text : List ℕ) →
            is_text_member set text ≡ combination_keeps how (is_text_member self.now text)
            (is_text_member other.now text)) }
    {
        let lists = self.combine_lists(how, other);
        let (left, right) = (self.texts.as_slice(), other.texts.as_slice());
        TextSet::merge_lists(
            alloc,
            lists,
            MergeWalk::Stays(left),
            MergeWalk::Stays(right),
        )
    }

    /// Where the texts of the other set are behind those of this one, and all stay, they are put at
    /// the end. Otherwise both lists are walked once.
    fn into_combined(
        self,
        alloc: Global,
        how: Combination,
        other: TextSet,
    ) -> Result<TextSet, Memory>
        ensures { IfOk result (λ set. (text : List ℕ) →
            is_text_member set text ≡ combination_keeps how (is_text_member self text)
            (is_text_member other text)) }
    {
        let lists = self.combine_lists(how, &other);
        let (mut left, mut right) = (self.texts, other.texts);
        if lists.keep_each() && is_before(left.as_slice(), right.as_slice()) {
            left.append(&mut right)?;
            return Ok(TextSet {
                all_but: lists.all_but(),
                texts: left,
            });
        }
        let (left, right) = (VecDeque::from(left), VecDeque::from(right));
        TextSet::merge_lists(
            alloc,
            lists,
            MergeWalk::Moves(left),
            MergeWalk::Moves(right),
        )
    }

    /// How what this set and the other one list becomes what their combination lists.
    fn combine_lists(&self, how: Combination, other: &TextSet) -> Lists
        ensures how { result.how ≡ how }
        ensures left { result.left_all_but ≡ self.now.0 }
        ensures right { result.right_all_but ≡ other.now.0 }
    {
        Lists {
            how,
            left_all_but: self.all_but,
            right_all_but: other.all_but,
        }
    }

    /// A combination of two sets, of which these are the lists.
    fn merge_lists(
        alloc: Global,
        lists: Lists,
        left: MergeWalk<'_>,
        right: MergeWalk<'_>,
    ) -> Result<TextSet, Memory>
        requires left { IsAscending (left_of left) }
        requires right { IsAscending (left_of right) }
        ensures { IfOk result (λ set. (text : List ℕ) → is_text_member set text
            ≡ combination_keeps lists.how (is_text_member (lists.left_all_but, left_of left.entry) text)
            (is_text_member (lists.right_all_but, left_of right.entry) text)) }
    {
        Ok(TextSet {
            all_but: lists.all_but(),
            texts: merge(alloc, lists, left, right)?,
        })
    }

    fn is_all(&self) -> bool
        ensures all { IsTrue result ↔ (self.now ≡ (true, [])) }
        ensures ascending { IsAscending self.now.1 }
    {
        self.all_but && self.texts.is_empty()
    }

    /// The set that lists one text.
    fn list_one(alloc: Global, all_but: bool, text: &str) -> Result<TextSet, Memory>
        ensures { IfOk result (λ set. set ≡ (all_but, text.now ∷ [])) }
    {
        let mut texts = Vec::with_capacity(alloc, 1)?;
        texts.push(Text::from_str(alloc, text)?)?;
        Ok(TextSet { all_but, texts })
    }
}

/// A set refuses the texts that are no members.
impl Narrow for TextSet {
    ghost use Rattle.std.specs.Prelude.{◌≡◌, ℕ, List, Bool, ◌↔◌};
    ghost use Rattle.cue_sets.specs.Texts.{RefusesText, IsTextSet};
    ghost use Rattle.cue_sets.specs.TextLaws.{same_texts};

    type Question = Text;

    ghost refuses = { RefusesText };

    ghost is_value = { IsTextSet };

    ghost exact = { same_texts };

    fn free(alloc: Global) -> Result<TextSet, Memory> {
        Ok(TextSet::all(alloc))
    }

    fn is_free(&self) -> bool {
        self.is_all()
    }

    fn meet(&self, alloc: Global, other: &TextSet) -> Result<TextSet, Memory> {
        TextSet::meet(self, alloc, other)
    }

    fn narrowed_by(&self, alloc: Global, other: TextSet) -> Result<Narrowed<TextSet>, Memory> {
        if self.is_within(&other) {
            return Ok(Narrowed::Unchanged);
        }
        if other.is_within(self) {
            return Ok(Narrowed::To(other));
        }
        let lists = self.combine_lists(Combination::Meet, &other);
        let right = VecDeque::from(other.texts);
        let left = self.texts.as_slice();
        let met = TextSet::merge_lists(
            alloc,
            lists,
            MergeWalk::Stays(left),
            MergeWalk::Moves(right),
        )?;
        Ok(Narrowed::To(met))
    }

    fn narrow(&mut self, alloc: Global, other: TextSet) -> Result<(), Memory> {
        let change = self.change_by(alloc, other)?;
        self.apply(change);
        Ok(())
    }

    fn same(&self, other: &TextSet) -> bool {
        self.all_but == other.all_but && are_same(self.texts.as_slice(), other.texts.as_slice())
    }

    fn copy(&self, alloc: Global) -> Result<TextSet, Memory> {
        Ok(TextSet {
            all_but: self.all_but,
            texts: copies(alloc, self.texts.as_slice())?,
        })
    }

    fn known(&self) {
        let _texts = &self.texts;
    }
}
