ghost use Rattle.std.specs.Prelude.{◌≡◌, ◌≤◌, ◌<◌, IfOk, IfSome, IfNone, ◌↔◌, IsTrue, length};
ghost use Rattle.std.specs.Ordering.{nat_cmp};
ghost use Rattle.std.specs.Cmp.Lexicographic.{slice_cmp};
ghost use Rattle.cue_lattice.specs.Limits.{word_limit};
ghost use Rattle.cue_lattice.specs.Word.{IsWord};

use cue_lattice::{Memory, Text, WORD_LIMIT};
use std::alloc::Global;
use std::cmp::Ordering;
use std::fmt;
use std::marker::Model;

/// A text in UTF-8 of at most [`WORD_LIMIT`] bytes that stands elsewhere: in a fragment, or in one
/// of its tokens. Contracts see it as the list of its bytes, and words are ordered by their bytes.
#[derive(Drop)]
pub struct Word<'a> {
    text: &'a str,
}

impl<'a> Model for Word<'a> {
    ghost use Rattle.std.specs.Prelude.{List, ℕ};
    ghost use Rattle.cue_lattice.specs.Word.{IsWord};

    ghost Value = { List ℕ };

    ghost view = { λ w. w.text.now };

    ghost invariant = { λ w. IsWord w.text.now };
}

impl<'a> Word<'a> {
    /// The word that a string slice is. None where it has more than [`WORD_LIMIT`] bytes.
    pub fn new(text: &'a str) -> Option<Word<'a>>
        ensures bytes { IfSome result (λ word. word ≡ text.now) }
        ensures word { IfSome result (λ word. IsWord word) }
        ensures long { IfNone result (word_limit < length text.now) }
    {
        if text.len() > WORD_LIMIT {
            None
        } else {
            Some(Word::of_short(text))
        }
    }

    /// The word that a string slice is which is not too long.
    pub(crate) fn of_short(text: &'a str) -> Word<'a>
        requires { length text.now ≤ word_limit }
        ensures { result ≡ text.now }
    {
        Word { text }
    }

    pub fn as_str(&self) -> &'a str
        ensures bytes { result.now ≡ self.now }
        ensures word { IsWord self.now }
    {
        self.text
    }

    pub fn as_bytes(&self) -> &'a [u8]
        ensures bytes { result.now ≡ self.now }
        ensures word { IsWord self.now }
    {
        self.text.as_bytes()
    }

    /// The same word once more. It takes no memory.
    pub fn share(&self) -> Word<'a>
        ensures bytes { result ≡ self.now }
        ensures word { IsWord self.now }
    {
        Word { text: self.text }
    }

    /// A text of its own with the same bytes.
    pub fn to_text(&self, alloc: Global) -> Result<Text, Memory>
        ensures bytes { IfOk result (λ text. text ≡ self.now) }
        ensures word { IsWord self.now }
    {
        Text::from_str(alloc, self.text)
    }

    /// How the bytes compare, which is how the code points compare.
    pub fn compare(&self, other: &Word) -> Ordering
        ensures { result ≡ slice_cmp nat_cmp self.now other.now }
    {
        self.as_bytes().cmp(other.as_bytes())
    }

    pub fn same(&self, other: &Word) -> bool
        ensures { IsTrue result ↔ (self.now ≡ other.now) }
    {
        self.as_bytes() == other.as_bytes()
    }
}

impl<'a> fmt::Debug for Word<'a> {
    fn fmt<W: fmt::Write>(&self, f: &mut fmt::Formatter<W>) -> fmt::Result {
        fmt::Debug::fmt(self.text, f)
    }
}

impl<'a> fmt::Display for Word<'a> {
    fn fmt<W: fmt::Write>(&self, f: &mut fmt::Formatter<W>) -> fmt::Result {
        f.write_str(self.text)
    }
}
