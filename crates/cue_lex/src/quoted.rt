ghost use Rattle.std.specs.Prelude.{◌≡◌, ◌≤◌, IfOk, string_bytes, length};
ghost use Rattle.cue_lattice.specs.Limits.{word_limit};
ghost use Rattle.cue_lattice.specs.Word.{IsWord};

use crate::Word;
use cue_lattice::Memory;
use std::alloc::Global;
use std::fmt;
use std::marker::Model;

/// The text that a string stands for, of at most [`WORD_LIMIT`](cue_lattice::WORD_LIMIT) bytes: a
/// slice of the fragment where the string has no escape, and else a text of its own. Contracts see
/// it as the list of its bytes.
#[derive(Drop)]
pub struct Quoted<'a> {
    spelled: Spelled<'a>,
}

/// Where the text stands.
#[derive(Drop)]
pub(crate) enum Spelled<'a> {
    /// In the fragment.
    Plain(&'a str),
    /// In memory of its own, since an escape stands for another character than its own.
    Decoded(Box<String>),
}

impl<'a> Model for Quoted<'a> {
    ghost use Rattle.std.specs.Prelude.{List, ℕ};
    ghost use Rattle.cue_lattice.specs.Word.{IsWord};
    ghost use Rattle.cue_lex.specs.Spelled.{bytes_of_spelled};

    ghost Value = { List ℕ };

    ghost view = { λ q. bytes_of_spelled q.spelled };

    ghost invariant = { λ q. IsWord (bytes_of_spelled q.spelled) };
}

impl<'a> Quoted<'a> {
    /// The text of a string with no escape, as it stands in the fragment.
    pub fn as_plain(word: Word<'a>) -> Quoted<'a>
        ensures { result ≡ word.entry }
    {
        Quoted {
            spelled: Spelled::Plain(word.as_str()),
        }
    }

    /// The text that a string with escapes stands for, which it takes over.
    pub fn from_decoded(alloc: Global, text: String) -> Result<Quoted<'a>, Memory>
        requires { length (string_bytes text) ≤ word_limit }
        ensures { IfOk result (λ quoted. quoted ≡ string_bytes text) }
    {
        Ok(Quoted {
            spelled: Spelled::Decoded(Box::new(alloc, text)?),
        })
    }

    pub fn as_str(&self) -> &str
        ensures bytes { result.now ≡ self.now }
        ensures word { IsWord self.now }
    {
        match &self.spelled {
            Spelled::Plain(text) => text,
            Spelled::Decoded(text) => text.as_str(),
        }
    }

    /// The text as a word that borrows from the token, or from the fragment.
    pub fn word(&self) -> Word<'_>
        ensures bytes { result ≡ self.now }
        ensures word { IsWord self.now }
    {
        Word::of_short(self.as_str())
    }
}

impl<'a> fmt::Debug for Quoted<'a> {
    fn fmt<W: fmt::Write>(&self, f: &mut fmt::Formatter<W>) -> fmt::Result {
        fmt::Debug::fmt(self.as_str(), f)
    }
}

impl<'a> fmt::Display for Quoted<'a> {
    fn fmt<W: fmt::Write>(&self, f: &mut fmt::Formatter<W>) -> fmt::Result {
        f.write_str(self.as_str())
    }
}
