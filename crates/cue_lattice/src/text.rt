ghost use Rattle.std.specs.Prelude.{◌≡◌, ◌≤◌, ◌+◌, ℕ, List, IfOk, IsOk, length, take, drop, string_bytes, ◌↔◌};
ghost use Rattle.std.specs.Prelude.{IsTrue};
ghost use Rattle.std.specs.Int.{w64, from_be_bytes};
ghost use Rattle.std.specs.Ordering.{nat_cmp};
ghost use Rattle.cue_lattice.specs.Kept.{IsPadded};
ghost use Rattle.std.specs.Cmp.Lexicographic.{slice_cmp};

use crate::Memory;
use std::alloc::Global;
use std::cmp::Ordering;
use std::marker::Model;
use std::rc::Rc;
use std::{fmt, str};

/// How many bytes a text keeps in itself.
const ROOM: usize = 22;

/// How the bytes of a text are kept.
#[derive(Drop)]
pub(crate) enum TextStorage {
    /// So many bytes at the front of the room.
    Short(u8, [u8; ROOM]),
    /// A string that copies share.
    Long(Rc<String>),
}

/// A text in UTF-8. Contracts see it as the list of its bytes, and texts are ordered by their
/// bytes. It has 24 bytes: up to 22 bytes of text are kept in it, and longer ones are shared
/// between copies.
#[derive(Drop)]
pub struct Text {
    kept: TextStorage,
}

impl Model for Text {
    ghost use Rattle.std.specs.Prelude.{List, ℕ};
    ghost use Rattle.cue_lattice.specs.Kept.{kept_bytes, IsSoundText};

    ghost Value = { List ℕ };

    ghost view = { λ text. kept_bytes text.kept };

    ghost invariant = { λ text. IsSoundText text.kept };
}

impl Text {
    /// The text of a string. A long string is taken over. Up to 22 bytes take no memory.
    pub fn new(alloc: Global, string: String) -> Result<Text, Memory>
        ensures text { IfOk result (λ t. t ≡ string_bytes string) }
        ensures room { length (string_bytes string) ≤ 22 → IsOk result }
    {
        if string.len() <= ROOM {
            return Text::from_str(alloc, string.as_str());
        }
        Ok(Text {
            kept: TextStorage::Long(Rc::new(alloc, string)?),
        })
    }

    /// A copy of a string slice. Up to 22 bytes take no memory.
    pub fn from_str(alloc: Global, text: &str) -> Result<Text, Memory>
        ensures text { IfOk result (λ t. t ≡ text.now) }
        ensures room { length text.now ≤ 22 → IsOk result }
    {
        let bytes = text.as_bytes();
        let len = bytes.len();
        if len > ROOM {
            let string = String::from_str(alloc, text)?;
            return Ok(Text {
                kept: TextStorage::Long(Rc::new(alloc, string)?),
            });
        }
        let mut room = [0u8; ROOM];
        room[..len].copy_from_slice(bytes);
        Ok(Text {
            kept: TextStorage::Short(len as u8, room),
        })
    }

    #[inline(always)]
    pub fn as_str(&self) -> &str
        ensures { result.now ≡ self.now }
    {
        match &self.kept {
            TextStorage::Short(len, room) => unsafe {
                str::from_utf8_unchecked(&room[..*len as usize])
            },
            TextStorage::Long(string) => string.as_str(),
        }
    }

    #[inline(always)]
    pub fn as_bytes(&self) -> &[u8]
        ensures { result.now ≡ self.now }
    {
        match &self.kept {
            TextStorage::Short(len, room) => &room[..*len as usize],
            TextStorage::Long(string) => string.as_bytes(),
        }
    }

    /// The text as a string. The string of a long text is given back where no copy shares it.
    pub fn into_string(self, alloc: Global) -> Result<String, Memory>
        ensures { IfOk result (λ string. string_bytes string ≡ self) }
    {
        match self.kept {
            TextStorage::Long(shared) => match Rc::try_unwrap(shared) {
                Ok(string) => Ok(string),
                Err(shared) => Ok(String::from_str(alloc, shared.as_str())?),
            },
            short => Ok(String::from_str(alloc, Text { kept: short }.as_str())?),
        }
    }

    /// The same text once more. This takes no memory, unless a long text has so many copies that
    /// they can't be counted.
    #[inline(always)]
    pub fn copy(&self, alloc: Global) -> Result<Text, Memory>
        ensures text { IfOk result (λ t. t ≡ self.now) }
        ensures room { length self.now ≤ 22 → IsOk result }
    {
        match &self.kept {
            TextStorage::Short(len, room) => Ok(Text {
                kept: TextStorage::Short(*len, *room),
            }),
            TextStorage::Long(string) => match Rc::clone(string) {
                Ok(shared) => Ok(Text {
                    kept: TextStorage::Long(shared),
                }),
                Err(_uncounted) => Text::from_str(alloc, string.as_str()),
            },
        }
    }

    /// How the bytes compare, which is how the code points compare.
    #[inline(always)]
    pub fn compare(&self, other: &Text) -> Ordering
        ensures { result ≡ slice_cmp nat_cmp self.now other.now }
    {
        match (&self.kept, &other.kept) {
            (TextStorage::Short(len, room), TextStorage::Short(more, others)) => {
                compare_short(*len, room, *more, others)
            }
            _ => self.as_str().cmp(other.as_str()),
        }
    }

    #[inline(always)]
    pub fn same(&self, other: &Text) -> bool
        ensures { IsTrue result ↔ (self.now ≡ other.now) }
    {
        self.as_str() == other.as_str()
    }
}

/// Eight bytes from this one on, as a number whose first byte counts most.
#[inline(always)]
fn word_at(room: &[u8; ROOM], at: usize) -> u64
    requires { at + 8 ≤ 22 }
    ensures { result ≡ from_be_bytes w64 (take 8 (drop at room.now)) }
{
    u64::from_be_bytes([
        room[at],
        room[at + 1],
        room[at + 2],
        room[at + 3],
        room[at + 4],
        room[at + 5],
        room[at + 6],
        room[at + 7],
    ])
}

/// How texts compare that are kept in themselves, each with zeros behind it: by words of eight
/// bytes, of which the last two overlap, and then by their lengths.
#[inline(always)]
fn compare_short(len: u8, room: &[u8; ROOM], more: u8, others: &[u8; ROOM]) -> Ordering
    requires left { IsPadded len room.now }
    requires right { IsPadded more others.now }
    ensures { result ≡ slice_cmp nat_cmp (take len room.now) (take more others.now) }
{
    match word_at(room, 0).cmp(&word_at(others, 0)) {
        Ordering::Equal => {}
        order => return order,
    }
    match word_at(room, 8).cmp(&word_at(others, 8)) {
        Ordering::Equal => {}
        order => return order,
    }
    match word_at(room, 14).cmp(&word_at(others, 14)) {
        Ordering::Equal => len.cmp(&more),
        order => order,
    }
}

impl fmt::Display for Text {
    fn fmt<W: fmt::Write>(&self, f: &mut fmt::Formatter<W>) -> fmt::Result {
        f.write_str(self.as_str())
    }
}

impl fmt::Debug for Text {
    fn fmt<W: fmt::Write>(&self, f: &mut fmt::Formatter<W>) -> fmt::Result {
        fmt::Debug::fmt(self.as_str(), f)
    }
}
