//! Texts that join a list, which grows where it stands.
ghost use Rattle.std.specs.Prelude.{◌≡◌, ◌+◌, ◌≤◌, ◌<◌, ◌||◌, ℕ, List, []};
ghost use Rattle.std.specs.Str.{bytes_eq};
ghost use Rattle.std.specs.Vec.{vec_len, vec_capacity};
ghost use Rattle.cue_sets.specs.Texts.{is_listed, IsAscending};

use cue_lattice::Text;

/// Puts a text into an ascending list that has room for it, where it is not listed. Its place is
/// found by a binary search.
fn put(texts: &mut Vec<Text>, text: Text)
    requires ascending { IsAscending texts.old.items }
    requires room { vec_len texts.old < vec_capacity texts.old }
    ensures ascending { IsAscending texts.new.items }
    ensures listed { (other : List ℕ) → is_listed texts.new.items other
        ≡ (is_listed texts.old.items other || bytes_eq text other) }
    ensures len { vec_len texts.new ≤ vec_len texts.old + 1 }
    ensures capacity { vec_capacity texts.old ≤ vec_capacity texts.new }
{
    if let Err(at) = texts.binary_search_by(|listed| listed.as_bytes().cmp(text.as_bytes())) {
        // There is room, so that none is taken.
        texts.insert(at, text).ok();
    }
}

/// Puts texts into an ascending list that has room for them, where they are not listed.
pub(crate) fn put_each(texts: &mut Vec<Text>, more: Vec<Text>)
    requires ascending { IsAscending texts.old.items }
    requires room { vec_len texts.old + vec_len more ≤ vec_capacity texts.old }
    ensures ascending { IsAscending texts.new.items }
    ensures listed { (other : List ℕ) → is_listed texts.new.items other
        ≡ (is_listed texts.old.items other || is_listed more.items other) }
{
    for text in more {
        put(texts, text);
    }
}

/// Moves a list to where there is room, unless it has room for so many more where it is.
pub(crate) fn move_to_room(texts: &mut Vec<Text>, room: Vec<Text>, more: usize)
    requires empty { room.items ≡ [] }
    requires room { vec_len texts.old + more ≤ vec_capacity room }
    ensures items { texts.new.items ≡ texts.old.items }
    ensures room { vec_len texts.new + more ≤ vec_capacity texts.new }
{
    if more <= texts.capacity() - texts.len() {
        return;
    }
    let mut moved = room;
    // There is room, so that none is taken.
    moved.append(texts).ok();
    *texts = moved;
}
