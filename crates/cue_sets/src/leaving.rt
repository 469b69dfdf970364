//! Texts that leave a list, which is narrowed where it stands.
ghost use Rattle.std.specs.Prelude.{◌≡◌, ◌&&◌, ℕ, List, not};
ghost use Rattle.std.specs.Str.{bytes_eq};
ghost use Rattle.cue_sets.specs.Texts.{is_listed, IsAscending};

use cue_lattice::Text;

/// Takes a text out of an ascending list, where it is listed. It is found by a binary search.
fn remove(texts: &mut Vec<Text>, text: &Text)
    requires { IsAscending texts.old.items }
    ensures ascending { IsAscending texts.new.items }
    ensures listed { (other : List ℕ) → is_listed texts.new.items other
        ≡ (is_listed texts.old.items other && not (bytes_eq text.now other)) }
{
    if let Ok(at) = texts.binary_search_by(|listed| listed.as_bytes().cmp(text.as_bytes())) {
        texts.remove(at);
    }
}

/// Takes a few texts out of an ascending list, where they are listed.
pub(crate) fn remove_each(texts: &mut Vec<Text>, gone: &[Text])
    requires { IsAscending texts.old.items }
    ensures ascending { IsAscending texts.new.items }
    ensures listed { (other : List ℕ) → is_listed texts.new.items other
        ≡ (is_listed texts.old.items other && not (is_listed gone.now other)) }
{
    for text in gone {
        remove(texts, text);
    }
}
