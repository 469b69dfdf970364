//! The forms of the words of a token file.
ghost use Rattle.std.specs.Prelude.{◌≡◌, ◌↔◌, ℕ, List, IsTrue};
ghost use Rattle.cue_owners.specs.Files.{IsToken};
ghost use Rattle.cue_owners.specs.Patterns.{IsNameByte, IsName, IsKey, IsPattern, IsWide};

use crate::patterns::{before_end, behind_front, is_text};

fn is_name_byte(byte: u8) -> bool
    ensures { IsTrue result ↔ IsNameByte byte }
{
    byte.is_ascii_alphanumeric() || b"._-/".contains(&byte)
}

/// Whether a word is the name of an owner, or may be that of a layer.
pub(crate) fn is_name(word: &[u8]) -> bool
    ensures { IsTrue result ↔ IsName word.now }
{
    !word.is_empty() && word.iter().all(|byte| is_name_byte(*byte))
}

/// Whether a word may be a token.
pub(crate) fn is_token(word: &[u8]) -> bool
    ensures { IsTrue result ↔ IsToken word.now }
{
    word.iter().all(u8::is_ascii_graphic)
}

/// Whether a word is a layer or a policy by its name.
fn is_key(word: &[u8]) -> bool
    ensures { IsTrue result ↔ IsKey word.now }
{
    match behind_front(word, b"layers/") {
        Some(name) => is_name(name),
        None => match behind_front(word, b"policies/") {
            Some(name) => is_name(name),
            None => false,
        },
    }
}

/// Whether a word is a pattern that names no layer and no policy.
fn is_wide(word: &[u8]) -> bool
    ensures { IsTrue result ↔ IsWide word.now }
{
    is_text(word, b"*")
        || is_text(word, b"commons")
        || is_text(word, b"sync")
        || is_text(word, b"layers/*")
        || is_text(word, b"policies/*")
}

/// Whether a word is a pattern.
pub(crate) fn is_pattern(word: &[u8]) -> bool
    ensures { IsTrue result ↔ IsPattern word.now }
{
    if is_wide(word) || is_key(word) {
        return true;
    }
    match before_end(word, b"/*") {
        None => false,
        Some(key) => is_key(key),
    }
}
