ghost use Rattle.std.specs.Prelude.{◌≡◌, ◌≢◌, ◌↔◌, ◌++◌, ℕ, List, codes, IsTrue, MatchOption};
ghost use Rattle.cue_owners.specs.Patterns.{Fits};

/// Whether these are the same bytes.
pub(crate) fn is_text(word: &[u8], text: &[u8]) -> bool
    ensures { IsTrue result ↔ (word.now ≡ text.now) }
{
    word == text
}

/// What stands before this end.
pub(crate) fn before_end<'a>(word: &'a [u8], end: &[u8]) -> Option<&'a [u8]>
    ensures { MatchOption result ((front : List ℕ) → word.now ≢ front ++ end.now)
        (λ front. word.now ≡ front.now ++ end.now) }
{
    word.strip_suffix(end)
}

/// What stands behind this beginning.
pub(crate) fn behind_front<'a>(word: &'a [u8], front: &[u8]) -> Option<&'a [u8]>
    ensures { MatchOption result ((rest : List ℕ) → word.now ≢ front.now ++ rest)
        (λ rest. word.now ≡ front.now ++ rest.now) }
{
    word.strip_prefix(front)
}

/// Whether a target begins with these bytes and a slash.
fn is_below(front: &[u8], target: &[u8]) -> bool
    ensures { IsTrue result ↔ ((rest : List ℕ) × (target.now ≡ front.now ++ codes "/" ++ rest)) }
{
    match behind_front(target, front) {
        None => false,
        Some(rest) => match behind_front(rest, b"/") {
            None => false,
            Some(_) => true,
        },
    }
}

/// Whether a pattern fits a target.
pub(crate) fn fits(pattern: &[u8], target: &[u8]) -> bool
    ensures { IsTrue result ↔ Fits pattern.now target.now }
{
    if is_text(pattern, b"*") || is_text(pattern, target) {
        return true;
    }
    match before_end(pattern, b"/*") {
        None => false,
        Some(front) => is_below(front, target),
    }
}
