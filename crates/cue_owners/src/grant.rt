ghost use Rattle.std.specs.Prelude.{◌≡◌, ◌↔◌, ◌++◌, [], ◌∷◌, ℕ, List, map, IsTrue, IfOk, IfSome, IfNone, All, Any};
ghost use Rattle.cue_owners.specs.Files.{IsRow, AreRows, lone_row, rows_of};
ghost use Rattle.cue_owners.specs.Grants.{row_of, token_of};
ghost use Rattle.cue_owners.specs.Patterns.{Fits, IsName, IsPattern};

use crate::forms::{is_name, is_pattern, is_token};
use crate::patterns::{fits, is_text};
use crate::words::words_in;
use std::alloc::{AllocError, Global};

/// What a token may write, and whose it is.
#[derive(Drop)]
pub struct Grant {
    pub owner: String,
    pub token: Vec<u8>,
    pub patterns: Vec<Vec<u8>>,
}

/// Whether one of these patterns fits a target.
pub(crate) fn any_fits(patterns: &[Vec<u8>], target: &[u8]) -> bool
    ensures { IsTrue result ↔ Any (λ pattern. Fits pattern.items target.now) patterns.now }
{
    for pattern in patterns {
        if fits(pattern, target) {
            return true;
        }
    }
    false
}

/// The grants of a file that is one token, which may write all.
pub(crate) fn lone_grants(alloc: Global, token: &[u8]) -> Result<Vec<Grant>, AllocError>
    ensures { IfOk result (λ grants. map row_of grants.items ≡ lone_row token.now ∷ []) }
{
    let mut patterns = Vec::new(alloc);
    patterns.push(Vec::from_slice(alloc, b"*")?)?;
    let mut grants = Vec::new(alloc);
    grants.push(Grant {
        owner: String::from_str(alloc, "*")?,
        token: Vec::from_slice(alloc, token)?,
        patterns,
    })?;
    Ok(grants)
}

fn are_patterns(words: &[&[u8]]) -> bool
    ensures { IsTrue result ↔ All IsPattern (map (λ word. word.now) words.now) }
{
    for word in words {
        if !is_pattern(word) {
            return false;
        }
    }
    true
}

/// Whether these are the words of a line.
fn is_row(owner: &[u8], token: &[u8], patterns: &[&[u8]]) -> bool
    ensures { IsTrue result ↔ IsRow (owner.now ∷ token.now ∷ map (λ word. word.now) patterns.now) }
{
    if !is_name(owner) {
        return false;
    }
    if !is_token(token) {
        return false;
    }
    if patterns.is_empty() {
        return false;
    }
    are_patterns(patterns)
}

/// A copy of each word.
fn copies(alloc: Global, words: &[&[u8]]) -> Result<Vec<Vec<u8>>, AllocError>
    ensures { IfOk result (λ all. map (λ one. one.items) all.items ≡ map (λ word. word.now) words.now) }
{
    let mut all = Vec::new(alloc);
    for word in words {
        all.push(Vec::from_slice(alloc, word)?)?;
    }
    Ok(all)
}

/// The grant of these words.
fn copy_row(
    alloc: Global,
    owner: &[u8],
    token: &[u8],
    patterns: &[&[u8]],
) -> Result<Grant, AllocError>
    ensures { IfOk result (λ grant. IsName owner.now
        → row_of grant ≡ owner.now ∷ token.now ∷ map (λ word. word.now) patterns.now) }
{
    Ok(Grant {
        owner: String::from_utf8_lossy(alloc, owner)?,
        token: Vec::from_slice(alloc, token)?,
        patterns: copies(alloc, patterns)?,
    })
}

/// The grant of the words of a line, where they are OWNER TOKEN PATTERN...
fn grant_of(alloc: Global, words: &[&[u8]]) -> Result<Option<Grant>, AllocError>
    ensures some { IfOk result (λ found. IfSome found (λ grant. row_of grant ≡ map (λ word. word.now) words.now)) }
    ensures row { IfOk result (λ found. IfSome found (λ _. IsRow (map (λ word. word.now) words.now))) }
    ensures none { IfOk result (λ found. IfNone found (¬ IsRow (map (λ word. word.now) words.now))) }
{
    let Some((owner, rest)) = words.split_first() else {
        return Ok(None);
    };
    let Some((token, patterns)) = rest.split_first() else {
        return Ok(None);
    };
    if !is_row(owner, token, patterns) {
        return Ok(None);
    }
    Ok(Some(copy_row(alloc, owner, token, patterns)?))
}

/// Whether one of these grants has this token.
fn has_token(grants: &[Grant], token: &[u8]) -> bool
    ensures { IsTrue result ↔ Any (λ grant. token_of grant ≡ token.now) grants.now }
{
    for grant in grants {
        if is_text(&grant.token, token) {
            return true;
        }
    }
    false
}

/// Adds the grant of the words of a line, where they are right behind those of these grants. Answers
/// whether they are.
fn add_row(alloc: Global, grants: &mut Vec<Grant>, words: &[&[u8]]) -> Result<bool, AllocError>
    ensures added { IfOk result (λ right. IsTrue right
        → map row_of grants.new.items ≡ map row_of grants.old.items ++ map (λ word. word.now) words.now ∷ []) }
    ensures right { IfOk result (λ right. IsTrue right → AreRows (map row_of grants.old.items)
        → AreRows (map row_of grants.old.items ++ map (λ word. word.now) words.now ∷ [])) }
    ensures wrong { IfOk result (λ right. ¬ IsTrue right
        → ¬ AreRows (map row_of grants.old.items ++ map (λ word. word.now) words.now ∷ [])) }
{
    let Some(grant) = grant_of(alloc, words)? else {
        return Ok(false);
    };
    if has_token(grants, &grant.token) {
        return Ok(false);
    }
    grants.push(grant)?;
    Ok(true)
}

/// Adds the grant of a line, if it has words. Answers whether the line is right behind these grants.
pub(crate) fn add_line(
    alloc: Global,
    grants: &mut Vec<Grant>,
    line: &[u8],
) -> Result<bool, AllocError>
    ensures added { IfOk result (λ right. IsTrue right
        → map row_of grants.new.items ≡ map row_of grants.old.items ++ rows_of (line.now ∷ [])) }
    ensures right { IfOk result (λ right. IsTrue right → AreRows (map row_of grants.old.items)
        → AreRows (map row_of grants.old.items ++ rows_of (line.now ∷ []))) }
    ensures wrong { IfOk result (λ right. ¬ IsTrue right
        → ¬ AreRows (map row_of grants.old.items ++ rows_of (line.now ∷ []))) }
{
    let words = words_in(alloc, line)?;
    if words.is_empty() {
        return Ok(true);
    }
    add_row(alloc, grants, &words)
}
