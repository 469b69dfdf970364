//! Conditional requests: the entity tags that a request names.
ghost use Rattle.std.specs.Prelude.{◌≡◌, ◌≢◌, ◌≤◌, ◌↔◌, ◌++◌, ℕ, List, length, true, IsTrue, MatchOption};
ghost use Rattle.cue_service.specs.Conditions.{IsListed, HasTag, MatchesTag, NamesTag, NamesStrongTag};
ghost use Rattle.cue_service.specs.Conditions.{is_blank, begins_behind, ends_before};

use bytes::Bytes;
use http::Request;

/// Whether the first field `If-None-Match` names a tag, by the weak comparison, or any.
pub fn has_tag(request: &Request<Bytes>, tag: &[u8]) -> bool
    ensures { IsTrue result ↔ HasTag tag.now request.now }
{
    match request.headers().get("if-none-match") {
        Some(field) => names_tag(field.as_bytes(), tag),
        None => false,
    }
}

/// Whether the first field `If-Match` names a tag, by the strong comparison, or any. A request without
/// one matches each tag.
pub fn matches_tag(request: &Request<Bytes>, tag: &[u8]) -> bool
    ensures { IsTrue result ↔ MatchesTag tag.now request.now }
{
    match request.headers().get("if-match") {
        Some(field) => names_strong_tag(field.as_bytes(), tag),
        None => true,
    }
}

fn names_tag(field: &[u8], tag: &[u8]) -> bool
    ensures { IsTrue result ↔ NamesTag tag.now field.now }
{
    names_strong_tag(field, tag) || lists(field, b"W/", tag)
}

fn names_strong_tag(field: &[u8], tag: &[u8]) -> bool
    ensures { IsTrue result ↔ NamesStrongTag tag.now field.now }
{
    lists(field, b"", b"*") || lists(field, b"", tag)
}

/// Whether an element stands in a list.
fn lists(field: &[u8], mark: &[u8], tag: &[u8]) -> bool
    ensures { IsTrue result ↔ IsListed (mark.now ++ tag.now) field.now }
{
    for at in 0..field.len() + 1 {
        if lists_at(field, at, mark, tag) {
            return true;
        }
    }
    false
}

/// Whether an element stands in a list, behind so many bytes.
fn lists_at(field: &[u8], at: usize, mark: &[u8], tag: &[u8]) -> bool
    requires { at ≤ length field.now }
    ensures { IsTrue result ↔ ((listed : IsListed (mark.now ++ tag.now) field.now) × (length listed.before ≡ at)) }
{
    let (before, rest) = field.split_at(at);
    if !is_begin(before) {
        return false;
    }
    is_in_front(rest, mark, tag)
}

/// Whether bytes begin with an element.
fn is_in_front(rest: &[u8], mark: &[u8], tag: &[u8]) -> bool
    ensures { IsTrue result ↔ ((behind : List ℕ) × (rest.now ≡ mark.now ++ tag.now ++ behind) × IsTrue (ends_before behind)) }
{
    let Some(rest) = behind(rest, mark) else {
        return false;
    };
    match behind(rest, tag) {
        Some(behind) => is_end(behind),
        None => false,
    }
}

/// What stands behind a front.
fn behind<'a>(bytes: &'a [u8], front: &[u8]) -> Option<&'a [u8]>
    ensures { MatchOption result ((rest : List ℕ) → bytes.now ≢ front.now ++ rest) (λ rest. bytes.now ≡ front.now ++ rest.now) }
{
    bytes.strip_prefix(front)
}

/// Whether an element of a list may begin behind these bytes.
fn is_begin(before: &[u8]) -> bool
    ensures { result ≡ begins_behind true before.now }
{
    let mut begins = true;
    for byte in before {
        begins = *byte == b',' || (is_blank(*byte) && begins);
    }
    begins
}

/// Whether an element of a list may end before these bytes.
fn is_end(behind: &[u8]) -> bool
    ensures { result ≡ ends_before behind.now }
{
    for byte in behind {
        if *byte == b',' {
            return true;
        }
        if !is_blank(*byte) {
            return false;
        }
    }
    true
}

fn is_blank(byte: u8) -> bool
    ensures { result ≡ is_blank byte }
{
    byte == b' ' || byte == b'\t'
}
