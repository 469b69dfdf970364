//! Which labels are patterns, and which labels a pattern fits.
ghost use Rattle.std.specs.Prelude.{◌↔◌, IsTrue};
ghost use Rattle.cue_policies.specs.Patterns.{MatchesPattern, IsPattern};

/// Whether a label of a policy is a pattern: it ends in `*`.
pub fn is_pattern(label: &str) -> bool
    ensures { IsTrue result ↔ IsPattern label.now }
{
    match label.as_bytes().split_last() {
        Some((last, _stem)) => *last == b'*',
        None => false,
    }
}

/// Whether a label begins with what precedes the `*` of a pattern.
pub fn fits(pattern: &str, label: &str) -> bool
    ensures { IsTrue result ↔ MatchesPattern pattern.now label.now }
{
    match pattern.as_bytes().split_last() {
        Some((last, stem)) => *last == b'*' && label.as_bytes().starts_with(stem),
        None => false,
    }
}
