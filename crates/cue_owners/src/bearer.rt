ghost use Rattle.std.specs.Prelude.{◌≡◌, ◌↔◌, IsTrue};
ghost use Rattle.cue_owners.specs.Bearers.{IsBearer};

/// Whether a field is `Bearer`, in any case, a space, and just this token.
pub(crate) fn is_bearer(field: &[u8], token: &[u8]) -> bool
    ensures { IsTrue result ↔ IsBearer token.now field.now }
{
    match field.split_at_checked(7) {
        None => false,
        Some((scheme, rest)) => {
            scheme.eq_ignore_ascii_case(b"bearer ") && same_bytes(rest, token)
        }
    }
}

/// Whether both are the same bytes. The time that it takes tells nothing but whether they are as
/// long as each other.
fn same_bytes(a: &[u8], b: &[u8]) -> bool
    ensures { IsTrue result ↔ (a.now ≡ b.now) }
{
    if a.len() != b.len() {
        return false;
    }
    let mut same = true;
    for i in 0..a.len() {
        same &= a[i] == b[i];
    }
    same
}
