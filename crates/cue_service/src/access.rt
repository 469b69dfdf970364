ghost use Rattle.std.specs.Prelude.{◌≡◌, ◌↔◌, IsTrue};
ghost use Rattle.cue_service.specs.Access.{CarriesToken, IsBearer, MayWrite};

use bytes::Bytes;
use http::{Request, header};

/// The token that a request has to carry that hands something in.
#[derive(Drop)]
pub struct AccessToken {
    pub bytes: Vec<u8>,
}

/// Whether who sent a request may write: where a token is set, only with it.
pub(crate) fn may_write(token: &Option<AccessToken>, request: &Request<Bytes>) -> bool
    ensures { IsTrue result ↔ MayWrite token.now request.now }
{
    match token {
        None => true,
        Some(token) => carries_token(request, &token.bytes),
    }
}

fn carries_token(request: &Request<Bytes>, token: &[u8]) -> bool
    ensures { IsTrue result ↔ CarriesToken token.now request.now }
{
    match request.headers().get(header::AUTHORIZATION) {
        None => false,
        Some(value) => is_bearer(value.as_bytes(), token),
    }
}

/// Whether a field is `Bearer`, in any case, a space, and just this token.
fn is_bearer(field: &[u8], token: &[u8]) -> bool
    ensures { IsTrue result ↔ IsBearer token.now field.now }
{
    match field.split_at_checked(7) {
        None => false,
        Some((scheme, rest)) => {
            scheme.eq_ignore_ascii_case(b"bearer ") && same_bytes(rest, token)
        }
    }
}

/// Whether both are the same bytes. The time that it takes tells nothing but whether they are as
/// long as each other.
fn same_bytes(a: &[u8], b: &[u8]) -> bool
    ensures { IsTrue result ↔ (a.now ≡ b.now) }
{
    if a.len() != b.len() {
        return false;
    }
    let mut same = true;
    for i in 0..a.len() {
        same &= a[i] == b[i];
    }
    same
}
