//! Tokens that requests need.
ghost use Rattle.std.specs.Prelude.{◌≡◌, ◌↔◌, ◌⊎◌, ℕ, List, IsTrue, IsSome, IfOk, IfSome, IfNone, drop};
ghost use Rattle.cue_doors.specs.Requests.{IsReading};
ghost use Rattle.cue_doors.specs.Tokens.{CarriesToken, IsLocked, IsProbe, Knows, LetsWrite, NeedsToken, credentials_of, posts_piece, target_of};

use crate::doors::{field, is_reading};
use bytes::Bytes;
use cue_owners::Owners;
use http::Request;
use percent_encoding::percent_decode;
use std::alloc::{AllocError, Global};

/// The tokens that a site knows.
#[derive(Drop)]
pub struct Keys {
    /// Those of writers. Without them anybody may write.
    pub writers: Option<Owners>,
    /// Those of readers, who may read alone. Without them anybody may read. Else writers may, too.
    pub readers: Option<Owners>,
}

/// Why a request is not let in for its token.
#[derive(Clone, Copy, Debug, PartialEq, Eq)]
pub enum KeyRefusal {
    /// It needs a token, and carries none that is known: 401.
    Unauthorized,
    /// It writes what its token may not: 403.
    Forbidden,
}

impl Keys {
    /// Why a request is not let in, if it is not.
    pub fn bar(
        &self,
        alloc: Global,
        request: &Request<Bytes>,
    ) -> Result<Option<KeyRefusal>, AllocError>
        ensures some { IfOk result (λ found. IfSome found (IsLocked self.now request.now)) }
        ensures none { IfOk result (λ found. IfNone found ((bar : KeyRefusal) → ¬ IsLocked self.now request.now bar)) }
    {
        if !self.need_token(request) {
            return Ok(None);
        }
        if !self.know_sender(request) {
            return Ok(Some(KeyRefusal::Unauthorized));
        }
        if is_reading(request) || self.let_write(alloc, request)? {
            return Ok(None);
        }
        Ok(Some(KeyRefusal::Forbidden))
    }

    fn need_token(&self, request: &Request<Bytes>) -> bool
        ensures { IsTrue result ↔ NeedsToken self.now request.now }
    {
        if is_reading(request) {
            return !is_probe(request) && self.readers.is_some();
        }
        self.writers.is_some()
    }

    /// Whether a request carries a token that is known.
    fn know_sender(&self, request: &Request<Bytes>) -> bool
        ensures { IsTrue result ↔ CarriesToken self.now request.now }
    {
        let credentials = credentials_in(request);
        know(&self.writers, credentials) || know(&self.readers, credentials)
    }

    /// Whether the token of a request may write what the request does.
    fn let_write(&self, alloc: Global, request: &Request<Bytes>) -> Result<bool, AllocError>
        ensures { IfOk result (λ may. IsTrue may
            ↔ LetsWrite self.now.writers (credentials_of request.now) (target_of request.now)) }
    {
        match &self.writers {
            None => Ok(true),
            Some(writers) => {
                let target = target_in(alloc, request)?;
                Ok(writers.lets_write(credentials_in(request), &target))
            }
        }
    }
}

/// Whether a field has a token of this file.
fn know(owners: &Option<Owners>, field: &[u8]) -> bool
    ensures { IsTrue result ↔ Knows owners.now field.now }
{
    match owners {
        None => false,
        Some(owners) => owners.knows(field),
    }
}

/// Whether a request asks if the site is up, or ready.
fn is_probe(request: &Request<Bytes>) -> bool
    ensures { IsTrue result ↔ IsProbe request.now }
{
    let path = request.uri().path();
    path == "/healthz" || path == "/readyz"
}

/// The field `Authorization`, or no bytes.
fn credentials_in<'a>(request: &'a Request<Bytes>) -> &'a [u8]
    ensures { result.now ≡ credentials_of request.now }
{
    match field(request, "authorization") {
        None => b"",
        Some(value) => value,
    }
}

/// Whether a request posts a piece of the commons.
fn posts_piece(request: &Request<Bytes>) -> bool
    ensures { result ≡ posts_piece request.now }
{
    let path = request.uri().path();
    request.method().as_str() == "POST" && (path == "/fragments" || path == "/state")
}

/// What a request writes, as the patterns of a token file name it.
fn target_in(alloc: Global, request: &Request<Bytes>) -> Result<Vec<u8>, AllocError>
    ensures { IfOk result (λ target. target.items ≡ target_of request.now) }
{
    if posts_piece(request) {
        return Vec::from_slice(alloc, b"commons");
    }
    let mut target = Vec::new(alloc);
    percent_decode(behind_slash(request.uri().path().as_bytes())).append_to(&mut target)?;
    Ok(target)
}

/// What is behind the first byte of a path, which is a slash.
fn behind_slash(path: &[u8]) -> &[u8]
    ensures { result.now ≡ drop 1 path.now }
{
    match path.split_first() {
        None => path,
        Some((_, rest)) => rest,
    }
}
