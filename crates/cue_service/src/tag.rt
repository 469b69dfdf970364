ghost use Rattle.std.specs.Prelude.{◌≡◌, IfOk};
ghost use Rattle.cue_service.specs.Tags.{quoted_digest};

use bytes::Bytes;
use cue_lattice::Memory;
use http::HeaderValue;
use sha2::{Digest, Sha256};
use std::alloc::Global;

/// The tag of state bytes: their digest, in hexadecimal digits and quotes.
#[tactic(auto, unfolding(crate::specs::Tags::quoted_digest))]
pub fn tag_text(alloc: Global, state: &[u8]) -> Result<HeaderValue, Memory>
    ensures { IfOk result (λ tag. tag.bytes ≡ quoted_digest state.now) }
{
    let digits = hex::encode(alloc, Sha256::digest(state))?;
    let mut tag = Vec::new(alloc);
    tag.push(b'"')?;
    tag.extend_from_slice(digits.as_bytes())?;
    tag.push(b'"')?;
    Ok(HeaderValue::from_known_valid(Bytes::from_vec(tag)?))
}
