//! Sites and what they answer, in functions that promise nothing, so that the tests above are
//! proved without all that the calls promise.
use cue_replica::{Kind, Memory, Refusal, Replica, lines};
use std::alloc::Global;

/// A site that has accepted a text.
pub fn site_of(alloc: Global, text: &str) -> Result<Replica, Refusal> {
    let mut site = Replica::new(alloc);
    site.submit(text)?;
    Ok(site)
}

/// A site that has taken these state bytes.
pub fn taken(alloc: Global, bytes: &[u8]) -> Result<Replica, Refusal> {
    let mut site = Replica::new(alloc);
    site.take(bytes)?;
    Ok(site)
}

/// Whether both sites have the same table.
pub fn are_same(left: &Replica, right: &Replica) -> bool {
    left.same(right)
}

/// Why a site refuses state bytes, where it does.
pub fn refusal(site: &mut Replica, bytes: &[u8]) -> Option<Kind> {
    match site.take(bytes) {
        Ok(()) => None,
        Err(why) => Some(why.kind),
    }
}

/// Whether a site has these state bytes.
pub fn has_state(alloc: Global, site: &Replica, bytes: &[u8]) -> Result<bool, Memory> {
    Ok(site.state(alloc)?.as_slice() == bytes)
}

/// The lines of the conflicts of a site, and then those of its gaps.
pub fn report(alloc: Global, site: &Replica) -> Result<String, Memory> {
    let conflicts = site.conflicts(alloc)?;
    let gaps = site.incomplete(alloc)?;
    lines(alloc, &conflicts, &gaps)
}
