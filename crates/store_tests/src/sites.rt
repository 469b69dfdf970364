//! Sites that were handed texts and state bytes.
//!
//! Each call of a site stands in a function of its own, which promises nothing: so the tests that
//! use these are proved without all that the calls promise.
use cue_replica::{Memory, Refusal, Replica};
use std::alloc::Global;

/// What is handed to a site.
#[derive(Clone, Copy)]
pub enum Input<'a> {
    Text(&'a str),
    State(&'a [u8]),
}

/// A site that has accepted nothing.
pub fn new_site(alloc: Global) -> Replica {
    Replica::new(alloc)
}

/// Hands an input to a site.
pub fn hand(site: &mut Replica, input: Input) -> Result<(), Refusal> {
    match input {
        Input::Text(text) => site.submit(text),
        Input::State(bytes) => site.take(bytes),
    }
}

/// A site that has accepted these inputs.
pub fn site(alloc: Global, inputs: &[Input]) -> Result<Replica, Refusal> {
    let mut site = new_site(alloc);
    for input in inputs {
        hand(&mut site, *input)?;
    }
    Ok(site)
}

/// How many bytes the state of a site has.
pub fn state_size(site: &Replica) -> u64 {
    site.state_size()
}

/// The lines of a site's report.
pub fn report(alloc: Global, site: &Replica) -> Result<String, Memory> {
    let mut lines = String::new(alloc);
    site.write_conflicts(alloc, &mut lines)?;
    site.write_gaps(alloc, &mut lines)?;
    Ok(lines)
}

/// The state bytes of a site.
fn state(alloc: Global, site: &Replica) -> Result<Vec<u8>, Memory> {
    site.state(alloc)
}

/// Whether a site has these state bytes.
pub fn has_state(alloc: Global, site: &Replica, bytes: &[u8]) -> Result<bool, Memory> {
    Ok(state(alloc, site)?.as_slice() == bytes)
}

/// Whether both sites have the same table.
pub fn are_same(left: &Replica, right: &Replica) -> bool {
    left.same(right)
}
