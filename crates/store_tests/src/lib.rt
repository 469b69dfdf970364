//! Tests of sites over state bytes, limits and several sites. They stand in a crate above
//! `cue_replica`, so that it is not proved a second time with them. What one site answers to texts
//! stands in the archives of `cue_cases`.
#![tactic(auto)]

#[cfg(test)]
mod alike;
#[cfg(test)]
mod bytes;
#[cfg(test)]
mod limits;
#[cfg(test)]
mod pieces;
#[cfg(test)]
mod sites;
#[cfg(test)]
mod states;
#[cfg(test)]
mod worlds;
