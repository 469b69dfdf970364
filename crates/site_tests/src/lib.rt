//! Tests of the crates of a site that stays up: each public call once, over disks in memory. They
//! stand in a crate above, so that the crates below are not proved a second time with them.
#![tactic(auto)]

#[cfg(test)]
mod journals;
#[cfg(test)]
mod pieces;
