//! Tests of the crates that say who may write and read. They stand in a crate above, so that the
//! crates below are not proved a second time with them.
#![tactic(auto)]

#[cfg(test)]
mod guards;
#[cfg(test)]
mod token_files;
