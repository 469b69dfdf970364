//! Tests of sessions, connections and hostile use, kept in a crate above those that they try, so
//! that none of these is proved a second time with its tests.
#![tactic(auto)]

#[cfg(test)]
mod hostile;
#[cfg(test)]
mod serve;
#[cfg(test)]
mod wire;
