//! Tests of places by their paths, and of which layers make what is reported there.
#![tactic(auto)]

#[cfg(test)]
mod places;
#[cfg(test)]
mod why;
