//! Tests of sets, texts, tables, state bytes, reports and printed text, kept in a crate above those
//! that they try, so that none of these is proved a second time with its tests.
#![tactic(auto)]

#[cfg(test)]
mod outputs;
#[cfg(test)]
mod sets;
#[cfg(test)]
mod tables;
#[cfg(test)]
mod texts;
