//! Tests of policies, of maps of layers and of their views, kept in a crate above them, so that
//! neither is proved a second time with them.
#![tactic(auto)]

#[cfg(test)]
mod calls;
#[cfg(test)]
mod limits;
#[cfg(test)]
mod maps;
#[cfg(test)]
mod pieces;
#[cfg(test)]
mod starved;
#[cfg(test)]
mod views;
