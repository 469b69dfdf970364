//! Tests of the arguments of the program of layers: what is printed for them over files in memory,
//! and how a run ends.
#![tactic(auto)]

#[cfg(test)]
mod answers;
#[cfg(test)]
mod desk;
#[cfg(test)]
mod help;
#[cfg(test)]
mod refusals;
#[cfg(test)]
mod runs;
#[cfg(test)]
mod usage;
