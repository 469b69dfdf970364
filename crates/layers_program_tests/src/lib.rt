//! Tests of what the program of layers does with its inputs, over files in memory.
#![tactic(auto)]

#[cfg(test)]
mod answers;
#[cfg(test)]
mod changes;
#[cfg(test)]
mod desk;
#[cfg(test)]
mod refusals;
