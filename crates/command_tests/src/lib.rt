//! Tests of the words of the command line: what is printed on words, inputs, files and devices, and
//! how a run ends. What a text must be answered is a case of `cue_cases`.
#![tactic(auto)]

#[cfg(test)]
mod devices;
#[cfg(test)]
mod disk;
#[cfg(test)]
mod files;
#[cfg(test)]
mod help;
#[cfg(test)]
mod long_files;
#[cfg(test)]
mod network;
#[cfg(test)]
mod orders;
#[cfg(test)]
mod pieces;
#[cfg(test)]
mod refusals;
#[cfg(test)]
mod runs;
#[cfg(test)]
mod states;
#[cfg(test)]
mod texts;
#[cfg(test)]
mod words;
