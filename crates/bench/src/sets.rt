//! Combines two large sets of integers, to see how the time grows with their size.
//!
//! The samples are how many pieces each combination of sets of 1,000 pieces has. With the words OP
//! COUNT ROUNDS, where OP is `meet`, `union` or `without`, two sets of COUNT pieces are combined
//! ROUNDS times, and it is told how many pieces the last answer has; where OP is `meet_all`, COUNT
//! sets are unified, each of which lacks one integer.
use crate::fault::{Fault, number};
use anyhow::Error;
use cue_lattice::{Memory, meet_all};
use cue_sets::IntSet;
use std::alloc::Global;

/// The pieces from `8 k + first` to `8 k + last` for each k from `from` up to `to`, made in
/// balance.
fn spaced(alloc: Global, from: u32, to: u32, first: u8, last: u8) -> Result<IntSet, Memory> {
    if to <= from {
        return Ok(IntSet::empty(alloc));
    }
    if to - from == 1 {
        let start = i64::from(from) * 8;
        let low = IntSet::at_least(start + i64::from(first));
        return low.meet(alloc, &IntSet::at_most(start + i64::from(last)));
    }
    let middle = from + (to - from) / 2;
    let front = spaced(alloc, from, middle, first, last)?;
    front.union(alloc, &spaced(alloc, middle, to, first, last)?)
}

/// How two sets are combined.
#[derive(Clone, Copy)]
enum Operation {
    Meet,
    Union,
    Without,
}

impl Operation {
    const ALL: [Operation; 3] = [Operation::Meet, Operation::Union, Operation::Without];

    fn name(self) -> &'static str {
        match self {
            Operation::Meet => "meet",
            Operation::Union => "union",
            Operation::Without => "without",
        }
    }

    fn named(name: &str) -> Option<Operation> {
        match name {
            "meet" => Some(Operation::Meet),
            "union" => Some(Operation::Union),
            "without" => Some(Operation::Without),
            _ => None,
        }
    }

    fn of(self, alloc: Global, left: &IntSet, right: &IntSet) -> Result<IntSet, Memory> {
        match self {
            Operation::Meet => left.meet(alloc, right),
            Operation::Union => left.union(alloc, right),
            Operation::Without => left.without(alloc, right),
        }
    }
}

/// How many pieces the combination of two sets of so many pieces has.
fn count(alloc: Global, operation: Operation, pieces: u32, rounds: u32) -> Result<usize, Memory> {
    let left = spaced(alloc, 0, pieces, 0, 4)?;
    let right = spaced(alloc, 0, pieces, 3, 6)?;
    let mut count = 0;
    for _round in 0..rounds {
        count = operation.of(alloc, &left, &right)?.pieces().len();
    }
    Ok(count)
}

/// How many pieces the unification of so many sets has, each of which lacks one integer.
fn count_of_all(alloc: Global, sets: u32, rounds: u32) -> Result<usize, Memory> {
    let mut all = Vec::new(alloc);
    for at in 0..sets {
        all.push(IntSet::but(alloc, i64::from(at) * 8)?)?;
    }
    let mut count = 0;
    for _round in 0..rounds {
        count = meet_all(alloc, all.as_slice())?.pieces().len();
    }
    Ok(count)
}

/// How many pieces the answer has that the operation of this name gives.
fn count_named(alloc: Global, name: &str, pieces: u32, rounds: u32) -> Result<usize, Error> {
    if name == "meet_all" {
        return Ok(count_of_all(alloc, pieces, rounds)?);
    }
    let operation = Operation::named(name).ok_or(Fault::Usage)?;
    Ok(count(alloc, operation, pieces, rounds)?)
}

/// How many pieces the answer has that the words ask for.
pub fn run_part(alloc: Global, words: &[String]) -> Result<String, Error> {
    if words.len() < 3 {
        return Err(Fault::Usage.into());
    }
    let pieces = number(words[1].as_str())?;
    let rounds = number(words[2].as_str())?;
    let count = count_named(alloc, words[0].as_str(), pieces, rounds)?;
    Ok(format!(in alloc; "{count}")?)
}

/// How many pieces the combinations of small sets have, a line for each.
pub fn samples(alloc: Global) -> Result<String, Memory> {
    let mut out = String::new(alloc);
    for operation in Operation::ALL {
        let pieces = count(alloc, operation, 1000, 1)?;
        let line = format!(in alloc; "{} {pieces}\n", operation.name())?;
        out.push_str(line.as_str())?;
    }
    let all = format!(in alloc; "meet_all {}", count_of_all(alloc, 1000, 1)?)?;
    out.push_str(all.as_str())?;
    Ok(out)
}
