//! Runs parts of the store on long inputs, to see how their cost grows.
//!
//! Without arguments it runs each part on small inputs and prints what comes of them. Else the
//! first word names the part, and what the others mean is told where the part is:
//! - `sets OP COUNT ROUNDS`: two large sets are combined.
//! - `unify WORK SHAPE ROWS ROUNDS`: tables are unified into a large one.
//! - `tables WORK SHAPE COUNT ROUNDS`: a large table is written, read, printed or reported on.
//! - `scope FILE ROUNDS`: the names of a long text are resolved.
//! - `eval FILE ROUNDS`: a long text is evaluated.
#![tactic(auto)]

mod fault;
mod sets;
mod tables;
mod texts;
mod unify;

use crate::fault::Fault;
use anyhow::Error;
use std::env;

/// What came of the part that the words name.
fn run_part(rt: &HostRuntime, part: &str, words: &[String]) -> Result<String, Error> {
    let alloc = rt.alloc();
    match part {
        "sets" => sets::run_part(alloc, words),
        "unify" => unify::run_part(alloc, words),
        "tables" => tables::run_part(alloc, words),
        "scope" | "eval" => texts::run_part(rt, part, words),
        _ => Err(Fault::Usage.into()),
    }
}

fn main(rt: HostRuntime) -> Result<(), Error> {
    let alloc = rt.alloc();
    let mut words = Vec::new(alloc);
    for word in env::args(&rt)? {
        words.push(word)?;
    }
    if let [_, part, given @ ..] = words.as_slice() {
        println!(rt; "{}", run_part(&rt, part.as_str(), given)?)?;
        return Ok(());
    }
    println!(rt; "{}", sets::samples(alloc)?)?;
    println!(rt; "{}", unify::samples(alloc)?)?;
    println!(rt; "{}", tables::samples(alloc)?)?;
    println!(rt; "{}", texts::samples(alloc)?)?;
    Ok(())
}
