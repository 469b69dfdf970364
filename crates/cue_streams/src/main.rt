//! Reads streams of requests to one new site each, with the replies and the end that each must
//! have, and tells where a session gives others. Each line is a JSON object: `stream` and
//! `replies` are in hexadecimal, `ends` is `whole`, `cut` or `FrameTooLong`, and `export` is a list
//! of the status and the bytes of an export of the site afterwards. Each stream is fed whole,
//! byte by byte and cut at random. `cue_streams FILE` reads a file.
#![tactic(auto)]

mod line;
mod run;

use anyhow::Context;
use line::{End, Line};
use run::{Cuts, agrees};
use std::{env, fs};

/// How many streams ended in each way, and how many runs were wrong.
#[derive(Drop)]
struct Counts {
    whole: u64,
    cut: u64,
    too_long: u64,
    wrong: u64,
}

impl Counts {
    fn new() -> Counts {
        Counts {
            whole: 0,
            cut: 0,
            too_long: 0,
            wrong: 0,
        }
    }

    fn add(&mut self, end: End) {
        match end {
            End::Whole => self.whole = self.whole.saturating_add(1),
            End::Cut => self.cut = self.cut.saturating_add(1),
            End::TooLong => self.too_long = self.too_long.saturating_add(1),
        }
    }
}

/// Feeds the stream of a line to new sites, cut in three ways, and tells which answers are others.
fn compare(rt: &HostRuntime, number: u64, text: &str, counts: &mut Counts) -> anyhow::Result<()> {
    let line = Line::read(rt.alloc(), text)?;
    counts.add(line.end);
    for cuts in [Cuts::None, Cuts::Everywhere, Cuts::AtRandom(number)] {
        if !agrees(rt.alloc(), &line, cuts)? {
            println!(rt; "line {number}, {}: another answer", cuts.name())?;
            counts.wrong = counts.wrong.saturating_add(1);
        }
    }
    Ok(())
}

fn main(rt: HostRuntime) -> anyhow::Result<()> {
    let path = env::args(&rt)?.nth(1).context("usage: cue_streams FILE")?;
    let all = fs::read_to_string(&rt, path.as_str())?;
    let mut counts = Counts::new();
    let mut number = 0u64;
    for text in all.as_str().lines() {
        number = number.saturating_add(1);
        compare(&rt, number, text, &mut counts)?;
    }
    print!(rt;
        "{number} streams, each cut in 3 ways: {} end between two frames, ",
        counts.whole
    )?;
    print!(rt;
        "{} within one, {} at a length that no frame has; ",
        counts.cut, counts.too_long
    )?;
    println!(rt; "{} wrong", counts.wrong)?;
    Ok(())
}
