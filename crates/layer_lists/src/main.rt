//! Compares what sites with layers hold after lists of events with what they must hold, and prints
//! where it differs. Each line of a list is a JSON object: `sites` is how many sites there are,
//! `events` what happens, `outcomes` what each event must come to, and `at` what each site must hold
//! in the end. `layer_lists FILE` reads a file.
#![tactic(auto)]

mod counts;
mod event;
mod holding;
mod world;

use anyhow::Context;
use counts::Counts;
use event::event_of;
use holding::differences;
use serde_json::Value;
use std::{env, fs};
use world::World;

/// The rows that a view may have where a line names no limit.
const LIMIT: u64 = 10_000_000;

/// Lets the events of a line happen, and compares their outcomes and what the sites hold then.
fn compare(rt: &HostRuntime, number: usize, line: &str, counts: &mut Counts) -> anyhow::Result<()> {
    let alloc = rt.alloc();
    let list = Value::from_str(alloc, line)?;
    let sites = list
        .get("sites")
        .and_then(Value::as_u64)
        .context("a line without sites")?;
    let limit = list.get("limit").and_then(Value::as_u64).unwrap_or(LIMIT);
    let mut world = World::new(alloc, sites)?;
    let outcomes = members(&list, "outcomes")?;
    for (event, owed) in members(&list, "events")?.iter().zip(outcomes) {
        let found = world.happen(alloc, &event_of(alloc, event)?)?.text(alloc)?;
        let is_owed = owed.to_string(alloc)?.as_str() == found.as_str();
        if !is_owed {
            println!(rt; "line {number}: an event comes to {found}")?;
        }
        counts.add_outcome(is_owed);
    }
    for (site, owed) in world.sites.iter().zip(members(&list, "at")?) {
        let wrong = differences(alloc, site, owed, limit)?;
        for what in &wrong {
            println!(rt; "line {number}: {what}")?;
        }
        counts.add_site(wrong.is_empty());
    }
    Ok(())
}

/// The list of a line that has this name.
fn members<'v>(list: &'v Value, name: &str) -> anyhow::Result<&'v [Value]> {
    let found = list
        .get(name)
        .and_then(Value::as_array)
        .context("a line without one of its lists")?;
    Ok(found.as_slice())
}

fn main(rt: HostRuntime) -> anyhow::Result<()> {
    let path = env::args(&rt)?.nth(1).context("usage: layer_lists FILE")?;
    let all = fs::read_to_string(&rt, path.as_str())?;
    let mut counts = Counts::new();
    let mut number = 0usize;
    for line in all.as_str().lines() {
        number = number.saturating_add(1);
        compare(&rt, number, line, &mut counts)?;
    }
    println!(&rt; "{number} lists: {counts}")?;
    Ok(())
}
