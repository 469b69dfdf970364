//! Cases of one new site: some inputs, and the answers that it must give then. An archive has the
//! extension `.txtar`; each line of any other file is a case. The printed text of each site, also of
//! one that refused an input, goes to another site, which must then have equal state bytes.
mod again;
mod archive;
mod counts;
mod list;
mod site;

use crate::lists::again::{Reading, read_again};
use crate::lists::archive::{Case, cases};
use crate::lists::counts::Counts;
use crate::lists::list::{agrees, inputs_of};
use crate::lists::site::{answer, document, take_all, written};
use anyhow::Context;
use cue_program::{Replica, RunError, SiteQuestion};
use serde_json::Value;
use std::fs;

/// What is asked of each site, with its name in lists and archives.
const QUESTIONS: [(SiteQuestion, &str); 4] = [
    (SiteQuestion::Export, "export"),
    (SiteQuestion::Report, "report"),
    (SiteQuestion::Print, "print"),
    (SiteQuestion::State, "state"),
];

/// Asks a new site that was handed the inputs of a line, and tells which answers are others, and
/// whether its printed text is read otherwise.
fn compare_line(
    rt: &HostRuntime,
    number: usize,
    line: &str,
    counts: &mut Counts,
) -> anyhow::Result<()> {
    let alloc = rt.alloc();
    let list = Value::from_str(alloc, line)?;
    let inputs = inputs_of(alloc, &list)?;
    let mut site = Replica::new(alloc);
    let came = take_all(alloc, &mut site, &inputs);
    for (question, name) in QUESTIONS {
        let reply = answer(alloc, question, &site, came)?;
        if question == SiteQuestion::Export {
            counts.add(reply.status);
        }
        let agrees = agrees(alloc, &list, name, question, &reply)?;
        if !agrees {
            println!(rt; "line {number}: {name} is another")?;
        }
        counts.add_answer(agrees);
    }
    compare_reading(rt, &site, counts)
}

/// Reads the printed text of a site again, and tells where that gives another state.
fn compare_reading(rt: &HostRuntime, site: &Replica, counts: &mut Counts) -> anyhow::Result<()> {
    let reading = read_again(rt.alloc(), site).ok().context("out of memory")?;
    if reading == Reading::Wrong {
        println!(rt; "the printed text of the case before this one is read otherwise:")?;
    }
    counts.readings.add(reading);
    Ok(())
}

/// Compares an answer with what the case has under its name, where it has one.
fn compare_answer(
    rt: &HostRuntime,
    case: &Case,
    name: &str,
    found: &str,
    counts: &mut Counts,
) -> anyhow::Result<()> {
    if let Some(wanted) = case.wanted(name) {
        if found != wanted {
            println!(rt; "{}: {name} is another:\n{found}", case.name)?;
        }
        counts.add_answer(found == wanted);
    }
    Ok(())
}

/// Asks a new site that was handed the inputs of a case, and tells which answers are others, and
/// whether its printed text is read otherwise.
fn compare_case(rt: &HostRuntime, case: &Case, counts: &mut Counts) -> anyhow::Result<()> {
    let alloc = rt.alloc();
    let mut site = Replica::new(alloc);
    let came: Result<(), RunError> = take_all(alloc, &mut site, &case.inputs(alloc)?);
    for (question, name) in QUESTIONS {
        let reply = answer(alloc, question, &site, came)?;
        if question == SiteQuestion::Export {
            counts.add(reply.status);
        }
        let mut found = written(alloc, question, &reply)?;
        if question == SiteQuestion::State && reply.status == 0 {
            // An archive has the digits as a line.
            found.push('\n')?;
        }
        compare_answer(rt, case, name, found.as_str(), counts)?;
    }
    let document = document(alloc, &site)?;
    compare_answer(rt, case, "document", document.as_str(), counts)?;
    compare_reading(rt, &site, counts)
}

/// Compares the cases of a file, of a form that its name tells.
fn compare_file(rt: &HostRuntime, path: &str, counts: &mut Counts) -> anyhow::Result<()> {
    let all = fs::read_to_string(rt, path)?;
    if path.ends_with(".txtar") {
        for case in &cases(rt.alloc(), all.as_str())? {
            compare_case(rt, case, counts)?;
        }
        return Ok(());
    }
    let mut number = 0usize;
    for line in all.as_str().lines() {
        number = number.saturating_add(1);
        compare_line(rt, number, line, counts)?;
    }
    Ok(())
}

/// Compares the cases of a file, and prints which answers are others and how the cases ended.
pub(crate) fn compare_all(rt: &HostRuntime, path: &str) -> anyhow::Result<()> {
    let mut counts = Counts::new();
    compare_file(rt, path, &mut counts)?;
    println!(rt; "{path}: {counts}")?;
    Ok(())
}
