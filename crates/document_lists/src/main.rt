//! Reads lists of inputs with the document that one new site must tell that has taken them, and
//! tells where it tells another. Each document is read back as a text and handed to its site, which
//! must export it then. Each line is a JSON object: `inputs` is a list of texts and of states
//! (`{"hex": ".."}`), `document` the document, or the text `none` where there is a conflict.
//! `document_lists FILE` reads a file.
#![tactic(auto)]

mod list;

use anyhow::Context;
use list::{inputs_of, is_wanted, reads_back, site_of};
use serde_json::Value;
use std::{env, fs};

/// How many sites told a document and how many none, and how many answers were wrong.
#[derive(Drop)]
struct Counts {
    told: u64,
    without: u64,
    read_back: u64,
    wrong: u64,
}

/// Asks a new site that has taken the inputs of a line for its document.
fn compare(rt: &HostRuntime, number: usize, line: &str, counts: &mut Counts) -> anyhow::Result<()> {
    let alloc = rt.alloc();
    let list = Value::from_str(alloc, line)?;
    let inputs = inputs_of(alloc, &list)?;
    let mut site = site_of(alloc, &inputs)?;
    let document = site.document(alloc).ok().context("out of memory")?;
    let wanted = list.get("document").context("a line without a document")?;
    if !is_wanted(alloc, &document, wanted)? {
        println!(rt; "line {number}: another document")?;
        counts.wrong = counts.wrong.saturating_add(1);
    }
    let Some(document) = document else {
        counts.without = counts.without.saturating_add(1);
        return Ok(());
    };
    counts.told = counts.told.saturating_add(1);
    match reads_back(alloc, &mut site, &document)? {
        None => {}
        Some(true) => counts.read_back = counts.read_back.saturating_add(1),
        Some(false) => {
            println!(rt; "line {number}: a document that does not stand with its inputs")?;
            counts.wrong = counts.wrong.saturating_add(1);
        }
    }
    Ok(())
}

fn main(rt: HostRuntime) -> anyhow::Result<()> {
    let path = env::args(&rt)?
        .nth(1)
        .context("usage: document_lists FILE")?;
    let all = fs::read_to_string(&rt, path.as_str())?;
    let mut counts = Counts {
        told: 0,
        without: 0,
        read_back: 0,
        wrong: 0,
    };
    let mut number = 0usize;
    for line in all.as_str().lines() {
        number = number.saturating_add(1);
        compare(&rt, number, line, &mut counts)?;
    }
    println!(rt;
        "{number} lists: {} documents, {} read back, {} without a document; {} wrong",
        counts.told, counts.read_back, counts.without, counts.wrong
    )?;
    Ok(())
}
