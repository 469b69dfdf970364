//! Goes through sessions of the programs `cuestore` and `cuelayers`: commands, each below what it must print, as a
//! terminal shows them. It does what each command says with the files of the session's folder, and
//! tells where something else is printed. `examples FOLDER..` goes through the file `session` of
//! each folder.
#![tactic(auto)]

mod command;
mod layers;
mod session;

use session::Session;
use std::{env, fs};

/// Goes through the session of a folder, and tells which commands print something else.
fn go_through(rt: &HostRuntime, folder: &str) -> anyhow::Result<()> {
    let name = format!(in rt.alloc(); "{folder}/session")?;
    let text = fs::read_to_string(rt, name.as_str())?;
    let mut session = Session::new(rt.alloc(), folder);
    for line in text.as_str().lines() {
        session.read(rt, line)?;
    }
    session.end(rt)
}

fn main(rt: HostRuntime) -> anyhow::Result<()> {
    for folder in env::args(&rt)?.skip(1) {
        go_through(&rt, folder.as_str())?;
    }
    Ok(())
}
