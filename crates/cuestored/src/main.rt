//! The program `cuestored`: a site that stays up, over HTTP, with each piece on the disk before it
//! is acknowledged.
#![tactic(auto)]

mod care;
mod files;
mod opening;
mod tokens;

use crate::care::{check, salvage};
use crate::opening::open_site;
use crate::tokens::{keys_of, peer_token};
use anyhow::Result;
use clap::error::Error;
use cue_doors::{Guarded, Keys};
use cue_http::{LoopError, serve};
use cue_service::Shown;
use cue_settings::{Settings, SettingsError, Task, command, may_listen, task_of, words_of};
use log::sink::Console;
use log::{Level, Log, Logged, error, info};
use mio::net::TcpListener;
use std::env;
use std::net::SocketAddr;
use std::process::ExitCode;

/// Serves until a round does not stand. Answers true if it ends well.
fn run(rt: &HostRuntime, words: &Settings) -> Result<bool> {
    let log = Logged::new(rt, Level::Info, Console(rt));
    let listen = words.listen(rt)?;
    let keys = keys_of(rt, words)?;
    if !may_listen(keys.writers.is_some(), listen.ip().is_loopback()) {
        return Err(SettingsError::OpenToAll.into());
    }
    serve_at(rt, &log, words, listen, keys)
}

/// Opens the site, and serves at an address until a round fails to settle.
fn serve_at<L: Log>(
    rt: &HostRuntime,
    log: &L,
    words: &Settings,
    listen: SocketAddr,
    keys: Keys,
) -> Result<bool> {
    let token = peer_token(rt, words)?;
    let sources = words.sources(rt, &token)?;
    let site = open_site(rt, log, words)?;
    let doors = words.doors(rt.alloc(), listen)?;
    let listener = match TcpListener::bind(rt, listen) {
        Ok(listener) => listener,
        Err(error) => return Err(SettingsError::system(
            rt.alloc(),
            "listen on",
            words.listen,
            error,
        ).into()),
    };
    let address = listener.local_addr()?;
    info!(log; "listening on http://{address}");
    let guarded = Guarded::new(rt.alloc(), doors, keys, site);
    match serve(
        rt,
        log,
        listener,
        words.bounds(),
        &sources,
        guarded,
        u64::MAX,
    ) {
        Ok(()) => Ok(true),
        Err(ended) => Err(stop_of(rt, words, ended)?.into()),
    }
}

/// What ended a site over these files.
fn stop_of(rt: &HostRuntime, words: &Settings, ended: LoopError) -> Result<SettingsError> {
    let alloc = rt.alloc();
    Ok(match ended {
        LoopError::Unsettled(error) => {
            let data = words.data;
            let files = format!(in alloc; "{data}/journal, layers or the file beside it")?;
            SettingsError::system(alloc, "write", files.as_str(), error)
        }
        LoopError::System(call, error) => SettingsError::system(alloc, call, words.listen, error),
        LoopError::OutOfMemory => SettingsError::OutOfMemory,
    })
}

/// Does what these words ask for, the name of the program in front, and answers the exit status.
fn answer(rt: &HostRuntime, given: &[String]) -> Result<ExitCode> {
    let command = command(rt.alloc())?;
    let matches = match command.try_get_matches_from(given) {
        Ok(matches) => matches,
        Err(error) => {
            error.print(rt)?;
            return Ok(ExitCode::from(error.exit_code() as u8));
        }
    };
    let done = match task_of(&matches) {
        Task::Check(folder) => check(rt, folder),
        Task::Salvage(folder, new) => salvage(rt, folder, new),
        Task::Serve => {
            let words = words_of(rt.alloc(), &matches)?;
            run(rt, &words)
        }
    };
    match done {
        Ok(true) => Ok(ExitCode::SUCCESS),
        Ok(false) => Ok(ExitCode::FAILURE),
        Err(stop) => {
            let log = Logged::new(rt, Level::Info, Console(rt));
            let line = format!(in rt.alloc(); "{stop}")?;
            error!(log; "{}", Shown(line.as_str()));
            Ok(ExitCode::FAILURE)
        }
    }
}

fn main(rt: HostRuntime) -> Result<ExitCode> {
    let mut given = Vec::new(rt.alloc());
    for word in env::args(&rt)? {
        given.push(word)?;
    }
    answer(&rt, &given)
}
