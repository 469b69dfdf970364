//! Compares answers of the lexer, the parser and sites with answers from outside, and
//! prints which are others. `cue_cases KIND FILE.. [KIND FILE..]..`: a word that names a kind says
//! what the files behind it are.
#![tactic(auto)]

mod lists;
mod texts;

use anyhow::Context;
use std::env;

/// What a file has, or what is measured of it.
#[derive(Clone, Copy)]
enum Kind {
    /// Texts, and whether the lexer and the parser accept them.
    Texts,
    /// Inputs of one site, and what it answers.
    Lists,
    /// One text, for the time that the lexer takes.
    LexTime,
    /// One text, for the time that the parser takes.
    ParseTime,
}

impl Kind {
    /// The kind of this name.
    fn named(name: &str) -> Option<Kind> {
        match name {
            "texts" => Some(Kind::Texts),
            "lists" => Some(Kind::Lists),
            "lex" => Some(Kind::LexTime),
            "parse" => Some(Kind::ParseTime),
            _ => None,
        }
    }

    /// Goes through a file of this kind, and prints what comes of it.
    fn run(self, rt: &HostRuntime, path: &str) -> anyhow::Result<()> {
        match self {
            Kind::Texts => texts::compare_file(rt, path),
            Kind::Lists => lists::compare_all(rt, path),
            Kind::LexTime => texts::time_lexing(rt, path),
            Kind::ParseTime => texts::time_parsing(rt, path),
        }
    }
}

fn main(rt: HostRuntime) -> anyhow::Result<()> {
    let mut kind = None;
    for word in env::args(&rt)?.skip(1) {
        match Kind::named(word.as_str()) {
            Some(named) => kind = Some(named),
            None => kind
                .context("usage: cue_cases texts|lists|lex|parse FILE..")?
                .run(&rt, word.as_str())?,
        }
    }
    Ok(())
}
