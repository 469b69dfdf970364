//! The words of the command line: what they ask for, what is printed for them, and how a run ends.
//! What is done with inputs stands in `cue_program`, and what goes over sockets in `cue_net`.
#![tactic(auto)]

mod acting;
mod app;
mod command;
mod fault;
mod network;

pub use acting::{act, report, run};
pub use app::store;
pub use command::{Command, command_of, given_words, number_in, unread_fault};
pub use fault::{CommandError, LINE, RunRefusal, text_of};
