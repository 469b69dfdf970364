//! The arguments of the program: what they ask for, what is printed for them, and how a run ends.
//! What is done with maps of layers is in `cue_layers_program`.
#![tactic(auto)]

mod acting;
mod app;
mod command;
mod explaining;
mod fault;
mod placing;
mod reply;
mod replying;

pub use acting::{act, report, run};
pub use app::layers;
pub use command::{LayersCommand, command_of, given_words, rows_in, unread_fault};
pub use fault::{LINE, LayersCommandError, LayersRunRefusal, text_of};
