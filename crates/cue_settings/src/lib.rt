//! The settings of a site that stays up: the words of `cuestored`, what keeps it from its work,
//! and where it may listen.
#![tactic(auto)]

mod rules;
mod stop;
mod words;

pub use rules::{answer_limit, may_listen};
pub use stop::SettingsError;
pub use words::{Settings, Task, command, task_of, words_of};
