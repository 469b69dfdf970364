//! What the program does with inputs, apart from its words: it reads an input to its end, tells a
//! state from texts, splits texts at separating lines, hands each to one new site, and says what is
//! printed of it. A merged state takes the place of a file in one step. For a site of another
//! process it makes a request of each input.
#![tactic(auto)]

mod atomic_write;
mod batch;
mod contents;
mod disk;
mod files;
mod input;
mod input_reader;
mod law;
mod output;
mod request;
mod run;
mod separator;
mod site;
mod state_file;
mod stdin_splitter;
mod stop;
mod telling;
mod temp_file;
mod writing;

pub use atomic_write::put;
pub use contents::Contents;
pub use cue_device::Fault;
pub use cue_replica::{
    Answer, Kind, Memory, Refusal, Replica, SiteQuestion, StateReader, Status, answer_to,
    to_printed,
};
pub use cue_wire::Request;
pub use files::{CreateError, FileForm, FileSystem};
pub use input_reader::{Enough, Input, InputReader};
pub use law::calls_put_the_bytes;
pub use output::Output;
pub use request::requests_for;
pub use run::{answer_for, merge_into, read_whole, site_for};
pub use separator::{first_line, first_part};
pub use site::{begins_a_state, take_file, text_of};
pub use stop::RunError;
pub use telling::{WriteError, write_out};
pub use writing::write_state;
