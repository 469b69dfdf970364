//! Sites of the configuration store, and worlds of sites.
//!
//! A site keeps the unification of all that it accepts and passes it on as bytes, which other sites
//! take late, repeatedly, in any order or never. `run` says what every list of such events comes
//! to. `answer_to` and `write_answer` answer a question about a site.
#![tactic(auto)]

mod answering;
mod answers;
mod fragment;
mod history;
mod language;
mod question;
mod replica;
mod world;

pub use answering::write_answer;
pub use answers::{Answer, answer_to, to_printed};
pub use cue_codec::{StateReader, StateWriter};
pub use cue_device::TextSink;
pub use cue_lattice::{Form, Kind, Memory, Refusal, TEXT_LIMIT, Text};
pub use cue_report::{Conflict, Export, ExportKind, Gap, ReportPlace, Value, lines, path_text};
pub use cue_row::{Path, Step};
pub use history::run;
pub use language::{
    legal_text, printed_text_gives_the_site_again, sound_language, states_are_read_in_pieces,
};
pub use question::{SiteQuestion, Status, TextQuestion};
pub use replica::Replica;
pub use world::{Event, Outcome, World};
