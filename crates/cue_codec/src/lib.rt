//! State bytes: the bytes of a valid table, written and read exactly.
#![tactic(auto)]

mod branches;
mod decoding;
mod drafting;
mod encoding;
mod lists;
mod paths;
mod reading;
mod row_pieces;
mod row_reader;
mod row_walk;
mod row_writing;
mod rows;
mod sets;
mod sizes;
mod spelling;
mod state_reader;
mod state_writer;
mod telling;
mod unfinished;
mod unread;
mod version;
mod writing;

pub use cue_lattice::{Kind, Memory};
pub use cue_row::Row;
pub use cue_table::Table;
pub use decoding::decode;
pub use encoding::encode;
pub use sizes::size;
pub use spelling::{
    bytes_of_kinds, law_of_entries, one_row_spelling, one_state_spelling, one_table_spelling,
};
pub use state_reader::StateReader;
pub use state_writer::StateWriter;
pub use version::Version;
