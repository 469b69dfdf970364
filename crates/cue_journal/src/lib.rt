//! A journal of pieces: whole batches of them reach the disk, or nothing of them counts. Beside it,
//! the pieces that a site accepted since its start, by number, as far as they are kept: so one that
//! has the first of them asks for the others alone.
#![tactic(auto)]

mod blocks;
mod cursor;
mod entries;
mod frames;
mod inspection;
mod journal;
mod pair;
mod pieces;
mod start;

pub use blocks::{Batch, BlockError, read_pieces};
pub use cursor::PieceCursor;
pub use entries::entries_in;
pub use frames::{Unread, read_file};
pub use inspection::{Inspection, inspect};
pub use journal::{Journal, Room, recover};
pub use pair::JournalPair;
pub use pieces::{MOST_BYTES, Pieces};
pub use start::{FileNumber, StartedPair, start_pair};
