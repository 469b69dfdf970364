//! Tests of tables and of state bytes, kept in a crate above `cue_table` and `cue_codec`, so that
//! neither of these is proved a second time with them. Each list of rows goes through the tree and
//! through a plain list of rows with the same calls.
mod both;
mod bytes;
mod large;
mod many;
mod pieces;
mod plain;
mod sample;
mod states;
mod tables;
mod written;
