//! Tests of sessions and clients. They stand in a crate above `cue_wire`, so that it is not proved
//! a second time with them.
mod clients;
mod ends;
mod faults;
mod replies;
mod starved;
mod states;
