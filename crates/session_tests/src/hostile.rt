//! Tests of hostile use: state bytes that somebody made up, answers that no frame holds, and
//! devices that fail while a site is served. They stand in a crate above `cue_wire`, so that the
//! crates below are not proved a second time with them.
mod answers;
mod devices;
mod sites;
mod states;
