//! Tests of reports, exports and printed text, kept in a crate above `cue_report` and `cue_print`,
//! so that neither of these is proved a second time with them.
mod exports;
mod prints;
mod reports;
mod sample;
mod streams;
