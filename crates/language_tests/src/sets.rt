//! Tests of texts, refusals, sets, sets of scalars and values with defaults, kept in a crate above
//! them, so that none of these is proved a second time with its tests.
mod made;
mod scalars;
mod sets;
mod texts;
mod values;
