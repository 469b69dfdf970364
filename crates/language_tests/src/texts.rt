//! Tests of the lexer, the parser and the resolving of names, kept in a crate above them, so that
//! none of these is proved a second time with its tests.
mod lexing;
mod limits;
mod names;
mod parsing;
mod resolving;
mod texts;
