use crate::Text;

/// A scalar of the language: null, a truth value, an integer of 64 bits, or a text. Numbers are
/// these integers alone.
///
/// As a question to a set, an integer is a whole number of any size; no set refuses one outside the
/// 64-bit range.
#[derive(Debug, Drop)]
pub enum Scalar {
    Null,
    Bool(bool),
    Int(i64),
    Text(Text),
}
