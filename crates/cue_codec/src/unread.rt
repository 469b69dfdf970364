/// Why no value is read from the front of bytes.
#[derive(Clone, Copy, Debug, PartialEq, Eq)]
pub enum Unread {
    /// Memory ran out.
    Memory,
    /// The bytes end before the value does: with others behind them one may stand there.
    Cut,
    /// No value begins with these bytes, whatever follows.
    Wrong,
}
