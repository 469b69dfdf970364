/// Whether who sent a request may do what it asks for.
#[derive(Clone, Copy, Debug, PartialEq, Eq)]
pub enum WriteAccess {
    Granted,
    /// Who sent it is not known: it has no token, or one that nobody has.
    Unknown,
    /// Who sent it may not write there.
    Barred,
}
