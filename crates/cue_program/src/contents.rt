use cue_replica::Replica;

/// What is put at a name.
#[derive(Drop)]
pub enum Contents<'c> {
    /// The state bytes of a site, which are made while they are written.
    State(&'c Replica),
    /// These bytes.
    Bytes(&'c [u8]),
}
