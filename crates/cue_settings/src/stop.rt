ghost use Rattle.std.specs.Prelude.{◌≡◌, ◌≢◌, ◌⊎◌};
ghost use Rattle.cue_lattice.specs.declared.refusal.Kind.TheVariants as kinds;
ghost use Rattle.cue_owners.specs.declared.read.TokenFileError.TheVariants as faults;
ghost use Rattle.cue_settings.specs.Stops.{IsDamage, IsDamaged, IsPeer, IsSystem, IsTokenFault};

use cue_lattice::{Kind, Refusal};
use cue_owners::TokenFileError;
use std::alloc::Global;
use std::io;
use thiserror::Error;

/// What keeps a site from its work, or ends it.
#[derive(Debug, Drop, Error)]
pub enum SettingsError {
    /// An operation of the system on a file or an address failed.
    #[error("{operation}: {error}: {file}")]
    System {
        operation: &'static str,
        file: String,
        error: io::Error,
    },
    #[error("{0}: another process has it open")]
    Busy(String),
    #[error("{0}: it can't be used, since something else has its name, or a sync of it failed")]
    Unusable(String),
    /// A file of the journal is damaged, from this byte on.
    #[error("{file}: damaged at byte {at}: stop every process that uses the folder, and put back copies of both files of the journal")]
    Damaged {
        file: String,
        at: usize,
    },
    #[error("out of memory")]
    OutOfMemory,
    #[error("the journal is damaged: entry refused, {0} {1} at {2}")]
    Journal(u8, &'static str, u64),
    #[error("no address: --listen takes ADDRESS:PORT")]
    Listen,
    #[error("{0}: no URL of a peer: --peer takes http://NAME[:PORT]/[PATH/]")]
    Peer(String),
    /// A token file has no token, or a line of another form.
    #[error("{file}: {why}")]
    Tokens {
        file: String,
        why: TokenFileError,
    },
    #[error("{0}: is not one token of visible ASCII characters")]
    PeerToken(String),
    #[error("without --token-file it listens on loopback addresses alone, since anybody could write")]
    OpenToAll,
}

impl SettingsError {
    /// Why an entry of a journal is refused: memory ran out, or the journal is damaged.
    pub fn of_entry(why: Refusal) -> SettingsError
        ensures memory { why.kind ≡ kinds.Memory → result ≡ SettingsError.OutOfMemory }
        ensures damage { why.kind ≢ kinds.Memory → IsDamage result }
    {
        match why.kind {
            Kind::Memory => SettingsError::OutOfMemory,
            kind => SettingsError::Journal(kind.number(), kind.name(), why.place),
        }
    }

    /// A URL that is none of a peer.
    pub fn peer(alloc: Global, url: &str) -> SettingsError
        ensures { (result ≡ SettingsError.OutOfMemory) ⊎ IsPeer url.now result }
    {
        match String::from_str(alloc, url) {
            Ok(url) => SettingsError::Peer(url),
            Err(_) => SettingsError::OutOfMemory,
        }
    }

    /// A file that is damaged at a byte.
    pub fn damaged(alloc: Global, file: &str, at: usize) -> SettingsError
        ensures { (result ≡ SettingsError.OutOfMemory) ⊎ IsDamaged file.now at result }
    {
        match String::from_str(alloc, file) {
            Ok(file) => SettingsError::Damaged { file, at },
            Err(_) => SettingsError::OutOfMemory,
        }
    }

    /// A token file that is refused.
    pub fn of_token_file(alloc: Global, file: &str, why: TokenFileError) -> SettingsError
        ensures memory { why ≡ faults.OutOfMemory → result ≡ SettingsError.OutOfMemory }
        ensures fault { (result ≡ SettingsError.OutOfMemory) ⊎ IsTokenFault file.now why result }
    {
        if why == TokenFileError::OutOfMemory {
            return SettingsError::OutOfMemory;
        }
        match String::from_str(alloc, file) {
            Ok(file) => SettingsError::Tokens { file, why },
            Err(_) => SettingsError::OutOfMemory,
        }
    }

    /// An operation of the system on a file that failed.
    pub fn system(
        alloc: Global,
        operation: &'static str,
        file: &str,
        error: io::Error,
    ) -> SettingsError
        ensures { (result ≡ SettingsError.OutOfMemory) ⊎ IsSystem operation.now error result }
    {
        match String::from_str(alloc, file) {
            Ok(file) => SettingsError::System {
                operation,
                file,
                error,
            },
            Err(_) => SettingsError::OutOfMemory,
        }
    }
}
