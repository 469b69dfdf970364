ghost use Rattle.std.specs.Prelude.{◌≡◌, ◌⊎◌, ℕ, List, Option, None, IfOk, IfErr, IsErr, is_ok};
ghost use Rattle.std.specs.Prelude.{string_bytes};
ghost use Rattle.std.specs.Option.{option_map};
ghost use Rattle.std.specs.Result.{result_ok};
ghost use Rattle.cue_program.specs.Calls.{FileCall, looked_at, looked_behind, followed, created};
ghost use Rattle.cue_program.specs.Calls.{opened, asked_mode, set_mode, wrote, synced, renamed};
ghost use Rattle.cue_program.specs.Calls.{removed};
ghost use Rattle.cue_program.specs.Files.{Holdings, IsOpened};
ghost use Rattle.cue_program.specs.Stops.{IsDeviceStop, IsMemoryStop};

use crate::stop::RunError;
use cue_device::{Fault, Source};
use std::alloc::Global;

/// What stands under a name.
#[derive(Clone, Copy, Debug, PartialEq, Eq)]
pub enum FileForm {
    /// Nothing.
    Nothing,
    /// A regular file.
    File,
    /// A link.
    Link,
    /// Something else, as a device, a pipe or a directory.
    Special,
}

/// The files that a run reads and writes, by their names. Each call is one of the runtime's.
///
/// Contracts see which calls were made, in their order, and what they came to: `makes` says so of
/// each, and nothing else does. So a clause that names it holds only of calls that were made, over
/// the files of a system too, of which nothing else is known. Where a shelf knows what lies where,
/// they see that too.
pub trait FileSystem {
    /// A file that was opened to be read.
    type Opened: Source + Drop;

    /// A file that is written.
    type Draft: Drop;

    /// The mode of a file.
    type Mode: Drop;

    // What lies where, where that is known.
    ghost held: { Self → Option Holdings } = { λ _. None };

    // The file of this name was opened, and is this one; or it could not be.
    ghost has_opened: { Self → List ℕ → Self.Opened → Type 0 };

    ghost could_not_open: { Self → List ℕ → Type 0 };

    // This call was made between two moments.
    ghost makes: { Self → FileCall Self.Draft Self.Mode → Self → Type 0 };

    /// Opens the file of this name to be read, from its first byte on.
    ///
    /// # Errors
    ///
    /// `Fault` where it can't be opened.
    fn open(&self, name: &str) -> Result<Self::Opened, Fault>
        ensures opened { IfOk result (has_opened self.now name.now) }
        ensures known { IfOk result (λ file.
            IsOpened (held self.now) name.now (Self.Opened.to_come file)) }
        ensures fresh { IfOk result (λ file. Self.Opened.called file ≡ 0) }
        ensures fault { IsErr result → could_not_open self.now name.now };

    /// What stands under a name, where a link is told as such.
    ///
    /// # Errors
    ///
    /// `Fault` where it can't be looked at.
    fn look_at(&mut self, name: &str) -> Result<FileForm, Fault>
        ensures { makes self.old (looked_at name.now (result_ok result)) self.new };

    /// What a name leads to.
    ///
    /// # Errors
    ///
    /// As `look_at`.
    fn look_behind(&mut self, name: &str) -> Result<FileForm, Fault>
        ensures { makes self.old (looked_behind name.now (result_ok result)) self.new };

    /// The place that a name leads to.
    ///
    /// # Errors
    ///
    /// `Device`, and `Memory`.
    fn follow(&mut self, alloc: Global, name: &str) -> Result<String, RunError>
        ensures followed { makes self.old
            (followed name.now (option_map string_bytes (result_ok result))) self.new }
        ensures fault { IfErr result (λ stop. IsDeviceStop stop ⊎ IsMemoryStop stop) };

    /// Makes a new file at this place, open to be written.
    ///
    /// # Errors
    ///
    /// `Taken` where anything stands there already, and `Fault`.
    fn create(&mut self, place: &str) -> Result<Self::Draft, CreateError>
        ensures { makes self.old (created place.now (result_ok result)) self.new };

    /// Opens what stands at this place, to be written as it stands.
    ///
    /// # Errors
    ///
    /// `Fault` where it can't be opened.
    fn open_to_write(&mut self, place: &str) -> Result<Self::Draft, Fault>
        ensures { makes self.old (opened place.now (result_ok result)) self.new };

    /// The mode of the file at this place.
    ///
    /// # Errors
    ///
    /// `Fault` where it can't be looked at.
    fn mode_of(&mut self, place: &str) -> Result<Self::Mode, Fault>
        ensures { makes self.old (asked_mode place.now (result_ok result)) self.new };

    /// Gives a file this mode.
    ///
    /// # Errors
    ///
    /// `Fault`.
    fn set_mode(&mut self, file: &Self::Draft, mode: Self::Mode) -> Result<(), Fault>
        ensures { makes self.old (set_mode file.now mode (is_ok result)) self.new };

    /// Writes these bytes to a file, behind those that were written before, all of them.
    ///
    /// # Errors
    ///
    /// `Fault`, and then some bytes in front may have been written.
    fn write(&mut self, file: &mut Self::Draft, bytes: &[u8]) -> Result<(), Fault>
        ensures { makes self.old (wrote file.old bytes.now file.new (is_ok result)) self.new };

    /// Has what was written to a file reach the disk.
    ///
    /// # Errors
    ///
    /// `Fault`.
    fn sync(&mut self, file: &Self::Draft) -> Result<(), Fault>
        ensures { makes self.old (synced file.now (is_ok result)) self.new };

    /// Moves the file at a place to another, in one step, in the place of a file that lies there.
    ///
    /// # Errors
    ///
    /// `Fault`, and then nothing changed.
    fn rename(&mut self, from: &str, to: &str) -> Result<(), Fault>
        ensures { makes self.old (renamed from.now to.now (is_ok result)) self.new };

    /// Takes the file at this place away.
    ///
    /// # Errors
    ///
    /// `Fault`.
    fn remove(&mut self, place: &str) -> Result<(), Fault>
        ensures { makes self.old (removed place.now (is_ok result)) self.new };
}

/// Why no new file was made.
#[derive(Clone, Copy, Debug, PartialEq, Eq)]
pub enum CreateError {
    /// Something stands there already.
    Taken,
    /// The call failed.
    Fault,
}
