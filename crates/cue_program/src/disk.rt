//! The files of the system.
ghost use Rattle.std.specs.Prelude.{◌⊎◌, IfErr};
ghost use Rattle.cue_program.specs.Stops.{IsDeviceStop, IsMemoryStop};

use crate::files::{CreateError, FileForm, FileSystem};
use crate::output::Output;
use crate::stop::RunError;
use cue_device::{Fault, Reader};
use cue_replica::Kind;
use std::alloc::Global;
use std::fs::{File, Metadata, OpenFile, OpenOptions, Permissions};
use std::io::ErrorKind;
use std::rt::Files;
use std::{fs, io};

/// The files of the system. Of what its calls come to the toolchain tells nothing, so that these
/// few lines are to be read.
impl<H: Files> FileSystem for H {
    type Opened = Reader<H::File>;

    type Draft = H::File;

    type Mode = Permissions;

    ghost has_opened = { λ _ _ _. Unit {0} };

    ghost could_not_open = { λ _ _. Unit {0} };

    ghost makes = { λ _ _ _. Unit {0} };

    fn open(&self, name: &str) -> Result<Reader<H::File>, Fault> {
        Ok(Reader::new(check_call(fs::open(self, name))?))
    }

    fn look_at(&mut self, name: &str) -> Result<FileForm, Fault> {
        form_of(fs::symlink_metadata(&*self, name))
    }

    fn look_behind(&mut self, name: &str) -> Result<FileForm, Fault> {
        form_of(fs::metadata(&*self, name))
    }

    fn follow(&mut self, alloc: Global, name: &str) -> Result<String, RunError> {
        match self.canonicalize(alloc, name) {
            Ok(place) => Ok(place.into_string()),
            Err(error) => Err(link_error(&error)),
        }
    }

    fn create(&mut self, place: &str) -> Result<H::File, CreateError> {
        match File::create_new(&*self, place) {
            Ok(file) => Ok(file),
            Err(error) if error.kind() == ErrorKind::AlreadyExists => Err(CreateError::Taken),
            Err(_) => Err(CreateError::Fault),
        }
    }

    fn open_to_write(&mut self, place: &str) -> Result<H::File, Fault> {
        check_call(OpenOptions::new().write(true).open(&*self, place))
    }

    fn mode_of(&mut self, place: &str) -> Result<Permissions, Fault> {
        Ok(check_call(fs::metadata(&*self, place))?.permissions())
    }

    fn set_mode(&mut self, file: &H::File, mode: Permissions) -> Result<(), Fault> {
        check_call(file.set_permissions(mode))
    }

    fn write(&mut self, file: &mut H::File, bytes: &[u8]) -> Result<(), Fault> {
        Output::new(file).write_out(bytes)
    }

    fn sync(&mut self, file: &H::File) -> Result<(), Fault> {
        check_call(file.sync_all())
    }

    fn rename(&mut self, from: &str, to: &str) -> Result<(), Fault> {
        check_call(fs::rename(&*self, from, to))
    }

    fn remove(&mut self, place: &str) -> Result<(), Fault> {
        check_call(fs::remove_file(&*self, place))
    }
}

/// What a call of the system came to.
fn check_call<T>(came: io::Result<T>) -> Result<T, Fault> {
    came.map_err(|_| Fault)
}

/// What stands where this was found.
fn form_of(found: io::Result<Metadata>) -> Result<FileForm, Fault> {
    match found {
        Ok(found) if found.is_symlink() => Ok(FileForm::Link),
        Ok(found) if found.is_file() => Ok(FileForm::File),
        Ok(_) => Ok(FileForm::Special),
        Err(error) if error.kind() == ErrorKind::NotFound => Ok(FileForm::Nothing),
        Err(_) => Err(Fault),
    }
}

/// Why a link can't be followed. `OutOfMemory` says that a growth was refused.
fn link_error(error: &io::Error) -> RunError
    ensures { IsDeviceStop result ⊎ IsMemoryStop result }
{
    match error.kind() {
        ErrorKind::OutOfMemory => RunError::Refused(Kind::Memory),
        _ => RunError::Device,
    }
}
