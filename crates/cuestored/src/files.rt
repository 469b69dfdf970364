use anyhow::Result;
use cue_journal::{Unread, recover};
use cue_settings::SettingsError;
use sqlite_disk::{Disk, Files};
use sqlite_std_file::{FileFrom, OpenError, Unknown, open};
use std::alloc::Global;
use std::fs::Permissions;
use std::io::{ErrorKind, Read};
use std::os::unix::fs::{OpenOptionsExt, PermissionsExt};
use std::{fs, io};

/// The files that a site is kept in, of which the longer journal grows.
pub(crate) type File = FileFrom<Unknown>;

/// What an operation on a file gave, or that it failed.
pub(crate) fn on_file<T>(
    alloc: Global,
    operation: &'static str,
    file: &str,
    answer: io::Result<T>,
) -> Result<T> {
    match answer {
        Ok(value) => Ok(value),
        Err(error) => Err(SettingsError::system(alloc, operation, file, error).into()),
    }
}

/// The folder that a file or folder lies in.
fn parent_folder(path: &str) -> &str {
    match path.trim_end_matches('/').rsplit_once('/') {
        Some(("", _)) => "/",
        Some((above, _)) => above,
        None => ".",
    }
}

/// Makes a folder where it is missing, and has that reach the disk.
fn make_folder(rt: &HostRuntime, path: &str) -> Result<()> {
    if let Ok(true) = fs::exists(rt, path) {
        return Ok(());
    }
    match fs::create_dir(rt, path) {
        Err(error) if error.kind() == ErrorKind::AlreadyExists => Ok(()),
        made => {
            on_file(rt.alloc(), "mkdir", path, made)?;
            sync_above(rt, path)
        }
    }
}

/// Has the name of a folder reach the disk.
pub(crate) fn sync_above(rt: &HostRuntime, path: &str) -> Result<()> {
    let alloc = rt.alloc();
    let above = parent_folder(path);
    let folder = on_file(alloc, "open", above, fs::File::open(rt, above))?;
    on_file(alloc, "sync", above, folder.sync_all())
}

/// Makes a folder, and those above it that are missing, and has each reach the disk.
pub(crate) fn make_folders(rt: &HostRuntime, path: &str) -> Result<()> {
    for (end, byte) in path.bytes().enumerate() {
        if byte == b'/' && end > 0 {
            if let Some(front) = path.get(..end) {
                make_folder(rt, front)?;
            }
        }
    }
    make_folder(rt, path)
}

/// What one file brings: where its journal goes on, and the entries.
#[derive(Drop)]
pub(crate) struct Recovered {
    pub(crate) disk: File,
    pub(crate) end: usize,
    pub(crate) entries: Vec<Vec<u8>>,
}

/// What a file brings, if it can be read as it was left.
pub(crate) fn recover_from(alloc: Global, path: &str, mut disk: File) -> Result<Recovered> {
    if !disk.may_be_used() {
        return Err(SettingsError::Unusable(String::from_str(alloc, path)?).into());
    }
    match recover(alloc, &mut disk) {
        Ok((end, entries)) => Ok(Recovered { disk, end, entries }),
        Err(why) => Err(error_of(alloc, path, why).into()),
    }
}

/// Why a file was not read.
pub(crate) fn error_of(alloc: Global, path: &str, why: Unread) -> SettingsError {
    match why {
        Unread::Damaged(at) => SettingsError::damaged(alloc, path, at),
        Unread::System(error) => SettingsError::system(alloc, "read", path, error),
    }
}

/// Both files of a journal.
pub(crate) fn open_files(rt: &HostRuntime, path: &str) -> Result<Files<File>> {
    let alloc = rt.alloc();
    match open(rt, path, Unknown) {
        Ok(files) => Ok(files),
        Err(OpenError::Io(error)) => Err(SettingsError::system(alloc, "open", path, error).into()),
        Err(OpenError::OutOfMemory) => Err(SettingsError::OutOfMemory.into()),
        Err(OpenError::Busy) => Err(SettingsError::Busy(String::from_str(alloc, path)?).into()),
        Err(OpenError::HotJournal) => Err(SettingsError::Unusable(String::from_str(
            alloc, path,
        )?).into()),
    }
}

/// All bytes of a file; none where it is missing.
pub(crate) fn bytes_of(rt: &HostRuntime, path: &str) -> Result<Vec<u8>> {
    let alloc = rt.alloc();
    let mut bytes = Vec::new(alloc);
    match fs::File::open(rt, path) {
        Ok(mut file) => {
            on_file(alloc, "read", path, file.read_to_end(&mut bytes))?;
        }
        Err(error) if error.kind() == ErrorKind::NotFound => {}
        Err(error) => return Err(SettingsError::system(alloc, "open", path, error).into()),
    }
    Ok(bytes)
}

/// Whether a file of a journal begins as those of older builds did, which have no head: with a gate.
fn is_old(rt: &HostRuntime, path: &str) -> Result<bool> {
    let alloc = rt.alloc();
    let mut first = [0xFFu8; 1];
    match fs::File::open(rt, path) {
        Ok(mut file) => {
            let count = on_file(alloc, "read", path, file.read(&mut first))?;
            Ok(count == 1 && first[0] <= 1)
        }
        Err(error) if error.kind() == ErrorKind::NotFound => Ok(false),
        Err(error) => Err(SettingsError::system(alloc, "open", path, error).into()),
    }
}

/// Gives a file another name, and has that reach the disk.
pub(crate) fn rename(rt: &HostRuntime, folder: &str, from: &str, to: &str) -> Result<()> {
    let alloc = rt.alloc();
    on_file(alloc, "rename", from, fs::rename(rt, from, to))?;
    let above = on_file(alloc, "open", folder, fs::File::open(rt, folder))?;
    on_file(alloc, "sync", folder, above.sync_all())
}

/// Sets a file of an older build aside, under its name with `.old` behind it.
fn set_aside(rt: &HostRuntime, folder: &str, path: &str) -> Result<()> {
    if is_old(rt, path)? {
        let old = format!(in rt.alloc(); "{path}.old")?;
        rename(rt, folder, path, old.as_str())?;
    }
    Ok(())
}

/// Sets both files of an older build aside, while no other process has them open.
pub(crate) fn set_old_aside(
    rt: &HostRuntime,
    folder: &str,
    path: &str,
    beside: &str,
) -> Result<()> {
    if is_old(rt, path)? || is_old(rt, beside)? {
        let _held = open_files(rt, path)?;
        set_aside(rt, folder, path)?;
        set_aside(rt, folder, beside)?;
    }
    Ok(())
}

/// Has this user alone read and write a file. A missing one is made.
pub(crate) fn make_private(rt: &HostRuntime, path: &str) -> Result<()> {
    let alloc = rt.alloc();
    let mode = Permissions::from_mode(0o600);
    let made = fs::OpenOptions::new()
        .write(true)
        .create_new(true)
        .mode(0o600)
        .open(rt, path);
    match made {
        Ok(_file) => Ok(()),
        Err(error) if error.kind() == ErrorKind::AlreadyExists => {
            on_file(alloc, "chmod", path, fs::set_permissions(rt, path, mode))
        }
        Err(error) => Err(SettingsError::system(alloc, "open", path, error).into()),
    }
}
