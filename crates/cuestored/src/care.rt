use crate::files::{File, bytes_of, on_file, open_files, recover_from, sync_above};
use crate::opening::{COMMONS, JournalNames, LAYERS, open_journal};
use anyhow::Result;
use cue_journal::{Batch, Inspection, Journal, JournalPair, inspect};
use cue_settings::SettingsError;
use sqlite_disk::{Disk, Files, Memory};
use std::fs;

/// What the two files of a journal have, where they are there.
#[derive(Drop)]
struct Found {
    journal: Option<Inspection>,
    beside: Option<Inspection>,
}

impl Found {
    /// Whether both files are there and sound.
    fn is_sound(&self) -> bool {
        is_sound(&self.journal) && is_sound(&self.beside)
    }

    /// Whether neither file is there.
    fn is_missing(&self) -> bool {
        self.journal.is_none() && self.beside.is_none()
    }
}

/// Whether a file is there and sound.
fn is_sound(found: &Option<Inspection>) -> bool {
    match found {
        Some(found) => found.damage.is_none(),
        None => false,
    }
}

/// Looks at a file, and prints what was found.
fn look<D: Disk>(rt: &HostRuntime, path: &str, disk: &mut D) -> Result<Inspection> {
    let alloc = rt.alloc();
    if !disk.may_be_used() {
        return Err(SettingsError::Unusable(String::from_str(alloc, path)?).into());
    }
    let found = on_file(alloc, "read", path, inspect(alloc, disk))?;
    let (pieces, length) = (found.entries.len(), found.length);
    match found.damage {
        None => println!(rt; "{path}: sound, {pieces} pieces in {length} bytes")?,
        Some(at) => println!(rt;
            "{path}: damaged at byte {at} of {length}, {pieces} pieces before it and {} behind it",
            found.behind.len()
        )?,
    }
    Ok(found)
}

/// Looks at a copy of a file, where it is there.
fn look_at_copy(rt: &HostRuntime, path: &str) -> Result<Option<Inspection>> {
    let alloc = rt.alloc();
    if !on_file(alloc, "stat", path, fs::exists(rt, path))? {
        println!(rt; "{path}: missing")?;
        return Ok(None);
    }
    let bytes = bytes_of(rt, path)?;
    let mut copy = Memory::new(alloc);
    if copy.may_be_used() {
        on_file(alloc, "copy", path, copy.write_at(0, &bytes))?;
    }
    Ok(Some(look(rt, path, &mut copy)?))
}

/// Looks at both files of a journal. No other process has them open meanwhile. None is made.
fn look_into(rt: &HostRuntime, folder: &str, name: &str) -> Result<Found> {
    let names = JournalNames::new(rt.alloc(), folder, name)?;
    let (path, beside) = (names.path.as_str(), names.beside.as_str());
    if !is_there(rt, path)? || !is_there(rt, beside)? {
        return Ok(Found {
            journal: look_at_copy(rt, path)?,
            beside: look_at_copy(rt, beside)?,
        });
    }
    let Files {
        log: mut one,
        db: mut other,
    } = open_files(rt, path)?;
    Ok(Found {
        journal: Some(look(rt, path, &mut other)?),
        beside: Some(look(rt, beside, &mut one)?),
    })
}

/// Whether something has this name.
fn is_there(rt: &HostRuntime, path: &str) -> Result<bool> {
    on_file(rt.alloc(), "stat", path, fs::exists(rt, path))
}

/// Says whether the files of a folder are sound, and writes nothing. A folder of a build without
/// layers has no files of them.
pub fn check(rt: &HostRuntime, folder: &str) -> Result<bool> {
    let commons = look_into(rt, folder, COMMONS)?;
    let layers = look_into(rt, folder, LAYERS)?;
    Ok(commons.is_sound() && (layers.is_sound() || layers.is_missing()))
}

/// Adds entries to a batch.
fn add_all(batch: &mut Batch, entries: &[Vec<u8>]) -> Result<(), SettingsError> {
    for entry in entries {
        if let Some((first, rest)) = entry.split_first() {
            if batch.push(*first, rest).is_err() {
                return Err(SettingsError::OutOfMemory);
            }
        }
    }
    Ok(())
}

/// Adds what was found in a file to a batch. Answers how many entries.
fn add_found(batch: &mut Batch, found: &Option<Inspection>) -> Result<usize, SettingsError> {
    match found {
        Some(found) => {
            add_all(batch, &found.entries)?;
            add_all(batch, &found.behind)?;
            Ok(found.entries.len().saturating_add(found.behind.len()))
        }
        None => Ok(0),
    }
}

/// Two new files of a journal in a folder.
fn new_journals(rt: &HostRuntime, folder: &str, name: &str) -> Result<JournalPair<File>> {
    let alloc = rt.alloc();
    let names = JournalNames::new(alloc, folder, name)?;
    let Files {
        log: one,
        db: other,
    } = open_journal(rt, &names)?;
    let one = recover_from(alloc, names.beside.as_str(), one)?;
    let other = recover_from(alloc, names.path.as_str(), other)?;
    Ok(JournalPair::new(
        Journal::new(other.disk, other.end),
        Journal::new(one.disk, one.end),
    ))
}

/// Puts all entries that were found of a journal into a new one. Answers how many.
fn salvage_journal(rt: &HostRuntime, found: &Found, new: &str, name: &str) -> Result<usize> {
    let mut batch = Batch::new(rt.alloc());
    let first = add_found(&mut batch, &found.journal)?;
    let second = add_found(&mut batch, &found.beside)?;
    let mut journals = new_journals(rt, new, name)?;
    on_file(rt.alloc(), "write", new, journals.commit(&mut batch))?;
    Ok(first.saturating_add(second))
}

/// Puts all entries that can be read of the files of a folder into a new one. Answers true.
pub fn salvage(rt: &HostRuntime, folder: &str, new: &str) -> Result<bool> {
    let commons = look_into(rt, folder, COMMONS)?;
    let layers = look_into(rt, folder, LAYERS)?;
    on_file(rt.alloc(), "mkdir", new, fs::create_dir(rt, new))?;
    sync_above(rt, new)?;
    let pieces = salvage_journal(rt, &commons, new, COMMONS)?;
    let changes = salvage_journal(rt, &layers, new, LAYERS)?;
    println!(rt; "{new}: {pieces} pieces and {changes} changes of layers written")?;
    Ok(true)
}
