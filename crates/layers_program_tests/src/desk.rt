//! Files in memory.
ghost use Rattle.std.specs.Prelude.{◌<◌, vec_len, IfSome};

use cue_device::{Fault, Reader};
use cue_layers_program::{LayerKind, LayersStop, put};
use cue_program::{CreateError, FileForm, FileSystem, RunError};
use std::alloc::Global;
use std::io::Cursor;

/// A file: its name and its bytes.
#[derive(Drop)]
struct Entry {
    name: String,
    bytes: Vec<u8>,
}

/// Files by their names. None is a link, or anything special.
#[derive(Drop)]
pub struct Desk {
    alloc: Global,
    entries: Vec<Entry>,
    /// How many files were made.
    pub made: usize,
}

impl Alloc for Desk {
    type A = Global;

    fn alloc(&self) -> Global {
        self.alloc
    }
}

impl Desk {
    pub fn new(alloc: Global) -> Desk {
        Desk {
            alloc,
            entries: Vec::new(alloc),
            made: 0,
        }
    }

    /// Adds a file.
    pub fn add(&mut self, name: &str, bytes: &[u8]) -> Result<(), LayersStop> {
        self.entries.push(Entry {
            name: String::from_str(self.alloc, name)?,
            bytes: bytes.to_vec(self.alloc)?,
        })?;
        Ok(())
    }

    /// Where the file of this name is kept.
    fn find(&self, name: &str) -> Option<usize>
        ensures { IfSome result (λ at. at < vec_len self.now.entries) }
    {
        self.entries
            .iter()
            .position(|entry| entry.name.as_str() == name)
    }

    /// The bytes of the file of this name.
    pub fn bytes(&self, name: &str) -> Option<&[u8]> {
        let at = self.find(name)?;
        Some(self.entries[at].bytes.as_slice())
    }

    /// Puts a text as a layer of the map in the file `map`.
    pub fn put(&mut self, name: &str, text: &str) -> Result<u64, LayersStop> {
        self.put_as(LayerKind::Layer, name, text)
    }

    /// Puts a text as a policy of that map.
    pub fn put_policy(&mut self, name: &str, text: &str) -> Result<u64, LayersStop> {
        self.put_as(LayerKind::Policy, name, text)
    }

    fn put_as(&mut self, kind: LayerKind, name: &str, text: &str) -> Result<u64, LayersStop> {
        put(self, kind, name, "map", &[], 100, &mut text.as_bytes())
    }
}

/// Copies bytes behind those of the entry.
fn append(entry: &mut Entry, bytes: &[u8]) -> Result<(), Fault> {
    entry.bytes.extend_from_slice(bytes).map_err(|_| Fault)
}

impl FileSystem for Desk {
    type Opened = Reader<Cursor<Vec<u8>>>;

    type Draft = String;

    type Mode = ();

    ghost has_opened = { λ _ _ _. Unit {0} };

    ghost could_not_open = { λ _ _. Unit {0} };

    ghost makes = { λ _ _ _. Unit {0} };

    fn open(&self, name: &str) -> Result<Reader<Cursor<Vec<u8>>>, Fault> {
        let bytes = self.bytes(name).ok_or(Fault)?;
        match bytes.to_vec(self.alloc) {
            Ok(bytes) => Ok(Reader::new(Cursor::new(bytes))),
            Err(_) => Err(Fault),
        }
    }

    fn look_at(&mut self, name: &str) -> Result<FileForm, Fault> {
        match self.find(name) {
            Some(_) => Ok(FileForm::File),
            None => Ok(FileForm::Nothing),
        }
    }

    fn look_behind(&mut self, _name: &str) -> Result<FileForm, Fault> {
        Err(Fault)
    }

    fn follow(&mut self, _alloc: Global, _name: &str) -> Result<String, RunError> {
        Err(RunError::Device)
    }

    fn create(&mut self, place: &str) -> Result<String, CreateError> {
        if self.find(place).is_some() {
            return Err(CreateError::Taken);
        }
        self.made = self.made.saturating_add(1);
        match (self.add(place, b""), String::from_str(self.alloc, place)) {
            (Ok(()), Ok(name)) => Ok(name),
            _ => Err(CreateError::Fault),
        }
    }

    fn open_to_write(&mut self, _place: &str) -> Result<String, Fault> {
        Err(Fault)
    }

    fn mode_of(&mut self, _place: &str) -> Result<(), Fault> {
        Ok(())
    }

    fn set_mode(&mut self, _file: &String, _mode: ()) -> Result<(), Fault> {
        Ok(())
    }

    fn write(&mut self, file: &mut String, bytes: &[u8]) -> Result<(), Fault> {
        let at = self.find(file.as_str()).ok_or(Fault)?;
        append(&mut self.entries[at], bytes)
    }

    fn sync(&mut self, _file: &String) -> Result<(), Fault> {
        Ok(())
    }

    fn rename(&mut self, from: &str, to: &str) -> Result<(), Fault> {
        let name = String::from_str(self.alloc, to).map_err(|_| Fault)?;
        self.remove_file(to);
        let at = self.find(from).ok_or(Fault)?;
        self.entries[at].name = name;
        Ok(())
    }

    fn remove(&mut self, place: &str) -> Result<(), Fault> {
        self.remove_file(place);
        Ok(())
    }
}

impl Desk {
    /// Takes the file of this name away, where there is one.
    fn remove_file(&mut self, name: &str) {
        if let Some(at) = self.find(name) {
            let _ = self.entries.remove(at);
        }
    }
}
