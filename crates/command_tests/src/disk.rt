//! A runtime for tests, whose files lie in memory.
ghost use Rattle.std.specs.Io.{WritesAtMost};

use std::alloc::{Allocator, Global};
use std::cell::{Cell, RefCell};
use std::env::{Env, FillError};
use std::fs::{Metadata, OpenFile, OpenOptions, Permissions};
use std::io;
use std::io::{ErrorKind, Read, Seek, SeekFrom, Write};
use std::net::{Net, SocketAddr, TcpListener, TcpStream};
use std::path::PathBuf;
use std::rt::Files;

/// What stands under a name.
#[derive(Clone, Copy)]
pub enum Entry<'a> {
    Bytes(&'a [u8]),
    /// A file that fails once these bytes were read.
    Cut(&'a [u8]),
    /// A file that gives so many bytes a read.
    Slow(&'a [u8], usize),
}

/// What lies at the place `out`.
#[derive(Clone, Copy, Debug, PartialEq, Eq)]
pub enum Out {
    Nothing,
    File,
    /// A file, beside which a file `out.part` lies that was left there.
    FileAndPart,
    /// A link to the file `out.there`.
    Link,
    /// Neither a file nor nothing.
    Special,
}

/// The words of a process, its files by their names, and what was written. Only `out` and the names
/// that begin with `out.` can be written.
#[derive(Drop)]
pub struct Disk<'a> {
    pub alloc: Global,
    /// The first is the program's name.
    pub words: &'a [&'a [u8]],
    pub files: &'a [(&'a str, Entry<'a>)],
    pub out: Out,
    /// After so many further calls each call fails.
    pub calls: &'a Cell<usize>,
    /// What was done to `out` and beside it, a line for each call.
    pub log: &'a RefCell<Vec<u8>>,
    /// The bytes at `out`, or where it leads to, and those of a new file beside it.
    pub bytes: &'a RefCell<Vec<u8>>,
    pub part: &'a RefCell<Vec<u8>>,
}

/// An open file: what is left to read, how much one read gives, whether the next read at its end
/// fails, and where what is written goes.
#[derive(Drop)]
pub struct Opened<'a> {
    rest: &'a [u8],
    most: usize,
    fails: bool,
    calls: &'a Cell<usize>,
    log: &'a RefCell<Vec<u8>>,
    written: &'a RefCell<Vec<u8>>,
}

impl<'a> Alloc for Disk<'a> {
    type A = Global;

    fn alloc(&self) -> Global {
        self.alloc
    }
}

/// Copies a word to the start of the buffer, and answers how long it is.
fn fill(word: &[u8], buf: &mut [u8]) -> Result<usize, FillError>
    ensures bound { WritesAtMost result buf.new }
{
    if word.len() > buf.len() {
        return Err(FillError::TooLong);
    }
    buf[..word.len()].copy_from_slice(word);
    Ok(word.len())
}

impl<'a> Env for Disk<'a> {
    fn arg(&self, i: usize, buf: &mut [u8]) -> Result<usize, FillError> {
        match self.words.get(i) {
            Some(word) => fill(word, buf),
            None => Err(FillError::NotPresent),
        }
    }

    fn var(&self, _name: &str, _buf: &mut [u8]) -> Result<usize, FillError> {
        Err(FillError::NotPresent)
    }

    fn var_at(&self, _i: usize, _buf: &mut [u8]) -> Result<usize, FillError> {
        Err(FillError::NotPresent)
    }
}

fn unsupported<T>() -> io::Result<T> {
    Err(io::Error::from(ErrorKind::Unsupported))
}

/// Adds a line to a log, and fails once the calls are used up.
fn note(calls: &Cell<usize>, log: &RefCell<Vec<u8>>, what: &str, name: &str) -> io::Result<()> {
    let Ok(mut log) = log.try_borrow_mut() else {
        return Err(io::Error::from(ErrorKind::ResourceBusy));
    };
    log.extend_from_slice(what.as_bytes())?;
    log.extend_from_slice(name.as_bytes())?;
    log.push(b'\n')?;
    let left = calls.get();
    if left == 0 {
        return Err(io::Error::from(ErrorKind::Other));
    }
    calls.set(left - 1);
    Ok(())
}

/// Puts these bytes in the place of others.
fn put(to: &RefCell<Vec<u8>>, bytes: &[u8]) -> io::Result<()> {
    let Ok(mut to) = to.try_borrow_mut() else {
        return Err(io::Error::from(ErrorKind::ResourceBusy));
    };
    to.clear();
    to.extend_from_slice(bytes)?;
    Ok(())
}

impl<'a> Disk<'a> {
    fn opened(&self, written: &'a RefCell<Vec<u8>>) -> Opened<'a> {
        Opened {
            rest: &[],
            most: usize::MAX,
            fails: false,
            calls: self.calls,
            log: self.log,
            written,
        }
    }

    /// A file that is read.
    fn readable(&self, entry: &Entry<'a>) -> Opened<'a> {
        let mut file = self.opened(self.part);
        match entry {
            Entry::Bytes(bytes) => file.rest = bytes,
            Entry::Cut(bytes) => {
                file.rest = bytes;
                file.fails = true;
            }
            Entry::Slow(bytes, most) => {
                file.rest = bytes;
                file.most = *most;
            }
        }
        file
    }

    /// The file that is written: a new one, or `out` itself.
    fn open_to_write(&self, how: &OpenOptions, path: &str) -> io::Result<Opened<'a>> {
        if how.asks_create_new() {
            note(self.calls, self.log, "new ", path)?;
            if path == "out.part" && self.out == Out::FileAndPart {
                return Err(io::Error::from(ErrorKind::AlreadyExists));
            }
            return Ok(self.opened(self.part));
        }
        note(self.calls, self.log, "open ", path)?;
        Ok(self.opened(self.bytes))
    }

    /// Where what lies at `out` has its own place.
    fn place(&self) -> &'static str {
        match self.out {
            Out::Link => "out.there",
            _ => "out",
        }
    }

    fn open_to_read(&self, path: &str) -> io::Result<Opened<'a>> {
        for (name, entry) in self.files {
            if *name == path {
                return Ok(self.readable(entry));
            }
        }
        Err(io::Error::from(ErrorKind::NotFound))
    }
}

impl<'a> Files for Disk<'a> {
    type File = Opened<'a>;

    type Dir = io::Empty;

    fn open_file(&self, how: &OpenOptions, path: &str) -> io::Result<Opened<'a>> {
        how.check()?;
        if !how.asks_write() {
            return self.open_to_read(path);
        }
        if path != "out" && !path.starts_with("out.") {
            return Err(io::Error::from(ErrorKind::PermissionDenied));
        }
        self.open_to_write(how, path)
    }

    fn open_dir(&self, _path: &str) -> io::Result<io::Empty> {
        unsupported()
    }

    fn metadata(&self, path: &str) -> io::Result<Metadata> {
        note(self.calls, self.log, "look behind ", path)?;
        match self.out {
            Out::Nothing => Err(io::Error::from(ErrorKind::NotFound)),
            Out::File | Out::FileAndPart | Out::Link => Ok(Metadata::of_file(0)),
            Out::Special => Ok(Metadata::of_dir()),
        }
    }

    fn symlink_metadata(&self, path: &str) -> io::Result<Metadata> {
        note(self.calls, self.log, "look at ", path)?;
        match self.out {
            Out::Nothing => Err(io::Error::from(ErrorKind::NotFound)),
            Out::File | Out::FileAndPart => Ok(Metadata::of_file(0)),
            Out::Link => Ok(Metadata::of_symlink(0)),
            Out::Special => Ok(Metadata::of_dir()),
        }
    }

    fn canonicalize<B: Allocator>(&self, alloc: B, path: &str) -> io::Result<PathBuf<B>> {
        note(self.calls, self.log, "follow ", path)?;
        Ok(PathBuf::from_str(alloc, self.place())?)
    }

    fn copy(&self, _from: &str, _to: &str) -> io::Result<u64> {
        unsupported()
    }

    fn rename(&self, from: &str, to: &str) -> io::Result<()> {
        note(self.calls, self.log, "move ", from)?;
        if to != self.place() {
            return unsupported();
        }
        match self.part.try_borrow() {
            Ok(part) => put(self.bytes, &part),
            Err(_) => Err(io::Error::from(ErrorKind::ResourceBusy)),
        }
    }

    fn remove_file(&self, path: &str) -> io::Result<()> {
        note(self.calls, self.log, "remove ", path)
    }

    fn create_dir(&self, _path: &str) -> io::Result<()> {
        unsupported()
    }

    fn remove_dir(&self, _path: &str) -> io::Result<()> {
        unsupported()
    }

    fn remove_dir_all<B: Allocator>(&self, _alloc: B, _path: &str) -> io::Result<()> {
        unsupported()
    }
}

/// No port can be listened on or connected to.
impl<'a> Net for Disk<'a> {
    type Stream = TcpStream;

    type Listener = TcpListener;

    fn bind(&self, _addr: SocketAddr) -> io::Result<TcpListener> {
        unsupported()
    }

    fn connect(&self, _addr: SocketAddr) -> io::Result<TcpStream> {
        unsupported()
    }
}

impl<'a> Read for Opened<'a> {
    fn read(&mut self, buf: &mut [u8]) -> io::Result<usize> {
        if self.rest.is_empty() && self.fails {
            return Err(io::Error::from(ErrorKind::Other));
        }
        let count = buf.len().min(self.most);
        self.rest.read(&mut buf[..count])
    }
}

impl<'a> Write for Opened<'a> {
    fn write(&mut self, buf: &[u8]) -> io::Result<usize> {
        note(self.calls, self.log, "write", "")?;
        let Ok(mut written) = self.written.try_borrow_mut() else {
            return Err(io::Error::from(ErrorKind::ResourceBusy));
        };
        let count = buf.len().min(50);
        written.extend_from_slice(&buf[..count])?;
        Ok(count)
    }

    fn flush(&mut self) -> io::Result<()> {
        Ok(())
    }
}

impl<'a> Seek for Opened<'a> {
    fn seek(&mut self, _to: SeekFrom) -> io::Result<u64> {
        unsupported()
    }
}

impl<'a> OpenFile for Opened<'a> {
    fn metadata(&self) -> io::Result<Metadata> {
        unsupported()
    }

    fn set_len(&self, _size: u64) -> io::Result<()> {
        unsupported()
    }

    fn sync_all(&self) -> io::Result<()> {
        note(self.calls, self.log, "sync", "")
    }

    fn sync_data(&self) -> io::Result<()> {
        unsupported()
    }

    fn set_permissions(&self, _perm: Permissions) -> io::Result<()> {
        note(self.calls, self.log, "mode", "")
    }
}
