// A file system that is made up.
ghost use Rattle.std.specs.Prelude.{◌≤◌, IsErr, IfOk};

use crate::process::Answer;
use std::alloc::Allocator;
use std::cell::Cell;
use std::fs::{Metadata, OpenFile, OpenOptions};
use std::io;
use std::io::{ErrorKind, Read, Seek, SeekFrom, Write};
use std::os::unix::fs::FileExt;
use std::rt::Files;

/// A file of five bytes in a folder. Its reads and writes answer by a list, and behind it move all that
/// they can. It tells its length once, which need not be five.
#[derive(Drop)]
pub(crate) struct FileSystem {
    folder: &'static str,
    answers: &'static [Answer],
    length: Cell<Option<u64>>,
    moves: Cell<usize>,
    bytes: Cell<[u8; 5]>,
    folder_syncs: Cell<usize>,
    data_syncs: Cell<usize>,
}

impl FileSystem {
    pub(crate) fn new(folder: &'static str, answers: &'static [Answer]) -> FileSystem {
        FileSystem {
            folder,
            answers,
            length: Cell::new(Some(5)),
            moves: Cell::new(0),
            bytes: Cell::new(*b"right"),
            folder_syncs: Cell::new(0),
            data_syncs: Cell::new(0),
        }
    }

    /// One whose file tells this length, or fails where it is asked for it.
    pub(crate) fn of_length(folder: &'static str, length: Option<u64>) -> FileSystem {
        let system = FileSystem::new(folder, &[]);
        system.length.set(length);
        system
    }

    /// How many reads and writes of the file there were.
    pub(crate) fn moves(&self) -> usize {
        self.moves.get()
    }

    /// How often the folder, and how often the data of the file, was synced.
    pub(crate) fn syncs(&self) -> (usize, usize) {
        (self.folder_syncs.get(), self.data_syncs.get())
    }

    /// How many of so many bytes the next call moves.
    fn next_count(&self, most: usize) -> io::Result<usize>
        ensures { IfOk result (λ count. count ≤ most) }
    {
        let call = self.moves.get();
        self.moves.set(call.wrapping_add(1));
        match self.answers.get(call) {
            Some(answer) => answer.count(most),
            None => Ok(most),
        }
    }
}

/// The file or its folder, once opened.
#[derive(Drop)]
pub(crate) struct Opened<'a> {
    system: &'a FileSystem,
    is_folder: bool,
}

fn broken<T>() -> io::Result<T>
    ensures { IsErr result }
{
    Err(ErrorKind::StorageFull.into())
}

fn count_one(count: &Cell<usize>) -> io::Result<()> {
    count.set(count.get().wrapping_add(1));
    Ok(())
}

impl<'a> FileExt for Opened<'a> {
    fn read_at(&self, buf: &mut [u8], offset: u64) -> io::Result<usize> {
        let bytes = self.system.bytes.get();
        let rest = bytes.split_at(bytes.len().min(offset as usize)).1;
        let count = self.system.next_count(rest.len().min(buf.len()))?;
        buf[..count].copy_from_slice(&rest[..count]);
        Ok(count)
    }

    fn write_at(&self, buf: &[u8], offset: u64) -> io::Result<usize> {
        let mut bytes = self.system.bytes.get();
        let start = bytes.len().min(offset as usize);
        let rest = &mut bytes[start..];
        let count = self.system.next_count(rest.len().min(buf.len()))?;
        rest[..count].copy_from_slice(&buf[..count]);
        self.system.bytes.set(bytes);
        Ok(count)
    }
}

impl<'a> Read for Opened<'a> {
    fn read(&mut self, _buf: &mut [u8]) -> io::Result<usize> {
        broken()
    }
}

impl<'a> Write for Opened<'a> {
    fn write(&mut self, _buf: &[u8]) -> io::Result<usize> {
        broken()
    }

    fn flush(&mut self) -> io::Result<()> {
        broken()
    }
}

impl<'a> Seek for Opened<'a> {
    fn seek(&mut self, _to: SeekFrom) -> io::Result<u64> {
        broken()
    }
}

impl<'a> OpenFile for Opened<'a> {
    /// It succeeds once.
    fn metadata(&self) -> io::Result<Metadata> {
        match self.system.length.replace(None) {
            Some(length) => Ok(Metadata::of_file(length)),
            None => broken(),
        }
    }

    fn set_len(&self, _size: u64) -> io::Result<()> {
        broken()
    }

    fn sync_all(&self) -> io::Result<()> {
        if self.is_folder {
            count_one(&self.system.folder_syncs)
        } else {
            broken()
        }
    }

    /// It succeeds once.
    fn sync_data(&self) -> io::Result<()> {
        if self.is_folder || self.system.data_syncs.get() > 0 {
            broken()
        } else {
            count_one(&self.system.data_syncs)
        }
    }
}

impl<'a> Files for &'a FileSystem {
    type File = Opened<'a>;

    type Dir = Opened<'a>;

    fn open_file(&self, how: &OpenOptions, path: &str) -> io::Result<Opened<'a>> {
        let is_folder = path == self.folder;
        if is_folder == how.asks_write() {
            return Err(ErrorKind::NotFound.into());
        }
        Ok(Opened {
            system: *self,
            is_folder,
        })
    }

    fn open_dir(&self, _path: &str) -> io::Result<Opened<'a>> {
        broken()
    }

    fn metadata(&self, _path: &str) -> io::Result<Metadata> {
        broken()
    }

    fn symlink_metadata(&self, _path: &str) -> io::Result<Metadata> {
        broken()
    }

    fn copy(&self, _from: &str, _to: &str) -> io::Result<u64> {
        broken()
    }

    fn rename(&self, _from: &str, _to: &str) -> io::Result<()> {
        broken()
    }

    fn remove_file(&self, _path: &str) -> io::Result<()> {
        broken()
    }

    fn create_dir(&self, _path: &str) -> io::Result<()> {
        broken()
    }

    fn remove_dir(&self, _path: &str) -> io::Result<()> {
        broken()
    }

    fn remove_dir_all<B: Allocator>(&self, _alloc: B, _path: &str) -> io::Result<()> {
        broken()
    }
}
