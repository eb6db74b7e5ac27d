// A disk that is a file.
ghost use Rattle.std.specs.Prelude.{◌≡◌, ℕ, ◌≤◌, List, None, length, IfOk, IfSome, MatchResult};
ghost use Rattle.outside_io.specs.Causes.{HasCause, IsCount, one_more};

use crate::Disk;
use outside_io::{Failed, FaultCount};
use std::fs::{OpenFile, OpenOptions};
use std::io::ErrorKind;
use std::marker::Model;
use std::os::unix::fs::FileExt;
use std::path::Path;
use std::rt::Files;
use std::{fs, io};

/// A file, read and written at places without a buffer. It does not tell its contents; it counts the calls
/// that failed.
#[derive(Drop)]
pub struct FileDisk<R: Files> {
    file: R::File,
    faults: FaultCount,
}

impl<R: Files> Model for FileDisk<R> {
    ghost use Rattle.std.specs.Prelude.{ℕ};
    ghost use Rattle.outside_io.specs.Causes.{IsCount};

    ghost Value = { ℕ };

    ghost view = { λ f. f.faults };

    ghost invariant = { λ f. IsCount f.faults };
}

impl<R: Files> FileDisk<R> {
    /// The file at this path, made where it is missing; `Failed` where it cannot be opened or does not
    /// tell its length, or where it is empty and its entry in its folder cannot be made durable.
    pub fn over(rt: &R, path: &str) -> Result<FileDisk<R>, Failed>
        ensures { IfOk result (λ disk. disk ≡ 0) }
    {
        match open_durably(rt, path) {
            Ok(file) => Ok(FileDisk {
                file,
                faults: FaultCount::new(),
            }),
            Err(_) => Err(Failed),
        }
    }
}

impl<R: Files> Disk for FileDisk<R>
where
    R::File: FileExt,
{
    ghost state = { λ _. None };

    ghost past = { λ _. None };

    ghost outlook = { λ _. None };

    ghost keeps = { λ _. None };

    ghost faults = { λ f. f };

    fn len(&mut self) -> Result<u64, Failed>
        ensures after { MatchResult result (λ _. self.new ≡ self.old) (λ _. self.new ≡ one_more self.old) }
        ensures count { IsCount self.new }
        ensures cause { HasCause self.old self.new result }
    {
        match self.file.metadata() {
            Ok(metadata) => Ok(metadata.len()),
            Err(_) => Err(self.faults.count_fault()),
        }
    }

    fn read_at(&mut self, at: u64, into: &mut [u8]) -> Result<usize, Failed>
        ensures after { MatchResult result (λ _. self.new ≡ self.old) (λ _. self.new ≡ one_more self.old) }
        ensures bound { IfOk result (λ count. count ≤ length into.new) }
        ensures count { IsCount self.new }
        ensures cause { HasCause self.old self.new result }
    {
        match read_all_at(&self.file, at, into) {
            Some(count) => Ok(count),
            None => Err(self.faults.count_fault()),
        }
    }

    fn write_at(&mut self, at: u64, from: &[u8]) -> Result<(), Failed>
        ensures after { MatchResult result (λ _. self.new ≡ self.old) (λ _. self.new ≡ one_more self.old) }
        ensures count { IsCount self.new }
        ensures cause { HasCause self.old self.new result }
    {
        match self.file.write_all_at(from, at) {
            Ok(()) => Ok(()),
            Err(_) => Err(self.faults.count_fault()),
        }
    }

    fn sync(&mut self) -> Result<(), Failed>
        ensures after { MatchResult result (λ _. self.new ≡ self.old) (λ _. self.new ≡ one_more self.old) }
        ensures count { IsCount self.new }
        ensures cause { HasCause self.old self.new result }
    {
        match self.file.sync_data() {
            Ok(()) => Ok(()),
            Err(_) => Err(self.faults.count_fault()),
        }
    }
}

/// Opens a file to read and write it, made where it is missing, whose entry in its folder is durable.
fn open_durably<R: Files>(rt: &R, path: &str) -> io::Result<R::File> {
    let mut options = OpenOptions::new();
    options.read(true).write(true).create(true);
    let file = options.open(rt, path)?;
    // An empty file may have been made by a process that ended before its folder was synced. One that
    // holds bytes got them behind that sync, so its folder need not even be readable.
    if file.metadata()?.len() == 0 {
        fs::open(rt, folder_of(path))?.sync_all()?;
    }
    Ok(file)
}

/// The path of the folder that a path names a file of.
fn folder_of(path: &str) -> &str {
    match Path::new(path).parent() {
        Some(folder) if !folder.as_str().is_empty() => folder.as_str(),
        _ => ".",
    }
}

/// Reads from a place on until the buffer is full or the file ends; `None` where a read failed.
fn read_all_at<F: FileExt>(file: &F, at: u64, into: &mut [u8]) -> Option<usize>
    ensures { IfSome result (λ count. count ≤ length into.new) }
{
    let mut count = 0;
    for _ in 0..u64::MAX {
        if count == into.len() {
            return Some(count);
        }
        match file.read_at(&mut into[count..], at.wrapping_add(count as u64)) {
            Ok(0) => return Some(count),
            Ok(more) => count += more,
            Err(error) if error.kind() == ErrorKind::Interrupted => {}
            Err(_) => return None,
        }
    }
    None
}
