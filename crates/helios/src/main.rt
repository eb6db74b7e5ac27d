//! The program `helios`: it hands the words of the command line, the standard input, the standard
//! output, a disk and a bench of empty disks to `helios_top::run`, and ends with the status that comes
//! out. The disk is the file of the journal for the words that read one, and else an empty one.
#![tactic(auto)]

ghost use Rattle.std.specs.Prelude.{◌≡◌, IfErr, IfOk, IsErrAnd, MatchResult, drop};
ghost use Rattle.std.specs.Vec.Iter.{into_iter_items};
ghost use Rattle.helios.specs.Words.{IsReason, IsWordless, RunsOver, RunsWords, Streams, no_disk, opens_journal};
ghost use Rattle.helios_top.specs.Outside.{disk_seen};
ghost use Rattle.helios_top.specs.Words.{texts};
ghost use Rattle.helios.specs.declared.NoWords.TheVariants.{NotText, NoMemory};

use disk_store::{Bench, Disk, FileDisk, MemDisk};
use helios_top::run;
use outside_io::{Sink, Source, StdSink, StdSource};
use std::alloc::{AllocError, Global};
use std::os::unix::fs::FileExt;
use std::process::ExitCode;
use std::rt::Files;
use std::{env, io};

#[cfg(test)]
mod tests;

/// The file of a node's journal, in the folder that the program runs in.
const JOURNAL: &str = "helios.journal";

/// Why no words are run. The program then ends without a line.
#[derive(Clone, Copy, Debug, PartialEq, Eq)]
enum NoWords {
    /// A word is not UTF-8 text.
    NotText,
    /// There was no memory for the words, for the bench or for the disk.
    NoMemory,
    /// The file of the journal could not be opened.
    NoJournal,
}

impl NoWords {
    fn status(self) -> u8
        ensures text { self ≡ NoWords.NotText → result ≡ 1 }
        ensures memory { self ≡ NoWords.NoMemory → result ≡ 4 }
        ensures journal { self ≡ NoWords.NoJournal → result ≡ 6 }
    {
        match self {
            NoWords::NotText => 1,
            NoWords::NoMemory => 4,
            NoWords::NoJournal => 6,
        }
    }
}

impl From<io::Error> for NoWords {
    ghost from_gives = { λ error none. IsReason error none };

    fn from(error: io::Error) -> NoWords {
        match error.kind() {
            io::ErrorKind::InvalidData => NoWords::NotText,
            _ => NoWords::NoMemory,
        }
    }
}

impl From<AllocError> for NoWords {
    ghost from_gives = { λ _ none. none ≡ NoMemory };

    fn from(_refused: AllocError) -> NoWords {
        NoWords::NoMemory
    }
}

/// The words of a command line behind the first, which is the program's own name.
fn words_of(alloc: Global, all: io::Result<env::Args>) -> Result<Vec<String>, NoWords>
    ensures words { IfOk all (λ args. MatchResult result
        (λ words. words.items ≡ drop 1 (into_iter_items args))
        (λ none. none ≡ NoMemory)) }
    ensures refused { IfErr all (λ error. IsErrAnd result (IsReason error)) }
{
    Ok(behind_first(alloc, all?)?)
}

fn behind_first(alloc: Global, all: env::Args) -> Result<Vec<String>, AllocError>
    ensures { IfOk result (λ words. words.items ≡ drop 1 (into_iter_items all)) }
{
    all.skip(1).collect(alloc)
}

/// Runs a command line over an input, an output and the files of its folder, and gives the exit status.
fn run_command_line<R: Files, S: Source, K: Sink>(
    files: &R,
    alloc: Global,
    all: io::Result<env::Args>,
    input: &mut S,
    output: &mut K,
) -> u8
where
    R::File: FileExt,
    ensures run { IfOk all (λ args.
        let before : Streams = record { input = S.seen input.old; output = K.seen output.old } in
        let after : Streams = record { input = S.seen input.new; output = K.seen output.new } in
        RunsWords (drop 1 (into_iter_items args)) before after result) }
    ensures wordless { IfErr all (λ error.
        let before : Streams = record { input = S.seen input.old; output = K.seen output.old } in
        let after : Streams = record { input = S.seen input.new; output = K.seen output.new } in
        IsWordless error before after result) }
{
    match words_of(alloc, all) {
        Ok(words) => run_words(files, alloc, &words, input, output),
        Err(none) => none.status(),
    }
}

/// Whether the words read the file of the journal.
fn opens_journal(words: &Vec<String>) -> bool
    ensures { result ≡ opens_journal (texts words.now.items) }
{
    match words.as_slice() {
        [first, ..] => first.as_str() == "dump",
        [] => false,
    }
}

/// Runs the words over the disk that they are for.
fn run_words<R: Files, S: Source, K: Sink>(
    files: &R,
    alloc: Global,
    words: &Vec<String>,
    input: &mut S,
    output: &mut K,
) -> u8
where
    R::File: FileExt,
    ensures { let before : Streams = record { input = S.seen input.old; output = K.seen output.old } in
        let after : Streams = record { input = S.seen input.new; output = K.seen output.new } in
        RunsWords words.now.items before after result }
{
    if !opens_journal(words) {
        return run_without_journal(alloc, words, input, output);
    }
    match FileDisk::over(files, JOURNAL) {
        Ok(mut disk) => run_over(alloc, words, input, output, &mut disk),
        Err(_) => NoWords::NoJournal.status(),
    }
}

/// Runs the words over an empty disk without room, which is made for them.
fn run_without_journal<S: Source, K: Sink>(
    alloc: Global,
    words: &Vec<String>,
    input: &mut S,
    output: &mut K,
) -> u8
    ensures { let before : Streams = record { input = S.seen input.old; output = K.seen output.old } in
        let after : Streams = record { input = S.seen input.new; output = K.seen output.new } in
        RunsOver no_disk words.now.items before after result }
{
    match MemDisk::new(Vec::new(alloc), 0) {
        Ok(mut disk) => run_over(alloc, words, input, output, &mut disk),
        Err(_) => NoWords::NoMemory.status(),
    }
}

/// Runs the words over a disk, and over a bench that is made for them.
fn run_over<S: Source, K: Sink, D: Disk>(
    alloc: Global,
    words: &Vec<String>,
    input: &mut S,
    output: &mut K,
    disk: &mut D,
) -> u8
    ensures { let before : Streams = record { input = S.seen input.old; output = K.seen output.old } in
        let after : Streams = record { input = S.seen input.new; output = K.seen output.new } in
        RunsOver (disk_seen D.state D.past D.outlook D.keeps D.faults disk.old) words.now.items before after result }
{
    match Bench::new(alloc) {
        Ok(mut bench) => run(alloc, words, input, output, disk, &mut bench).0,
        Err(_) => NoWords::NoMemory.status(),
    }
}

fn main(rt: HostRuntime) -> ExitCode {
    let mut input = StdSource::over(&rt);
    let mut output = StdSink::over(&rt);
    let status = run_command_line(&rt, rt.alloc(), env::args(&rt), &mut input, &mut output);
    ExitCode::from(status)
}
