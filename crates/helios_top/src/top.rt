ghost use Rattle.std.specs.Prelude.{◌≡◌, ◌≢◌, ◌+◌, ◌≤◌, None, Some, IfOk, true};
ghost use Rattle.outside_io.specs.Causes.{StaysTold};
ghost use Rattle.outside_io.specs.Whole.{TakesAtMost};
ghost use Rattle.helios_top.specs.declared.ending.Ending.{Ending};
ghost use Rattle.helios_top.specs.Answers.{EndsBy, EndsOver, IsAnswer};
ghost use Rattle.helios_top.specs.Benches.{BenchAfter, Leaves, LeavesOver};
ghost use Rattle.helios_top.specs.Disks.{DiskAfter, DiskOver};
ghost use Rattle.helios_top.specs.Ending.{Came, WroteText, end_of, text_of};
ghost use Rattle.helios_top.specs.Inputs.{ReadsInput};
ghost use Rattle.helios_top.specs.IsRun.{IsRun};
ghost use Rattle.helios_top.specs.Outside.{Outside, disk_seen, most_input_bytes};
ghost use Rattle.helios_top.specs.Refusals.{leaves_input, reads_input};
ghost use Rattle.helios_top.specs.Words.{command_of, texts};

use crate::replay::Told;
use crate::words::read_words;
use crate::{
    Command, Ending, INPUT_LIMIT, Refusal, Status, audit, check, dump, plan, replay, trial, weigh,
};
use disk_store::{Bench, Disk};
use outside_io::{InputError, Sink, Source, read_whole, write_whole};
use std::alloc::{AllocError, Global};

/// Does what the words ask for, which are without the program's own name: reads the input, writes
/// one text or one line, and gives the exit status. A replay runs its sites over the disks of the
/// bench, which it makes empty first; all else leaves the bench as it is. A dump reads the journal on the disk, which
/// all else leaves as it is. A trial reads no input.
pub fn run<S: Source, K: Sink, D: Disk>(
    alloc: Global,
    words: &Vec<String>,
    input: &mut S,
    output: &mut K,
    disk: &mut D,
    bench: &mut Bench,
) -> Status
    ensures run { let before : Outside = record {
      input = S.seen input.old;
      output = K.seen output.old;
      disk = disk_seen D.state D.past D.outlook D.keeps D.faults disk.old;
      bench = bench.old;
    } in
        let after : Outside = record {
          input = S.seen input.new;
          output = K.seen output.new;
          disk = disk_seen D.state D.past D.outlook D.keeps D.faults disk.new;
          bench = bench.new;
        } in
        IsRun (texts words.now.items) before after result.0 }
    ensures unread { leaves_input (command_of (texts words.now.items)) ≡ true → input.new ≡ input.old }
{
    let ending = ending_of(alloc, words, input, disk, bench);
    let status = write_ending(alloc, output, ending);
    Status(status)
}

/// The end of a run, before anything is written.
#[tactic(auto, using(crate::proofs::Inputs::takes_nothing))]
fn ending_of<S: Source, D: Disk>(
    alloc: Global,
    words: &Vec<String>,
    input: &mut S,
    disk: &mut D,
    bench: &mut Bench,
) -> Ending
    ensures unread { leaves_input (command_of (texts words.now.items)) ≡ true → input.new ≡ input.old }
    ensures ends { EndsBy (command_of (texts words.now.items)) (S.seen input.old) (S.seen input.new) result }
    ensures disk { DiskAfter (command_of (texts words.now.items)) (S.seen input.old) (S.seen input.new)
        (disk_seen D.state D.past D.outlook D.keeps D.faults disk.old)
        (disk_seen D.state D.past D.outlook D.keeps D.faults disk.new) result }
    ensures leaves { BenchAfter (command_of (texts words.now.items)) (S.seen input.old) (S.seen input.new) bench.old bench.new result }
    ensures steady { result ≢ Ending.ReadFault → (S.seen input.new).faults ≡ (S.seen input.old).faults }
    ensures tells { StaysTold (S.seen input.old).left (S.seen input.new).left }
    ensures later { (S.seen input.old).faults ≤ (S.seen input.new).faults }
    ensures most { TakesAtMost (most_input_bytes + 1) (S.seen input.old).left (S.seen input.new).left }
{
    match read_words(words) {
        None => Ending::Usage,
        Some(command) => ending_of_command(alloc, command, input, disk, bench),
    }
}

/// The end of a command.
#[tactic(auto, using(crate::proofs::Inputs::takes_nothing, crate::proofs::Inputs::answers_unread, crate::proofs::Benches::bench_unread, crate::proofs::Disks::disk_unread))]
fn ending_of_command<S: Source, D: Disk>(
    alloc: Global,
    command: Command,
    input: &mut S,
    disk: &mut D,
    bench: &mut Bench,
) -> Ending
    ensures unread { leaves_input (Some command) ≡ true → input.new ≡ input.old }
    ensures ends { ReadsInput command (S.seen input.old) (S.seen input.new) result (IsAnswer command result) }
    ensures disk { DiskAfter (Some command) (S.seen input.old) (S.seen input.new)
        (disk_seen D.state D.past D.outlook D.keeps D.faults disk.old)
        (disk_seen D.state D.past D.outlook D.keeps D.faults disk.new) result }
    ensures leaves { Leaves command (S.seen input.old) (S.seen input.new) bench.old bench.new result }
    ensures steady { result ≢ Ending.ReadFault → (S.seen input.new).faults ≡ (S.seen input.old).faults }
    ensures tells { StaysTold (S.seen input.old).left (S.seen input.new).left }
    ensures later { (S.seen input.old).faults ≤ (S.seen input.new).faults }
    ensures most { TakesAtMost (most_input_bytes + 1) (S.seen input.old).left (S.seen input.new).left }
{
    if command.reads_input() {
        read_and_answer(alloc, command, input, disk, bench)
    } else {
        answered(answer(alloc, command, &[], disk, bench))
    }
}

/// The end of a command over its input.
#[tactic(auto, using(crate::proofs::Inputs::answers_input, crate::proofs::Benches::bench_left, crate::proofs::Disks::disk_left, crate::proofs::Disks::disk_before))]
fn read_and_answer<S: Source, D: Disk>(
    alloc: Global,
    command: Command,
    input: &mut S,
    disk: &mut D,
    bench: &mut Bench,
) -> Ending
    requires { reads_input command ≡ true }
    ensures ends { ReadsInput command (S.seen input.old) (S.seen input.new) result (IsAnswer command result) }
    ensures disk { DiskAfter (Some command) (S.seen input.old) (S.seen input.new)
        (disk_seen D.state D.past D.outlook D.keeps D.faults disk.old)
        (disk_seen D.state D.past D.outlook D.keeps D.faults disk.new) result }
    ensures leaves { Leaves command (S.seen input.old) (S.seen input.new) bench.old bench.new result }
    ensures steady { result ≢ Ending.ReadFault → (S.seen input.new).faults ≡ (S.seen input.old).faults }
    ensures tells { StaysTold (S.seen input.old).left (S.seen input.new).left }
    ensures later { (S.seen input.old).faults ≤ (S.seen input.new).faults }
    ensures most { TakesAtMost (most_input_bytes + 1) (S.seen input.old).left (S.seen input.new).left }
{
    match read_whole(alloc, input, INPUT_LIMIT) {
        Ok(Some(bytes)) => answered(answer(alloc, command, bytes.as_slice(), disk, bench)),
        Ok(None) => Ending::Refused(Refusal::TooLarge),
        Err(InputError::Failed) => Ending::ReadFault,
        Err(InputError::NoMemory) => Ending::NoMemory,
    }
}

fn answered(answer: Result<Ending, AllocError>) -> Ending
    ensures { result ≡ end_of answer }
{
    match answer {
        Ok(ending) => ending,
        Err(_) => Ending::NoMemory,
    }
}

/// The end of a command over what it goes by: its whole input, or nothing.
fn answer<D: Disk>(
    alloc: Global,
    command: Command,
    input: &[u8],
    disk: &mut D,
    bench: &mut Bench,
) -> Result<Ending, AllocError>
    ensures ends { IfOk result (EndsOver command input.now) }
    ensures disk { DiskOver command input.now (disk_seen D.state D.past D.outlook D.keeps D.faults disk.old)
        (disk_seen D.state D.past D.outlook D.keeps D.faults disk.new) (end_of result) }
    ensures leaves { LeavesOver command input.now bench.old bench.new (end_of result) }
{
    match command {
        Command::Replay => replay::answer(alloc, Told::Report, input, bench),
        Command::History => replay::answer(alloc, Told::History, input, bench),
        Command::Trial(number) => trial::answer(alloc, number, bench),
        Command::Check => check::answer(alloc, input),
        Command::Plan => plan::answer(alloc, input),
        Command::Audit => audit::answer(alloc, input),
        Command::Weigh => weigh::answer(alloc, input),
        Command::Dump(site) => dump::answer(alloc, site, input, disk),
    }
}

/// Writes what is due for the end, or the line for want of memory where there is none for it.
#[tactic(auto, unfolding(crate::specs::Ending::text_of))]
fn write_ending<K: Sink>(alloc: Global, output: &mut K, ending: Ending) -> u8
    ensures came { Came (K.seen output.old) (K.seen output.new) ending result }
    ensures steady { result ≢ 3 → (K.seen output.new).faults ≡ (K.seen output.old).faults }
    ensures tells { StaysTold (K.seen output.old).taken (K.seen output.new).taken }
    ensures later { (K.seen output.old).faults ≤ (K.seen output.new).faults }
{
    let due = ending.status();
    match ending.into_text(alloc) {
        Ok(text) => write_text(output, text.items(), due),
        Err(_) => write_text(output, b"fault memory\n", 4),
    }
}

/// Writes the text, and gives the status that is due, or 3 where a write fails.
fn write_text<K: Sink>(output: &mut K, text: &[u8], due: u8) -> u8
    ensures wrote { WroteText (K.seen output.old) (K.seen output.new) text.now due result }
    ensures steady { result ≢ 3 → (K.seen output.new).faults ≡ (K.seen output.old).faults }
    ensures tells { StaysTold (K.seen output.old).taken (K.seen output.new).taken }
    ensures later { (K.seen output.old).faults ≤ (K.seen output.new).faults }
{
    match write_whole(output, text) {
        Ok(()) => due,
        Err(_) => 3,
    }
}
