// Which calls of a disk in memory fail, and what a crash leaves.
ghost use Rattle.std.specs.Prelude.{◌≡◌, ◌||◌, not, [], if◌then◌else◌, is_ok};
ghost use Rattle.outside_io.specs.Causes.{IsCount};
ghost use Rattle.disk_store.specs.Fates.{script_turn, script_next, succeeded};

use outside_io::{Failed, FaultCount};
use std::alloc::Global;
use std::marker::Model;

/// What a crash leaves where it comes by a script.
#[derive(Clone, Copy, Debug, PartialEq, Eq)]
pub enum Keep {
    /// The disk as it reads.
    All,
    /// The disk as at the last sync that succeeded.
    Nothing,
    /// The length as it reads, with this byte at each place that is not synced.
    Byte(u8),
}

/// Where the calls of a disk stop, and what the crash then leaves.
#[derive(Clone, Copy, Debug, PartialEq, Eq)]
pub struct Stop {
    /// The call that fails, from 1, counted over all four calls of the trait.
    pub call: u8,
    pub keep: Keep,
}

/// A stop that a disk was given.
#[derive(Clone, Copy, Debug, PartialEq, Eq)]
pub struct Script {
    /// How many calls there are up to the one that fails, or 0 once it has failed.
    pub left: u8,
    pub keep: Keep,
}

/// What becomes of one call.
#[derive(Clone, Copy, PartialEq, Eq)]
pub(crate) enum Turn {
    /// It is done and answers Ok.
    Done,
    /// It is done and answers that it failed.
    Stopped,
    /// It does nothing and answers that it failed.
    Skipped,
}

impl Turn {
    /// What a call without a value answers.
    pub(crate) fn answer(self) -> Result<(), Failed>
        ensures { is_ok result ≡ succeeded self }
    {
        match self {
            Turn::Done => Ok(()),
            Turn::Stopped | Turn::Skipped => Err(Failed),
        }
    }
}

/// Which calls fail, by a script or by a list of their numbers.
#[derive(Drop)]
pub(crate) struct Fate {
    pub(crate) script: Option<Script>,
    fails: Vec<u64>,
    calls: u64,
    faults: FaultCount,
}

impl Model for Fate {
    ghost use Rattle.outside_io.specs.Causes.{IsCount};
    ghost use Rattle.disk_store.specs.Fates.{FateState};

    ghost Value = { FateState };

    ghost view = { λ f. record { script = f.script; fails = f.fails.items; calls = f.calls; faults = f.faults } };

    ghost invariant = { λ f. IsCount f.faults };
}

impl Fate {
    ghost use Rattle.disk_store.specs.Fates.{FateState, turn_of, fate_next};
    ghost use Rattle.disk_store.specs.Memory.{keep_of};

    pub(crate) fn new(alloc: Global) -> Fate
        ensures { result ≡ record { script = None; fails = []; calls = 0; faults = 0 } }
    {
        Fate {
            script: None,
            fails: Vec::new(alloc),
            calls: 0,
            faults: FaultCount::new(),
        }
    }

    /// From here on the call with the stop's number is the one that fails.
    pub(crate) fn set_script(&mut self, stop: Stop)
        ensures { self.new ≡ record self.old { script = Some (record { left = stop.call; keep = stop.keep }) } }
    {
        self.script = Some(Script {
            left: stop.call,
            keep: stop.keep,
        });
    }

    /// Ends the script and says what it keeps, or nothing where there is none.
    pub(crate) fn end_script(&mut self) -> Keep
        ensures keep { result ≡ keep_of self.old.script }
        ensures ended { self.new ≡ record self.old { script = None } }
    {
        let keep = match self.script {
            None => Keep::Nothing,
            Some(script) => script.keep,
        };
        self.script = None;
        keep
    }

    /// From here on the calls with these numbers fail.
    pub(crate) fn set_fails(&mut self, fails: Vec<u64>)
        ensures { self.new ≡ record self.old { fails = fails.items; calls = 0 } }
    {
        self.fails = fails;
        self.calls = 0;
    }

    /// No call is to fail.
    pub(crate) fn clear(&mut self)
        ensures { self.new ≡ record { script = None; fails = []; calls = 0; faults = self.old.faults } }
    {
        self.script = None;
        self.fails.clear();
        self.calls = 0;
    }

    /// Counts a call, which finds room or does not, and says what becomes of it.
    pub(crate) fn take_turn(&mut self, fits: bool) -> Turn
        ensures turn { result ≡ turn_of fits self.old }
        ensures next { self.new ≡ fate_next result self.old }
        ensures counted { IsCount self.old.faults }
        ensures count { IsCount self.new.faults }
    {
        let named = self.fails.contains(&self.calls);
        let turn = turn_by(named, fits, self.script);
        self.calls = self.calls.saturating_add(1);
        self.script = one_call_later(self.script);
        if turn != Turn::Done {
            self.faults.count_fault();
        }
        turn
    }
}

fn turn_by(named: bool, fits: bool, script: Option<Script>) -> Turn
    ensures { result ≡ (if named || not fits then Turn.Skipped else script_turn script) }
{
    if named || !fits {
        return Turn::Skipped;
    }
    match script {
        None => Turn::Done,
        Some(script) if script.left == 0 => Turn::Skipped,
        Some(script) if script.left == 1 => Turn::Stopped,
        Some(_) => Turn::Done,
    }
}

fn one_call_later(script: Option<Script>) -> Option<Script>
    ensures { result ≡ script_next script }
{
    match script {
        None => None,
        Some(script) => Some(Script {
            left: script.left.saturating_sub(1),
            keep: script.keep,
        }),
    }
}
