//! The generator of steps: what it draws for each, in their order.
ghost use Rattle.std.specs.Prelude.{◌≡◌, ◌+◌, ◌<◌, ◌≤◌, ◌++◌, [], IfOk, OnOk};
ghost use Rattle.sample_schedules.specs.Generator.{plain_request, pull, pulled, push, rare, request, step, batch_stop, stopped_request};

use crate::draws::Draws;
use crate::parts::{batch, key, value};
use disk_store::{Keep, Stop};
use helios_model::{PutItem, Puts, SiteId};
use schedule_text::{Planned, PlannedRead, PlannedReads, PlannedVersion, Step};
use std::alloc::{AllocError, Global};

/// How far back from the newest message a Push goes.
const RECENT: u64 = 16;

/// Makes steps for a plan of 2 to 32 sites, one after the other.
#[derive(Drop)]
pub struct Generator {
    pub sites: u8,
    pub draws: Draws,
    /// The site that each Pull so far was to.
    pub targets: Vec<SiteId>,
    ghost some: { 2 ≤ sites },
    ghost few: { sites ≤ 32 },
}

impl Draws {
    /// A request of the step with this number: the key that it reads is drawn, and then the key that it writes.
    #[tactic(auto, unfolding(crate::specs::Generator::request))]
    pub fn request(&mut self, alloc: Global, at: u64, number: u64) -> Result<Planned, AllocError>
        ensures asked { IfOk result (λ asked. asked ≡ (request at number self.old.state).0) }
        ensures state { OnOk result (self.new.state ≡ (request at number self.old.state).1) }
    {
        let read = self.draw(50);
        let written = self.draw(50);
        let read = PlannedRead {
            key: key(alloc, read)?,
            version: PlannedVersion::Current,
        };
        let put = PutItem {
            key: key(alloc, written)?,
            value: value(alloc, number)?,
        };
        let reads = PlannedReads::new(vec![in alloc; read]?);
        let puts = Puts::new(vec![in alloc; put]?);
        Ok(Planned::Request { at, reads, puts })
    }

    /// Where a batch stops: the call is drawn, and then the byte that is kept.
    #[tactic(auto, unfolding(crate::specs::Generator::batch_stop))]
    pub fn stop(&mut self) -> Stop
        ensures value { result ≡ (batch_stop self.old.state).0 }
        ensures state { self.new.state ≡ (batch_stop self.old.state).1 }
    {
        let call = 1 + self.draw(4) as u8;
        let keep = Keep::Byte(self.draw(2) as u8);
        Stop { call, keep }
    }
}

impl Generator {
    /// A generator that has made no step, for a plan of so many sites, from the number on.
    pub fn new(alloc: Global, number: u64, sites: u8) -> Generator
        requires some { 2 ≤ sites }
        requires few { sites ≤ 32 }
        ensures sites { result.sites ≡ sites }
        ensures state { result.draws.state ≡ number }
        ensures targets { result.targets.items ≡ [] }
    {
        Generator {
            sites,
            draws: Draws { state: number },
            targets: Vec::new(alloc),
        }
    }

    /// A Request.
    #[tactic(auto, unfolding(crate::specs::Generator::plain_request, crate::specs::Generator::request))]
    pub fn plain_request(
        &mut self,
        alloc: Global,
        site: SiteId,
        at: u64,
        number: u64,
    ) -> Result<Step, AllocError>
        ensures step { IfOk result (λ step. step ≡ (plain_request site at number self.old.draws.state).0) }
        ensures state { OnOk result (self.new.draws.state ≡ (plain_request site at number self.old.draws.state).1) }
        ensures none { IfOk result (λ step. pulled step ≡ []) }
        ensures targets { self.new.targets.items ≡ self.old.targets.items }
        ensures sites { self.new.sites ≡ self.old.sites }
    {
        let plain = self.draws.request(alloc, at, number)?;
        batch(alloc, site, plain, None)
    }

    /// A Request with a stop, which is drawn behind it.
    #[tactic(auto, unfolding(crate::specs::Generator::stopped_request, crate::specs::Generator::request))]
    pub fn stopped_request(
        &mut self,
        alloc: Global,
        site: SiteId,
        at: u64,
        number: u64,
    ) -> Result<Step, AllocError>
        ensures step { IfOk result (λ step. step ≡ (stopped_request site at number self.old.draws.state).0) }
        ensures state { OnOk result (self.new.draws.state ≡ (stopped_request site at number self.old.draws.state).1) }
        ensures none { IfOk result (λ step. pulled step ≡ []) }
        ensures targets { self.new.targets.items ≡ self.old.targets.items }
        ensures sites { self.new.sites ≡ self.old.sites }
    {
        let asked = self.draws.request(alloc, at, number)?;
        let stop = self.draws.stop();
        batch(alloc, site, asked, Some(stop))
    }

    /// A Pull to another site.
    #[tactic(auto, unfolding(crate::specs::Generator::pull))]
    pub fn pull(&mut self, alloc: Global, site: SiteId, at: u64) -> Result<Step, AllocError>
        ensures step { IfOk result (λ step. step ≡ (pull self.old.sites site at self.old.draws.state).0) }
        ensures state { OnOk result (self.new.draws.state ≡ (pull self.old.sites site at self.old.draws.state).1) }
        ensures targets { IfOk result (λ step. self.new.targets.items ≡ self.old.targets.items ++ pulled step) }
        ensures sites { self.new.sites ≡ self.old.sites }
    {
        let drawn = self.draws.draw(u64::from(self.sites) - 1) as u8;
        let number = if drawn < site.number() {
            drawn
        } else {
            drawn + 1
        };
        let to = SiteId::of(number);
        self.targets.push(to)?;
        batch(alloc, site, Planned::Pull { at, to }, None)
    }

    /// The Push of one of the last messages, or a Pull where there is none.
    #[tactic(auto, unfolding(crate::specs::Generator::push_recent))]
    pub fn push(&mut self, alloc: Global, site: SiteId, at: u64) -> Result<Step, AllocError>
        ensures step { IfOk result (λ step. step ≡ (push self.old.sites self.old.targets.items site at self.old.draws.state).0) }
        ensures state { OnOk result (self.new.draws.state ≡ (push self.old.sites self.old.targets.items site at self.old.draws.state).1) }
        ensures targets { IfOk result (λ step. self.new.targets.items ≡ self.old.targets.items ++ pulled step) }
        ensures sites { self.new.sites ≡ self.old.sites }
    {
        let made = self.targets.len() as u64;
        if made == 0 {
            return self.pull(alloc, site, at);
        }
        let back = self.draws.draw(made.min(RECENT));
        let message = made - 1 - back;
        let to = self.targets[message as usize];
        batch(alloc, to, Planned::Push { at, message }, None)
    }

    /// One of the rarer steps.
    #[tactic(auto, unfolding(crate::specs::Generator::rare))]
    pub fn rare(
        &mut self,
        alloc: Global,
        site: SiteId,
        at: u64,
        number: u64,
    ) -> Result<Step, AllocError>
        ensures step { IfOk result (λ step. step ≡ (rare self.old.sites self.old.targets.items number site at self.old.draws.state).0) }
        ensures state { OnOk result (self.new.draws.state ≡ (rare self.old.sites self.old.targets.items number site at self.old.draws.state).1) }
        ensures targets { IfOk result (λ step. self.new.targets.items ≡ self.old.targets.items ++ pulled step) }
        ensures sites { self.new.sites ≡ self.old.sites }
    {
        match self.draws.draw(10) {
            0 => Ok(Step::Restart { site, stop: None }),
            1 => self.stopped_request(alloc, site, at, number),
            _ => self.push(alloc, site, at),
        }
    }

    /// The step with this number.
    #[tactic(auto, unfolding(crate::specs::Generator::step))]
    pub fn step(&mut self, alloc: Global, number: u64) -> Result<Step, AllocError>
        requires { number < 100000 }
        ensures step { IfOk result (λ made. made ≡ (step self.old.sites self.old.targets.items number self.old.draws.state).0) }
        ensures state { OnOk result (self.new.draws.state ≡ (step self.old.sites self.old.targets.items number self.old.draws.state).1) }
        ensures targets { IfOk result (λ made. self.new.targets.items ≡ self.old.targets.items ++ pulled made) }
        ensures sites { self.new.sites ≡ self.old.sites }
    {
        let site = SiteId::of(self.draws.draw(u64::from(self.sites)) as u8);
        let at = 1000 * number + self.draws.draw(5000);
        match self.draws.draw(8) {
            0..=3 => self.plain_request(alloc, site, at, number),
            4 | 5 => self.pull(alloc, site, at),
            6 => self.push(alloc, site, at),
            _ => self.rare(alloc, site, at, number),
        }
    }
}
