//! The steps of a schedule, and the schedule.
ghost use Rattle.std.specs.Prelude.{◌≡◌};

use crate::planned::PlannedInputs;
use disk_store::Stop;
use helios_model::{Plan, SiteId};
use std::marker::Model;

/// A step of a schedule, with the stop at a call of the site's disk, counted from 1 in the step, where it has one.
#[derive(Debug, Drop)]
pub enum Step {
    /// A batch of inputs at a site.
    Batch {
        site: SiteId,
        inputs: PlannedInputs,
        stop: Option<Stop>,
    },
    /// A site is opened anew.
    Restart {
        site: SiteId,
        stop: Option<Stop>,
    },
}

/// The steps of a schedule, in their order.
#[derive(Debug, Drop)]
pub struct StepList {
    items: Vec<Step>,
}

impl Model for StepList {
    ghost use Rattle.std.specs.Prelude.{List};
    ghost use Rattle.schedule_text.specs.declared.steps.Step.{Step};

    ghost Value = { List Step };

    ghost view = { λ l. l.items.items };
}

impl StepList {
    pub fn new(items: Vec<Step>) -> StepList
        ensures { result ≡ items.items }
    {
        StepList { items }
    }

    pub fn items(&self) -> &[Step]
        ensures { result.now ≡ self.now }
    {
        self.items.as_slice()
    }
}

/// What a cluster is to be taken through: its plan, and the steps of its sites in their order.
#[derive(Debug, Drop)]
pub struct Schedule {
    pub plan: Plan,
    pub steps: StepList,
}
