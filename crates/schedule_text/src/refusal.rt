//! Why a text is no schedule.
ghost use Rattle.std.specs.Prelude.{◌≡◌, Some};
ghost use Rattle.schedule_text.specs.Lines.{refusal_text};
ghost use Rattle.schedule_text.specs.declared.refusal.ScheduleRefusal.TheVariants.{NoMemory};

use commit_offsets::PlanRefusal;
use helios_model::SiteId;
use json_text::Refusal;
use std::alloc::AllocError;
use std::fmt;

/// Why a text is no schedule: the first rule that it breaks, in this order, or that memory ran out.
#[derive(Clone, Copy, Debug, PartialEq, Eq)]
pub enum ScheduleRefusal {
    /// The text is no JSON.
    NotJson,
    /// It is no object with a `plan` and an array as `steps`.
    BadShape,
    /// The plan is refused.
    PlanRefused(PlanRefusal),
    /// The first two sites, row by row, whose latencies together don't reach their round trip.
    ShortPair(SiteId, SiteId),
    /// There are so many steps, more than 100,000.
    TooManySteps(u64),
    /// The first step, by its number from 0, that has no form of a step.
    BadStep(u64),
    NoMemory,
}

impl fmt::Display for ScheduleRefusal {
    ghost output = { λ refusal. Some (refusal_text refusal) };

    fn fmt<W: fmt::Write>(&self, f: &mut fmt::Formatter<W>) -> fmt::Result {
        match self {
            ScheduleRefusal::NotJson => write!(f, "not-json"),
            ScheduleRefusal::BadShape => write!(f, "bad-shape"),
            ScheduleRefusal::PlanRefused(refusal) => write!(f, "plan {refusal}"),
            ScheduleRefusal::ShortPair(i, j) => {
                let i = i.number();
                let j = j.number();
                write!(f, "short-pair {i} {j}")
            }
            ScheduleRefusal::TooManySteps(count) => write!(f, "too-many-steps {count}"),
            ScheduleRefusal::BadStep(number) => write!(f, "bad-step {number}"),
            ScheduleRefusal::NoMemory => write!(f, "no-memory"),
        }
    }
}

impl Refusal for ScheduleRefusal {
    ghost memory = { NoMemory };

    fn no_memory() -> ScheduleRefusal {
        ScheduleRefusal::NoMemory
    }
}

impl From<AllocError> for ScheduleRefusal {
    ghost from_gives = { λ _ refusal. refusal ≡ NoMemory };

    fn from(_error: AllocError) -> ScheduleRefusal {
        ScheduleRefusal::NoMemory
    }
}
