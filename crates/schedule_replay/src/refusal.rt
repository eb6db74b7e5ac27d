//! Why a schedule is refused: the first step before which too much was written, or that takes in a message which it cannot take in.
ghost use Rattle.std.specs.Prelude.{◌≡◌, Some, option_map, slice_get};
ghost use Rattle.schedule_replay.specs.Refusals.{input_refusal, inputs_refusal, push_refusal, refusal_text};
ghost use Rattle.schedule_replay.specs.declared.refusal.ReplayRefusal.TheVariants.{NoMemory};

use helios_model::{Message, SiteId};
use schedule_text::Planned;
use std::alloc::AllocError;
use std::fmt;

/// Why a schedule is refused at a step, by its number from 0, or that memory ran out.
#[derive(Clone, Copy, Debug, PartialEq, Eq)]
pub enum ReplayRefusal {
    /// More than 2^28 bytes were written before the step.
    ReplayFull { step: u64 },
    /// The step takes in a message, and fewer were sent before it.
    NoSuchMessage { step: u64 },
    /// The step takes in a message that is for another site.
    NotForSite { step: u64 },
    NoMemory,
}

impl fmt::Display for ReplayRefusal {
    ghost output = { λ refusal. Some (refusal_text refusal) };

    fn fmt<W: fmt::Write>(&self, f: &mut fmt::Formatter<W>) -> fmt::Result {
        match self {
            ReplayRefusal::ReplayFull { step } => write!(f, "replay-full {step}"),
            ReplayRefusal::NoSuchMessage { step } => write!(f, "no-such-message {step}"),
            ReplayRefusal::NotForSite { step } => write!(f, "not-for-site {step}"),
            ReplayRefusal::NoMemory => write!(f, "no-memory"),
        }
    }
}

impl From<AllocError> for ReplayRefusal {
    ghost from_gives = { λ _ refusal. refusal ≡ NoMemory };

    fn from(_error: AllocError) -> ReplayRefusal {
        ReplayRefusal::NoMemory
    }
}

/// The message with this number, counted from 0 in the order of release.
pub(crate) fn message_at(sent: &[Message], number: u64) -> Option<&Message>
    ensures { option_map (λ m. m.now) result ≡ slice_get sent.now number }
{
    sent.get(number as usize)
}

fn push_refusal(sent: &[Message], step: u64, site: SiteId, number: u64) -> Option<ReplayRefusal>
    ensures { result ≡ push_refusal step site (slice_get sent.now number) }
{
    match message_at(sent, number) {
        None => Some(ReplayRefusal::NoSuchMessage { step }),
        Some(m) => {
            if m.to == site {
                None
            } else {
                Some(ReplayRefusal::NotForSite { step })
            }
        }
    }
}

fn input_refusal(
    sent: &[Message],
    step: u64,
    site: SiteId,
    input: &Planned,
) -> Option<ReplayRefusal>
    ensures { result ≡ input_refusal sent.now step site input.now }
{
    match input {
        Planned::Get(_) => None,
        Planned::Status(_) => None,
        Planned::Request { .. } => None,
        Planned::Pull { .. } => None,
        Planned::Push { message, .. } => push_refusal(sent, step, site, *message),
    }
}

/// Why a batch is refused before it is run: its first input that cannot be taken, over the messages sent before it.
#[tactic(auto, using(crate::proofs::Rests::refusal_drop))]
pub(crate) fn inputs_refusal(
    sent: &[Message],
    step: u64,
    site: SiteId,
    inputs: &[Planned],
) -> Option<ReplayRefusal>
    ensures { result ≡ inputs_refusal sent.now step site inputs.now }
{
    for input in inputs {
        if let Some(refusal) = input_refusal(sent, step, site, input) {
            return Some(refusal);
        }
    }
    None
}
