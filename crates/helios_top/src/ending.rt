ghost use Rattle.std.specs.Prelude.{◌≡◌, ◌++◌, Some, IfOk, string_bytes};
ghost use Rattle.helios_top.specs.Ending.{refusal_text, status_of, text_of};
ghost use Rattle.helios_top.specs.Verdicts.{audit_line, audit_status, stale_line, verdict_status, verdict_text};

use crate::JournalRefusal;
use crate::journal::journal_line;
use commit_offsets::PlanRefusal;
use helios_model::{Bytes, Key, SiteId, Version};
use history_audit::{AuditVerdict, HistoryRefusal};
use plan_certificate::Verdict;
use rtt_matrix::MatrixRefusal;
use schedule_replay::ReplayRefusal;
use schedule_text::ScheduleRefusal;
use std::alloc::{AllocError, Global};
use std::fmt;
use weighted_plan::WeightsRefusal;

/// The program's exit status.
#[derive(Clone, Copy, Debug, PartialEq, Eq)]
pub struct Status(pub u8);

/// Why an input is not accepted.
#[derive(Clone, Copy, Debug, PartialEq, Eq)]
pub enum Refusal {
    /// The input has more bytes than a command reads.
    TooLarge,
    /// The text of a schedule breaks a rule.
    OfSchedule(ScheduleRefusal),
    /// Too much was written before a step of the schedule, or it takes in a message that it can not take in.
    OfReplay(ReplayRefusal),
    /// The text of a plan breaks a rule.
    OfPlan(PlanRefusal),
    /// The text of a matrix breaks a rule.
    OfMatrix(MatrixRefusal),
    /// The text of a history breaks a rule.
    OfHistory(HistoryRefusal),
    /// The weights of a text whose matrix was read break a rule.
    OfWeights(WeightsRefusal),
    /// The first two sites of the plan, row by row, whose latencies together don't reach their round trip.
    ShortPair(SiteId, SiteId),
    /// The plan has no such site.
    NoSuchSite(SiteId),
}

/// How a run ends.
#[derive(Debug, Drop)]
pub enum Ending {
    /// The words name no command.
    Usage,
    /// The input could not be read.
    ReadFault,
    /// There was no memory.
    NoMemory,
    /// The command refuses its input.
    Refused(Refusal),
    /// A call on the disk failed.
    DiskFault,
    /// The journal on the disk is refused.
    JournalRefused(JournalRefusal),
    /// The text that the command prints.
    Printed(Bytes),
    /// The verdict on a plan.
    Judged(Verdict),
    /// The verdict on a history.
    Audited(AuditVerdict),
}

impl fmt::Display for Refusal {
    ghost output = { λ refusal. Some (refusal_text refusal) };

    fn fmt<W: fmt::Write>(&self, f: &mut fmt::Formatter<W>) -> fmt::Result {
        match self {
            Refusal::TooLarge => write!(f, "too-large"),
            Refusal::OfSchedule(refusal) => write!(f, "{refusal}"),
            Refusal::OfReplay(refusal) => write!(f, "{refusal}"),
            Refusal::OfPlan(refusal) => write!(f, "{refusal}"),
            Refusal::OfMatrix(refusal) => write!(f, "{refusal}"),
            Refusal::OfHistory(refusal) => write!(f, "{refusal}"),
            Refusal::OfWeights(refusal) => write!(f, "{refusal}"),
            Refusal::ShortPair(i, j) => {
                let i = i.number();
                let j = j.number();
                write!(f, "short-pair {i} {j}")
            }
            Refusal::NoSuchSite(site) => {
                let site = site.number();
                write!(f, "no-such-site {site}")
            }
        }
    }
}

fn verdict_status(verdict: &Verdict) -> u8
    ensures { result ≡ verdict_status verdict.now }
{
    match verdict {
        Verdict::Optimal(_) => 0,
        Verdict::Short(..) | Verdict::NoPairing(_) | Verdict::ValueDiffers(..) => 9,
    }
}

fn audit_status(verdict: &AuditVerdict) -> u8
    ensures { result ≡ audit_status verdict.now }
{
    match verdict {
        AuditVerdict::Serial(_) => 0,
        AuditVerdict::NotSerial { .. } => 9,
    }
}

/// Three texts behind each other.
pub(crate) fn joined(
    alloc: Global,
    first: &[u8],
    second: &[u8],
    third: &[u8],
) -> Result<Bytes, AllocError>
    ensures { IfOk result (λ text. text ≡ first.now ++ (second.now ++ third.now)) }
{
    let mut text = Vec::new(alloc);
    text.extend_from_slice(first)?;
    text.extend_from_slice(second)?;
    text.extend_from_slice(third)?;
    Ok(Bytes::new(text))
}

/// The line of a read of a key where another version was current, at the place of its transaction.
fn stale_line(
    alloc: Global,
    place: u64,
    key: &Key,
    read: &Version,
    current: &Version,
) -> Result<Bytes, AllocError>
    ensures { IfOk result (λ text. text ≡ stale_line place key.now read.now current.now) }
{
    let head = format!(in alloc; "not-serial {place} ")?;
    let versions = format!(in alloc; " {read} {current}\n")?;
    let text = joined(alloc, head.as_bytes(), key.items(), versions.as_bytes())?;
    Ok(text)
}

fn audit_line(alloc: Global, verdict: &AuditVerdict) -> Result<Bytes, AllocError>
    ensures { IfOk result (λ text. text ≡ audit_line verdict.now) }
{
    match verdict {
        AuditVerdict::Serial(count) => Ok(text_from(format!(in alloc; "serial {count}\n")?)),
        AuditVerdict::NotSerial {
            place,
            key,
            read,
            current,
        } => stale_line(alloc, *place, key, read, current),
    }
}

/// A verdict as it is printed, with its numbers.
#[derive(Drop)]
struct VerdictText(Verdict);

impl fmt::Display for VerdictText {
    ghost output = { λ shown. Some (verdict_text shown.0) };

    fn fmt<W: fmt::Write>(&self, f: &mut fmt::Formatter<W>) -> fmt::Result {
        match &self.0 {
            Verdict::Optimal(total) => write!(f, "optimal {total}"),
            Verdict::Short(i, j) => {
                let i = i.number();
                let j = j.number();
                write!(f, "short {i} {j}")
            }
            Verdict::NoPairing(i) => write!(f, "no-pairing {i}"),
            Verdict::ValueDiffers(given, value) => write!(f, "value-differs {given} {value}"),
        }
    }
}

impl Ending {
    /// The status that is due for this end.
    pub(crate) fn status(&self) -> u8
        ensures { result ≡ status_of self.now }
    {
        match self {
            Ending::Usage => 1,
            Ending::ReadFault => 2,
            Ending::NoMemory => 4,
            Ending::Refused(_) => 5,
            Ending::DiskFault => 6,
            Ending::JournalRefused(_) => 8,
            Ending::Printed(_) => 0,
            Ending::Judged(verdict) => verdict_status(verdict),
            Ending::Audited(verdict) => audit_status(verdict),
        }
    }

    /// The whole text that is due for this end.
    #[tactic(auto, unfolding(crate::specs::Ending::text_of))]
    pub(crate) fn into_text(self, alloc: Global) -> Result<Bytes, AllocError>
        ensures { IfOk result (λ text. text ≡ text_of self) }
    {
        match self {
            Ending::Usage => Ok(text_from(format!(in alloc; "usage: helios COMMAND [WORDS]\n")?)),
            Ending::ReadFault => Ok(text_from(format!(in alloc; "fault read\n")?)),
            Ending::NoMemory => Ok(text_from(format!(in alloc; "fault memory\n")?)),
            Ending::Refused(refusal) => Ok(text_from(format!(in alloc; "refused {refusal}\n")?)),
            Ending::DiskFault => Ok(text_from(format!(in alloc; "fault disk\n")?)),
            Ending::JournalRefused(refusal) => journal_line(alloc, &refusal),
            Ending::Printed(text) => Ok(text),
            Ending::Judged(verdict) => {
                let verdict = VerdictText(verdict);
                Ok(text_from(format!(in alloc; "{verdict}\n")?))
            }
            Ending::Audited(verdict) => audit_line(alloc, &verdict),
        }
    }
}

/// The bytes of a line.
pub(crate) fn text_from(line: String) -> Bytes
    ensures { result ≡ string_bytes line }
{
    Bytes::new(line.into_bytes())
}
