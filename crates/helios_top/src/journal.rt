//! Why the journal of a site is refused, and the line of each refusal.
ghost use Rattle.std.specs.Prelude.{◌≡◌, IfOk};
ghost use Rattle.helios_top.specs.Journals.{journal_line, wrong_plan_line, wrong_site_line};

use crate::ending::text_from;
use helios_model::{Bytes, SiteId};
use std::alloc::{AllocError, Global};

/// Why a journal is none of a site of a plan.
#[derive(Clone, Copy, Debug, PartialEq, Eq)]
pub enum JournalRefusal {
    /// The place of a gate that leads nowhere, or of a payload that is none of a journal of this site.
    Damaged(u64),
    /// The fingerprint of the plan that its head names, and of the one that was given.
    WrongPlan { kept: [u8; 32], given: [u8; 32] },
    /// The site that its head names, and the one that was given.
    WrongSite { kept: SiteId, given: SiteId },
}

fn wrong_plan_line(alloc: Global, kept: &[u8; 32], given: &[u8; 32]) -> Result<Bytes, AllocError>
    ensures { IfOk result (λ text. text ≡ wrong_plan_line kept.now given.now) }
{
    let kept = hex::encode(alloc, kept)?;
    let given = hex::encode(alloc, given)?;
    Ok(text_from(format!(in alloc; "journal wrong-plan {kept} {given}\n")?))
}

fn wrong_site_line(alloc: Global, kept: u8, given: u8) -> Result<Bytes, AllocError>
    ensures { IfOk result (λ text. text ≡ wrong_site_line kept given) }
{
    Ok(text_from(format!(in alloc; "journal wrong-site {kept} {given}\n")?))
}

pub(crate) fn journal_line(alloc: Global, refusal: &JournalRefusal) -> Result<Bytes, AllocError>
    ensures { IfOk result (λ text. text ≡ journal_line refusal.now) }
{
    match refusal {
        JournalRefusal::Damaged(at) => {
            Ok(text_from(format!(in alloc; "journal damaged {at}\n")?))
        }
        JournalRefusal::WrongPlan { kept, given } => wrong_plan_line(alloc, kept, given),
        JournalRefusal::WrongSite { kept, given } => {
            wrong_site_line(alloc, kept.number(), given.number())
        }
    }
}
