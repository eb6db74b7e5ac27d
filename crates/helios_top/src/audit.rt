ghost use Rattle.std.specs.Prelude.{IfOk};
ghost use Rattle.helios_top.specs.Answers.{EndsOver};
ghost use Rattle.helios_top.specs.declared.words.Command.TheVariants.{Audit};

use crate::{Ending, Refusal};
use history_audit::{HistoryRefusal, audit, read_history};
use std::alloc::{AllocError, Global};

/// The verdict on the history that the text is.
pub(crate) fn answer(alloc: Global, text: &[u8]) -> Result<Ending, AllocError>
    ensures { IfOk result (EndsOver Audit text.now) }
{
    match read_history(alloc, text) {
        Ok(history) => Ok(Ending::Audited(audit(alloc, &history)?)),
        Err(HistoryRefusal::NoMemory) => Err(AllocError),
        Err(refusal) => Ok(Ending::Refused(Refusal::OfHistory(refusal))),
    }
}
