ghost use Rattle.std.specs.Prelude.{IfOk, []};
ghost use Rattle.helios_top.specs.Answers.{EndsOver};
ghost use Rattle.helios_top.specs.Benches.{LeavesOver};
ghost use Rattle.helios_top.specs.Ending.{end_of};
ghost use Rattle.helios_top.specs.declared.words.Command.TheVariants.{Trial};

use crate::Ending;
use crate::replay::{Told, answer_schedule};
use disk_store::Bench;
use sample_schedules::make_schedule;
use std::alloc::{AllocError, Global};

/// What the replay of the number's schedule comes to, each site over its disk of the bench.
pub(crate) fn answer(alloc: Global, number: u64, bench: &mut Bench) -> Result<Ending, AllocError>
    ensures ends { IfOk result (EndsOver (Trial number) []) }
    ensures leaves { LeavesOver (Trial number) [] bench.old bench.new (end_of result) }
{
    let schedule = make_schedule(alloc, number, 4, 4000)?;
    answer_schedule(alloc, Told::Summary(number), &schedule, bench)
}
