ghost use Rattle.std.specs.Prelude.{◌≡◌};
ghost use Rattle.helios_top.specs.Refusals.{reads_input};
ghost use Rattle.helios_top.specs.Words.{command_alone, command_of, command_with, dump_at, dump_of, history_asked, texts, trial_of};

use helios_model::{MOST_SITES, SiteId, number_from};

/// What the words of a command line ask for.
#[derive(Clone, Copy, Debug, PartialEq, Eq)]
pub enum Command {
    /// The report of a schedule.
    Replay,
    /// The history of a schedule.
    History,
    /// What the replay of the sample schedule of a number comes to.
    Trial(u64),
    /// The verdict on a plan.
    Check,
    /// The optimal plan of a matrix.
    Plan,
    /// The verdict on a history.
    Audit,
    /// The plan of a matrix with the least weighted sum of latencies.
    Weigh,
    /// The records of the log of a site, by its journal.
    Dump(SiteId),
}

impl Command {
    /// Whether the command reads the input.
    pub(crate) fn reads_input(&self) -> bool
        ensures { result ≡ reads_input self.now }
    {
        match self {
            Command::Trial(_) => false,
            Command::Replay
            | Command::History
            | Command::Check
            | Command::Plan
            | Command::Audit
            | Command::Weigh
            | Command::Dump(_) => true,
        }
    }
}

/// The command that the words name; none where they are in no other form. The program's own name
/// is not among them.
pub(crate) fn read_words(words: &Vec<String>) -> Option<Command>
    ensures { result ≡ command_of (texts words.now.items) }
{
    match words.as_slice() {
        [word] => command_alone(word.as_str()),
        [word, argument] => command_with(word.as_str(), argument.as_str()),
        _ => None,
    }
}

fn command_alone(word: &str) -> Option<Command>
    ensures { result ≡ command_alone word.now }
{
    match word {
        "replay" => Some(Command::Replay),
        "check" => Some(Command::Check),
        "plan" => Some(Command::Plan),
        "audit" => Some(Command::Audit),
        "weigh" => Some(Command::Weigh),
        _ => None,
    }
}

fn command_with(word: &str, argument: &str) -> Option<Command>
    ensures { result ≡ command_with word.now argument.now }
{
    match word {
        "replay" => history_asked(argument),
        "trial" => trial_of(argument),
        "dump" => dump_of(argument),
        _ => None,
    }
}

fn history_asked(argument: &str) -> Option<Command>
    ensures { result ≡ history_asked argument.now }
{
    match argument {
        "--history" => Some(Command::History),
        _ => None,
    }
}

fn trial_of(argument: &str) -> Option<Command>
    ensures { result ≡ trial_of argument.now }
{
    let number = number_from(argument)?;
    Some(Command::Trial(number))
}

fn dump_of(argument: &str) -> Option<Command>
    ensures { result ≡ dump_of argument.now }
{
    let number = number_from(argument)?;
    dump_at(number)
}

fn dump_at(number: u64) -> Option<Command>
    ensures { result ≡ dump_at number }
{
    if number < u64::from(MOST_SITES) {
        Some(Command::Dump(SiteId::of(number as u8)))
    } else {
        None
    }
}
