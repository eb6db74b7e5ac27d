ghost use Rattle.std.specs.Prelude.{◌≡◌, Some};
ghost use Rattle.weighted_plan.specs.declared.refusal.WeightsRefusal.TheVariants.{NoMemory};
ghost use Rattle.weighted_plan.specs.Lines.{refusal_text};

use json_text::Refusal;
use std::alloc::{AllocError, AllocFailed};
use std::fmt;

/// Why a text has no weights: the first rule that it breaks, or that memory ran out.
#[derive(Clone, Copy, Debug, PartialEq, Eq)]
pub enum WeightsRefusal {
    /// The text is no JSON.
    NotJson,
    /// It is no object whose `weights` are an array of as many whole numbers from 1 to 1000 as there are sites.
    BadWeights,
    NoMemory,
}

impl fmt::Display for WeightsRefusal {
    ghost output = { λ refusal. Some (refusal_text refusal) };

    fn fmt<W: fmt::Write>(&self, f: &mut fmt::Formatter<W>) -> fmt::Result {
        match self {
            WeightsRefusal::NotJson => write!(f, "not-json"),
            WeightsRefusal::BadWeights => write!(f, "bad-weights"),
            WeightsRefusal::NoMemory => write!(f, "no-memory"),
        }
    }
}

impl Refusal for WeightsRefusal {
    ghost memory = { NoMemory };

    fn no_memory() -> WeightsRefusal {
        WeightsRefusal::NoMemory
    }
}

impl From<AllocError> for WeightsRefusal {
    ghost from_gives = { λ _ refusal. refusal ≡ NoMemory };

    fn from(_error: AllocError) -> WeightsRefusal {
        WeightsRefusal::NoMemory
    }
}
