ghost use Rattle.std.specs.Prelude.{◌≡◌, Some};
ghost use Rattle.commit_offsets.specs.declared.refusal.PlanRefusal.TheVariants.{NoMemory};
ghost use Rattle.commit_offsets.specs.Lines.{field_text, refusal_text};

use json_text::Refusal;
use std::alloc::{AllocError, AllocFailed};
use std::fmt;

/// A field of a plan's text; `Plan` stands for the whole.
#[derive(Clone, Copy, Debug, PartialEq, Eq)]
pub enum FieldName {
    Plan,
    Version,
    Names,
    Rtt,
    Latency,
    Offset,
    Pair,
    Total,
}

impl fmt::Display for FieldName {
    ghost output = { λ name. Some (field_text name) };

    fn fmt<W: fmt::Write>(&self, f: &mut fmt::Formatter<W>) -> fmt::Result {
        match self {
            FieldName::Plan => write!(f, "plan"),
            FieldName::Version => write!(f, "version"),
            FieldName::Names => write!(f, "names"),
            FieldName::Rtt => write!(f, "rtt"),
            FieldName::Latency => write!(f, "latency"),
            FieldName::Offset => write!(f, "offset"),
            FieldName::Pair => write!(f, "pair"),
            FieldName::Total => write!(f, "total"),
        }
    }
}

/// Why a text is no plan: the first rule that it breaks, or that memory ran out.
#[derive(Clone, Copy, Debug, PartialEq, Eq)]
pub enum PlanRefusal {
    /// The text is no JSON.
    NotJson,
    /// The field is missing or has another form.
    BadField(FieldName),
    /// A number of the field is over its limit.
    Limit(FieldName),
    /// The offset of two sites, in row order the first, isn't that of the plan.
    OffsetDiffers(u64, u64),
    /// The total isn't the sum of the latencies.
    TotalDiffers { given: u64, sum: u64 },
    NoMemory,
}

impl fmt::Display for PlanRefusal {
    ghost output = { λ refusal. Some (refusal_text refusal) };

    fn fmt<W: fmt::Write>(&self, f: &mut fmt::Formatter<W>) -> fmt::Result {
        match self {
            PlanRefusal::NotJson => write!(f, "not-json"),
            PlanRefusal::BadField(name) => write!(f, "bad-field {name}"),
            PlanRefusal::Limit(name) => write!(f, "limit {name}"),
            PlanRefusal::OffsetDiffers(i, j) => write!(f, "offset-differs {i} {j}"),
            PlanRefusal::TotalDiffers { given, sum } => write!(f, "total-differs {given} {sum}"),
            PlanRefusal::NoMemory => write!(f, "no-memory"),
        }
    }
}

impl Refusal for PlanRefusal {
    ghost memory = { NoMemory };

    fn no_memory() -> PlanRefusal {
        PlanRefusal::NoMemory
    }
}

impl From<AllocError> for PlanRefusal {
    ghost from_gives = { λ _ refusal. refusal ≡ NoMemory };

    fn from(_error: AllocError) -> PlanRefusal {
        PlanRefusal::NoMemory
    }
}

impl<T: Drop> From<AllocFailed<T>> for PlanRefusal {
    ghost from_gives = { λ _ refusal. refusal ≡ NoMemory };

    fn from(_error: AllocFailed<T>) -> PlanRefusal {
        PlanRefusal::NoMemory
    }
}
