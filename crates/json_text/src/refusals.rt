//! What a reader answers where it gives no value.
ghost use Rattle.std.specs.Prelude.{◌≡◌, MatchBool};
ghost use Rattle.json_text.specs.declared.refusals.Unread.TheVariants.{NoMemory, OtherForm};
ghost use Rattle.json_text.specs.Unread.{because};

use std::alloc::{AllocError, AllocFailed};

/// Why a whole text gives no value: a rule that it breaks, or want of memory.
pub trait Refusal: Copy {
    /// The refusal that stands for want of memory.
    ghost memory: { Self };

    fn no_memory() -> Self
        ensures { result ≡ memory };
}

/// Why a part of a text gives no value.
#[derive(Clone, Copy, Debug, PartialEq, Eq)]
pub enum Unread {
    /// The part has another form.
    OtherForm,
    /// There was no memory.
    NoMemory,
}

impl Unread {
    /// The refusal of the whole, where this one stands for a part of another form.
    pub fn because<E: Refusal>(self, refusal: E) -> E
        ensures { result ≡ because E.memory refusal self }
    {
        match self {
            Unread::OtherForm => refusal,
            Unread::NoMemory => E::no_memory(),
        }
    }
}

impl Refusal for Unread {
    ghost memory = { NoMemory };

    fn no_memory() -> Unread {
        Unread::NoMemory
    }
}

impl From<AllocError> for Unread {
    ghost from_gives = { λ _ unread. unread ≡ NoMemory };

    fn from(_error: AllocError) -> Unread {
        Unread::NoMemory
    }
}

impl<T: Drop> From<AllocFailed<T>> for Unread {
    ghost from_gives = { λ _ unread. unread ≡ NoMemory };

    fn from(_error: AllocFailed<T>) -> Unread {
        Unread::NoMemory
    }
}
