ghost use Rattle.std.specs.Prelude.{◌≡◌, ℕ, ℤ, List};

use helios_model::{Names, Times};
use std::marker::Model;

/// Offsets as a text gives them, row after row, in half microseconds.
#[derive(Debug, Drop)]
pub(crate) struct GivenOffsets {
    items: Vec<i64>,
}

impl Model for GivenOffsets {
    ghost Value = { List ℤ };

    ghost view = { λ o. o.items.items };
}

impl GivenOffsets {
    pub(crate) fn new(items: Vec<i64>) -> GivenOffsets
        ensures { result ≡ items.items }
    {
        GivenOffsets { items }
    }

    pub(crate) fn items(&self) -> &[i64]
        ensures { result.now ≡ self.now }
    {
        self.items.as_slice()
    }
}

/// The fields of a plan's text, each of its form, before their numbers are compared.
#[derive(Debug, Drop)]
pub(crate) struct PlanFields {
    pub names: Names,
    pub trips: Times,
    pub latencies: Times,
    pub offsets: GivenOffsets,
    pub pair: Times,
    pub total: u64,
}
