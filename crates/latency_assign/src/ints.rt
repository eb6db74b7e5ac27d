ghost use Rattle.std.specs.Prelude.{◌≡◌, ℤ, List};

use std::marker::Model;

/// A list of whole numbers.
#[derive(Debug, Drop)]
pub struct Ints {
    items: Vec<i64>,
}

impl Model for Ints {
    ghost Value = { List ℤ };

    ghost view = { λ n. n.items.items };
}

impl Ints {
    pub fn new(items: Vec<i64>) -> Ints
        ensures { result ≡ items.items }
    {
        Ints { items }
    }

    pub fn items(&self) -> &[i64]
        ensures { result.now ≡ self.now }
    {
        self.items.as_slice()
    }

    pub fn into_items(self) -> Vec<i64>
        ensures { result.items ≡ self }
    {
        self.items
    }
}
