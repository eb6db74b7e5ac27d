// Where a disk in memory was written since its last sync.
ghost use Rattle.std.specs.Prelude.{◌≡◌};
ghost use Rattle.disk_store.specs.Places.{widened};

/// The places from the first that was written up to behind the last; none where both are the same.
#[derive(Clone, Copy)]
pub(crate) struct Window {
    pub(crate) low: usize,
    pub(crate) high: usize,
}

impl Window {
    /// Nothing was written.
    pub(crate) const EMPTY: Window = Window { low: 0, high: 0 };

    /// This window with the places from one up to another. An empty one is replaced: widened from 0, it
    /// would hold the whole disk.
    pub(crate) fn widened(self, from: usize, to: usize) -> Window
        ensures { result ≡ widened from to self }
    {
        if self.low == self.high {
            return Window {
                low: from,
                high: to,
            };
        }
        Window {
            low: self.low.min(from),
            high: self.high.max(to),
        }
    }
}
