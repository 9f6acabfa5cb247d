//! The order of samples.

/// The order in which the samples of a run are known.
#[derive(Debug, Clone, Copy, PartialEq, Eq)]
pub enum Order {
    /// It is taken as that of time.
    OfTime,
    /// They are sorted, so their order is not that of time.
    Sorted,
    /// They are counted, as by `uniq -c`, so their order is not known.
    Counted,
    /// They are known by fewer than four intervals of time.
    FewIntervals,
}

impl Order {
    ghost use Rattle.std.specs.Prelude.{◌≡◌, ◌≢◌, MatchOption};

    /// Returns what is printed of a run if its samples are taken as independent, or `None` otherwise.
    pub(crate) fn note(self) -> Option<&'static str>
        ensures { MatchOption result (self ≡ Order.OfTime) (λ note. self ≢ Order.OfTime) }
    {
        match self {
            Order::OfTime => None,
            Order::Sorted => Some(
                "is sorted, so its order is not that of time: its samples are taken as independent.",
            ),
            Order::Counted => Some(
                "has counted numbers, whose order is not known: its samples are taken as independent.",
            ),
            Order::FewIntervals => {
                Some("has fewer than 4 intervals: its samples are taken as independent.")
            }
        }
    }
}
