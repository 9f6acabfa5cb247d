//! Scores of cells.

ghost use Rattle.std.specs.Prelude.{◌≡◌, ◌<◌, ◌^◌};

/// The score of a cell: what speaks for a run of cells, less what speaks against it.
#[derive(Clone, Copy)]
pub struct Score {
    pub gain: u128,
    pub loss: u128,
}

impl Score {
    ghost use Rattle.hdr_verdict.specs.Runs.{plus, minus, Fits};

    /// Returns `max(0, sum + score)`.
    pub(crate) fn added_to(self, sum: u128) -> u128
        requires sum { sum < 2 ^ 127 }
        requires fits { Fits self }
        ensures { result ≡ plus sum self }
    {
        (sum + self.gain).saturating_sub(self.loss)
    }

    /// Returns `max(0, sum - score)`.
    pub(crate) fn subtracted_from(self, sum: u128) -> u128
        requires sum { sum < 2 ^ 127 }
        requires fits { Fits self }
        ensures { result ≡ minus sum self }
    {
        (sum + self.loss).saturating_sub(self.gain)
    }
}
