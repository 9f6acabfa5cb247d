//! A scale of quantiles, by the logarithm of the inverted distance to 1.

ghost use Rattle.std.specs.Prelude.{◌≤◌, ◌*◌, ◌↔◌, max, IsTrue};
ghost use Rattle.hdr_draw.specs.Scales.{HasQuantile, IsQuantilePlace, IsQuantileScale};

use crate::axis::Axis;
use crate::logarithm::{OCTAVE, logarithm};
use std::marker::Model;

/// A scale from the quantile 0 to 1 - 1/(2n) for n samples, or to p99 if that is greater.
///
/// A quantile q is at the logarithm of 1/(1 - q), so p90, p99 and p99.9 are equally far apart.
#[derive(Debug, Drop)]
pub struct QuantileScale {
    axis: Axis,
    end: u64,
}

impl Model for QuantileScale {
    ghost use Rattle.std.specs.Prelude.{◌≡◌};
    ghost use Rattle.hdr_draw.specs.Scales.{Extent};

    ghost Value = { Extent };

    ghost view = { λ s. s.axis };

    ghost invariant = { λ s. (s.axis.from ≡ 0) × (s.axis.span ≡ s.end) };
}

impl QuantileScale {
    /// Returns the scale for at most this number of samples. It reaches p99 at least.
    pub fn new(samples: u64) -> QuantileScale
        ensures { IsQuantileScale result samples }
    {
        let end = (logarithm(samples) + OCTAVE).max(logarithm(100));
        QuantileScale {
            axis: Axis::new(0, end),
            end,
        }
    }

    /// Returns the distance along `width` of the quantile that `part` of `all` samples are above.
    pub fn place(&self, all: u64, part: u64, width: u32) -> u32
        ensures place { IsQuantilePlace self.now width all part result }
        ensures within { result ≤ width }
    {
        let distance = logarithm(all).saturating_sub(logarithm(part));
        self.axis.place(distance, width)
    }

    /// Returns how far the greatest of some samples is along a width: half a sample is above it.
    pub fn place_of_last(&self, samples: u64, width: u32) -> u32
        ensures place { IsQuantilePlace self.now width (2 * max 1 samples) 1 result }
        ensures within { result ≤ width }
    {
        self.axis.place(logarithm(samples) + OCTAVE, width)
    }

    /// Whether the quantile 1 - 1/`inverse` is on the scale.
    pub fn contains(&self, inverse: u64) -> bool
        ensures { IsTrue result ↔ HasQuantile self.now inverse }
    {
        logarithm(inverse) <= self.end
    }
}
