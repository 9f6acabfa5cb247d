//! The distribution of numbers.

ghost use Rattle.std.specs.Prelude.{◌≡◌, ◌≤◌, ◌<◌, ℕ, List, length, min, max};
ghost use Rattle.hdr_model.specs.Plain.{min_of, max_of};
ghost use Rattle.hdr_model.specs.Quantiles.{value_at_quantile, ranked_sample};
ghost use Rattle.hdr_model.specs.Samples.{StandsFor};

use hdrhistogram::{Histogram, Quantile};

/// The most decimals of a unit: a 64-bit number with as many more digits fits 128 bits.
pub const MOST_DECIMALS: u32 = 18;

/// What was read, in units of its last decimal.
#[derive(Drop)]
pub struct Distribution {
    pub histogram: Histogram<u64>,
    /// The least and the greatest number.
    pub min: u64,
    pub max: u64,
    /// The sum of the numbers, or `None` if they are only known by their classes.
    pub sum: Option<u128>,
    /// The decimals of a unit.
    pub decimals: u32,
    ghost few: { decimals ≤ 18 },
}

impl Distribution {
    /// Returns the distribution of a histogram, whose numbers are only known by their classes. A
    /// unit has these decimals, `MOST_DECIMALS` at most.
    pub fn of_histogram(histogram: Histogram<u64>, decimals: u32) -> Distribution
        ensures same { result.histogram ≡ histogram }
        ensures min { result.min ≡ min_of histogram }
        ensures max { result.max ≡ max_of histogram }
        ensures decimals { decimals ≤ MOST_DECIMALS → result.decimals ≡ decimals }
    {
        Distribution {
            min: histogram.min(),
            max: histogram.max(),
            histogram,
            sum: None,
            decimals: decimals.min(MOST_DECIMALS),
        }
    }

    /// Returns the value at a quantile: the top of its class, within the least and the greatest
    /// number.
    pub fn value_at_quantile(&self, quantile: Quantile) -> u64
        ensures value { result ≡ max (min (value_at_quantile self.now.histogram quantile)
            self.now.max) self.now.min }
        // The sample of the quantile's rank is at or below it, since no sample is above the
        // greatest number.
        ensures samples { (S : List ℕ) → StandsFor self.now.histogram S → 0 < length S
            → 0 < quantile.num → ranked_sample quantile S ≤ self.now.max
            → ranked_sample quantile S ≤ result }
    {
        self.histogram
            .value_at_quantile(quantile)
            .min(self.max)
            .max(self.min)
    }
}
