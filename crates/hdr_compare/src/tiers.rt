//! The confidence of the intervals of a report.

ghost use Rattle.std.specs.Prelude.{◌≡◌, ◌<◌, ◌≤◌};
ghost use Rattle.hdr_compare.specs.Tiers.{edge_of, index_of, needed, normal_of, student_of, tier_of};

use hdrhistogram::Quantile;

/// By what the square of the normal quantile grows, in thousandths, if the variance is that over 4, 5
/// .. 16 batches, for each tier.
const STUDENTS: [[u64; 5]; 13] = [
    [2_637, 5_142, 15_427, 51_796, 186_956],
    [2_007, 3_195, 6_848, 15_963, 39_529],
    [1_721, 2_451, 4_358, 8_255, 16_416],
    [1_559, 2_072, 3_280, 5_450, 9_418],
    [1_456, 1_846, 2_701, 4_108, 6_447],
    [1_385, 1_697, 2_348, 3_350, 4_905],
    [1_333, 1_592, 2_112, 2_873, 3_994],
    [1_293, 1_514, 1_944, 2_549, 3_405],
    [1_262, 1_454, 1_819, 2_317, 2_998],
    [1_236, 1_407, 1_722, 2_143, 2_702],
    [1_215, 1_368, 1_646, 2_008, 2_479],
    [1_198, 1_336, 1_584, 1_901, 2_306],
    [1_183, 1_309, 1_532, 1_814, 2_167],
];

/// How often an interval may err, at most.
#[derive(Clone, Copy, PartialEq, Eq)]
pub enum Tier {
    FivePercent,
    OnePercent,
    OneInThousand,
    OneInTenThousand,
    OneInHundredThousand,
}

impl Tier {
    /// Returns the tier of a report of some comparisons, which errs in one of 20 reports on equal
    /// runs at most. Returns `None` for more than 5,000.
    pub fn of(comparisons: u64) -> Option<Tier>
        ensures { result ≡ tier_of comparisons }
    {
        match comparisons {
            0..=5 => Some(Tier::OnePercent),
            6..=50 => Some(Tier::OneInThousand),
            51..=500 => Some(Tier::OneInTenThousand),
            501..=5_000 => Some(Tier::OneInHundredThousand),
            _ => None,
        }
    }

    /// Returns the normal quantile of half of the error, in thousandths.
    pub fn normal(self) -> u64
        ensures value { result ≡ normal_of self }
        ensures at_most { result ≤ 4418 }
    {
        match self {
            Tier::FivePercent => 1_960,
            Tier::OnePercent => 2_576,
            Tier::OneInThousand => 3_291,
            Tier::OneInTenThousand => 3_891,
            Tier::OneInHundredThousand => 4_418,
        }
    }

    /// Returns how many independent samples have to be expected beyond a quantile, in hundredths, so
    /// that an interval reaches the last sample.
    pub fn edge(self) -> u64
        ensures value { result ≡ edge_of self }
        ensures at_most { result ≤ 1221 }
    {
        match self {
            Tier::FivePercent => 369,
            Tier::OnePercent => 530,
            Tier::OneInThousand => 761,
            Tier::OneInTenThousand => 991,
            Tier::OneInHundredThousand => 1_221,
        }
    }

    /// Returns by what the square of the normal quantile grows, in thousandths, if the variance is that
    /// over some batches: four or more.
    #[tactic(auto, unfolding(crate::specs::Tiers::student_of))]
    pub(crate) fn student(self, batches: usize) -> u64
        requires { 4 ≤ batches }
        ensures value { result ≡ student_of self batches }
        ensures some { 0 < result }
    {
        STUDENTS[batches.min(16) - 4][self.index()]
    }

    /// Returns the number of the tier, from 0.
    fn index(self) -> usize
        ensures value { result ≡ index_of self }
        ensures within { result < 5 }
    {
        match self {
            Tier::FivePercent => 0,
            Tier::OnePercent => 1,
            Tier::OneInThousand => 2,
            Tier::OneInTenThousand => 3,
            Tier::OneInHundredThousand => 4,
        }
    }

    /// Returns how many independent samples an interval of a quantile needs, to have both ends. The
    /// quantile is above 0 and below 1.
    pub fn needed(self, quantile: Quantile) -> u128
        requires above { 0 < quantile.num }
        requires below { quantile.num < quantile.den }
        ensures { result ≡ needed self quantile }
    {
        let (num, den) = (u128::from(quantile.num()), u128::from(quantile.den()));
        let beyond = num.min(den - num);
        (u128::from(self.edge()) * den).div_ceil(100 * beyond)
    }
}
