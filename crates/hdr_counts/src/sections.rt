//! The sum of a part of a section.

ghost use Rattle.std.specs.Prelude.{◌≡◌, ◌+◌, ◌*◌, ◌<◌, ◌≤◌, length, map, sum};
ghost use Rattle.hdr_base.specs.Classes.{most_bins};
ghost use Rattle.hdr_counts.specs.Blocks.{section_start, sum_below, sum_before, HasSection};

use crate::Counts;
use crate::adding::{short_sum, sum_of};
use hdr_base::Counter;

impl<T: Counter> Counts<T> {
    /// Returns the exact sum of the counters of section `k` up to and including index `i`. It reads
    /// those at the nearer end of the section.
    pub(crate) fn sum_in_section(&self, k: usize, i: usize) -> u128
        requires from { section_start self.now k ≤ i }
        requires before { i < section_start self.now (k + 1) }
        requires within { HasSection self.now k }
        ensures { sum_before self.now k + result ≡ sum_below self.now.numbers (i + 1) }
    {
        let whole = self.sums[k];
        let from = k * self.section;
        if i - from < self.section / 2 {
            return part_sum(&self.counters[from..=i], whole);
        }
        whole - part_sum(&self.counters[i + 1..from + self.section], whole)
    }
}

/// Returns the sum of `part`, in 64 bits if `whole` fits them. `whole` is at least that sum.
pub(crate) fn part_sum<T: Counter>(part: &[T], whole: u128) -> u128
    requires at_most { length part.now ≤ most_bins }
    requires within { sum (map T.number part.now) ≤ whole }
    ensures { result ≡ sum (map T.number part.now) }
{
    if whole > u128::from(u64::MAX) {
        return sum_of(part);
    }
    u128::from(short_sum(part))
}
