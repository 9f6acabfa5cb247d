//! The bins of a histogram, as its iterators see them.

ghost use Rattle.std.specs.Prelude.{◌≡◌, ◌<◌, ◌≤◌, slice_index};
ghost use Rattle.hdr_iterators.specs.Seen.{Seen, AreBins, AreEmpty, bins_in, top_in, bin_or_last};

use hdr_base::{Counter, Scale};
use hdr_counts::Counts;
use std::marker::Model;

/// A type with bins: a histogram.
pub trait Binned<T: Counter> {
    /// The bins, as numbers.
    ghost seen: { Self → Seen };

    /// The bins.
    fn binned(&self) -> Bins<'_, T>
        ensures value { result ≡ seen self.now }
        ensures plain { AreBins result };
}

/// The classes of values, a counter for each, the number of samples, and the last bin that counts as recorded.
#[derive(Debug, Drop)]
pub struct Bins<'a, T: Counter> {
    scale: Scale,
    counts: &'a Counts<T>,
    total: u64,
    last: usize,
}

impl<'a, T: Counter> Model for Bins<'a, T> {
    ghost use Rattle.hdr_iterators.specs.Seen.{Seen, AreBins};

    ghost Value = { Seen };

    ghost view = { λ b. record { resolution = b.scale; numbers = b.counts.now.numbers; total = b.total; last = b.last } };

    ghost invariant = { λ b. AreBins (record { resolution = b.scale; numbers = b.counts.now.numbers; total = b.total; last = b.last }) };
}

impl<'a, T: Counter> Bins<'a, T> {
    /// Returns bins of the classes of `scale` from 0 on, with counters `counts`, `total` samples, and `last` as the last bin that
    /// counts as recorded.
    pub fn new(scale: Scale, counts: &'a Counts<T>, total: u64, last: usize) -> Bins<'a, T>
        requires { AreBins
            (record {
              resolution = scale;
              numbers = counts.now.numbers;
              total = total;
              last = last;
            }) }
        ensures { result ≡ record {
          resolution = scale;
          numbers = counts.now.numbers;
          total = total;
          last = last;
        } }
    {
        Bins {
            scale,
            counts,
            total,
            last,
        }
    }

    /// The number of bins.
    pub(crate) fn len(&self) -> usize
        ensures { result ≡ bins_in self.now }
    {
        self.counts.len()
    }

    /// The number of samples.
    pub(crate) fn total(&self) -> u64
        ensures { result ≡ self.now.total }
    {
        self.total
    }

    /// The last bin that counts as recorded, or the first.
    pub(crate) fn last(&self) -> usize
        ensures { result ≡ self.now.last }
    {
        self.last
    }

    /// The counter of the first bin.
    pub(crate) fn first(&self) -> T
        ensures value { T.number result ≡ slice_index self.now.numbers 0 }
        ensures nonempty { 0 < bins_in self.now }
    {
        self.counts.get(0)
    }

    /// The counter of a bin.
    pub(crate) fn count(&self, bin: usize) -> T
        requires { bin < bins_in self.now }
        ensures { T.number result ≡ slice_index self.now.numbers bin }
    {
        self.counts.get(bin)
    }

    /// Returns the first nonempty bin at or after `from`, or the number of bins if there is none.
    #[inline(always)]
    pub(crate) fn next_filled(&self, from: usize) -> usize
        requires { from ≤ bins_in self.now }
        ensures onward { from ≤ result }
        ensures within { result ≤ bins_in self.now }
        ensures empty { AreEmpty self.now.numbers from result }
        ensures filled { result < bins_in self.now → 0 < slice_index self.now.numbers result }
    {
        self.counts.next_filled(from)
    }

    /// The greatest value of a bin.
    pub(crate) fn top(&self, bin: usize) -> u64
        requires { bin < bins_in self.now }
        ensures { result ≡ top_in self.now bin }
    {
        self.scale.bin_top(bin).unwrap_or(0)
    }

    /// Returns the bin of a value, or the last bin if the value is beyond the bins.
    pub(crate) fn bin_or_last(&self, value: u64) -> usize
        ensures value { result ≡ bin_or_last self.now value }
        ensures within { result < bins_in self.now }
    {
        self.scale.bin(value).min(self.counts.len() - 1)
    }
}
