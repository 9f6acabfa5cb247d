//! Sums of a section, and one section added to another.

ghost use Rattle.std.specs.Prelude.{◌≡◌, ℕ, ◌+◌, ◌-◌, ◌*◌, ◌^◌, ◌<◌, ◌≤◌, min, length, map, sum, All};
ghost use Rattle.hdr_base.specs.Classes.{most_bins};
ghost use Rattle.hdr_counts.specs.Blocks.{capped_sums, AreSums};

use crate::Counts;
use hdr_base::{Counter, saturating_from};

impl<T: Counter> Counts<T> {
    /// Adds the counters of `source`, in blocks of the same length, element by element, as far as
    /// both have them. Each counter saturates at `T::max_value()`. If the sections have one length,
    /// those of `source` whose sum is 0 are skipped.
    pub fn add_all<F: Counter>(&mut self, source: &Counts<F>)
        requires { self.old.block ≡ source.now.block }
        ensures { self.new ≡ record {
          block = self.old.block;
          numbers = capped_sums T.greatest self.old.numbers source.now.numbers;
        } }
    {
        if self.section != source.section {
            return self.add_one_by_one(source);
        }
        add_sections(
            &mut self.counters,
            &mut self.sums,
            &source.counters,
            &source.sums,
            self.section,
        );
    }

    /// As `add_all`, for a source whose sections have another length.
    fn add_one_by_one<F: Counter>(&mut self, source: &Counts<F>)
        ensures { self.new ≡ record {
          block = self.old.block;
          numbers = capped_sums T.greatest self.old.numbers source.now.numbers;
        } }
    {
        for i in 0..self.len().min(source.len()) {
            let sum = u128::from(self.get(i).as_u64()) + u128::from(source.get(i).as_u64());
            self.set(i, saturating_from(sum));
        }
    }
}

/// Returns the exact sum of the counters.
pub(crate) fn sum_of<T: Counter>(counters: &[T]) -> u128
    requires { length counters.now ≤ most_bins }
    ensures { result ≡ sum (map T.number counters.now) }
{
    let mut total: u128 = 0;
    for counter in counters {
        total += u128::from(counter.as_u64());
    }
    total
}

/// As `sum_of`, for a sum that fits a `u64`.
pub(crate) fn short_sum<T: Counter>(counters: &[T]) -> u64
    requires { sum (map T.number counters.now) < 2 ^ 64 }
    ensures { result ≡ sum (map T.number counters.now) }
{
    let mut total = 0;
    for counter in counters {
        total += counter.as_u64();
    }
    total
}

/// Adds the sections of `source` to those of `counters`, as far as both have them. Each counter
/// saturates at `T::max_value()`. `sums` and `more` are the sums of their sections; `sums` is
/// updated.
fn add_sections<T: Counter, F: Counter>(
    counters: &mut [T],
    sums: &mut [u128],
    source: &[F],
    more: &[u128],
    section: usize,
)
    requires sums { AreSums section (map T.number counters.old) sums.old }
    requires more { AreSums section (map F.number source.now) more.now }
    requires fit { All (λ n. n ≤ T.greatest) (map T.number counters.old) }

    // The counters afterwards, and their sums.
    ensures numbers { map T.number counters.new ≡ capped_sums T.greatest (map T.number counters.old)
        (map F.number source.now) }
    ensures sums { AreSums section (map T.number counters.new) sums.new }
    ensures fit { All (λ n. n ≤ T.greatest) (map T.number counters.new) }
{
    for k in 0..sums.len().min(more.len()) {
        let from = k * section;
        let to = from + section;
        sums[k] = add_section(&mut counters[from..to], &source[from..to], sums[k], more[k]);
    }
}

/// Adds a section of `source` to one of `counters`, and returns the new sum. `had` and `more` are
/// their sums before. Nothing is added if `more` is 0, and no counter saturates if `had + more` is
/// at most `T::max_value()`.
fn add_section<T: Counter, F: Counter>(
    counters: &mut [T],
    source: &[F],
    had: u128,
    more: u128,
) -> u128
    requires len { length counters.old ≡ length source.now }
    requires at_most { length counters.old ≤ most_bins }

    // The sums of both, which fit 128 bits together.
    requires sum { had ≡ sum (map T.number counters.old) }
    requires more { more ≡ sum (map F.number source.now) }
    requires fits { had + more < 2 ^ 128 }
    requires fit { All (λ n. n ≤ T.greatest) (map T.number counters.old) }

    // The counters afterwards, and their sum.
    ensures numbers { map T.number counters.new ≡ capped_sums T.greatest (map T.number counters.old)
        (map F.number source.now) }
    ensures sum { result ≡ sum (map T.number counters.new) }
{
    if more == 0 {
        return had;
    }
    if had + more <= u128::from(T::max_value().as_u64()) {
        add_plain(counters, source);
        return had + more;
    }
    add_each(counters, source);
    sum_of(counters)
}

/// Adds element by element. All numbers together are at most `T::max_value()`, so that no counter
/// saturates.
fn add_plain<T: Counter, F: Counter>(counters: &mut [T], source: &[F])
    requires len { length counters.old ≡ length source.now }
    requires fits { sum (map T.number counters.old) + sum (map F.number source.now) ≤ T.greatest }
    ensures { map T.number counters.new ≡ capped_sums T.greatest (map T.number counters.old)
        (map F.number source.now) }
{
    for i in 0..counters.len() {
        let sum = counters[i].as_u64() + source[i].as_u64();
        counters[i] = saturating_from(u128::from(sum));
    }
}

/// Adds element by element. Each counter saturates at `T::max_value()`.
fn add_each<T: Counter, F: Counter>(counters: &mut [T], source: &[F])
    requires { length counters.old ≡ length source.now }
    ensures { map T.number counters.new ≡ capped_sums T.greatest (map T.number counters.old)
        (map F.number source.now) }
{
    for i in 0..counters.len() {
        let sum = u128::from(counters[i].as_u64()) + u128::from(source[i].as_u64());
        counters[i] = saturating_from(sum);
    }
}
