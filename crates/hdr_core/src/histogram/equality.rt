//! Equality of histograms.

ghost use Rattle.std.specs.Prelude.{◌≡◌, ◌≢◌, ℕ, ◌<◌, ◌≤◌, true, false, length, map, slice_index};
ghost use Rattle.std.proofs.Common.{rules};
ghost use Rattle.std.specs.Cmp.Rules.{comparing};
ghost use Rattle.hdr_model.specs.Equality.{same_numbers, same_plain};

use super::Histogram;
use hdr_base::Counter;
use hdr_counts::Counts;

/// The number of counters that are compared at once.
const FEW: usize = 16;

impl<T: Counter> PartialEq for Histogram<T> {
    ghost eq = { same_plain };

    ghost laws = { Prim.search (comparing, rules) depth 9 };

    fn eq(&self, other: &Histogram<T>) -> bool {
        self.equals(other)
    }
}

impl<T: Counter> Histogram<T> {
    /// Whether both have the same `low`, `sigfig`, number of samples, `max`, `min_nz` and counter
    /// of each bin. A bin that one of them does not have counts as 0. The other may count in
    /// another type.
    pub fn equals<F: Counter>(&self, other: &Histogram<F>) -> bool
        ensures { result ≡ same_plain self.now other.now }
    {
        self.bounds.low == other.bounds.low
            && self.bounds.sigfig == other.bounds.sigfig
            && self.total == other.total
            && self.max() == other.max()
            && self.min_nz() == other.min_nz()
            && same_numbers(
                &self.counts,
                self.used_bins(),
                &other.counts,
                other.used_bins(),
            )
    }
}

/// Whether two lists of counters hold the same numbers. They hold only zeros from the indices
/// `left_used` and `right_used` on.
fn same_numbers<T: Counter, F: Counter>(
    left: &Counts<T>,
    left_used: usize,
    right: &Counts<F>,
    right_used: usize,
) -> bool
    requires left { (i : ℕ) → left_used ≤ i → slice_index left.now.numbers i ≡ 0 }
    requires right { (i : ℕ) → right_used ≤ i → slice_index right.now.numbers i ≡ 0 }
    ensures { result ≡ same_numbers left.now.numbers right.now.numbers }
{
    let used = left_used.max(right_used);
    let both = used.min(left.len()).min(right.len());
    if !same_front(&left.as_slice()[..both], &right.as_slice()[..both]) {
        return false;
    }
    for i in both..used {
        if number_at(left, i) != number_at(right, i) {
            return false;
        }
    }
    true
}

/// Returns the number at `index`, or 0 past the end.
fn number_at<T: Counter>(counts: &Counts<T>, index: usize) -> u64
    ensures { result ≡ slice_index counts.now.numbers index }
{
    let counter = counts.as_slice().get(index);
    counter.map_or(0, |counter| counter.as_u64())
}

/// Whether two slices of one length hold the same numbers; compares `FEW` at once.
fn same_front<T: Counter, F: Counter>(left: &[T], right: &[F]) -> bool
    requires { length left.now ≡ length right.now }
    ensures equal { result ≡ true → (i : ℕ) → i < length left.now
        → slice_index (map T.number left.now) i ≡ slice_index (map F.number right.now) i }
    ensures other { result ≡ false → (i : ℕ) × (i < length left.now)
        × (slice_index (map T.number left.now) i ≢ slice_index (map F.number right.now) i) }
{
    let mut from = 0usize;
    while left.len() - from >= FEW {
        let to = from + FEW;
        if !same_few(&left[from..to], &right[from..to]) {
            return false;
        }
        from = to;
    }
    let end = left.len();
    same_few(&left[from..end], &right[from..end])
}

/// As `same_front`. Each counter is read, so that several can be compared at once.
fn same_few<T: Counter, F: Counter>(left: &[T], right: &[F]) -> bool
    requires { length left.now ≡ length right.now }
    ensures equal { result ≡ true → (i : ℕ) → i < length left.now
        → slice_index (map T.number left.now) i ≡ slice_index (map F.number right.now) i }
    ensures other { result ≡ false → (i : ℕ) × (i < length left.now)
        × (slice_index (map T.number left.now) i ≢ slice_index (map F.number right.now) i) }
{
    let mut same = true;
    for i in 0..left.len() {
        if left[i].as_u64() != right[i].as_u64() {
            same = false;
        }
    }
    same
}
