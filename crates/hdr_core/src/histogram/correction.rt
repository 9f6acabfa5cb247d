//! Recording with correction for coordinated omission, class by class.

ghost use Rattle.std.specs.Prelude.{◌≡◌, ℕ, List, ◌∷◌, ◌++◌, ◌+◌, ◌-◌, ◌*◌, ◌/◌, ◌%◌, ◌^◌, ◌<◌, ◌≤◌, OnOk, IfErr, true, false, [], length, min};
ghost use Rattle.hdr_base.specs.Classes.{bucket, width_of, reach_of, most_bins};
ghost use Rattle.hdr_model.specs.Plain.{resolution, reach};
ghost use Rattle.hdr_model.specs.Recording.{after_add_to_bin, after_records, samples_of, high_with};
ghost use Rattle.hdr_model.specs.Samples.{GainsSamples};
ghost use Rattle.hdr_model.specs.CallErrors.{IsRecordable, IsRecordError};
ghost use Rattle.hdr_model.specs.Correction.{missing, each_times, after_correct, bins_held, down_to};

use super::Histogram;
use hdr_base::{Counter, Scale, Ticks};
use hdr_model::RecordError;

impl<T: Counter> Histogram<T> {
    /// Records `value` once, and each sample that is missing before it if the expected interval
    /// between samples is `interval`. Both arguments are in the unit of the samples; an `interval`
    /// of 0 corrects nothing. Correct samples only once, not here and again by `add_correct`.
    /// Returns an error as `record` does; `self` is then unchanged.
    #[inline(always)]
    pub fn record_correct(&mut self, value: u64, interval: u64) -> Result<(), RecordError>
        ensures ok { OnOk result (self.new ≡ after_correct T.greatest self.old value 1 interval) }
        ensures samples { OnOk result (GainsSamples T.greatest self.old self.new
            (samples_of (each_times 1 (value ∷ missing value interval)))) }
        ensures high { OnOk result (self.new.high ≡ high_with (resolution self.old) self.old.high value
            (reach_of (resolution self.old) value)) }
        ensures accepted { OnOk result (IsRecordable self.old value) }
        ensures err { IfErr result (λ e. IsRecordError self.old value e
            × (self.new ≡ self.old)) }
    {
        self.record_n_correct(value, T::one(), interval)
    }

    /// As `record_correct`, `count` times for each value: `value`, `value - interval`,
    /// `value - 2 * interval`, .. down to the last that is at least `interval`. An interval of 0
    /// corrects nothing. Returns an error only if `record_n` of `value` does; `self` is then
    /// unchanged.
    #[inline(always)]
    pub fn record_n_correct(
        &mut self,
        value: u64,
        count: T,
        interval: u64,
    ) -> Result<(), RecordError>
        ensures ok { OnOk result (self.new ≡ after_correct T.greatest self.old value
            (T.number count) interval) }
        ensures samples { OnOk result (GainsSamples T.greatest self.old self.new
            (samples_of (each_times (T.number count) (value ∷ missing value interval)))) }
        ensures high { OnOk result (self.new.high ≡ high_with (resolution self.old) self.old.high value
            (reach_of (resolution self.old) value)) }
        ensures accepted { OnOk result (IsRecordable self.old value) }
        ensures err { IfErr result (λ e. IsRecordError self.old value e
            × (self.new ≡ self.old)) }
    {
        self.record_n_correct_counted(value, count, interval, &mut Ticks::new())
    }

    /// As `record_n_correct`. `ticks` grows by one for each class that holds a missing value, and so
    /// by no more than there are bins. The update for `value` itself is not counted. On error `ticks`
    /// is unchanged.
    #[inline(always)]
    pub fn record_n_correct_counted(
        &mut self,
        value: u64,
        count: T,
        interval: u64,
        ticks: &mut Ticks,
    ) -> Result<(), RecordError>
        requires { ticks.old ≤ 2 ^ 63 }
        ensures ok { OnOk result (self.new ≡ after_correct T.greatest self.old value
            (T.number count) interval) }

        // One tick for each class that holds a missing value.
        ensures ticks { OnOk result (ticks.new ≡ ticks.old + bins_held self.new (missing value interval)) }
        ensures at_most_bins { OnOk result (ticks.new ≤ ticks.old + length self.new.counts) }
        ensures at_most { OnOk result (ticks.new ≤ ticks.old + most_bins) }
        ensures samples { OnOk result (GainsSamples T.greatest self.old self.new
            (samples_of (each_times (T.number count) (value ∷ missing value interval)))) }
        ensures high { OnOk result (self.new.high ≡ high_with (resolution self.old) self.old.high value
            (reach_of (resolution self.old) value)) }

        // When which error is returned.
        ensures accepted { OnOk result (IsRecordable self.old value) }
        ensures err { IfErr result (λ e. IsRecordError self.old value e × (self.new ≡ self.old)
            × (ticks.new ≡ ticks.old)) }
    {
        self.record_n(value, count)?;
        if has_missing(value, interval) {
            self.add_missing(value - interval, count.as_u64(), interval, ticks);
        }
        Ok(())
    }

    /// Records the values from `first` down to the interval, an interval apart, class by class.
    #[inline(always)]
    pub(super) fn add_missing(&mut self, first: u64, count: u64, interval: u64, ticks: &mut Ticks)
        requires step { 0 < interval }
        requires within { first ≤ reach self.old }
        requires ticks_fit { ticks.old ≤ 2 ^ 63 }

        // The values are recorded, with one tick for each of their classes.
        ensures state { self.new ≡ after_records T.greatest self.old
            (each_times count (down_to first interval)) }
        ensures ticks { ticks.new ≡ ticks.old + bins_held self.old (down_to first interval) }
        ensures samples { GainsSamples T.greatest self.old self.new
            (samples_of (each_times count (down_to first interval))) }

        // What is unchanged.
        ensures same_classes { resolution self.new ≡ resolution self.old }
        ensures same_bins { length self.new.counts ≡ length self.old.counts }
        ensures at_most { length self.new.counts ≤ most_bins }
    {
        if self.scale.width(first) <= interval {
            self.add_each(first, count, interval, ticks);
        } else {
            self.add_by_class(first, count, interval, ticks);
        }
    }

    /// As `add_missing`, for values of which each is the only one in its class.
    #[inline(always)]
    fn add_each(&mut self, first: u64, count: u64, interval: u64, ticks: &mut Ticks)
        requires step { 0 < interval }
        requires alone { width_of (resolution self.old) first ≤ interval }
        requires within { first ≤ reach self.old }
        requires ticks_fit { ticks.old ≤ 2 ^ 63 }

        // The values are recorded, with one tick for each of their classes.
        ensures state { self.new ≡ after_records T.greatest self.old
            (each_times count (down_to first interval)) }
        ensures ticks { ticks.new ≡ ticks.old + bins_held self.old (down_to first interval) }

        // What is unchanged.
        ensures same_classes { resolution self.new ≡ resolution self.old }
        ensures same_bins { length self.new.counts ≡ length self.old.counts }
    {
        let scale = self.scale;
        let mut value = first;
        while value >= interval {
            value = self.add_alone(scale, value, count, interval, ticks);
        }
    }

    /// As `add_missing`, for values of which several may lie in one class.
    #[inline(never)]
    fn add_by_class(&mut self, first: u64, count: u64, interval: u64, ticks: &mut Ticks)
        requires step { 0 < interval }
        requires within { first ≤ reach self.old }
        requires ticks_fit { ticks.old ≤ 2 ^ 63 }

        // The values are recorded, with one tick for each of their classes.
        ensures state { self.new ≡ after_records T.greatest self.old
            (each_times count (down_to first interval)) }
        ensures ticks { ticks.new ≡ ticks.old + bins_held self.old (down_to first interval) }

        // What is unchanged.
        ensures same_classes { resolution self.new ≡ resolution self.old }
        ensures same_bins { length self.new.counts ≡ length self.old.counts }
    {
        let scale = self.scale;
        let mut next = first;
        while next >= interval {
            if scale.width(next) <= interval {
                next = self.add_alone(scale, next, count, interval, ticks);
            } else {
                let start = scale.bucket_start(next).max(interval);
                next = self.add_in_bucket(next, start, count, interval, ticks);
            }
        }
    }

    /// Records the first of the values `first`, `first - interval`, .. that are at least the interval.
    /// It is the only one in its class. Returns the next one. `scale` is that of the histogram: a loop
    /// reads it once.
    #[inline(always)]
    fn add_alone(
        &mut self,
        scale: Scale,
        first: u64,
        count: u64,
        interval: u64,
        ticks: &mut Ticks,
    ) -> u64
        requires scale { scale ≡ resolution self.old }
        requires step { 0 < interval }
        requires some { interval ≤ first }
        requires alone { width_of (resolution self.old) first ≤ interval }
        requires within { first ≤ reach self.old }
        requires ticks_fit { ticks.old + bins_held self.old
            (down_to first interval) < 2 ^ 64 }

        // If the rest is recorded afterwards, all values are recorded, and all ticks counted.
        ensures next { result ≡ first - interval }
        ensures state { after_records T.greatest self.new
            (each_times count (down_to result interval)) ≡ after_records T.greatest self.old
            (each_times count (down_to first interval)) }
        ensures ticks { ticks.new + bins_held self.old
            (down_to result interval)
            ≡ ticks.old + bins_held self.old
            (down_to first interval) }

        // What is unchanged.
        ensures same_classes { resolution self.new ≡ resolution self.old }
        ensures same_bins { length self.new.counts ≡ length self.old.counts }
        ensures same_reach { reach self.new ≡ reach self.old }
    {
        let bin = scale.bin(first);
        let len = self.counts.len();
        prove!(bin < len);
        self.add_counted(bin, 1, count, ticks);
        first - interval
    }

    /// Records the values `first`, `first - interval`, .. that are at least `start`, and returns
    /// the next one, which is below `start`. Those recorded lie in one bucket, whose classes have
    /// one width.
    #[inline(never)]
    fn add_in_bucket(
        &mut self,
        first: u64,
        start: u64,
        count: u64,
        interval: u64,
        ticks: &mut Ticks,
    ) -> u64
        requires step { 0 < interval }
        requires start { (interval ≤ start) × (start ≤ first) }
        requires one_bucket { (x : ℕ) → start ≤ x → x ≤ first
            → bucket (resolution self.old) x ≡ bucket (resolution self.old) first }
        requires within { first ≤ reach self.old }
        requires ticks_fit { ticks.old + bins_held self.old
            (down_to first interval) < 2 ^ 64 }

        // If the rest is recorded afterwards, all values are recorded, and all ticks counted.
        ensures less { result < first }
        ensures state { after_records T.greatest self.new
            (each_times count (down_to result interval)) ≡ after_records T.greatest self.old
            (each_times count (down_to first interval)) }
        ensures ticks { ticks.new + bins_held self.old
            (down_to result interval)
            ≡ ticks.old + bins_held self.old
            (down_to first interval) }

        // What is unchanged.
        ensures same_classes { resolution self.new ≡ resolution self.old }
        ensures same_bins { length self.new.counts ≡ length self.old.counts }
        ensures same_reach { reach self.new ≡ reach self.old }
    {
        let scale = self.scale;
        let width = scale.width(first);
        let offset = scale.bin(first) - (first / width) as usize;
        let guess = (width / interval).saturating_sub(1);
        let mut next = first;
        while next >= start {
            let values = values_in_class(next, width, interval, guess);
            self.add_counted(offset + (next / width) as usize, values, count, ticks);
            next -= values * interval;
        }
        next
    }

    /// Adds `values * count` to `bin`, saturating, and counts one tick.
    #[inline(always)]
    fn add_counted(&mut self, bin: usize, values: u64, count: u64, ticks: &mut Ticks)
        requires bin { bin < length self.old.counts }
        requires ticks_fit { ticks.old < 2 ^ 64 - 1 }
        ensures state { self.new ≡ after_add_to_bin T.greatest self.old bin (values * count) }
        ensures ticks { ticks.new ≡ ticks.old + 1 }
    {
        let number = u128::from(values) * u128::from(count);
        if number <= u128::from(u64::MAX) {
            self.add_to_bin(bin, number as u64);
        } else {
            self.add_capped(bin, number);
        }
        ticks.tick();
    }
}

/// Whether `value` is at least two intervals, so that samples are missing before it.
#[inline(always)]
pub(super) fn has_missing(value: u64, interval: u64) -> bool
    ensures step { result ≡ true → (0 < interval) × (interval ≤ value) }
    ensures none { result ≡ false → missing value interval ≡ [] }
{
    interval > 0 && value / 2 >= interval
}

/// Returns the number of the values `next`, `next - interval`, .. that are in the class of `next`
/// and at least `interval`. `width` is that of the class, which holds `guess` or `guess + 1` steps of
/// the interval.
fn values_in_class(next: u64, width: u64, interval: u64, guess: u64) -> u64
    requires nonzero { (0 < interval) × (interval ≤ next) × (0 < width) }
    requires fits { guess * interval < 2 ^ 64 }
    ensures { result ≡ min (next % width) (next - interval) / interval + 1 }
{
    if width <= interval {
        return 1;
    }
    steps((next % width).min(next - interval), interval, guess) + 1
}

/// Returns the quotient `span / interval`. Tries `guess` and `guess + 1` first, since a division
/// takes longer.
fn steps(span: u64, interval: u64, guess: u64) -> u64
    requires nonzero { 0 < interval }
    requires fits { guess * interval < 2 ^ 64 }
    ensures { result ≡ span / interval }
{
    let tried = guess * interval;
    if span < tried || (span - tried) / 2 >= interval {
        return span / interval;
    }
    if span - tried < interval {
        guess
    } else {
        guess + 1
    }
}
