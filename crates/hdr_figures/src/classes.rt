//! The classes of an interval.

ghost use Rattle.std.specs.Prelude.{◌≡◌, ◌<◌, ◌-◌, ◌^◌, ℕ, List, map, min, MatchOption, OnOk};
ghost use Rattle.std.specs.Int.{div_ceil};
ghost use Rattle.std.specs.List.{sum_by};
ghost use Rattle.std.specs.Option.{option_map};
ghost use Rattle.hdr_base.specs.Classes.{HasScale, Resolution, value_of};
ghost use Rattle.hdr_model.specs.Merging.{classes_from};
ghost use Rattle.hdr_model.specs.Plain.{Plain, max_of};
ghost use Rattle.hdr_model.specs.Quantiles.{position_of_rank, rank};
ghost use Rattle.hdr_model.specs.Recording.{after_records};
ghost use Rattle.hdrhistogram.specs.ClassesRead.{times_of};
ghost use Rattle.hdr_figures.specs.Classes.{AreClassesOf, ListsClasses};
ghost use Rattle.hdr_figures.specs.Figures.{value_at};

use hdr_base::Scale;
use hdrhistogram::Histogram;
use hdrhistogram::serialization::{RecordedBounds, RecordedClass};
use std::alloc::AllocError;

/// The nonempty classes of an interval, in ascending order.
#[derive(Drop)]
pub(crate) struct Classes<'a> {
    pub(crate) bounds: RecordedBounds,
    pub(crate) scale: Scale,
    /// The number of samples, or `u64::MAX` if that is less.
    pub(crate) total: u64,
    pub(crate) items: &'a [RecordedClass],
}

impl<'a> Classes<'a> {
    /// Returns the classes of an interval whose histogram has these bounds.
    pub(crate) fn new(bounds: RecordedBounds, items: &'a [RecordedClass]) -> Classes<'a>
        requires { HasScale bounds.low bounds.sigfig }
        ensures { (h : Plain) → ListsClasses bounds items.now h → AreClassesOf result h }
    {
        let Some(scale) = Scale::new(bounds.low, bounds.sigfig) else {
            unreachable!()
        };
        Classes {
            bounds,
            scale,
            total: total_of(items),
            items,
        }
    }

    /// Returns the value at the quantile `num / den`, which must be above 0.
    pub(crate) fn value_at(&self, num: u64, den: u64) -> u64
        requires some { 0 < num }
        requires divisor { 0 < den }
        ensures { (h : Plain) → AreClassesOf self.now h → result ≡ value_at h num den }
    {
        let rank = rank_of(num, den, self.total);
        match value_of_rank(self.items, rank) {
            Some(value) => self.scale.top(value),
            None => 0,
        }
    }

    /// Returns the greatest value of the last class, or 0 if there is none.
    pub(crate) fn max(&self) -> u64
        ensures { (h : Plain) → AreClassesOf self.now h → result ≡ max_of h }
    {
        match self.items.last() {
            Some(last) => self.scale.top(last.value),
            None => 0,
        }
    }

    /// Returns the greatest value, or `None` if it has no samples.
    pub(crate) fn greatest(&self) -> Option<u64>
        ensures { (h : Plain) → AreClassesOf self.now h → MatchOption result (h.total ≡ 0)
            (λ value. value ≡ value_at h 1 1) }
    {
        if self.total == 0 {
            None
        } else {
            Some(self.value_at(1, 1))
        }
    }
}

/// Records the lowest value of each class, as often as its count.
pub(crate) fn record_all(
    sum: &mut Histogram<u64>,
    classes: &[RecordedClass],
) -> Result<(), AllocError>
    ensures { OnOk result (sum.new ≡ after_records (2 ^ 64 - 1) sum.old (map times_of classes.now)) }
{
    for class in classes {
        match sum.record_n(class.value, class.count) {
            Ok(()) => {}
            // A sum grows, so that it does not record a value only if memory runs out.
            Err(_) => return Err(AllocError),
        }
    }
    Ok(())
}

/// Returns the number of samples of classes, or `u64::MAX` if that is less.
fn total_of(classes: &[RecordedClass]) -> u64
    ensures { result ≡ min (sum_by (λ class. class.count) classes.now) (2 ^ 64 - 1) }
{
    let mut total = 0u64;
    for class in classes {
        total = total.saturating_add(class.count);
    }
    total
}

/// Returns the rank, from 1, of the quantile `num / den` among `total` samples.
fn rank_of(num: u64, den: u64, total: u64) -> u64
    requires { 0 < den }
    ensures value { result ≡ rank (record { num = num; den = den }) total }
    ensures at_least_one { 0 < result }
{
    let share = u128::from(num.min(den));
    let place = divided_up(share * u128::from(total), u128::from(den));
    (place as u64).max(1)
}

/// Returns the quotient, rounded up. Divides in 64 bits if both numbers fit them, which takes less
/// time.
fn divided_up(number: u128, by: u128) -> u128
    requires { 0 < by }
    ensures { result ≡ div_ceil number by }
{
    let greatest = u128::from(u64::MAX);
    if number > greatest || by > greatest {
        return number.div_ceil(by);
    }
    u128::from((number as u64).div_ceil(by as u64))
}

/// Returns the lowest value of the class of a rank, or `None` if there are fewer samples.
fn value_of_rank(classes: &[RecordedClass], rank: u64) -> Option<u64>
    requires { 0 < rank }
    ensures { (g : Resolution) (counts : List ℕ) → map times_of classes.now ≡ classes_from g 0 counts
        → result ≡ option_map (value_of g) (position_of_rank counts rank) }
{
    let mut rank = rank;
    for class in classes {
        if rank <= class.count {
            return Some(class.value);
        }
        rank -= class.count;
    }
    None
}
