//! The width of classes.

ghost use Rattle.std.specs.Prelude.{◌≡◌, ◌+◌, ◌-◌, ◌<◌, ◌^◌, ℕ, [], ◌++◌, List, count_by, length, min, nat_le, replicate, IfOk, OnOk};
ghost use Rattle.hdr_base.specs.Classes.{HasScale, lowest_of};
ghost use Rattle.hdr_model.specs.Plain.{resolution};
ghost use Rattle.hdr_model.specs.Quantiles.{ranked_sample};
ghost use Rattle.hdr_verdict.specs.ClassSamples.{AreClassesOf, GainsFew, values_of};
ghost use Rattle.hdr_verdict.specs.Tails.{count_above};

use hdr_base::Scale;
use hdr_logs::LogError;
use hdr_model::laws::clearing_stands;
use hdrhistogram::serialization::{RecordedBounds, RecordedClass};
use hdrhistogram::{CreationError, Histogram, Quantile};
use std::alloc::Global;

/// The width of classes: their least one, and the significant digits that they keep.
#[derive(Clone, Copy)]
pub struct Width {
    pub low: u64,
    pub sigfig: u8,
}

impl Width {
    ghost use Rattle.hdr_verdict.specs.Samples.{Held, Rounds, joined_width, classes_of, finest};

    /// The width of the finest classes.
    pub const FINEST: Width = Width { low: 1, sigfig: 5 };

    /// Returns the width of classes that have those of this width and of a histogram in them.
    pub(crate) fn join(self, bounds: RecordedBounds) -> Width
        ensures width { (held : Held) → bounds.low ≡ held.low → bounds.sigfig ≡ held.sigfig
            → result ≡ joined_width self held }
        ensures scale { HasScale self.low self.sigfig → HasScale bounds.low bounds.sigfig
            → HasScale result.low result.sigfig }
    {
        Width {
            low: self.low.max(bounds.low),
            sigfig: self.sigfig.min(bounds.sigfig),
        }
    }

    /// Returns the least value of the class of a value.
    fn lowest(self, value: u64) -> u64
        requires { HasScale self.low self.sigfig }
        ensures { result ≡ lowest_of (classes_of self) value }
    {
        match Scale::new(self.low, self.sigfig) {
            Some(scale) => scale.lowest(value),
            None => unreachable!(),
        }
    }

    /// Returns how many samples of classes are above a value, if each is the greatest value of its
    /// class of this width.
    pub(crate) fn count_above(self, classes: &[RecordedClass], value: u64) -> u64
        requires { HasScale self.low self.sigfig }
        ensures { (S : List ℕ) → AreClassesOf self classes.now S → length S < 2 ^ 64
            → result ≡ count_above value S }
    {
        let Some(next) = value.checked_add(1) else {
            return 0;
        };
        count_from(classes, self.lowest(next))
    }

    /// Returns a histogram without samples, of classes of this width, which grows.
    pub(crate) fn histogram(self, alloc: Global) -> Result<Histogram<u64>, CreationError>
        ensures classes { IfOk result (λ h. resolution h ≡ classes_of self) }
        ensures samples { IfOk result (λ h. Rounds self h []) }
    {
        clearing_stands();
        let mut histogram = Histogram::new_with_bounds(
            alloc,
            self.low,
            self.low.saturating_mul(2),
            self.sigfig,
        )?;
        histogram.auto(true);
        Ok(histogram)
    }

    /// Adds the samples of classes to a sum of classes of this width.
    pub(crate) fn add(
        self,
        sum: &mut Histogram<u64>,
        classes: &[RecordedClass],
    ) -> Result<(), LogError>
        ensures classes { resolution sum.new ≡ resolution sum.old }
        ensures samples { OnOk result ((S T : List ℕ) → resolution sum.old ≡ classes_of self
            → Rounds self sum.old S → AreClassesOf self classes.now T → length S + length T < 2 ^ 64
            → Rounds self sum.new (S ++ T)) }
    {
        record_all(sum, classes)
    }

    /// Removes the samples of a sum of classes of this width.
    pub(crate) fn reset(self, sum: &mut Histogram<u64>)
        ensures classes { resolution sum.new ≡ resolution sum.old }
        ensures samples { resolution sum.old ≡ classes_of self → Rounds self sum.new [] }
    {
        clearing_stands();
        sum.reset();
    }

    /// Returns the value at a quantile of a sum of classes of this width.
    pub(crate) fn value(self, sum: &Histogram<u64>, quantile: Quantile) -> u64
        ensures { (S : List ℕ) → resolution sum.now ≡ classes_of self → Rounds self sum.now S
            → 0 < quantile.num → 0 < quantile.den → result ≡ ranked_sample quantile S }
    {
        if sum.is_empty() {
            return 0;
        }
        sum.value_at_quantile(quantile)
    }
}

/// Records the lowest value of each class, as often as its count.
fn record_all(sum: &mut Histogram<u64>, classes: &[RecordedClass]) -> Result<(), LogError>
    ensures classes { resolution sum.new ≡ resolution sum.old }
    ensures samples { OnOk result (GainsFew sum.old sum.new (values_of classes.now)) }
{
    for class in classes {
        record_one(sum, *class)?;
    }
    Ok(())
}

/// Records the lowest value of a class, as often as its count.
#[inline(always)]
fn record_one(sum: &mut Histogram<u64>, class: RecordedClass) -> Result<(), LogError>
    ensures classes { resolution sum.new ≡ resolution sum.old }
    ensures samples { OnOk result (GainsFew sum.old sum.new (replicate class.count class.value)) }
{
    match sum.record_n(class.value, class.count) {
        Ok(()) => Ok(()),
        // A sum grows, so that it does not record a value only if memory runs out.
        Err(_) => Err(LogError::OutOfMemory),
    }
}

/// Returns the sum of the counts of classes whose lowest value is at least `first`, or `u64::MAX`
/// if that is less.
fn count_from(classes: &[RecordedClass], first: u64) -> u64
    ensures { result ≡ min (count_by (nat_le first) (values_of classes.now)) (2 ^ 64 - 1) }
{
    let mut count = 0u64;
    for class in classes {
        if class.value >= first {
            count = count.saturating_add(class.count);
        }
    }
    count
}
