//! The scales of values of intervals, and their conversion.

ghost use Rattle.std.specs.Prelude.{◌≡◌, ◌↔◌, ◌⊎◌, ◌≤◌, ◌<◌, ◌+◌, ◌-◌, ◌^◌, ℕ, List, None, IfOk, IfErr, IsSome, OnOk, SomeIff, map};
ghost use Rattle.std.specs.List.{All, Any, AllZip, count_by};
ghost use Rattle.std.specs.String.{string_bytes};
ghost use Rattle.hdr_log.specs.Texts.{base64_of};
ghost use Rattle.hdr_model.specs.Recording.{after_records};
ghost use Rattle.hdrhistogram.specs.ClassesRead.{times_of};
ghost use Rattle.hdrhistogram.specs.V2.{IsV2};
ghost use Rattle.hdr_logs.specs.Errors.{IsMissingUnit};
ghost use Rattle.hdr_logs.specs.Stored.{view_of_stored};
ghost use Rattle.hdr_logs.specs.Scales.{exponent_of, power_of, top_times, IsFactor, IsGreatest, IsFinest};
ghost use Rattle.hdr_logs.specs.Scales.{is_coarser, factor_of, IsAsFine, IsIn, IsConverted, HoldsMultiplied};
ghost use Rattle.hdr_logs.specs.Scales.{HaveMixedUnits, IsConversionError, IsFactorError, IsOtherKind};

use crate::errors::LogError;
use crate::headers::UnitName;
use crate::place::Place;
use crate::stored::StoredInterval;
use base64::engine::general_purpose::STANDARD;
use hdr_base::Scale;
use hdr_input::Unit;
use hdrhistogram::Histogram;
use hdrhistogram::serialization::interval_log::IntervalLogWriterError;
use hdrhistogram::serialization::{
    CountNotSerializable, Deserializer, RecordedClass, V2SerializeError, V2Serializer,
};
use std::alloc::Global;

/// The scale of values: they are in units of the last decimal, of a unit of time or of 1.
#[derive(Debug, Clone, Copy)]
pub(crate) struct ValueScale {
    pub decimals: u32,
    pub unit: Option<Unit>,
}

/// Returns the finest scale of intervals: the finest of their units, and as many decimals as one of
/// them has in that unit.
///
/// # Errors
/// Returns `MissingUnit` if some of them have a unit and others have none.
pub(crate) fn finest_scale(intervals: &[StoredInterval]) -> Result<ValueScale, LogError>
    ensures scale { IfOk result (λ scale. IsFinest intervals.now scale.decimals scale.unit) }
    ensures errors { IfErr result (λ e. IsMissingUnit e × HaveMixedUnits intervals.now) }
{
    let unit = finest_unit(intervals);
    check_known(intervals, unit)?;
    Ok(ValueScale {
        decimals: most_decimals(intervals, exponent_of(unit)),
        unit,
    })
}

/// Returns the finest unit of intervals, if one of them has a unit.
fn finest_unit(intervals: &[StoredInterval]) -> Option<Unit>
    ensures exponent { IsGreatest (λ s. exponent_of s.unit) intervals.now (exponent_of result) }
    ensures some { IsSome result → Any (λ s. IsSome s.unit) intervals.now }
    ensures none { result ≡ None → All (λ s. s.unit ≡ None) intervals.now }
{
    let mut finest = None;
    for interval in intervals {
        finest = finer(finest, interval.unit);
    }
    finest
}

/// Returns the finer of two units, or the one that is known.
fn finer(one: Option<Unit>, other: Option<Unit>) -> Option<Unit>
    ensures exponent { (high : ℕ) → (exponent_of result ≤ high)
        ↔ ((exponent_of one ≤ high) × (exponent_of other ≤ high)) }
    ensures some { IsSome result → IsSome one ⊎ IsSome other }
    ensures none { result ≡ None → (one ≡ None) × (other ≡ None) }
{
    match (one, other) {
        (Some(one), Some(other)) if one.decimals() < other.decimals() => Some(other),
        (Some(one), _) => Some(one),
        (None, other) => other,
    }
}

/// Returns the power of ten that a second is in a unit, and 0 without one.
fn exponent_of(unit: Option<Unit>) -> u32
    ensures value { result ≡ exponent_of unit }
    ensures few { result ≤ 9 }
{
    unit.map_or(0, Unit::decimals)
}

/// Returns an error unless each interval has a unit if and only if `unit` is `Some`.
fn check_known(intervals: &[StoredInterval], unit: Option<Unit>) -> Result<(), LogError>
    ensures known { OnOk result (All (λ s. IsSome s.unit ↔ IsSome unit) intervals.now) }
    ensures errors { IfErr result (λ e. IsMissingUnit e × Any (λ s. IsOtherKind s.unit unit) intervals.now) }
{
    for interval in intervals {
        check_one(interval, unit)?;
    }
    Ok(())
}

/// Returns an error unless an interval has a unit if and only if `unit` is `Some`.
fn check_one(interval: &StoredInterval, unit: Option<Unit>) -> Result<(), LogError>
    ensures known { OnOk result (IsSome interval.now.unit ↔ IsSome unit) }
    ensures errors { IfErr result (λ e. IsMissingUnit e × IsOtherKind interval.now.unit unit) }
{
    match (interval.unit, unit) {
        (Some(_), Some(_)) | (None, None) => Ok(()),
        _ => Err(LogError::MissingUnit {
            place: interval.place,
            unit: UnitName(interval.unit),
            others: UnitName(unit),
        }),
    }
}

/// Returns the most decimals that the values of an interval have in a unit of this exponent.
fn most_decimals(intervals: &[StoredInterval], exponent: u32) -> u32
    requires { All (λ s. exponent_of s.unit ≤ exponent) intervals.now }
    ensures { IsGreatest (λ s. power_of s - exponent) intervals.now result }
{
    let mut most = 0;
    for interval in intervals {
        most = greater(most, decimals_in(interval, exponent));
    }
    most
}

/// Returns the greater of two numbers.
fn greater(one: u32, other: u32) -> u32
    ensures { (high : ℕ) → (result ≤ high) ↔ ((one ≤ high) × (other ≤ high)) }
{
    if one < other { other } else { one }
}

/// Returns the decimals that the values of an interval have in a finer unit of this exponent.
fn decimals_in(interval: &StoredInterval, exponent: u32) -> u32
    requires { exponent_of interval.now.unit ≤ exponent }
    ensures { result ≡ power_of interval.now - exponent }
{
    let more = exponent - exponent_of(interval.unit);
    interval.decimals.unwrap_or(0).saturating_sub(more)
}

impl ValueScale {
    /// Returns by which factors the values of intervals are multiplied in this scale, in order.
    ///
    /// # Errors
    /// As `factor`, and `OutOfMemory`.
    pub(crate) fn factors(
        self,
        alloc: Global,
        intervals: &[StoredInterval],
    ) -> Result<Vec<u64>, LogError>
        requires { All (IsAsFine self.decimals self.unit) intervals.now }
        ensures factors { IfOk result
            (λ factors. AllZip (IsFactor self.decimals self.unit) intervals.now factors.items) }
        ensures errors { IfErr result (IsFactorError self.decimals self.unit intervals.now) }
    {
        let mut factors = Vec::new(alloc);
        for interval in intervals {
            let factor = self.factor(interval)?;
            factors.push(factor)?;
        }
        Ok(factors)
    }

    /// Returns by which factor the values of an interval are multiplied in this scale.
    ///
    /// # Errors
    /// Returns `TooLarge` if the factor does not fit 64 bits.
    fn factor(self, interval: &StoredInterval) -> Result<u64, LogError>
        requires { IsAsFine self.decimals self.unit interval.now }
        ensures factor { IfOk result (IsFactor self.decimals self.unit interval.now) }
        ensures errors { IfErr result (λ e. (e ≡ LogError.TooLarge interval.now.place)
            × (2 ^ 64 ≤ factor_of self.decimals self.unit interval.now)) }
    {
        match power_of_ten(self.more_decimals(interval)) {
            Some(factor) => Ok(factor),
            None => Err(LogError::TooLarge(interval.place)),
        }
    }

    /// Returns how many decimals values have more in this scale, in one unit, than those of an
    /// interval.
    fn more_decimals(self, interval: &StoredInterval) -> u64
        requires { IsAsFine self.decimals self.unit interval.now }
        ensures { result ≡ self.decimals + exponent_of self.unit - power_of interval.now }
    {
        let power = u64::from(self.decimals) + u64::from(exponent_of(self.unit));
        let decimals = u64::from(interval.decimals.unwrap_or(0));
        power - decimals - u64::from(exponent_of(interval.unit))
    }
}

/// Returns a power of ten, or `None` if it does not fit 64 bits.
#[tactic(auto, using(crate::proofs::SomeOf::power_beyond))]
fn power_of_ten(power: u64) -> Option<u64>
    ensures { SomeIff result (10 ^ power < 2 ^ 64) (10 ^ power) }
{
    10u64.checked_pow(u32::try_from(power).ok()?)
}

/// Converts the histograms of intervals. Its memory is used again.
#[derive(Drop)]
pub(crate) struct Converter {
    alloc: Global,
    deserializer: Deserializer,
    serializer: V2Serializer,
    classes: Vec<RecordedClass>,
}

impl Converter {
    /// Returns a converter.
    pub(crate) fn new(alloc: Global) -> Converter {
        Converter {
            alloc,
            deserializer: Deserializer::new(alloc),
            serializer: V2Serializer::new(alloc),
            classes: Vec::new(alloc),
        }
    }

    /// Converts the values of intervals to a scale that is as fine or finer than each of theirs.
    /// Returns how many of them then have other values.
    ///
    /// # Errors
    /// As `convert`. Intervals before the one that has the error are converted.
    pub(crate) fn convert_all(
        &mut self,
        intervals: &mut [StoredInterval],
        scale: ValueScale,
    ) -> Result<u64, LogError>
        requires { All (IsAsFine scale.decimals scale.unit) intervals.old }
        ensures errors { IfErr result IsConversionError }
        ensures count { IfOk result (λ count. count
            ≡ count_by (is_coarser scale.decimals scale.unit) intervals.old) }
        ensures converted { OnOk result (AllZip IsConverted intervals.old intervals.new) }
        ensures scale { OnOk result (All (IsIn scale.decimals scale.unit) intervals.new) }
    {
        let mut converted = 0u64;
        for interval in intervals.iter_mut() {
            let has_other_values = self.convert(interval, scale)?;
            converted = converted.saturating_add(u64::from(has_other_values));
        }
        Ok(converted)
    }

    /// Converts the values of an interval to a scale that is as fine or finer. Returns whether the
    /// values are other ones then.
    ///
    /// # Errors
    /// Returns `TooLarge` if a value does not fit 64 bits, `Field` if the field holds no histogram,
    /// `Write` if a count does not fit 63 bits, or `OutOfMemory`. The interval is then unchanged.
    pub(crate) fn convert(
        &mut self,
        interval: &mut StoredInterval,
        scale: ValueScale,
    ) -> Result<bool, LogError>
        requires { IsAsFine scale.decimals scale.unit interval.old }
        ensures errors { IfErr result IsConversionError }
        ensures other_values { IfOk result (λ other_values. other_values
            ≡ is_coarser scale.decimals scale.unit interval.old) }
        ensures converted { OnOk result (IsConverted interval.old interval.new) }
        ensures scale { OnOk result (IsIn scale.decimals scale.unit interval.new) }
    {
        let more = scale.more_decimals(interval);
        if more > 0 {
            interval.field = self.finer_field(interval, more)?;
        }
        if interval.decimals.unwrap_or(0) != scale.decimals {
            interval.decimals = Some(scale.decimals);
        }
        interval.unit = scale.unit;
        Ok(more > 0)
    }

    /// Returns the field of an interval, with its values in units that are finer by a power of ten.
    fn finer_field(&mut self, interval: &StoredInterval, more: u64) -> Result<String, LogError>
        ensures text { IfOk result (λ text. HoldsMultiplied (10 ^ more)
            (view_of_stored interval.now).field (string_bytes text)) }
        ensures errors { IfErr result IsConversionError }
    {
        let Some(factor) = power_of_ten(more) else {
            return Err(LogError::TooLarge(interval.place));
        };
        self.classes.clear();
        let bounds = interval.classes(&mut self.deserializer, &mut self.classes)?;
        let Some(scale) = Scale::new(bounds.low, bounds.sigfig) else {
            unreachable!()
        };
        let mut histogram = Histogram::new(self.alloc, bounds.sigfig)?;
        record_tops(&mut histogram, &self.classes, scale, factor, interval.place)?;
        self.encoded(&histogram)
    }

    /// Returns the Base64 of the V2 bytes of a histogram.
    #[tactic(auto, unfolding(hdr_log::specs::Texts::base64_of))]
    fn encoded(&mut self, histogram: &Histogram<u64>) -> Result<String, LogError>
        ensures text { IfOk result (λ text. (bytes : List ℕ) × IsV2 histogram.now bytes
            × (string_bytes text ≡ base64_of bytes)) }
        ensures errors { IfErr result IsConversionError }
    {
        match self.serializer.to_bytes(histogram) {
            Ok(bytes) => Ok(STANDARD.encode(self.alloc, bytes)?),
            Err(V2SerializeError::CountNotSerializable) => Err(LogError::Write(
                IntervalLogWriterError::SerializeError(CountNotSerializable),
            )),
            Err(_) => Err(LogError::OutOfMemory),
        }
    }
}

/// Records the greatest value of each class times a factor, as often as its count.
fn record_tops(
    sum: &mut Histogram<u64>,
    classes: &[RecordedClass],
    scale: Scale,
    factor: u64,
    place: Place,
) -> Result<(), LogError>
    ensures errors { IfErr result IsConversionError }
    ensures sum { OnOk result (sum.new ≡ after_records (2 ^ 64 - 1) sum.old
        (map (λ class. top_times scale factor (times_of class)) classes.now)) }
{
    for class in classes {
        let Some(value) = factor.checked_mul(scale.top(class.value)) else {
            return Err(LogError::TooLarge(place));
        };
        match sum.record_n(value, class.count) {
            Ok(()) => {}
            // The histogram grows, so that it does not record a value only if memory runs out.
            Err(_) => return Err(LogError::OutOfMemory),
        }
    }
    Ok(())
}
