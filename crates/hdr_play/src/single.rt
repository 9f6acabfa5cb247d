//! Calls on one histogram: the name, the numbers, and the call.

use crate::arguments::{NumberCall, to_counter, to_quantile, to_sigfig};
use crate::items;
use crate::outcome::Value::{self, Number};
use crate::outcome::{LineError, Outcome, ensure_same, first_known, optional_number};
use hdr_base::{Counter, Quantile, Ticks};
use hdr_core::Histogram;
use std::alloc::Global;
use std::mem;

/// Replaces the histogram by a new one.
fn create<T: Counter>(alloc: Global, h: &mut Histogram<T>, call: NumberCall<'_>) -> Outcome {
    let new = match call {
        ("new", &[sigfig]) => Histogram::new(alloc, to_sigfig(sigfig)?)?,
        ("new_with_max", &[high, sigfig]) => {
            Histogram::new_with_max(alloc, high, to_sigfig(sigfig)?)?
        }
        ("new_with_bounds", &[low, high, sigfig]) => {
            Histogram::new_with_bounds(alloc, low, high, to_sigfig(sigfig)?)?
        }
        _ => return Err(LineError::UnknownCall),
    };
    replace(h, new)
}

/// Replaces the histogram by another.
pub fn replace<T: Counter>(h: &mut Histogram<T>, new: Histogram<T>) -> Outcome {
    drop(mem::replace(h, new));
    Ok(Value::Unit)
}

/// Makes a call that changes the histogram.
fn change<T: Counter>(h: &mut Histogram<T>, call: NumberCall<'_>) -> Outcome {
    match call {
        ("record", &[value]) => h.record(value)?,
        ("record_n", &[value, count]) => h.record_n(value, to_counter(count)?)?,
        ("record_correct", &[value, interval]) => h.record_correct(value, interval)?,
        ("record_n_correct", &[value, count, interval]) => {
            h.record_n_correct(value, to_counter(count)?, interval)?
        }
        ("saturating_record", &[value]) => h.saturating_record(value),
        ("saturating_record_n", &[value, n]) => h.saturating_record_n(value, to_counter(n)?),
        ("clear", []) => h.clear(),
        ("reset", []) => h.reset(),
        ("auto", [0]) => h.auto(false),
        ("auto", [1]) => h.auto(true),
        _ => return Err(LineError::UnknownCall),
    }
    Ok(Value::Unit)
}

/// Makes a call on the histogram that takes no argument; 1 is true, and 0 is false.
fn property<T: Counter>(h: &Histogram<T>, name: &str) -> Option<u64> {
    match name {
        "len" => Some(h.len()),
        "count" => Some(h.count()),
        "is_empty" => Some(u64::from(h.is_empty())),
        "low" => Some(h.low()),
        "high" => Some(h.high()),
        "sigfig" => Some(u64::from(h.sigfig())),
        "is_auto_resize" => Some(u64::from(h.is_auto_resize())),
        "buckets" => Some(u64::from(h.buckets())),
        "distinct_values" => Some(h.distinct_values() as u64),
        "max" => Some(h.max()),
        "min" => Some(h.min()),
        "min_nz" => Some(h.min_nz()),
        _ => None,
    }
}

/// Returns the ticks of a quantile, whose value has to be the same without ticks.
fn quantile_ticks<T: Counter>(h: &Histogram<T>, quantile: Quantile) -> Result<u64, LineError> {
    let mut ticks = Ticks::new();
    let value = h.value_at_quantile_counted(quantile, &mut ticks);
    ensure_same(value == h.value_at_quantile(quantile))?;
    Ok(ticks.count())
}

/// Makes a call that returns a number; 1 is true, and 0 is false.
fn read<T: Counter>(h: &Histogram<T>, call: NumberCall<'_>) -> Outcome {
    Ok(Number(match call {
        (name, []) => property(h, name).ok_or(LineError::UnknownCall)?,
        ("count_at", &[value]) => h.count_at(value).as_u64(),
        ("count_between", &[low, high]) => h.count_between(low, high),
        ("lowest_equivalent", &[value]) => h.lowest_equivalent(value),
        ("highest_equivalent", &[value]) => h.highest_equivalent(value),
        ("next_non_equivalent", &[value]) => h.next_non_equivalent(value),
        ("median_equivalent", &[value]) => h.median_equivalent(value),
        ("equivalent_range", &[value]) => h.equivalent_range(value),
        ("equivalent", &[one, other]) => u64::from(h.equivalent(one, other)),
        ("value_at_quantile", &[num, den]) => h.value_at_quantile(to_quantile(num, den)?),
        ("value_at_percentile", &[num, den]) => h.value_at_percentile(to_quantile(num, den)?),
        ("looks", &[num, den]) => quantile_ticks(h, to_quantile(num, den)?)?,
        _ => return Err(LineError::UnknownCall),
    }))
}

/// Returns the count of a bin.
fn bin_count<T: Counter>(h: &Histogram<T>, index: u64) -> Option<u64> {
    Some(h.bin_count(index as usize)?.as_u64())
}

/// Returns the count at an index of `counters`.
fn counter_at<T: Counter>(h: &Histogram<T>, index: u64) -> Option<u64> {
    Some(h.counters().get(index as usize)?.as_u64())
}

/// Makes a call on a bin.
fn call_bin<T: Counter>(h: &Histogram<T>, call: NumberCall<'_>) -> Outcome {
    Ok(optional_number(match call {
        ("bin_of", &[value]) => h.bin_of(value).map(|index| index as u64),
        ("bin_value", &[index]) => h.bin_value(index as usize),
        ("bin_count", &[index]) => bin_count(h, index),
        ("counters", &[index]) => counter_at(h, index),
        _ => return Err(LineError::UnknownCall),
    }))
}

/// Corrects class by class, and returns the number of counters updated.
fn correct_counted<T: Counter>(h: &mut Histogram<T>, call: NumberCall<'_>) -> Outcome {
    let ("record_n_correct_counted", &[value, count, interval]) = call else {
        return Err(LineError::UnknownCall);
    };
    let mut ticks = Ticks::new();
    h.record_n_correct_counted(value, to_counter(count)?, interval, &mut ticks)?;
    Ok(Number(ticks.count()))
}

/// Makes a call on one histogram that takes numbers alone.
pub fn call<T: Counter>(alloc: Global, h: &mut Histogram<T>, call: NumberCall<'_>) -> Outcome {
    first_known!(
        read(h, call),
        change(h, call),
        create(alloc, h, call),
        call_bin(h, call),
        correct_counted(h, call),
        items::call(alloc, h, call)
    )
}

/// The calls that have to return the same on equal histograms.
const PROPERTIES: &str =
    "len is_empty low high sigfig is_auto_resize buckets distinct_values max min min_nz";

/// Whether `PROPERTIES` return the same on both, and all bins have the same counts.
pub fn is_same<T: Counter, F: Counter>(one: &Histogram<T>, other: &Histogram<F>) -> bool {
    let bins = one.distinct_values() as u64;
    PROPERTIES
        .split(' ')
        .all(|name| property(one, name) == property(other, name))
        && (0..bins).all(|index| bin_count(one, index) == bin_count(other, index))
}
