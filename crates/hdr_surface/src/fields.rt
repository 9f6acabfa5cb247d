//! Structs of which a pattern has all fields, and a literal of those that no other caller makes.

use hdrhistogram::serialization::interval_log::{IntervalFilter, Merged, Tag};
use hdrhistogram::serialization::{RecordedBounds, RecordedClass};
use hdrhistogram::{Counter, Fraction, RunError};
use std::time::Duration;

/// The lowest value of a field, and its digits.
pub fn bounds(bounds: RecordedBounds) -> (u64, u8) {
    let RecordedBounds { low, sigfig } = bounds;
    (low, sigfig)
}

/// The lowest value of a class, and its count.
pub fn class(class: RecordedClass) -> (u64, u64) {
    let RecordedClass { value, count } = class;
    (value, count)
}

pub fn fraction(fraction: Fraction) -> (u128, u128) {
    let Fraction { num, den } = fraction;
    (num, den)
}

pub fn filter<'a>(
    filter: IntervalFilter<'a>,
) -> (Option<Tag<'a>>, Option<Duration>, Option<Duration>) {
    let IntervalFilter { tag, from, to } = filter;
    (tag, from, to)
}

pub fn merged<T: Counter>(merged: Merged<T>) -> Merged<T> {
    let Merged { histogram, chosen } = merged;
    Merged { histogram, chosen }
}

pub fn run(error: RunError) -> RunError {
    let RunError { at, cause } = error;
    RunError { at, cause }
}
