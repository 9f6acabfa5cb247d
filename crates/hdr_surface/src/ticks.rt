//! The counted calls, with their ticks.

use hdrhistogram::{Counter, Histogram, Quantile, RecordError, Ticks};

/// Guard: a count below `u64::MAX`.
pub fn tick(ticks: &mut Ticks) {
    if ticks.count() < u64::MAX {
        ticks.tick();
    }
}

/// Guard: a count of at most 2^63.
pub fn record_n_correct_counted<T: Counter>(
    histogram: &mut Histogram<T>,
    value: u64,
    count: T,
    interval: u64,
    ticks: &mut Ticks,
) -> Option<Result<(), RecordError>> {
    if ticks.count() > 1 << 63 {
        return None;
    }
    Some(histogram.record_n_correct_counted(value, count, interval, ticks))
}

/// Guard: a count of at most 2^63.
pub fn value_at_quantile_counted<T: Counter>(
    histogram: &Histogram<T>,
    quantile: Quantile,
    ticks: &mut Ticks,
) -> Option<u64> {
    if ticks.count() > 1 << 63 {
        return None;
    }
    Some(histogram.value_at_quantile_counted(quantile, ticks))
}

/// New ticks need no guard, and not for the second call.
pub fn of_quantiles<T: Counter>(histogram: &Histogram<T>, a: Quantile, b: Quantile) -> u64 {
    let mut ticks = Ticks::new();
    let _a = histogram.value_at_quantile_counted(a, &mut ticks);
    let _b = histogram.value_at_quantile_counted(b, &mut ticks);
    ticks.count()
}

/// The same for corrections.
pub fn of_corrections<T: Counter>(
    histogram: &mut Histogram<T>,
    count: T,
) -> Result<u64, RecordError> {
    let mut ticks = Ticks::new();
    histogram.record_n_correct_counted(1000, count, 10, &mut ticks)?;
    histogram.record_n_correct_counted(1000, count, 10, &mut ticks)?;
    Ok(ticks.count())
}
