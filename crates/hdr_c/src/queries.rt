//! Queries of a histogram.

ghost use Rattle.std.specs.Prelude.{◌≡◌, ◌-◌, ◌^◌, min, slice_index};
ghost use Rattle.hdr_model.specs.Plain.{max_of, min_nz_of, min_of};
ghost use Rattle.hdr_model.specs.Quantiles.{value_at_quantile};
ghost use Rattle.hdr_model.specs.Statistics.{bin_or_last, mean, quantile_below, sum_between};
ghost use Rattle.hdr_c.specs.Calls.{Reads, held};
ghost use Rattle.hdr_c.specs.Fractions.{IsMean, IsQuantile, IsFraction, IsShape};

use crate::handle::Handle;
use crate::status::{CLOSED, OK, TOO_MANY_SAMPLES, ZERO_DENOMINATOR};
use hdrhistogram::{Fraction, Quantile};

/// A fraction. Its numerator is `num_high * 2^64 + num_low`.
#[repr(C)]
#[derive(Drop)]
pub struct WideFraction {
    pub num_low: u64,
    pub num_high: u64,
    pub den: u64,
}

/// The bounds of a histogram, its number of bins, and whether it grows.
#[repr(C)]
#[derive(Drop)]
pub struct Shape {
    pub low: u64,
    pub high: u64,
    pub bins: u64,
    pub sigfig: u8,
    pub auto_resize: bool,
}

/// The number of values of a `u64`.
const U64_VALUES: u128 = 1 << 64;

pub(crate) fn wide_fraction(fraction: &Fraction) -> WideFraction
    ensures { IsFraction fraction.now result }
{
    WideFraction {
        num_low: (fraction.num % U64_VALUES) as u64,
        num_high: (fraction.num / U64_VALUES) as u64,
        den: u64::try_from(fraction.den).unwrap_or(u64::MAX),
    }
}

/// Returns the number of samples.
#[unsafe(no_mangle)]
pub extern "C" fn dkap_len(h: &mut Handle) -> u64
    ensures { Reads (held h.old) (held h.new) (λ p. result ≡ p.total) (result ≡ 0) }
{
    if !h.filled {
        return 0;
    }
    let held = h.pointer.as_mut();
    held.histogram.len()
}

/// Returns the lowest value recorded (`Histogram::min`).
#[unsafe(no_mangle)]
pub extern "C" fn dkap_min(h: &mut Handle) -> u64
    ensures { Reads (held h.old) (held h.new) (λ p. result ≡ min_of p) (result ≡ 0) }
{
    if !h.filled {
        return 0;
    }
    let held = h.pointer.as_mut();
    held.histogram.min()
}

/// Returns the lowest value recorded past class 0 (`Histogram::min_nz`).
#[unsafe(no_mangle)]
pub extern "C" fn dkap_min_nz(h: &mut Handle) -> u64
    ensures { Reads (held h.old) (held h.new) (λ p. result ≡ min_nz_of p) (result ≡ 0) }
{
    if !h.filled {
        return 0;
    }
    let held = h.pointer.as_mut();
    held.histogram.min_nz()
}

/// Returns the greatest value of the last class recorded (`Histogram::max`).
#[unsafe(no_mangle)]
pub extern "C" fn dkap_max(h: &mut Handle) -> u64
    ensures { Reads (held h.old) (held h.new) (λ p. result ≡ max_of p) (result ≡ 0) }
{
    if !h.filled {
        return 0;
    }
    let held = h.pointer.as_mut();
    held.histogram.max()
}

/// Stores the mean of the samples, each taken as the middle of its class.
#[unsafe(no_mangle)]
pub extern "C" fn dkap_mean(h: &mut Handle, fraction: &mut WideFraction) -> u32
    ensures { Reads (held h.old) (held h.new)
        (λ p. IsMean result (mean p) fraction.old fraction.new) ((result ≡ 1) × (fraction.new ≡ fraction.old)) }
{
    if !h.filled {
        return CLOSED;
    }
    let held = h.pointer.as_mut();
    match held.histogram.mean() {
        Some(mean) => {
            *fraction = wide_fraction(&mean);
            OK
        }
        None => TOO_MANY_SAMPLES,
    }
}

/// Stores the value at the quantile num/den.
#[unsafe(no_mangle)]
pub extern "C" fn dkap_value_at_quantile(h: &mut Handle, num: u64, den: u64, value: &mut u64) -> u32
    ensures { Reads (held h.old) (held h.new) (λ p. IsQuantile result den value.old value.new
        (value_at_quantile p (record { num = num; den = den })))
        ((result ≡ 1) × (value.new ≡ value.old)) }
{
    if !h.filled {
        return CLOSED;
    }
    let held = h.pointer.as_mut();
    match Quantile::new(num, den) {
        Some(quantile) => {
            *value = held.histogram.value_at_quantile(quantile);
            OK
        }
        None => ZERO_DENOMINATOR,
    }
}

/// Stores the fraction of samples in the class of `value` or below it.
#[unsafe(no_mangle)]
pub extern "C" fn dkap_quantile_below(
    h: &mut Handle,
    value: u64,
    fraction: &mut WideFraction,
) -> u32
    ensures { Reads (held h.old) (held h.new)
        (λ p. (result ≡ 0) × IsFraction (quantile_below p value) fraction.new)
        ((result ≡ 1) × (fraction.new ≡ fraction.old)) }
{
    if !h.filled {
        return CLOSED;
    }
    let held = h.pointer.as_mut();
    *fraction = wide_fraction(&held.histogram.quantile_below(value));
    OK
}

/// Returns the count of the class of `value`.
#[unsafe(no_mangle)]
pub extern "C" fn dkap_count_at(h: &mut Handle, value: u64) -> u64
    ensures { Reads (held h.old) (held h.new)
        (λ p. result ≡ slice_index p.counts (bin_or_last p value)) (result ≡ 0) }
{
    if !h.filled {
        return 0;
    }
    let held = h.pointer.as_mut();
    held.histogram.count_at(value)
}

/// Returns the sum of the counts from the class of `low` to that of `high`.
#[unsafe(no_mangle)]
pub extern "C" fn dkap_count_between(h: &mut Handle, low: u64, high: u64) -> u64
    ensures { Reads (held h.old) (held h.new)
        (λ p. result ≡ min (sum_between p low high) (2 ^ 64 - 1)) (result ≡ 0) }
{
    if !h.filled {
        return 0;
    }
    let held = h.pointer.as_mut();
    held.histogram.count_between(low, high)
}

/// Stores the bounds, the number of bins, and whether the histogram grows.
#[unsafe(no_mangle)]
pub extern "C" fn dkap_shape_of(h: &mut Handle, shape: &mut Shape) -> u32
    ensures { Reads (held h.old) (held h.new) (λ p. (result ≡ 0) × IsShape p shape.new)
        ((result ≡ 1) × (shape.new ≡ shape.old)) }
{
    if !h.filled {
        return CLOSED;
    }
    let held = h.pointer.as_mut();
    *shape = Shape {
        low: held.histogram.low(),
        high: held.histogram.high(),
        bins: held.histogram.distinct_values() as u64,
        sigfig: held.histogram.sigfig(),
        auto_resize: held.histogram.is_auto_resize(),
    };
    OK
}
