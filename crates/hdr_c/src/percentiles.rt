//! Values at many quantiles, and percentiles.

ghost use Rattle.std.specs.Prelude.{◌≡◌, ◌<◌, ◌≤◌, length};
ghost use Rattle.hdr_model.specs.Plain.{Plain};
ghost use Rattle.hdr_model.specs.Quantiles.{value_at_quantile, hundredth};
ghost use Rattle.hdr_model.specs.Statistics.{in_hundredths, quantile_below};
ghost use Rattle.hdr_c.specs.Calls.{Reads, held};
ghost use Rattle.hdr_c.specs.Fractions.{AreQuantiles, AreValues, IsFraction, IsQuantile};

use crate::handle::Handle;
use crate::queries::{WideFraction, wide_fraction};
use crate::status::{BUFFER_TOO_SMALL, CLOSED, OK, ZERO_DENOMINATOR};
use hdrhistogram::{Histogram, Quantile};

/// Stores the value at the percentile num/den.
#[unsafe(no_mangle)]
pub extern "C" fn dkap_value_at_percentile(
    h: &mut Handle,
    num: u64,
    den: u64,
    value: &mut u64,
) -> u32
    ensures { Reads (held h.old) (held h.new) (λ p. IsQuantile result den value.old value.new
        (value_at_quantile p (hundredth (record { num = num; den = den }))))
        ((result ≡ 1) × (value.new ≡ value.old)) }
{
    if !h.filled {
        return CLOSED;
    }
    let held = h.pointer.as_mut();
    match Quantile::new(num, den) {
        Some(percentile) => {
            *value = held.histogram.value_at_percentile(percentile);
            OK
        }
        None => ZERO_DENOMINATOR,
    }
}

/// Stores the percentage of samples in the class of `value` or below it.
#[unsafe(no_mangle)]
pub extern "C" fn dkap_percentile_below(
    h: &mut Handle,
    value: u64,
    fraction: &mut WideFraction,
) -> u32
    ensures { Reads (held h.old) (held h.new)
        (λ p. (result ≡ 0) × IsFraction (in_hundredths (quantile_below p value)) fraction.new)
        ((result ≡ 1) × (fraction.new ≡ fraction.old)) }
{
    if !h.filled {
        return CLOSED;
    }
    let held = h.pointer.as_mut();
    *fraction = wide_fraction(&held.histogram.percentile_below(value));
    OK
}

/// Stores the value at each quantile nums[i]/den in `values`.
#[unsafe(no_mangle)]
pub extern "C" fn dkap_values_at_quantiles(
    h: &mut Handle,
    nums: &[u64],
    den: u64,
    values: &mut [u64],
) -> u32
    ensures { Reads (held h.old) (held h.new)
        (λ p. AreQuantiles result p nums.now den values.old values.new)
        ((result ≡ 1) × (values.new ≡ values.old)) }
{
    if !h.filled {
        return CLOSED;
    }
    let held = h.pointer.as_mut();
    if den == 0 {
        return ZERO_DENOMINATOR;
    }
    if values.len() < nums.len() {
        return BUFFER_TOO_SMALL;
    }
    store_values(&held.histogram, nums, den, values);
    OK
}

/// Stores the value at each quantile.
fn store_values(histogram: &Histogram<u64>, nums: &[u64], den: u64, values: &mut [u64])
    requires den { 0 < den }
    requires length { length nums.now ≤ length values.old }
    ensures { AreValues histogram.now nums.now den (length nums.now) values.old values.new }
{
    for (at, num) in nums.iter().enumerate() {
        values[at] = value_at(histogram, *num, den);
    }
}

/// Returns the value at the quantile num/den.
fn value_at(histogram: &Histogram<u64>, num: u64, den: u64) -> u64
    requires { 0 < den }
    ensures { result ≡ value_at_quantile histogram.now (record { num = num; den = den }) }
{
    Quantile::new(num, den).map_or(0, |quantile| histogram.value_at_quantile(quantile))
}
