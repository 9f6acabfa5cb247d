//! The standard deviation of a histogram.

ghost use Rattle.std.specs.Prelude.{◌≡◌};
ghost use Rattle.hdr_c.specs.Calls.{Reads, held};
ghost use Rattle.hdr_c.specs.Fractions.{IsStoredDeviation};

use crate::handle::Handle;
use crate::queries::{WideFraction, wide_fraction};
use crate::status::{CLOSED, OK, TOO_MANY_SAMPLES};

/// Stores the standard deviation of the samples, each taken as the middle of its class.
#[unsafe(no_mangle)]
pub extern "C" fn dkap_standard_deviation(h: &mut Handle, fraction: &mut WideFraction) -> u32
    ensures { Reads (held h.old) (held h.new) (λ p. IsStoredDeviation result p fraction.old fraction.new)
        ((result ≡ 1) × (fraction.new ≡ fraction.old)) }
{
    if !h.filled {
        return CLOSED;
    }
    let held = h.pointer.as_mut();
    match held.histogram.standard_deviation() {
        Some(deviation) => {
            *fraction = wide_fraction(&deviation);
            OK
        }
        None => TOO_MANY_SAMPLES,
    }
}
