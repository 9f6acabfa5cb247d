//! The classes of values, which hold for values past the bins too.

ghost use Rattle.std.specs.Prelude.{◌≡◌, ◌↔◌, ◌+◌, ◌-◌, ◌^◌, min, false, IsTrue};
ghost use Rattle.hdr_base.specs.Classes.{width_of, lowest_of, top_of, AreEquivalent};
ghost use Rattle.hdr_model.specs.Plain.{resolution};
ghost use Rattle.hdr_model.specs.Statistics.{median_of};
ghost use Rattle.hdr_c.specs.Calls.{Reads, held};

use crate::handle::Handle;

/// Returns the lowest value of the class of `value`.
#[unsafe(no_mangle)]
pub extern "C" fn dkap_lowest_equivalent(h: &mut Handle, value: u64) -> u64
    ensures { Reads (held h.old) (held h.new) (λ p. result ≡ lowest_of (resolution p) value) (result ≡ 0) }
{
    if !h.filled {
        return 0;
    }
    let held = h.pointer.as_mut();
    held.histogram.lowest_equivalent(value)
}

/// Returns the greatest value of the class of `value`.
#[unsafe(no_mangle)]
pub extern "C" fn dkap_highest_equivalent(h: &mut Handle, value: u64) -> u64
    ensures { Reads (held h.old) (held h.new) (λ p. result ≡ top_of (resolution p) value) (result ≡ 0) }
{
    if !h.filled {
        return 0;
    }
    let held = h.pointer.as_mut();
    held.histogram.highest_equivalent(value)
}

/// Returns the value in the middle of the class of `value`.
#[unsafe(no_mangle)]
pub extern "C" fn dkap_median_equivalent(h: &mut Handle, value: u64) -> u64
    ensures { Reads (held h.old) (held h.new) (λ p. result ≡ median_of (resolution p) value) (result ≡ 0) }
{
    if !h.filled {
        return 0;
    }
    let held = h.pointer.as_mut();
    held.histogram.median_equivalent(value)
}

/// Returns the lowest value of the next class, or `u64::MAX` if there is none.
#[unsafe(no_mangle)]
pub extern "C" fn dkap_next_non_equivalent(h: &mut Handle, value: u64) -> u64
    ensures { Reads (held h.old) (held h.new) (λ p. result ≡ min (lowest_of (resolution p) value + width_of (resolution p) value) (2 ^ 64 - 1)) (result ≡ 0) }
{
    if !h.filled {
        return 0;
    }
    let held = h.pointer.as_mut();
    held.histogram.next_non_equivalent(value)
}

/// Returns the number of values in the class of `value`.
#[unsafe(no_mangle)]
pub extern "C" fn dkap_equivalent_range(h: &mut Handle, value: u64) -> u64
    ensures { Reads (held h.old) (held h.new) (λ p. result ≡ width_of (resolution p) value) (result ≡ 0) }
{
    if !h.filled {
        return 0;
    }
    let held = h.pointer.as_mut();
    held.histogram.equivalent_range(value)
}

/// Whether two values have one class.
#[unsafe(no_mangle)]
pub extern "C" fn dkap_equivalent(h: &mut Handle, a: u64, b: u64) -> bool
    ensures { Reads (held h.old) (held h.new)
        (λ p. IsTrue result ↔ AreEquivalent (resolution p) a b) (result ≡ false) }
{
    if !h.filled {
        return false;
    }
    let held = h.pointer.as_mut();
    held.histogram.equivalent(a, b)
}
