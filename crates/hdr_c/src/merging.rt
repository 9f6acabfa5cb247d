//! Adding, subtracting and comparing histograms.

ghost use Rattle.std.specs.Prelude.{◌≡◌};
ghost use Rattle.hdr_c.specs.Calls.{Adds, AddsCorrected, Compares, Subtracts, held};

use crate::handle::Handle;
use crate::status::{CLOSED, of_addition, of_recording, of_subtraction};

/// Adds another histogram (`Histogram::add`).
#[unsafe(no_mangle)]
pub extern "C" fn dkap_add_distinct(h: &mut Handle, source: &mut Handle) -> u32
    ensures added { Adds result (held h.old) (held source.old) (held h.new) }
    ensures unchanged { held source.new ≡ held source.old }
{
    if !h.filled {
        return CLOSED;
    }
    if !source.filled {
        return CLOSED;
    }
    let held = h.pointer.as_mut();
    let second = source.pointer.as_mut();
    of_addition(held.histogram.add(&second.histogram))
}

/// Adds another histogram, corrected for coordinated omission (`Histogram::add_correct`).
#[unsafe(no_mangle)]
pub extern "C" fn dkap_add_correct_distinct(
    h: &mut Handle,
    source: &mut Handle,
    interval: u64,
) -> u32
    ensures added { AddsCorrected result interval (held h.old) (held source.old) (held h.new) }
    ensures unchanged { held source.new ≡ held source.old }
{
    if !h.filled {
        return CLOSED;
    }
    if !source.filled {
        return CLOSED;
    }
    let held = h.pointer.as_mut();
    let second = source.pointer.as_mut();
    of_recording(held.histogram.add_correct(&second.histogram, interval))
}

/// Subtracts another histogram (`Histogram::subtract`).
#[unsafe(no_mangle)]
pub extern "C" fn dkap_subtract_distinct(h: &mut Handle, other: &mut Handle) -> u32
    ensures subtracted { Subtracts result (held h.old) (held other.old) (held h.new) }
    ensures unchanged { held other.new ≡ held other.old }
{
    if !h.filled {
        return CLOSED;
    }
    if !other.filled {
        return CLOSED;
    }
    let held = h.pointer.as_mut();
    let second = other.pointer.as_mut();
    of_subtraction(held.histogram.subtract(&second.histogram))
}

/// Whether two histograms are equal. A closed handle has none, and the result is `false`.
#[unsafe(no_mangle)]
pub extern "C" fn dkap_equal_distinct(h: &mut Handle, other: &mut Handle) -> bool
    ensures value { Compares result (held h.old) (held other.old) }
    ensures unchanged { held h.new ≡ held h.old }
    ensures other_unchanged { held other.new ≡ held other.old }
{
    if !h.filled {
        return false;
    }
    if !other.filled {
        return false;
    }
    let held = h.pointer.as_mut();
    let second = other.pointer.as_mut();
    held.histogram.equals(&second.histogram)
}
