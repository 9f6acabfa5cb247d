//! Recording values.

ghost use Rattle.std.specs.Prelude.{◌≡◌, ◌-◌, ◌^◌, take};
ghost use Rattle.hdr_model.specs.Recording.{after_record, clamp_to_bins};
ghost use Rattle.hdr_model.specs.Correction.{after_correct};
ghost use Rattle.hdr_c.specs.Calls.{Changes, EndsAfter, Records, RecordsMany, held};
ghost use Rattle.hdr_c.specs.Runs.{after_values};

use crate::handle::Handle;
use crate::status::{CLOSED, OK, of_record_error, of_recording};
use hdrhistogram::Histogram;

/// Records a value once.
#[unsafe(no_mangle)]
pub extern "C" fn dkap_record(h: &mut Handle, value: u64) -> u32
    ensures { Records result value (held h.old) (held h.new)
        (λ p. after_record (2 ^ 64 - 1) p value 1) }
{
    if !h.filled {
        return CLOSED;
    }
    let held = h.pointer.as_mut();
    of_recording(held.histogram.record(value))
}

/// Records a value `count` times.
#[unsafe(no_mangle)]
pub extern "C" fn dkap_record_n(h: &mut Handle, value: u64, count: u64) -> u32
    ensures { Records result value (held h.old) (held h.new)
        (λ p. after_record (2 ^ 64 - 1) p value count) }
{
    if !h.filled {
        return CLOSED;
    }
    let held = h.pointer.as_mut();
    of_recording(held.histogram.record_n(value, count))
}

/// Records a value `count` times, and the samples that a client omitted that should have sent one
/// every `interval` (`Histogram::record_n_correct`).
#[unsafe(no_mangle)]
pub extern "C" fn dkap_record_correct(h: &mut Handle, value: u64, count: u64, interval: u64) -> u32
    ensures { Records result value (held h.old) (held h.new)
        (λ p. after_correct (2 ^ 64 - 1) p value count interval) }
{
    if !h.filled {
        return CLOSED;
    }
    let held = h.pointer.as_mut();
    of_recording(held.histogram.record_n_correct(value, count, interval))
}

/// Records a value `count` times, or `high` if the value has no bin
/// (`Histogram::saturating_record_n`).
#[unsafe(no_mangle)]
pub extern "C" fn dkap_record_saturating(h: &mut Handle, value: u64, count: u64) -> u32
    ensures { Changes result (held h.old) (held h.new)
        (λ p. after_record (2 ^ 64 - 1) p (clamp_to_bins p value) count) }
{
    if !h.filled {
        return CLOSED;
    }
    let held = h.pointer.as_mut();
    held.histogram.saturating_record_n(value, count);
    OK
}

/// Records each value once, in order, up to the first error. `done` is the number of values recorded.
#[unsafe(no_mangle)]
pub extern "C" fn dkap_record_all(h: &mut Handle, values: &[u64], done: &mut usize) -> u32
    ensures { RecordsMany result values.now done.new (held h.old) (held h.new) }
{
    if !h.filled {
        *done = 0;
        return CLOSED;
    }
    let held = h.pointer.as_mut();
    let (recorded, status) = record_each(&mut held.histogram, values);
    *done = recorded;
    status
}

/// Records values up to the first error. Returns the number recorded and the status.
fn record_each(histogram: &mut Histogram<u64>, values: &[u64]) -> (usize, u32)
    ensures state { histogram.new ≡ after_values (take result.0 values.now) histogram.old }
    ensures ends { EndsAfter result.1 values.now result.0 histogram.new }
{
    for (at, value) in values.iter().enumerate() {
        if let Err(error) = histogram.record(*value) {
            return (at, of_record_error(&error));
        }
    }
    (values.len(), OK)
}
