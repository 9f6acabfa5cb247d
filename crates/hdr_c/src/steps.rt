//! Iterations over a histogram in steps, whose values and counts are stored.

ghost use Rattle.std.specs.Prelude.{◌≡◌, ◌⊎◌, ◌<◌};
ghost use Rattle.hdr_core.specs.Iterating.{bins_seen};
ghost use Rattle.hdr_iterators.specs.Picks.{items_of};
ghost use Rattle.hdr_iterators.specs.Places.{linear_picks, log_picks, quantile_picks};
ghost use Rattle.hdr_c.specs.Calls.{Reads, held};
ghost use Rattle.hdr_c.specs.Steps.{AreSteps, StoresNone, StoresSteps};

use crate::handle::Handle;
use crate::status::{CLOSED, INVALID_STEP, OK};
use hdrhistogram::iterators::{HistogramIterator, PickyIterator};

/// Stores the values that items are for, and the samples since the item before, as many as fit both
/// buffers. Returns their number.
fn store_steps<P: PickyIterator<u64>>(
    items: HistogramIterator<'_, u64, P>,
    values: &mut [u64],
    counts: &mut [u64],
) -> usize
    ensures { AreSteps items.entry result values.old values.new counts.old counts.new }
{
    let mut items = items;
    let room = values.len().min(counts.len());
    let mut done = 0;
    while done < room {
        let Some(item) = items.next() else {
            return done;
        };
        values[done] = item.value_iterated_to();
        counts[done] = item.count_since_last_iteration();
        done += 1;
    }
    done
}

/// Stores the steps of `step` values each (`Histogram::iter_linear`).
#[unsafe(no_mangle)]
pub extern "C" fn dkap_linear_steps(
    h: &mut Handle,
    step: u64,
    values: &mut [u64],
    counts: &mut [u64],
    done: &mut usize,
) -> u32
    ensures { Reads (held h.old) (held h.new) (λ p. StoresSteps result (step ≡ 0)
        (items_of (bins_seen p) (linear_picks (bins_seen p) step)) done.new
        values.old values.new counts.old counts.new)
        (StoresNone result done.new values.old values.new counts.old counts.new) }
{
    *done = 0;
    if !h.filled {
        return CLOSED;
    }
    let held = h.pointer.as_mut();
    if step == 0 {
        return INVALID_STEP;
    }
    *done = store_steps(held.histogram.iter_linear(step), values, counts);
    OK
}

/// Stores steps of `start` values, then `base` times as many, and so on (`Histogram::iter_log`).
#[unsafe(no_mangle)]
pub extern "C" fn dkap_log_steps(
    h: &mut Handle,
    start: u64,
    base: u64,
    values: &mut [u64],
    counts: &mut [u64],
    done: &mut usize,
) -> u32
    ensures { Reads (held h.old) (held h.new) (λ p. StoresSteps result ((start ≡ 0) ⊎ (base < 2))
        (items_of (bins_seen p) (log_picks (bins_seen p) start base)) done.new
        values.old values.new counts.old counts.new)
        (StoresNone result done.new values.old values.new counts.old counts.new) }
{
    *done = 0;
    if !h.filled {
        return CLOSED;
    }
    let held = h.pointer.as_mut();
    if start == 0 || base < 2 {
        return INVALID_STEP;
    }
    *done = store_steps(held.histogram.iter_log(start, base), values, counts);
    OK
}

/// Stores the values at quantiles that approach 1, `ticks` for each half of the distance to 1
/// (`Histogram::iter_quantiles`).
#[unsafe(no_mangle)]
pub extern "C" fn dkap_quantile_steps(
    h: &mut Handle,
    ticks: u32,
    values: &mut [u64],
    counts: &mut [u64],
    done: &mut usize,
) -> u32
    ensures { Reads (held h.old) (held h.new) (λ p. StoresSteps result (ticks ≡ 0)
        (items_of (bins_seen p) (quantile_picks (bins_seen p) ticks)) done.new
        values.old values.new counts.old counts.new)
        (StoresNone result done.new values.old values.new counts.old counts.new) }
{
    *done = 0;
    if !h.filled {
        return CLOSED;
    }
    let held = h.pointer.as_mut();
    if ticks == 0 {
        return INVALID_STEP;
    }
    *done = store_steps(held.histogram.iter_quantiles(ticks), values, counts);
    OK
}
