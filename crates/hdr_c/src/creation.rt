//! Creating, copying, freeing and clearing a histogram.

ghost use Rattle.std.specs.Prelude.{◌≡◌, None, true, false};
ghost use Rattle.hdr_model.specs.Recording.{after_clear, after_reset};
ghost use Rattle.hdr_c.specs.Calls.{Changes, Copies, Creates, Stores, held};

use crate::handle::Handle;
use crate::status::{CLOSED, OK, OUT_OF_MEMORY, of_creation_error};
use hdrhistogram::{CreationError, Histogram};
use std::alloc::{AllocError, Global};

/// Stores a histogram that was created in the handle, and frees the one that the handle had.
fn store(h: &mut Handle, alloc: Global, created: Result<Histogram<u64>, CreationError>) -> u32
    ensures { Stores result created (held h.old) (held h.new) }
{
    match created {
        Ok(histogram) => match h.fill(alloc, histogram) {
            Ok(()) => OK,
            Err(AllocError) => OUT_OF_MEMORY,
        },
        Err(error) => of_creation_error(&error),
    }
}

/// Creates a histogram with fixed bounds (`Histogram::new_with_bounds`), and frees the one that the
/// handle had.
#[unsafe(no_mangle)]
pub extern "C" fn dkap_init(h: &mut Handle, alloc: Global, low: u64, high: u64, sigfig: u8) -> u32
    ensures { Creates result low high sigfig false (held h.old) (held h.new) }
{
    store(
        h,
        alloc,
        Histogram::new_with_bounds(alloc, low, high, sigfig),
    )
}

/// Creates a histogram that grows (`Histogram::new`), and frees the one that the handle had.
#[unsafe(no_mangle)]
pub extern "C" fn dkap_init_auto(h: &mut Handle, alloc: Global, sigfig: u8) -> u32
    ensures { Creates result 1 2 sigfig true (held h.old) (held h.new) }
{
    store(h, alloc, Histogram::new(alloc, sigfig))
}

/// Frees the histogram. A closed handle is unchanged.
#[unsafe(no_mangle)]
pub extern "C" fn dkap_close(h: &mut Handle, alloc: Global)
    ensures { held h.new ≡ None }
{
    drop(h.take(alloc));
}

/// Copies the histogram of `source`, and frees the one that the handle had.
#[unsafe(no_mangle)]
pub extern "C" fn dkap_copy_distinct(h: &mut Handle, alloc: Global, source: &mut Handle) -> u32
    ensures copied { Copies result (held h.old) (held source.old) (held h.new) }
    ensures unchanged { held source.new ≡ held source.old }
{
    if !source.filled {
        return CLOSED;
    }
    let held = source.pointer.as_mut();
    store(h, alloc, held.histogram.clone())
}

/// Clears the samples, the least value and the greatest (`Histogram::reset`).
#[unsafe(no_mangle)]
pub extern "C" fn dkap_reset(h: &mut Handle) -> u32
    ensures { Changes result (held h.old) (held h.new) after_reset }
{
    if !h.filled {
        return CLOSED;
    }
    let held = h.pointer.as_mut();
    held.histogram.reset();
    OK
}

/// Clears the samples alone (`Histogram::clear`).
#[unsafe(no_mangle)]
pub extern "C" fn dkap_clear(h: &mut Handle) -> u32
    ensures { Changes result (held h.old) (held h.new) after_clear }
{
    if !h.filled {
        return CLOSED;
    }
    let held = h.pointer.as_mut();
    held.histogram.clear();
    OK
}

/// Sets whether the bins grow to values past them.
#[unsafe(no_mangle)]
pub extern "C" fn dkap_auto_resize(h: &mut Handle, enabled: bool) -> u32
    ensures { Changes result (held h.old) (held h.new) (λ p. record p { auto_resize = enabled }) }
{
    if !h.filled {
        return CLOSED;
    }
    let held = h.pointer.as_mut();
    held.histogram.auto(enabled);
    OK
}
