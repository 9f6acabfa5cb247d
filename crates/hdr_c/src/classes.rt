//! The nonempty classes, one after another.

ghost use Rattle.std.specs.Prelude.{◌≡◌, MatchOption, false};
ghost use Rattle.hdr_c.specs.Calls.{Reads, held};
ghost use Rattle.hdr_c.specs.Classes.{AllZeroFrom, IsNextClass, IsNextNonzero};

use crate::handle::Handle;
use hdrhistogram::Histogram;

/// A nonempty class: its least and greatest value, and its count. `next` is the index of the bin
/// after it, and 0 to begin with.
#[repr(C)]
#[derive(Drop)]
pub struct Class {
    pub next: usize,
    pub lowest: u64,
    pub highest: u64,
    pub count: u64,
}

/// Returns the index of the first nonempty bin from `from` on.
fn next_nonempty(histogram: &Histogram<u64>, from: usize) -> Option<usize>
    ensures { MatchOption result (AllZeroFrom histogram.now.counts from)
        (IsNextNonzero histogram.now.counts from) }
{
    let bins = histogram.distinct_values();
    let at = histogram.next_filled(from.min(bins));
    (at < bins).then_some(at)
}

/// Stores the first nonempty class from the bin `class.next` on. Returns `false` if there is none.
#[unsafe(no_mangle)]
pub extern "C" fn dkap_next_class(h: &mut Handle, class: &mut Class) -> bool
    ensures { Reads (held h.old) (held h.new) (λ p. IsNextClass p result class.old class.new)
        ((result ≡ false) × (class.new ≡ class.old)) }
{
    if !h.filled {
        return false;
    }
    let histogram = &h.pointer.as_mut().histogram;
    let Some(at) = next_nonempty(histogram, class.next) else {
        return false;
    };
    let lowest = histogram.bin_value(at).unwrap_or(0);
    *class = Class {
        next: at.saturating_add(1),
        lowest,
        highest: histogram.highest_equivalent(lowest),
        count: histogram.counters()[at],
    };
    true
}
