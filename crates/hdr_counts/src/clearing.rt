//! Clearing of sections.

ghost use Rattle.std.specs.Prelude.{◌≡◌, length, map, sum, replicate};
ghost use Rattle.hdr_counts.specs.Blocks.{AreSums};

use hdr_base::Counter;

/// Sets each counter to 0, section by section, and the sums too. `sums` are the sums of the
/// sections; a section whose sum is 0 is skipped.
pub(crate) fn clear_sections<T: Counter>(counters: &mut [T], sums: &mut [u128], section: usize)
    requires { AreSums section (map T.number counters.old) sums.old }
    ensures numbers { map T.number counters.new ≡ replicate (length counters.old) 0 }
    ensures sums { AreSums section (map T.number counters.new) sums.new }
{
    for k in 0..sums.len() {
        let from = k * section;
        clear_section(&mut counters[from..from + section], sums[k]);
        sums[k] = 0;
    }
}

/// Sets the counters of a section to 0; `had` is their sum.
fn clear_section<T: Counter>(counters: &mut [T], had: u128)
    requires { had ≡ sum (map T.number counters.old) }
    ensures { map T.number counters.new ≡ replicate (length counters.old) 0 }
{
    if had == 0 {
        return;
    }
    for counter in counters.iter_mut() {
        *counter = T::zero();
    }
}
