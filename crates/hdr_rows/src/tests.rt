//! What rows can't test: allocations that fail, in turn or if they are large, readers and writers that fail, of the library and
//! of the program, messages of errors that no row meets, the headline, laws, and the ends of intervals.

mod compressed;
mod failed_allocations;
mod failing;
mod headline;
mod intervals;
mod large_allocations;
mod laws;
mod messages;
mod program;
mod serializers;
mod streams;

use hdr_core::{CreationError, Histogram};
use std::alloc::Global;

/// The V2 bytes of 1 once and 2 four times, by three digits.
pub const FIRST_RUN: [u8; 43] = [
    0x1c, 0x84, 0x93, 0x13, 0, 0, 0, 3, 0, 0, 0, 0, 0, 0, 0, 3, 0, 0, 0, 0, 0, 0, 0, 1, 0, 0, 0, 0,
    0, 0, 0, 2, 0x3f, 0xf0, 0, 0, 0, 0, 0, 0, 0, 2, 8,
];

/// The line of a log with these bytes: the first second, with tag `a`.
pub const FIRST_LINE: &str =
    "Tag=a,0.000,1.000,2.000,HISTEwAAAAMAAAAAAAAAAwAAAAAAAAABAAAAAAAAAAI/8AAAAAAAAAACCA==\n";

/// Returns the histogram of these bytes.
pub fn first_run(alloc: Global) -> Result<Histogram<u64>, CreationError> {
    let mut h = Histogram::new(alloc, 3)?;
    h.saturating_record(1);
    h.saturating_record_n(2, 4);
    Ok(h)
}
