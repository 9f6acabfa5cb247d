//! What the arguments ask to read.

use crate::numbers::Form;
use hdr_input::Recording;
use hdrhistogram::serialization::interval_log::IntervalChoice;

/// What the input is, and how it is read.
#[derive(Clone, Copy)]
pub enum Reading<'l, 'n> {
    /// A number on each line, or a table.
    Numbers {
        recording: Recording,
        form: Form<'l, 'n>,
    },
    /// Interval logs.
    Logs {
        choice: IntervalChoice<'n>,
        sigfig: u8,
        is_by_tag: bool,
    },
}
