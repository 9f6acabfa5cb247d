//! Lines of logs whose histograms are converted.

ghost use Rattle.std.specs.Prelude.{◌≡◌, ◌++◌, ℕ, List, OnOk, OnErr};
ghost use Rattle.std.specs.Option.{option_map};
ghost use Rattle.hdr_log.specs.Reading.{view_of_timed};
ghost use Rattle.hdrhistogram.specs.Chosen.{view_of_interval_choice};
ghost use Rattle.hdr_logs.specs.Conversion.{LineBecomes};

use crate::interval::chooses;
use crate::parser::is_left_out;
use hdr_convert::{ConvertError, Form, convert_interval};
use hdr_log::TimedInterval;
use hdrhistogram::serialization::interval_log::IntervalChoice;
use std::alloc::Global;

/// Appends what becomes of a line without a byte order mark, whose interval is `timed` if it has one.
/// A chosen interval has its histogram in `form`, and another is left out. A line without an interval
/// stays as it is, unless it is the start of a line at the end of a log.
///
/// # Errors
/// Returns an error if a histogram is not converted, or if an allocation fails. `output` is then
/// unchanged.
pub(crate) fn push_line(
    alloc: Global,
    choice: &IntervalChoice<'_>,
    form: Form,
    line: &[u8],
    timed: Option<TimedInterval<'_>>,
    output: &mut Vec<u8>,
) -> Result<(), ConvertError>
    ensures line { OnOk result ((text : List ℕ)
        × LineBecomes form (view_of_interval_choice choice.now) (option_map view_of_timed timed.entry) line.now text
        × (output.new.items ≡ output.old.items ++ text)) }
    ensures err { OnErr result (output.new.items ≡ output.old.items) }
{
    match timed {
        Some(timed) if chooses(choice, &timed) => {
            let field = timed.interval.encoded_histogram();
            convert_interval(alloc, line, field, form, output)
        }
        None if !is_left_out(line) => Ok(output.extend_from_slice(line)?),
        _ => Ok(()),
    }
}
