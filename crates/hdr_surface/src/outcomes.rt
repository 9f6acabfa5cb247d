//! What laws of several crates say together.

ghost use Rattle.hdr_surface.specs.Together.{FieldsAreRead, LinesAreReported, SamplesAreReported};

use hdr_core::laws::bins_and_max_are_bounded;
use hdr_log::laws::base64_is_read;
use hdr_tool::laws::{outcome_exists, report_records, report_stands};
use hdrhistogram::laws::bytes_are_read;

/// A report whose lines record samples that fit has an outcome, which is the report of these samples.
pub fn samples_are_reported()
    ensures { SamplesAreReported }
{
    outcome_exists();
    report_stands();
}

/// A report without a `Fault` is that of the samples that its lines record, if they fit.
pub fn lines_are_reported()
    ensures { LinesAreReported }
{
    report_records();
    report_stands();
}

/// A field in Base64 decodes to a histogram whose bins and greatest value are bounded, or has a defect.
pub fn fields_are_read()
    ensures { FieldsAreRead }
{
    base64_is_read();
    bytes_are_read();
    bins_and_max_are_bounded();
}
