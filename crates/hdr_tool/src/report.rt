//! Formats and writes reports.

ghost use Rattle.std.specs.Prelude.{◌≡◌, ◌++◌, Ok, Err, OnOk, IfOk, string_bytes};
ghost use Rattle.std.specs.List.{flat_map};
ghost use Rattle.hdr_tool.specs.Outcomes.{Writes};
ghost use Rattle.hdr_tool.specs.Program.{Reported, at_end, quantile_line, IsBytesField, IsReport};

use crate::fault::Fault;
use crate::stream::write_all;
use hdrhistogram::serialization::{V2SerializeError, V2Serializer};
use hdrhistogram::{Counter, Histogram, Quantile};
use std::alloc::{AllocError, Global};
use std::io::Write;

/// Appends a line for each quantile, in order.
fn push_quantiles<T: Counter>(
    text: &mut String,
    histogram: &Histogram<T>,
    quantiles: &[Quantile],
) -> Result<(), AllocError>
    ensures { OnOk result (string_bytes text.new ≡ string_bytes text.old ++ flat_map
        (quantile_line histogram.now) quantiles.now) }
{
    for quantile in quantiles {
        let value = histogram.value_at_quantile(*quantile);
        writeln!(text, "{}/{} {value}", quantile.num(), quantile.den())?;
    }
    Ok(())
}

/// Returns the histogram's bytes in hexadecimal, or `none` if a count is too great for bytes.
fn bytes_field<T: Counter>(alloc: Global, histogram: &Histogram<T>) -> Result<String, AllocError>
    ensures { IfOk result (λ field. IsBytesField histogram.now (string_bytes field)) }
{
    let mut serializer = V2Serializer::new(alloc);
    match serializer.to_bytes(histogram) {
        Ok(bytes) => hex::encode(alloc, bytes),
        Err(V2SerializeError::CountNotSerializable) => String::from_str(alloc, "none"),
        Err(_) => Err(AllocError),
    }
}

/// Returns the text of a report.
fn report<T: Counter>(
    alloc: Global,
    histogram: &Histogram<T>,
    quantiles: &[Quantile],
) -> Result<String, AllocError>
    ensures { IfOk result (λ text. IsReport histogram.now quantiles.now (string_bytes text)) }
{
    let mut text = String::new(alloc);
    let len = histogram.len();
    writeln!(text, "len {len}")?;
    push_quantiles(&mut text, histogram, quantiles)?;
    let field = bytes_field(alloc, histogram)?;
    writeln!(text, "v2 {field}")?;
    Ok(text)
}

/// Writes the report of a histogram.
pub(crate) fn write_report<T: Counter, W: Write>(
    alloc: Global,
    histogram: &Histogram<T>,
    quantiles: &[Quantile],
    writer: &mut W,
) -> Result<(), Fault>
    ensures { Writes (at_end (Reported quantiles.now (Ok histogram.now))) (W.contents writer.old)
        (W.contents writer.new) result }
{
    let text = report(alloc, histogram, quantiles)?;
    write_all(writer, text.as_bytes())
}
