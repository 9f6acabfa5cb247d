//! Through the V2 bytes.

ghost use Rattle.std.specs.Prelude.{◌≡◌, ◌<◌, ◌^◌, All, IfOk, OnOk, IfErr, is_some};
ghost use Rattle.hdrhistogram.specs.Defects.{defect_of_error};
ghost use Rattle.hdrhistogram.specs.V2Read.{IsReadBack};
ghost use Rattle.hdr_headline.specs.Alike.{StandsAlike};
ghost use Rattle.hdr_headline.specs.Errors.{IsBytesError};

use crate::errors::HeadlineError;
use hdrhistogram::laws::{bytes_read_back, read_back_stands};
use hdrhistogram::serialization::{DeserializeError, Deserializer, V2SerializeError, V2Serializer};
use hdrhistogram::{Counter, Histogram};

/// Encodes a histogram as V2 bytes, and decodes them for the same counter type.
///
/// # Errors
/// Returns `CountNotSerializable` if a count is above `i64::MAX`, or `OutOfMemory`.
pub fn through_bytes<T: Counter>(
    histogram: &Histogram<T>,
    serializer: &mut V2Serializer,
    deserializer: &mut Deserializer,
) -> Result<Histogram<T>, HeadlineError>
    ensures read { IfOk result (IsReadBack histogram.now) }
    ensures alike { IfOk result (StandsAlike histogram.now) }
    ensures small { OnOk result (All (λ n. n < 2 ^ 63) histogram.now.counts) }
    ensures err { IfErr result (IsBytesError histogram.now) }
{
    let _bins = histogram.distinct_values();
    bytes_read_back();
    read_back_stands();
    let bytes = match serializer.to_bytes(histogram) {
        Ok(bytes) => bytes,
        Err(V2SerializeError::CountNotSerializable) => return Err(
            HeadlineError::CountNotSerializable,
        ),
        Err(V2SerializeError::OutOfMemory) => return Err(HeadlineError::OutOfMemory),
        Err(V2SerializeError::UsizeTypeTooSmall) => unreachable!(),
        Err(V2SerializeError::IoError(_)) => unreachable!(),
    };
    match deserializer.decode_slice::<T>(bytes) {
        Ok((copy, _)) => Ok(copy),
        Err(error) => {
            if names_defect(&error) {
                unreachable!()
            }
            Err(HeadlineError::OutOfMemory)
        }
    }
}

/// Whether an error names a defect of the bytes. Any other says that memory ran out.
fn names_defect(error: &DeserializeError) -> bool
    ensures { result ≡ is_some (defect_of_error error.now) }
{
    match error {
        DeserializeError::OutOfMemory => false,
        _ => true,
    }
}
