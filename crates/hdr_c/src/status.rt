//! The statuses that calls return. `capi/dkap.h` names them.

ghost use Rattle.std.specs.Prelude.{◌≡◌, ℕ, MatchResult};
ghost use Rattle.hdr_model.specs.Plain.{Plain};
ghost use Rattle.hdrhistogram.specs.LogLeaving.{IsV2LineError};
ghost use Rattle.hdrhistogram.specs.SerializeErrors.{IsToBytesError};
ghost use Rattle.hdr_c.specs.Status.{IsEncodeStatus, IsLineStatus, addition_status, convert_status, creation_status, decode_status, record_status, subtraction_status};

use hdr_convert::ConvertError;
use hdrhistogram::serialization::interval_log::IntervalLogWriterError;
use hdrhistogram::serialization::{CountNotSerializable, DeserializeError, V2SerializeError};
use hdrhistogram::{AdditionError, CreationError, RecordError, SubtractionError};

pub(crate) const OK: u32 = 0;

pub(crate) const CLOSED: u32 = 1;

pub(crate) const OUT_OF_MEMORY: u32 = 2;

pub(crate) const OUT_OF_RANGE: u32 = 3;

pub(crate) const LOW_IS_ZERO: u32 = 4;

pub(crate) const LOW_EXCEEDS_MAX: u32 = 5;

pub(crate) const HIGH_LESS_THAN_TWICE_LOW: u32 = 6;

pub(crate) const SIGFIG_EXCEEDS_MAX: u32 = 7;

pub(crate) const SIGFIG_BEYOND_LOW: u32 = 8;

pub(crate) const COUNT_TOO_GREAT: u32 = 9;

pub(crate) const COUNT_NOT_SERIALIZABLE: u32 = 10;

pub(crate) const BUFFER_TOO_SMALL: u32 = 11;

pub(crate) const ZERO_DENOMINATOR: u32 = 12;

pub(crate) const TOO_MANY_SAMPLES: u32 = 13;

pub(crate) const BYTES_END_EARLY: u32 = 14;

pub(crate) const INVALID_COOKIE: u32 = 15;

pub(crate) const UNSUPPORTED_FEATURE: u32 = 16;

pub(crate) const INVALID_PARAMETERS: u32 = 17;

pub(crate) const ENCODED_ARRAY_TOO_LONG: u32 = 18;

pub(crate) const USIZE_TOO_SMALL: u32 = 19;
// 20 is DKAP_E_SAME_HANDLE, which the calls in C return.
pub(crate) const TIME_OUT_OF_RANGE: u32 = 21;

pub(crate) const INVALID_TAG: u32 = 22;

pub(crate) const LOG_END: u32 = 23;

pub(crate) const INVALID_LINE: u32 = 24;

pub(crate) const NOT_BASE64: u32 = 25;
// 26 is DKAP_E_INVALID_ARGUMENT, which the tests of DKAP_CHECK return.
pub(crate) const TOO_MANY_BINS: u32 = 27;

pub(crate) const INVALID_STREAM: u32 = 28;

pub(crate) const NOT_UTF8: u32 = 29;

pub(crate) const INVALID_STEP: u32 = 30;

pub(crate) fn of_creation_error(error: &CreationError) -> u32
    ensures { result ≡ creation_status error.now }
{
    match error {
        CreationError::LowIsZero => LOW_IS_ZERO,
        CreationError::LowExceedsMax => LOW_EXCEEDS_MAX,
        CreationError::HighLessThanTwiceLow => HIGH_LESS_THAN_TWICE_LOW,
        CreationError::SigFigExceedsMax => SIGFIG_EXCEEDS_MAX,
        CreationError::CannotRepresentSigFigBeyondLow => SIGFIG_BEYOND_LOW,
        CreationError::UsizeTypeTooSmall => USIZE_TOO_SMALL,
        CreationError::OutOfMemory => OUT_OF_MEMORY,
    }
}

pub(crate) fn of_record_error(error: &RecordError) -> u32
    ensures { result ≡ record_status error.now }
{
    match error {
        RecordError::ValueOutOfRangeResizeDisabled => OUT_OF_RANGE,
        RecordError::ResizeFailedUsizeTypeTooSmall => USIZE_TOO_SMALL,
        RecordError::OutOfMemory => OUT_OF_MEMORY,
    }
}

pub(crate) fn of_recording(recorded: Result<(), RecordError>) -> u32
    ensures { MatchResult recorded (λ _. result ≡ 0) (λ e. result ≡ record_status e) }
{
    match recorded {
        Ok(()) => OK,
        Err(error) => of_record_error(&error),
    }
}

pub(crate) fn of_addition(added: Result<(), AdditionError>) -> u32
    ensures { MatchResult added (λ _. result ≡ 0) (λ e. result ≡ addition_status e) }
{
    match added {
        Ok(()) => OK,
        Err(AdditionError::OtherAddendValueExceedsRange) => OUT_OF_RANGE,
        Err(AdditionError::ResizeFailedUsizeTypeTooSmall) => USIZE_TOO_SMALL,
        Err(AdditionError::OutOfMemory) => OUT_OF_MEMORY,
    }
}

pub(crate) fn of_subtraction(subtracted: Result<(), SubtractionError>) -> u32
    ensures { MatchResult subtracted (λ _. result ≡ 0) (λ e. result ≡ subtraction_status e) }
{
    match subtracted {
        Ok(()) => OK,
        Err(SubtractionError::SubtrahendValueExceedsMinuendRange) => OUT_OF_RANGE,
        Err(SubtractionError::SubtrahendCountExceedsMinuendCount) => COUNT_TOO_GREAT,
    }
}

/// The status of an error of `to_bytes`.
pub(crate) fn of_encode_error(error: &V2SerializeError) -> u32
    requires { (h : Plain) × IsToBytesError h error.now }
    ensures { IsEncodeStatus error.now result }
{
    match error {
        V2SerializeError::CountNotSerializable => COUNT_NOT_SERIALIZABLE,
        V2SerializeError::UsizeTypeTooSmall => unreachable!(),
        V2SerializeError::IoError(_) => unreachable!(),
        V2SerializeError::OutOfMemory => OUT_OF_MEMORY,
    }
}

pub(crate) fn of_decode_error(error: &DeserializeError) -> u32
    ensures { result ≡ decode_status error.now }
{
    match error {
        DeserializeError::IoError(_) => BYTES_END_EARLY,
        DeserializeError::InvalidCookie => INVALID_COOKIE,
        DeserializeError::UnsupportedFeature => UNSUPPORTED_FEATURE,
        DeserializeError::UnsuitableCounterType => COUNT_TOO_GREAT,
        DeserializeError::InvalidParameters => INVALID_PARAMETERS,
        DeserializeError::UsizeTypeTooSmall => USIZE_TOO_SMALL,
        DeserializeError::EncodedArrayTooLong => ENCODED_ARRAY_TOO_LONG,
        DeserializeError::OutOfMemory => OUT_OF_MEMORY,
    }
}

pub(crate) fn of_convert_error(error: &ConvertError) -> u32
    ensures { result ≡ convert_status error.now }
{
    match error {
        ConvertError::NotALine | ConvertError::NotAHistogram | ConvertError::NotV2Inside => {
            INVALID_COOKIE
        }
        ConvertError::OldVersion(_) | ConvertError::Unsupported | ConvertError::DoubleHistogram =>
            UNSUPPORTED_FEATURE,
        ConvertError::Bounds => INVALID_PARAMETERS,
        ConvertError::Incomplete => BYTES_END_EARLY,
        ConvertError::NotBase64 => NOT_BASE64,
        ConvertError::Inflate(_) => INVALID_STREAM,
        ConvertError::OutOfMemory => OUT_OF_MEMORY,
    }
}

/// The status of an error of `push_v2`.
pub(crate) fn of_line_error(error: &IntervalLogWriterError<CountNotSerializable>) -> u32
    requires { (h : Plain) × (start : ℕ) × (duration : ℕ)
        × IsV2LineError h start duration error.now }
    ensures { IsLineStatus error.now result }
{
    match error {
        IntervalLogWriterError::SerializeError(_) => COUNT_NOT_SERIALIZABLE,
        IntervalLogWriterError::IoError(_) => unreachable!(),
        IntervalLogWriterError::TimeOutOfRange => TIME_OUT_OF_RANGE,
        IntervalLogWriterError::OutOfMemory => OUT_OF_MEMORY,
    }
}
