//! Decodes V2 bytes.

ghost use Rattle.std.specs.Prelude.{◌≡◌, ◌-◌, ◌^◌, ℕ, List, [], length, replicate, true, false, None, IfOk, IfErr, MatchResult};
ghost use Rattle.std.specs.Io.KnownBytes.{Consumes};
ghost use Rattle.hdrhistogram.specs.Defects.{Gives, TakesAs, Checks, FailsBy, TakesDefect, RunsOutOnly, defect_of_error};
ghost use Rattle.hdrhistogram.specs.V2Read.{HasBounds, creation_defect, bounds_defect, bins_for, bytes_at, v2_at, builder_contents, histogram_contents, IsRestated, IsReadAs};
ghost use Rattle.hdrhistogram.specs.HeaderView.{header_of};
ghost use Rattle.hdrhistogram.specs.FieldRead.{IsHeldIn, IsFieldDecodeError};
ghost use Rattle.hdrhistogram.specs.ClassesRead.{AppendsField};

use crate::serialization::class_decoder::{RecordedBounds, RecordedClass, append_classes};
pub use crate::serialization::errors::{DeserializeError, FieldDecodeError};
use crate::serialization::fields::{Header, header_at, read_header, unexpected_eof};
use crate::serialization::header::HEADER_LEN;
use crate::serialization::payload_decoder::decode_payload;
use crate::serialization::streams::read_piece;
pub use crate::serialization::varint::{varint_read, varint_read_slice};
pub use crate::serialization::zig_zag::zig_zag_decode;
use hdr_base::Counter;
use hdr_core::{CreationError, Histogram, HistogramBuilder};
use hdr_log::field::{FieldError, decode_into};
use std::alloc::Global;
use std::io::Read;
use std::marker::Model;

/// Decodes histograms, through a buffer of its own.
///
/// To its callers it is the list of the bytes in that buffer, which is empty between calls.
#[derive(Drop)]
pub struct Deserializer {
    payload: Vec<u8>,
}

impl Model for Deserializer {
    ghost use Rattle.std.specs.Prelude.{ℕ, List};

    ghost Value = { List ℕ };

    ghost view = { λ d. d.payload.items };
}

impl Deserializer {
    /// Creates a deserializer with an empty buffer. It allocates nothing.
    pub fn new(alloc: Global) -> Deserializer
        ensures { result ≡ [] }
    {
        Deserializer {
            payload: Vec::new(alloc),
        }
    }

    /// Decodes the histogram at the start of `text`, and returns it with the number of bytes
    /// consumed. Trailing bytes are ignored.
    ///
    /// The histogram does not grow, its total is the saturating sum of its counters, and its marks
    /// are those of the nonempty ones. The deserializer is unchanged.
    ///
    /// # Errors
    /// Returns the error of the first defect: of the header's fields in order, its bounds, the
    /// payload's length, and the payload's numbers in order. The variants of `DeserializeError` say
    /// which defect each is. Returns `OutOfMemory` if an allocation fails, only after a header
    /// whose bounds a histogram can have.
    pub fn decode_slice<T: Counter>(
        &mut self,
        text: &[u8],
    ) -> Result<(Histogram<T>, usize), DeserializeError>
        ensures read { IfOk result (λ found. IsReadAs T.greatest text.now found.0 found.1) }
        ensures err { IfErr result (λ e. FailsBy (defect_of_error e)
            (v2_at T.greatest text.now)) }
        ensures memory { IfErr result (RunsOutOnly (HasBounds text.now)) }
        ensures unchanged { self.new ≡ self.old }
    {
        decode_front(*self.payload.allocator(), text, None)
    }

    /// Reads a histogram from `reader` by single calls of `read`, and consumes no byte after it.
    /// The histogram is that of `decode_slice`. The deserializer holds no bytes afterwards.
    ///
    /// # Errors
    /// Returns the error of the first defect of the bytes consumed, as `decode_slice` does. They
    /// end with the field that has the defect, with the header if its bounds have it, or with the
    /// payload if one of its numbers has it. Returns `IoError` if the reader fails, is interrupted
    /// or ends. Returns `OutOfMemory` only after a header as for `decode_slice`.
    pub fn deserialize<T: Counter, R: Read>(
        &mut self,
        reader: &mut R,
    ) -> Result<Histogram<T>, DeserializeError>
        ensures read { IfOk result (λ h. (taken : List ℕ)
            × Consumes (R.remaining reader.old) (R.remaining reader.new) taken
            × IsReadAs T.greatest taken h (length taken)) }
        ensures err { IfErr result (TakesDefect (R.remaining reader.old) (R.remaining reader.new)
            (v2_at T.greatest)) }
        ensures memory { IfErr result (λ e. (taken : List ℕ)
            × Consumes (R.remaining reader.old) (R.remaining reader.new) taken
            × RunsOutOnly (HasBounds taken) e) }
        ensures as_new { self.new ≡ [] }
    {
        self.payload.clear();
        let read = read_v2(reader, &mut self.payload);
        self.payload.clear();
        read
    }

    /// Decodes the histogram of an interval's field, which is its bytes in Base64, as
    /// `decode_slice` does. Bytes after it in the field are ignored. One deserializer decodes many
    /// fields, through one buffer, which is empty afterwards.
    ///
    /// # Errors
    /// Returns `NotBase64` if the field is not valid Base64, and `Decode` with the first defect if
    /// its bytes are not a histogram. Returns `OutOfMemory` if an allocation fails.
    pub fn decode_field<T: Counter>(
        &mut self,
        field: &str,
    ) -> Result<Histogram<T>, FieldDecodeError>
        ensures read { MatchResult result (IsHeldIn T.greatest field.now)
            (IsFieldDecodeError T.greatest field.now) }
        ensures as_new { self.new ≡ [] }
    {
        self.decode_field_into(field, None)
    }

    /// `decode_field`, into the memory of `spare` if that has the same bounds and digits: as many
    /// intervals of a log have, one histogram serves all of them. The counts of `spare` are lost.
    ///
    /// # Errors
    /// As `decode_field`.
    pub fn decode_field_into<T: Counter>(
        &mut self,
        field: &str,
        spare: Option<Histogram<T>>,
    ) -> Result<Histogram<T>, FieldDecodeError>
        ensures read { MatchResult result (IsHeldIn T.greatest field.now)
            (IsFieldDecodeError T.greatest field.now) }
        ensures as_new { self.new ≡ [] }
    {
        let read = read_field(field, &mut self.payload, spare);
        self.payload.clear();
        read
    }

    /// Appends the nonempty classes of the histogram of an interval's field, in ascending order,
    /// and returns its bounds. It is `decode_field` for a sum of many intervals, which needs no
    /// counters of its own for each. On error some of the classes may be appended.
    ///
    /// # Errors
    /// As `decode_field`.
    pub fn decode_classes(
        &mut self,
        field: &str,
        classes: &mut Vec<RecordedClass>,
    ) -> Result<RecordedBounds, FieldDecodeError>
        ensures read { MatchResult result (λ bounds. AppendsField (2 ^ 64 - 1) field.now bounds
            classes.old.items classes.new.items) (IsFieldDecodeError (2 ^ 64 - 1) field.now) }
        ensures as_new { self.new ≡ [] }
    {
        let read = read_classes(field, &mut self.payload, classes);
        self.payload.clear();
        read
    }
}

/// Appends the classes of the histogram of a field, which is decoded through `buffer`.
fn read_classes(
    field: &str,
    buffer: &mut Vec<u8>,
    classes: &mut Vec<RecordedClass>,
) -> Result<RecordedBounds, FieldDecodeError>
    ensures { MatchResult result (λ bounds. AppendsField (2 ^ 64 - 1) field.now bounds
        classes.old.items classes.new.items) (IsFieldDecodeError (2 ^ 64 - 1) field.now) }
{
    match decode_into(field, buffer) {
        Ok(()) => {}
        Err(FieldError::NotBase64) => return Err(FieldDecodeError::NotBase64),
        Err(FieldError::OutOfMemory) => return Err(FieldDecodeError::OutOfMemory),
    }
    match append_classes(classes, buffer) {
        Ok(bounds) => Ok(bounds),
        Err(DeserializeError::OutOfMemory) => Err(FieldDecodeError::OutOfMemory),
        Err(cause) => Err(FieldDecodeError::Decode(cause)),
    }
}

/// Decodes the histogram of a field through `buffer`.
fn read_field<T: Counter>(
    field: &str,
    buffer: &mut Vec<u8>,
    spare: Option<Histogram<T>>,
) -> Result<Histogram<T>, FieldDecodeError>
    ensures { MatchResult result (IsHeldIn T.greatest field.now)
        (IsFieldDecodeError T.greatest field.now) }
{
    match decode_into(field, buffer) {
        Ok(()) => {}
        Err(FieldError::NotBase64) => return Err(FieldDecodeError::NotBase64),
        Err(FieldError::OutOfMemory) => return Err(FieldDecodeError::OutOfMemory),
    }
    match decode_front(*buffer.allocator(), buffer, spare) {
        Ok((h, _)) => Ok(h),
        Err(DeserializeError::OutOfMemory) => Err(FieldDecodeError::OutOfMemory),
        Err(cause) => Err(FieldDecodeError::Decode(cause)),
    }
}

/// Returns empty bins for a header's bounds: those of `spare` if it has these bounds, and otherwise
/// new ones.
fn empty_for<T: Counter>(
    alloc: Global,
    header: Header,
    spare: Option<Histogram<T>>,
) -> Result<HistogramBuilder<T>, DeserializeError>
    // The error.
    ensures bounds { Checks result (bounds_defect (header_of header)) }
    ensures memory { IfErr result (RunsOutOnly (bounds_defect (header_of header) ≡ None)) }
    // The bins: all empty, with the bounds of the header.
    ensures empty { IfOk result (λ f. f.counts ≡ replicate (length f.counts) 0) }
    ensures fixed { IfOk result (λ f. f.auto_resize ≡ false) }
    ensures contents { IfOk result (λ f. builder_contents f
        ≡ record {
          low = header.low;
          high = header.high;
          sigfig = header.sigfig;
          counts = f.counts;
        }) }
    ensures bins { IfOk result (λ f. length f.counts ≡ bins_for (header_of header)) }
{
    if let Some(histogram) = spare {
        if has_bounds(&histogram, header) {
            return Ok(HistogramBuilder::emptied(histogram));
        }
    }
    match HistogramBuilder::new_with_bounds(alloc, header.low, header.high, header.sigfig) {
        Ok(builder) => Ok(builder),
        Err(error) => Err(creation_error(error)),
    }
}

/// Whether a histogram has the bounds and digits of a header.
fn has_bounds<T: Counter>(histogram: &Histogram<T>, header: Header) -> bool
    ensures low { result ≡ true → histogram.now.low ≡ header.low }
    ensures high { result ≡ true → histogram.now.high ≡ header.high }
    ensures sigfig { result ≡ true → histogram.now.sigfig ≡ header.sigfig }
{
    histogram.low() == header.low
        && histogram.high() == header.high
        && histogram.sigfig() == header.sigfig
}

/// Converts the error of creating the bins.
fn creation_error(error: CreationError) -> DeserializeError
    ensures { defect_of_error result ≡ creation_defect error }
{
    match error {
        CreationError::OutOfMemory => DeserializeError::OutOfMemory,
        _ => DeserializeError::InvalidParameters,
    }
}

/// Returns the first `len` bytes of `text`, and the rest.
#[tactic(auto, unfolding(crate::specs::V2Read::bytes_at))]
pub(crate) fn bytes_at(text: &[u8], len: usize) -> Result<(&[u8], &[u8]), DeserializeError>
    ensures { Gives (λ x. (x.0.now, x.1.now)) result (bytes_at len text.now) }
{
    if text.len() < len {
        return Err(unexpected_eof());
    }
    Ok((&text[..len], &text[len..]))
}

/// Decodes the histogram at the start of `text`, and returns it with the number of bytes consumed.
fn decode_front<T: Counter>(
    alloc: Global,
    text: &[u8],
    spare: Option<Histogram<T>>,
) -> Result<(Histogram<T>, usize), DeserializeError>
    ensures read { IfOk result (λ found. IsReadAs T.greatest text.now found.0 found.1) }
    ensures err { IfErr result (λ e. FailsBy (defect_of_error e) (v2_at T.greatest text.now)) }
    ensures memory { IfErr result (RunsOutOnly (HasBounds text.now)) }
{
    let (h, rest) = decode(alloc, text, spare)?;
    Ok((h, text.len() - rest.len()))
}

/// Decodes the histogram at the start of `text`, and returns it with the rest.
#[tactic(auto, unfolding(crate::specs::V2Read::v2_at))]
fn decode<T: Counter>(
    alloc: Global,
    text: &[u8],
    spare: Option<Histogram<T>>,
) -> Result<(Histogram<T>, &[u8]), DeserializeError>
    ensures read { Gives (λ x. (histogram_contents x.0, x.1.now)) result (v2_at T.greatest text.now) }
    ensures memory { IfErr result (RunsOutOnly (HasBounds text.now)) }
    ensures fixed { IfOk result (λ x. x.0.auto_resize ≡ false) }
    ensures restated { IfOk result (λ x. IsRestated x.0) }
{
    let (header, rest) = header_at(text)?;
    let empty = empty_for(alloc, header, spare)?;
    let (payload, rest) = bytes_at(rest, header.payload_len as usize)?;
    let h = decode_payload(empty, payload)?;
    Ok((h, rest))
}

/// Reads a histogram from `reader` through an empty buffer.
fn read_v2<T: Counter, R: Read>(
    reader: &mut R,
    buffer: &mut Vec<u8>,
) -> Result<Histogram<T>, DeserializeError>
    requires { buffer.old.items ≡ [] }
    ensures read { TakesAs (R.remaining reader.old) (R.remaining reader.new)
        histogram_contents (v2_at T.greatest) result }
    ensures memory { IfErr result (λ e. (taken : List ℕ)
        × Consumes (R.remaining reader.old) (R.remaining reader.new) taken
        × RunsOutOnly (HasBounds taken) e) }
    ensures fixed { IfOk result (λ h. h.auto_resize ≡ false) }
    ensures restated { IfOk result (λ h. IsRestated h) }
{
    let header = read_header(reader)?;
    let empty = empty_for(*buffer.allocator(), header, None)?;
    read_payload(reader, buffer, header.payload_len as usize)?;
    let h = decode_payload(empty, buffer)?;
    Ok(h)
}

/// Reads `len` bytes from `reader` into an empty buffer.
fn read_payload<R: Read>(
    reader: &mut R,
    buffer: &mut Vec<u8>,
    len: usize,
) -> Result<(), DeserializeError>
    requires { buffer.old.items ≡ [] }
    ensures { TakesAs (R.remaining reader.old) (R.remaining reader.new)
        (λ _. buffer.new.items) (bytes_at len) result }
{
    while buffer.len() < len {
        let left = len - buffer.len();
        read_piece(reader, buffer, left)?;
    }
    Ok(())
}
