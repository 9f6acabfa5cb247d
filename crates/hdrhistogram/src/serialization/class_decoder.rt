//! Decodes V2 bytes to the nonempty classes of their histogram, without its bins.

ghost use Rattle.std.specs.Prelude.{◌≡◌, ℕ, List, [], ◌∷◌, ◌+◌, ◌-◌, ◌^◌, ◌<◌, ◌≤◌, ◌++◌, map, Ok, IfOk, IfErr, OnOk, MatchResult};
ghost use Rattle.hdr_base.specs.Classes.{bin_of, resolution_of};
ghost use Rattle.hdr_model.specs.Merging.{classes_from};
ghost use Rattle.hdrhistogram.specs.ClassesRead.{AppendsHistogram, times_of};
ghost use Rattle.hdrhistogram.specs.Defects.{Checks, FailsBy, defect_of_error};
ghost use Rattle.hdrhistogram.specs.HeaderView.{header_of};
ghost use Rattle.hdrhistogram.specs.PayloadRead.{bins_of_number, counts_in, defect_at, move};
ghost use Rattle.hdrhistogram.specs.V2Read.{bins_for, bounds_defect, v2_at};

use crate::serialization::deserializer::bytes_at;
use crate::serialization::errors::DeserializeError;
use crate::serialization::fields::{Header, header_at, unexpected_eof};
use crate::serialization::varint::varint_at;
use crate::serialization::zig_zag::zig_zag_decode;
use hdr_base::Scale;

/// A nonempty class of a histogram: its lowest value, and its count.
#[derive(Clone, Copy)]
pub struct RecordedClass {
    pub value: u64,
    pub count: u64,
}

/// What determines the classes of a histogram: its lowest value, and the significant digits that it
/// keeps.
#[derive(Clone, Copy)]
pub struct RecordedBounds {
    pub low: u64,
    pub sigfig: u8,
}

/// Decodes the histogram at the start of `text`, and appends its nonempty classes in ascending
/// order. On error some of them may be appended.
pub(crate) fn append_classes(
    classes: &mut Vec<RecordedClass>,
    text: &[u8],
) -> Result<RecordedBounds, DeserializeError>
    ensures read { IfOk result (λ bounds. AppendsHistogram (2 ^ 64 - 1) text.now bounds
        classes.old.items classes.new.items) }
    ensures err { IfErr result (λ e. FailsBy (defect_of_error e) (v2_at (2 ^ 64 - 1) text.now)) }
{
    let (header, rest) = header_at(text)?;
    let (scale, bins) = scale_and_bins(header)?;
    let (payload, _) = bytes_at(rest, header.payload_len as usize)?;
    append_payload(classes, scale, bins, payload)?;
    Ok(RecordedBounds {
        low: header.low,
        sigfig: header.sigfig,
    })
}

/// Returns the scale of a header's bounds, and the number of their bins.
fn scale_and_bins(header: Header) -> Result<(Scale, u64), DeserializeError>
    ensures bounds { Checks result (bounds_defect (header_of header)) }
    ensures scale { IfOk result (λ found. found.0 ≡ resolution_of header.low header.sigfig) }
    ensures bins { IfOk result (λ found. found.1 ≡ bins_for (header_of header)) }
    ensures few { IfOk result (λ found. found.1 ≤ bin_of found.0 (2 ^ 64 - 1) + 1) }
{
    if header.low > u64::MAX / 2 {
        return Err(DeserializeError::InvalidParameters);
    }
    if header.high < 2 * header.low {
        return Err(DeserializeError::InvalidParameters);
    }
    let Some(scale) = Scale::new(header.low, header.sigfig) else {
        return Err(DeserializeError::InvalidParameters);
    };
    let bins = scale.bin(scale.reach(header.high)) + 1;
    Ok((scale, bins as u64))
}

/// Decodes a payload, and appends the nonempty classes of its counts.
fn append_payload(
    classes: &mut Vec<RecordedClass>,
    scale: Scale,
    bins: u64,
    payload: &[u8],
) -> Result<(), DeserializeError>
    requires { bins ≤ bin_of scale (2 ^ 64 - 1) + 1 }
    ensures read { OnOk result ((counts : List ℕ)
        × (counts_in bins (2 ^ 64 - 1) payload.now ≡ Ok counts)
        × (map times_of classes.new.items
        ≡ map times_of classes.old.items ++ classes_from scale 0 counts)) }
    ensures err { IfErr result (λ e. FailsBy (defect_of_error e)
        (counts_in bins (2 ^ 64 - 1) payload.now)) }
{
    let mut at = 0;
    let mut place = 0;
    while at < payload.len() {
        let Some((encoded, len)) = varint_at(&payload[at..]) else {
            return Err(unexpected_eof());
        };
        at += len;
        place = append_number(classes, scale, bins, place, zig_zag_decode(encoded))?;
    }
    Ok(())
}

/// Appends the class of the bin `place`, if a number of the payload is a nonzero count. Returns the
/// index after the bins of the number.
fn append_number(
    classes: &mut Vec<RecordedClass>,
    scale: Scale,
    bins: u64,
    place: u64,
    number: i64,
) -> Result<u64, DeserializeError>
    requires { bins ≤ bin_of scale (2 ^ 64 - 1) + 1 }
    ensures defect { Checks result (defect_at bins (2 ^ 64 - 1) place number) }
    ensures next { IfOk result (λ next. next ≡ place + move number) }
    ensures appended { OnOk result (map times_of classes.new.items
        ≡ map times_of classes.old.items ++ classes_from scale place (bins_of_number number)) }
{
    if number < 0 {
        return place
            .checked_add(number.unsigned_abs())
            .ok_or(DeserializeError::UsizeTypeTooSmall);
    }
    if number > 0 {
        if place >= bins {
            return Err(DeserializeError::EncodedArrayTooLong);
        }
        append_class(classes, scale, place, number as u64)?;
    }
    place
        .checked_add(1)
        .ok_or(DeserializeError::UsizeTypeTooSmall)
}

/// Appends the class of the bin `place`.
fn append_class(
    classes: &mut Vec<RecordedClass>,
    scale: Scale,
    place: u64,
    count: u64,
) -> Result<(), DeserializeError>
    requires inside { place ≤ bin_of scale (2 ^ 64 - 1) }
    requires some { 0 < count }
    ensures { MatchResult result (λ _. map times_of classes.new.items
        ≡ map times_of classes.old.items ++ classes_from scale place (count ∷ []))
        (λ e. e ≡ DeserializeError.OutOfMemory) }
{
    let Some(value) = scale.bin_value(place as usize) else {
        unreachable!()
    };
    match classes.push(RecordedClass { value, count }) {
        Ok(()) => Ok(()),
        Err(_) => Err(DeserializeError::OutOfMemory),
    }
}
