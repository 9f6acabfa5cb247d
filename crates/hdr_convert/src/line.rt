//! Lines of interval logs.

ghost use Rattle.std.specs.Prelude.{◌≡◌, ◌++◌, ℕ, List, Some, Contains, IfOk, OnOk, OnErr, IsOkUnless};
ghost use Rattle.std.specs.String.{string_bytes};
ghost use Rattle.hdr_log.specs.Texts.{base64_of, base64_bytes};
ghost use Rattle.hdr_convert.specs.Forms.{HasForm};
ghost use Rattle.hdr_convert.specs.Converted.{IsInForm, IsReadable};
ghost use Rattle.hdr_convert.specs.Lines.{IsFieldIn, IsConverted};

use crate::bytes::{Form, compressed, v2_bytes};
use crate::errors::ConvertError;
use base64::engine::general_purpose::STANDARD;
use hdr_log::field::{FieldError, decoded};
use memchr::memrchr;
use std::alloc::Global;

/// Appends the line of an interval, whose histogram is `field`, with the histogram in `form` and a line feed.
///
/// # Errors
/// Returns an error if the line has no comma, if the histogram is not converted, or if an allocation fails. `output` is then
/// unchanged.
pub fn convert_interval(
    alloc: Global,
    line: &[u8],
    field: &str,
    form: Form,
    output: &mut Vec<u8>,
) -> Result<(), ConvertError>
    ensures converted { OnOk result ((text : List ℕ) × IsConverted form field.now line.now text
        × (output.new.items ≡ output.old.items ++ text)) }
    ensures err { OnErr result (output.new.items ≡ output.old.items) }
    ensures readable { Contains line.now 44 → (bytes : List ℕ) → base64_bytes field.now ≡ Some bytes → IsReadable bytes
        → IsOkUnless result ConvertError.OutOfMemory }
{
    let Some(comma) = memrchr(b',', line) else {
        return Err(ConvertError::NotALine);
    };
    let made = converted_field(alloc, field, form)?;
    output.reserve(comma + made.len() + 2)?;
    output.extend_from_slice(&line[..comma])?;
    output.push(b',')?;
    output.extend_from_slice(made.as_bytes())?;
    Ok(output.push(b'\n')?)
}

/// Appends the Base64 of a histogram in `form`, from that of either form.
///
/// # Errors
/// Returns an error if the histogram is not converted, or if an allocation fails. `output` is then unchanged.
pub fn convert_field(
    alloc: Global,
    field: &str,
    form: Form,
    output: &mut Vec<u8>,
) -> Result<(), ConvertError>
    ensures form { OnOk result ((bytes : List ℕ) × HasForm form bytes
        × (output.new.items ≡ output.old.items ++ base64_of bytes)) }
    ensures field { OnOk result ((text : List ℕ) × IsFieldIn form field.now text
        × (output.new.items ≡ output.old.items ++ text)) }
    ensures err { OnErr result (output.new.items ≡ output.old.items) }
    ensures readable { (bytes : List ℕ) → base64_bytes field.now ≡ Some bytes → IsReadable bytes
        → IsOkUnless result ConvertError.OutOfMemory }
{
    let converted = converted_field(alloc, field, form)?;
    Ok(output.extend_from_slice(converted.as_bytes())?)
}

/// Returns the Base64 of a histogram in `form`, from that of either form.
#[tactic(auto, unfolding(hdr_log::specs::Texts::base64_of))]
fn converted_field(alloc: Global, field: &str, form: Form) -> Result<String, ConvertError>
    ensures form { IfOk result (λ text. (bytes : List ℕ) × HasForm form bytes × (string_bytes text ≡ base64_of bytes)) }
    ensures field { IfOk result (λ text. IsFieldIn form field.now (string_bytes text)) }
    ensures readable { (bytes : List ℕ) → base64_bytes field.now ≡ Some bytes → IsReadable bytes
        → IsOkUnless result ConvertError.OutOfMemory }
{
    let bytes = match decoded(alloc, field) {
        Ok(bytes) => bytes,
        Err(FieldError::NotBase64) => return Err(ConvertError::NotBase64),
        Err(FieldError::OutOfMemory) => return Err(ConvertError::OutOfMemory),
    };
    let bytes = in_form(alloc, bytes, form)?;
    Ok(STANDARD.encode(alloc, &bytes)?)
}

/// Returns a histogram of either form in `form`.
fn in_form(alloc: Global, bytes: Vec<u8>, form: Form) -> Result<Vec<u8>, ConvertError>
    ensures form { IfOk result (λ made. HasForm form made.items) }
    ensures converted { IfOk result (λ made. IsInForm form bytes.items made.items) }
    ensures readable { IsReadable bytes.items → IsOkUnless result ConvertError.OutOfMemory }
{
    match form {
        Form::Plain => v2_bytes(alloc, bytes),
        Form::Compressed => compressed(alloc, bytes),
    }
}
