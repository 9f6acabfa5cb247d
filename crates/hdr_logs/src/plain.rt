//! Histograms of logs as plain V2 bytes.

ghost use Rattle.std.specs.Prelude.{◌≡◌, true, IfOk, IfErr};
ghost use Rattle.hdr_logs.specs.Fields.{IsPlainField, is_other_form};

use hdr_convert::{ConvertError, Form, convert_field};
use std::alloc::Global;

/// The least length of a field whose form is known: the Base64 of the four bytes of a cookie.
const FORM_LEN: usize = 8;

/// Whether a field is a histogram of another form than plain V2: compressed, of an older version, or
/// of floating-point values. A plain one has fewer than 2^28 bytes, so its Base64 begins with HISTEw.
#[tactic(auto, unfolding(crate::specs::Fields::is_other_form))]
fn is_other_form(field: &[u8]) -> bool
    ensures { result ≡ is_other_form field.now }
{
    let is_other = field.starts_with(b"HIST") && !field.starts_with(b"HISTEw");
    field.len() >= FORM_LEN && (is_other || field.starts_with(b"DHIST"))
}

/// Returns the field of a plain histogram: `field`, or what it is converted to, in `buffer`.
///
/// # Errors
/// Returns an error if a field of another form is not converted, or if an allocation fails.
pub(crate) fn plain_field<'a>(
    alloc: Global,
    field: &'a str,
    buffer: &'a mut Vec<u8>,
) -> Result<&'a str, ConvertError>
    ensures plain { IfOk result (λ plain. IsPlainField field.now plain.now) }
    ensures errors { IfErr result (λ _. is_other_form field.now ≡ true) }
{
    if !is_other_form(field.as_bytes()) {
        return Ok(field);
    }
    buffer.clear();
    convert_field(alloc, field, Form::Plain, buffer)?;
    str::from_utf8(buffer).map_err(|_| ConvertError::NotBase64)
}
