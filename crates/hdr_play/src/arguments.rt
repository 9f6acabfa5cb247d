//! Parsing the arguments of a line.

use crate::outcome::LineError;
use hdr_base::{Counter, Quantile};

/// The name of a call, and the text of its arguments.
pub type TextCall<'a> = (&'a str, &'a str);

/// The name of a call, and its numbers.
pub type NumberCall<'a> = (&'a str, &'a [u64]);

/// Splits `text` at its first space.
pub fn split_at_space(text: &str) -> (&str, &str) {
    text.split_once(' ').unwrap_or((text, ""))
}

/// Numbers between spaces; no call takes more than three.
#[derive(Clone, Copy)]
pub struct Numbers {
    list: [u64; 3],
    count: usize,
}

impl Numbers {
    pub fn parse(text: &str) -> Result<Numbers, LineError> {
        let mut list = [0; 3];
        let mut count: usize = 0;
        if !text.is_empty() {
            for argument in text.split(' ') {
                *list.get_mut(count).ok_or(LineError::UnknownCall)? = parse_u64(argument)?;
                count = count.saturating_add(1);
            }
        }
        Ok(Numbers { list, count })
    }

    pub fn as_slice(&self) -> &[u64] {
        self.list.get(..self.count).unwrap_or(&[])
    }
}

/// Parses an argument as a number.
pub fn parse_u64(argument: &str) -> Result<u64, LineError> {
    ok_or_invalid(argument.parse::<u64>().ok())
}

/// Returns the value, or an error if the argument has none.
pub fn ok_or_invalid<V: Drop>(value: Option<V>) -> Result<V, LineError> {
    value.ok_or(LineError::InvalidArgument)
}

/// Converts a number to a counter.
pub fn to_counter<T: Counter>(number: u64) -> Result<T, LineError> {
    ok_or_invalid(T::from_u64(number))
}

/// Converts a number to the significant digits that constructors take.
pub fn to_sigfig(number: u64) -> Result<u8, LineError> {
    ok_or_invalid(u8::try_from(number).ok())
}

/// Returns the quantile `num / den`.
pub fn to_quantile(num: u64, den: u64) -> Result<Quantile, LineError> {
    ok_or_invalid(Quantile::new(num, den))
}
