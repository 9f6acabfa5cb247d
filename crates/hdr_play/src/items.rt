//! Statistics and items of iterators, as text.

use crate::arguments::{NumberCall, ok_or_invalid, parse_u64, to_quantile};
use crate::outcome::{LineError, Outcome, Value, ensure_same};
use hdr_base::{Counter, Fraction, IterationValue, Quantile};
use hdr_core::Histogram;
use std::alloc::{AllocError, Global};

/// The number of items that are printed of a list.
const MAX_ITEMS: usize = 16;

/// Appends the numbers of an item, after a comma if it is not the first: its value, its counter,
/// the samples since the item before, its quantile, and the quantile iterated to.
fn push_item<T: Counter>(output: &mut String, item: &IterationValue<T>) -> Result<(), AllocError> {
    let (value, since) = (item.value_iterated_to(), item.count_since_last_iteration());
    let (quantile, tick) = (item.quantile(), item.quantile_iterated_to());
    let count = item.count_at_value().as_u64();
    let separator = if output.is_empty() { "" } else { ", " };
    write!(
        output,
        "{separator}{value} {count} {since} {quantile} {tick}"
    )
}

/// Whether the percentile of an item is 100 times its quantile, and `new` of its parts returns an equal item.
fn is_consistent<T: Counter>(item: &IterationValue<T>) -> bool {
    let (quantile, percentile) = (item.quantile(), item.percentile());
    let Ok(num) = u64::try_from(quantile.num) else {
        return false;
    };
    let copy = IterationValue::new(
        item.value_iterated_to(),
        Fraction::new(u128::from(num), quantile.den),
        item.quantile_iterated_to(),
        item.count_at_value(),
        item.count_since_last_iteration(),
    );
    copy == *item
        && quantile.num.checked_mul(100) == Some(percentile.num)
        && percentile.den == quantile.den
}

/// Returns the text of a list, or `None` for an empty one.
fn text_or_none(output: String) -> Value {
    if output.is_empty() {
        Value::None
    } else {
        Value::Text(output)
    }
}

/// Returns the digest with one more item: each of its numbers is added to 31 times the digest, in 128 bits.
fn update_digest<T: Counter>(digest: u128, item: &IterationValue<T>) -> u128 {
    let (quantile, tick) = (item.quantile(), item.quantile_iterated_to());
    let numbers = [
        u128::from(item.value_iterated_to()),
        u128::from(item.count_at_value().as_u64()),
        u128::from(item.count_since_last_iteration()),
        quantile.num,
        tick.num,
        tick.den,
    ];
    numbers.iter().fold(
        digest,
        |sum, number| sum.wrapping_mul(31).wrapping_add(*number),
    )
}

/// Returns the items of an iterator, separated by commas; of a long list the first ones, their number, and the digest of all.
fn items<T: Counter>(alloc: Global, list: Vec<IterationValue<T>>) -> Outcome {
    let mut output = String::new(alloc);
    let mut digest: u128 = 0;
    for (index, item) in list.iter().enumerate() {
        ensure_same(is_consistent(item))?;
        digest = update_digest(digest, item);
        if index < MAX_ITEMS {
            push_item(&mut output, item)?;
        }
    }
    if list.len() > MAX_ITEMS {
        write!(output, " .. {} {digest}", list.len())?;
    }
    Ok(text_or_none(output))
}

/// Returns the text of a fraction, if there is one.
fn fraction_text(alloc: Global, fraction: Option<Fraction>) -> Outcome {
    match fraction {
        Some(fraction) => Ok(Value::Text(format!(in alloc; "{fraction}")?)),
        None => Ok(Value::None),
    }
}

/// Makes a call on a histogram whose value is text.
pub fn call<T: Counter>(alloc: Global, h: &Histogram<T>, call: NumberCall<'_>) -> Outcome {
    match call {
        ("iter_all", []) => items(alloc, h.iter_all().collect(alloc)?),
        ("iter_recorded", []) => items(alloc, h.iter_recorded().collect(alloc)?),
        ("iter_linear", &[step]) if step >= 1 => items(alloc, h.iter_linear(step).collect(alloc)?),
        ("iter_log", &[start, base]) if start >= 1 && base >= 2 => {
            items(alloc, h.iter_log(start, base).collect(alloc)?)
        }
        ("iter_quantiles", &[ticks]) => match u32::try_from(ticks) {
            Ok(ticks) if ticks >= 1 => items(alloc, h.iter_quantiles(ticks).collect(alloc)?),
            _ => Err(LineError::InvalidArgument),
        },
        ("quantile_below", &[value]) => fraction_text(alloc, Some(h.quantile_below(value))),
        ("percentile_below", &[value]) => fraction_text(alloc, Some(h.percentile_below(value))),
        ("mean", []) => fraction_text(alloc, h.mean()),
        ("standard_deviation", []) => fraction_text(alloc, h.standard_deviation()),
        _ => Err(LineError::UnknownCall),
    }
}

/// Parses a quantile, `NUM/DEN`.
fn parse_quantile(text: &str) -> Result<Quantile, LineError> {
    let (num, den) = ok_or_invalid(text.split_once('/'))?;
    to_quantile(parse_u64(num)?, parse_u64(den)?)
}

/// Parses quantiles, separated by spaces.
pub fn parse_quantiles(alloc: Global, text: &str) -> Result<Vec<Quantile>, LineError> {
    text.split(' ').map(parse_quantile).try_collect(alloc)
}

/// Returns the text of numbers, separated by spaces.
pub fn numbers_text(alloc: Global, list: Vec<u64>) -> Outcome {
    let mut output = String::new(alloc);
    for value in list.as_slice() {
        let separator = if output.is_empty() { "" } else { " " };
        write!(output, "{separator}{value}")?;
    }
    Ok(text_or_none(output))
}
