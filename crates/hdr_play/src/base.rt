//! Calls on counters, scales and fractions.

use crate::arguments::{NumberCall, to_counter, to_sigfig};
use crate::outcome::Value::{self, Number};
use crate::outcome::{LineError, Outcome, optional_number};
use hdr_base::{Counter, Quantile, Scale, Ticks};

/// Returns the number of a counter.
fn as_number<T: Counter>(counter: Option<T>) -> Option<u64> {
    Some(counter?.as_u64())
}

/// Makes a call on two counters.
fn call_pair<T: Counter>(name: &str, left: T, right: T) -> Outcome {
    Ok(match name {
        "saturating_add" => Number(left.saturating_add(right).as_u64()),
        "checked_add" => optional_number(as_number(left.checked_add(right))),
        "checked_sub" => optional_number(as_number(left.checked_sub(right))),
        "less" => Value::Bool(left < right),
        "equal" => Value::Bool(left == right),
        _ => return Err(LineError::UnknownCall),
    })
}

/// Makes a call on counters.
fn call_counter<T: Counter>(call: NumberCall<'_>) -> Outcome {
    match call {
        ("zero", []) => Ok(Number(T::zero().as_u64())),
        ("one", []) => Ok(Number(T::one().as_u64())),
        ("max_value", []) => Ok(Number(T::max_value().as_u64())),
        ("from_u64", &[value]) => Ok(optional_number(as_number::<T>(T::from_u64(value)))),
        (name, &[left, right]) => call_pair::<T>(name, to_counter(left)?, to_counter(right)?),
        _ => Err(LineError::UnknownCall),
    }
}

/// Makes a call on a scale.
fn call_scale_of(scale: Scale, call: NumberCall<'_>) -> Outcome {
    Ok(Number(match call {
        ("unit", []) => u64::from(scale.unit()),
        ("digits", []) => u64::from(scale.digits()),
        ("block", []) => scale.block() as u64,
        ("bin", &[value]) => scale.bin(value) as u64,
        ("width", &[value]) => scale.width(value),
        ("lowest", &[value]) => scale.lowest(value),
        ("top", &[value]) => scale.top(value),
        ("reach", &[value]) => scale.reach(value),
        ("bucket_start", &[value]) => scale.bucket_start(value),
        ("buckets", &[value]) => scale.buckets(value) as u64,
        ("blocks", &[value]) => scale.blocks(value) as u64,
        ("bin_value", &[bin]) => return Ok(optional_number(scale.bin_value(bin as usize))),
        _ => return Err(LineError::UnknownCall),
    }))
}

/// Makes a call on a scale. Its `low` and digits come before the value.
fn call_scale(call: NumberCall<'_>) -> Outcome {
    let (name, [low, sigfig, value @ ..]) = call else {
        return Err(LineError::UnknownCall);
    };
    match Scale::new(*low, to_sigfig(*sigfig)?) {
        Some(scale) => call_scale_of(scale, (name, value)),
        None if value.is_empty() => Ok(Value::None),
        None => Err(LineError::UnknownCall),
    }
}

/// Returns the number of ticks after one.
fn one_tick() -> u64 {
    let mut ticks = Ticks::new();
    ticks.tick();
    ticks.count()
}

/// Makes a call on fractions or ticks.
fn call_fraction(call: NumberCall<'_>) -> Outcome {
    Ok(optional_number(match call {
        ("num", &[num, den]) => Quantile::new(num, den).map(|quantile| quantile.num()),
        ("den", &[num, den]) => Quantile::new(num, den).map(|quantile| quantile.den()),
        ("ticks", []) => Some(one_tick()),
        _ => return Err(LineError::UnknownCall),
    }))
}

/// Makes a call without a histogram that takes numbers.
pub fn call<T: Counter>(who: &str, call: NumberCall<'_>) -> Outcome {
    match who {
        "counter" => call_counter::<T>(call),
        "scale" => call_scale(call),
        "fraction" => call_fraction(call),
        _ => Err(LineError::UnknownCall),
    }
}
