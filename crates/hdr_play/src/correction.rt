//! Compares correction class by class with a plain implementation, which records each missing value by itself.

use crate::arguments::{NumberCall, to_counter};
use crate::outcome::{LineError, Outcome, Value};
use crate::single::is_same;
use crate::table::Table;
use hdr_base::Counter;
use hdr_core::RecordError;

impl<T: Counter> Table<T> {
    /// Records a value in `other`, and then each missing value, one after the other.
    fn record_each(&mut self, value: u64, count: T, interval: u64) -> Result<(), RecordError> {
        self.other.record_n(value, count)?;
        if interval > 0 {
            for j in 1..=u64::MAX {
                let missing = value.saturating_sub(interval.saturating_mul(j));
                if missing < interval {
                    break;
                }
                self.other.record_n(missing, count)?;
            }
        }
        Ok(())
    }

    /// Corrects `one` and `other`, which are equal. Returns whether results and histograms are the
    /// same.
    fn corrections_agree(&mut self, value: u64, count: T, interval: u64) -> bool {
        let result = self.one.record_n_correct(value, count, interval);
        result == self.record_each(value, count, interval) && is_same(&self.one, &self.other)
    }

    /// Corrects each value below `values` by each interval up to the next value. `one` and `other`
    /// are reset before each unless `keeps`. Returns the first value at which the implementations
    /// differ.
    fn first_difference(&mut self, values: u64, count: T, keeps: bool) -> Value {
        for value in 0..values {
            for interval in 0..=value.saturating_add(1) {
                if !keeps {
                    self.one.reset();
                    self.other.reset();
                }
                if !self.corrections_agree(value, count, interval) {
                    return Value::Number(value);
                }
            }
        }
        Value::Unit
    }

    /// Compares correction with its plain implementation.
    pub(crate) fn compare_corrections(&mut self, call: NumberCall<'_>) -> Outcome {
        let (name, &[value, count, third]) = call else {
            return Err(LineError::UnknownCall);
        };
        let count = to_counter(count)?;
        match name {
            "agree" => Ok(Value::Bool(self.corrections_agree(value, count, third))),
            "agree_below" => Ok(self.first_difference(value, count, third == 1)),
            _ => Err(LineError::UnknownCall),
        }
    }
}
