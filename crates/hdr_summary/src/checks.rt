//! Levels that were compared with samples, and their lines.

use crate::decimals::{Conversion, in_parts};
use crate::figures::mean_in_parts;
use crate::levels::{Level, Measure};
use crate::means::SampleSum;
use crate::verdicts::{LevelCounts, Verdict};
use hdr_input::{Distribution, push_visible};
use std::alloc::{AllocError, Global};

/// What was counted for a level, and whether the samples keep it.
#[derive(Clone, Copy)]
pub struct Check {
    pub counts: LevelCounts,
    pub verdict: Verdict,
}

/// The samples of checks: their distribution, their sum if a level has a mean, their tag, and how
/// their values are converted to be printed.
#[derive(Clone, Copy)]
pub struct CheckedSamples<'a> {
    pub distribution: &'a Distribution,
    pub sum: SampleSum,
    pub tag: Option<&'a str>,
    pub conversion: Conversion,
}

impl Check {
    /// Returns the value of the level's figure. That of a quantile is the top of its class, or the
    /// greatest sample within the level if that is less and has the rank or a greater one.
    fn value(&self, measure: &Measure, distribution: &Distribution) -> u64 {
        match measure {
            Measure::Min => distribution.min,
            Measure::Max => distribution.max,
            Measure::Quantile(quantile) => {
                let value = distribution.value_at_quantile(*quantile);
                if measure.rank(self.counts.total) <= self.counts.sure {
                    value.min(self.counts.greatest)
                } else {
                    value
                }
            }
            Measure::Count | Measure::Mean => self.counts.total,
        }
    }

    /// Appends a line: the verdict, the level, the value of its figure or its bounds, and the tag.
    pub fn push_line(
        &self,
        alloc: Global,
        text: &mut String,
        level: &Level<'_>,
        samples: CheckedSamples<'_>,
    ) -> Result<(), AllocError> {
        text.push_str(match self.verdict {
            Verdict::Kept => "kept ",
            Verdict::Broken => "broken ",
            Verdict::Undecided => "undecided ",
            Verdict::Few => "few ",
        })?;
        text.push_str(level.text)?;
        text.push(' ')?;
        self.push_value(alloc, text, &level.measure, samples)?;
        if self.verdict == Verdict::Few {
            let needed = level.measure.needed();
            write!(text, " needs {needed}")?;
        }
        if let Some(tag) = samples.tag {
            text.push(' ')?;
            push_visible(text, tag)?;
        }
        text.push('\n')
    }

    /// Appends the value of the level's figure, or `-` if there is none.
    fn push_value(
        &self,
        alloc: Global,
        text: &mut String,
        measure: &Measure,
        samples: CheckedSamples<'_>,
    ) -> Result<(), AllocError> {
        let scale = (samples.conversion, samples.distribution.decimals);
        match measure {
            Measure::Count => {
                let total = self.counts.total;
                write!(text, "{total}")
            }
            _ if self.counts.total == 0 => text.push('-'),
            Measure::Mean => self.push_mean(alloc, text, samples),
            _ if self.verdict == Verdict::Undecided => {
                push_decimal(alloc, text, u128::from(self.counts.low), scale)?;
                text.push_str("..")?;
                push_decimal(alloc, text, u128::from(self.counts.high), scale)
            }
            _ => {
                let value = self.value(measure, samples.distribution);
                push_decimal(alloc, text, u128::from(value), scale)
            }
        }
    }

    /// Appends the mean, with two digits more than the values have, or its bounds if it is undecided.
    fn push_mean(
        &self,
        alloc: Global,
        text: &mut String,
        samples: CheckedSamples<'_>,
    ) -> Result<(), AllocError> {
        let scale = (samples.conversion, samples.distribution.decimals + 2);
        let SampleSum { total, low, high } = samples.sum;
        let low = in_parts(low, u128::from(total), 100).unwrap_or(u128::MAX);
        let high = in_parts(high, u128::from(total), 100).unwrap_or(u128::MAX);
        if self.verdict == Verdict::Undecided {
            push_decimal(alloc, text, low, scale)?;
            text.push_str("..")?;
            return push_decimal(alloc, text, high, scale);
        }
        let mean = if low == high {
            low
        } else {
            mean_in_parts(samples.distribution, 100).unwrap_or(high)
        };
        push_decimal(alloc, text, mean, scale)
    }
}

/// Appends an integer of units, which have these decimals, as a converted decimal.
fn push_decimal(
    alloc: Global,
    text: &mut String,
    units: u128,
    scale: (Conversion, u32),
) -> Result<(), AllocError> {
    let (conversion, decimals) = scale;
    text.push_str(conversion.decimal(alloc, units, decimals)?.as_str())
}
