//! Numbers and logs of the arguments, compared with levels.

use crate::converted::{count_converted, set_extremes};
use crate::errors::StatError;
use crate::files::{Files, or_standard_input};
use crate::logs::{can_be_converted, parts_of, print_coarser};
use crate::numbers::{Form, read_groups, read_sink, tag_of_group};
use crate::runs::name_of;
use hdr_compare::{Batching, Tier};
use hdr_input::groups::{GroupMaker, GroupParts};
use hdr_input::{Distribution, Recording};
use hdr_logs::LogSums;
use hdr_runs::{
    LevelCheck, LevelIntervals, LevelRecording, LevelTally, LogCounts, LogLevels, Samples, Side,
    checks_of_numbers, sum_of_numbers,
};
use hdr_summary::checks::CheckedSamples;
use hdr_summary::decimals::Conversion;
use hdr_summary::figures::Tagged;
use hdr_summary::levels::Level;
use hdr_summary::means::SampleSum;
use hdr_summary::units::Unit;
use hdr_summary::verdicts::Verdict;
use hdrhistogram::serialization::interval_log::IntervalChoice;
use std::alloc::Global;

/// Samples, and the checks of all levels.
#[derive(Drop)]
struct CheckedPart {
    tag: Option<String>,
    distribution: Distribution,
    sum: SampleSum,
    checks: Vec<LevelCheck>,
}

/// What was read, and the checks of all levels for each tag.
#[derive(Drop)]
pub struct Checked {
    parts: Vec<CheckedPart>,
    /// The unit that logs have of their values.
    unit: Option<Unit>,
    /// Whether more lines were skipped than read.
    pub is_mostly_skipped: bool,
}

impl Checked {
    ghost use Rattle.std.specs.Prelude.{◌↔◌, IsTrue};
    ghost use Rattle.hdr_files.specs.Checks.{IsWithoutSamples};

    /// Whether nothing was recorded.
    pub fn is_empty(&self) -> bool
        ensures { IsTrue result ↔ IsWithoutSamples self.now }
    {
        self.parts
            .iter()
            .all(|part| part.distribution.histogram.is_empty())
    }

    /// Returns a line for each level of each tag. A unit that the arguments ask for is that of the
    /// printed values.
    pub fn text(
        &self,
        alloc: Global,
        levels: &[Level<'_>],
        asked: Option<Unit>,
    ) -> Result<String, StatError> {
        let conversion = match (self.unit, asked) {
            (Some(from), Some(to)) => Conversion::new(from, to),
            _ => Conversion::NONE,
        };
        let has_tags = self.parts.iter().any(|part| part.tag.is_some());
        let mut text = String::new(alloc);
        for part in &self.parts {
            let samples = CheckedSamples {
                distribution: &part.distribution,
                sum: part.sum,
                tag: name_of(&part.tag, has_tags),
                conversion,
            };
            for (check, level) in part.checks.iter().zip(levels) {
                check.push_line(alloc, &mut text, level, samples)?;
            }
        }
        Ok(text)
    }

    /// Returns the verdicts of all levels of all tags.
    pub fn verdicts(&self, alloc: Global) -> Result<Vec<Verdict>, StatError> {
        let mut verdicts = Vec::new(alloc);
        for part in &self.parts {
            for level in &part.checks {
                verdicts.push(level.check.verdict)?;
            }
        }
        Ok(verdicts)
    }
}

/// Compares the numbers of files with levels: all, or those of each group. Percentiles are compared
/// by their intervals if there is a tier. How many lines were skipped and how many numbers were
/// rounded is printed on standard error.
pub fn check_numbers(
    files: Files<'_, '_, '_>,
    recording: Recording,
    form: Form<'_, '_>,
    levels: &[Level<'_>],
    tier: Option<Tier>,
) -> Result<Checked, StatError> {
    let alloc = files.alloc();
    let mut bounds = Vec::new(alloc);
    for level in levels {
        bounds.push(level.bound())?;
    }
    let maker = LevelRecording {
        recording,
        bounds: &bounds,
        has_batches: tier.is_some(),
    };
    let (parts, is_mostly_skipped) = match form.groups() {
        Some(columns) => parts_of_groups(files, maker, form, columns, levels, tier)?,
        None => {
            let tally = read_sink(files, maker, form)?;
            let is_mostly_skipped = tally.counted.numbers() < tally.counted.tally.skipped;
            let mut parts = Vec::new(alloc);
            parts.push(part_of_tally(alloc, None, tally, levels, tier)?)?;
            (parts, is_mostly_skipped)
        }
    };
    if is_mostly_skipped {
        let _ = eprintln!(files.rt; "hdrstat: more lines were skipped than counted");
    }
    Ok(Checked {
        parts,
        unit: None,
        is_mostly_skipped,
    })
}

/// Returns the checks of the numbers of each group, or of no numbers if there is none, and whether
/// more lines were skipped than counted.
fn parts_of_groups(
    files: Files<'_, '_, '_>,
    maker: LevelRecording<'_>,
    form: Form<'_, '_>,
    columns: &[&str],
    levels: &[Level<'_>],
    tier: Option<Tier>,
) -> Result<(Vec<CheckedPart>, bool), StatError> {
    let alloc = files.alloc();
    let groups = read_groups(files, maker, form, columns)?;
    let skipped = groups.skipped;
    let GroupParts { texts, sinks, .. } = groups;
    let mut parts = Vec::new(alloc);
    let mut numbers = 0u64;
    for (text, tally) in texts.as_slice().iter().zip(sinks) {
        numbers = numbers.saturating_add(tally.counted.numbers());
        let tag = tag_of_group(alloc, text)?;
        parts.push(part_of_tally(alloc, tag, tally, levels, tier)?)?;
    }
    if parts.is_empty() {
        let none = maker.make(alloc).map_err(|_| StatError::OutOfMemory)?;
        parts.push(part_of_tally(alloc, None, none, levels, tier)?)?;
    }
    Ok((parts, numbers < skipped))
}

/// Returns the checks of the numbers of a tag.
fn part_of_tally(
    alloc: Global,
    tag: Option<String>,
    tally: LevelTally,
    levels: &[Level<'_>],
    tier: Option<Tier>,
) -> Result<CheckedPart, StatError> {
    let LevelTally { counted, batches } = tally;
    let intervals = match (batches, tier) {
        (Some(batches), Some(tier)) => Some(intervals_of(
            alloc,
            batches.into_samples(alloc)?,
            tier,
        )?),
        _ => None,
    };
    let checks = checks_of_numbers(alloc, levels, &counted, intervals.as_ref())?;
    Ok(CheckedPart {
        tag,
        sum: sum_of_numbers(&counted),
        distribution: counted.tally.into_distribution(),
        checks,
    })
}

/// Returns samples by which percentiles have intervals.
fn intervals_of(alloc: Global, samples: Samples, tier: Tier) -> Result<LevelIntervals, StatError> {
    Ok(LevelIntervals {
        side: Side::new(alloc, None, samples)?,
        tier,
    })
}

/// Reads logs into sums, and counts their samples.
fn read_logs(
    files: Files<'_, '_, '_>,
    sums: &mut LogSums<'_>,
    counts: &mut LogCounts<'_, '_>,
) -> Result<(), StatError> {
    for (index, name) in or_standard_input(files.names).iter().enumerate() {
        let input = files.open(*name)?;
        counts
            .read_log(files.alloc(), sums, index, input)
            .map_err(|cause| files.log_error(cause))?;
    }
    Ok(())
}

/// Compares the samples of the chosen intervals of logs with levels: of all, or of each tag.
/// Percentiles are compared by their intervals if there is a tier.
pub fn check_logs(
    files: Files<'_, '_, '_>,
    sigfig: u8,
    choice: IntervalChoice<'_>,
    is_by_tag: bool,
    written: LogLevels<'_, '_>,
) -> Result<Checked, StatError> {
    let alloc = files.alloc();
    let mut sums = LogSums::new(alloc, choice, sigfig, is_by_tag);
    let mut counts = LogCounts::new(alloc, written, sigfig);
    let read = read_logs(files, &mut sums, &mut counts);
    let mut extremes = Vec::new(alloc);
    if can_be_converted(files, &read) {
        sums = LogSums::new(alloc, choice, sigfig, is_by_tag);
        counts = LogCounts::new(alloc, written, sigfig);
        extremes = count_converted(files, choice, written, &mut sums, &mut counts)?;
    } else {
        files.print_notes(sums.notes());
        read?;
    }
    print_coarser(files.rt, &sums, sigfig);
    let unit = sums.unit();
    let usual = unit.or(written.asked).or(Some(Unit::Seconds));
    counts
        .parse_levels(usual)
        .map_err(|cause| files.log_error(cause))?;
    // Without an interval the levels are compared with no samples.
    let is_by_tag = is_by_tag && !sums.sums.is_empty();
    let mut parts = parts_of(alloc, sums, sigfig, is_by_tag)?;
    set_extremes(&mut parts, &extremes);
    counts.push_tags(parts.len(), 0)?;
    let mut checked = Vec::new(alloc);
    for (index, part) in parts.into_iter().enumerate() {
        if let Some(part) = part_of_tag(alloc, part, &mut counts, index)? {
            checked.push(part)?;
        }
    }
    Ok(Checked {
        parts: checked,
        unit: unit.or(written.asked),
        is_mostly_skipped: false,
    })
}

/// Returns the checks of the tag of an index.
fn part_of_tag(
    alloc: Global,
    part: Tagged,
    counts: &mut LogCounts<'_, '_>,
    index: usize,
) -> Result<Option<CheckedPart>, StatError> {
    let Tagged {
        tag,
        distribution,
        ..
    } = part;
    let intervals = match (counts.take_batching(index), counts.tier()) {
        (Some(batching), Some(tier)) => Some(intervals_of_log(
            alloc,
            &distribution,
            batching,
            tier,
        )?),
        _ => None,
    };
    let Some(tag_counts) = counts.tag(index) else {
        return Ok(None);
    };
    let decimals = distribution.decimals;
    let levels = counts.levels();
    let checks = tag_counts.checks(alloc, levels, decimals, intervals.as_ref())?;
    Ok(Some(CheckedPart {
        tag,
        distribution,
        sum: tag_counts.sum(),
        checks,
    }))
}

/// Returns the samples of the intervals of a tag, by which percentiles have intervals.
fn intervals_of_log(
    alloc: Global,
    distribution: &Distribution,
    batching: Batching,
    tier: Tier,
) -> Result<LevelIntervals, StatError> {
    let samples = Samples::of_intervals(&distribution.histogram, batching, distribution.decimals)?;
    intervals_of(alloc, samples, tier)
}
