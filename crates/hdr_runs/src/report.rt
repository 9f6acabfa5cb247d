//! Percentiles of a run beside those of others.

ghost use Rattle.std.specs.Prelude.{◌≡◌, ◌⊎◌, ◌*◌, ◌<◌, List, ℕ, map, length, IfErr, IfNone, IfOk, OnOk};
ghost use Rattle.std.specs.List.{AllZip, flat_map, list_any};
ghost use Rattle.std.specs.Option.{option_copied};
ghost use Rattle.hdr_compare.specs.Tiers.{tier_of};
ghost use Rattle.hdr_logs.specs.Sums.{is_same_tag};
ghost use Rattle.hdr_runs.specs.Reports.{IsCompared, IsErrorAt, IsErrorOf, IsPairError, IsPairOf, IsPointAt, IsPointError};
ghost use Rattle.hdr_runs.specs.Reports.{IsReport, IsReportError, decimals_or_none, side_of, subject, subjects_at, tag_of, tags_of, with_tag};

use crate::change::{Change, change_of};
use crate::point::Point;
use crate::side::Side;
use hdr_compare::Tier;
use hdr_summary::percentile::Percentile;
use std::alloc::{AllocError, AllocFailed, Global};

/// Why runs are not compared.
#[derive(Debug, Clone, Copy, PartialEq, Eq)]
pub enum ReportError {
    /// There are more than 5,000 comparisons.
    TooManyComparisons,
    /// A value overflows 64 bits in units of the finer run.
    TooLarge,
    OutOfMemory,
}

impl From<AllocError> for ReportError {
    ghost use Rattle.std.specs.Prelude.{◌≡◌};
    ghost use Rattle.hdr_runs.specs.declared.report.ReportError.TheVariants.{OutOfMemory};

    ghost from_gives = { λ _ error. error ≡ OutOfMemory };

    fn from(_error: AllocError) -> ReportError {
        ReportError::OutOfMemory
    }
}

impl<T: Drop> From<AllocFailed<T>> for ReportError {
    ghost use Rattle.std.specs.Prelude.{◌≡◌};
    ghost use Rattle.hdr_runs.specs.declared.report.ReportError.TheVariants.{OutOfMemory};

    ghost from_gives = { λ _ error. error ≡ OutOfMemory };

    fn from(_error: AllocFailed<T>) -> ReportError {
        ReportError::OutOfMemory
    }
}

/// A run, by its tags.
#[derive(Drop)]
pub struct NamedRun<'a> {
    pub name: &'a str,
    pub sides: Vec<Side>,
}

/// A percentile of two runs. A run that has no samples of the tag has none.
#[derive(Clone, Copy)]
pub struct Compared {
    pub before: Option<Point>,
    pub after: Option<Point>,
    pub change: Option<Change>,
}

/// The percentiles of two runs, or of a tag of both.
#[derive(Drop)]
pub struct Pair<'a> {
    pub tag: Option<&'a str>,
    /// The name of the later run.
    pub run: &'a str,
    pub before: Option<&'a Side>,
    pub after: Option<&'a Side>,
    /// The decimals of the values: those of the finer run.
    pub decimals: u32,
    /// The percentiles in the order in which they were asked for.
    pub percentiles: Vec<Compared>,
}

/// Runs compared with one before them.
#[derive(Drop)]
pub struct Report<'a> {
    pub pairs: Vec<Pair<'a>>,
    pub tier: Tier,
}

impl<'a> Report<'a> {
    /// Compares runs with the one before them: each tag of one of them, and each percentile.
    ///
    /// # Errors
    /// Returns `TooManyComparisons` for more than 5,000, and `TooLarge` if a value overflows in
    /// units of the finer run.
    pub fn new(
        alloc: Global,
        before: &'a [Side],
        runs: &'a [NamedRun<'a>],
        percentiles: &[Percentile<'_>],
    ) -> Result<Report<'a>, ReportError>
        ensures report { IfOk result (IsReport before.now runs.now percentiles.now) }
        ensures errors { IfErr result (IsReportError before.now runs.now percentiles.now) }
    {
        let tags = tags_of(alloc, before, runs)?;
        let Some(tier) = tier_of(tags.len(), runs.len(), percentiles.len()) else {
            return Err(ReportError::TooManyComparisons);
        };
        Ok(Report {
            pairs: pairs_of(alloc, &tags, before, runs, percentiles, tier)?,
            tier,
        })
    }
}

/// Returns the tier of a report of some tags, later runs and percentiles, or `None` for more than 5,000
/// comparisons.
fn tier_of(tags: usize, runs: usize, percentiles: usize) -> Option<Tier>
    ensures tier { result ≡ tier_of (tags * runs * percentiles) }
    ensures many { IfNone result (5000 < tags * runs * percentiles) }
{
    let comparisons = tags.saturating_mul(runs).saturating_mul(percentiles);
    Tier::of(comparisons as u64)
}

/// Compares percentiles of each of the tags, of each of the runs.
fn pairs_of<'a>(
    alloc: Global,
    tags: &[Option<&'a str>],
    before: &'a [Side],
    runs: &'a [NamedRun<'a>],
    percentiles: &[Percentile<'_>],
    tier: Tier,
) -> Result<Vec<Pair<'a>>, ReportError>
    ensures pairs { IfOk result (λ pairs. AllZip (IsPairOf tier before.now percentiles.now)
        (flat_map (subjects_at runs.now) (map option_copied tags.now)) pairs.items) }
    ensures errors { IfErr result (IsErrorAt tier before.now (map option_copied tags.now) runs.now percentiles.now) }
{
    let mut pairs = Vec::new(alloc);
    for tag in tags {
        for run in runs {
            pairs.push(pair_of(alloc, *tag, before, run, percentiles, tier)?)?;
        }
    }
    Ok(pairs)
}

/// Returns the tag of samples.
fn tag_of(side: &Side) -> Option<&str>
    ensures { option_copied result ≡ tag_of side.now }
{
    match &side.tag {
        Some(tag) => Some(tag.as_str()),
        None => None,
    }
}

/// Whether two tags are the same, or both are none.
fn is_same_tag(tag: Option<&str>, other: Option<&str>) -> bool
    ensures { result ≡ is_same_tag (option_copied tag.entry) (option_copied other.entry) }
{
    match (tag, other) {
        (None, None) => true,
        (Some(tag), Some(other)) => tag == other,
        _ => false,
    }
}

/// Returns the samples of a tag, if a run has them.
fn side_of<'a>(sides: &'a [Side], tag: Option<&str>) -> Option<&'a Side>
    ensures { option_copied result ≡ side_of sides.now (option_copied tag.entry) }
{
    sides.iter().find(|side| is_same_tag(tag_of(*side), tag))
}

/// Returns the tags of the first run, and then those of others, each once, in the order in which they
/// first occur.
fn tags_of<'a>(
    alloc: Global,
    before: &'a [Side],
    runs: &'a [NamedRun<'a>],
) -> Result<Vec<Option<&'a str>>, ReportError>
    ensures tags { IfOk result (λ tags. map option_copied tags.items ≡ tags_of before.now runs.now) }
    ensures memory { IfErr result (λ e. e ≡ ReportError.OutOfMemory) }
{
    let mut tags = Vec::new(alloc);
    for side in before {
        tags.push(tag_of(side))?;
    }
    for run in runs {
        for side in &run.sides {
            push_tag(&mut tags, tag_of(side))?;
        }
    }
    Ok(tags)
}

/// Adds a tag, if it is a new one.
fn push_tag<'a>(tags: &mut Vec<Option<&'a str>>, tag: Option<&'a str>) -> Result<(), ReportError>
    ensures tags { OnOk result (map option_copied tags.new.items
        ≡ with_tag (map option_copied tags.old.items) (option_copied tag.entry)) }
    ensures memory { IfErr result (λ e. e ≡ ReportError.OutOfMemory) }
{
    if !has_tag(tags, tag) {
        tags.push(tag)?;
    }
    Ok(())
}

/// Whether a tag is one of some.
fn has_tag(tags: &[Option<&str>], tag: Option<&str>) -> bool
    ensures { result ≡ list_any (λ other. is_same_tag (option_copied other) (option_copied tag.entry)) tags.now }
{
    tags.iter().any(|other| is_same_tag(*other, tag))
}

/// Returns the percentiles of a tag of two runs.
fn pair_of<'a>(
    alloc: Global,
    tag: Option<&'a str>,
    before: &'a [Side],
    run: &'a NamedRun<'a>,
    percentiles: &[Percentile<'_>],
    tier: Tier,
) -> Result<Pair<'a>, ReportError>
    ensures pair { IfOk result (IsPairOf tier before.now percentiles.now (subject (option_copied tag.entry) run.now)) }
    ensures errors { IfErr result (IsPairError tier before.now percentiles.now (subject (option_copied tag.entry) run.now)) }
{
    let before = side_of(before, tag);
    let after = side_of(&run.sides, tag);
    let decimals = decimals_of(before).max(decimals_of(after));
    Ok(Pair {
        tag,
        run: run.name,
        before,
        after,
        decimals,
        percentiles: compared_of(alloc, before, after, percentiles, tier, decimals)?,
    })
}

/// Compares percentiles of samples, in units of these decimals.
fn compared_of(
    alloc: Global,
    before: Option<&Side>,
    after: Option<&Side>,
    percentiles: &[Percentile<'_>],
    tier: Tier,
    decimals: u32,
) -> Result<Vec<Compared>, ReportError>
    ensures all { IfOk result (λ all. AllZip (IsCompared tier decimals (option_copied before.entry) (option_copied after.entry))
        percentiles.now all.items) }
    ensures errors { IfErr result (IsErrorOf tier decimals (option_copied before.entry) (option_copied after.entry) percentiles.now) }
{
    let mut all = Vec::new(alloc);
    for percentile in percentiles {
        all.push(compared_at(alloc, before, after, percentile, tier, decimals)?)?;
    }
    Ok(all)
}

/// Compares a percentile of samples, in units of these decimals.
fn compared_at(
    alloc: Global,
    before: Option<&Side>,
    after: Option<&Side>,
    percentile: &Percentile<'_>,
    tier: Tier,
    decimals: u32,
) -> Result<Compared, ReportError>
    ensures compared { IfOk result (IsCompared tier decimals (option_copied before.entry) (option_copied after.entry) percentile.now) }
    ensures errors { IfErr result (λ e. IsPointError tier decimals percentile.now.quantile (option_copied before.entry) e
        ⊎ IsPointError tier decimals percentile.now.quantile (option_copied after.entry) e) }
{
    let before = point_of(alloc, before, percentile, tier, decimals)?;
    let after = point_of(alloc, after, percentile, tier, decimals)?;
    let change = match (&before, &after) {
        (Some(before), Some(after)) => Some(change_of(&before.measured, &after.measured)),
        _ => None,
    };
    Ok(Compared {
        before,
        after,
        change,
    })
}

/// Returns the decimals of samples, 0 if there are none.
fn decimals_of(side: Option<&Side>) -> u32
    ensures { result ≡ decimals_or_none (option_copied side.entry) }
{
    match side {
        Some(side) => side.decimals(),
        None => 0,
    }
}

/// The greatest denominator of a quantile that has an interval: its percentile has 4 decimals.
pub(crate) const MOST_DENOMINATOR: u64 = 1_000_000;

/// Returns a percentile of samples in units of these decimals, if there are samples.
fn point_of(
    alloc: Global,
    side: Option<&Side>,
    percentile: &Percentile<'_>,
    tier: Tier,
    decimals: u32,
) -> Result<Option<Point>, ReportError>
    ensures point { IfOk result (IsPointAt tier decimals percentile.now.quantile (option_copied side.entry)) }
    ensures errors { IfErr result (IsPointError tier decimals percentile.now.quantile (option_copied side.entry)) }
{
    let Some(side) = side else {
        return Ok(None);
    };
    let quantile = percentile.quantile;
    if quantile.den() > MOST_DENOMINATOR || quantile.num() > quantile.den() {
        return Err(ReportError::TooLarge);
    }
    let Some(point) = side.point(alloc, quantile, tier)? else {
        return Ok(None);
    };
    let more = decimals.saturating_sub(side.decimals());
    let Some(factor) = 10u64.checked_pow(more) else {
        return Err(ReportError::TooLarge);
    };
    match point.times(factor) {
        Some(point) => Ok(Some(point)),
        None => Err(ReportError::TooLarge),
    }
}
