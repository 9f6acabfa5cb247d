//! Cells: the time of a tag, in order.

ghost use Rattle.std.specs.Prelude.{◌≡◌, ◌<◌, ◌+◌, ◌-◌, ◌^◌, ◌++◌, ◌∷◌, List, Some, None, IfOk, OnOk, length, map, min, sum};
ghost use Rattle.std.specs.List.{slice_get};
ghost use Rattle.hdr_logs.specs.declared.stored.StoredInterval.{StoredInterval};
ghost use Rattle.hdr_verdict.specs.Cells.{cell_of, cells_of_group, cells_of_groups, cells_of_intervals, cells_up_to, has_hole, length_of, span_before_hole, span_of};
ghost use Rattle.hdr_verdict.specs.Cells.{span_up_to, AreCounted, AreWithin};
ghost use Rattle.hdr_verdict.specs.Groups.{group_of, groups_from, is_empty_at, is_long_for, ninth_decile, stride_of, strides_from, with_empty, with_interval, AreGroupsOf, IsGroupOf};

use hdr_logs::StoredInterval;
use std::alloc::{AllocError, Global};

/// A cell of a tag's time: some of its intervals, which overlap, or a time without any. An interval
/// without samples is as if it were not there.
#[derive(Clone, Copy)]
pub struct Cell {
    /// When it begins and when it ends, in milliseconds as `StoredInterval::start`.
    pub start: u64,
    pub end: u64,
    /// When its intervals end, if that is before its end, and otherwise its end.
    pub last: u64,
    pub samples: u64,
    /// Its intervals, from the index `first` to before the index `next` of those of the tag in
    /// order.
    pub first: usize,
    pub next: usize,
}

/// Intervals that overlap the first of them, or one that is much longer.
#[derive(Clone, Copy)]
struct Group {
    start: u64,
    /// When the first interval or a long one ends, and when the last one does.
    end: u64,
    last: u64,
    first: usize,
    next: usize,
}

impl Group {
    /// Returns the group of the interval of an index.
    fn of(interval: &StoredInterval, index: usize) -> Group
        requires { index + 1 < 2 ^ 64 }
        ensures { result ≡ group_of interval.now index }
    {
        Group {
            start: interval.start,
            end: interval.end(),
            last: interval.end(),
            first: index,
            next: index + 1,
        }
    }

    /// Whether an interval is at least twice as long as the group up to its end.
    fn is_long(self, interval: &StoredInterval) -> bool
        ensures { result ≡ is_long_for self interval.now }
    {
        let span = self.end.saturating_sub(self.start);
        let length = interval.end().saturating_sub(interval.start);
        2 * u128::from(span) <= u128::from(length)
    }

    /// Returns the group with the interval behind its last one, up to the end of that if it is long.
    fn with(self, interval: &StoredInterval, index: usize) -> Group
        requires { index + 1 < 2 ^ 64 }
        ensures { result ≡ with_interval self interval.now index }
    {
        let end = if self.is_long(interval) {
            interval.end()
        } else {
            self.end
        };
        Group {
            end,
            last: self.last.max(interval.end()),
            next: index + 1,
            ..self
        }
    }

    /// Returns the group with an interval without samples behind its last one.
    fn with_empty(self, index: usize) -> Group
        requires { index + 1 < 2 ^ 64 }
        ensures { result ≡ with_empty self index }
    {
        Group {
            next: index + 1,
            ..self
        }
    }

    /// Returns the length of the group's intervals.
    fn length(self) -> u64
        ensures { result ≡ length_of self }
    {
        self.last.saturating_sub(self.start)
    }

    /// Whether a time without intervals follows the group, which is `until` before the next group
    /// or the end of the log.
    fn has_hole(self, until: u64, stride: u64) -> bool
        ensures { result ≡ has_hole self until stride }
    {
        3 * u128::from(stride.max(self.length())) < 2 * u128::from(until)
    }

    /// Returns the length of the group's cell, if a time without intervals follows it.
    fn span_before_hole(self, until: u64, stride: u64, is_last: bool) -> u64
        ensures { result ≡ span_before_hole self until stride is_last }
    {
        if is_last || stride <= self.length() {
            self.length().min(until)
        } else {
            stride
        }
    }

    /// Returns the length of the group's cell otherwise.
    fn span_up_to(self, until: u64, stride: u64, is_last: bool) -> u64
        ensures { result ≡ span_up_to self until stride is_last }
    {
        if is_last {
            self.length().max(stride).min(until.max(1))
        } else {
            until
        }
    }

    /// Returns the length of the group's cell.
    fn span(self, until: u64, stride: u64, is_last: bool) -> u64
        ensures { result ≡ span_of self until stride is_last }
    {
        let span = if self.has_hole(until, stride) {
            self.span_before_hole(until, stride, is_last)
        } else {
            self.span_up_to(until, stride, is_last)
        };
        span.max(1)
    }

    /// Returns the group's cell, up to an end.
    fn cell(self, counts: &[u64], end: u64) -> Cell
        requires { IsGroupOf (length counts.now) self }
        ensures { result ≡ cell_of counts.now self end }
    {
        Cell {
            start: self.start,
            end,
            last: self.last.max(self.start.saturating_add(1)).min(end),
            samples: sum(&counts[self.first..self.next]),
            first: self.first,
            next: self.next,
        }
    }

    /// Appends the cells of the group up to the next one, or to the end of the log.
    fn push_up_to(
        self,
        cells: &mut Vec<Cell>,
        counts: &[u64],
        next: Option<Group>,
        stride: u64,
        end: u64,
    ) -> Result<(), AllocError>
        requires { IsGroupOf (length counts.now) self }
        ensures { OnOk result (cells.new.items ≡ cells.old.items
            ++ cells_up_to counts.now stride end self next) }
    {
        match next {
            Some(next) => self.push_cells(cells, counts, next.start, stride, false),
            None => self.push_cells(cells, counts, end, stride, true),
        }
    }

    /// Appends the cell of the group, and that of the time without intervals behind it.
    fn push_cells(
        self,
        cells: &mut Vec<Cell>,
        counts: &[u64],
        after: u64,
        stride: u64,
        is_last: bool,
    ) -> Result<(), AllocError>
        requires { IsGroupOf (length counts.now) self }
        ensures { OnOk result (cells.new.items ≡ cells.old.items
            ++ cells_of_group counts.now stride self after is_last) }
    {
        let until = after.saturating_sub(self.start);
        let end = self.start.saturating_add(self.span(until, stride, is_last));
        cells.push(self.cell(counts, end))?;
        if !(self.has_hole(until, stride) && end < after) {
            return Ok(());
        }
        cells.push(Cell {
            start: end,
            end: after,
            last: after,
            samples: 0,
            first: self.next,
            next: self.next,
        })?;
        Ok(())
    }
}

/// Returns the group behind that of an index, if there is one.
fn next_of(groups: &[Group], index: usize) -> Option<Group>
    requires { index < length groups.now }
    ensures { result ≡ slice_get groups.now (index + 1) }
{
    groups.get(index + 1).copied()
}

/// Whether the interval of an index has no samples.
fn is_empty_at(counts: &[u64], index: usize) -> bool
    ensures { result ≡ is_empty_at counts.now index }
{
    match counts.get(index) {
        Some(count) => *count == 0,
        None => true,
    }
}

/// Returns the last group after the interval of an index, and appends the one before it if that is
/// over. The intervals have these numbers of samples.
fn after_interval(
    groups: &mut Vec<Group>,
    last: Option<Group>,
    interval: &StoredInterval,
    index: usize,
    counts: &[u64],
) -> Result<Group, AllocError>
    requires { index + 1 < 2 ^ 64 }
    ensures { IfOk result (λ group. (all : List StoredInterval)
        → groups.new.items ++ groups_from counts.now (Some group) (index + 1) all
        ≡ groups.old.items ++ groups_from counts.now last index (interval.now ∷ all)) }
{
    match last {
        Some(group) if is_empty_at(counts, index) => Ok(group.with_empty(index)),
        Some(group) if is_empty_at(counts, group.first) => Ok(Group::of(interval, index)),
        Some(group) if interval.start < group.end => Ok(group.with(interval, index)),
        Some(group) => {
            groups.push(group)?;
            Ok(Group::of(interval, index))
        }
        None => Ok(Group::of(interval, index)),
    }
}

/// Returns the groups of intervals in ascending order of their starts. The intervals have these
/// numbers of samples.
fn groups_of(
    alloc: Global,
    intervals: &[&StoredInterval],
    counts: &[u64],
) -> Result<Vec<Group>, AllocError>
    ensures { IfOk result (λ groups. groups.items
        ≡ groups_from counts.now None 0 (map (λ i. i.now) intervals.now)) }
{
    let mut groups = Vec::new(alloc);
    let mut last = None;
    for (index, interval) in intervals.iter().enumerate() {
        last = Some(after_interval(&mut groups, last, interval, index, counts)?);
    }
    if let Some(group) = last {
        groups.push(group)?;
    }
    Ok(groups)
}

/// Returns the strides from a start to those of groups, one after the other.
fn strides_from(alloc: Global, start: u64, groups: &[Group]) -> Result<Vec<u64>, AllocError>
    ensures { IfOk result (λ strides. strides.items ≡ strides_from start groups.now) }
{
    let mut strides = Vec::new(alloc);
    let mut before = start;
    for group in groups {
        strides.push(group.start.saturating_sub(before))?;
        before = group.start;
    }
    Ok(strides)
}

/// Returns the element at nine tenths of the length, in ascending order, or the other number if there
/// is none.
fn ninth_decile(mut strides: Vec<u64>, other: u64) -> Result<u64, AllocError>
    ensures { IfOk result (λ stride. stride ≡ ninth_decile other strides.items) }
{
    strides.sort()?;
    match strides.get(strides.len() * 9 / 10) {
        Some(stride) => Ok(*stride),
        None => Ok(other),
    }
}

/// Returns the usual stride from a group to the next one: nine of ten are no longer.
fn stride_of(alloc: Global, groups: &[Group]) -> Result<u64, AllocError>
    ensures { IfOk result (λ stride. stride ≡ stride_of groups.now) }
{
    match groups {
        [] => Ok(1),
        [first, rest @ ..] => {
            let strides = strides_from(alloc, first.start, rest)?;
            ninth_decile(strides, first.end.saturating_sub(first.start).max(1))
        }
    }
}

/// Returns the cells of intervals in ascending order of their starts, up to the end of a log. The
/// intervals have these numbers of samples.
pub(crate) fn cells_of(
    alloc: Global,
    intervals: &[&StoredInterval],
    counts: &[u64],
    end: u64,
) -> Result<Vec<Cell>, AllocError>
    requires { length counts.now ≡ length intervals.now }
    ensures cells { IfOk result (λ cells. cells.items
        ≡ cells_of_intervals (map (λ i. i.now) intervals.now) counts.now end) }
    ensures within { IfOk result (λ cells. AreWithin (length intervals.now) cells.items) }
    ensures counted { IfOk result (λ cells. AreCounted counts.now cells.items) }
{
    let groups = groups_of(alloc, intervals, counts)?;
    let stride = stride_of(alloc, &groups)?;
    let cells = cells_of_groups(alloc, &groups, counts, stride, end)?;
    Ok(cells)
}

/// Returns the cells of groups of intervals, which have these numbers of samples, up to the end of a
/// log.
fn cells_of_groups(
    alloc: Global,
    groups: &[Group],
    counts: &[u64],
    stride: u64,
    end: u64,
) -> Result<Vec<Cell>, AllocError>
    requires { AreGroupsOf (length counts.now) groups.now }
    ensures { IfOk result (λ cells. cells.items ≡ cells_of_groups counts.now stride end groups.now) }
{
    let mut cells = Vec::new(alloc);
    for (index, group) in groups.iter().enumerate() {
        group.push_up_to(&mut cells, counts, next_of(groups, index), stride, end)?;
    }
    Ok(cells)
}

/// Returns the sum of counts, saturated at `u64::MAX`.
fn sum(counts: &[u64]) -> u64
    ensures { result ≡ min (sum counts.now) (2 ^ 64 - 1) }
{
    let mut sum = 0u64;
    for count in counts {
        sum = sum.saturating_add(*count);
    }
    sum
}
