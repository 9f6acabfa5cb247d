//! Calls that allocate nothing.

use crate::tests::failed_allocations::{any_fails, create_table, report};
use hdr_base::Quantile;
use hdr_core::{Call, CallFrom, Histogram};
use hdr_log::{IntervalLogIterator, Tag};
use hdr_play::Table;
use hdrhistogram::serialization::deserializer::{varint_read, varint_read_slice};
use hdrhistogram::serialization::interval_log::IntervalLogWriterBuilder;
use hdrhistogram::serialization::v2_serializer::{
    counts_array_max_encoded_size, encode_counts, varint_write, zig_zag_decode, zig_zag_encode,
};
use hdrhistogram::serialization::{Deserializer, V2Serializer};
use std::alloc::Global;
use std::test::Fail;
use std::time::Duration;

/// Histograms up to 1023, of which two hold a value.
const SMALL: &str = "one new_with_max 1000 1; other new_with_max 1000 1; wide new_with_max 1000 1; \
    other saturating_record 7; wide saturating_record 900";

/// Calls that allocate nothing on `SMALL`.
const CALLS: &str = "one record 900; one record_n 5 255; one record_correct 90 10; \
    one record_n_correct 90 200 7; one record_n_correct_counted 900 1 1; \
    one saturating_record 5000; one saturating_record_n 5000 3; one record 5000; \
    one apply record 9 1; one apply clamp 9 1; one apply correct 9 1 2; one apply add; \
    one apply add_correct 3; one add; one add_from; one add_correct 10; \
    one add_correct_from 10; one subtract; one set_to; one set_to_corrected 10; \
    one value_at_quantile 1 2; one value_at_percentile 50 1; one looks 1 2; one len; one count; \
    one is_empty; one low; one high; one sigfig; one is_auto_resize; one buckets; \
    one distinct_values; one max; one min; one min_nz; one count_at 9; one count_between 1 9; \
    one bin_of 9; one bin_value 9; one bin_count 9; one lowest_equivalent 900; \
    one highest_equivalent 900; one next_non_equivalent 900; one median_equivalent 900; \
    one equivalent_range 900; one equivalent 900 901; one is_other; one equals_wide; \
    one apply clear; one apply reset; one clear; one reset; one auto 0; counter zero; \
    counter max_value; counter from_u64 5; counter saturating_add 1 2; counter checked_add 1 2; \
    counter checked_sub 2 1; counter less 1 2; scale unit 1 1; scale digits 1 1; \
    scale bin 1 1 900; scale bin_value 1 1 9; scale width 1 1 900; scale lowest 1 1 900; \
    scale top 1 1 900; scale reach 1 1 900; scale buckets 1 1 900; scale block 1 1; \
    fraction num 1 2; fraction den 1 2; fraction ticks; bytes zig_zag -5; log tag a";

/// Whether a run succeeds that allocates nothing.
fn run_succeeds(table: &mut Table<u64>) -> bool {
    let calls = [
        Call::Record(9, 1),
        Call::Add(&table.other),
        Call::Correct(9, 1, 2),
    ];
    table.one.apply_all(&calls).is_ok()
}

/// Whether a run with a source of another type succeeds, which allocates nothing.
fn run_from_succeeds(table: &mut Table<u64>) -> bool {
    let calls = [
        CallFrom::Own(Call::Record(9, 1)),
        CallFrom::AddFrom(&table.wide),
        CallFrom::AddCorrectFrom(&table.wide, 2),
    ];
    table.one.apply_all_from(&calls).is_ok()
}

/// Whether calls that allocate nothing succeed, or `None` if an allocation failed before them.
fn calls_succeed(alloc: Global) -> Option<bool> {
    let mut table = create_table(alloc, SMALL)?;
    let succeed = !any_fails(alloc, &mut table, CALLS);
    Some(succeed && run_succeeds(&mut table) && run_from_succeeds(&mut table))
}

/// Whether the payload of a histogram is right, in a buffer that is not allocated anew.
fn payload_is_right(h: &Histogram<u64>, buf: &mut Vec<u8>) -> bool {
    counts_array_max_encoded_size(h.distinct_values()).is_some_and(|len| len <= buf.len())
        && matches!(encode_counts(h, buf), Ok(len) if len > 0)
}

/// Whether numbers are encoded, and decoded again.
fn numbers_are_right() -> bool {
    let mut buf = [0; 9];
    let len = varint_write(300, &mut buf);
    let mut reader = buf.as_slice();
    len == 2
        && varint_read_slice(buf.as_slice()) == (300, 2)
        && matches!(varint_read(&mut reader), Ok(300))
        && zig_zag_decode(zig_zag_encode(-5)) == -5
}

/// Counts the items of iterators.
macro_rules! count_each {
    ($n:ident: $($items:expr),*) => { $(for _item in $items { $n = $n.saturating_add(1); })* };
}

/// Returns how many items all iterators have.
fn count_items(h: &Histogram<u64>) -> u64 {
    let mut items: u64 = 0;
    count_each!(items: h.iter_all(), h.iter_recorded(), h.iter_linear(100), h.iter_log(1, 10));
    count_each!(items: h.iter_quantiles(2));
    items
}

/// Whether the statistics are right for 7 once.
fn statistics_are_right(h: &Histogram<u64>, half: Quantile) -> bool {
    let halves = [half, half];
    let (below, percent) = (h.quantile_below(7), h.percentile_below(7));
    h.value_at_quantiles(&halves).count() == 2
        && h.value_at_percentiles(&halves).count() == 2
        && (below.num, below.den) == (1, 1)
        && (percent.num, percent.den) == (100, 1)
        && matches!(h.mean(), Some(mean) if (mean.num, mean.den) == (7, 1))
        && matches!(h.standard_deviation(), Some(d) if (d.num, d.den) == (0, 1))
}

/// Whether constructors that allocate nothing are called, and a log is read.
fn makes_and_reads(alloc: Global) -> bool {
    let _serializer = V2Serializer::new(alloc);
    let _deserializer = Deserializer::new(alloc);
    let mut builder = IntervalLogWriterBuilder::new(alloc);
    builder.with_start_time(Duration::new(1, 0));
    builder.with_base_time(Duration::new(2, 0));
    builder.with_max_value_divisor(3);
    let mut log = IntervalLogIterator::new(b"Tag=a,0.0,1.0,1,x\n");
    matches!(log.next(), Some(Ok(_))) && log.next().is_none() && Tag::new("a").is_some()
}

/// Whether bytes, iterators and statistics, which allocate nothing, are right, or `None` if an allocation failed before them.
fn reading_succeeds(alloc: Global) -> Option<bool> {
    let mut h: Histogram<u64> = Histogram::new_with_max(alloc, 1000, 1).ok()?;
    let mut buf = vec![in alloc; 0u8; 10_000].ok()?;
    let half = Quantile::new(1, 2)?;
    h.saturating_record(7);
    Some(
        payload_is_right(&h, &mut buf)
            && numbers_are_right()
            && count_items(&h) > 0
            && statistics_are_right(&h, half)
            && makes_and_reads(alloc),
    )
}

/// No allocation fails once the histograms are there.
#[test]
fn calls_without_allocation(rt: HostRuntime) -> Result<(), Fail> {
    let succeed = calls_succeed(rt.alloc());
    assert!(rt; succeed != Some(false));
    report(&rt, succeed.is_some())
}

#[test]
fn reading_without_allocation(rt: HostRuntime) -> Result<(), Fail> {
    let succeeds = reading_succeeds(rt.alloc());
    assert!(rt; succeeds != Some(false));
    report(&rt, succeeds.is_some())
}
