//! Calls that `tools/refused.sh` repeats, and each time lets the next allocation fail: a run prints `no memory` if and only if
//! an allocation failed.

mod bytes;
mod compressed;
mod no_allocation;

use hdr_core::{AdditionError, Call, CallError, CallFrom, CreationError, RecordError, RunError};
use hdr_play::{LineError, Table, Value};
use hdrhistogram::serialization::V2SerializeError;
use hdrhistogram::serialization::interval_log::{IntervalLogWriterError as LogError, MergeError};
use std::alloc::Global;
use std::process::Abort;
use std::test::Fail;

/// Two histograms of one digit that grow, with 3 recorded once, and `wide` up to 1023 with 3 and 1000 recorded once.
const TWINS: &str = "one new 1; other new 1; wide new_with_max 1000 1; one saturating_record 3; \
    other saturating_record 3; wide saturating_record 3; wide saturating_record 1000";

/// Calls that make `one` of `TWINS` grow to 1023.
const GROWING: &str = "one record 1000; one record_n 1000 0; one record_correct 1000 10; \
    one record_n_correct 1000 7 3; one record_n_correct_counted 1000 7 3; one add_from; \
    one add_correct_from 100; one apply record 1000 5; one apply correct 1000 5 9; \
    one run record 1000 5; one run correct 1000 5 9, clear; one run_from record 1000 5; \
    one run_from add_from, clear; one run_from add_correct_from 100";

/// An empty histogram that grows, another up to 1023 with 1000 recorded once.
const EMPTY: &str =
    "one new 1; wide new 1; other new_with_max 1000 1; other saturating_record 1000";

/// The same, but the first two hold 3 once, which a failed `set_to` has to keep.
const NONEMPTY: &str = "one new 1; wide new 1; other new_with_max 1000 1; one saturating_record 3; \
    wide saturating_record 3; other saturating_record 1000";

/// Calls that make `one` of `EMPTY` or `NONEMPTY` grow to 1023 by `other`.
const MERGING: &str =
    "one add; one add_correct 100; one set_to; one set_to_corrected 100; one apply add; \
    one apply add_correct 100; one run add; one run add_correct 100, clear";

/// Calls that return a histogram or text.
const CREATING: &str =
    "one new 3; one new_with_max 1000 0; one new_with_bounds 10 1000 2; one clone_to_other; \
    one clone_correct_to_other 2; one new_from_wide_to_other; \
    log field AQI=; log begin comment a then b; one log_line 0.0 1.0 1 a; \
    one merge 3 a - - Tag=a,0.0,1.0,2.0,HISTEwAAAAMAAAAAAAAAAwAAAAAAAAABAAAAAAAAAAI/8AAAAAAAAAACCA==\\n";

/// Returns the value of a result as `Some`, or `None` if an allocation failed. Any other error
/// fails the test.
macro_rules! allocated {
    ($rt:expr, $result:expr, $out_of_memory:pat) => {
        match $result {
            Ok(value) => Some(value),
            Err(error) => {
                assert!($rt; matches!(error, $out_of_memory));
                None
            }
        }
    };
}

pub(crate) use allocated;

/// Prints `no memory` unless all allocations succeeded.
fn report(rt: &impl Print, succeeds: bool) -> Result<(), Fail> {
    if !succeeds {
        println!(rt; "no memory")?;
    }
    Ok(())
}

/// Whether the error of a call as a value is a failed allocation.
fn is_failed_allocation_of_call(cause: &CallError) -> bool {
    matches!(
        cause,
        CallError::Record(RecordError::OutOfMemory)
            | CallError::Addition(AdditionError::OutOfMemory)
    )
}

/// Whether the error of a call is a failed allocation. A log in memory that cannot grow fails as a writer.
fn is_failed_allocation(error: &LineError) -> bool {
    match error {
        LineError::Creation(CreationError::OutOfMemory)
        | LineError::Record(RecordError::OutOfMemory)
        | LineError::Addition(AdditionError::OutOfMemory)
        | LineError::Merge(MergeError::OutOfMemory)
        | LineError::Log(LogError::OutOfMemory | LogError::IoError(_))
        | LineError::Log(LogError::SerializeError(V2SerializeError::OutOfMemory)) => true,
        LineError::Call(cause) => is_failed_allocation_of_call(cause),
        LineError::Run(run) => is_failed_allocation_of_call(&run.cause),
        _ => false,
    }
}

/// Makes calls up to the first with a failed allocation or an invalid line. Returns whether there was one.
fn any_fails(alloc: Global, table: &mut Table<u64>, calls: &str) -> bool {
    for call in calls.split("; ") {
        if let Err(error) = table.execute(alloc, call)
            && (is_failed_allocation(&error) || error.is_player_error())
        {
            return true;
        }
    }
    false
}

/// Comparisons of the first histogram with the second: by all its calls, and by `==`.
const SAME_AS_OTHER: &str = "one same; one is_other";

/// Comparisons of the first histogram with the third.
const SAME_AS_WIDE: &str = "one same_wide; one equals_wide";

/// Whether all comparisons return true.
fn are_same(alloc: Global, table: &mut Table<u64>, comparisons: &str) -> bool {
    comparisons.split("; ").all(|it| matches!(table.execute(alloc, it), Ok(Value::Bool(true))))
}

/// Returns the histograms after the calls of `setup`, or `None` if an allocation failed.
fn create_table(alloc: Global, setup: &str) -> Option<Table<u64>> {
    let mut table = Table::new(alloc).ok()?;
    if any_fails(alloc, &mut table, setup) {
        drop(table);
        return None;
    }
    Some(table)
}

/// Whether an allocation failed in a call, or in the calls of `setup`. A call that failed changed nothing: all comparisons
/// still return true.
fn call_fails(rt: &(impl Abort + AllocGlobal), setup: &str, call: &str, comparisons: &str) -> bool {
    let Some(mut table) = create_table(rt.alloc(), setup) else {
        return true;
    };
    let fails = any_fails(rt.alloc(), &mut table, call);
    assert!(rt;
        !fails || are_same(rt.alloc(), &mut table, comparisons),
        "{call}"
    );
    drop(table);
    fails
}

/// Makes each call of a list on histograms of its own. Returns whether an allocation failed in
/// none.
fn all_succeed(rt: &(impl Abort + AllocGlobal), calls: &str, setup: &str, same: &str) -> bool {
    let mut succeed = true;
    for call in calls.split("; ") {
        succeed &= !call_fails(rt, setup, call, same);
    }
    succeed
}

#[test]
fn growing(rt: HostRuntime) -> Result<(), Fail> {
    report(&rt, all_succeed(&rt, GROWING, TWINS, SAME_AS_OTHER))
}

#[test]
fn merging(rt: HostRuntime) -> Result<(), Fail> {
    report(&rt, all_succeed(&rt, MERGING, EMPTY, SAME_AS_WIDE))
}

#[test]
fn merging_into_samples(rt: HostRuntime) -> Result<(), Fail> {
    report(&rt, all_succeed(&rt, MERGING, NONEMPTY, SAME_AS_WIDE))
}

#[test]
fn creating(rt: HostRuntime) -> Result<(), Fail> {
    report(&rt, all_succeed(&rt, CREATING, TWINS, SAME_AS_OTHER))
}

/// Prints whether an allocation failed in the second call of a run. The effect of the first call remains: 4 is recorded, as in
/// the second histogram.
fn check_run(
    rt: &(impl Abort + AllocGlobal + Print),
    table: &mut Table<u64>,
    outcome: Result<(), RunError>,
) -> Result<(), Fail> {
    if let Err(error) = &outcome {
        assert!(rt; error.at == 1 && is_failed_allocation_of_call(&error.cause));
        assert!(rt; !any_fails(rt.alloc(), table, "other saturating_record 4"));
        assert!(rt; are_same(rt.alloc(), table, SAME_AS_OTHER));
    }
    report(rt, outcome.is_ok())
}

#[test]
fn running(rt: HostRuntime) -> Result<(), Fail> {
    let Some(mut table) = create_table(rt.alloc(), TWINS) else {
        return report(&rt, false);
    };
    let calls = [Call::Record(4, 1), Call::Record(1000, 5), Call::Clear];
    let result = table.one.apply_all(&calls);
    check_run(&rt, &mut table, result)
}

#[test]
fn running_from(rt: HostRuntime) -> Result<(), Fail> {
    let Some(mut table) = create_table(rt.alloc(), TWINS) else {
        return report(&rt, false);
    };
    let calls = [
        CallFrom::Own(Call::Record(4, 1)),
        CallFrom::AddFrom(&table.wide),
        CallFrom::Own(Call::Clear),
    ];
    let result = table.one.apply_all_from(&calls);
    check_run(&rt, &mut table, result)
}
