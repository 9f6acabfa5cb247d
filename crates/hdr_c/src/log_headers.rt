//! Comments and the times of a log's headers, in the caller's memory.

ghost use Rattle.std.specs.Prelude.{◌≡◌, IfOk};
ghost use Rattle.hdr_log.specs.Pieces.{StartsAt, BasedAt, Comment, piece_text};
ghost use Rattle.hdr_c.specs.Lines.{PutsComment, PutsHeader, time_at};

use crate::log_writing::time;
use crate::status::{NOT_UTF8, OUT_OF_MEMORY, TIME_OUT_OF_RANGE};
use crate::v2_bytes::copy_to;
use hdr_log::parts::text;
use hdr_log::text::{push_base_time, push_comment, push_start_time, thousandths};
use std::alloc::Global;

/// Writes a comment to the start of `buf`, each of its lines as one after `#`. `needed` is the number of
/// bytes, also if `buf` is too short.
#[unsafe(no_mangle)]
pub extern "C" fn dkap_log_comment(
    alloc: Global,
    comment: &[u8],
    buf: &mut [u8],
    needed: &mut usize,
) -> u32
    ensures { PutsComment result comment.now buf.old buf.new needed.new }
{
    *needed = 0;
    let Some(comment) = text(comment) else {
        return NOT_UTF8;
    };
    let mut line = Vec::new(alloc);
    match push_comment(&mut line, comment) {
        Ok(()) => copy_to(&line, buf, needed),
        Err(_) => OUT_OF_MEMORY,
    }
}

/// Writes the header of a start time to the start of `buf`. `needed` is the number of bytes, also if `buf`
/// is too short.
#[unsafe(no_mangle)]
pub extern "C" fn dkap_log_start_time(
    alloc: Global,
    seconds: u64,
    nanos: u32,
    buf: &mut [u8],
    needed: &mut usize,
) -> u32
    ensures { PutsHeader StartsAt result (time_at seconds nanos) buf.old buf.new needed.new }
{
    *needed = 0;
    let Some(time) = time(seconds, nanos) else {
        return TIME_OUT_OF_RANGE;
    };
    let Some(time) = thousandths(time) else {
        return TIME_OUT_OF_RANGE;
    };
    let mut line = Vec::new(alloc);
    match push_start_time(&mut line, time) {
        Ok(()) => copy_to(&line, buf, needed),
        Err(_) => OUT_OF_MEMORY,
    }
}

/// Writes the header of a base time to the start of `buf`. `needed` is the number of bytes, also if `buf` is
/// too short.
#[unsafe(no_mangle)]
pub extern "C" fn dkap_log_base_time(
    alloc: Global,
    seconds: u64,
    nanos: u32,
    buf: &mut [u8],
    needed: &mut usize,
) -> u32
    ensures { PutsHeader BasedAt result (time_at seconds nanos) buf.old buf.new needed.new }
{
    *needed = 0;
    let Some(time) = time(seconds, nanos) else {
        return TIME_OUT_OF_RANGE;
    };
    let Some(time) = thousandths(time) else {
        return TIME_OUT_OF_RANGE;
    };
    let mut line = Vec::new(alloc);
    match push_base_time(&mut line, time) {
        Ok(()) => copy_to(&line, buf, needed),
        Err(_) => OUT_OF_MEMORY,
    }
}
