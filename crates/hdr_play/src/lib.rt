//! The language of rows: calls of the library in order, and the result that each has to return. A row is text, computed by
//! hand or by other programs, so that it needs no proof. This crate and `hdr_rows` are test tools: they are proved to be safe
//! and to terminate, and promise nothing more.
//!
//! Lines that are empty or start with `#` are for the reader, in a row and before the first.
//! `row NAME COUNTER..` begins a row with three empty histograms that grow and keep 3 digits: `one` and `other` of the counter
//! type (`u8`, `u16`, `u32`, `u64`, or `c12`, a type of this program's own), and `wide` of `u64`. It is played once for each
//! counter type that it names. Every other line is `WHO CALL ARGUMENTS = RESULT`; `= ok` may be omitted. Booleans of one
//! histogram are 1 and 0, comparisons of two are `true` and `false`. An error is written as its name, with or without its parts
//! between parentheses, or as its message between quotation marks.
//!
//! `! WHO CALL ARGUMENTS = WRONG but RIGHT` is wrong on purpose, so that a player that accepts too much is seen: the call returns
//! RIGHT, and the player has to find that WRONG differs. In every line, a call that no module below names, or that has other
//! arguments, is an error of the file.
//!
//! - `run CALL, CALL` and `apply CALL` apply calls as values; `agree` and `agree_below` correct `one` class by class and `other`
//!   value by value, and then compare both; the last number of `agree_below` is 1 if both keep what they held.
//! - `to_bytes` and `encode_counts` return hexadecimal digits. `decode HEX` replaces the histogram by the decoded one, from a
//!   slice and from a reader that returns one byte a call, with two trailing bytes; `decode_alone` has no trailing bytes.
//! - Iterators return their items, separated by commas: the value, its counter, the samples since the item before, the quantile,
//!   and the quantile iterated to. If there are more than 16, the first 16, their number, and a digest of all.
//! - `value_at_quantiles` takes fractions, `NUM/DEN`.
//! - `log_line START DURATION DIVISOR TAG` returns a log of one interval; times are seconds, a point and nanoseconds. `log read`
//!   returns the entries of a log, times with nine digits after the point.
//! - `merge SIGFIG TAG FROM TO LOG` replaces the histogram by the merge of a log's chosen intervals, and returns their number;
//!   times are as in `log_line`, and a `-` chooses all. `run_from` is `run` in which `add_from` and `add_correct_from` take
//!   `wide`.
//! - `bytes`, `counter`, `scale LOW SIGFIG VALUE`, `fraction` and `log` make calls without a histogram.
#![tactic(auto)]

mod arguments;
mod base;
mod bytes;
mod c12;
mod correction;
mod items;
mod logs;
mod merging;
mod outcome;
mod play;
mod runs;
mod single;
mod table;

pub use outcome::{LineError, Outcome, Value};
pub use play::Report;
pub use table::Table;
