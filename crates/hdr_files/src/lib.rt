//! The files that arguments name, read as numbers or as interval logs, and the output.
//!
//! What is skipped, rounded or not read is printed on standard error.
#![tactic(auto)]

mod begun;
mod checks;
mod converted;
mod ends;
mod errors;
mod files;
mod log_runs;
mod logs;
mod names;
mod numbers;
mod output;
mod parts;
mod periods;
mod progress;
mod reading;
mod runs;
mod surveyed;
mod timed;

pub use checks::{Checked, check_logs, check_numbers};
pub use ends::read_parts_with_ends;
pub use errors::StatError;
pub use files::{Files, Input};
pub use log_runs::{TagSamples, add_sums};
pub use logs::{Parts, read_intervals};
pub use names::FileNames;
pub use numbers::{Form, Table, read_numbers};
pub use output::{Output, check_output, print, print_error_line, write_output};
pub use parts::{part_of_all, read_parts};
pub use periods::{Periods, read_numbers_by_period};
pub use reading::Reading;
pub use runs::{FEWEST_RUNS, RunSides, coarser_unit, read_run};
pub use timed::{log_of_intervals, log_of_numbers, print_log_as_read, read_intervals_of};
