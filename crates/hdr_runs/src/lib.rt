//! Runs that are compared: their samples in batches, the confidence intervals of their percentiles, what changed between them, and
//! the texts of that.
#![tactic(auto)]

mod band;
mod batch_tally;
mod change;
mod checks;
mod ends;
mod level_check;
mod level_tally;
mod limit;
mod log_batches;
mod log_counts;
mod order;
mod point;
mod report;
mod side;
mod steps;
mod texts;

pub use band::BandPoint;
pub use batch_tally::{BatchRecording, BatchTally};
pub use change::{Change, change_of};
pub use checks::{LevelIntervals, checks_of_numbers, sum_of_numbers};
pub use ends::ends_of;
pub use level_check::LevelCheck;
pub use level_tally::{LevelRecording, LevelTally};
pub use limit::{Limit, LimitVerdict, parse_limit};
pub use log_batches::LogBatches;
pub use log_counts::{LogCounts, LogLevels, Scaled, TagCounts};
pub use order::Order;
pub use point::Point;
pub use report::{Compared, NamedRun, Pair, Report, ReportError};
pub use side::{Samples, Side};
pub use texts::{LimitLine, ReportFormat, ReportLayout};
