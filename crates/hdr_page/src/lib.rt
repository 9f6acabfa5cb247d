//! Shows an interval log: as one HTML file with no script and no reference to another file, as text
//! for a terminal, or as a row for each interval.
#![tactic(auto)]

mod charts;
mod comparison;
mod html;
mod separated;
mod style;
mod table;
mod terminal;

pub use comparison::{Comparison, TagSide};
pub use hdr_figures::level::PageLevel;
pub use hdr_view::options::PageOptions;
pub use html::page;
pub use separated::rows;
pub use terminal::page_text;
