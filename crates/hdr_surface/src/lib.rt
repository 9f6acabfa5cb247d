//! What callers of the library rely on that no program and no row does: errors that can't come, arithmetic that needs no test,
//! variants and fields of public types, their traits and other paths, names that nothing else calls, and types of the caller's
//! own. A match has every variant and no arm for the rest. A call with a premise shows the simplest test of it.
#![tactic(auto)]

pub mod after_errors;
pub mod counts;
pub mod derives;
pub mod digits;
pub mod errors;
pub mod fields;
pub mod guarantees;
pub mod inside;
pub mod iterating;
pub mod lawful;
pub mod logs;
pub mod offsets;
pub mod outcomes;
pub mod own_counter;
pub mod own_picker;
pub mod own_serializer;
pub mod paths;
pub mod runs;
pub mod sizes;
pub mod ticks;
