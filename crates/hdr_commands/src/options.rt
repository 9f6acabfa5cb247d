//! The arguments that several subcommands have, and what they mean.

pub mod arguments;
pub mod forms;
pub mod matches;
