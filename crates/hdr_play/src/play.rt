//! Rows, file by file and line by line.

use crate::arguments::split_at_space;
use crate::c12::C12;
use crate::outcome::{LineError, Outcome};
use crate::table::Table;
use hdr_base::Counter;
use std::alloc::{AllocError, Global};

/// The numbers of rows that passed and failed, and the output for those that failed.
#[derive(Drop)]
pub struct Report {
    alloc: Global,
    pub passed: u64,
    pub failed: u64,
    pub output: String,
}

/// A row, and the line number of its title.
#[derive(Clone, Copy)]
struct Row<'a> {
    file: &'a str,
    number: u64,
    text: &'a str,
}

impl<'a> Row<'a> {
    /// Returns the name of the row, and its counter types.
    fn title(self) -> (&'a str, &'a str) {
        split_at_space(self.text.lines().next().unwrap_or(""))
    }
}

/// Whether the name of an error is the expected one, with its parts or without them.
fn is_expected_name(name: &str, expected: &str) -> bool {
    match name.strip_prefix(expected.trim_end_matches(')')) {
        Some(parts) => parts.is_empty()
            || parts.starts_with('(')
            || parts.starts_with(')')
            || parts.starts_with(" {"),
        None => false,
    }
}

/// Whether an outcome is the expected one: a value, the name of an error, or an error's message between quotation marks.
fn is_expected(alloc: Global, outcome: &Outcome, expected: &str) -> Result<bool, AllocError> {
    match outcome {
        Ok(value) => Ok(value.to_text(alloc)?.as_str() == expected),
        Err(error) if expected.starts_with('"') => Ok(
            error.quoted_message(alloc)?.as_str() == expected,
        ),
        Err(error) => Ok(is_expected_name(error.name(alloc)?.as_str(), expected)),
    }
}

/// What is wrong with a line: a message, or nothing.
type Difference = Result<Option<String>, AllocError>;

/// Returns a message with the expected and the actual outcome, or `None` if they are the same.
fn difference(alloc: Global, outcome: &Outcome, expected: &str) -> Difference {
    if is_expected(alloc, outcome, expected)? {
        return Ok(None);
    }
    let came = match outcome {
        Ok(value) => value.to_text(alloc)?,
        Err(error) => {
            let (name, message) = (error.name(alloc)?, error.quoted_message(alloc)?);
            format!(in alloc; "{name} {message}")?
        }
    };
    Ok(Some(format!(in alloc; "    wanted {expected}\n    came   {came}\n")?))
}

/// Returns a message if a line that is wrong on purpose does not differ from its first outcome, or differs from its second.
fn deliberate_difference(alloc: Global, outcome: &Outcome, expected: &str) -> Difference {
    let Some((wrong, right)) = expected.split_once(" but ") else {
        return Ok(Some(format!(in alloc; "    fault: no ` but ` and what comes\n")?));
    };
    if is_expected(alloc, outcome, wrong)? {
        return Ok(Some(format!(in alloc; "    has to be refused, and passes: {wrong}\n")?));
    }
    difference(alloc, outcome, right)
}

/// Plays a line. Returns a message if it fails.
fn play_line<T: Counter>(alloc: Global, table: &mut Table<T>, line: &str) -> Difference {
    if line.is_empty() || line.starts_with('#') {
        return Ok(None);
    }
    let (call, expected) = line.split_once(" = ").unwrap_or((line, "ok"));
    let deliberate = call.strip_prefix("! ");
    let outcome = table.execute(alloc, deliberate.unwrap_or(call));
    match &outcome {
        Err(error) if error.is_player_error() => {
            Ok(Some(format!(in alloc; "    fault: {error}\n")?))
        }
        _ if deliberate.is_some() => deliberate_difference(alloc, &outcome, expected),
        _ => difference(alloc, &outcome, expected),
    }
}

impl Report {
    /// Returns a report of no rows.
    pub fn new(alloc: Global) -> Report {
        Report {
            alloc,
            passed: 0,
            failed: 0,
            output: String::new(alloc),
        }
    }

    /// Counts a row.
    fn count(&mut self, passes: bool) {
        if passes {
            self.passed = self.passed.saturating_add(1);
        } else {
            self.failed = self.failed.saturating_add(1);
        }
    }

    /// Checks that the lines before the first row are empty or comments.
    fn check_head(&mut self, file: &str, text: &str) -> Result<(), LineError> {
        for line in text.lines() {
            if !line.is_empty() && !line.starts_with('#') {
                writeln!(self.output, "{file}: fault: in no row: {line}")?;
                self.count(false);
            }
        }
        Ok(())
    }

    /// Plays a row at the counter type `T`, and appends each line that fails to the output.
    fn play_at<T: Counter>(&mut self, row: Row<'_>, counter: &str) -> Result<(), LineError> {
        let (file, (name, _)) = (row.file, row.title());
        let mut table: Table<T> = Table::new(self.alloc)?;
        let mut passes = true;
        for (index, line) in row.text.lines().enumerate().skip(1) {
            if let Some(message) = play_line(self.alloc, &mut table, line)? {
                let number = row.number.saturating_add(index as u64);
                writeln!(self.output, "{file}:{number}: {name} {counter}: {line}")?;
                self.output.push_str(message.as_str())?;
                passes = false;
            }
        }
        // (without this call the prover takes the parts of all tables apart here)
        drop(table);
        self.count(passes);
        Ok(())
    }

    /// Plays a row at each of its counter types.
    fn play_row(&mut self, row: Row<'_>) -> Result<(), LineError> {
        let (name, counters) = row.title();
        for counter in counters.split(' ') {
            match counter {
                "u8" => self.play_at::<u8>(row, counter)?,
                "u16" => self.play_at::<u16>(row, counter)?,
                "u32" => self.play_at::<u32>(row, counter)?,
                "u64" => self.play_at::<u64>(row, counter)?,
                "c12" => self.play_at::<C12>(row, counter)?,
                _ => {
                    write!(self.output, "{}:{}: {name}: ", row.file, row.number)?;
                    writeln!(self.output, "fault: no counter type `{counter}`")?;
                    self.count(false);
                }
            }
        }
        Ok(())
    }

    /// Plays the rows of a file.
    pub fn play(&mut self, file: &str, rows: &str) -> Result<(), LineError> {
        let mut number: u64 = 1;
        for (index, text) in rows.split("\nrow ").enumerate() {
            match text.strip_prefix("row ") {
                Some(text) if index == 0 => self.play_row(Row { file, number, text })?,
                None if index == 0 => self.check_head(file, text)?,
                _ => self.play_row(Row { file, number, text })?,
            }
            number = number.saturating_add(text.split('\n').count() as u64);
        }
        Ok(())
    }
}
