//! Files of numbers, whose first numbers determine the decimals of a unit.

use crate::begun::{BegunInput, First};
use crate::errors::StatError;
use crate::files::{Files, or_standard_input};
use crate::numbers::{Form, read_input, read_rows_of};
use crate::output::print_error_line;
use hdr_input::distribution::MOST_DECIMALS;
use hdr_input::pieces::LineSink;
use hdr_input::rows::RowSink;
use hdr_input::{InputError, Recording, Survey};
use std::alloc::AllocError;

/// An input that cannot be read again, and its index among the files.
#[derive(Drop)]
struct Pipe<'r> {
    index: usize,
    input: BegunInput<'r>,
}

/// Files of numbers, and how these are recorded.
#[derive(Drop)]
pub(crate) struct NumberFiles<'r, 'l, 'n, 'a, 'b> {
    files: Files<'r, 'l, 'n>,
    form: Form<'a, 'b>,
    /// How numbers are recorded, with the decimals of the survey.
    pub recording: Recording,
    /// The first of the inputs that cannot be read again, until it is read.
    pipe: Option<Pipe<'r>>,
    /// Whether the unit is finer if a later number has more decimals.
    may_be_finer: bool,
    /// Whether all files were read once.
    was_read: bool,
}

impl<'r, 'l, 'n, 'a, 'b> NumberFiles<'r, 'l, 'n, 'a, 'b> {
    /// Surveys the numbers that begin in the first 64 KiB of each file, and of the first input
    /// that cannot be read again, unless the recording has chosen decimals.
    pub(crate) fn new(
        files: Files<'r, 'l, 'n>,
        recording: Recording,
        form: Form<'a, 'b>,
    ) -> Result<NumberFiles<'r, 'l, 'n, 'a, 'b>, StatError> {
        let mut numbers = NumberFiles {
            files,
            form,
            recording,
            pipe: None,
            may_be_finer: false,
            was_read: false,
        };
        if !recording.has_chosen_decimals {
            let survey = numbers.survey_starts()?;
            numbers.recording.decimals = numbers.decimals_by(&survey);
            numbers.may_be_finer = survey.may_be_finer();
        }
        Ok(numbers)
    }

    /// Surveys the first numbers.
    fn survey_starts(&mut self) -> Result<Survey, StatError> {
        let mut survey = Survey::new(self.recording.unit);
        for (index, name) in or_standard_input(self.files.names).iter().enumerate() {
            let can_repeat = self.files.can_repeat(*name);
            if can_repeat || self.pipe.is_none() {
                let input = self.begin(index, *name, First::Lines)?;
                self.survey_lines(index, input.first_lines(), &mut survey)?;
                if !can_repeat {
                    self.pipe = Some(Pipe { index, input });
                }
            }
        }
        Ok(survey)
    }

    /// Opens a file, and reads its first bytes or lines.
    fn begin(&self, index: usize, name: &str, first: First) -> Result<BegunInput<'r>, StatError> {
        let input = self.files.open(name)?;
        BegunInput::new(self.files.alloc(), input, first).map_err(|cause| self
            .files
            .numbers_error(index, cause))
    }

    /// Adds the numbers of the first lines of a file to a survey. A field may begin in them that ends
    /// later.
    fn survey_lines(
        &self,
        index: usize,
        lines: &[u8],
        survey: &mut Survey,
    ) -> Result<(), StatError> {
        match read_input(self.files.alloc(), lines, self.form, survey) {
            Ok(_) | Err(InputError::OpenQuote(_)) => Ok(()),
            Err(cause) => Err(self.files.numbers_error(index, cause)),
        }
    }

    /// Returns the decimals of a unit: those of a survey, or of the expected interval if these are
    /// more, but at most 18.
    fn decimals_by(&self, survey: &Survey) -> u32 {
        survey
            .decimals()
            .max(self.recording.interval.decimals)
            .min(MOST_DECIMALS)
    }

    /// Returns the input of a file, of which no more than its first bytes was read.
    fn input(&mut self, index: usize, name: &str) -> Result<BegunInput<'r>, StatError> {
        match self.pipe.take() {
            Some(pipe) if pipe.index == index => Ok(pipe.input),
            other => {
                self.pipe = other;
                self.begin(index, name, First::Bytes)
            }
        }
    }

    /// Reads the numbers of all files into `sink`.
    pub(crate) fn read_into<S: LineSink + RowSink>(
        &mut self,
        sink: &mut S,
    ) -> Result<(), StatError> {
        for (index, name) in or_standard_input(self.files.names).iter().enumerate() {
            self.read_file_into(index, *name, sink)?;
        }
        self.was_read = true;
        Ok(())
    }

    /// Reads the numbers of the file at an index into `sink`.
    pub(crate) fn read_file_into<S: LineSink + RowSink>(
        &mut self,
        index: usize,
        name: &str,
        sink: &mut S,
    ) -> Result<(), StatError> {
        let input = self.input(index, name)?;
        sink.begin_file();
        let read = read_input(self.files.alloc(), input, self.form, sink);
        self.finish_file(index, read)
    }

    /// Reads the rows of all files into `sink`.
    pub(crate) fn read_rows_into<S: RowSink>(&mut self, sink: &mut S) -> Result<(), StatError> {
        for (index, name) in or_standard_input(self.files.names).iter().enumerate() {
            self.read_file_rows_into(index, *name, sink)?;
        }
        self.was_read = true;
        Ok(())
    }

    /// Reads the rows of the file at an index into `sink`.
    pub(crate) fn read_file_rows_into<S: RowSink>(
        &mut self,
        index: usize,
        name: &str,
        sink: &mut S,
    ) -> Result<(), StatError> {
        let input = self.input(index, name)?;
        sink.begin_file();
        let read = read_rows_of(self.files.alloc(), input, self.form, sink);
        self.finish_file(index, read)
    }

    /// Marks all files as read once.
    pub(crate) fn finish_pass(&mut self) {
        self.was_read = true;
    }

    /// Returns the error of a file that was read. If its first row was taken as names, and no column
    /// was found by its name, this is printed on standard error when it is read first.
    fn finish_file(
        &self,
        index: usize,
        read: Result<Option<String>, InputError>,
    ) -> Result<(), StatError> {
        match read {
            Ok(Some(names)) if !self.was_read => {
                let file = self.files.name(index);
                let line = format!(in self.files.alloc();
                    "hdrstat: {file}: row 1 is taken as names: {names}; --no-header reads it as a row"
                )?;
                print_error_line(self.files.rt, line.as_str());
                Ok(())
            }
            Ok(_) => Ok(()),
            Err(cause) => Err(self.files.numbers_error(index, cause)),
        }
    }

    /// Prints on standard error that no line was chosen, if none was, how many lines were skipped,
    /// and how many numbers were rounded, unless their decimals were chosen.
    pub(crate) fn print_notes(
        &self,
        is_empty: bool,
        skipped: u64,
        rounded: u64,
    ) -> Result<(), AllocError> {
        let rt = self.files.rt;
        if is_empty && skipped == 0 {
            self.print_note_of_none()?;
        }
        if skipped > 0 {
            let _ = eprintln!(rt; "hdrstat: bad lines skipped: {skipped}");
        }
        if rounded == 0 || self.recording.has_chosen_decimals {
            return Ok(());
        }
        let decimals = self.recording.decimals;
        let _ = if rounded == 1 {
            eprintln!(rt; "hdrstat: 1 number has more than {decimals} decimals, and was rounded")
        } else {
            eprintln!(rt;
                "hdrstat: {rounded} numbers have more than {decimals} decimals, and were rounded"
            )
        };
        Ok(())
    }

    /// Prints on standard error that no line was chosen, with the name of the file if there is one
    /// alone.
    fn print_note_of_none(&self) -> Result<(), AllocError> {
        let Some(note) = self.form.note_of_none() else {
            return Ok(());
        };
        let alloc = self.files.alloc();
        let line = if self.files.names.len() <= 1 {
            let file = self.files.name(0);
            format!(in alloc; "hdrstat: {file}: {note}")?
        } else {
            format!(in alloc; "hdrstat: {note}")?
        };
        print_error_line(self.files.rt, line.as_str());
        Ok(())
    }

    /// Surveys all numbers, if some were rounded and the files can be read again. Returns whether
    /// the unit then has more decimals, so that the numbers have to be read again.
    pub(crate) fn becomes_finer(&mut self, rounded: u64) -> Result<bool, StatError> {
        if rounded == 0 || !self.may_be_finer || !self.files.can_repeat_all() {
            return Ok(false);
        }
        self.may_be_finer = false;
        let mut survey = Survey::new(self.recording.unit);
        self.read_into(&mut survey)?;
        let decimals = self.decimals_by(&survey);
        let is_finer = decimals > self.recording.decimals;
        if is_finer {
            self.recording.decimals = decimals;
        }
        Ok(is_finer)
    }
}
