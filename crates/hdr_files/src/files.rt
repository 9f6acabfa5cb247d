//! The files of the arguments, read one after another.

use crate::errors::StatError;
use crate::progress::Progress;
use hdr_input::InputError;
use std::alloc::Global;
use std::fs::{self, File};
use std::io::{self, Read, Stdin};

/// The files of an argument. A file `-` is standard input, which is also read without any.
#[derive(Clone, Copy)]
pub struct Files<'r, 'l, 'n> {
    pub rt: &'r HostRuntime,
    pub names: &'l [&'n str],
    /// Whether no progress is shown.
    pub is_quiet: bool,
}

impl<'r, 'l, 'n> Files<'r, 'l, 'n> {
    /// Opens the files one after another, and reads each of them with its index.
    pub fn read_each<F: FnMut(usize, Input<'r>) -> Result<(), StatError>>(
        self,
        mut read: F,
    ) -> Result<(), StatError>
        requires { F.IsAlwaysCallable read }
    {
        for (index, name) in or_standard_input(self.names).iter().enumerate() {
            read(index, self.open(*name)?)?;
        }
        Ok(())
    }

    /// Opens a file.
    pub(crate) fn open(self, name: &str) -> Result<Input<'r>, StatError> {
        if name == "-" {
            return Ok(Input::Standard(self.rt.stdin()));
        }
        match File::open(self.rt, name) {
            Ok(file) => {
                let progress = Progress::new(self.rt, self.is_quiet, length_of(&file));
                Ok(Input::File(file, progress))
            }
            Err(cause) => Err(StatError::file(self.alloc(), name, cause)),
        }
    }

    /// Whether a file can be read more than once.
    pub(crate) fn can_repeat(self, name: &str) -> bool {
        name != "-" && fs::metadata(self.rt, name).is_ok_and(|metadata| metadata.is_file())
    }

    /// Whether all files can be read more than once.
    pub fn can_repeat_all(self) -> bool {
        or_standard_input(self.names)
            .iter()
            .all(|name| self.can_repeat(*name))
    }

    /// Whether there is one input, which cannot be read again, as a pipe.
    pub fn is_one_pipe(self) -> bool {
        or_standard_input(self.names).len() == 1 && !self.can_repeat_all()
    }

    /// Returns the error of numbers that are not read.
    pub(crate) fn numbers_error(self, index: usize, cause: InputError) -> StatError {
        StatError::numbers(self.alloc(), self.name(index), cause)
    }

    /// Returns the name of the file at an index, as it is shown.
    pub(crate) fn name(self, index: usize) -> &'n str {
        match self.names.get(index).copied() {
            Some(name) if name != "-" => name,
            _ => "standard input",
        }
    }

    /// Returns the allocator.
    pub fn alloc(self) -> Global {
        self.rt.alloc()
    }
}

/// Returns the length of a regular file, and none of a pipe or a device.
fn length_of(file: &File) -> Option<u64> {
    let metadata = file.metadata().ok()?;
    metadata.is_file().then_some(metadata.len())
}

/// Returns names, or that of standard input if there are none.
pub(crate) fn or_standard_input<'a, 'n>(names: &'a [&'n str]) -> &'a [&'n str] {
    if names.is_empty() { &["-"] } else { names }
}

/// An open file.
#[derive(Drop)]
pub enum Input<'a> {
    Standard(Stdin),
    File(File, Option<Progress<'a>>),
}

impl Read for Input<'_> {
    fn read(&mut self, buffer: &mut [u8]) -> io::Result<usize> {
        let count = match self {
            Input::Standard(stdin) => stdin.read(buffer)?,
            Input::File(file, _) => file.read(buffer)?,
        };
        if let Input::File(_, Some(progress)) = self {
            progress.add(count);
        }
        Ok(count)
    }
}
