//! The names of files in tags.

use crate::errors::StatError;
use crate::files::or_standard_input;
use hdr_logs::name_in_tags;
use hdrhistogram::serialization::interval_log::Tag;
use std::alloc::{AllocError, Global};
use std::collections::HashSet;

/// The name of standard input in tags.
const STANDARD_INPUT: &str = "stdin";

/// The names of files in tags, or none if tags are not by file.
#[derive(Drop)]
pub struct FileNames {
    names: Vec<String>,
}

impl FileNames {
    /// Returns no names.
    pub fn none(alloc: Global) -> FileNames {
        FileNames {
            names: Vec::new(alloc),
        }
    }

    /// Returns the names of files, which all differ: the last part of each path, or as many of the
    /// last parts as make a difference.
    ///
    /// # Errors
    /// Returns a usage error if two paths with all of their parts have the same name in tags.
    pub fn new(alloc: Global, paths: &[&str]) -> Result<FileNames, StatError> {
        let paths = or_standard_input(paths);
        let most = paths
            .iter()
            .map(|path| count_parts(*path))
            .max()
            .unwrap_or(1);
        let mut last = None;
        for parts in 1..=most {
            let names = names_of(alloc, paths, parts)?;
            last = first_double(alloc, &names)?;
            if last.is_none() {
                return Ok(FileNames { names });
            }
        }
        let path = last
            .and_then(|index| paths.get(index))
            .copied()
            .unwrap_or("-");
        let why = "has the same name in tags as another file; rename one of them, or leave it out";
        Err(StatError::usage(alloc, path, why))
    }

    /// Returns the name of the file at an index, if tags are by file.
    pub fn name(&self, index: usize) -> Option<Tag<'_>> {
        Tag::new(self.names.get(index)?.as_str())
    }
}

/// Returns the names of files in tags by this number of the last parts of their paths.
fn names_of(alloc: Global, paths: &[&str], parts: usize) -> Result<Vec<String>, AllocError> {
    let mut names = Vec::new(alloc);
    for path in paths {
        let path = if *path == "-" { STANDARD_INPUT } else { *path };
        names.push(name_in_tags(alloc, last_parts(path, parts))?)?;
    }
    Ok(names)
}

/// Returns the number of parts of a path, which slashes separate.
fn count_parts(path: &str) -> usize {
    path.split('/').count()
}

/// Returns the last parts of a path, or all of them if it has fewer.
fn last_parts<'a>(path: &'a str, parts: usize) -> &'a str {
    let mut end = path;
    for _ in parts..count_parts(path) {
        if let Some((_, rest)) = end.split_once('/') {
            end = rest;
        }
    }
    end
}

/// Returns the index of the first name that is also one before it.
fn first_double(alloc: Global, names: &[String]) -> Result<Option<usize>, StatError> {
    let mut before = HashSet::new(alloc);
    for (index, name) in names.iter().enumerate() {
        if !before.insert(name.as_str())? {
            return Ok(Some(index));
        }
    }
    Ok(None)
}
