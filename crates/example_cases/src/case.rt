//! One line of a table: `name | call | input | column ..`. How the input reads, and which columns there are, is the call's to say.

use std::alloc::{AllocError, Global};

/// A case.
#[derive(Clone, Copy)]
pub struct Case<'a> {
    line: &'a str,
}

impl<'a> Case<'a> {
    /// The case of a line, None for an empty line or a comment.
    pub fn of(line: &'a str) -> Option<Case<'a>> {
        if line.trim().is_empty() || line.starts_with('#') {
            return None;
        }
        Some(Case { line })
    }

    /// What the case shows.
    pub fn name(self) -> &'a str {
        self.column(0)
    }

    pub fn call(self) -> &'a str {
        self.column(1)
    }

    pub fn input(self) -> &'a str {
        self.column(2)
    }

    /// The column of that place, from 0. A line that has no such column has no text in it.
    pub fn column(self, place: usize) -> &'a str {
        self.line.split('|').nth(place).unwrap_or("").trim()
    }

    /// The columns after the input: steps or questions.
    pub fn steps(self, alloc: Global) -> Result<Vec<&'a str>, AllocError> {
        self.columns_from(alloc, 3)
    }

    /// The columns from that place on.
    pub fn columns_from(self, alloc: Global, place: usize) -> Result<Vec<&'a str>, AllocError> {
        let mut columns = Vec::new(alloc);
        for column in self.line.split('|').skip(place) {
            columns.push(column.trim())?;
        }
        Ok(columns)
    }
}
