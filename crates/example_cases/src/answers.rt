//! The answers of a case, and the words that several of them take.

use crate::case::Case;
use crate::no_answer::NoAnswer;
use std::alloc::{AllocError, Global};
use std::io;

/// Prints a case's name, and its answer or why it has none.
pub fn print_answer<R: Print>(
    rt: &R,
    case: Case<'_>,
    answer: Result<String, NoAnswer>,
) -> io::Result<()> {
    match answer {
        Ok(answer) => println!(rt; "{}: {answer}", case.name()),
        Err(no_answer) => println!(rt; "{}: {no_answer}", case.name()),
    }
}

/// What is printed of a case: its answers, with ` | ` between them.
#[derive(Drop)]
pub struct Answers {
    text: String,
}

impl Answers {
    pub fn new(alloc: Global) -> Answers {
        Answers {
            text: String::new(alloc),
        }
    }

    pub fn add(&mut self, answer: &str) -> Result<(), AllocError> {
        append(&mut self.text, " | ", answer)
    }

    pub fn finish(self) -> String {
        self.text
    }
}

/// Appends an item to a list.
pub fn append(list: &mut String, between: &str, item: &str) -> Result<(), AllocError> {
    if !list.is_empty() {
        list.push_str(between)?;
    }
    list.push_str(item)
}

/// What is said of a question.
pub fn yes_or_no(is: bool) -> &'static str {
    if is { "yes" } else { "no" }
}

/// What is said where there is nothing.
pub fn none(alloc: Global) -> Result<String, AllocError> {
    String::from_str(alloc, "none")
}

/// What is said of two values that are to be the same.
pub fn equality(equal: bool) -> &'static str {
    if equal { "equal" } else { "different" }
}
