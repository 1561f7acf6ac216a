//! Cases of content lines. `read` answers each question after the input, of all lines or of the first one.

use example_cases::answers::{Answers, none, yes_or_no};
use example_cases::spelled::{octets_of, shown, text_of};
use example_cases::{Case, NoAnswer};
use ical_lines::{Cutter, Limits, Line, Lines, Unfolded, cut, write_line, write_property};
use std::alloc::{AllocError, Global};

pub fn answer(alloc: Global, case: Case<'_>) -> Result<String, NoAnswer> {
    match case.call() {
        "read" => read(alloc, case, Limits::Message),
        "read without limits" => read(alloc, case, Limits::Open),
        "write line" => written_line(alloc, case),
        "write property" => written_property(alloc, case),
        "cut" => first_end(alloc, case),
        "feed" => fed(alloc, case),
        _ => Err(NoAnswer::Unreadable),
    }
}

/// `read`, and what is answered to each question.
fn read(alloc: Global, case: Case<'_>, limits: Limits) -> Result<String, NoAnswer> {
    let octets = octets_of(alloc, case.input())?;
    let read = Unfolded::read(alloc, octets.as_slice(), limits)?;
    answers_of(alloc, &read, case)
}

fn answers_of(alloc: Global, read: &Unfolded, case: Case<'_>) -> Result<String, NoAnswer> {
    let mut answers = Answers::new(alloc);
    answers.add("read")?;
    for question in case.steps(alloc)? {
        let answer = answer_of(alloc, read, question)?;
        answers.add(answer.as_str())?;
    }
    Ok(answers.finish())
}

fn answer_of(alloc: Global, read: &Unfolded, question: &str) -> Result<String, NoAnswer> {
    match question {
        "lines" => Ok(all(alloc, read.lines())?),
        "lines of a copy" => all_of_copy(alloc, read.lines()),
        _ => match read.lines().next() {
            Some(line) => Ok(answer_of_line(alloc, line, question)?),
            None => Ok(none(alloc)?),
        },
    }
}

fn answer_of_line(alloc: Global, line: Line<'_>, question: &str) -> Result<String, AllocError> {
    if let Some(name) = question.strip_prefix("is ") {
        return String::from_str(alloc, yes_or_no(line.is_named(name)));
    }
    let name = question.strip_prefix("parameter ").unwrap_or("");
    match line.param(name) {
        Some(value) => shown(alloc, value.as_bytes()),
        None => none(alloc),
    }
}

/// The lines that read from what is written of these, one by one.
fn all_of_copy(alloc: Global, lines: Lines<'_>) -> Result<String, NoAnswer> {
    let mut octets = Vec::new(alloc);
    for line in lines {
        write_line(&mut octets, line.text())?;
    }
    let copy = Unfolded::read(alloc, octets.as_slice(), Limits::Open)?;
    Ok(all(alloc, copy.lines())?)
}

/// How many lines there are, and each line's parts.
fn all(alloc: Global, lines: Lines<'_>) -> Result<String, AllocError> {
    let mut text = String::new(alloc);
    let mut count = 0u64;
    for line in lines {
        count = count.saturating_add(1);
        push_line(&mut text, line)?;
    }
    format!(in alloc; "{count}:{text}")
}

/// A line: its name, its parameters and its value.
pub fn push_line(text: &mut String, line: Line<'_>) -> Result<(), AllocError> {
    let name = line.name();
    let value = line.value();
    write!(text, " {name}")?;
    for param in line.params() {
        let param_name = param.name;
        let param_value = param.value;
        write!(text, " ({param_name} is {param_value:?})")?;
    }
    write!(text, " {value:?}")
}

fn written_line(alloc: Global, case: Case<'_>) -> Result<String, NoAnswer> {
    let text = text_of(alloc, case.input())?;
    let mut out = Vec::new(alloc);
    write_line(&mut out, text.as_str())?;
    Ok(shown(alloc, out.as_slice())?)
}

/// What is written of a property's name and value, the columns 2 and 3.
fn written_property(alloc: Global, case: Case<'_>) -> Result<String, NoAnswer> {
    let name = text_of(alloc, case.input())?;
    let value = text_of(alloc, case.column(3))?;
    let mut out = Vec::new(alloc);
    write_property(&mut out, name.as_str(), value.as_str())?;
    Ok(shown(alloc, out.as_slice())?)
}

/// Where what follows the first object begins.
fn first_end(alloc: Global, case: Case<'_>) -> Result<String, NoAnswer> {
    let octets = octets_of(alloc, case.input())?;
    Ok(match cut(octets.as_slice()) {
        Some(end) => format!(in alloc; "{end}")?,
        None => none(alloc)?,
    })
}

/// Feeds a cutter with the columns from 2 on: what it says of each octet, and whether an object has begun before each
/// column and at the end.
fn fed(alloc: Global, case: Case<'_>) -> Result<String, NoAnswer> {
    let mut cutter = Cutter::new();
    let mut told = String::from_str(alloc, state_of(&cutter))?;
    for column in case.columns_from(alloc, 2)? {
        for octet in octets_of(alloc, column)?.as_slice() {
            let said = if cutter.feed(*octet) { " ended" } else { " on" };
            told.push_str(said)?;
        }
        told.push_str(" | ")?;
        told.push_str(state_of(&cutter))?;
    }
    Ok(told)
}

fn state_of(cutter: &Cutter) -> &'static str {
    if cutter.has_begun() { "begun" } else { "empty" }
}
