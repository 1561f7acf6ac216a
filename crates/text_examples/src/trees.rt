//! Cases of trees: an object is read, and each question after it is answered.

use crate::lines::push_line;
use example_cases::answers::{Answers, none, yes_or_no};
use example_cases::spelled::{octets_of, shown};
use example_cases::{Case, NoAnswer};
use ical_lines::{Limits, Unfolded};
use ical_tree::{Component, read_object, write_object};
use std::alloc::{AllocError, Global};

pub fn answer(alloc: Global, case: Case<'_>) -> Result<String, NoAnswer> {
    match case.call() {
        "read object" => read(alloc, case, Limits::Message),
        "read object without limits" => read(alloc, case, Limits::Open),
        _ => Err(NoAnswer::Unreadable),
    }
}

/// `read`, and what is answered to each question.
fn read(alloc: Global, case: Case<'_>, limits: Limits) -> Result<String, NoAnswer> {
    let octets = octets_of(alloc, case.input())?;
    let text = Unfolded::read(alloc, octets.as_slice(), limits)?;
    let object = read_object(alloc, &text, limits)?;
    answers_of(alloc, &object, case)
}

fn answers_of(alloc: Global, object: &Component, case: Case<'_>) -> Result<String, NoAnswer> {
    let mut answers = Answers::new(alloc);
    answers.add("read")?;
    for question in case.steps(alloc)? {
        let answer = answer_of(alloc, object, question)?;
        answers.add(answer.as_str())?;
    }
    Ok(answers.finish())
}

fn answer_of(alloc: Global, object: &Component, question: &str) -> Result<String, NoAnswer> {
    match question {
        "write" => Ok(shown(alloc, written(alloc, object)?.as_slice())?),
        "write, read and write" => written_again(alloc, object),
        _ => Ok(answer_of_component(alloc, object, question)?),
    }
}

/// Of the object, or of its first component where the question begins so.
fn answer_of_component(
    alloc: Global,
    object: &Component,
    question: &str,
) -> Result<String, AllocError> {
    match question.strip_prefix("child ") {
        None => answer_of_parts(alloc, object, question),
        Some(asked) => match object.children().first() {
            Some(child) => answer_of_parts(alloc, child, asked),
            None => none(alloc),
        },
    }
}

fn answer_of_parts(
    alloc: Global,
    component: &Component,
    question: &str,
) -> Result<String, AllocError> {
    if let Some(name) = question.strip_prefix("is ") {
        return String::from_str(alloc, yes_or_no(component.is_named(name)));
    }
    match question {
        "name" => shown(alloc, component.name().as_bytes()),
        "children" => format!(in alloc; "{}", component.children().len()),
        _ => own_lines(alloc, component),
    }
}

fn own_lines(alloc: Global, component: &Component) -> Result<String, AllocError> {
    let mut text = String::new(alloc);
    let mut count = 0u64;
    for line in component.lines() {
        count = count.saturating_add(1);
        push_line(&mut text, line)?;
    }
    format!(in alloc; "{count}:{text}")
}

fn written(alloc: Global, object: &Component) -> Result<Vec<u8>, AllocError> {
    let mut out = Vec::new(alloc);
    write_object(object, &mut out)?;
    Ok(out)
}

/// What is written of the object that reads from what is written of this one.
fn written_again(alloc: Global, object: &Component) -> Result<String, NoAnswer> {
    let out = written(alloc, object)?;
    let text = Unfolded::read(alloc, out.as_slice(), Limits::Open)?;
    let again = read_object(alloc, &text, Limits::Open)?;
    Ok(shown(alloc, written(alloc, &again)?.as_slice())?)
}
