//! Cases of messages, calendars and certificates, of parts and of streams.

use crate::{again, calendars, called, certificates, objects, organisers, parts, streams, written};
use example_cases::files::read_all;
use example_cases::{Case, NoAnswer};
use std::rt::Files;

pub fn answer<R: Files + AllocGlobal>(rt: &R, case: Case<'_>) -> Result<String, NoAnswer> {
    let alloc = rt.alloc();
    match case.call() {
        "events" => calendars::answers(alloc, case),
        "spans" => calendars::span_answer(alloc, case),
        "certificate" => certificates::read_answer(alloc, case),
        "certificate-of" => certificates::write_answer(alloc, case),
        "held" => parts::answers(alloc, case),
        "text" => objects::text_answers(alloc, case),
        "lines" => objects::line_answers(alloc, case),
        "decline" => written::decline_answer(alloc, case),
        "writer" => written::writer_answer(alloc, case),
        "long" => streams::long_answer(alloc, case),
        "large" => organisers::large_answer(alloc, case),
        "shown" => organisers::shown_answer(alloc, case),
        "seen" => organisers::seen_answer(rt, case),
        "again" => again::again_answer(rt, case),
        "called" => called::called_answer(rt, case),
        _ => answer_of_files(rt, case),
    }
}

/// The answer of a case whose input is names of files.
fn answer_of_files<R: Files + AllocGlobal>(rt: &R, case: Case<'_>) -> Result<String, NoAnswer> {
    let octets = read_all(rt, case.input())?;
    match case.call() {
        "object" => objects::answers(rt.alloc(), octets.as_slice(), case),
        "keep" => streams::keep_answer(rt.alloc(), octets.as_slice()),
        _ => Err(NoAnswer::Unreadable),
    }
}
