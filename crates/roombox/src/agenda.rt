//! `agenda`: what a room has confirmed in a span of time, or when it is free.

use crate::host::{ErrorPrinter, read_file, read_room, read_zone, refuse_word, report_file};
use cal_agenda::PageSpan;
use cal_events::Span;
use cal_zones::Zone;
use command_line::{Agenda, BadWord, Form};
use ical_values::{Address, Stamp};
use sched_box::{DeviceWriter, Output};
use sched_cli::{run_agenda, run_free, run_page, run_published};
use std::alloc::Global;
use std::io;
use std::rt::Runtime;

/// 10000-01-01T00:00:00Z: where a span ends that has no `--until`. Nothing is confirmed from then on.
const LAST: i64 = 253_402_300_800;

/// What is asked, once its words are read.
#[derive(Clone, Copy)]
enum Question {
    Lines(Span),
    Free(Span),
    Object { from: Stamp, until: i64 },
    Page(PageSpan),
}

/// A question about a room, by the clocks of a zone where one is given.
struct Asked<'a> {
    room: &'a Address,
    zone: Option<Zone>,
    question: Question,
}

/// Prints what the calendar of a file confirms for a room in a span, or when the room is free there.
pub(crate) fn invoke_agenda<R: Runtime + AllocGlobal>(
    rt: &R,
    alloc: Global,
    agenda: Agenda<'_>,
) -> u8 {
    let room = match read_room(rt, alloc, agenda.room) {
        Ok(room) => room,
        Err(status) => return status,
    };
    let question = match question_of(agenda) {
        Ok(question) => question,
        Err(word) => return refuse_word(rt, alloc, word),
    };
    let zone = match zone_of(rt, alloc, agenda.zone) {
        Ok(zone) => zone,
        Err(status) => return status,
    };
    let mut errors = DeviceWriter::new(ErrorPrinter { to: rt });
    let calendar = match read_file(rt, alloc, agenda.calendar) {
        Ok(octets) => octets,
        Err(fault) => return report_file(rt, alloc, agenda.calendar, fault),
    };
    let asked = Asked {
        room: &room,
        zone,
        question,
    };
    let mut writer = DeviceWriter::new(io::writer(rt));
    let status = answer(alloc, calendar.as_slice(), asked, &mut writer, &mut errors);
    // Without an end or a beginning there is no question that the status could answer.
    if status == NOT_FREE && (agenda.from.is_none() || agenda.until.is_none()) {
        return 0;
    }
    status
}

/// The status where something is confirmed in the span.
const NOT_FREE: u8 = 1;

/// Prints what is asked of a calendar.
fn answer<W: Output, E: Output>(
    alloc: Global,
    calendar: &[u8],
    asked: Asked<'_>,
    writer: &mut W,
    errors: &mut E,
) -> u8 {
    let Asked {
        room,
        zone,
        question,
    } = asked;
    match question {
        Question::Lines(span) => run_agenda(alloc, calendar, room, span, zone, writer, errors),
        Question::Free(span) => run_free(alloc, calendar, room, span, zone, writer, errors),
        Question::Object { from, until } => {
            run_published(alloc, calendar, room, from, until, writer, errors)
        }
        Question::Page(span) => run_page(alloc, calendar, room, span, zone, writer, errors),
    }
}

/// What the words ask; else the word that is wrong.
fn question_of<'a>(agenda: Agenda<'a>) -> Result<Question, BadWord<'a>> {
    let (from, until) = match span_of(agenda) {
        Ok(span) => span,
        Err(word) => return Err(word),
    };
    let span = Span {
        start: from.instant(),
        end: until,
    };
    match agenda.form {
        Form::Lines => Ok(Question::Lines(span)),
        Form::Free => Ok(Question::Free(span)),
        Form::Object => Ok(Question::Object { from, until }),
        Form::Page => match PageSpan::of(span) {
            Some(span) => Ok(Question::Page(span)),
            None => Err(BadWord::PageSpan(agenda.until.unwrap_or(""))),
        },
    }
}

/// The span of the words, from the first and before the second; else the one that is wrong.
fn span_of<'a>(agenda: Agenda<'a>) -> Result<(Stamp, i64), BadWord<'a>> {
    let from = match agenda.from {
        Some(word) => Stamp::read(word).map_err(|_| BadWord::From(word))?,
        None => Stamp::least(),
    };
    let Some(word) = agenda.until else {
        return Ok((from, LAST));
    };
    match Stamp::read(word) {
        Ok(until) if from < until => Ok((from, until.instant())),
        _ => Err(BadWord::Until(word)),
    }
}

/// The zone of the words, if there are any; else the status of a usage fault.
fn zone_of<R: Runtime + AllocGlobal>(
    rt: &R,
    alloc: Global,
    words: Option<&str>,
) -> Result<Option<Zone>, u8> {
    let Some(words) = words else {
        return Ok(None);
    };
    Ok(Some(read_zone(rt, alloc, words)?.zone()))
}
