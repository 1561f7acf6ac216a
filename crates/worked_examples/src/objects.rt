//! Cases of objects that are in files: `object | FILE`, and then steps. With `text | TEXT` the object is spelled, and with `lines | TEXT`
//! it is a REQUEST with a VEVENT of these lines.
//!
//!     kept ROOM               how many singles the calendar has for a room, and their organisers, slots, starts and ends
//!     counted ROOM            how many singles, where the object was read before
//!     series ROOM INSTANT     how many series, and of each its width and its first starts from an instant on
//!     pairs ROOM              each pair of series, and each with itself: how many starts where it is clear, else two that share an instant
//!     clashes ROOM            each pair of series, both ways round: two instances that share an instant, or that it is clear
//!     residues ROOM SECONDS   the residues of the first series modulo so many seconds
//!     answers ROOM            when each event ends, and what the room answered
//!     times                   the start and the length of each VEVENT, in seconds
//!     ends                    the instant at which each VEVENT ends
//!     event                   whether the object is an event with its instances
//!     instances               its first instances
//!     overlap START END       the first that shares an instant with this span
//!     check ROOM TEXT         whether the text is a certificate of the room's calendar
//!     hand-on ROOM TEXT       the same, judged over one that hands on what is drawn, and how many that counted
//!     extend ROOM KEPT TEXT   the certificate that is made where this is an old one: the series' numbers in it, 0 for a new one; or the clash
//!     message                 what the message says
//!     components              how many components the message has, where the object was read before
//!     parts ROOM              the parts for a room
//!     addressed ROOM          whether the message names the room
//!     own-lines SLOT          the own content lines of the VEVENT of the slot, `whole` or an instant

use crate::calendar_files::{
    answered, certified, checked, counted, ends, extended, handed_on, kept, series, times,
};
use crate::event_files::{event, instances, overlap};
use crate::message_files::{addressed, components, message, own_lines, parts};
use crate::series_files::{clashes, first_residues, pairs};
use cal_zones::RoomZone;
use example_cases::answers::Answers;
use example_cases::spelled::octets_of;
use example_cases::words::first_word;
use example_cases::{Case, NoAnswer};
use ical_values::Address;
use std::alloc::Global;

/// The answers of a case whose object is spelled.
pub fn text_answers(alloc: Global, case: Case<'_>) -> Result<String, NoAnswer> {
    let octets = octets_of(alloc, case.input())?;
    answers(alloc, octets.as_slice(), case)
}

/// The answers of a case of one VEVENT.
pub fn line_answers(alloc: Global, case: Case<'_>) -> Result<String, NoAnswer> {
    let lines = octets_of(alloc, case.input())?;
    let mut octets = Vec::new(alloc);
    octets.extend_from_slice(
        b"BEGIN:VCALENDAR\r\nVERSION:2.0\r\nMETHOD:REQUEST\r\nBEGIN:VEVENT\r\n",
    )?;
    octets.extend_from_slice(lines.as_slice())?;
    octets.extend_from_slice(b"\r\nEND:VEVENT\r\nEND:VCALENDAR\r\n")?;
    answers(alloc, octets.as_slice(), case)
}

/// The answers to steps about an object.
pub fn answers(alloc: Global, octets: &[u8], case: Case<'_>) -> Result<String, NoAnswer> {
    let mut answers = Answers::new(alloc);
    for step in case.steps(alloc)? {
        let (call, input) = first_word(step);
        let answer = match (call, input) {
            ("overlap", _) => overlap(alloc, octets, input)?,
            ("own-lines", _) => own_lines(alloc, octets, input)?,
            (_, "") => plain_answer(alloc, octets, call)?,
            _ => room_answer(alloc, octets, call, input)?,
        };
        answers.add(answer.as_str())?;
    }
    Ok(answers.finish())
}

/// The answer to a step of one word.
fn plain_answer(alloc: Global, octets: &[u8], call: &str) -> Result<String, NoAnswer> {
    match call {
        "times" => times(alloc, octets),
        "ends" => ends(alloc, octets),
        "event" => event(alloc, octets),
        "instances" => instances(alloc, octets),
        "message" => message(alloc, octets),
        "components" => components(alloc, octets),
        _ => Err(NoAnswer::Unreadable),
    }
}

/// The answer to a step about a room.
fn room_answer(alloc: Global, octets: &[u8], call: &str, input: &str) -> Result<String, NoAnswer> {
    let (room, text) = first_word(input);
    let room = Address::read(alloc, room)?;
    match call {
        "kept" => kept(alloc, octets, &room),
        "counted" => counted(alloc, octets, &room),
        "series" => series(alloc, octets, &room, text),
        "pairs" => pairs(alloc, octets, &room),
        "clashes" => clashes(alloc, octets, &room),
        "residues" => first_residues(alloc, octets, &room, text),
        "answers" => answered(alloc, octets, &room),
        "check" => checked(alloc, octets, &room, text),
        "make" => certified(alloc, octets, &room),
        "hand-on" => handed_on(alloc, octets, &room, text),
        "extend" => extended(alloc, octets, &room, text),
        "parts" => parts(alloc, octets, &room, &zone_named(alloc, text)?),
        "addressed" => addressed(alloc, octets, &room),
        _ => Err(NoAnswer::Unreadable),
    }
}

/// The zone that words mean; UTC where there are none.
fn zone_named(alloc: Global, words: &str) -> Result<RoomZone, NoAnswer> {
    if words.is_empty() {
        return Ok(RoomZone::utc());
    }
    Ok(RoomZone::read(alloc, words)?)
}
