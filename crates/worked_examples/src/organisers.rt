//! Cases of an organiser: Ann, who takes objects one after another.
//!
//!     shown | OBJECTS | UID               what she shows of a meeting then; the objects are spelled
//!     seen | FILES | UID ROOM             what she sees of the room's answer for the whole meeting, after each of the files
//!     large | VEVENTS ATTENDEES           how many octets she sends where she stores this many VEVENTs with this many attendees each, and what a box
//!                                         answers where these are fed back

use crate::names::ANN;
use cal_events::{Method, PartStat};
use example_cases::answers::{Answers, none};
use example_cases::files::read_all;
use example_cases::spelled::{escaped, octets_of};
use example_cases::words::{count, first_word};
use example_cases::{Case, NoAnswer};
use ical_lines::{Fault, cut};
use ical_values::{Address, Stamp, Text};
use itip_messages::Message;
use itip_order::Slot;
use organiser_books::{Organiser, Outgoing};
use sched_box::serve_stream;
use std::alloc::{AllocError, Global};
use std::rt::Files;

/// The moment at which she stores.
const NOW: &str = "20250102T000000Z";

/// What is shown of a meeting, and `none` where it isn't known.
pub fn shown_answer(alloc: Global, case: Case<'_>) -> Result<String, NoAnswer> {
    let octets = octets_of(alloc, case.input())?;
    let mut organiser = ann(alloc)?;
    take_all(alloc, &mut organiser, octets.as_slice())?;
    let uid = Text::of(alloc, case.column(3))?;
    match organiser.text(&uid)? {
        Some(text) => Ok(escaped(alloc, text.as_slice())?),
        None => Ok(none(alloc)?),
    }
}

/// What is seen of a room's answer after each file.
pub fn seen_answer<R: Files + AllocGlobal>(rt: &R, case: Case<'_>) -> Result<String, NoAnswer> {
    let alloc = rt.alloc();
    let (uid, room) = first_word(case.column(3));
    let uid = Text::of(alloc, uid)?;
    let room = Address::read(alloc, room)?;
    let mut organiser = ann(alloc)?;
    let mut answers = Answers::new(alloc);
    for name in case.input().split_whitespace() {
        let octets = read_all(rt, name)?;
        take_all(alloc, &mut organiser, octets.as_slice())?;
        answers.add(word_of(organiser.seen(&uid, Slot::Whole, &room)))?;
    }
    Ok(answers.finish())
}

fn word_of(status: Option<PartStat>) -> &'static str {
    match status {
        Some(PartStat::NeedsAction) => "needs action",
        Some(PartStat::Tentative) => "tentative",
        Some(PartStat::Accepted) => "accepted",
        Some(PartStat::Delegated) => "delegated",
        Some(PartStat::Declined) => "declined",
        None => "none",
    }
}

fn ann(alloc: Global) -> Result<Organiser, NoAnswer> {
    Ok(Organiser::new(alloc, Address::read(alloc, ANN)?))
}

/// She takes objects that follow one another. One that is refused changes nothing.
fn take_all(alloc: Global, organiser: &mut Organiser, octets: &[u8]) -> Result<(), NoAnswer> {
    let mut rest = octets;
    // there are fewer objects than octets
    for _ in 0..octets.len() {
        let Some(end) = cut(rest) else {
            return Ok(());
        };
        let (object, after) = rest.split_at(end);
        match take(alloc, organiser, object) {
            Ok(()) | Err(Fault::Refused(_)) => rest = after,
            Err(Fault::Memory) => return Err(NoAnswer::Memory),
        }
    }
    Ok(())
}

fn take(alloc: Global, organiser: &mut Organiser, octets: &[u8]) -> Result<(), Fault> {
    let message = Message::read(alloc, octets)?;
    match message.method() {
        Method::Store => {
            sent(organiser, &message)?;
            Ok(())
        }
        Method::Reply => organiser.take_reply(&message),
        Method::Refresh => {
            organiser.take_refresh(&message)?;
            Ok(())
        }
        Method::Request | Method::Add | Method::Cancel => Ok(()),
    }
}

fn sent(organiser: &mut Organiser, object: &Message) -> Result<Vec<Outgoing>, Fault> {
    let now = Stamp::read(NOW)?;
    organiser.store(object, now)
}

/// How much is sent of a large meeting, and what is answered where it comes back.
pub fn large_answer(alloc: Global, case: Case<'_>) -> Result<String, NoAnswer> {
    let (events, attendees) = first_word(case.input());
    let store = large_store(alloc, count(events)?, count(attendees)?)?;
    let mut organiser = ann(alloc)?;
    let object = Message::read(alloc, store.as_slice())?;
    let outgoing = sent(&mut organiser, &object)?;
    let mut stream = Vec::from_slice(
        alloc,
        b"now 20250102T000000Z\nroom mailto:r1@example.com\n\n",
    )?;
    let mut octets: usize = 0;
    let mut receivers: usize = 0;
    for one in outgoing.iter() {
        octets = octets.saturating_add(one.octets.len());
        receivers = receivers.saturating_add(one.to.len());
        stream.extend_from_slice(one.octets.as_slice())?;
    }
    let mut reader = stream.as_slice();
    let mut written = Vec::new(alloc);
    if serve_stream(alloc, &mut reader, &mut written).is_err() {
        return Err(NoAnswer::Unreadable);
    }
    let text = escaped(alloc, written.as_slice())?;
    let objects = outgoing.len();
    Ok(format!(in alloc; "{objects} objects, {octets} octets, to {receivers} | {text}")?)
}

/// A store with the whole meeting and instances of it from the second day on, each with the same attendees.
fn large_store(alloc: Global, events: u32, attendees: u32) -> Result<Vec<u8>, AllocError> {
    let mut store = Vec::from_slice(alloc, b"BEGIN:VCALENDAR\r\nVERSION:2.0\r\n")?;
    for number in 0..events {
        store.extend_from_slice(b"BEGIN:VEVENT\r\nUID:s\r\nDTSTAMP:20250101T000000Z\r\n")?;
        store.extend_from_slice(b"ORGANIZER:mailto:ann@example.com\r\nDURATION:PT1M\r\n")?;
        let (hour, minute) = (number / 60, number % 60);
        let start = format!(in alloc; "20250401T{hour:02}{minute:02}00Z")?;
        let lines = if number == 0 {
            format!(in alloc; "DTSTART:{start}\r\n")?
        } else {
            format!(in alloc; "DTSTART:{start}\r\nRECURRENCE-ID:{start}\r\n")?
        };
        store.extend_from_slice(lines.as_bytes())?;
        for attendee in 0..attendees {
            let line = format!(in alloc; "ATTENDEE:mailto:r{attendee}@example.com\r\n")?;
            store.extend_from_slice(line.as_bytes())?;
        }
        store.extend_from_slice(b"END:VEVENT\r\n")?;
    }
    store.extend_from_slice(b"END:VCALENDAR\r\n")?;
    Ok(store)
}
