//! Cases of calls that find no memory: `again | FILES` has the room and Ann take the objects of files, one after another. Where a call finds no memory,
//! all texts have to be as they were, and the same call is made once more. `rt ci` refuses none; tests/memory_in_process.py refuses each
//! allocation of a case in turn.

use crate::names::{ANN, ROOM};
use cal_events::Method;
use cal_zones::RoomZone;
use example_cases::answers::{Answers, equality, none};
use example_cases::files::read_all;
use example_cases::spelled::escaped;
use example_cases::{Case, NoAnswer};
use ical_lines::{Fault, cut};
use ical_values::{Address, Stamp, Text};
use itip_messages::Message;
use organiser_books::{Organiser, Outgoing};
use room_books::{Answer, KeptTexts, Room};
use std::alloc::{AllocError, Global};
use std::rt::Files;

/// The moment of each call.
const NOW: &str = "20250102T000000Z";

/// What each call answers, what is kept and shown then, and how many calls were made again.
pub fn again_answer<R: Files + AllocGlobal>(rt: &R, case: Case<'_>) -> Result<String, NoAnswer> {
    let alloc = rt.alloc();
    let octets = read_all(rt, case.input())?;
    let mut hosts = Hosts::new(alloc)?;
    let mut answers = Answers::new(alloc);
    let mut rest = octets.as_slice();
    // there are fewer objects than octets
    for _ in 0..octets.len() {
        let Some(end) = cut(rest) else {
            break;
        };
        let (object, after) = rest.split_at(end);
        let answer = hosts.answer(object)?;
        answers.add(answer.as_str())?;
        rest = after;
    }
    let kept = hosts.room.kept()?;
    answers.add(escaped(alloc, kept.calendar.as_slice())?.as_str())?;
    answers.add(escaped(alloc, kept.certificate.as_slice())?.as_str())?;
    let again = hosts.again;
    answers.add(format!(in alloc; "{again} again")?.as_str())?;
    Ok(answers.finish())
}

/// What came of a message.
#[derive(Drop)]
struct Taken {
    /// What the room answers, or Ann to a refresh.
    answer: Option<Vec<u8>>,
    /// The refresh of the room.
    refresh: Option<Vec<u8>>,
    /// What Ann sends.
    sent: Vec<Outgoing>,
}

/// What both keep and show.
#[derive(Drop)]
struct Texts {
    kept: KeptTexts,
    shown: Option<Vec<u8>>,
}

impl Texts {
    fn are(&self, other: &Texts) -> bool {
        self.kept.calendar.as_slice() == other.kept.calendar.as_slice()
            && self.kept.certificate.as_slice() == other.kept.certificate.as_slice()
            && self.shown.as_deref() == other.shown.as_deref()
    }
}

/// The room and Ann.
#[derive(Drop)]
struct Hosts {
    alloc: Global,
    room: Room,
    organiser: Organiser,
    now: Stamp,
    /// How many calls found no memory, and were made again.
    again: u32,
}

impl Hosts {
    fn new(alloc: Global) -> Result<Hosts, NoAnswer> {
        Ok(Hosts {
            alloc,
            room: Room::new(alloc, Address::read(alloc, ROOM)?, RoomZone::utc()),
            organiser: Organiser::new(alloc, Address::read(alloc, ANN)?),
            now: Stamp::read(NOW)?,
            again: 0,
        })
    }

    /// The octets that are answered to an object; its number where it is refused.
    fn answer(&mut self, object: &[u8]) -> Result<String, NoAnswer> {
        let alloc = self.alloc;
        let message = self.message(object)?;
        let before = self.texts(message.uid())?;
        let first = self.take(&message);
        if !matches!(first, Err(Fault::Memory)) {
            return answer_text(alloc, first);
        }
        self.again = self.again.saturating_add(1);
        let after = self.texts(message.uid())?;
        if !after.are(&before) {
            return Ok(String::from_str(alloc, equality(false))?);
        }
        let second = self.take(&message);
        answer_text(alloc, second)
    }

    /// The message that an object is, read once more where there was no memory.
    fn message(&mut self, object: &[u8]) -> Result<Message, Fault> {
        match Message::read(self.alloc, object) {
            Err(Fault::Memory) => {
                self.again = self.again.saturating_add(1);
                Message::read(self.alloc, object)
            }
            read => read,
        }
    }

    fn texts(&self, uid: &Text) -> Result<Texts, AllocError> {
        Ok(Texts {
            kept: self.room.kept()?,
            shown: self.organiser.text(uid)?,
        })
    }

    fn take(&mut self, message: &Message) -> Result<Taken, Fault> {
        let mut taken = Taken {
            answer: None,
            refresh: None,
            sent: Vec::new(self.alloc),
        };
        match message.method() {
            Method::Store => taken.sent = self.organiser.store(message, self.now)?,
            Method::Reply => self.organiser.take_reply(message)?,
            Method::Refresh => taken.answer = Some(self.organiser.take_refresh(message)?),
            Method::Request | Method::Add | Method::Cancel => {
                let Answer {
                    kind: _,
                    reply,
                    refresh,
                    frees: _,
                } = self.room.take(message, self.now)?;
                taken.answer = reply;
                taken.refresh = refresh;
            }
        }
        Ok(taken)
    }
}

fn answer_text(alloc: Global, taken: Result<Taken, Fault>) -> Result<String, NoAnswer> {
    match taken {
        Ok(taken) => taken_text(alloc, &taken),
        Err(Fault::Refused(refusal)) => Ok(format!(in alloc; "{refusal}")?),
        Err(Fault::Memory) => Err(NoAnswer::Memory),
    }
}

fn taken_text(alloc: Global, taken: &Taken) -> Result<String, NoAnswer> {
    let mut octets = Vec::new(alloc);
    append(&mut octets, &taken.answer)?;
    append(&mut octets, &taken.refresh)?;
    for one in &taken.sent {
        octets.extend_from_slice(one.octets.as_slice())?;
    }
    if octets.is_empty() {
        return Ok(none(alloc)?);
    }
    Ok(escaped(alloc, octets.as_slice())?)
}

fn append(octets: &mut Vec<u8>, object: &Option<Vec<u8>>) -> Result<(), AllocError> {
    match object {
        Some(object) => octets.extend_from_slice(object.as_slice()),
        None => Ok(()),
    }
}
