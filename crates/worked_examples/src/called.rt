//! Cases of calls with objects of any METHOD: `called | FILES | CALLS` makes for each file one call with its object: `take` of the room, or `store`,
//! `take_reply` or `take_refresh` of Ann. It says what came of each call, and whether what the two keep is still the same octets.

use crate::names::{ANN, ROOM};
use cal_zones::RoomZone;
use example_cases::answers::Answers;
use example_cases::files::read_all;
use example_cases::{Case, NoAnswer};
use ical_lines::Fault;
use ical_values::{Address, Stamp};
use itip_messages::Message;
use organiser_books::Organiser;
use room_books::{Answer, KeptTexts, Kind, Room};
use std::alloc::{AllocError, Global};
use std::rt::Files;

/// The moment of each call.
const NOW: &str = "20250102T000000Z";

/// What came of each call.
pub fn called_answer<R: Files + AllocGlobal>(rt: &R, case: Case<'_>) -> Result<String, NoAnswer> {
    let mut hosted = Hosted::new(rt.alloc())?;
    let mut answers = Answers::new(rt.alloc());
    let mut calls = case.column(3).split_whitespace();
    for name in case.input().split_whitespace() {
        let word = calls.next();
        let answer = called(rt, &mut hosted, name, word)?;
        answers.add(answer.as_str())?;
    }
    match calls.next() {
        Some(_) => Err(NoAnswer::Unreadable),
        None => Ok(answers.finish()),
    }
}

/// What came of the call of that name with the object of a file.
fn called<R: Files + AllocGlobal>(
    rt: &R,
    hosted: &mut Hosted,
    name: &str,
    word: Option<&str>,
) -> Result<String, NoAnswer> {
    let call = Call::named(word)?;
    let octets = read_all(rt, name)?;
    let message = Message::read(rt.alloc(), octets.as_slice())?;
    hosted.answer(call, &message)
}

/// A call that gets a message.
#[derive(Clone, Copy)]
enum Call {
    Take,
    Store,
    TakeReply,
    TakeRefresh,
}

impl Call {
    fn named(word: Option<&str>) -> Result<Call, NoAnswer> {
        match word {
            Some("take") => Ok(Call::Take),
            Some("store") => Ok(Call::Store),
            Some("take_reply") => Ok(Call::TakeReply),
            Some("take_refresh") => Ok(Call::TakeRefresh),
            _ => Err(NoAnswer::Unreadable),
        }
    }
}

/// The room and Ann, to whom any message may come.
#[derive(Drop)]
struct Hosted {
    alloc: Global,
    room: Room,
    ann: Organiser,
    now: Stamp,
}

impl Hosted {
    fn new(alloc: Global) -> Result<Hosted, NoAnswer> {
        Ok(Hosted {
            alloc,
            room: Room::new(alloc, Address::read(alloc, ROOM)?, RoomZone::utc()),
            ann: Organiser::new(alloc, Address::read(alloc, ANN)?),
            now: Stamp::read(NOW)?,
        })
    }

    /// What came of a call, and whether it changed what the two keep.
    fn answer(&mut self, call: Call, message: &Message) -> Result<String, NoAnswer> {
        let alloc = self.alloc;
        let before = self.kept()?;
        let came = self.came(call, message)?;
        let after = self.kept()?;
        let change = if after.as_slice() == before.as_slice() {
            "unchanged"
        } else {
            "changed"
        };
        Ok(format!(in alloc; "{came}, {change}")?)
    }

    /// The room's calendar and its certificate, and the texts of Ann's meetings.
    fn kept(&self) -> Result<Vec<u8>, AllocError> {
        let KeptTexts {
            calendar,
            certificate,
        } = self.room.kept()?;
        let mut octets = calendar;
        octets.extend_from_slice(certificate.as_slice())?;
        let meetings = self.ann.texts()?;
        octets.extend_from_slice(meetings.as_slice())?;
        Ok(octets)
    }

    /// What came of a call; of one that is refused its number.
    fn came(&mut self, call: Call, message: &Message) -> Result<String, NoAnswer> {
        let alloc = self.alloc;
        match self.made(call, message) {
            Ok(words) => Ok(words),
            Err(Fault::Refused(refusal)) => Ok(format!(in alloc; "{refusal}")?),
            Err(Fault::Memory) => Err(NoAnswer::Memory),
        }
    }

    /// Makes a call, whatever METHOD the message has.
    fn made(&mut self, call: Call, message: &Message) -> Result<String, Fault> {
        let alloc = self.alloc;
        match call {
            Call::Take => {
                let answer = self.room.take(message, self.now)?;
                Ok(answer_text(alloc, &answer)?)
            }
            Call::Store => {
                let sent = self.ann.store(message, self.now)?;
                let objects = sent.len();
                Ok(format!(in alloc; "{objects} sent")?)
            }
            Call::TakeReply => {
                self.ann.take_reply(message)?;
                Ok(String::from_str(alloc, "taken")?)
            }
            Call::TakeRefresh => {
                self.ann.take_refresh(message)?;
                Ok(String::from_str(alloc, "answered")?)
            }
        }
    }
}

/// What became of a message in the room, and which objects the room sends.
fn answer_text(alloc: Global, answer: &Answer) -> Result<String, AllocError> {
    let mut text = String::from_str(alloc, kind_word(&answer.kind))?;
    if answer.reply.is_some() {
        text.push_str(" with a reply")?;
    }
    if answer.refresh.is_some() {
        text.push_str(" and a refresh")?;
    }
    Ok(text)
}

fn kind_word(kind: &Kind) -> &'static str {
    match kind {
        Kind::Accepted => "accepted",
        Kind::Declined(_) => "declined",
        Kind::Limit(_) => "past a limit",
        Kind::Cancelled => "cancelled",
        Kind::Repeated => "repeated",
        Kind::Stale => "stale",
        Kind::NotAddressed => "not addressed",
    }
}
