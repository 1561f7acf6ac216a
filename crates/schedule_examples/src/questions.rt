//! What is asked of a world.
//!
//! - `sent`: the METHOD of each message that was sent, in order; `sent NUMBER WORDS`: of that message the lines that begin with one of these words;
//! - `kept NAME WORDS`: such lines of what the room of that name keeps; `shown NAME UID WORDS`: of what the organiser shows of a meeting;
//! - `seen NAME UID SLOT ATTENDEE`: what the organiser sees of an attendee's answer for a slot (`whole`, or the instant of an instance).
//!
//! Without WORDS it is the whole object, with its line breaks spelled.

use crate::names::{address_of, slot_of};
use cal_events::PartStat;
use example_cases::NoAnswer;
use example_cases::answers::{append, none};
use example_cases::spelled::escaped;
use example_cases::words::{count, first_word};
use ical_values::Text;
use sched_box::World;
use std::alloc::Global;

/// What the world answers to a question.
pub fn answer(alloc: Global, world: &World, question: &str) -> Result<String, NoAnswer> {
    let (word, rest) = first_word(question);
    match word {
        "sent" if rest.is_empty() => methods(alloc, world),
        "sent" => sent(alloc, world, rest),
        "kept" => kept(alloc, world, rest),
        "shown" => shown(alloc, world, rest),
        "seen" => seen(alloc, world, rest),
        _ => Err(NoAnswer::Unreadable),
    }
}

/// The METHODs of all messages.
fn methods(alloc: Global, world: &World) -> Result<String, NoAnswer> {
    let mut list = String::new(alloc);
    for message in world.sent() {
        let line = picked(alloc, message.as_slice(), "METHOD:")?;
        append(&mut list, " ", line.trim_start_matches("METHOD:"))?;
    }
    if list.is_empty() {
        return Ok(none(alloc)?);
    }
    Ok(list)
}

/// A message that was sent.
fn sent(alloc: Global, world: &World, question: &str) -> Result<String, NoAnswer> {
    let (number, words) = first_word(question);
    match world.sent().get(count(number)? as usize) {
        Some(message) => picked(alloc, message.as_slice(), words),
        None => Ok(none(alloc)?),
    }
}

/// What a room keeps.
fn kept(alloc: Global, world: &World, question: &str) -> Result<String, NoAnswer> {
    let (name, words) = first_word(question);
    let Some(room) = world.room(&address_of(alloc, name)?) else {
        return Ok(none(alloc)?);
    };
    let calendar = room.calendar_text()?;
    picked(alloc, calendar.as_slice(), words)
}

/// What an organiser shows of a meeting.
fn shown(alloc: Global, world: &World, question: &str) -> Result<String, NoAnswer> {
    let (name, rest) = first_word(question);
    let (uid, words) = first_word(rest);
    let Some(organiser) = world.organiser(&address_of(alloc, name)?) else {
        return Ok(none(alloc)?);
    };
    match organiser.text(&Text::of(alloc, uid)?)? {
        Some(text) => picked(alloc, text.as_slice(), words),
        None => Ok(none(alloc)?),
    }
}

/// What an organiser sees of an answer.
fn seen(alloc: Global, world: &World, question: &str) -> Result<String, NoAnswer> {
    let (name, rest) = first_word(question);
    let (uid, rest) = first_word(rest);
    let (slot, attendee) = first_word(rest);
    let uid = Text::of(alloc, uid)?;
    let attendee = address_of(alloc, attendee)?;
    let status = match world.organiser(&address_of(alloc, name)?) {
        Some(organiser) => organiser.seen(&uid, slot_of(slot)?, &attendee),
        None => None,
    };
    Ok(String::from_str(alloc, word_of(status))?)
}

fn word_of(status: Option<PartStat>) -> &'static str {
    match status {
        Some(PartStat::NeedsAction) => "needs action",
        Some(PartStat::Tentative) => "tentative",
        Some(PartStat::Accepted) => "accepted",
        Some(PartStat::Delegated) => "delegated",
        Some(PartStat::Declined) => "declined",
        None => "none",
    }
}

/// The lines of an object that begin with one of these words; where there are no words, all of it.
fn picked(alloc: Global, object: &[u8], words: &str) -> Result<String, NoAnswer> {
    if words.is_empty() {
        return Ok(escaped(alloc, object)?);
    }
    let text = String::from_utf8_lossy(alloc, object)?;
    let mut lines = String::new(alloc);
    for line in text.lines() {
        if begins(line, words) {
            append(&mut lines, " ", line)?;
        }
    }
    if lines.is_empty() {
        return Ok(none(alloc)?);
    }
    Ok(lines)
}

/// Whether a line begins with one of these words.
fn begins(line: &str, words: &str) -> bool {
    for word in words.split_whitespace() {
        if line.starts_with(word) {
            return true;
        }
    }
    false
}
