//! What is answered about an object as a message.

use crate::parts::{body_text, slot_text};
use cal_events::Method;
use cal_zones::RoomZone;
use example_cases::NoAnswer;
use example_cases::answers::{append, yes_or_no};
use ical_values::Address;
use itip_messages::{Message, MessageComponent, component_lines};
use itip_order::{Part, Slot};
use std::alloc::Global;

/// The method, the organiser and the UID; then of a message to rooms the start and the end of each instance that a component asks for, in UTC, and of
/// one to an organiser the slot of each component, its SEQUENCE and SUMMARY and how many ATTENDEE lines it has.
pub fn message(alloc: Global, octets: &[u8]) -> Result<String, NoAnswer> {
    let message = Message::read(alloc, octets)?;
    let method = method_word(message.method());
    let organiser = message.organiser().as_str();
    let uid = message.uid().as_str();
    let mut list = format!(in alloc; "{method}, {organiser}, {uid}")?;
    for component in message.components() {
        if message.method().is_to_rooms() {
            append_singles(alloc, &mut list, component)?;
        } else {
            append_component(alloc, &mut list, component)?;
        }
    }
    Ok(list)
}

fn method_word(method: Method) -> &'static str {
    match method {
        Method::Store => "store",
        Method::Request => "request",
        Method::Add => "add",
        Method::Cancel => "cancel",
        Method::Reply => "reply",
        Method::Refresh => "refresh",
    }
}

fn append_singles(
    alloc: Global,
    list: &mut String,
    component: &MessageComponent,
) -> Result<(), NoAnswer> {
    let (singles, _) = component.instances_in(alloc, &RoomZone::utc())?;
    for single in singles.iter() {
        let item = format!(in alloc; "{} to {}", single.span.start, single.span.end)?;
        append(list, ", ", item.as_str())?;
    }
    Ok(())
}

fn append_component(
    alloc: Global,
    list: &mut String,
    component: &MessageComponent,
) -> Result<(), NoAnswer> {
    let slot = slot_text(alloc, component.slot())?;
    let sequence = component.revision().sequence.number();
    let summary = component.summary().as_str();
    let attendees = component.attendees().lines().len();
    let item = format!(in alloc; "{slot} {sequence} {summary:?} {attendees}")?;
    append(list, ", ", item.as_str())?;
    Ok(())
}

pub fn components(alloc: Global, octets: &[u8]) -> Result<String, NoAnswer> {
    let message = Message::read(alloc, octets)?;
    Ok(message.components().len().to_string(alloc)?)
}

/// How many parts there are for a room of this zone, and each without its meeting.
pub fn parts(
    alloc: Global,
    octets: &[u8],
    room: &Address,
    zone: &RoomZone,
) -> Result<String, NoAnswer> {
    let message = Message::read(alloc, octets)?;
    let parts = message.parts(alloc, room, zone)?;
    let mut list = parts.len().to_string(alloc)?;
    for part in parts.iter() {
        let item = part_text(alloc, part)?;
        append(&mut list, ", ", item.as_str())?;
    }
    Ok(list)
}

fn part_text(alloc: Global, part: &Part) -> Result<String, NoAnswer> {
    let slot = slot_text(alloc, part.slot)?;
    let sequence = part.revision.sequence.number();
    let body = body_text(alloc, &part.body)?;
    Ok(format!(in alloc; "{slot} {sequence} {body}")?)
}

pub fn addressed(alloc: Global, octets: &[u8], room: &Address) -> Result<String, NoAnswer> {
    let message = Message::read(alloc, octets)?;
    Ok(String::from_str(alloc, yes_or_no(message.is_addressed_to(room)))?)
}

/// The own lines of the VEVENT of a slot, `whole` or an instant, each in quotes; `none` where there is no such VEVENT.
pub fn own_lines(alloc: Global, octets: &[u8], slot: &str) -> Result<String, NoAnswer> {
    let Some(lines) = component_lines(alloc, octets, slot_named(slot)?)? else {
        return Ok(String::from_str(alloc, "none")?);
    };
    let mut list = String::new(alloc);
    for line in lines.iter() {
        let item = format!(in alloc; "{:?}", line.as_str())?;
        append(&mut list, ", ", item.as_str())?;
    }
    Ok(list)
}

fn slot_named(word: &str) -> Result<Slot, NoAnswer> {
    if word == "whole" {
        return Ok(Slot::Whole);
    }
    match word.parse::<i64>() {
        Ok(instant) => Ok(Slot::At(instant)),
        Err(_) => Err(NoAnswer::Unreadable),
    }
}
