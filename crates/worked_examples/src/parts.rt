//! Cases of parts as messages bring them: `held`, and then these steps. All are Ada's.
//!
//!     take PART     what taking it does to the view
//!     view          the parts in the view
//!     copy          the parts in the view of a copy
//!
//! A PART is `UID SLOT SEQUENCE DTSTAMP BODY`: its SLOT `whole` or an instant, its BODY `absent`, `cancelled` or `set TEXT`.

use crate::names::uid_of;
use example_cases::answers::{Answers, append};
use example_cases::spelled::{escaped, octets_of};
use example_cases::words::{first_word, number};
use example_cases::{Case, NoAnswer};
use ical_values::shown::stamp_text;
use ical_values::{Address, Sequence, Stamp};
use itip_order::{Body, Freshness, Held, Part, Revision, Slot};
use std::alloc::Global;

/// The answers of a case.
pub fn answers(alloc: Global, case: Case<'_>) -> Result<String, NoAnswer> {
    let mut held = Held::new(alloc);
    let mut answers = Answers::new(alloc);
    for step in case.steps(alloc)? {
        let answer = step_answer(alloc, &mut held, step)?;
        answers.add(answer.as_str())?;
    }
    Ok(answers.finish())
}

fn step_answer(alloc: Global, held: &mut Held, step: &str) -> Result<String, NoAnswer> {
    let (call, input) = first_word(step);
    match call {
        "take" => {
            let part = part_of(alloc, input)?;
            let freshness = held.take(part)?;
            Ok(String::from_str(alloc, freshness_word(freshness))?)
        }
        "view" => view(alloc, held),
        "copy" => view(alloc, &held.copy()?),
        _ => Err(NoAnswer::Unreadable),
    }
}

fn freshness_word(freshness: Freshness) -> &'static str {
    match freshness {
        Freshness::Fresh => "fresh",
        Freshness::Same => "same",
        Freshness::Stale => "stale",
    }
}

fn part_of(alloc: Global, input: &str) -> Result<Part, NoAnswer> {
    let (name, rest) = first_word(input);
    let (slot, rest) = first_word(rest);
    let (sequence, rest) = first_word(rest);
    let (stamp, body) = first_word(rest);
    Ok(Part {
        organiser: Address::read(alloc, "mailto:Ada@example.org")?,
        uid: uid_of(alloc, name)?,
        slot: slot_of(slot)?,
        revision: Revision {
            sequence: Sequence::read(sequence)?,
            stamp: Stamp::read(stamp)?,
        },
        body: body_of(alloc, body)?,
    })
}

fn slot_of(word: &str) -> Result<Slot, NoAnswer> {
    if word == "whole" {
        return Ok(Slot::Whole);
    }
    Ok(Slot::At(number(word)?))
}

fn body_of(alloc: Global, input: &str) -> Result<Body, NoAnswer> {
    let (kind, text) = first_word(input);
    match kind {
        "set" => Ok(Body::Set(octets_of(alloc, text)?)),
        "absent" => Ok(Body::Absent),
        "cancelled" => Ok(Body::Cancelled),
        _ => Err(NoAnswer::Unreadable),
    }
}

fn view(alloc: Global, held: &Held) -> Result<String, NoAnswer> {
    let mut list = String::new(alloc);
    for part in held.view() {
        let item = part_text(alloc, part)?;
        append(&mut list, ", ", item.as_str())?;
    }
    Ok(list)
}

fn part_text(alloc: Global, part: &Part) -> Result<String, NoAnswer> {
    let organiser = part.organiser.as_str();
    let uid = part.uid.as_str();
    let slot = slot_text(alloc, part.slot)?;
    let sequence = part.revision.sequence.number();
    let stamp = stamp_text(alloc, part.revision.stamp)?;
    let body = body_text(alloc, &part.body)?;
    Ok(format!(in alloc; "{organiser} {uid} {slot} {sequence} {stamp} {body}")?)
}

pub fn slot_text(alloc: Global, slot: Slot) -> Result<String, NoAnswer> {
    match slot {
        Slot::Whole => Ok(String::from_str(alloc, "whole")?),
        Slot::At(instant) => Ok(instant.to_string(alloc)?),
    }
}

pub fn body_text(alloc: Global, body: &Body) -> Result<String, NoAnswer> {
    match body {
        Body::Set(octets) => {
            let text = escaped(alloc, octets.as_slice())?;
            Ok(format!(in alloc; "set {text}")?)
        }
        Body::Absent => Ok(String::from_str(alloc, "absent")?),
        Body::Cancelled => Ok(String::from_str(alloc, "cancelled")?),
    }
}
