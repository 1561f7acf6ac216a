//! Replies and objects that are written.

use crate::names::{ANN, ROOM, uid_of};
use cal_events::InstanceKey;
use example_cases::spelled::escaped;
use example_cases::words::{first_word, number};
use example_cases::{Case, NoAnswer};
use ical_values::{Address, Sequence, Stamp};
use itip_messages::{Conflict, Decision, ObjectWriter, ReplyEvent, write_reply};
use std::alloc::Global;

/// `decline | UID MOMENT INSTANT | UID SLOT | UID SLOT`: the reply of the room to ann, who asked with sequence 0, for two instances
/// that share an instant.
pub fn decline_answer(alloc: Global, case: Case<'_>) -> Result<String, NoAnswer> {
    let (asked, rest) = first_word(case.input());
    let (moment, instant) = first_word(rest);
    let first = key(case.column(3))?;
    let second = key(case.column(4))?;
    let uid = uid_of(alloc, asked)?;
    let organiser = Address::read(alloc, ANN)?;
    let room = Address::read(alloc, ROOM)?;
    let Some(conflict) = Conflict::of(number(instant)?, first, second) else {
        return Err(NoAnswer::Unreadable);
    };
    let event = ReplyEvent {
        uid: &uid,
        recurrence: None,
        sequence: Sequence::zero(),
        moment: Stamp::read(moment)?,
        organiser: &organiser,
        room: &room,
        decision: Decision::Busy(conflict),
    };
    let mut octets = Vec::new(alloc);
    write_reply(&[event], &mut octets)?;
    Ok(escaped(alloc, octets.as_slice())?)
}

/// The instance of ann's that a `UID SLOT` names.
fn key(text: &str) -> Result<InstanceKey<'_>, NoAnswer> {
    let (uid, slot) = first_word(text);
    Ok(InstanceKey {
        organiser: ANN,
        uid,
        slot: number(slot)?,
    })
}

/// `writer`, and what is written, line by line: the object that comes of it.
pub fn writer_answer(alloc: Global, case: Case<'_>) -> Result<String, NoAnswer> {
    let mut object = ObjectWriter::new(alloc);
    for step in case.steps(alloc)? {
        write_step(alloc, &mut object, step)?;
    }
    let octets = object.finish();
    Ok(escaped(alloc, octets.as_slice())?)
}

fn write_step(alloc: Global, object: &mut ObjectWriter, step: &str) -> Result<(), NoAnswer> {
    let (call, input) = first_word(step);
    match call {
        "begin" => object.begin_calendar(None)?,
        "line" => object.line(input)?,
        "uid" => object.uid(&uid_of(alloc, input)?)?,
        "sequence" => object.sequence(Sequence::read(input)?)?,
        "stamp" => {
            let (name, stamp) = first_word(input);
            object.stamp(name, Stamp::read(stamp)?)?;
        }
        "named" => {
            let (name, value) = first_word(input);
            object.named(name, value)?;
        }
        "end" => object.end_calendar()?,
        _ => return Err(NoAnswer::Unreadable),
    }
    Ok(())
}
