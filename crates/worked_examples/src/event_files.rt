//! What is answered about an object as an event with its instances.

use cal_events::{Event, Instance, Instances, Span};
use cal_zones::RoomZone;
use example_cases::NoAnswer;
use example_cases::answers::append;
use example_cases::words::first_word;
use std::alloc::Global;

/// This many instances are listed at most.
const LISTED: u32 = 12;

pub fn event(alloc: Global, octets: &[u8]) -> Result<String, NoAnswer> {
    Event::read(alloc, octets, &RoomZone::utc())?;
    Ok(String::from_str(alloc, "an event")?)
}

/// The first instances: of each its slot, its start and its end, in seconds.
pub fn instances(alloc: Global, octets: &[u8]) -> Result<String, NoAnswer> {
    let event = Event::read(alloc, octets, &RoomZone::utc())?;
    let mut instances = event.instances(i64::MIN);
    let mut list = String::new(alloc);
    for _ in 0..LISTED {
        if !add_next(alloc, &mut instances, &mut list)? {
            break;
        }
    }
    Ok(list)
}

/// Adds the next instance to a list, if there is one.
fn add_next(
    alloc: Global,
    instances: &mut Instances<'_>,
    list: &mut String,
) -> Result<bool, NoAnswer> {
    let Some(instance) = instances.next() else {
        return Ok(false);
    };
    let item = instance_text(alloc, instance)?;
    append(list, ", ", item.as_str())?;
    Ok(true)
}

/// The first instance that shares an instant with a span, which is its start and its end in seconds.
pub fn overlap(alloc: Global, octets: &[u8], span: &str) -> Result<String, NoAnswer> {
    let event = Event::read(alloc, octets, &RoomZone::utc())?;
    let (start, end) = first_word(span);
    let (Ok(start), Ok(end)) = (start.parse::<i64>(), end.parse::<i64>()) else {
        return Err(NoAnswer::Unreadable);
    };
    match event.first_overlap(Span { start, end }) {
        Some(instance) => instance_text(alloc, instance),
        None => Ok(String::from_str(alloc, "none")?),
    }
}

fn instance_text(alloc: Global, instance: Instance<'_>) -> Result<String, NoAnswer> {
    let slot = instance.key.slot;
    Ok(format!(in alloc; "{slot} {} {}", instance.start, instance.end)?)
}
