//! Cases of whole streams: `keep | FILES` has a room take the objects of files one after another, and `long | COUNT` serves a stream
//! whose first object has this many octets.

use crate::names::ROOM;
use example_cases::spelled::escaped;
use example_cases::{Case, NoAnswer};
use ical_values::{Address, Stamp};
use sched_box::{Config, ServeFault, StreamFault, keep, serve_stream};
use std::alloc::{AllocError, Global};

/// The calendar and the certificate that the room keeps.
pub fn keep_answer(alloc: Global, octets: &[u8]) -> Result<String, NoAnswer> {
    let config = Config::read(alloc, b"room mailto:r1@example.com\n")?;
    let room = Address::read(alloc, ROOM)?;
    let now = Stamp::read("20250102T000000Z")?;
    let mut reader = octets;
    let (calendar, certificate) = keep(alloc, &config, &mut reader, now, &room).map_err(no_answer)?;
    let calendar = escaped(alloc, calendar.as_slice())?;
    let certificate = escaped(alloc, certificate.as_slice())?;
    Ok(format!(in alloc; "{calendar} | {certificate}")?)
}

/// How long the first object is, how many there are and how many were refused, and what was written.
pub fn long_answer(alloc: Global, case: Case<'_>) -> Result<String, NoAnswer> {
    let octets = case
        .input()
        .parse::<usize>()
        .ok()
        .ok_or(NoAnswer::Unreadable)?;
    let object = long_object(alloc, octets)?;
    let mut stream = Vec::from_slice(
        alloc,
        b"now 20250102T000000Z\nroom mailto:r1@example.com\n\n",
    )?;
    stream.extend_from_slice(object.as_slice())?;
    stream.extend_from_slice(
        b"BEGIN:VCALENDAR\r\nVERSION:2.0\r\nMETHOD:REQUEST\r\nEND:VCALENDAR\r\n",
    )?;
    let mut reader = stream.as_slice();
    let mut written = Vec::new(alloc);
    let report = serve_stream(alloc, &mut reader, &mut written).map_err(no_answer)?;
    let text = escaped(alloc, written.as_slice())?;
    let length = object.len();
    Ok(format!(in alloc;
        "{length} octets | {} objects, {} refused | {text}",
        report.objects, report.refused
    )?)
}

/// An object of this many octets: a VCALENDAR with one long line.
fn long_object(alloc: Global, octets: usize) -> Result<Vec<u8>, AllocError> {
    let mut object = Vec::from_slice(alloc, b"BEGIN:VCALENDAR\r\nX-LONG:")?;
    let end = b"\r\nEND:VCALENDAR\r\n";
    for _ in object.len()..octets.saturating_sub(end.len()) {
        object.push(b'x')?;
    }
    object.extend_from_slice(end)?;
    Ok(object)
}

/// Why a stream that isn't served to its end has no answer.
fn no_answer(fault: StreamFault) -> NoAnswer {
    match fault {
        StreamFault::Refused(refusal) => NoAnswer::Refused(refusal),
        StreamFault::Serve(ServeFault::Memory) => NoAnswer::Memory,
        StreamFault::Serve(_) => NoAnswer::Unreadable,
    }
}
