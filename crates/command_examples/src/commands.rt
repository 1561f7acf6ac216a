//! Cases of the commands: `name | command | input | certificate | output | errors | status`. The middle columns are names of files, put one
//! after another; the fourth of `expand` and of `name-zone` is the words of a zone, that of `agenda`,
//! `free` and `published` a room. A command runs on them with a reader and writers in memory.

use cal_events::{Calendar, Span};
use cal_zones::RoomZone;
use example_cases::Case;
use example_cases::files::read_all;
use ical_values::{Address, Stamp};
use sched_cli::commands::{KeptText, run_check, run_keep, run_serve};
use sched_cli::status::{DONE, report_read};
use sched_cli::{run_agenda, run_expand, run_explain, run_explain_object, run_free, run_published};
use std::alloc::Global;
use std::io::{self, ErrorKind};
use std::rt::Files;
use std::str;

/// The room that is asked.
const ROOM: &str = "mailto:r1@example.com";

/// 2025-03-10T00:00:00Z, in seconds from 1970-01-01T00:00:00Z.
const DAY_START: i64 = 1_741_564_800;

/// What a command wrote, and its status.
#[derive(PartialEq, Eq, Drop)]
struct Outcome {
    status: u8,
    output: Vec<u8>,
    errors: Vec<u8>,
}

/// Prints `ok NAME` where what came out is what the table says, else `differs NAME` and what came out.
pub fn print<R: Files + Print + AllocGlobal>(rt: &R, case: Case<'_>) -> io::Result<()> {
    let outcome = run(rt, case)?;
    if outcome == expected(rt, case)? {
        return println!(rt; "ok {}", case.name());
    }
    let text = String::from_utf8_lossy(rt.alloc(), outcome.output.as_slice())?;
    println!(rt; "differs {}", case.name())?;
    println!(rt; "status {}", outcome.status)?;
    println!(rt; "{text:?}")
}

fn run<R: Files + AllocGlobal>(rt: &R, case: Case<'_>) -> io::Result<Outcome> {
    let alloc = rt.alloc();
    let input = read_all(rt, case.input())?;
    let mut reader = input.as_slice();
    let mut output = Vec::new(alloc);
    let mut errors = Vec::new(alloc);
    let Ok(room) = Address::read(alloc, ROOM) else {
        return Err(io::Error::from(ErrorKind::InvalidInput));
    };
    let status = match case.call() {
        "serve" => run_serve(alloc, &mut reader, &mut output, &mut errors),
        "calendar" | "certificate" => {
            let kept = kept_of(case);
            run_keep(alloc, &room, kept, &mut reader, &mut output, &mut errors)
        }
        "expand" => {
            let zone = zone_of(alloc, case.column(3))?;
            run_expand(alloc, reader, &zone, 100, &mut output, &mut errors)
        }
        "name-zone" => {
            let zone = zone_of(alloc, case.column(3))?;
            name_zone(alloc, reader, &zone, &mut output, &mut errors)?
        }
        "agenda" | "free" | "published" => {
            ask_agenda(alloc, case, reader, &room, &mut output, &mut errors)?
        }
        "check" => {
            let certificate = read_all(rt, case.column(3))?;
            let certificate = certificate.as_slice();
            run_check(alloc, reader, certificate, &room, &mut output, &mut errors)
        }
        "explain" => run_explain(number_in(reader), &mut output, &mut errors),
        "explain-object" => run_explain_object(alloc, reader, &mut output, &mut errors),
        _ => return Err(io::Error::from(ErrorKind::InvalidData)),
    };
    Ok(Outcome {
        status,
        output,
        errors,
    })
}

/// Asks the calendar what a room has on 10 March 2025, or when it is free: the room of the fourth column, if it names one.
fn ask_agenda(
    alloc: Global,
    case: Case<'_>,
    calendar: &[u8],
    room: &Address,
    output: &mut Vec<u8>,
    errors: &mut Vec<u8>,
) -> io::Result<u8> {
    let other = other_room(alloc, case.column(3))?;
    let room = match &other {
        Some(other) => other,
        None => room,
    };
    let span = Span {
        start: DAY_START,
        end: DAY_START + 86_400,
    };
    Ok(match case.call() {
        "agenda" => run_agenda(alloc, calendar, room, span, None, output, errors),
        "free" => run_free(alloc, calendar, room, span, None, output, errors),
        _ => {
            let from = stamp_of("20250310T000000Z")?;
            run_published(alloc, calendar, room, from, span.end, output, errors)
        }
    })
}

fn stamp_of(text: &str) -> io::Result<Stamp> {
    Stamp::read(text).map_err(|_| io::Error::from(ErrorKind::InvalidInput))
}

/// The room that a column names, if it names one.
fn other_room(alloc: Global, word: &str) -> io::Result<Option<Address>> {
    if word.is_empty() {
        return Ok(None);
    }
    match Address::read(alloc, word) {
        Ok(room) => Ok(Some(room)),
        Err(_) => Err(io::Error::from(ErrorKind::InvalidInput)),
    }
}

/// Names the zone of its room in a calendar: what comes out is the calendar with that line.
fn name_zone(
    alloc: Global,
    calendar: &[u8],
    zone: &RoomZone,
    output: &mut Vec<u8>,
    errors: &mut Vec<u8>,
) -> io::Result<u8> {
    match Calendar::with_zone(alloc, calendar, zone) {
        Ok(octets) => {
            output.extend_from_slice(octets.as_slice())?;
            Ok(DONE)
        }
        Err(fault) => Ok(report_read(errors, fault)),
    }
}

/// The zone that the words of a column mean; UTC where there are none.
fn zone_of(alloc: Global, words: &str) -> io::Result<RoomZone> {
    if words.is_empty() {
        return Ok(RoomZone::utc());
    }
    RoomZone::read(alloc, words).map_err(|_| io::Error::from(ErrorKind::InvalidInput))
}

/// The number that an input is; 0, which nothing has, where it isn't one.
fn number_in(input: &[u8]) -> u8 {
    let text = str::from_utf8(input).unwrap_or("");
    text.trim_end().parse::<u8>().unwrap_or(0)
}

fn kept_of(case: Case<'_>) -> KeptText {
    if case.call() == "calendar" {
        KeptText::Calendar
    } else {
        KeptText::Certificate
    }
}

/// What the table says must come out.
fn expected<R: Files + AllocGlobal>(rt: &R, case: Case<'_>) -> io::Result<Outcome> {
    let Ok(status) = case.column(6).parse::<u8>() else {
        return Err(io::Error::from(ErrorKind::InvalidData));
    };
    Ok(Outcome {
        status,
        output: read_all(rt, case.column(4))?,
        errors: read_all(rt, case.column(5))?,
    })
}
