//! Cases of calendars that are made from events: `events | EVENT, EVENT ..`, where an EVENT is `UID START END`, or `UID START END
//! declined` for one that holds no room. All are ann's. And cases of spans alone: `spans | START END, START END ..`.

use crate::certificates::verdict_text;
use crate::names::{ANN, ROOM};
use cal_events::{Calendar, OwnedKey, Span, first_overlap};
use clash_cert::{Clash, Made, make};
use clash_check::{check_clash, judge_read};
use example_cases::answers::{Answers, append, none, yes_or_no};
use example_cases::spelled::{escaped, octets_of};
use example_cases::words::{first_word, number};
use example_cases::{Case, NoAnswer};
use ical_values::{Address, Stamp, Text};
use std::alloc::Global;

/// The answers of a case.
pub fn answers(alloc: Global, case: Case<'_>) -> Result<String, NoAnswer> {
    let calendar = calendar_of(alloc, case.input())?;
    let mut answers = Answers::new(alloc);
    for step in case.steps(alloc)? {
        let answer = step_answer(alloc, &calendar, step)?;
        answers.add(answer.as_str())?;
    }
    Ok(answers.finish())
}

/// The places of two spans that share an instant.
pub fn span_answer(alloc: Global, case: Case<'_>) -> Result<String, NoAnswer> {
    let mut spans = Vec::new(alloc);
    for span in case.input().split(", ") {
        let (start, end) = first_word(span);
        spans.push(Span {
            start: number(start)?,
            end: number(end)?,
        })?;
    }
    match first_overlap(alloc, &spans)? {
        Some(found) => Ok(format!(in alloc;
            "{} and {} at {}",
            found.first, found.second, found.instant
        )?),
        None => Ok(none(alloc)?),
    }
}

/// The calendar that has a VEVENT for each event.
fn calendar_of(alloc: Global, events: &str) -> Result<Calendar, NoAnswer> {
    let mut text = String::from_str(alloc, "BEGIN:VCALENDAR\r\nVERSION:2.0\r\n")?;
    for event in events.split(", ") {
        push_event(alloc, &mut text, event)?;
    }
    text.push_str("END:VCALENDAR\r\n")?;
    let room = Address::read(alloc, ROOM)?;
    Ok(Calendar::read(alloc, text.as_bytes(), &room)?)
}

/// Appends the VEVENT of an EVENT.
fn push_event(alloc: Global, text: &mut String, event: &str) -> Result<(), NoAnswer> {
    let (uid, rest) = first_word(event);
    let (start, rest) = first_word(rest);
    let (end, status) = first_word(rest);
    let start = number(start)?;
    let seconds = number(end)?.checked_sub(start).ok_or(NoAnswer::Unreadable)?;
    let status = if status == "declined" {
        "DECLINED"
    } else {
        "ACCEPTED"
    };
    let stamp = stamp_text(alloc, start)?;
    let lines = format!(in alloc;
        "BEGIN:VEVENT\r\nUID:{uid}\r\nDTSTART:{stamp}\r\nDURATION:PT{seconds}S\r\nORGANIZER:{ANN}\r\nATTENDEE;PARTSTAT={status}:{ROOM}\r\nEND:VEVENT\r\n"
    )?;
    text.push_str(lines.as_str())?;
    Ok(())
}

/// An instant as a UTC date-time.
fn stamp_text(alloc: Global, instant: i64) -> Result<String, NoAnswer> {
    let stamp = Stamp::of_instant(instant).ok_or(NoAnswer::Unreadable)?;
    let mut text = Vec::new(alloc);
    stamp.write(&mut text)?;
    Ok(escaped(alloc, text.as_slice())?)
}

/// What the calendar answers to a step:
///
///     counts                           how many singles and series it has
///     singles                          the singles, from slot to end
///     overlap                          the places of two that clash, and the instant
///     make                             the certificate that is made, or the clash
///     judge TEXT                       whether this text holds as a certificate
///     clash UID SLOT UID SLOT INSTANT  whether this is a clash
fn step_answer(alloc: Global, calendar: &Calendar, step: &str) -> Result<String, NoAnswer> {
    let (call, input) = first_word(step);
    match call {
        "counts" => counts(alloc, calendar),
        "singles" => singles(alloc, calendar),
        "overlap" => overlap(alloc, calendar),
        "make" => made(alloc, calendar),
        "judge" => judged(alloc, calendar, input),
        "clash" => clash_answer(alloc, calendar, input),
        _ => Err(NoAnswer::Unreadable),
    }
}

fn counts(alloc: Global, calendar: &Calendar) -> Result<String, NoAnswer> {
    let singles = calendar.single_count();
    let series = calendar.series_count();
    Ok(format!(in alloc; "{singles} singles, {series} series")?)
}

fn singles(alloc: Global, calendar: &Calendar) -> Result<String, NoAnswer> {
    let mut list = String::new(alloc);
    for single in calendar.singles() {
        let item = format!(in alloc; "{} to {}", single.key.slot, single.end)?;
        append(&mut list, ", ", item.as_str())?;
    }
    Ok(list)
}

fn overlap(alloc: Global, calendar: &Calendar) -> Result<String, NoAnswer> {
    match calendar.first_overlap(alloc)? {
        Some(found) => Ok(format!(in alloc;
            "{} and {} at {}",
            found.first, found.second, found.instant
        )?),
        None => Ok(none(alloc)?),
    }
}

pub fn made(alloc: Global, calendar: &Calendar) -> Result<String, NoAnswer> {
    made_text(alloc, make(alloc, calendar)?)
}

/// The text of the certificate, or the two of a clash.
pub fn made_text(alloc: Global, made: Made) -> Result<String, NoAnswer> {
    match made {
        Made::Clear(certificate) => {
            let mut text = Vec::new(alloc);
            certificate.write(&mut text)?;
            Ok(escaped(alloc, text.as_slice())?)
        }
        Made::Clash(clash) => Ok(format!(in alloc;
            "{} and {} at {}",
            clash.first.uid.as_str(),
            clash.second.uid.as_str(),
            clash.instant
        )?),
    }
}

fn judged(alloc: Global, calendar: &Calendar, text: &str) -> Result<String, NoAnswer> {
    let certificate = octets_of(alloc, text)?;
    let checked = judge_read(alloc, calendar, certificate.as_slice())?;
    verdict_text(alloc, checked)
}

fn clash_answer(alloc: Global, calendar: &Calendar, input: &str) -> Result<String, NoAnswer> {
    let (first_uid, rest) = first_word(input);
    let (first_slot, rest) = first_word(rest);
    let (second_uid, rest) = first_word(rest);
    let (second_slot, instant) = first_word(rest);
    let clash = Clash {
        first: key(alloc, first_uid, first_slot)?,
        second: key(alloc, second_uid, second_slot)?,
        instant: number(instant)?,
    };
    Ok(String::from_str(alloc, yes_or_no(check_clash(calendar, &clash)))?)
}

fn key(alloc: Global, uid: &str, slot: &str) -> Result<OwnedKey, NoAnswer> {
    Ok(OwnedKey {
        organiser: Address::read(alloc, ANN)?,
        uid: Text::read(alloc, uid)?,
        slot: number(slot)?,
    })
}
