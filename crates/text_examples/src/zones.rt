//! Cases of zones: a zone, and what it answers to the steps.
//!
//!     utc                   the zone of no offset
//!     constant | OFFSET     one offset for all time
//!     single | PART         one observance
//!     pair | PART, PART     STANDARD, then DAYLIGHT
//!     parts | TEXT          the zone of a VTIMEZONE with this inside, in escapes
//!     rule | YEARLY         no zone: is this a rule of one day a year?
//!
//! A PART is `START FROM TO` or `START FROM TO YEARLY`, and a YEARLY is `MONTH day DAY`, `MONTH start NUMBER WEEKDAY`,
//! `MONTH end NUMBER WEEKDAY` or `MONTH week FIRST WEEKDAY`, as in `MonthDays`.

use cal_zones::{MonthDays, Observance, Yearly, Zone};
use example_cases::answers::{Answers, none};
use example_cases::spelled::{escaped, octets_of};
use example_cases::words::{count, first_word, number, small};
use example_cases::{Case, NoAnswer};
use ical_lines::{Limits, Unfolded};
use ical_tree::read_object;
use ical_values::{LocalTime, UtcOffset};
use std::alloc::Global;

pub fn answer(alloc: Global, case: Case<'_>) -> Result<String, NoAnswer> {
    if case.call() == "rule" {
        return rule_answer(alloc, case.input());
    }
    let zone = zone_of(alloc, case)?;
    let steps = case.steps(alloc)?;
    if steps.is_empty() {
        return Ok(String::from_str(alloc, "a zone")?);
    }
    answers_of(alloc, &zone, &steps)
}

fn answers_of(alloc: Global, zone: &Zone, steps: &[&str]) -> Result<String, NoAnswer> {
    let mut answers = Answers::new(alloc);
    for step in steps {
        let answer = step_answer(alloc, zone, *step)?;
        answers.add(answer.as_str())?;
    }
    Ok(answers.finish())
}

/// The zone of a case.
fn zone_of(alloc: Global, case: Case<'_>) -> Result<Zone, NoAnswer> {
    let input = case.input();
    match case.call() {
        "utc" => Ok(Zone::utc()),
        "constant" => Ok(Zone::constant(UtcOffset::read(input)?)),
        "single" => Ok(Zone::single(observance(input)?)?),
        "pair" => pair(input),
        "parts" => zone_of_parts(alloc, input),
        _ => Err(NoAnswer::Unreadable),
    }
}

/// The zone of STANDARD and DAYLIGHT.
fn pair(input: &str) -> Result<Zone, NoAnswer> {
    let (standard, daylight) = input.split_once(", ").ok_or(NoAnswer::Unreadable)?;
    let standard = observance(standard)?;
    let daylight = observance(daylight)?;
    Ok(Zone::pair(standard, daylight)?)
}

/// The zone of a VTIMEZONE named Z with these parts.
fn zone_of_parts(alloc: Global, parts: &str) -> Result<Zone, NoAnswer> {
    let parts = octets_of(alloc, parts)?;
    let mut text = Vec::new(alloc);
    text.extend_from_slice(b"BEGIN:VCALENDAR\r\nVERSION:2.0\r\nBEGIN:VTIMEZONE\r\nTZID:Z\r\n")?;
    text.extend_from_slice(parts.as_slice())?;
    text.extend_from_slice(b"END:VTIMEZONE\r\nEND:VCALENDAR\r\n")?;
    zone_of_object(alloc, text.as_slice())
}

/// The zone of the one component of an object.
pub fn zone_of_object(alloc: Global, octets: &[u8]) -> Result<Zone, NoAnswer> {
    let text = Unfolded::read(alloc, octets, Limits::Open)?;
    let object = read_object(alloc, &text, Limits::Open)?;
    let zone = object.children().first().ok_or(NoAnswer::Unreadable)?;
    Ok(Zone::read(alloc, zone)?)
}

/// The observance of a PART.
fn observance(part: &str) -> Result<Observance, NoAnswer> {
    let (start, rest) = first_word(part);
    let (from, rest) = first_word(rest);
    let (to, rule) = first_word(rest);
    let start = LocalTime::read(start)?;
    let from = UtcOffset::read(from)?;
    let to = UtcOffset::read(to)?;
    if rule.is_empty() {
        return Ok(Observance::new(start, None, from, to));
    }
    let rule = yearly(rule)?.ok_or(NoAnswer::Unreadable)?;
    Ok(Observance::new(start, Some(rule), from, to))
}

/// Whether a YEARLY is a rule of one day a year.
fn rule_answer(alloc: Global, input: &str) -> Result<String, NoAnswer> {
    let answer = match yearly(input)? {
        Some(_) => "a rule",
        None => "none",
    };
    Ok(String::from_str(alloc, answer)?)
}

/// The rule of a YEARLY, None where a day of it isn't in its month each year.
fn yearly(input: &str) -> Result<Option<Yearly>, NoAnswer> {
    let (month, days) = first_word(input);
    let month = small(month)?;
    let days = month_days(days)?;
    Ok(Yearly::new(month, days))
}

fn month_days(input: &str) -> Result<MonthDays, NoAnswer> {
    let (kind, numbers) = first_word(input);
    let (first, weekday) = first_word(numbers);
    let number = small(first)?;
    if kind == "day" {
        return Ok(MonthDays::Day(number));
    }
    let weekday = small(weekday)?;
    match kind {
        "start" => Ok(MonthDays::FromStart { number, weekday }),
        "end" => Ok(MonthDays::FromEnd { number, weekday }),
        "week" => Ok(MonthDays::Week {
            first: number,
            weekday,
        }),
        _ => Err(NoAnswer::Unreadable),
    }
}

/// What the zone answers to a step:
///
///     at INSTANT            the offset at that instant
///     means LOCAL           the instant that a local time means
///     offsets               the least and the greatest offset
///     last SECOND UNTIL     the last day whose local time at that second isn't past an instant
///     write NAME            what is written of the zone, after an octet that is there already
fn step_answer(alloc: Global, zone: &Zone, step: &str) -> Result<String, NoAnswer> {
    let (call, input) = first_word(step);
    match call {
        "at" => Ok(zone.offset(number(input)?).to_string(alloc)?),
        "means" => Ok(zone.resolve(LocalTime::read(input)?).to_string(alloc)?),
        "offsets" => offsets(alloc, zone),
        "last" => last_day(alloc, zone, input),
        "write" => written(alloc, zone, input),
        _ => Err(NoAnswer::Unreadable),
    }
}

fn offsets(alloc: Global, zone: &Zone) -> Result<String, NoAnswer> {
    let (least, greatest) = zone.offsets();
    Ok(format!(in alloc; "{least} {greatest}")?)
}

fn last_day(alloc: Global, zone: &Zone, input: &str) -> Result<String, NoAnswer> {
    let (second, until) = first_word(input);
    match zone.last_day(count(second)?, number(until)?) {
        Some(day) => Ok(day.number().to_string(alloc)?),
        None => Ok(none(alloc)?),
    }
}

fn written(alloc: Global, zone: &Zone, name: &str) -> Result<String, NoAnswer> {
    let mut out = Vec::new(alloc);
    out.push(b'!')?;
    zone.write(name, &mut out)?;
    Ok(escaped(alloc, out.as_slice())?)
}
