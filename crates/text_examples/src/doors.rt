//! Cases of the door: an object, a list of VTIMEZONEs or `-`, and what is asked of what comes out.
//!
//!     door | FILE | LIST | step | step ..
//!
//! FILE and LIST are files of octets. `door` says whether the object is made readable.

use cal_doors::{Adapted, adapt};
use cal_zones::Zone;
use example_cases::answers::{Answers, append, none, print_answer};
use example_cases::words::{first_word, number};
use example_cases::{Case, NoAnswer};
use ical_lines::{Limits, Unfolded};
use ical_tree::{Component, read_object};
use ical_values::LocalTime;
use std::alloc::Global;
use std::rt::Files;
use std::{fs, io};

/// Answers the cases of the table.
pub fn print_table<R: Files + Print + AllocGlobal>(rt: &R) -> io::Result<()> {
    let table = fs::read_to_string(rt, "doors.txt")?;
    for line in table.lines() {
        if let Some(case) = Case::of(line) {
            let answer = answer(rt, case);
            print_answer(rt, case, answer)?;
        }
    }
    Ok(())
}

fn answer<R: Files + AllocGlobal>(rt: &R, case: Case<'_>) -> Result<String, NoAnswer> {
    let alloc = rt.alloc();
    let object = fs::read(rt, case.input())?;
    if case.column(3) == "-" {
        let adapted = adapt(alloc, object.as_slice(), None)?;
        return answers_of(alloc, case, object.as_slice(), adapted);
    }
    let list = fs::read(rt, case.column(3))?;
    let adapted = adapted_beside(alloc, object.as_slice(), list.as_slice())?;
    answers_of(alloc, case, object.as_slice(), adapted)
}

/// What becomes of an object beside a list of VTIMEZONEs.
fn adapted_beside(alloc: Global, object: &[u8], list: &[u8]) -> Result<Option<Adapted>, NoAnswer> {
    let text = Unfolded::read(alloc, list, Limits::Open)?;
    let zones = read_object(alloc, &text, Limits::Open)?;
    Ok(adapt(alloc, object, Some(&zones))?)
}

/// The answers to the steps.
fn answers_of(
    alloc: Global,
    case: Case<'_>,
    object: &[u8],
    adapted: Option<Adapted>,
) -> Result<String, NoAnswer> {
    let mut answers = Answers::new(alloc);
    let Some(adapted) = adapted else {
        answers.add("as it is")?;
        return Ok(answers.finish());
    };
    if adapted.octets.as_slice() == object {
        // It would be an error of the door.
        answers.add("the same octets")?;
        return Ok(answers.finish());
    }
    answers.add("made readable")?;
    let text = Unfolded::read(alloc, adapted.octets.as_slice(), Limits::Message)?;
    let after = read_object(alloc, &text, Limits::Message)?;
    for step in case.columns_from(alloc, 4)?.iter() {
        let answer = step_answer(alloc, *step, &after, &adapted)?;
        answers.add(answer.as_str())?;
    }
    Ok(answers.finish())
}

/// What a step answers:
///
///     at NAME INSTANT       the offset at that instant in the zone of that name
///     means NAME LOCAL      the instant that a local time means there
///     daylight NAME         TZOFFSETTO of the part DAYLIGHT of that zone, as it is written
///     zones                 how many VTIMEZONEs there are
///     goes on               the zones that go on beyond what is stated
fn step_answer(
    alloc: Global,
    step: &str,
    after: &Component,
    adapted: &Adapted,
) -> Result<String, NoAnswer> {
    let (question, rest) = first_word(step);
    match question {
        "goes" => return going_on(alloc, adapted),
        "zones" => return Ok(count_zones(after).to_string(alloc)?),
        "daylight" => return daylight_of(alloc, after, rest),
        _ => {}
    }
    let (name, input) = first_word(rest);
    let zone = zone_named(alloc, after, name)?;
    match question {
        "at" => Ok(zone.offset(number(input)?).to_string(alloc)?),
        "means" => Ok(zone.resolve(LocalTime::read(input)?).to_string(alloc)?),
        _ => Err(NoAnswer::Unreadable),
    }
}

/// The zone of the first VTIMEZONE of a name that has no escapes.
fn zone_named(alloc: Global, object: &Component, name: &str) -> Result<Zone, NoAnswer> {
    match component_named(object, name) {
        Some(component) => Ok(Zone::read(alloc, component)?),
        None => Err(NoAnswer::Unreadable),
    }
}

fn component_named<'c, 'a>(object: &'c Component<'a>, name: &str) -> Option<&'c Component<'a>> {
    for child in object.children() {
        if child.is_named("VTIMEZONE") && is_called(child, name) {
            return Some(child);
        }
    }
    None
}

fn count_zones(object: &Component) -> usize {
    let mut count: usize = 0;
    for child in object.children() {
        if child.is_named("VTIMEZONE") {
            count = count.saturating_add(1);
        }
    }
    count
}

/// TZOFFSETTO of the part DAYLIGHT of a zone.
fn daylight_of(alloc: Global, object: &Component, name: &str) -> Result<String, NoAnswer> {
    let Some(zone) = component_named(object, name) else {
        return Err(NoAnswer::Unreadable);
    };
    for part in zone.children() {
        if part.is_named("DAYLIGHT") {
            return offset_of(alloc, part);
        }
    }
    Err(NoAnswer::Unreadable)
}

/// TZOFFSETTO of a part, as it is written.
fn offset_of(alloc: Global, part: &Component) -> Result<String, NoAnswer> {
    for line in part.lines() {
        if line.is_named("TZOFFSETTO") {
            return Ok(String::from_str(alloc, line.value())?);
        }
    }
    Err(NoAnswer::Unreadable)
}

fn is_called(zone: &Component, name: &str) -> bool {
    for line in zone.lines() {
        if line.is_named("TZID") {
            return line.value() == name;
        }
    }
    false
}

fn going_on(alloc: Global, adapted: &Adapted) -> Result<String, NoAnswer> {
    if adapted.going_on.is_empty() {
        return Ok(none(alloc)?);
    }
    let mut names = String::new(alloc);
    for name in adapted.going_on.iter() {
        append(&mut names, " ", name.as_str())?;
    }
    Ok(names)
}
