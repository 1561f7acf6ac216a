//! What is answered about an object as a calendar.

use crate::calendars::{made, made_text};
use crate::certificates::verdict_text;
use crate::counting::Counting;
use cal_events::{Calendar, EventComponent, Instances, Method, PartStat, Series, read_meeting};
use clash_cert::{Certificate, extend};
use clash_check::{Drawing, Drawn, check, judge};
use example_cases::NoAnswer;
use example_cases::answers::append;
use example_cases::spelled::octets_of;
use example_cases::words::{count, first_word, number};
use ical_lines::{Limits, Unfolded};
use ical_tree::read_object;
use ical_values::Address;
use std::alloc::Global;

/// This many starts of a series are listed at most.
const LISTED: u32 = 4;

pub fn kept(alloc: Global, octets: &[u8], room: &Address) -> Result<String, NoAnswer> {
    let calendar = Calendar::read(alloc, octets, room)?;
    let mut list = calendar.single_count().to_string(alloc)?;
    for single in calendar.singles() {
        let organiser = single.key.organiser;
        let slot = single.key.slot;
        let item = format!(in alloc; "{organiser} {slot} {} {}", single.start, single.end)?;
        append(&mut list, ", ", item.as_str())?;
    }
    Ok(list)
}

pub fn counted(alloc: Global, octets: &[u8], room: &Address) -> Result<String, NoAnswer> {
    let text = Unfolded::read(alloc, octets, Limits::Open)?;
    let object = read_object(alloc, &text, Limits::Open)?;
    let calendar = Calendar::of_object(alloc, &object, room)?;
    Ok(calendar.single_count().to_string(alloc)?)
}

/// The series, each with its width and its first starts at an instant or later.
pub fn series(
    alloc: Global,
    octets: &[u8],
    room: &Address,
    from: &str,
) -> Result<String, NoAnswer> {
    let from = number(from)?;
    let calendar = Calendar::read(alloc, octets, room)?;
    let mut list = calendar.series_count().to_string(alloc)?;
    for series in calendar.series() {
        let item = starts(alloc, series, from)?;
        append(&mut list, ", ", item.as_str())?;
    }
    Ok(list)
}

/// The width of a series, and its first starts at an instant or later, each with its end.
fn starts(alloc: Global, series: &Series, from: i64) -> Result<String, NoAnswer> {
    let mut list = series.width().to_string(alloc)?;
    let mut starts = series.starts(from);
    for _ in 0..LISTED {
        if !add_next(alloc, &mut starts, &mut list)? {
            break;
        }
    }
    Ok(list)
}

/// Adds the next start to a list, if there is one.
fn add_next(
    alloc: Global,
    starts: &mut Instances<'_>,
    list: &mut String,
) -> Result<bool, NoAnswer> {
    let Some(instance) = starts.next() else {
        return Ok(false);
    };
    let item = format!(in alloc; "{} to {}", instance.start, instance.end)?;
    append(list, " ", item.as_str())?;
    Ok(true)
}

/// What the VEVENTs of a meeting say, the master first.
fn events_of(
    alloc: Global,
    octets: &[u8],
    method: Option<Method>,
) -> Result<Vec<EventComponent>, NoAnswer> {
    let text = Unfolded::read(alloc, octets, Limits::Open)?;
    let object = read_object(alloc, &text, Limits::Open)?;
    Ok(read_meeting(alloc, &object, method)?)
}

pub fn answered(alloc: Global, octets: &[u8], room: &Address) -> Result<String, NoAnswer> {
    let mut list = String::new(alloc);
    for event in &events_of(alloc, octets, Some(Method::Request))? {
        let word = status_word(event.status_of(room));
        let item = format!(in alloc; "ends {} {word}", event.end())?;
        append(&mut list, ", ", item.as_str())?;
    }
    Ok(list)
}

fn status_word(status: Option<PartStat>) -> &'static str {
    match status {
        Some(PartStat::Accepted) => "accepted",
        Some(PartStat::Declined) => "declined",
        Some(_) => "otherwise",
        None => "not asked",
    }
}

pub fn times(alloc: Global, octets: &[u8]) -> Result<String, NoAnswer> {
    let mut list = String::new(alloc);
    for event in &events_of(alloc, octets, None)? {
        let times = event.times;
        let item = format!(in alloc; "from {} for {}", times.instant.instant(), times.seconds())?;
        append(&mut list, ", ", item.as_str())?;
    }
    Ok(list)
}

pub fn ends(alloc: Global, octets: &[u8]) -> Result<String, NoAnswer> {
    let mut list = String::new(alloc);
    for event in &events_of(alloc, octets, None)? {
        let item = event.end().to_string(alloc)?;
        append(&mut list, ", ", item.as_str())?;
    }
    Ok(list)
}

pub fn checked(
    alloc: Global,
    octets: &[u8],
    room: &Address,
    certificate: &str,
) -> Result<String, NoAnswer> {
    let certificate = octets_of(alloc, certificate)?;
    let checked = check(alloc, octets, certificate.as_slice(), room)?;
    verdict_text(alloc, checked)
}

/// The certificate that is made for a calendar, or the clash.
pub fn certified(alloc: Global, octets: &[u8], room: &Address) -> Result<String, NoAnswer> {
    let calendar = Calendar::read(alloc, octets, room)?;
    made(alloc, &calendar)
}

/// Whether the text is a certificate of the calendar, judged over one that hands on what another hands out, and how many that counted.
pub fn handed_on(
    alloc: Global,
    octets: &[u8],
    room: &Address,
    certificate: &str,
) -> Result<String, NoAnswer> {
    let certificate = octets_of(alloc, certificate)?;
    let calendar = Calendar::read(alloc, octets, room)?;
    let mut counting = Counting::of(Drawing::new(alloc, &calendar)?);
    let checked = judge(alloc, &mut counting, certificate.as_slice())?;
    let verdict = verdict_text(alloc, checked)?;
    Ok(format!(in alloc; "{verdict}, {} counted", counting.drawn())?)
}

/// What is made for a calendar where an old certificate is there, and for each series its number in that, or 0 for a new one.
pub fn extended(
    alloc: Global,
    octets: &[u8],
    room: &Address,
    input: &str,
) -> Result<String, NoAnswer> {
    let (numbers, text) = first_word(input);
    let text = octets_of(alloc, text)?;
    let Ok(old) = Certificate::read(alloc, text.as_slice()) else {
        return Err(NoAnswer::Unreadable);
    };
    let mut kept = Vec::new(alloc);
    for word in numbers.split(",") {
        let number = count(word)?;
        kept.push(if number == 0 { None } else { Some(number) })?;
    }
    let calendar = Calendar::read(alloc, octets, room)?;
    made_text(alloc, extend(alloc, &old, kept.as_slice(), &calendar)?)
}
