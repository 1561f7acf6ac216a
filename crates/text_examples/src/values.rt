//! Cases of values: what is read, and what is written of it.

use example_cases::answers::{equality, none, yes_or_no};
use example_cases::spelled::{shown, text_of};
use example_cases::words::{count, number};
use example_cases::{Case, NoAnswer};
use ical_values::{
    Address, Duration, LocalTime, Sequence, Stamp, Text, UtcOffset, shown as texts, stamp,
};
use std::alloc::{AllocError, Global};

pub fn answer(alloc: Global, case: Case<'_>) -> Result<String, NoAnswer> {
    let text = text_of(alloc, case.input())?;
    let text = text.as_str();
    match case.call() {
        "duration" => duration(alloc, text),
        "duration of" => duration_of(alloc, text, case.column(3)),
        "stamp" => stamp_and_back(alloc, text),
        "stamp of" => stamp_of(alloc, text),
        "least stamp" => Ok(format!(in alloc; "{}", Stamp::least().instant())?),
        "local time" => local_time(alloc, text),
        "offset" => offset(alloc, text),
        "sequence" => sequence(alloc, text),
        "sequence of" => sequence_of(alloc, text),
        "text" => Ok(escaped_text(alloc, text)?),
        "uid" => uid(alloc, text),
        "address" => address(alloc, text),
        _ => shown_answer(alloc, case.call(), text),
    }
}

/// Values as texts of their own.
fn shown_answer(alloc: Global, call: &str, text: &str) -> Result<String, NoAnswer> {
    let shown_text = match call {
        "stamp as text" => texts::stamp_text(alloc, Stamp::read(text)?)?,
        "local time as text" => texts::local_text(alloc, LocalTime::read(text)?)?,
        "offset as text" => texts::offset_text(alloc, UtcOffset::read(text)?)?,
        "sequence as text" => texts::sequence_text(alloc, Sequence::read(text)?)?,
        "escaped text" => texts::escaped_text(alloc, &Text::of(alloc, text)?)?,
        "ends in Z" => {
            let ends = yes_or_no(stamp::ends_in_z(text));
            return Ok(String::from_str(alloc, ends)?);
        }
        _ => return Err(NoAnswer::Unreadable),
    };
    Ok(shown(alloc, shown_text.as_bytes())?)
}

fn duration(alloc: Global, text: &str) -> Result<String, NoAnswer> {
    let Duration { days, seconds } = Duration::read(text)?;
    Ok(format!(in alloc; "{days} days {seconds} seconds")?)
}

fn duration_of(alloc: Global, days: &str, seconds: &str) -> Result<String, NoAnswer> {
    let days = count(days)?;
    let seconds = count(seconds)?;
    let mut out = Vec::new(alloc);
    Duration { days, seconds }.write(&mut out)?;
    Ok(shown(alloc, out.as_slice())?)
}

fn stamp_and_back(alloc: Global, text: &str) -> Result<String, NoAnswer> {
    let stamp = Stamp::read(text)?;
    let instant = stamp.instant();
    let back = equality(Stamp::of_instant(instant) == Some(stamp));
    let mut out = Vec::new(alloc);
    stamp.write(&mut out)?;
    let written = shown(alloc, out.as_slice())?;
    Ok(format!(in alloc; "{instant}, back {back}, written {written}")?)
}

fn stamp_of(alloc: Global, instant: &str) -> Result<String, NoAnswer> {
    let Some(stamp) = Stamp::of_instant(number(instant)?) else {
        return Ok(none(alloc)?);
    };
    let mut out = Vec::new(alloc);
    stamp.write(&mut out)?;
    Ok(shown(alloc, out.as_slice())?)
}

fn local_time(alloc: Global, text: &str) -> Result<String, NoAnswer> {
    let time = LocalTime::read(text)?;
    let seconds = time.seconds();
    let back = equality(LocalTime::of_seconds(seconds) == Some(time));
    let mut out = Vec::new(alloc);
    time.write(&mut out)?;
    let written = shown(alloc, out.as_slice())?;
    Ok(format!(in alloc; "{seconds}, back {back}, written {written}")?)
}

fn offset(alloc: Global, text: &str) -> Result<String, NoAnswer> {
    let offset = UtcOffset::read(text)?;
    let seconds = offset.seconds();
    let mut out = Vec::new(alloc);
    offset.write(&mut out)?;
    let written = shown(alloc, out.as_slice())?;
    Ok(format!(in alloc; "{seconds}, written {written}")?)
}

fn sequence(alloc: Global, text: &str) -> Result<String, NoAnswer> {
    let sequence = Sequence::read(text)?;
    let number = sequence.number();
    let back = equality(Sequence::of_number(number) == Some(sequence));
    let mut out = Vec::new(alloc);
    sequence.write(&mut out)?;
    let written = shown(alloc, out.as_slice())?;
    Ok(format!(in alloc; "{number}, back {back}, written {written}")?)
}

fn sequence_of(alloc: Global, number: &str) -> Result<String, NoAnswer> {
    match Sequence::of_number(count(number)?) {
        Some(sequence) => Ok(format!(in alloc; "{}", sequence.number())?),
        None => Ok(none(alloc)?),
    }
}

fn escaped_text(alloc: Global, text: &str) -> Result<String, AllocError> {
    let read = Text::read(alloc, text)?;
    let octets = shown(alloc, read.as_str().as_bytes())?;
    let back = equality(Text::of(alloc, read.as_str())? == read);
    let copy = equality(read.clone()? == read);
    let mut out = Vec::new(alloc);
    read.write(&mut out)?;
    let written = shown(alloc, out.as_slice())?;
    format!(in alloc; "{octets}, back {back}, copy {copy}, written {written}")
}

fn uid(alloc: Global, text: &str) -> Result<String, NoAnswer> {
    let uid = Text::read_uid(alloc, text)?;
    Ok(shown(alloc, uid.as_str().as_bytes())?)
}

fn address(alloc: Global, text: &str) -> Result<String, NoAnswer> {
    let address = Address::read(alloc, text)?;
    let octets = shown(alloc, address.as_str().as_bytes())?;
    let copy = equality(address.clone()? == address);
    let mut out = Vec::new(alloc);
    address.write(&mut out)?;
    let written = shown(alloc, out.as_slice())?;
    Ok(format!(in alloc; "{octets}, copy {copy}, written {written}")?)
}
