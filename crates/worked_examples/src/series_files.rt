//! What is answered about the series of a calendar, two by two; and the residues of one.

use cal_events::{Calendar, Instance, Series};
use cal_period::{clash_alone, clash_of_pair, residues};
use example_cases::NoAnswer;
use example_cases::answers::append;
use example_cases::words::count;
use ical_values::Address;
use std::alloc::Global;

/// Each pair of series, and each with itself, in the order of the calendar: that the two are clear, or the starts of two instances that share
/// an instant.
pub fn pairs(alloc: Global, octets: &[u8], room: &Address) -> Result<String, NoAnswer> {
    let calendar = Calendar::read(alloc, octets, room)?;
    let mut list = String::new(alloc);
    let series = calendar.series();
    for place in 0..series.len() {
        add_from(alloc, &mut list, &series[place..])?;
    }
    Ok(list)
}

/// The first of these series with itself, and with each other one.
fn add_from(alloc: Global, list: &mut String, series: &[Series]) -> Result<(), NoAnswer> {
    let Some((first, others)) = series.split_first() else {
        return Ok(());
    };
    add(alloc, list, clash_alone(first))?;
    for second in others {
        add(alloc, list, clash_of_pair(first, second))?;
    }
    Ok(())
}

fn add(
    alloc: Global,
    list: &mut String,
    found: Option<(Instance<'_>, Instance<'_>)>,
) -> Result<(), NoAnswer> {
    let item = match found {
        Some((first, second)) => format!(in alloc; "{} and {}", first.start, second.start)?,
        None => "clear".to_string(alloc)?,
    };
    append(list, ", ", item.as_str())?;
    Ok(())
}

/// Each pair of different series, in the order of the calendar and in the other: the starts of two instances that share an instant, the first
/// of the first series; or that they are clear.
pub fn clashes(alloc: Global, octets: &[u8], room: &Address) -> Result<String, NoAnswer> {
    let calendar = Calendar::read(alloc, octets, room)?;
    let mut list = String::new(alloc);
    let series = calendar.series();
    for place in 0..series.len() {
        add_clashes(alloc, &mut list, &series[place..])?;
    }
    Ok(list)
}

/// The first of these series with each other one.
fn add_clashes(alloc: Global, list: &mut String, series: &[Series]) -> Result<(), NoAnswer> {
    let Some((first, others)) = series.split_first() else {
        return Ok(());
    };
    for second in others {
        add(alloc, list, clash_of_pair(first, second))?;
        add(alloc, list, clash_of_pair(second, first))?;
    }
    Ok(())
}

/// The residues of the first series modulo so many seconds, which have to be those of 1 to 420 days.
pub fn first_residues(
    alloc: Global,
    octets: &[u8],
    room: &Address,
    seconds: &str,
) -> Result<String, NoAnswer> {
    let seconds = u64::from(count(seconds)?);
    let days = seconds / 86_400;
    if days == 0 || 420 < days || 86_400 * days != seconds {
        return Err(NoAnswer::Unreadable);
    }
    let calendar = Calendar::read(alloc, octets, room)?;
    let Some((first, _)) = calendar.series().split_first() else {
        return Err(NoAnswer::Unreadable);
    };
    listed(alloc, residues(alloc, first, 86_400 * days)?.as_slice())
}

/// Numbers, in their order.
fn listed(alloc: Global, numbers: &[u64]) -> Result<String, NoAnswer> {
    let mut list = String::new(alloc);
    for number in numbers {
        let item = number.to_string(alloc)?;
        append(&mut list, ", ", item.as_str())?;
    }
    Ok(list)
}
