//! Cases of days. A day is written as its number from 1970-01-01, a date as its year, month and day.

use cal_days::{Civil, Day, Frequency, PeriodIndex};
use example_cases::answers::none;
use example_cases::words::{first_word, number, small};
use example_cases::{Case, NoAnswer};
use std::alloc::Global;

pub fn answer(alloc: Global, case: Case<'_>) -> Result<String, NoAnswer> {
    match case.call() {
        "number of date" => number_of_date(alloc, case.input()),
        "date of number" => date_of_number(alloc, case.input()),
        "parts of day" => parts(alloc, case.input()),
        "periods between" => periods_between(alloc, case),
        _ => Err(NoAnswer::Unreadable),
    }
}

/// The number of a date `YEAR MONTH DAY`.
fn number_of_date(alloc: Global, date: &str) -> Result<String, NoAnswer> {
    match day_of_date(date)? {
        Some(day) => Ok(format!(in alloc; "{}", day.number())?),
        None => Ok(none(alloc)?),
    }
}

fn day_of_date(date: &str) -> Result<Option<Day>, NoAnswer> {
    let (year, rest) = first_word(date);
    let (month, day) = first_word(rest);
    let year = year.parse::<i32>().ok().ok_or(NoAnswer::Unreadable)?;
    Ok(Day::of(year, small(month)?, small(day)?))
}

/// The date of a number.
fn date_of_number(alloc: Global, day: &str) -> Result<String, NoAnswer> {
    let Some(day) = Day::of_number(number(day)?) else {
        return Ok(none(alloc)?);
    };
    let Civil { year, month, day } = day.civil();
    Ok(format!(in alloc; "{year} {month} {day}")?)
}

/// What a day says of its week, month and year.
fn parts(alloc: Global, day: &str) -> Result<String, NoAnswer> {
    let day = day_of_number(day)?;
    let is_same = Day::at_index(day.index()) == Some(day);
    Ok(format!(in alloc;
        "day {}, weekday {}, {} days in its month, {} of its year before it, {} after it, at its index {}",
        day.number(),
        day.weekday(),
        day.days_in_month(),
        day.year_days_before(),
        day.year_days_after(),
        if is_same { "the same" } else { "another" }
    )?)
}

fn day_of_number(word: &str) -> Result<Day, NoAnswer> {
    Day::of_number(number(word)?).ok_or(NoAnswer::Unreadable)
}

/// How many periods the second day is later than the first: the weekday that weeks start on, and the days, in columns 3 to 5.
fn periods_between(alloc: Global, case: Case<'_>) -> Result<String, NoAnswer> {
    let frequency = frequency_of(case.input())?;
    let week_start = small(case.column(3))?;
    let first = PeriodIndex::of(frequency, week_start, day_of_number(case.column(4))?);
    let second = PeriodIndex::of(frequency, week_start, day_of_number(case.column(5))?);
    match second.number().checked_sub(first.number()) {
        Some(later) => Ok(format!(in alloc; "{later}")?),
        None => Ok(none(alloc)?),
    }
}

fn frequency_of(word: &str) -> Result<Frequency, NoAnswer> {
    match word {
        "daily" => Ok(Frequency::Daily),
        "weekly" => Ok(Frequency::Weekly),
        "monthly" => Ok(Frequency::Monthly),
        "yearly" => Ok(Frequency::Yearly),
        _ => Err(NoAnswer::Unreadable),
    }
}
