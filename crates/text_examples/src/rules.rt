//! Cases of rules. A rule is followed by the days of its start and its end, which are eight digits each.

use cal_days::{Civil, Day};
use cal_rules::{Rule, RuleText};
use example_cases::answers::yes_or_no;
use example_cases::words::count;
use example_cases::{Case, NoAnswer};
use ical_lines::Refusal;
use std::alloc::{AllocError, Global};

pub fn answer(alloc: Global, case: Case<'_>) -> Result<String, NoAnswer> {
    match case.call() {
        "read" => read(alloc, case.input()),
        "months" => months(alloc, case.input()),
        "write" => write(alloc, case.input(), case.column(3)),
        "days" => days(alloc, case),
        "holds" => holds(alloc, case),
        "seek" => seek(alloc, case),
        _ => Err(NoAnswer::Unreadable),
    }
}

fn read(alloc: Global, text: &str) -> Result<String, NoAnswer> {
    let _rule = RuleText::read(alloc, text)?;
    Ok(String::from_str(alloc, "read")?)
}

/// How many months are read of a rule that names January so often.
fn months(alloc: Global, how_often: &str) -> Result<String, NoAnswer> {
    let mut text = String::from_str(alloc, "FREQ=DAILY;BYMONTH=1")?;
    for _ in 1..count(how_often)? {
        text.push_str(",1")?;
    }
    let rule = RuleText::read(alloc, text.as_str())?;
    Ok(format!(in alloc; "{}", rule.months().len())?)
}

/// What is written of a rule, and of the rule that reads from it.
fn write(alloc: Global, text: &str, until: &str) -> Result<String, NoAnswer> {
    let until = if until.is_empty() { None } else { Some(until) };
    let first = written(alloc, text, until)?;
    let second = written(alloc, first.as_str(), until)?;
    Ok(format!(in alloc; "{first} and again {second}")?)
}

fn written(alloc: Global, text: &str, until: Option<&str>) -> Result<String, NoAnswer> {
    let mut out = Vec::new(alloc);
    RuleText::read(alloc, text)?.write(until, &mut out)?;
    Ok(String::from_utf8_lossy(alloc, out.as_slice())?)
}

/// The days of a rule from a day on, as many as asked; `end` where there are no more.
fn days(alloc: Global, case: Case<'_>) -> Result<String, NoAnswer> {
    let rule = rule_of(alloc, case)?;
    let mut days = rule.days(day_of(case.column(5))?);
    let mut text = String::new(alloc);
    for place in 0..count(case.column(6))? {
        if place > 0 {
            text.push(' ')?;
        }
        push_day(&mut text, days.next(), "end")?;
    }
    Ok(text)
}

/// Is the day in column 5 one of the rule?
fn holds(alloc: Global, case: Case<'_>) -> Result<String, NoAnswer> {
    let rule = rule_of(alloc, case)?;
    let is_held = rule.holds(day_of(case.column(5))?);
    Ok(String::from_str(alloc, yes_or_no(is_held))?)
}

/// The first day of the rule that isn't before the one in column 5, which is looked for as often as column 6 says.
fn seek(alloc: Global, case: Case<'_>) -> Result<String, NoAnswer> {
    let rule = rule_of(alloc, case)?;
    let target = day_of(case.column(5))?;
    let mut found = None;
    for _ in 0..times(case.column(6))? {
        found = rule.seek(target);
    }
    let mut text = String::new(alloc);
    push_day(&mut text, found, "none")?;
    Ok(text)
}

/// How often a day is looked for: once where nothing is said.
fn times(column: &str) -> Result<u32, NoAnswer> {
    if column.is_empty() {
        return Ok(1);
    }
    count(column)
}

/// The rule in column 2, with the start in column 3 and the end in column 4.
fn rule_of(alloc: Global, case: Case<'_>) -> Result<Rule, NoAnswer> {
    let text = RuleText::read(alloc, case.input())?;
    let start = day_of(case.column(3))?;
    let end = day_of(case.column(4))?;
    Ok(Rule::new(text, start, end)?)
}

/// The day of the digits `YYYYMMDD`.
fn day_of(digits: &str) -> Result<Day, NoAnswer> {
    let number = count(digits)?;
    let year = (number / 10_000) as i32;
    let month = (number / 100 % 100) as u8;
    let day = (number % 100) as u8;
    Ok(Day::of(year, month, day).ok_or(Refusal::BAD_DATE_TIME)?)
}

/// Adds the digits of a day, or the word for no day.
fn push_day(text: &mut String, day: Option<Day>, no_day: &str) -> Result<(), AllocError> {
    let Some(day) = day else {
        return text.push_str(no_day);
    };
    let Civil { year, month, day } = day.civil();
    write!(text, "{year:04}{month:02}{day:02}")
}
