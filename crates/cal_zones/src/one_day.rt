//! Recurrence rules that name one day a year (RFC 5545 3.3.10): which day that is.

ghost use Rattle.std.specs.Prelude.{◌≡◌, ℕ, ◌≤◌, true, false, map, pos, [], ◌∷◌, IfSome, IfNone};
ghost use Rattle.std.specs.List.{list_all, list_any};
ghost use Rattle.std.specs.Ordering.{int_eq};
ghost use Rattle.profile.specs.series.ZoneTexts.{YearRule, are_only, is_of_seven, are_seven, names_days, is_plain_yearly, is_one_day};
ghost use Rattle.profile.specs.series.GeneralZoneTexts.{without_end};
ghost use Rattle.cal_rules.specs.Views.{weekday_number_of};
ghost use Rattle.cal_zones.specs.Shapes.{days_of, rule_named};
ghost use Rattle.cal_zones.specs.Named.{NamesNone};

use crate::yearly::{MonthDays, Yearly};
use cal_days::Frequency;
use cal_rules::{RuleText, WeekdayNumber};

/// Is each value of the list that one?
fn are_all<T: PartialEq>(values: &[T], one: &T) -> bool
    ensures { result ≡ list_all (λ value. T.eq value one.now) values.now }
{
    values.iter().all(|value| value == one)
}

/// The one value of a list, in which it may occur more than once. None where there are two values, or
/// none.
fn only<T: Copy + PartialEq>(values: &[T]) -> Option<T>
    ensures found { IfSome result (λ one. are_only (λ value. T.eq value one) values.now ≡ true) }
    ensures none { IfNone result ((one : T) → are_only (λ value. T.eq value one) values.now ≡ false) }
{
    let first = values.first()?;
    if !are_all(values, first) {
        return None;
    }
    Some(*first)
}

/// Is the number one of seven in a row, from that one on?
fn is_of_seven(first: u8, number: i16) -> bool
    ensures { result ≡ is_of_seven first number }
{
    let first = first as i16;
    first <= number && number <= first + 6
}

/// Is that day of the month in the list?
fn has_day(numbers: &[i16], day: u8) -> bool
    ensures { result ≡ list_any (λ x. int_eq x (pos day)) numbers.now }
{
    numbers.contains(&(day as i16))
}

/// Are the numbers those seven, in any order?
fn are_seven(first: u8, numbers: &[i16]) -> bool
    requires { first ≤ 25 }
    ensures { result ≡ are_seven first numbers.now }
{
    numbers.iter().all(|number| is_of_seven(first, *number))
        && (0..7).all(|more| has_day(numbers, first + more))
}

/// The first of seven numbers in a row that BYMONTHDAY names.
fn first_of_seven(numbers: &[i16]) -> Option<u8>
    ensures found { IfSome result (λ first. are_seven first numbers.now ≡ true) }
    ensures none { IfNone result ((first : ℕ) → first ≤ 25 → are_seven first numbers.now ≡ false) }
{
    let first = u8::try_from(*numbers.iter().min()?).ok()?;
    if first > 25 {
        return None;
    }
    if !are_seven(first, numbers) {
        return None;
    }
    Some(first)
}

/// The day of its month that BYMONTHDAY and the one entry of BYDAY name.
fn weekday_named(numbers: &[i16], entry: WeekdayNumber) -> Option<MonthDays>
    ensures found { IfSome result (λ days. names_days (days_of days) numbers.now (weekday_number_of entry ∷ []) ≡ true) }
    ensures none { IfNone result (NamesNone numbers.now (weekday_number_of entry ∷ [])) }
{
    let WeekdayNumber { number, weekday } = entry;
    if number == 0 {
        let first = first_of_seven(numbers)?;
        return Some(MonthDays::Week { first, weekday });
    }
    if !numbers.is_empty() {
        return None;
    }
    match number {
        1..=4 => Some(MonthDays::FromStart {
            number: number as u8,
            weekday,
        }),
        -4..=-1 => Some(MonthDays::FromEnd {
            number: number.unsigned_abs() as u8,
            weekday,
        }),
        _ => None,
    }
}

/// The day of its month that BYMONTHDAY and BYDAY name.
fn days_named(numbers: &[i16], entries: &[WeekdayNumber]) -> Option<MonthDays>
    ensures found { IfSome result (λ days. names_days (days_of days) numbers.now (map weekday_number_of entries.now) ≡ true) }
    ensures none { IfNone result (NamesNone numbers.now (map weekday_number_of entries.now)) }
{
    if entries.is_empty() {
        let day = u8::try_from(only(numbers)?).ok()?;
        return Some(MonthDays::Day(day));
    }
    let entry = only(entries)?;
    weekday_named(numbers, entry)
}

/// Is it a YEARLY rule without INTERVAL and BYSETPOS? COUNT or UNTIL may end it.
fn is_plain_yearly(rule: &RuleText) -> bool
    ensures { result ≡ is_plain_yearly (without_end rule.now) }
{
    rule.frequency() == Frequency::Yearly && rule.interval() == 1 && rule.positions().is_empty()
}

/// The one day of every year that a rule names, whether COUNT or UNTIL ends it or not (RFC 5545 3.3.10). None where it names none or several.
pub fn day_named(rule: &RuleText) -> Option<Yearly>
    ensures found { IfSome result (λ r. is_one_day (without_end rule.now) (rule_named r.month r.days) ≡ true) }
    ensures none { IfNone result ((r : YearRule) → is_one_day (without_end rule.now) r ≡ true → ⊥) }
{
    if !is_plain_yearly(rule) {
        return None;
    }
    let month = only(rule.months())?;
    let days = days_named(rule.month_days(), rule.weekdays())?;
    Yearly::new(month, days)
}

/// The one day of every year that a rule names. None where it names none or several, or ends.
pub(crate) fn day_of_year(rule: &RuleText) -> Option<Yearly>
    ensures found { IfSome result (λ r. is_one_day rule.now (rule_named r.month r.days) ≡ true) }
    ensures none { IfNone result ((r : YearRule) → is_one_day rule.now r ≡ true → ⊥) }
{
    if rule.count().is_some() || rule.until().is_some() {
        return None;
    }
    day_named(rule)
}
