//! The values of a rule's parts: words, numbers, weekdays, dates, and lists of them with commas between, at most 366 entries
//! each (RFC 5545 3.3.10).

ghost use Rattle.std.specs.Prelude.{◌<◌, ◌≤◌, ◌^◌, ℕ, Some, None, IfSome, IfNone, map, IfOk};
ghost use Rattle.std.specs.Fn.{FnReturnsAt};
ghost use Rattle.profile.specs.text.Values.{IsNumber};
ghost use Rattle.profile.specs.series.RuleTexts.{SpellsFrequency, SpellsWeekday, SpellsBetween, SpellsInterval, SpellsCount, SpellsPlace, SpellsEntry, SpellsUntil, SpellsNone, SpellsList, SpellsMonths, SpellsEntries};
ghost use Rattle.cal_days.specs.Views.{frequency_of};
ghost use Rattle.cal_rules.specs.Lists.{IsNoList};
ghost use Rattle.cal_rules.specs.Views.{weekday_number_of, until_of};

use crate::written::{Until, WeekdayNumber};
use cal_days::Frequency;
use ical_values::date::read_date;
use ical_values::{LocalTime, Stamp};
use std::alloc::{AllocError, Global};

/// The most entries of a list.
const MOST: usize = 366;

/// The frequency of a word; those of less than a day aren't supported.
pub(crate) fn read_frequency(value: &str) -> Option<Frequency>
    ensures reads { IfSome result (λ f. SpellsFrequency value.now (frequency_of f)) }
    ensures none { IfNone result (SpellsNone SpellsFrequency value.now) }
{
    match value {
        "DAILY" => Some(Frequency::Daily),
        "WEEKLY" => Some(Frequency::Weekly),
        "MONTHLY" => Some(Frequency::Monthly),
        "YEARLY" => Some(Frequency::Yearly),
        _ => None,
    }
}

/// The weekday of its two letters, 0 for Monday.
pub(crate) fn read_weekday(value: &str) -> Option<u8>
    ensures reads { IfSome result (SpellsWeekday value.now) }
    ensures none { IfNone result (SpellsNone SpellsWeekday value.now) }
{
    match value {
        "MO" => Some(0),
        "TU" => Some(1),
        "WE" => Some(2),
        "TH" => Some(3),
        "FR" => Some(4),
        "SA" => Some(5),
        "SU" => Some(6),
        _ => None,
    }
}

/// A number in decimal digits, without a sign. None past 32 bits too.
fn read_number(value: &str) -> Option<u32>
    ensures reads { IfSome result (IsNumber value.now) }
    ensures none { IfNone result ((n : ℕ) → n < 2 ^ 32 → IsNumber value.now n → ⊥) }
{
    if value.strip_prefix('+').is_some() {
        return None;
    }
    value.parse().ok()
}

/// A number from low to high in decimal digits, without a sign.
pub(crate) fn read_between(low: u32, high: u32, value: &str) -> Option<u32>
    ensures reads { IfSome result (SpellsBetween low high value.now) }
    ensures none { IfNone result (SpellsNone (SpellsBetween low high) value.now) }
{
    let number = read_number(value)?;
    if number < low || number > high {
        return None;
    }
    Some(number)
}

/// The value of INTERVAL.
pub(crate) fn read_interval(value: &str) -> Option<u16>
    ensures reads { IfSome result (SpellsInterval value.now) }
    ensures none { IfNone result (SpellsNone SpellsInterval value.now) }
{
    let number = read_between(1, 9999, value)?;
    Some(number as u16)
}

/// The value of COUNT.
pub(crate) fn read_count(value: &str) -> Option<u32>
    ensures reads { IfSome result (SpellsCount value.now) }
    ensures none { IfNone result (SpellsNone SpellsCount value.now) }
{
    read_between(1, 100_000, value)
}

/// An entry of BYMONTH.
pub(crate) fn read_month(value: &str) -> Option<u8>
    ensures reads { IfSome result (SpellsBetween 1 12 value.now) }
    ensures none { IfNone result (SpellsNone (SpellsBetween 1 12) value.now) }
{
    let number = read_between(1, 12, value)?;
    Some(number as u8)
}

/// A number from 1 to the most with an optional sign; with `-` it counts from the end.
pub(crate) fn read_place(most: u16, value: &str) -> Option<i16>
    requires { most ≤ 366 }
    ensures reads { IfSome result (SpellsPlace most value.now) }
    ensures none { IfNone result (SpellsNone (SpellsPlace most) value.now) }
{
    if let Some(digits) = value.strip_prefix('-') {
        let size = read_between(1, most as u32, digits)?;
        return Some(-(size as i16));
    }
    let digits = value.strip_prefix('+').unwrap_or(value);
    let size = read_between(1, most as u32, digits)?;
    Some(size as i16)
}

/// An entry of BYDAY: a weekday, with a number before it or none.
pub(crate) fn read_entry(value: &str) -> Option<WeekdayNumber>
    ensures reads { IfSome result (λ entry. SpellsEntry value.now (weekday_number_of entry)) }
    ensures none { IfNone result (SpellsNone SpellsEntry value.now) }
{
    if value.len() < 2 {
        return None;
    }
    if !value.is_char_boundary(value.len() - 2) {
        return None;
    }
    let (front, letters) = value.split_at(value.len() - 2);
    let weekday = read_weekday(letters)?;
    if front.is_empty() {
        return Some(WeekdayNumber { number: 0, weekday });
    }
    let number = read_place(53, front)?;
    Some(WeekdayNumber { number, weekday })
}

/// A date, a local date-time, or one in UTC.
pub(crate) fn read_until(value: &str) -> Option<Until>
    ensures reads { IfSome result (λ end. SpellsUntil value.now (until_of end)) }
    ensures none { IfNone result (SpellsNone SpellsUntil value.now) }
{
    if let Ok(stamp) = Stamp::read(value) {
        return Some(Until::Utc(stamp));
    }
    if let Ok(local) = LocalTime::read(value) {
        return Some(Until::Local(local));
    }
    let day = read_date(value.as_bytes())?;
    Some(Until::Date(day))
}

/// The values of a list, each as `read` takes it. None where it refuses one of them, or where they are too many.
fn read_list<T: Drop, F: Fn(&str) -> Option<T> + Drop>(
    alloc: Global,
    list: &str,
    read: F,
) -> Result<Option<Vec<T>>, AllocError>
    requires { F.IsAlwaysCallable read }
    ensures reads { IfOk result (λ taken. IfSome taken
        (λ values. SpellsList (λ text value. FnReturnsAt F.Fn read text (Some value)) list.now values.items)) }
    ensures none { IfOk result (λ taken. IfNone taken (IsNoList (λ text. FnReturnsAt F.Fn read text None) list.now)) }
{
    let mut values = Vec::new(alloc);
    for text in list.split(',') {
        let Some(value) = read(text) else {
            return Ok(None);
        };
        if values.len() == MOST {
            return Ok(None);
        }
        values.push(value)?;
    }
    Ok(Some(values))
}

/// The entries of BYMONTH. None where one isn't a month, or where they are too many.
pub(crate) fn read_months(alloc: Global, value: &str) -> Result<Option<Vec<u8>>, AllocError>
    ensures reads { IfOk result (λ read. IfSome read (λ months. SpellsMonths value.now months.items)) }
    ensures none { IfOk result (λ read. IfNone read (SpellsNone SpellsMonths value.now)) }
{
    read_list(alloc, value, read_month)
}

/// The entries of BYMONTHDAY or BYSETPOS, from 1 to the most or from -1 to minus the most. None where one isn't such a
/// number, or where they are too many.
pub(crate) fn read_places(
    alloc: Global,
    most: u16,
    value: &str,
) -> Result<Option<Vec<i16>>, AllocError>
    requires { most ≤ 366 }
    ensures reads { IfOk result (λ read. IfSome read (λ places. SpellsList (SpellsPlace most) value.now places.items)) }
    ensures none { IfOk result (λ read. IfNone read (SpellsNone (SpellsList (SpellsPlace most)) value.now)) }
{
    read_list(alloc, value, |entry| read_place(most, entry))
}

/// The entries of BYDAY. None where one isn't an entry, or where they are too many.
pub(crate) fn read_entries(
    alloc: Global,
    value: &str,
) -> Result<Option<Vec<WeekdayNumber>>, AllocError>
    ensures reads { IfOk result
        (λ read. IfSome read (λ entries. SpellsEntries value.now (map weekday_number_of entries.items))) }
    ensures none { IfOk result (λ read. IfNone read (SpellsNone SpellsEntries value.now)) }
{
    read_list(alloc, value, read_entry)
}
