//! Days of the proleptic Gregorian calendar, from 0001-01-01 to 10001-12-31.
//!
//! A day is kept as its number, which counts from 1970-01-01. The calendar itself is jiff's, which
//! ends at 9999-12-31: a later day is computed 400 years, which are 146,097 days, earlier.
#![tactic(auto)]

ghost use Rattle.std.specs.Prelude.{ℕ, suc, ◌≡◌, ◌↔◌, ◌+◌, ◌<◌, ◌≤◌, ◌≤ℤ◌, ◌+ℤ◌, ◌-ℤ◌, pos, negsuc, unsigned_abs, IsSome, IfSome};
ghost use Rattle.profile.specs.series.Days.{IsDayNumber, IsDayDate, IsDate, days_before, number_of_date, number_of_day, is_leap_year, days_in_year, days_in_month, year_start, day_index, year_of, month_of, month_days_before, month_days_after, year_days_before, year_days_after, weekday_of};
ghost use Rattle.cal_days.specs.Views.{PeriodsRepeat, PeriodsAscend, PeriodsLast};

mod period;

use jiff::civil;
pub use period::{Frequency, PeriodIndex};
use std::marker::Model;

/// The days of 400 years, after which the calendar repeats.
pub const CYCLE: u32 = 146_097;

/// The index of 0001-01-01, the first day.
pub const FIRST_INDEX: u32 = 366;

/// The index of 1970-01-01, of which the number is 0: a day's index is its number and this.
pub const EPOCH_INDEX: u32 = 719_528;

/// The index of 9999-12-31, the last day that a text can say, and jiff's last.
pub const LAST_INDEX: u32 = 3_652_424;

/// The number of 0001-01-01.
pub const FIRST_NUMBER: i64 = FIRST_INDEX as i64 - EPOCH_INDEX as i64;

/// The number of 9999-12-31.
pub const LAST_NUMBER: i64 = LAST_INDEX as i64 - EPOCH_INDEX as i64;

/// The number of 10001-12-31, the last day.
const LATEST: i64 = 2_933_627;

/// A day, by its number from 1970-01-01.
#[derive(Clone, Copy, PartialEq, Eq)]
pub struct Day {
    number: i64,
}

impl Model for Day {
    ghost use Rattle.std.specs.Prelude.{ℤ};
    ghost use Rattle.profile.specs.series.Days.{IsDayNumber};

    ghost Value = { ℤ };

    ghost view = { λ d. d.number };

    ghost inverse = { λ n. record { number = n } };

    ghost invariant = { λ d. IsDayNumber d.number };
}

/// The date of a day.
#[derive(Clone, Copy, PartialEq, Eq)]
pub struct Civil {
    /// From 1 to 10001.
    pub year: i32,
    /// From 1 to 12.
    pub month: u8,
    /// From 1 to the length of the month.
    pub day: u8,
}

impl Day {
    /// The day of that date. None where the calendar has no such date, or the year isn't one of 1 to
    /// 10001.
    pub fn of(year: i32, month: u8, day: u8) -> Option<Day>
        ensures found { IsSome result ↔ IsDayDate year month day }
        ensures value { IfSome result (λ d. d ≡ number_of_day year month day) }
        ensures early { IfSome result (λ d. year ≤ℤ pos 9999 → d ≤ℤ pos 2_932_896) }
    {
        if year < 1 || year > 10_001 {
            return None;
        }
        if year > 9999 {
            let number = late_number_of(year, month, day)?;
            return Some(Day { number });
        }
        let number = number_of(year, month, day)?;
        Some(Day { number })
    }

    /// The day of that number. None before 0001-01-01 and after 10001-12-31.
    pub fn of_number(number: i64) -> Option<Day>
        ensures found { IsSome result ↔ IsDayNumber number }
        ensures value { IfSome result (λ d. d ≡ number) }
    {
        if number < FIRST_NUMBER || number > LATEST {
            return None;
        }
        Some(Day { number })
    }

    /// Days from 1970-01-01.
    pub fn number(self) -> i64
        ensures value { result ≡ self }
        ensures range { IsDayNumber result }
    {
        self.number
    }

    /// Days from 0000-01-01: 366 for 0001-01-01, 719,528 for 1970-01-01.
    pub fn index(self) -> u32
        ensures value { result ≡ day_index self }
        ensures range { (366 ≤ result) × (result ≤ 3_653_155) }
    {
        let Day { number } = self;
        (number + EPOCH_INDEX as i64) as u32
    }

    /// The day of that index. None before 0001-01-01 and after 10001-12-31.
    pub fn at_index(index: u32) -> Option<Day>
        ensures found { IsSome result ↔ ((366 ≤ index) × (index ≤ 3_653_155)) }
        ensures value { IfSome result (λ d. day_index d ≡ index) }
    {
        Day::of_number(number_at(index))
    }

    /// The date of the day.
    pub fn civil(self) -> Civil
        ensures date { IsDayDate result.year result.month result.day }
        ensures number { number_of_day result.year result.month result.day ≡ self }
        ensures early { self ≤ℤ pos 2_932_896 → result.year ≤ℤ pos 9999 }
        ensures parts { let index = day_index self in
            (result.year ≡ pos (year_of index)) × (result.month ≡ month_of index)
            × (result.day ≡ suc (month_days_before index)) }
    {
        let Day { number } = self;
        civil_of(number)
    }

    /// Its year, from 1 to 10001.
    pub fn year(self) -> u32
        ensures value { result ≡ year_of (day_index self) }
        ensures range { (1 ≤ result) × (result ≤ 10_001) }
    {
        self.civil().year as u32
    }

    /// Its weekday, from 0 for Monday to 6 for Sunday.
    #[tactic(auto, unfolding(profile::specs::series::Days::weekday_of))]
    pub fn weekday(self) -> u8
        ensures value { result ≡ weekday_of (day_index self) }
        ensures range { result < 7 }
    {
        ((self.index() + 5) % 7) as u8
    }

    /// The days of its month, from 28 to 31.
    pub fn days_in_month(self) -> u8
        ensures value { let index = day_index self in
            result ≡ days_in_month (year_of index) (month_of index) }
        ensures range { (28 ≤ result) × (result ≤ 31) }
    {
        let civil = self.civil();
        month_length(civil.year as u32, civil.month)
    }

    /// The days of its month before it, from 0 to 30.
    pub fn month_days_before(self) -> u8
        ensures value { result ≡ month_days_before (day_index self) }
        ensures range { result ≤ 30 }
    {
        self.civil().day - 1
    }

    /// The days of its month after it, from 0 to 30.
    pub fn month_days_after(self) -> u8
        ensures value { result ≡ month_days_after (day_index self) }
        ensures range { result ≤ 30 }
    {
        self.days_in_month() - self.month_days_before() - 1
    }

    /// The days of its year before it, from 0 to 365.
    pub fn year_days_before(self) -> u16
        ensures value { result ≡ year_days_before (day_index self) }
        ensures range { result ≤ 365 }
    {
        (self.index() - year_start(self.year())) as u16
    }

    /// The days of its year after it, from 0 to 365.
    pub fn year_days_after(self) -> u16
        ensures value { result ≡ year_days_after (day_index self) }
        ensures range { result ≤ 365 }
    {
        days_in_year(self.year()) - self.year_days_before() - 1
    }
}

/// The number of the day of that index, in any year.
pub fn number_at(index: u32) -> i64
    ensures { result ≡ pos index -ℤ pos 719_528 }
{
    index as i64 - EPOCH_INDEX as i64
}

/// Is this a leap year?
fn is_leap_year(year: u32) -> bool
    ensures { result ≡ is_leap_year year }
{
    year % 4 == 0 && (year % 100 != 0 || year % 400 == 0)
}

/// The days of a year.
fn days_in_year(year: u32) -> u16
    ensures { result ≡ days_in_year year }
{
    if is_leap_year(year) { 366 } else { 365 }
}

/// The days of a month.
fn month_length(year: u32, month: u8) -> u8
    ensures value { result ≡ days_in_month year month }
    ensures range { (28 ≤ result) × (result ≤ 31) }
{
    match month {
        2 if is_leap_year(year) => 29,
        2 => 28,
        4 | 6 | 9 | 11 => 30,
        _ => 31,
    }
}

/// The days from 0000-01-01 to the first day of a year.
fn year_start(year: u32) -> u32
    requires { year ≤ 10_001 }
    ensures { result ≡ year_start year }
{
    365 * year + (year + 3) / 4 + (year + 399) / 400 - (year + 99) / 100
}

/// The date of a number.
fn civil_of(number: i64) -> Civil
    requires { IsDayNumber number }
    ensures date { IsDayDate result.year result.month result.day }
    ensures number { number_of_day result.year result.month result.day ≡ number }
    ensures early { number ≤ℤ pos 2_932_896 → result.year ≤ℤ pos 9999 }
{
    if number > LAST_NUMBER {
        return later(date_of(number - CYCLE as i64));
    }
    date_of(number)
}

/// No two dates have one number.
pub fn one_date()
    ensures { (year month day late_year late_month late_day : ℕ) → IsDate year month day
        → IsDate late_year late_month late_day
        → number_of_date year month day ≡ number_of_date late_year late_month late_day
        → (year ≡ late_year) × (month ≡ late_month) × (day ≡ late_day) }
{}

/// 146,097 days later is 400 years later, with the same month, day and weekday.
pub fn same_after_400_years()
    ensures date { (n : ℕ) → (year_of (n + 146_097) ≡ year_of n + 400) × (month_of (n + 146_097) ≡ month_of n)
        × (month_days_before (n + 146_097) ≡ month_days_before n) × (weekday_of (n + 146_097) ≡ weekday_of n) }
    ensures places { (n : ℕ) → (month_days_after (n + 146_097) ≡ month_days_after n)
        × (year_days_before (n + 146_097) ≡ year_days_before n) × (year_days_after (n + 146_097) ≡ year_days_after n) }
    ensures period { PeriodsRepeat }
{}

/// Later days are in the same or in later periods, and no period is shorter than the shortest.
pub fn periods_grow()
    ensures ascend { PeriodsAscend }
    ensures last { PeriodsLast }
{}

/// What the definitions give a day is the one date of its number.
pub fn date_of_index()
    ensures date { (n : ℕ) → IsDate (year_of n) (month_of n) (suc (month_days_before n)) }
    ensures count { (n : ℕ) → days_before (year_of n) (month_of n) (suc (month_days_before n)) ≡ n }
{}

/// The number of a date of the years 1 to 9999.
fn number_of(year: i32, month: u8, day: u8) -> Option<i64>
    requires low { pos 1 ≤ℤ year }
    requires high { year ≤ℤ pos 9999 }
    ensures found { IsSome result ↔ IsDate (unsigned_abs year) month day }
    ensures value { IfSome result (λ n. n ≡ number_of_day year month day) }
    ensures low { IfSome result (λ n. negsuc 719_161 ≤ℤ n) }
    ensures high { IfSome result (λ n. n ≤ℤ pos 2_932_896) }
{
    if month > 12 || day > 31 {
        return None;
    }
    match civil::Date::new(year as i16, month as i8, day as i8) {
        Ok(date) => Some(date.to_plain().to_unix_epoch_day() as i64),
        Err(_) => None,
    }
}

/// The number of a date of the years 10000 and 10001.
fn late_number_of(year: i32, month: u8, day: u8) -> Option<i64>
    requires low { pos 10_000 ≤ℤ year }
    requires high { year ≤ℤ pos 10_001 }
    ensures found { IsSome result ↔ IsDate (unsigned_abs year) month day }
    ensures value { IfSome result (λ n. n ≡ number_of_day year month day) }
    ensures low { IfSome result (λ n. negsuc 719_161 ≤ℤ n) }
    ensures high { IfSome result (λ n. n ≤ℤ pos 2_933_627) }
{
    let early = year - 400;
    let number = number_of(early, month, day)?;
    Some(number + CYCLE as i64)
}

/// The date of a number from that of 0001-01-01 to that of 9999-12-31.
fn date_of(number: i64) -> Civil
    requires low { negsuc 719_161 ≤ℤ number }
    requires high { number ≤ℤ pos 2_932_896 }
    ensures low { pos 1 ≤ℤ result.year }
    ensures high { result.year ≤ℤ pos 9999 }
    ensures date { IsDate (unsigned_abs result.year) result.month result.day }
    ensures number { number_of_day result.year result.month result.day ≡ number }
{
    let epoch = civil::date(1970, 1, 1).to_plain();
    let date = epoch.checked_add(number).unwrap();
    Civil {
        year: date.year as i32,
        month: date.month,
        day: date.day,
    }
}

/// The same date 400 years later.
fn later(early: Civil) -> Civil
    requires low { pos 1 ≤ℤ early.year }
    requires high { early.year ≤ℤ pos 9999 }
    requires date { IsDate (unsigned_abs early.year) early.month early.day }
    ensures year { result.year ≡ early.year +ℤ pos 400 }
    ensures date { IsDate (unsigned_abs result.year) result.month result.day }
    ensures number { number_of_day result.year result.month result.day
        ≡ number_of_day early.year early.month early.day +ℤ pos 146_097 }
{
    Civil {
        year: early.year + 400,
        month: early.month,
        day: early.day,
    }
}
