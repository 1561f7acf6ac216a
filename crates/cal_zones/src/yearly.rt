//! Rules that name one day of one month, every year.

ghost use Rattle.std.specs.Prelude.{◌≡◌, ◌<◌, ◌≤◌, true, ◌+◌, ◌%◌};
ghost use Rattle.profile.specs.series.Days.{days_in_month};
ghost use Rattle.cal_zones.specs.Shapes.{occurs_yearly};

use cal_days::{CYCLE, Day, FIRST_INDEX};
use ical_values::DAY_SECONDS;

/// The day of its month that a rule names, as it is written. Weekdays go from 0 for Monday to 6 for
/// Sunday.
#[derive(Clone, Copy, PartialEq, Eq)]
pub enum MonthDays {
    /// One BYMONTHDAY, from 1 to 28.
    Day(u8),
    /// A BYDAY with a number from 1 to 4: the first, second, third or fourth such weekday.
    FromStart { number: u8, weekday: u8 },
    /// A BYDAY with a number from -1 to -4, here without its sign: such a weekday from the end back.
    FromEnd { number: u8, weekday: u8 },
    /// Seven BYMONTHDAYs in a row, from this one on, and a BYDAY without a number.
    Week { first: u8, weekday: u8 },
}

/// A rule of one day a year: BYMONTH, and the day of that month.
#[derive(Clone, Copy)]
pub struct Yearly {
    pub(crate) month: u8,
    pub(crate) days: MonthDays,
    ghost yearly: { occurs_yearly month days ≡ true },
}

impl Yearly {
    ghost use Rattle.std.specs.Prelude.{◌≡◌, ◌↔◌, ◌<◌, ◌≤◌, ◌+◌, true, IsSome, IfSome, MatchOption, negsuc, ◌≤ℤ◌};
    ghost use Rattle.profile.specs.series.ZoneTexts.{is_each_year};
    ghost use Rattle.cal_zones.specs.Shapes.{days_of, IsPlaceInMonth};
    ghost use Rattle.cal_zones.specs.Yearly.{IsOn, IsDayOfYear, IsLatestDay, IsFirstDay, HasEarlier};
    ghost use Rattle.cal_zones.specs.Onsets.{IsLatestAfter, IsNextAfter, IsNoneAfter};

    /// The rule of that month and these days of it. None where a year lacks the day or has two of it.
    pub fn new(month: u8, days: MonthDays) -> Option<Yearly>
        ensures found { IsSome result ↔ (is_each_year month (days_of days) ≡ true) }
        ensures value { IfSome result (λ r. (r.month ≡ month) × (r.days ≡ days)) }
    {
        if !is_yearly(month, days) {
            return None;
        }
        Some(Yearly { month, days })
    }

    /// BYMONTH, from 1 to 12.
    pub fn month(self) -> u8
        ensures { result ≡ self.month }
    {
        self.month
    }

    /// The day of that month.
    pub fn days(self) -> MonthDays
        ensures { result ≡ self.days }
    {
        self.days
    }

    /// Whether another names the same day of the same month, in the same words.
    pub(crate) fn is_same(self, other: Yearly) -> bool
        ensures { result ≡ true → (self.month ≡ other.month) × (self.days ≡ other.days) }
    {
        self.month == other.month && self.days == other.days
    }

    /// How many days of its month are before the day, in a month of this many days that begins on the day
    /// of index `first`.
    fn place(self, first: u32, length: u32) -> u32
        requires first { first ≤ 4_000_000 }
        requires length { (28 ≤ length) × (length ≤ 31) }
        ensures { IsPlaceInMonth self.days first length result }
    {
        match self.days {
            MonthDays::Day(day) => day as u32 - 1,
            MonthDays::FromStart { number, weekday } => {
                days_to_weekday(first, 7 * (number as u32 - 1), weekday)
            }
            MonthDays::FromEnd { number, weekday } => {
                days_to_weekday(first, length - 7 * number as u32, weekday)
            }
            MonthDays::Week {
                first: earliest,
                weekday,
            } => days_to_weekday(first, earliest as u32 - 1, weekday),
        }
    }

    /// The index of the day in a year.
    pub(crate) fn day_in(self, year: u32) -> u32
        requires { (1 ≤ year) × (year ≤ 10_001) }
        ensures { IsDayOfYear self year result }
    {
        let first = Day::of(year as i32, self.month, 1).unwrap();
        let index = first.index();
        index + self.place(index, first.days_in_month() as u32)
    }

    /// The index of the latest of its days up to that of index `n`, which is at most the year 802.
    fn latest_early(self, n: u32) -> u32
        requires range { (366 ≤ n) × (n ≤ 292_560) }
        requires earlier { HasEarlier self n }
        ensures latest { IsLatestDay self n result }
        ensures near { n < result + 732 }
    {
        let year = Day::at_index(n).unwrap().year();
        let day = self.day_in(year);
        if day <= n {
            return day;
        }
        self.day_in(year - 1)
    }

    /// The index of the latest of its days up to that of index `n`. The days repeat after 400 years, so two
    /// years are looked at, among the first 800.
    pub(crate) fn latest(self, n: u64) -> u64
        requires first { 366 ≤ n }
        requires earlier { HasEarlier self n }
        ensures latest { IsLatestDay self n result }
        ensures near { n < result + 732 }
    {
        let cycles = ((n - FIRST_INDEX as u64) / CYCLE as u64).saturating_sub(1);
        let later = cycles * CYCLE as u64;
        let early = (n - later) as u32;
        self.latest_early(early) as u64 + later
    }

    /// The index of the first of its days from that of index `n` on.
    pub(crate) fn first_from(self, n: u32) -> u32
        requires range { (366 ≤ n) × (n ≤ 3_652_424) }
        ensures first { IsFirstDay self n result }
        ensures range { result ≤ 3_653_155 }
    {
        let year = Day::at_index(n).unwrap().year();
        let day = self.day_in(year);
        if day >= n {
            return day;
        }
        self.day_in(year + 1)
    }

    /// The index of the first from any later day on. The days repeat after 400 years.
    fn first_on(self, n: u64) -> u64
        requires { (366 ≤ n) × (n ≤ 1_000_000_000_000_000) }
        ensures first { IsFirstDay self n result }
        ensures near { result ≤ n + 3_652_789 }
    {
        let cycles = (n - FIRST_INDEX as u64) / CYCLE as u64;
        let later = cycles * CYCLE as u64;
        let early = (n - later) as u32;
        self.first_from(early) as u64 + later
    }

    /// The latest onset up to an instant that isn't before the first onset.
    pub(crate) fn latest_onset(self, first_day: u32, first: i64, instant: i64) -> i64
        requires day { (366 ≤ first_day) × (first_day ≤ 3_653_155) }
        requires on { IsOn self first_day }
        requires low { negsuc 100_000_000_000 ≤ℤ first }
        requires begun { first ≤ℤ instant }
        ensures latest { IsLatestAfter self first_day first instant result }
        ensures low { first ≤ℤ result }
    {
        let since = instant.abs_diff(first);
        let whole_day = DAY_SECONDS as u64;
        let day = first_day as u64 + since / whole_day;
        let back = since % whole_day + whole_day * (day - self.latest(day));
        instant - back as i64
    }

    /// The first onset later than an instant that isn't before the first onset. None where 64 bits don't hold it.
    pub(crate) fn next_onset(self, first_day: u32, first: i64, after: i64) -> Option<i64>
        requires day { (366 ≤ first_day) × (first_day ≤ 3_653_155) }
        requires begun { first ≤ℤ after }
        ensures { MatchOption result (IsNoneAfter self first_day first after) (IsNextAfter self first_day first after) }
    {
        let since = after.abs_diff(first);
        let whole_day = DAY_SECONDS as u64;
        let day = first_day as u64 + since / whole_day;
        let ahead = whole_day * (self.first_on(day + 1) - day) - since % whole_day;
        after.checked_add(ahead as i64)
    }
}

/// Does every year have that day?
fn is_yearly(month: u8, days: MonthDays) -> bool
    ensures { result ≡ occurs_yearly month days }
{
    if month < 1 || month > 12 {
        return false;
    }
    match days {
        MonthDays::Day(day) => 1 <= day && day <= 28,
        MonthDays::FromStart { number, weekday } => 1 <= number && number <= 4 && weekday < 7,
        MonthDays::FromEnd { number, weekday } => 1 <= number && number <= 4 && weekday < 7,
        MonthDays::Week { first, weekday } => {
            1 <= first && first as u32 + 6 <= least_length(month) as u32 && weekday < 7
        }
    }
}

/// The days of a month in the shortest of its years.
fn least_length(month: u8) -> u8
    ensures { result ≡ days_in_month 1 month }
{
    match month {
        2 => 28,
        4 | 6 | 9 | 11 => 30,
        _ => 31,
    }
}

/// The fewest days, `least` of them or more, after which that weekday comes, counted from the day of
/// index `first`.
fn days_to_weekday(first: u32, least: u32, weekday: u8) -> u32
    requires first { first ≤ 4_000_000 }
    requires least { least ≤ 31 }
    requires weekday { weekday < 7 }
    ensures low { least ≤ result }
    ensures high { result ≤ least + 6 }
    ensures weekday { (first + result + 5) % 7 ≡ weekday }
{
    let there = (first + least + 5) % 7;
    least + (weekday as u32 + 7 - there) % 7
}
