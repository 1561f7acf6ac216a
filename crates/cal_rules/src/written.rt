//! The parts of a rule as they are written: which go together, and which days they name (RFC 5545 3.3.10).

ghost use Rattle.std.specs.Prelude.{◌≡◌, ◌&&◌, ◌||◌, not, map, ◌==◌};
ghost use Rattle.std.specs.List.{list_all, list_any};
ghost use Rattle.profile.specs.series.Rules.{leaves_day_to_start, is_weekly, is_long, is_missing, is_plain, go_together, has_one_end, is_nth, allows, names_weekday, same_weekdays_before, same_weekdays_after, names_no_day, implies_month, implies_month_day, implies_weekday, counts_in_year, passes_month, passes_month_day, passes_weekday, passes};
ghost use Rattle.cal_rules.specs.Views.{weekday_number_of, rule_text_said, pattern_of};
ghost use Rattle.cal_days.specs.Views.{frequency_of};
ghost use Rattle.profile.specs.series.Days.{day_index, period_of};
ghost use Rattle.cal_rules.specs.Known.{AreFacts};

use crate::facts::DayFacts;
use cal_days::{Day, Frequency, PeriodIndex};
use ical_values::{LocalTime, Stamp};
use std::alloc::AllocError;

/// An entry of BYDAY: a weekday, 0 for Monday, and the number before it, 0 where none is written.
#[derive(Clone, Copy, PartialEq, Eq)]
pub struct WeekdayNumber {
    pub number: i16,
    pub weekday: u8,
}

/// The end that UNTIL says: a date, a local time, or an instant in UTC (RFC 5545 3.3.10).
#[derive(Clone, Copy)]
pub enum Until {
    Date(Day),
    Local(LocalTime),
    Utc(Stamp),
}

/// The parts of a rule. An empty list is a part that isn't written.
#[derive(Drop)]
pub(crate) struct Written {
    pub frequency: Frequency,
    pub interval: u16,
    pub week_start: u8,
    pub months: Vec<u8>,
    pub month_days: Vec<i16>,
    pub weekdays: Vec<WeekdayNumber>,
    pub positions: Vec<i16>,
    pub count: Option<u32>,
    pub until: Option<Until>,
}

impl Clone for Written {
    ghost is_clone = { λ written copy. rule_text_said copy ≡ rule_text_said written };

    fn clone(&self) -> Result<Written, AllocError> {
        let months = self.months.clone()?;
        let month_days = self.month_days.clone()?;
        let weekdays = self.weekdays.clone()?;
        let positions = self.positions.clone()?;
        Ok(Written {
            frequency: self.frequency,
            interval: self.interval,
            week_start: self.week_start,
            months,
            month_days,
            weekdays,
            positions,
            count: self.count,
            until: self.until,
        })
    }
}

impl Written {
    /// Do the parts go together?
    #[tactic(auto, using(std::proofs::lemmas::Bool::Decides::nat_tests), unfolding(profile::specs::series::Rules::go_together))]
    pub fn go_together(&self) -> bool
        ensures { result ≡ go_together (rule_text_said self.now) }
    {
        self.fits_month_days() && self.fits_numbers() && self.fits_positions()
    }

    /// No BYMONTHDAY in a WEEKLY rule?
    fn fits_month_days(&self) -> bool
        ensures { result ≡ (not (is_weekly (rule_text_said self.now).frequency) || is_missing (rule_text_said self.now).month_days) }
    {
        self.frequency != Frequency::Weekly || self.month_days.is_empty()
    }

    /// Numbers in BYDAY only in MONTHLY and YEARLY rules without BYMONTHDAY?
    fn fits_numbers(&self) -> bool
        ensures { let text = rule_text_said self.now in
            result ≡ (list_all (λ entry. is_plain entry.number) text.weekdays
            || (is_long text.frequency && is_missing text.month_days)) }
    {
        are_plain(&self.weekdays) || (self.is_long() && self.month_days.is_empty())
    }

    /// BYSETPOS only beside another BY part?
    fn fits_positions(&self) -> bool
        ensures { let text = rule_text_said self.now in
            result ≡ (is_missing text.positions
            || not (is_missing text.months && is_missing text.month_days && is_missing text.weekdays)) }
    {
        self.positions.is_empty()
            || !(self.months.is_empty() && self.month_days.is_empty() && self.weekdays.is_empty())
    }

    /// Is it a YEARLY rule with BYMONTH that names no day?
    pub fn leaves_day_to_start(&self) -> bool
        ensures { result ≡ leaves_day_to_start (rule_text_said self.now) }
    {
        self.frequency == Frequency::Yearly
            && !self.months.is_empty()
            && self.month_days.is_empty()
            && self.weekdays.is_empty()
    }

    /// Is there at most one of COUNT and UNTIL?
    pub fn has_one_end(&self) -> bool
        ensures { result ≡ has_one_end (rule_text_said self.now) }
    {
        self.count.is_none() || self.until.is_none()
    }

    /// MONTHLY or YEARLY?
    fn is_long(&self) -> bool
        ensures { result ≡ is_long (rule_text_said self.now).frequency }
    {
        match self.frequency {
            Frequency::Daily | Frequency::Weekly => false,
            Frequency::Monthly | Frequency::Yearly => true,
        }
    }

    /// Neither BYDAY nor BYMONTHDAY is written.
    fn names_no_day(&self) -> bool
        ensures { result ≡ names_no_day (pattern_of self.now 0) }
    {
        self.weekdays.is_empty() && self.month_days.is_empty()
    }

    /// Does the rule take its month from DTSTART?
    fn implies_month(&self) -> bool
        ensures { result ≡ implies_month (pattern_of self.now 0) }
    {
        self.counts_in_year() && self.names_no_day()
    }

    /// Does the rule take its month day from DTSTART?
    fn implies_month_day(&self) -> bool
        ensures { result ≡ implies_month_day (pattern_of self.now 0) }
    {
        match self.frequency {
            Frequency::Daily | Frequency::Weekly => false,
            Frequency::Monthly | Frequency::Yearly => self.names_no_day(),
        }
    }

    /// Does the rule take its weekday from DTSTART?
    pub fn implies_weekday(&self) -> bool
        ensures { result ≡ implies_weekday (pattern_of self.now 0) }
    {
        self.frequency == Frequency::Weekly && self.weekdays.is_empty()
    }

    /// Do the numbers of BYDAY count in the year?
    fn counts_in_year(&self) -> bool
        ensures { result ≡ counts_in_year (pattern_of self.now 0) }
    {
        self.frequency == Frequency::Yearly && self.months.is_empty()
    }

    /// Is the day's month one of those that count?
    fn passes_month(&self, start: DayFacts, day: DayFacts) -> bool
        requires start { AreFacts start }
        requires day { AreFacts day }
        ensures { result ≡ passes_month (pattern_of self.now start.index) day.index }
    {
        if self.implies_month() {
            return start.month == day.month;
        }
        allows_month(&self.months, day.month)
    }

    /// Is the day one of the month days that count?
    fn passes_month_day(&self, start: DayFacts, day: DayFacts) -> bool
        requires start { AreFacts start }
        requires day { AreFacts day }
        ensures { result ≡ passes_month_day (pattern_of self.now start.index) day.index }
    {
        if self.implies_month_day() {
            return start.month_before == day.month_before;
        }
        allows_nth(
            &self.month_days,
            day.month_before as u32,
            day.month_after as u32,
        )
    }

    /// Is the day's weekday, with its number, one of those that count?
    fn passes_weekday(&self, start: DayFacts, day: DayFacts) -> bool
        requires start { AreFacts start }
        requires day { AreFacts day }
        ensures { result ≡ passes_weekday (pattern_of self.now start.index) day.index }
    {
        if self.implies_weekday() {
            return start.weekday == day.weekday;
        }
        let (before, after) = weekday_place(self.counts_in_year(), day);
        allows_weekday(&self.weekdays, day.weekday, before, after)
    }

    /// Does the day pass each part that is written or implied?
    #[tactic(auto, unfolding(profile::specs::series::Rules::passes))]
    pub fn passes(&self, start: DayFacts, day: DayFacts) -> bool
        requires start { AreFacts start }
        requires day { AreFacts day }
        ensures { result ≡ passes (pattern_of self.now start.index) day.index }
    {
        self.passes_month(start, day)
            && self.passes_month_day(start, day)
            && self.passes_weekday(start, day)
    }

    /// The period of a day.
    pub fn period(&self, day: Day) -> PeriodIndex
        ensures { result ≡ period_of (frequency_of self.now.frequency) self.now.week_start (day_index day) }
    {
        PeriodIndex::of(self.frequency, self.week_start, day)
    }
}

/// Are all entries without a number?
fn all_plain(entries: &[WeekdayNumber]) -> bool
    ensures { result ≡ list_all (λ entry. is_plain (weekday_number_of entry).number) entries.now }
{
    entries.iter().all(|entry| entry.number == 0)
}

/// Are all entries without a number?
fn are_plain(entries: &[WeekdayNumber]) -> bool
    ensures { result ≡ list_all (λ entry. is_plain entry.number) (map weekday_number_of entries.now) }
{
    all_plain(entries)
}

/// Is a day with this many before it and this many after it the `k`th, or where `k` is negative the
/// `-k`th from the end?
fn is_nth(k: i16, before: u32, after: u32) -> bool
    ensures { result ≡ is_nth k before after }
{
    if k < 0 {
        return (-(k + 1)) as u32 == after;
    }
    k > 0 && (k - 1) as u32 == before
}

/// Does one of the numbers name the day with this many before it and this many after it?
fn any_nth(numbers: &[i16], before: u32, after: u32) -> bool
    ensures { result ≡ list_any (λ k. is_nth k before after) numbers.now }
{
    numbers.iter().any(|k| is_nth(*k, before, after))
}

/// Is the month listed, or none?
fn allows_month(months: &[u8], month: u8) -> bool
    ensures { result ≡ allows (λ m. m == month) months.now }
{
    months.is_empty() || months.contains(&month)
}

/// Does one of the numbers name the day, or is there none?
pub(crate) fn allows_nth(numbers: &[i16], before: u32, after: u32) -> bool
    ensures { result ≡ allows (λ k. is_nth k before after) numbers.now }
{
    numbers.is_empty() || any_nth(numbers, before, after)
}

/// Does the entry of BYDAY name a day of that weekday, with this many of them before it and this many after
/// it?
fn names_weekday(entry: WeekdayNumber, weekday: u8, before: u32, after: u32) -> bool
    ensures { result ≡ names_weekday weekday before after (weekday_number_of entry) }
{
    entry.weekday == weekday && (entry.number == 0 || is_nth(entry.number, before, after))
}

/// Does one of the entries of BYDAY name the day?
fn any_weekday(entries: &[WeekdayNumber], weekday: u8, before: u32, after: u32) -> bool
    ensures { result ≡ list_any (λ entry. names_weekday weekday before after (weekday_number_of entry)) entries.now }
{
    entries
        .iter()
        .any(|entry| names_weekday(*entry, weekday, before, after))
}

/// Does one of the entries of BYDAY name the day, or is there none?
fn allows_weekday(entries: &[WeekdayNumber], weekday: u8, before: u32, after: u32) -> bool
    ensures { result ≡ allows (λ entry. names_weekday weekday before after (weekday_number_of entry)) entries.now }
{
    entries.is_empty() || any_weekday(entries, weekday, before, after)
}

/// How many days of its own weekday are before the day and after it, in its year or in its month.
fn weekday_place(in_year: bool, day: DayFacts) -> (u32, u32)
    requires { AreFacts day }
    ensures before { result.0 ≡ same_weekdays_before in_year day.index }
    ensures after { result.1 ≡ same_weekdays_after in_year day.index }
{
    if in_year {
        return (day.year_before as u32 / 7, day.year_after as u32 / 7);
    }
    (day.month_before as u32 / 7, day.month_after as u32 / 7)
}
