//! What the parts of a rule ask of a day: looked up once a month, and counted on from day to day, or back.

ghost use Rattle.std.specs.Prelude.{◌≡◌, ◌+◌, ◌-◌, ◌<◌, ◌≤◌};
ghost use Rattle.profile.specs.series.Days.{day_index};
ghost use Rattle.cal_rules.specs.Known.{AreFacts};

use cal_days::Day;

/// A day, and its place in its week, its month and its year.
#[derive(Clone, Copy)]
pub(crate) struct DayFacts {
    /// The days from 0000-01-01 to it.
    pub index: u32,
    /// From 0 for Monday to 6 for Sunday.
    pub weekday: u8,
    /// From 1 to 12.
    pub month: u8,
    /// The days of its month before it.
    pub month_before: u8,
    /// The days of its month after it.
    pub month_after: u8,
    /// The days of its year before it.
    pub year_before: u16,
    /// The days of its year after it.
    pub year_after: u16,
}

impl DayFacts {
    /// Those of a day.
    pub fn of(day: Day) -> DayFacts
        ensures index { result.index ≡ day_index day }
        ensures range { (366 ≤ result.index) × (result.index ≤ 3_653_155) }
        ensures facts { AreFacts result }
    {
        let civil = day.civil();
        DayFacts {
            index: day.index(),
            weekday: day.weekday(),
            month: civil.month,
            month_before: civil.day - 1,
            month_after: day.days_in_month() - civil.day,
            year_before: day.year_days_before(),
            year_after: day.year_days_after(),
        }
    }

    /// The day.
    pub fn day(self) -> Day
        requires { AreFacts self }
        ensures { day_index result ≡ self.index }
    {
        Day::at_index(self.index).unwrap()
    }

    /// Those of the day after it; where that is the end, only its index.
    pub fn tomorrow(self, end: u32) -> DayFacts
        requires facts { AreFacts self }
        requires range { (366 ≤ self.index) × (self.index < end) × (end ≤ 3_653_155) }
        ensures index { result.index ≡ self.index + 1 }
        ensures facts { result.index < end → AreFacts result }
    {
        if self.index + 1 == end {
            return DayFacts { index: end, ..self };
        }
        if self.month_after == 0 {
            return looked_up(self.index + 1);
        }
        DayFacts {
            index: self.index + 1,
            weekday: (self.weekday + 1) % 7,
            month: self.month,
            month_before: self.month_before + 1,
            month_after: self.month_after - 1,
            year_before: self.year_before + 1,
            year_after: self.year_after - 1,
        }
    }

    /// Those of the day before it.
    pub fn yesterday(self) -> DayFacts
        requires facts { AreFacts self }
        requires range { 367 ≤ self.index }
        ensures index { result.index ≡ self.index - 1 }
        ensures facts { AreFacts result }
    {
        if self.month_before == 0 {
            return looked_up(self.index - 1);
        }
        DayFacts {
            index: self.index - 1,
            weekday: (self.weekday + 6) % 7,
            month: self.month,
            month_before: self.month_before - 1,
            month_after: self.month_after + 1,
            year_before: self.year_before - 1,
            year_after: self.year_after + 1,
        }
    }
}

/// Those of the day of an index, looked up.
pub(crate) fn looked_up(index: u32) -> DayFacts
    requires { (366 ≤ index) × (index ≤ 3_653_155) }
    ensures index { result.index ≡ index }
    ensures facts { AreFacts result }
{
    DayFacts::of(Day::at_index(index).unwrap())
}
