//! Where a listing of the days of a rule is: a day of a period, and what is known of it.

ghost use Rattle.std.specs.Prelude.{◌≡◌, ◌+◌, ◌<◌, ◌≤◌, ◌↔◌, IsTrue, max};
ghost use Rattle.profile.specs.series.Rules.{Pattern};
ghost use Rattle.cal_days.specs.Views.{frequency_of};
ghost use Rattle.profile.specs.series.Days.{Weekly};
ghost use Rattle.cal_rules.specs.Known.{AreFacts};
ghost use Rattle.cal_rules.specs.Spans.{IsPeriodSpan};

use crate::facts::DayFacts;
use cal_days::{FIRST_INDEX, Frequency};

/// The next day to look at, in a period that is in step; or the day after that period.
#[derive(Clone, Copy)]
pub(crate) struct Cursor {
    pub day: DayFacts,
    /// The days of its period.
    pub span: PeriodDays,
    /// How many days of the period before it pass each part. Counted where an entry of BYSETPOS counts from the first day.
    pub earlier: u32,
    /// How many from it on do. Counted where BYSETPOS is written.
    pub later: u32,
}

impl Cursor {
    ghost use Rattle.cal_rules.specs.Known.{AreFacts};
    ghost use Rattle.cal_rules.specs.Cursors.{IsCursorOf};

    /// At a day, with no period: it is looked up where the listing goes on.
    pub fn at(day: DayFacts) -> Cursor
        requires { AreFacts day }
        ensures index { result.day.index ≡ day.index }
        ensures is_cursor { (p : Pattern) → IsCursorOf p result }
    {
        Cursor {
            day,
            span: PeriodDays {
                first: day.index,
                end: day.index,
            },
            earlier: 0,
            later: 0,
        }
    }

    /// The cursor; where it is before that day, one at that day.
    pub fn not_before(self, day: DayFacts) -> Cursor
        requires { AreFacts day }
        ensures index { result.day.index ≡ max self.day.index day.index }
        ensures is_cursor { (p : Pattern) → IsCursorOf p self → IsCursorOf p result }
    {
        if self.day.index < day.index {
            return Cursor::at(day);
        }
        self
    }

    /// Is the day before it after that one?
    pub fn is_past(self, last: u32) -> bool
        requires { last ≤ 3_652_424 }
        ensures { IsTrue result ↔ last + 1 < self.day.index }
    {
        self.day.index > last + 1
    }
}

/// The days from `first` on and before `end`, by their indices.
#[derive(Clone, Copy)]
pub(crate) struct PeriodDays {
    pub first: u32,
    pub end: u32,
}

impl PeriodDays {
    /// The days of the period of that day.
    pub fn of(frequency: Frequency, week_start: u8, day: DayFacts) -> PeriodDays
        requires facts { AreFacts day }
        requires range { (366 ≤ day.index) × (day.index ≤ 3_652_424) }
        ensures days { IsPeriodSpan (frequency_of frequency) week_start day.index result.first result.end }
        ensures range { result.end ≤ 3_652_790 }
    {
        match frequency {
            Frequency::Daily => PeriodDays {
                first: day.index,
                end: day.index + 1,
            },
            Frequency::Weekly => week_of(week_start, day.index),
            Frequency::Monthly => PeriodDays {
                first: day.index - day.month_before as u32,
                end: day.index + day.month_after as u32 + 1,
            },
            Frequency::Yearly => PeriodDays {
                first: day.index - day.year_before as u32,
                end: day.index + day.year_after as u32 + 1,
            },
        }
    }
}

/// The week of the day of that index.
fn week_of(week_start: u8, index: u32) -> PeriodDays
    requires { (366 ≤ index) × (index ≤ 3_652_424) }
    ensures days { IsPeriodSpan Weekly week_start index result.first result.end }
    ensures range { result.end ≤ 3_652_431 }
{
    let passed = (index + 12 - week_start as u32) % 7;
    PeriodDays {
        first: (index - passed).max(FIRST_INDEX),
        end: index + 7 - passed,
    }
}
