//! The periods of recurrence (RFC 5545 3.3.10, FREQ): days, weeks, months and years.

ghost use Rattle.std.specs.Prelude.{◌≡◌};
ghost use Rattle.profile.specs.series.Days.{day_index, period_of};
ghost use Rattle.cal_days.specs.Views.{frequency_of};

use crate::Day;
use std::marker::Model;

/// How a rule recurs. The frequencies of less than a day aren't taken here.
#[derive(Clone, Copy, PartialEq, Eq)]
pub enum Frequency {
    Daily,
    Weekly,
    Monthly,
    Yearly,
}

/// The period that a day is in, as a number. Later periods have greater numbers, with no number left
/// out; where they begin to count has no meaning.
#[derive(Clone, Copy, PartialEq, Eq)]
pub struct PeriodIndex {
    number: u32,
}

impl Model for PeriodIndex {
    ghost use Rattle.std.specs.Prelude.{ℕ};

    ghost Value = { ℕ };

    ghost view = { λ p. p.number };

    ghost inverse = { λ n. record { number = n } };
}

impl PeriodIndex {
    /// The day itself, its week from the weekday `week_start` on (0 is Monday), its month or its year.
    #[tactic(auto, unfolding(profile::specs::series::Days::period_of))]
    pub fn of(frequency: Frequency, week_start: u8, day: Day) -> PeriodIndex
        ensures { result ≡ period_of (frequency_of frequency) week_start (day_index day) }
    {
        let number = match frequency {
            Frequency::Daily => day.index(),
            Frequency::Weekly => (day.index() + 12 - week_start as u32) / 7,
            Frequency::Monthly => 12 * day.year() + day.civil().month as u32,
            Frequency::Yearly => day.year(),
        };
        PeriodIndex { number }
    }

    /// The number of the period.
    pub fn number(self) -> u32
        ensures { result ≡ self }
    {
        self.number
    }
}
