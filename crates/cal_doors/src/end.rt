//! The parts of a run of onsets: the day of the year of its rule, and where they end.

use cal_zones::MonthDays;

/// A day of the year: a month and the day of it.
#[derive(Clone, Copy)]
pub struct YearDay {
    /// From 1 to 12.
    pub month: u8,
    /// The day of the month.
    pub days: MonthDays,
}

/// Where the onsets of a rule end.
#[derive(Clone, Copy)]
pub enum End {
    /// They don't.
    Never,
    /// COUNT: after so many of them.
    After(u32),
    /// UNTIL: with the last one up to this instant.
    At(i64),
}

impl End {
    ghost use Rattle.std.specs.Prelude.{◌≡◌, ℕ, true, false};
    ghost use Rattle.profile.specs.series.Zones.{Observance};
    ghost use Rattle.profile.specs.series.GeneralZones.{AfterCount, IsInTime};
    ghost use Rattle.cal_doors.specs.Ends.{end_of, IsBound};

    /// An instant that no onset up to the given one is later than.
    pub(crate) fn bound(self, instant: i64) -> i64
        ensures { IsBound (end_of self) instant result }
    {
        match self {
            End::Never => instant,
            End::After(_) => instant,
            End::At(until) => instant.min(until),
        }
    }

    /// Whether an onset at an instant isn't past the end, whichever onset of its rule it is.
    pub(crate) fn allows(self, instant: i64) -> bool
        ensures { result ≡ true → (o : Observance) (day : ℕ) → IsInTime (end_of self) o day instant }
    {
        match self {
            End::Never => true,
            End::After(_) => false,
            End::At(until) => instant <= until,
        }
    }

    /// Whether it counts onsets.
    pub(crate) fn is_counted(self) -> bool
        ensures yes { result ≡ true → (count : ℕ) × (end_of self ≡ AfterCount count) }
        ensures no { result ≡ false → (count : ℕ) → end_of self ≡ AfterCount count → ⊥ }
    {
        match self {
            End::Never => false,
            End::After(_) => true,
            End::At(_) => false,
        }
    }
}
