//! Periods: after how many days a rule does the same again (RFC 5545 3.3.10).

ghost use Rattle.std.specs.Prelude.{◌≡◌, ℕ, ◌*◌, ◌^◌, ◌<◌, ◌≤◌, IfSome, MatchOption};
ghost use Rattle.profile.specs.series.Periods.{HasNoMultiple, HasNoPeriod, IsLeastMultiple, IsPeriod, most_period};
ghost use Rattle.cal_rules.specs.Views.{pattern_of};
ghost use Rattle.cal_rules.specs.Shifting.{HasNoCount, HasNoCycle, IsLeastCount, IsLeastCycle, days_of_parts};

use crate::written::Written;
use cal_days::Frequency;

/// The most days that a period of series may have.
pub const MOST_PERIOD: u64 = 2_932_897;

/// The days of 400 years, in which the calendar repeats.
const CYCLE: u64 = 146_097;

/// The most cycles in a period: 20 are 2,921,940 days.
const MOST_CYCLES: u64 = 20;

/// The least common multiple of two numbers of days, None where it is past 2,932,897. Multiples of the greater one are tried, each up to there.
pub fn common_multiple(a: u64, b: u64) -> Option<u64>
    ensures least { MatchOption result (HasNoMultiple a b) (IsLeastMultiple a b) }
    ensures few { IfSome result (λ days. days ≤ most_period) }
{
    if a < b {
        multiple_of(b, a)
    } else {
        multiple_of(a, b)
    }
}

/// The least common multiple, where multiples of the first number are tried.
fn multiple_of(a: u64, b: u64) -> Option<u64>
    ensures least { MatchOption result (HasNoMultiple a b) (IsLeastMultiple a b) }
    ensures few { IfSome result (λ days. days ≤ most_period) }
{
    if a == 0 {
        return None;
    }
    let Some(count) = least_count(a, b, MOST_PERIOD / a) else {
        return None;
    };
    Some(count * a)
}

/// The least count, from 1 to the most, of the first number that is a multiple of the second.
fn least_count(a: u64, b: u64, most: u64) -> Option<u64>
    requires some { 0 < a }
    requires fits { most * a < 2 ^ 63 }
    requires few { most < 2 ^ 63 }
    ensures { MatchOption result (HasNoCount a b most) (IsLeastCount a b most) }
{
    if b == 0 {
        return None;
    }
    for count in 1..most + 1 {
        if count * a % b == 0 {
            return Some(count);
        }
    }
    None
}

/// The days of the least number of cycles of 400 years that are a multiple of an interval of periods, of which a cycle has so many; None where
/// they are more than 2,932,897.
fn cycles(periods: u64, interval: u64) -> Option<u64>
    requires some { 0 < periods }
    requires few { periods ≤ 4_800 }
    ensures least { MatchOption result (HasNoCycle periods interval) (IsLeastCycle periods interval) }
    ensures few { IfSome result (λ days. days ≤ most_period) }
{
    let Some(count) = least_count(periods, interval, MOST_CYCLES) else {
        return None;
    };
    Some(count * CYCLE)
}

impl Written {
    /// The least number of days after which a rule of these parts does the same again, apart from COUNT and UNTIL; None past 2,932,897.
    pub fn period_days(&self) -> Option<u64>
        requires { 1 ≤ self.now.interval }
        ensures period { (start : ℕ) → MatchOption result (HasNoPeriod (pattern_of self.now start)) (IsPeriod (pattern_of self.now start)) }
        ensures few { IfSome result (λ days. days ≤ most_period) }
    {
        let interval = u64::from(self.interval);
        match self.frequency {
            Frequency::Daily => common_multiple(interval, self.days_of_parts()),
            Frequency::Weekly => common_multiple(7 * interval, self.days_of_parts()),
            Frequency::Monthly => cycles(4_800, interval),
            Frequency::Yearly => cycles(400, interval),
        }
    }

    /// The least number of days after which the weekdays and dates that the parts name are those of before.
    fn days_of_parts(&self) -> u64
        ensures { (start : ℕ) → result ≡ days_of_parts (pattern_of self.now start) }
    {
        if !self.months.is_empty() || !self.month_days.is_empty() {
            return CYCLE;
        }
        if self.weekdays.is_empty() { 1 } else { 7 }
    }
}
