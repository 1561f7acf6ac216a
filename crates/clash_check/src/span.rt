//! Whether series do the same after so many days, from an instant on, and how long the longest of them last.
ghost use Rattle.std.specs.Prelude.{ℕ, List, ◌≡◌, ◌↔◌, ◌^◌, ◌<◌, ◌≤◌, Contains, pos, ◌≤ℤ◌, ◌<ℤ◌, true, length, IsTrue};
ghost use Rattle.profile.specs.checker.Certificates.{IsSeriesAt, AreSeriesAt};
ghost use Rattle.profile.specs.events.Events.{Event};
ghost use Rattle.profile.specs.events.Spans.{IsGreatestWidth, IsPastAll, IsPeriodOf, IsSpan};
ghost use Rattle.profile.specs.series.Periods.{most_period, IsMultiple};
ghost use Rattle.clash_check.specs.Draws.{IsPlaceIn};

use crate::drawn::Drawn;
use cal_period::periods_are_multiples;
use cal_rules::MOST_PERIOD;

/// Do these series do the same after so many days, from an instant on?
pub(crate) fn is_span<D: Drawn>(drawn: &D, numbers: &[u64], from: i64, days: u64) -> bool
    requires { (i : ℕ) → Contains numbers.now i → IsPlaceIn (length (D.calendar drawn.now).series) i }
    ensures is { (all : List Event) → AreSeriesAt (D.calendar drawn.now) numbers.now all → IsTrue result ↔ IsSpan all from days }
    ensures few { result ≡ true → days ≤ most_period }
{
    is_days(days) && all_repeat(drawn, numbers, from, days)
}

/// May a span have so many days?
fn is_days(days: u64) -> bool
    ensures { IsTrue result ↔ (0 < days) × (days ≤ most_period) }
{
    0 < days && days <= MOST_PERIOD
}

/// Do all these series do the same after so many days, from an instant on?
fn all_repeat<D: Drawn>(drawn: &D, numbers: &[u64], from: i64, days: u64) -> bool
    requires places { (i : ℕ) → Contains numbers.now i → IsPlaceIn (length (D.calendar drawn.now).series) i }
    requires days { (0 < days) × (days ≤ most_period) }
    ensures { (all : List Event) → AreSeriesAt (D.calendar drawn.now) numbers.now all → IsTrue result ↔ ((a : Event) → Contains all a → IsPastAll a from × IsPeriodOf a days) }
{
    for number in numbers {
        if !repeats(drawn, *number, from, days) {
            return false;
        }
    }
    true
}

/// Does a series do the same after so many days, from an instant on?
fn repeats<D: Drawn>(drawn: &D, i: u64, from: i64, days: u64) -> bool
    requires place { IsPlaceIn (length (D.calendar drawn.now).series) i }
    requires days { (0 < days) × (days ≤ most_period) }
    ensures { (a : Event) → IsSeriesAt (D.calendar drawn.now) i a → IsTrue result ↔ (IsPastAll a from × IsPeriodOf a days) }
{
    periods_are_multiples();
    match drawn.period_days(i) {
        Some(period) => is_multiple(days, period) && drawn.regular_from(i) <= from,
        None => false,
    }
}

/// Is the one a multiple of the other?
fn is_multiple(days: u64, period: u64) -> bool
    requires { 0 < period }
    ensures { IsTrue result ↔ IsMultiple days period }
{
    days % period == 0
}

/// The greatest width of these series, of which there is one at least: in seconds.
pub(crate) fn greatest_width<D: Drawn>(drawn: &D, numbers: &[u64]) -> i64
    requires { (i : ℕ) → Contains numbers.now i → IsPlaceIn (length (D.calendar drawn.now).series) i }
    ensures is { (all : List Event) → 0 < length numbers.now → AreSeriesAt (D.calendar drawn.now) numbers.now all → IsGreatestWidth all result }
    ensures range { (pos 0 ≤ℤ result) × (result <ℤ pos (2 ^ 50)) }
{
    let mut greatest = 0;
    for number in numbers {
        greatest = drawn.width(*number).max(greatest);
    }
    greatest
}
