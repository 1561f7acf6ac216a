//! The span of series: from which instant on, and after how many days, all of them do the same again.
ghost use Rattle.std.specs.Prelude.{◌≡◌, ◌^◌, ◌≤◌, [], ◌∷◌, List, map, pos, negsuc, ◌≤ℤ◌, ◌<ℤ◌, MatchOption};
ghost use Rattle.std.specs.List.{AllZip};
ghost use Rattle.profile.specs.series.Periods.{most_period};
ghost use Rattle.profile.specs.events.Events.{Event};
ghost use Rattle.profile.specs.events.Spans.{span_end};
ghost use Rattle.profile.specs.checker.Certificates.{IsPlacedAt};
ghost use Rattle.profile.specs.checker.Instances.{horizon};
ghost use Rattle.cal_events.specs.Series.{series_said};
ghost use Rattle.cal_period.specs.Spanning.{HasNoSpan, IsSpanOf, IsNextMidnight};

use crate::common::Common;
use cal_events::Series;
use ical_values::DAY_SECONDS;

/// A common period of series.
#[derive(Clone, Copy)]
pub struct CommonSpan {
    /// The first 00:00:00Z from which on all do the same after each period, in seconds from 1970-01-01T00:00:00Z.
    pub from: i64,
    /// The least number of days after which all do.
    pub days: u64,
    /// The end of the first period and the greatest width after it. What starts before it settles whether they are clear.
    pub bound: i64,
}

/// The span of two series, or of one with itself. None where there is no common period of at most 2,932,897 days, and where the bound isn't
/// before the horizon. No instance is looked at.
pub fn span_of_pair(a: &Series, b: &Series) -> Option<CommonSpan>
    ensures { MatchOption result (HasNoSpan (series_said a.now ∷ series_said b.now ∷ [])) (IsSpanOf (series_said a.now ∷ series_said b.now ∷ [])) }
{
    Common::of(a)?.with(b)?.span()
}

/// The span of the series of these numbers, counted from 1: None also where there are none. No instance is looked at.
pub fn span_of_members(series: &[Series], members: &[u64]) -> Option<CommonSpan>
    ensures { (all : List Event) → AllZip (IsPlacedAt (map series_said series.now)) members.now all → MatchOption result (HasNoSpan all) (IsSpanOf all) }
{
    let (first, others) = members.split_first()?;
    let mut common = Common::of(numbered(series, *first)?)?;
    for number in others {
        common = common.with(numbered(series, *number)?)?;
    }
    common.span()
}

/// The series of a number, counted from 1.
fn numbered(series: &[Series], number: u64) -> Option<&Series>
    ensures { MatchOption result ((a : Event) → IsPlacedAt (map series_said series.now) number a → ⊥) (λ found. IsPlacedAt (map series_said series.now) number (series_said found.now)) }
{
    series.get(number.saturating_sub(1) as usize)
}

/// The end of so many days from an instant on, and a width after it: instants and widths are in seconds. It requires an instant of the years 1 to 9999
/// or the first one after these, at most 2,932,897 days, and a width from 0 on and below 2^50.
pub fn span_end(from: i64, days: u64, width: i64) -> i64
    requires from { (negsuc 62_135_596_799 ≤ℤ from) × (from ≤ℤ horizon) }
    requires days { days ≤ most_period }
    requires width { (pos 0 ≤ℤ width) × (width <ℤ pos (2 ^ 50)) }
    ensures { result ≡ span_end from days width }
{
    from + DAY_SECONDS * days as i64 + width
}

/// The first 00:00:00Z from 1970 on that isn't before an instant.
pub(crate) fn next_midnight(instant: i64) -> i64
    requires { instant <ℤ horizon }
    ensures midnight { IsNextMidnight instant result }
    ensures range { (pos 0 ≤ℤ result) × (result ≤ℤ horizon) }
{
    if instant <= 0 {
        return 0;
    }
    let seconds = instant.unsigned_abs();
    ((seconds + 86_399) / 86_400 * 86_400) as i64
}
