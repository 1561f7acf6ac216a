//! What recurs: rules, zones and series. Each does the same again after each of its periods.
ghost use Rattle.std.specs.Prelude.{◌≡◌, ℕ, ℤ, ◌≤ℤ◌, MatchOption};
ghost use Rattle.profile.specs.events.Spans.{has_end};
ghost use Rattle.cal_period.specs.Recurring.{AreAllPastMost, AreMultiples, DoesRecur, HasNoCommon, IsLeastCommon};

use crate::law::{periods_are_multiples, series_repeat};
use cal_days::{Day, LAST_INDEX};
use cal_events::{Series, series_are_said};
use cal_rules::{Rule, common_multiple, rule_days_repeat};
use cal_zones::{Zone, zones_repeat};
use ical_values::seconds_at;

/// The index of 0002-01-01.
const SECOND_YEAR: u32 = 731;

/// What recurs: it has members at instants, in seconds from 1970-01-01T00:00:00Z, and from one instant on they are there again after each of its
/// periods.
pub trait Recurs {
    // It has a member then.
    ghost member: { Self → ℤ → Type 0 };

    // So many days later it does the same.
    ghost period: { Self → ℕ → Type 0 };

    // From this instant on it does.
    ghost regular: { Self → ℤ → Type 0 };

    // A member can be there: it isn't past where members end.
    ghost listed: { Self → ℤ → Type 0 };

    /// After how many days it does the same: its periods are the multiples of that number. None where they are more than 2,932,897.
    fn period_days(&self) -> Option<u64>
        ensures { MatchOption result (AreAllPastMost (Self.period self.now)) (AreMultiples (Self.period self.now)) };

    /// From which instant on it does.
    fn regular_from(&self) -> i64
        ensures regular { Self.regular self.now result };

    /// From then on it has a member exactly where it has one a period later, as far as members go. Only for the proof: there is nothing to do.
    fn recurs(&self)
        ensures { DoesRecur (Self.member self.now) (Self.period self.now) (Self.regular self.now) (Self.listed self.now) };
}

/// Its members are the beginnings of its days, as if they were days of UTC.
impl Recurs for Rule {
    ghost use Rattle.profile.specs.events.Spans.{IsRulePeriod};
    ghost use Rattle.cal_period.specs.Members.{IsDayOfRule, IsListedDay, IsRuleRegular, IsRuleFrom};

    ghost member = { IsDayOfRule };

    ghost period = { IsRulePeriod };

    ghost regular = { IsRuleRegular };

    ghost listed = { IsListedDay };

    fn period_days(&self) -> Option<u64> {
        Rule::period_days(self)
    }

    /// Where DTSTART's day begins, or year 2 where that is later: a week that begins before 0001-01-01 isn't whole. Of a rule with COUNT or UNTIL, where
    /// the day after its last one begins.
    fn regular_from(&self) -> i64
        ensures regular { IsRuleRegular self.now result }
        ensures exact { IsRuleFrom self.now result }
    {
        if !ends(self) {
            return seconds_at(self.start().index().max(SECOND_YEAR), 0);
        }
        match self.last_not_after(Day::at_index(LAST_INDEX).unwrap()) {
            Some(last) => seconds_at(last.index() + 1, 0),
            None => seconds_at(self.start().index(), 0),
        }
    }

    fn recurs(&self) {
        self.text().is_allowed();
        rule_days_repeat();
    }
}

/// Does COUNT or UNTIL end a rule?
fn ends(rule: &Rule) -> bool
    ensures { result ≡ has_end rule.now }
{
    let text = rule.text();
    text.count().is_some() || text.until().is_some()
}

/// Its members are its onsets.
impl Recurs for Zone {
    ghost use Rattle.profile.specs.events.Spans.{IsZonePeriod, IsPastOnsets};
    ghost use Rattle.cal_zones.specs.Kinds.{zone_of};
    ghost use Rattle.cal_zones.specs.Repeats.{IsRegularFrom};
    ghost use Rattle.cal_period.specs.Members.{IsOnsetOf};

    ghost member = { λ zone. IsOnsetOf (zone_of zone) };

    ghost period = { λ zone. IsZonePeriod (zone_of zone) };

    ghost regular = { λ zone. IsPastOnsets (zone_of zone) };

    ghost listed = { λ zone instant. Unit {0} };

    fn period_days(&self) -> Option<u64> {
        Some(Zone::period_days(self))
    }

    /// The first instant that is more than half a day past the first onset of each observance; 0 without onsets.
    fn regular_from(&self) -> i64
        ensures regular { IsPastOnsets (zone_of self.now) result }
        ensures exact { IsRegularFrom (zone_of self.now) result }
    {
        Zone::regular_from(self)
    }

    fn recurs(&self) {
        zones_repeat();
    }
}

/// Its members are its starts.
impl Recurs for Series {
    ghost use Rattle.profile.specs.events.Spans.{IsPastAll, IsLeastPast, IsPeriodOf};
    ghost use Rattle.cal_events.specs.Series.{series_said};
    ghost use Rattle.cal_period.specs.Members.{IsStartOf, IsListedStart};

    ghost member = { λ series. IsStartOf (series_said series) };

    ghost period = { λ series. IsPeriodOf (series_said series) };

    ghost regular = { λ series. IsPastAll (series_said series) };

    ghost listed = { λ series. IsListedStart (series_said series) };

    fn period_days(&self) -> Option<u64> {
        periods_are_multiples();
        Series::period_days(self)
    }

    /// The first instant past all that it does only once.
    fn regular_from(&self) -> i64
        ensures regular { IsPastAll (series_said self.now) result }
        ensures exact { IsLeastPast (series_said self.now) result }
    {
        Series::regular_from(self)
    }

    fn recurs(&self) {
        series_are_said();
        series_repeat();
    }
}

/// The least number of days that is a period of both; None where there is none of at most 2,932,897.
pub fn common_period<A: Recurs, B: Recurs>(a: &A, b: &B) -> Option<u64>
    ensures { MatchOption result (HasNoCommon (A.period a.now) (B.period b.now)) (IsLeastCommon (A.period a.now) (B.period b.now)) }
{
    let first = a.period_days()?;
    let second = b.period_days()?;
    common_multiple(first, second)
}
