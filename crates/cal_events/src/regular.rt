//! From which instant on a series does the same again: after all that it does only once. That is its start, its exceptions, the first onsets
//! of its zone (RFC 5545 3.6.5), and the last start of a rule that COUNT or UNTIL ends.

ghost use Rattle.std.specs.Prelude.{◌≡◌, ◌<◌, ◌≤◌, ℤ, MatchOption};
ghost use Rattle.profile.specs.series.Zones.{IsOneMeaning};
ghost use Rattle.profile.specs.events.Spans.{has_end, IsPastOnsets};
ghost use Rattle.profile.specs.events.ZonedTimes.{clock_of};
ghost use Rattle.cal_zones.specs.Kinds.{zone_of};
ghost use Rattle.cal_rules.specs.LastDays.{NoDayTo};
ghost use Rattle.cal_events.specs.Clocks.{IsAscending};
ghost use Rattle.cal_events.specs.Component.{times_of, zone_said};
ghost use Rattle.cal_events.specs.Recurrence.{recurring};
ghost use Rattle.cal_events.specs.LastStarts.{HasNoStart, IsLastStart, IsLastStartTo};
ghost use Rattle.cal_events.specs.Past.{ArePast, IsFirstPast, IsLeastPastMaster, IsPastException, IsPastRule};

use crate::event_times::{EventTimes, FIRST_SECOND, resolve};
use crate::instance::HORIZON;
use crate::recurrence::Recurrence;
use cal_days::{Day, LAST_INDEX};
use cal_rules::Rule;
use cal_zones::Zone;
use ical_values::LocalTime;

/// The least instant after all that a meeting by its rule doesn't do again.
pub(crate) fn regular_from(recurrence: &Recurrence) -> i64
    ensures { IsLeastPastMaster (recurring recurrence.now) result }
{
    let after_start = recurrence.times.instant.instant() + 1;
    let after_onsets = past_onsets(&recurrence.times.start.clock(), after_start);
    let after_exceptions = past_exceptions(recurrence.exceptions.sorted(), after_onsets);
    past_rule(&recurrence.times, &recurrence.rule, after_exceptions)
}

/// The least instant from one on that is more than half a day past the first onset of each observance of a zone.
fn past_onsets(zone: &Zone, from: i64) -> i64
    ensures { IsFirstPast from (IsPastOnsets (zone_of zone.now)) result }
{
    let (first, _) = zone.first_onsets();
    if first.is_none() {
        return from;
    }
    from.max(zone.regular_from())
}

/// The least instant from one on that is past these exceptions. Those outside of the dates that an event may name are ignored.
fn past_exceptions(exceptions: &[i64], from: i64) -> i64
    ensures { IsFirstPast from (ArePast exceptions.now) result }
{
    let mut past = from;
    for exception in exceptions {
        past = past_exception(*exception, past);
    }
    past
}

fn past_exception(exception: i64, from: i64) -> i64
    ensures { IsFirstPast from (IsPastException exception) result }
{
    if exception < FIRST_SECOND || exception >= HORIZON {
        return from;
    }
    from.max(exception + 1)
}

/// The least instant from one on that is past all starts of a rule that ends.
fn past_rule(times: &EventTimes, given: &Option<Rule>, from: i64) -> i64
    requires meaning { IsOneMeaning (clock_of (zone_said times.now.start)) }
    requires ascending { IsAscending (clock_of (zone_said times.now.start)) }
    ensures { IsFirstPast from (IsPastRule (times_of times.now) given.now) result }
{
    let Some(rule) = given else {
        return from;
    };
    if !has_end(rule) {
        return from;
    }
    match last_start(times, rule) {
        Some(start) => from.max(start + 1),
        None => from,
    }
}

/// Whether COUNT or UNTIL ends a rule.
fn has_end(rule: &Rule) -> bool
    ensures { result ≡ has_end rule.now }
{
    rule.text().count().is_some() || rule.text().until().is_some()
}

/// The last start of a rule before year 10000. Only one on 9999-12-31 may be later.
fn last_start(times: &EventTimes, rule: &Rule) -> Option<i64>
    requires meaning { IsOneMeaning (clock_of (zone_said times.now.start)) }
    requires ascending { IsAscending (clock_of (zone_said times.now.start)) }
    ensures { MatchOption result (HasNoStart (times_of times.now) rule.now) (IsLastStart (times_of times.now) rule.now) }
{
    let Some(last) = last_start_to(times, rule, LAST_INDEX) else {
        return None;
    };
    if last < HORIZON {
        return Some(last);
    }
    last_start_to(times, rule, LAST_INDEX - 1)
}

/// When a rule starts on its last day up to one, by index.
fn last_start_to(times: &EventTimes, rule: &Rule, to: u32) -> Option<i64>
    requires { (366 ≤ to) × (to ≤ 3_652_424) }
    ensures { MatchOption result (NoDayTo rule.now to) (IsLastStartTo (times_of times.now) rule.now to) }
{
    let Some(day) = rule.last_not_after(Day::at_index(to).unwrap()) else {
        return None;
    };
    let (_, second) = times.start.local().day_and_second();
    let local = LocalTime::of_day(day, second).unwrap();
    Some(resolve(&times.start.clock(), local.seconds()))
}
