//! A search for a clash of two series in one zone, or of one by itself, where none would be if the clocks of the zone were never set. Two starts that
//! are read by one offset are as far apart as their local times, so only what starts near an onset is looked at. No memory is taken.
ghost use Rattle.std.specs.Prelude.{◌≡◌, ℕ, ◌<◌, ◌^◌, ℤ, pos, ◌+ℤ◌, ◌≤ℤ◌, ◌<ℤ◌, IfSome, MatchOption};
ghost use Rattle.profile.specs.checker.Instances.{horizon};
ghost use Rattle.profile.specs.series.Zones.{IsZoneOnset};
ghost use Rattle.cal_zones.specs.Kinds.{zone_of};
ghost use Rattle.cal_events.specs.Calendar.{instance_of};
ghost use Rattle.cal_events.specs.Series.{series_said};
ghost use Rattle.cal_period.specs.Clear.{ArePair, AreTwo};
ghost use Rattle.cal_period.specs.LocalResidues.{AreLocallyApart, IsLocallyApart};
ghost use Rattle.cal_period.specs.Onward.{IsSharedBelow, IsSharedAloneBelow};
ghost use Rattle.cal_period.specs.Onsets.{GoesBy, AreClearSince, IsClearSince, AreClearNear, IsClearNear, IsReach, IsHalfDayBefore, IsNextBelow};

use crate::by_residues::{are_locally_apart, is_locally_apart};
use crate::clash::{entry, first_start};
use crate::walk::Walk;
use cal_events::{
    HORIZON, Instance, Series, Span, instances_last, known_by_start, series_are_said,
};
use cal_zones::{Zone, zones_repeat};

/// Half a day, by which the offsets of a zone differ at the most, and a second more.
const PAST_HALF_DAY: i64 = 43_201;

/// The zone of two series, where they have the same and never meet by its clocks.
pub(crate) fn zone_apart(a: &Series, b: &Series) -> Option<Zone>
    ensures zone { IfSome result (λ zone. GoesBy (series_said a.now) zone × GoesBy (series_said b.now) zone) }
    ensures apart { IfSome result (λ _. (m : ℕ) × (0 < m) × AreLocallyApart (series_said a.now) (series_said b.now) m) }
{
    let zone = same_zone(a, b)?;
    if !are_locally_apart(a, b) {
        return None;
    }
    Some(zone)
}

/// The zone of a series of which no two instances meet by its clocks.
pub(crate) fn zone_alone_apart(a: &Series) -> Option<Zone>
    ensures zone { IfSome result (λ zone. GoesBy (series_said a.now) zone) }
    ensures apart { IfSome result (λ _. (m : ℕ) × (0 < m) × IsLocallyApart (series_said a.now) m) }
{
    if !is_locally_apart(a) {
        return None;
    }
    Some(a.zone())
}

/// The zone of two series, where they have the same.
fn same_zone(a: &Series, b: &Series) -> Option<Zone>
    ensures { IfSome result (λ zone. GoesBy (series_said a.now) zone × GoesBy (series_said b.now) zone) }
{
    let zone = a.zone();
    if !zone.is_same(&b.zone()) {
        return None;
    }
    Some(zone)
}

/// Two instances, one of each series, that start before a bound and share an instant; None where the series are clear up to there. Both go by one
/// zone, and at one offset they never meet: so only what starts near an onset is looked at. No memory is taken.
pub(crate) fn clash_near_onsets<'a>(
    a: &'a Series,
    b: &'a Series,
    zone: &Zone,
    bound: i64,
) -> Option<(Instance<'a>, Instance<'a>)>
    requires zone { GoesBy (series_said a.now) zone.now × GoesBy (series_said b.now) zone.now }
    requires apart { (m : ℕ) × (0 < m) × AreLocallyApart (series_said a.now) (series_said b.now) m }
    ensures { IsSharedBelow (series_said a.now) (series_said b.now) bound result }
{
    known_by_start();
    series_are_said();
    instances_last();
    zones_repeat();
    zone.one_meaning();
    let first = half_day_before(a);
    let second = half_day_before(b);
    clash_between(a, b, zone, first.min(second), bound.min(HORIZON))
}

/// Two instances of a series that start before a bound and share an instant; None where it is clear by itself up to there. At one offset no two
/// meet. No memory is taken.
pub(crate) fn clash_alone_near_onsets<'a>(
    a: &'a Series,
    zone: &Zone,
    bound: i64,
) -> Option<(Instance<'a>, Instance<'a>)>
    requires zone { GoesBy (series_said a.now) zone.now }
    requires apart { (m : ℕ) × (0 < m) × IsLocallyApart (series_said a.now) m }
    ensures { IsSharedAloneBelow (series_said a.now) bound result }
{
    known_by_start();
    series_are_said();
    instances_last();
    zones_repeat();
    zone.one_meaning();
    clash_alone_between(a, zone, half_day_before(a), bound.min(HORIZON))
}

/// Two instances, one of each series, that share an instant, where some do near an onset between two instants.
fn clash_between<'a>(
    a: &'a Series,
    b: &'a Series,
    zone: &Zone,
    after: i64,
    bound: i64,
) -> Option<(Instance<'a>, Instance<'a>)>
    requires { bound ≤ℤ horizon }
    ensures { MatchOption result (AreClearNear (zone_of zone.now) (series_said a.now) (series_said b.now) after bound) (λ s. ArePair (series_said a.now) (series_said b.now) (instance_of s.0) (instance_of s.1)) }
{
    let reach = reach_of(b);
    let mut last = after;
    while let Some(onset) = onset_below(zone, last, bound) {
        if let Some(shared) = clash_since(a, b, onset, onset + reach) {
            return Some(shared);
        }
        last = onset;
    }
    None
}

/// Two instances of a series that share an instant, where some do near an onset between two instants.
fn clash_alone_between<'a>(
    a: &'a Series,
    zone: &Zone,
    after: i64,
    bound: i64,
) -> Option<(Instance<'a>, Instance<'a>)>
    requires { bound ≤ℤ horizon }
    ensures { MatchOption result (IsClearNear (zone_of zone.now) (series_said a.now) after bound) (λ s. AreTwo (series_said a.now) (instance_of s.0) (instance_of s.1)) }
{
    let reach = reach_of(a);
    let mut last = after;
    while let Some(onset) = onset_below(zone, last, bound) {
        if let Some(shared) = clash_alone_since(a, onset, onset + reach) {
            return Some(shared);
        }
        last = onset;
    }
    None
}

/// Two instances, one of each series, that share an instant, where one of the first that starts before a bound does from another instant on.
fn clash_since<'a>(
    a: &'a Series,
    b: &'a Series,
    from: i64,
    bound: i64,
) -> Option<(Instance<'a>, Instance<'a>)>
    requires { from <ℤ horizon }
    ensures { MatchOption result (AreClearSince (series_said a.now) (series_said b.now) from bound) (λ s. ArePair (series_said a.now) (series_said b.now) (instance_of s.0) (instance_of s.1)) }
{
    known_by_start();
    let mut starts = a.starts(entry(a, from));
    let mut walk = Walk::to(starts.next());
    while let Some(next) = walk.next_below(bound) {
        if let Some(other) = b.first_sharer(span_of(next)) {
            return Some((next, other));
        }
        walk = walk.past(next, starts.next());
    }
    None
}

/// Two instances of a series that share an instant, where two that start before a bound do from another instant on.
fn clash_alone_since<'a>(
    a: &'a Series,
    from: i64,
    bound: i64,
) -> Option<(Instance<'a>, Instance<'a>)>
    requires { from <ℤ horizon }
    ensures { MatchOption result (IsClearSince (series_said a.now) from bound) (λ s. AreTwo (series_said a.now) (instance_of s.0) (instance_of s.1)) }
{
    known_by_start();
    let mut starts = a.starts(entry(a, from));
    let mut walk = Walk::to(starts.next());
    while let Some(next) = walk.next_below(bound) {
        if let Some(last) = walk.met_by(next) {
            return Some((last, next));
        }
        walk = walk.past(next, starts.next());
    }
    None
}

/// The first onset of a zone after an instant, where it is before a bound.
pub(crate) fn onset_below(zone: &Zone, after: i64, bound: i64) -> Option<i64>
    ensures { IsNextBelow (IsZoneOnset (zone_of zone.now)) after bound result }
{
    match zone.next_onset(after) {
        Some(onset) if onset < bound => Some(onset),
        _ => None,
    }
}

/// How long after an onset a start of another series still has to do with it, where it meets an instance of this one.
pub(crate) fn reach_of(series: &Series) -> i64
    ensures reach { IsReach (series_said series.now) result }
    ensures range { (pos 0 ≤ℤ result) × (result <ℤ pos (2 ^ 51)) }
{
    PAST_HALF_DAY + series.width()
}

/// An instant more than half a day before the first start of a series; any where it has none.
fn half_day_before(series: &Series) -> i64
    ensures { IsHalfDayBefore (series_said series.now) result }
{
    known_by_start();
    match first_start(series) {
        Some(first) => first.saturating_sub(PAST_HALF_DAY),
        None => HORIZON,
    }
}

/// When an instance lasts.
pub(crate) fn span_of(instance: Instance<'_>) -> Span
    ensures { (result.start ≡ instance.entry.start) × (result.end ≡ instance.entry.end) }
{
    Span {
        start: instance.start,
        end: instance.end,
    }
}
