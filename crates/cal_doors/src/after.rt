//! The offset in force at an instant, and the zone of the onsets after it.

ghost use Rattle.std.specs.Prelude.{◌≡◌, IfSome};
ghost use Rattle.cal_zones.specs.Kinds.{zone_of};
ghost use Rattle.cal_doors.specs.Runs.{runs_in};
ghost use Rattle.cal_doors.specs.After.{IsOnlyOffset, IsStillAfter, HasOnsetsAfter, IsOnceAt};
ghost use Rattle.cal_doors.specs.declared.end.End.TheVariants.{Never};

use crate::check::{all_hold, covers};
use crate::condition::{Condition, First, Latest, Only, Still, Two};
use crate::places::{earliest_place, endless_place, first_place, latest_place, place_left};
use crate::run::Run;
use cal_zones::{Observance, Zone};
use ical_values::{LocalTime, UtcOffset};

/// The one offset in force at an instant. None where none is found.
pub(crate) fn offset_at(runs: &[Run], instant: i64) -> Option<i32>
    ensures { IfSome result (IsOnlyOffset (runs_in runs.now) instant) }
{
    match latest_place(runs, instant) {
        Some(place) => offset_since(runs, place, instant),
        None => offset_until(runs, first_place(runs)?, instant),
    }
}

/// The offset that the latest onset up to an instant sets, where that is one of the run at this place.
fn offset_since(runs: &[Run], place: usize, instant: i64) -> Option<i32>
    ensures { IfSome result (IsOnlyOffset (runs_in runs.now) instant) }
{
    let run = runs.get(place)?;
    let latest = run.latest_bound(instant)?;
    if instant < latest || !run.begins_at(latest) {
        return None;
    }
    let condition = Condition::Latest(Latest {
        instant,
        latest,
        sets: run.offset_to,
    });
    if !all_hold(runs, &condition) {
        return None;
    }
    Some(run.offset_to)
}

/// The offset that the first onset of all ends, where that is one of the run at this place, and none comes up to an instant.
fn offset_until(runs: &[Run], place: usize, instant: i64) -> Option<i32>
    ensures { IfSome result (IsOnlyOffset (runs_in runs.now) instant) }
{
    let run = runs.get(place)?;
    let first = run.first_bound();
    if first <= instant || !run.begins_at(first) {
        return None;
    }
    let condition = Condition::First(First {
        first,
        ends: run.offset_from,
    });
    if !all_hold(runs, &condition) {
        return None;
    }
    Some(run.offset_from)
}

/// The zone of one offset, which is in force at an instant, where all onsets after it set the same. None where one sets another.
pub(crate) fn still_after(runs: &[Run], instant: i64, offset: i32) -> Option<Zone>
    ensures { IfSome result (λ zone. IsStillAfter (runs_in runs.now) instant offset (zone_of zone)) }
{
    let condition = Condition::Still(Still {
        instant,
        sets: offset,
    });
    if !all_hold(runs, &condition) {
        return None;
    }
    Some(Zone::constant(UtcOffset::of_seconds(offset)?))
}

/// The zone that has the onsets after an instant. None where none is found.
pub(crate) fn zone_after(runs: &[Run], instant: i64) -> Option<Zone>
    ensures { IfSome result (λ zone. HasOnsetsAfter (runs_in runs.now) instant (zone_of zone)) }
{
    let place = place_left(runs, instant)?;
    if let Some(zone) = single_after(runs, place, instant) {
        return Some(zone);
    }
    pair_after(runs, instant)
}

/// The zone of one onset, where one comes after an instant, of the run at this place.
fn single_after(runs: &[Run], place: usize, instant: i64) -> Option<Zone>
    ensures { IfSome result (λ zone. HasOnsetsAfter (runs_in runs.now) instant (zone_of zone)) }
{
    let run = runs.get(place)?;
    let only = run.latest_bound(run.last_bound()?)?;
    if !run.begins_at(only) {
        return None;
    }
    let condition = Condition::Only(Only {
        instant,
        only,
        offset_from: run.offset_from,
        offset_to: run.offset_to,
    });
    if !all_hold(runs, &condition) {
        return None;
    }
    once_at(only, run.offset_from, run.offset_to)
}

/// The zone of one onset, at an instant and with these offsets.
fn once_at(only: i64, from: i32, to: i32) -> Option<Zone>
    ensures { IfSome result (λ zone. IsOnceAt only from to (zone_of zone)) }
{
    let from = UtcOffset::of_seconds(from)?;
    let to = UtcOffset::of_seconds(to)?;
    let local = LocalTime::of_seconds(only.checked_add(from.seconds() as i64)?)?;
    Zone::single(Observance::new(local, None, from, to)).ok()
}

/// The zone of two endless rules, where all onsets after an instant are theirs. Runs of one rule that follow each other are one.
fn pair_after(runs: &[Run], instant: i64) -> Option<Zone>
    ensures { IfSome result (λ zone. HasOnsetsAfter (runs_in runs.now) instant (zone_of zone)) }
{
    let first = runs.get(endless_place(runs, None)?)?;
    let second = runs.get(endless_place(runs, Some(first))?)?;
    let one = runs.get(earliest_place(runs, first)?)?.endless();
    let other = runs.get(earliest_place(runs, second)?)?.endless();
    pair_of_runs(runs, &one, &other, instant)
}

/// The zone of two runs without their ends, where all onsets after an instant are theirs.
fn pair_of_runs(runs: &[Run], one: &Run, other: &Run, instant: i64) -> Option<Zone>
    requires one { one.now.end ≡ Never }
    requires other { other.now.end ≡ Never }
    ensures { IfSome result (λ zone. HasOnsetsAfter (runs_in runs.now) instant (zone_of zone)) }
{
    let condition = Condition::Pair(Two {
        instant,
        one: *one,
        other: *other,
    });
    if !all_hold(runs, &condition) {
        return None;
    }
    if !covers(runs, one, instant) || !covers(runs, other, instant) {
        return None;
    }
    // STANDARD is the one that sets the clocks back.
    if one.offset_to < one.offset_from {
        return Zone::pair(one.observance, other.observance).ok();
    }
    if other.offset_to < other.offset_from {
        return Zone::pair(other.observance, one.observance).ok();
    }
    None
}
