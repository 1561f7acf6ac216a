//! The days of a page: those that a span of time touches, on the clocks of a zone.
ghost use Rattle.std.specs.Prelude.{◌≡◌, ◌↔◌, ◌+◌, ◌≤◌, ◌<ℤ◌, ◌≤ℤ◌, map, IsTrue, IfOk, OnOk};
ghost use Rattle.std.specs.Int.{int_max, int_min};
ghost use Rattle.profile.specs.series.Zones.{Means, local_time};
ghost use Rattle.cal_zones.specs.Kinds.{zone_of};
ghost use Rattle.cal_agenda.specs.Pages.{AreDays, IsTouched, IsWellWithin, in_day};
ghost use Rattle.cal_agenda.specs.PageDays.{AddsTouched, IsNear, day_said};

use crate::in_span::has_instant;
use crate::page_span::{LocalDay, PageSpan};
use cal_days::Day;
use cal_events::Span;
use cal_zones::Zone;
use ical_values::LocalTime;
use std::alloc::{AllocError, Global};

/// An instant of a day, or where it isn't in it the nearer end of the day.
pub(crate) fn in_day(day: &LocalDay, instant: i64) -> i64
    ensures value { result ≡ in_day (day_said day.now) instant }
    ensures range { IsWellWithin result }
{
    day.start.max(instant.min(day.end))
}

/// The days that a span touches, in order. Fails only when out of memory.
pub(crate) fn days_of(
    alloc: Global,
    zone: &Zone,
    span: PageSpan,
) -> Result<Vec<LocalDay>, AllocError>
    ensures { IfOk result (λ days. AreDays (zone_of zone.now) span.start span.end (map day_said days.items)) }
{
    // Clocks show less than a day more or less than UTC.
    let first = utc_day(span.start) - 1;
    let behind = utc_day(span.end) + 2;
    let mut days = Vec::new(alloc);
    let mut start = midnight(zone, first);
    for index in first..behind {
        let day = day_from(zone, index, start);
        keep(&mut days, day, span)?;
        start = day.end;
    }
    Ok(days)
}

/// Adds a day to others, if a span touches it. Fails only when out of memory.
fn keep(days: &mut Vec<LocalDay>, day: LocalDay, span: PageSpan) -> Result<(), AllocError>
    ensures { OnOk result (AddsTouched span.start span.end (day_said day) (map day_said days.old.items) (map day_said days.new.items)) }
{
    if !is_touched(&day, span) {
        return Ok(());
    }
    days.push(day)?;
    Ok(())
}

/// Whether a day shares an instant with a span.
fn is_touched(day: &LocalDay, span: PageSpan) -> bool
    ensures { IsTrue result ↔ IsTouched span.start span.end (day_said day.now) }
{
    has_instant(common(day, span))
}

/// What a day and a span have in common, if that holds an instant.
fn common(day: &LocalDay, span: PageSpan) -> Span
    ensures start { result.start ≡ int_max day.now.start span.start }
    ensures end { result.end ≡ int_min day.now.end span.end }
{
    Span {
        start: day.start.max(span.start),
        end: day.end.min(span.end),
    }
}

/// The day of an index, which begins with an instant.
fn day_from(zone: &Zone, index: u32, start: i64) -> LocalDay
    requires index { (367 ≤ index) × (index ≤ 3_652_422) }
    requires start { IsWellWithin start }
    ensures same { (result.index ≡ index) × (result.start ≡ start) }
    ensures end { Means (zone_of zone.now) (local_time (index + 1) 0) result.end }
    ensures near { IsNear (local_time (index + 1) 0) result.end }
{
    let end = midnight(zone, index + 1);
    LocalDay { index, start, end }
}

/// The instant with which the day of an index begins.
fn midnight(zone: &Zone, index: u32) -> i64
    requires { (366 ≤ index) × (index ≤ 3_652_424) }
    ensures meaning { Means (zone_of zone.now) (local_time index 0) result }
    ensures near { IsNear (local_time index 0) result }
{
    // Only for the proof: each offset is less than a day.
    let _ = zone.offsets();
    let day = Day::at_index(index).unwrap();
    let local = LocalTime::of_day(day, 0).unwrap();
    zone.resolve(local)
}

/// The index of the day in UTC that an instant is in.
fn utc_day(instant: i64) -> u32
    requires { IsWellWithin instant }
    ensures low { local_time result 0 ≤ℤ instant }
    ensures high { instant <ℤ local_time (result + 1) 0 }
{
    let time = LocalTime::of_seconds(instant).unwrap();
    let (day, _) = time.day_and_second();
    day.index()
}
