//! A part of a VTIMEZONE, STANDARD or DAYLIGHT, and the runs that its DTSTART, RRULE and RDATEs say (RFC 5545 3.6.5).

ghost use Rattle.std.specs.Prelude.{◌≡◌, true, map, nat_le, IfOk, IfErr, OnOk};
ghost use Rattle.std.specs.List.{list_all};
ghost use Rattle.ical_lines.specs.Fault.{RefusesBy};
ghost use Rattle.ical_lines.specs.Text.{line_text};
ghost use Rattle.ical_tree.specs.Own.{own_lines};
ghost use Rattle.ical_tree.specs.Tree.{component_name, component_lines};
ghost use Rattle.profile.specs.events.Properties.{is_date_time};
ghost use Rattle.profile.specs.series.Days.{day_index};
ghost use Rattle.profile.specs.series.ZoneTexts.{is_part};
ghost use Rattle.profile.specs.series.GeneralZoneTexts.{RunsFault};
ghost use Rattle.cal_zones.specs.Shapes.{occurs_yearly};
ghost use Rattle.cal_doors.specs.Runs.{runs_in};
ghost use Rattle.cal_doors.specs.Reading.{AreTimes, AddsFirst, AddsYearly, AddsDays, AddsDate, AddsDatesOf, AddsDates, AddsPart, DateFault, LineFault, DatesFault};

use crate::rule::{EndingRule, PartRule, read_rule};
use crate::run::Run;
use cal_days::Day;
use cal_zones::{read_local, read_offset};
use ical_lines::{Fault, Line, Refusal};
use ical_tree::{Component, Properties};
use ical_values::{LocalTime, UtcOffset, seconds_at};
use std::alloc::{AllocError, Global};

/// Whether a component is a part.
pub(crate) fn is_part(component: &Component) -> bool
    ensures { result ≡ is_part (component_name component.now) }
{
    component.is_named("STANDARD") || component.is_named("DAYLIGHT")
}

/// Adds the runs of a part: the first, and one for each local time of its RDATEs. Refused with 40, 11 or 13.
pub(crate) fn add_part(alloc: Global, part: &Component, runs: &mut Vec<Run>) -> Result<(), Fault>
    ensures adds { OnOk result (AddsPart (component_lines part.now) (runs_in runs.old.items) (runs_in runs.new.items)) }
    ensures fault { IfErr result (RefusesBy (RunsFault (component_lines part.now))) }
{
    let properties = Properties::of(alloc, part)?;
    let times = read_times(&properties)?;
    add_first(alloc, &properties, &times, runs)?;
    add_dates(&properties, &times, runs)?;
    Ok(())
}

/// DTSTART, TZOFFSETFROM and TZOFFSETTO of a part.
#[derive(Clone, Copy)]
struct Times {
    start: LocalTime,
    from: UtcOffset,
    to: UtcOffset,
}

/// The times of a part. Refused with 40 where one of the three is missing or occurs twice, or DTSTART isn't a local time without a zone;
/// with 11 or 13 where a value isn't one.
fn read_times(properties: &Properties<'_>) -> Result<Times, Refusal>
    ensures says { IfOk result (λ t. AreTimes (own_lines properties.now) t.start t.from t.to) }
    ensures fault { IfErr result (λ e. RunsFault (own_lines properties.now) e.number) }
{
    let line = properties.required("DTSTART", Refusal::ZONE_SHAPE)?;
    let start = read_local(line)?;
    let from = read_offset(properties, "TZOFFSETFROM")?;
    let to = read_offset(properties, "TZOFFSETTO")?;
    Ok(Times { start, from, to })
}

/// Adds the first runs of a part with these times: at DTSTART alone, or by its one RRULE. Refused with 40 where there are two, or it is neither of one day
/// a year nor one whose days are listed.
fn add_first(
    alloc: Global,
    properties: &Properties<'_>,
    times: &Times,
    runs: &mut Vec<Run>,
) -> Result<(), Fault>
    requires { AreTimes (own_lines properties.now) times.now.start times.now.from times.now.to }
    ensures adds { OnOk result (AddsFirst (own_lines properties.now) times.now.start times.now.from times.now.to (runs_in runs.old.items) (runs_in runs.new.items)) }
    ensures fault { IfErr result (RefusesBy (RunsFault (own_lines properties.now))) }
{
    let Some(line) = properties.optional("RRULE", Refusal::ZONE_SHAPE)? else {
        runs.push(Run::once(times.start, times.from, times.to))?;
        return Ok(());
    };
    // Only for the proof: DTSTART is in the calendar's years.
    let _ = times.start.seconds();
    match read_rule(alloc, line.value(), times.start, times.from)? {
        PartRule::Yearly(rule) => add_yearly(rule, times, runs)?,
        PartRule::Listed(days) => add_days(days.as_slice(), times, runs)?,
    }
    Ok(())
}

/// Adds the run of one day a year.
fn add_yearly(rule: EndingRule, times: &Times, runs: &mut Vec<Run>) -> Result<(), AllocError>
    requires { occurs_yearly rule.day.month rule.day.days ≡ true }
    ensures { OnOk result (AddsYearly rule times.now.start times.now.from times.now.to (runs_in runs.old.items) (runs_in runs.new.items)) }
{
    let run = Run::yearly(times.start, rule.day, times.from, times.to, rule.end).unwrap();
    runs.push(run)?;
    Ok(())
}

/// Adds the run of one onset on each of these days, at the time of day of DTSTART.
fn add_days(days: &[Day], times: &Times, runs: &mut Vec<Run>) -> Result<(), AllocError>
    requires { list_all (λ day. nat_le day 3_652_424) (map day_index days.now) ≡ true }
    ensures { OnOk result (AddsDays times.now.start times.now.from times.now.to (map day_index days.now) (runs_in runs.old.items) (runs_in runs.new.items)) }
{
    let (_, second) = times.start.day_and_second();
    for day in days {
        let onset = LocalTime::of_seconds(seconds_at(day.index(), second)).unwrap();
        runs.push(Run::once(onset, times.from, times.to))?;
    }
    Ok(())
}

/// Adds a run for each local time of the RDATEs. Refused with 40 where one says something else.
fn add_dates(properties: &Properties<'_>, times: &Times, runs: &mut Vec<Run>) -> Result<(), Fault>
    ensures adds { OnOk result (AddsDates times.now.from times.now.to (own_lines properties.now) (runs_in runs.old.items) (runs_in runs.new.items)) }
    ensures fault { IfErr result (RefusesBy (DatesFault (own_lines properties.now))) }
{
    for line in properties.lines() {
        if line.is_named("RDATE") {
            add_line(*line, times, runs)?;
        }
    }
    Ok(())
}

/// Adds a run for each local time of a line.
fn add_line(line: Line<'_>, times: &Times, runs: &mut Vec<Run>) -> Result<(), Fault>
    ensures adds { OnOk result (AddsDatesOf times.now.from times.now.to (line_text line.entry) (runs_in runs.old.items) (runs_in runs.new.items)) }
    ensures fault { IfErr result (RefusesBy (LineFault (line_text line.entry))) }
{
    if line.param("TZID").is_some() {
        return Err(Fault::Refused(Refusal::ZONE_SHAPE));
    }
    if !is_date_time(line) {
        return Err(Fault::Refused(Refusal::ZONE_SHAPE));
    }
    for text in line.value().split(',') {
        add_date(text, times, runs)?;
    }
    Ok(())
}

/// Adds the run at the local time of a text.
fn add_date(text: &str, times: &Times, runs: &mut Vec<Run>) -> Result<(), Fault>
    ensures adds { OnOk result (AddsDate times.now.from times.now.to text.now (runs_in runs.old.items) (runs_in runs.new.items)) }
    ensures fault { IfErr result (RefusesBy (DateFault text.now)) }
{
    let Ok(local) = LocalTime::read(text) else {
        return Err(Fault::Refused(Refusal::ZONE_SHAPE));
    };
    runs.push(Run::once(local, times.from, times.to))?;
    Ok(())
}

/// Whether a line's value is a date-time. It is where VALUE isn't written.
fn is_date_time(line: Line<'_>) -> bool
    ensures { result ≡ is_date_time (line_text line.entry) }
{
    match line.param("VALUE") {
        None => true,
        Some(word) => word.eq_ignore_ascii_case("DATE-TIME"),
    }
}
