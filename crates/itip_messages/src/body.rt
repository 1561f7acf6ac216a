//! The body of a VEVENT in its one form: the lines that say when it is, DTSTART, DURATION, RRULE, RDATE and EXDATE, unfolded and each ended
//! by CRLF (RFC 5545 3.6.1), and then the VTIMEZONE that DTSTART is in, under the name `Z` (RFC 5545 3.6.5). Two bodies are the same where
//! these octets are.
ghost use Rattle.std.specs.Prelude.{◌≡◌, ◌≤◌, ◌≤ℤ◌, pos, ◌++◌, [], ◌∷◌, Contains, List, ℕ, ℤ, Some, option_copied, option_map, map, filter, codes, length, string_bytes, IfOk, OnOk};
ghost use Rattle.std.specs.List.{AllZip};
ghost use Rattle.ical_values.specs.Written.{Appends};
ghost use Rattle.profile.specs.text.Values.{IsClockSeconds, SpellsDate, WritesStamp, duration_text};
ghost use Rattle.profile.specs.events.EventComponents.{EventComponent as SaidComponent};
ghost use Rattle.profile.specs.series.Rules as rules;
ghost use Rattle.profile.specs.events.Properties.{BothOrNeither};
ghost use Rattle.profile.specs.events.ZonedTimes.{SpellsMidnight, clock_of};
ghost use Rattle.profile.specs.series.Days.{day_index};
ghost use Rattle.profile.specs.rooms.Messages.{AreAscending, Content, IsContent, WritesEnd, WritesFixedEnd, canonical, instants_in, list_lines, may_take};
ghost use Rattle.cal_rules.specs.Views.{until_of};
ghost use Rattle.cal_zones.specs.Kinds.{zone_of};
ghost use Rattle.cal_events.specs.Component.{component_of, form_of, form_said, time_of, times_of, zone_said};
ghost use Rattle.itip_messages.specs.Body.{AppendsListed, AppendsOthers, AppendsRule, AppendsStart, AppendsTimes, AppendsZone, AreShowable, EndIsTold, IsCanonical, IsCutAtZone, IsFixedTold, IsMidnight, IsReady, IsShowable, IsTold, StartIsWhole, crlf_lines, name_as, writes_as, zone_place};

use cal_days::Day;
use cal_events::{EventComponent, EventTimes, Form, Time, When, as_end, is_in_event_dates};
use cal_rules::{Rule, Until};
use cal_zones::Zone;
use ical_values::shown::{date_text, stamp_text};
use ical_values::{Duration, LocalTime, Stamp};
use memchr::memmem;
use std::alloc::{AllocError, Global};

/// Where the octets of the VTIMEZONE begin in those of a body: at the first line that begins one; the body's length where there is none.
pub fn zone_lines(body: &[u8]) -> usize
    ensures place { result ≡ zone_place body.now }
    ensures inside { result ≤ length body.now }
    ensures cut { (content : Content) (event : SaidComponent) → IsContent content event → body.now ≡ canonical content → IsCutAtZone content result }
{
    memmem::find(body, b"BEGIN:VTIMEZONE\r\n").unwrap_or(body.len())
}

/// The body of a VEVENT. It fails only when out of memory.
pub(crate) fn canonical_body(alloc: Global, event: &EventComponent) -> Result<Vec<u8>, AllocError>
    requires { IsReady (component_of event.now) }
    ensures { IfOk result (λ body. IsCanonical body.items (component_of event.now)) }
{
    let mut body = Vec::new(alloc);
    write_start(&mut body, &event.times)?;
    write_duration(&mut body, event.times.length)?;
    write_rule(&mut body, &event.times.start, event.rule.as_ref())?;
    write_listed(&mut body, "RDATE", &event.written.additions)?;
    let exceptions = that_may_take(alloc, &event.written.exceptions)?;
    write_listed(&mut body, "EXDATE", &exceptions)?;
    write_zone(&mut body, &event.times)?;
    Ok(body)
}

/// DTSTART: the instant in UTC, the local time in the zone `Z` or without zone, or the date.
fn write_start(body: &mut Vec<u8>, times: &EventTimes) -> Result<(), AllocError>
    requires { StartIsWhole (times_of times.now) }
    ensures { OnOk result (AppendsStart (times_of times.now) body.old.items body.new.items) }
{
    match times.start {
        When::Utc(_) => {
            body.extend_from_slice(b"DTSTART:")?;
            times.instant.write(body)?;
        }
        When::Zoned(local, _) => {
            body.extend_from_slice(b"DTSTART;TZID=Z:")?;
            local.write(body)?;
        }
        When::Floating(local, _) => {
            body.extend_from_slice(b"DTSTART:")?;
            local.write(body)?;
        }
        When::WholeDay(local, _) => {
            body.extend_from_slice(b"DTSTART;VALUE=DATE:")?;
            write_date(body, local)?;
        }
    }
    body.extend_from_slice(b"\r\n")?;
    Ok(())
}

/// DURATION, also of what ends by DTEND.
fn write_duration(body: &mut Vec<u8>, length: Duration) -> Result<(), AllocError>
    ensures { OnOk result (body.new.items ≡ body.old.items ++ crlf_lines ((codes "DURATION:" ++ duration_text length.days length.seconds) ∷ [])) }
{
    body.extend_from_slice(b"DURATION:")?;
    length.write(body)?;
    body.extend_from_slice(b"\r\n")?;
    Ok(())
}

/// RRULE, where there is a rule, beside a DTSTART, on its clocks.
fn write_rule(body: &mut Vec<u8>, start: &When, rule: Option<&Rule>) -> Result<(), AllocError>
    requires { EndIsTold (form_said start.now) (option_copied rule) }
    ensures { OnOk result (AppendsRule (form_said start.now) (clock_of (zone_said start.now)) (option_copied rule.entry) body.old.items body.new.items) }
{
    let Some(rule) = rule else {
        return Ok(());
    };
    let end = end_text(*body.allocator(), start, rule)?;
    body.extend_from_slice(b"RRULE:")?;
    rule.write(end.as_deref(), body)?;
    body.extend_from_slice(b"\r\n")?;
    Ok(())
}

/// The text of UNTIL; None where it is absent.
fn end_text(alloc: Global, start: &When, rule: &Rule) -> Result<Option<String>, AllocError>
    requires { (end : rules.Until) → rule.now.until ≡ Some end → IsTold (form_said start.now) rule.now.last end }
    ensures { IfOk result (λ text.
        BothOrNeither (WritesEnd (form_said start.now) (clock_of (zone_said start.now)) rule.now.last) rule.now.until (option_map string_bytes text)) }
{
    let Some(until) = rule.text().until() else {
        return Ok(None);
    };
    let text = until_text(alloc, start, rule.last(), &until)?;
    Ok(Some(text))
}

/// Beside a fixed start what UNTIL says, else the last day that it allows.
fn until_text(alloc: Global, start: &When, last: Day, until: &Until) -> Result<String, AllocError>
    requires { IsTold (form_said start.now) (day_index last) (until_of until.now) }
    ensures { IfOk result (λ text. WritesEnd (form_said start.now) (clock_of (zone_said start.now)) (day_index last) (until_of until.now) (string_bytes text)) }
{
    match start.form() {
        Form::Fixed => fixed_text(alloc, &start.clock(), until),
        Form::Floating | Form::WholeDay => day_text(alloc, last),
    }
}

/// A date, or else the instant in UTC.
fn fixed_text(alloc: Global, clock: &Zone, until: &Until) -> Result<String, AllocError>
    requires { IsFixedTold (until_of until.now) }
    ensures { IfOk result (λ text. WritesFixedEnd (zone_of clock.now) (until_of until.now) (string_bytes text)) }
{
    match until {
        Until::Date(day) => day_text(alloc, *day),
        Until::Local(local) => instant_text(alloc, as_end(clock.resolve(*local))),
        Until::Utc(stamp) => instant_text(alloc, as_end(stamp.instant())),
    }
}

/// A day up to 9999-12-31.
fn day_text(alloc: Global, day: Day) -> Result<String, AllocError>
    requires { day ≤ℤ pos 2_932_896 }
    ensures { IfOk result (λ text. SpellsDate (string_bytes text) day) }
{
    let Some(text) = date_text(alloc, day)? else {
        unreachable!()
    };
    Ok(text)
}

/// An instant, in UTC.
fn instant_text(alloc: Global, instant: i64) -> Result<String, AllocError>
    requires { IsClockSeconds instant }
    ensures { IfOk result (λ text. WritesStamp (string_bytes text) instant) }
{
    let Some(stamp) = Stamp::of_instant(instant) else {
        unreachable!()
    };
    stamp_text(alloc, stamp)
}

/// A property that lists times, in up to three lines: in UTC, without zone, and as dates; no line where there are none.
fn write_listed(body: &mut Vec<u8>, name: &str, times: &[Time]) -> Result<(), AllocError>
    requires { AreShowable (map time_of times.now) }
    ensures { OnOk result (AppendsListed name.now (map time_of times.now) body.old.items body.new.items) }
{
    write_times(body, name, times, Form::Fixed)?;
    write_times(body, name, times, Form::Floating)?;
    write_times(body, name, times, Form::WholeDay)?;
    Ok(())
}

/// A property that lists those of this form, ascending and each once. In time n log n.
fn write_times(body: &mut Vec<u8>, name: &str, times: &[Time], form: Form) -> Result<(), AllocError>
    requires { AreShowable (map time_of times.now) }
    ensures { OnOk result (AppendsTimes (form_of form) name.now (instants_in (form_of form) (map time_of times.now)) body.old.items body.new.items) }
{
    let instants = instants_in(*body.allocator(), times, form)?;
    let ascending = ascending(*body.allocator(), &instants)?;
    write_list(body, name, form, &ascending)
}

/// The instants of those of this form.
fn instants_in(alloc: Global, times: &[Time], form: Form) -> Result<Vec<i64>, AllocError>
    ensures { IfOk result (λ within. within.items ≡ instants_in (form_of form) (map time_of times.now)) }
{
    let mut within = Vec::new(alloc);
    for time in times {
        if time.form == form {
            within.push(time.instant)?;
        }
    }
    Ok(within)
}

/// These instants in order, each once.
fn ascending(alloc: Global, instants: &[i64]) -> Result<Vec<i64>, AllocError>
    ensures { IfOk result (λ ascending. AreAscending instants.now ascending.items) }
{
    let mut ascending = Vec::from_slice(alloc, instants)?;
    ascending.sort_unstable();
    ascending.dedup();
    Ok(ascending)
}

/// A property that lists these instants as they are, as times of this form.
fn write_list(
    body: &mut Vec<u8>,
    name: &str,
    form: Form,
    instants: &[i64],
) -> Result<(), AllocError>
    requires { (instant : ℤ) → Contains instants.now instant → IsShowable (form_of form) instant }
    ensures { OnOk result ((texts : List (List ℕ)) × AllZip (writes_as (form_of form)) texts instants.now
        × (body.new.items ≡ body.old.items ++ crlf_lines (list_lines (name_as (form_of form) name.now) texts))) }
{
    let Some((first, others)) = instants.split_first() else {
        return Ok(());
    };
    write_name(body, name, form)?;
    write_time(body, form, *first)?;
    write_others(body, form, others)?;
    body.extend_from_slice(b"\r\n")?;
    Ok(())
}

/// What comes before the first: the name, and VALUE where they are dates.
fn write_name(body: &mut Vec<u8>, name: &str, form: Form) -> Result<(), AllocError>
    ensures { OnOk result (body.new.items ≡ body.old.items ++ (name_as (form_of form) name.now ++ codes ":")) }
{
    body.extend_from_slice(name.as_bytes())?;
    match form {
        Form::Fixed | Form::Floating => body.extend_from_slice(b":")?,
        Form::WholeDay => body.extend_from_slice(b";VALUE=DATE:")?,
    }
    Ok(())
}

/// Further instants of a list, each after a comma.
fn write_others(body: &mut Vec<u8>, form: Form, instants: &[i64]) -> Result<(), AllocError>
    requires { (instant : ℤ) → Contains instants.now instant → IsShowable (form_of form) instant }
    ensures { OnOk result (AppendsOthers (form_of form) instants.now body.old.items body.new.items) }
{
    for instant in instants {
        body.extend_from_slice(b",")?;
        write_time(body, form, *instant)?;
    }
    Ok(())
}

/// A time of this form, by its instant in UTC.
fn write_time(body: &mut Vec<u8>, form: Form, instant: i64) -> Result<(), AllocError>
    requires { IsShowable (form_of form) instant }
    ensures { OnOk result (Appends body.old.items body.new.items (λ text. writes_as (form_of form) text instant)) }
{
    let Some(local) = LocalTime::of_seconds(instant) else {
        unreachable!()
    };
    match form {
        Form::Fixed => write_stamp(body, instant),
        Form::Floating => local.write(body),
        Form::WholeDay => write_date(body, local),
    }
}

fn write_stamp(body: &mut Vec<u8>, instant: i64) -> Result<(), AllocError>
    requires { IsClockSeconds instant }
    ensures { OnOk result (Appends body.old.items body.new.items (λ text. WritesStamp text instant)) }
{
    let Some(stamp) = Stamp::of_instant(instant) else {
        unreachable!()
    };
    stamp.write(body)
}

/// The date whose day begins at this local time.
fn write_date(body: &mut Vec<u8>, midnight: LocalTime) -> Result<(), AllocError>
    requires { IsMidnight midnight }
    ensures { OnOk result (Appends body.old.items body.new.items (λ text. SpellsMidnight text midnight)) }
{
    let (day, _) = midnight.day_and_second();
    let text = day_text(*body.allocator(), day)?;
    body.extend_from_slice(text.as_bytes())
}

/// Those times that may take a start away.
fn that_may_take(alloc: Global, times: &[Time]) -> Result<Vec<Time>, AllocError>
    ensures { IfOk result (λ kept. map time_of kept.items ≡ filter may_take (map time_of times.now)) }
{
    let mut kept = Vec::new(alloc);
    for time in times {
        if may_take(time) {
            kept.push(*time)?;
        }
    }
    Ok(kept)
}

/// Whether it is fixed where a start may be, or isn't fixed.
fn may_take(time: &Time) -> bool
    ensures { result ≡ may_take (time_of time.now) }
{
    time.form != Form::Fixed || is_in_event_dates(time.instant)
}

/// The VTIMEZONE that DTSTART is in, under the name `Z`; nothing where it is in none.
fn write_zone(body: &mut Vec<u8>, times: &EventTimes) -> Result<(), AllocError>
    requires { StartIsWhole (times_of times.now) }
    ensures { OnOk result (AppendsZone (times_of times.now) body.old.items body.new.items) }
{
    match times.start {
        When::Zoned(_, zone) => zone.write("Z", body),
        When::Utc(_) | When::Floating(_, _) | When::WholeDay(_, _) => Ok(()),
    }
}
