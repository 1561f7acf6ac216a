//! An agenda, and what is free, as lines of text.
ghost use Rattle.std.specs.Prelude.{◌≡◌, ◌++◌, ◌∷◌, ℕ, List, [], map, option_map, string_bytes, IfOk, OnOk, OnErr};
ghost use Rattle.cal_zones.specs.Kinds.{zone_of};
ghost use Rattle.cal_events.specs.Calendar.{instance_of};
ghost use Rattle.cal_agenda.specs.Gaps.{ends_of};
ghost use Rattle.cal_agenda.specs.Printing.{LinesOf, IsAgendaLine, IsFreeLine, IsTimesText, AreLocalTimes, IsInstantText, IsLocalTimeText};

use cal_events::{Instance, Span};
use cal_zones::Zone;
use ical_values::shown::{escaped_text, local_text, stamp_text};
use ical_values::{LocalTime, Stamp, Text};
use std::alloc::{AllocError, Global};

/// Appends a line for each instance: when it starts and ends in UTC, both in the local time of a zone where one is given, its UID as it is written in
/// a calendar, and its organiser. A time in year 10000 or later is `-`. Where memory is refused, nothing is appended.
pub fn write_agenda(
    alloc: Global,
    instances: &[Instance<'_>],
    zone: Option<Zone>,
    out: &mut Vec<u8>,
) -> Result<(), AllocError>
    ensures ok { OnOk result ((text : List ℕ) × LinesOf (IsAgendaLine (option_map zone_of zone)) (map instance_of instances.now) text × (out.new.items ≡ out.old.items ++ text)) }
    ensures err { OnErr result (out.new.items ≡ out.old.items) }
{
    let start = out.len();
    for instance in instances {
        if write_instance(alloc, instance, zone, out).is_err() {
            out.truncate(start);
            return Err(AllocError);
        }
    }
    Ok(())
}

/// Appends a line for each span: when it starts and ends in UTC, and both in the local time of a zone where one is given. Where memory is refused,
/// nothing is appended.
pub fn write_spans(
    alloc: Global,
    spans: &[Span],
    zone: Option<Zone>,
    out: &mut Vec<u8>,
) -> Result<(), AllocError>
    ensures ok { OnOk result ((text : List ℕ) × LinesOf (IsFreeLine (option_map zone_of zone)) (map ends_of spans.now) text × (out.new.items ≡ out.old.items ++ text)) }
    ensures err { OnErr result (out.new.items ≡ out.old.items) }
{
    let kept = out.len();
    for span in spans {
        if write_span(alloc, *span, zone, out).is_err() {
            out.truncate(kept);
            return Err(AllocError);
        }
    }
    Ok(())
}

/// Appends the line of an instance. Where memory is refused, nothing is appended.
fn write_instance(
    alloc: Global,
    instance: &Instance<'_>,
    zone: Option<Zone>,
    out: &mut Vec<u8>,
) -> Result<(), AllocError>
    ensures ok { OnOk result ((line : List ℕ) × IsAgendaLine (option_map zone_of zone) (instance_of instance.now) line × (out.new.items ≡ out.old.items ++ line)) }
    ensures err { OnErr result (out.new.items ≡ out.old.items) }
{
    let line = instance_line(alloc, instance, zone)?;
    out.extend_from_slice(line.as_bytes())?;
    Ok(())
}

/// Appends the line of a span. Where memory is refused, nothing is appended.
fn write_span(
    alloc: Global,
    span: Span,
    zone: Option<Zone>,
    out: &mut Vec<u8>,
) -> Result<(), AllocError>
    ensures ok { OnOk result ((line : List ℕ) × IsFreeLine (option_map zone_of zone) (span.start, span.end) line × (out.new.items ≡ out.old.items ++ line)) }
    ensures err { OnErr result (out.new.items ≡ out.old.items) }
{
    let line = span_line(alloc, span, zone)?;
    out.extend_from_slice(line.as_bytes())?;
    Ok(())
}

/// The line of an instance.
fn instance_line(
    alloc: Global,
    instance: &Instance<'_>,
    zone: Option<Zone>,
) -> Result<String, AllocError>
    ensures { IfOk result (λ line. IsAgendaLine (option_map zone_of zone) (instance_of instance.now) (string_bytes line)) }
{
    let times = times_text(alloc, instance.start, instance.end, zone)?;
    let uid = Text::of(alloc, instance.key.uid)?;
    let uid = escaped_text(alloc, &uid)?;
    let organiser = instance.key.organiser;
    Ok(format!(in alloc; "{times} {uid} {organiser}\n")?)
}

/// The line of a span.
fn span_line(alloc: Global, span: Span, zone: Option<Zone>) -> Result<String, AllocError>
    ensures { IfOk result (λ line. IsFreeLine (option_map zone_of zone) (span.start, span.end) (string_bytes line)) }
{
    let times = times_text(alloc, span.start, span.end, zone)?;
    Ok(format!(in alloc; "{times}\n")?)
}

/// Two instants in UTC, and in the local time of a zone where one is given, with blanks between them.
fn times_text(alloc: Global, start: i64, end: i64, zone: Option<Zone>) -> Result<String, AllocError>
    ensures { IfOk result (λ text. IsTimesText (option_map zone_of zone) start end (string_bytes text)) }
{
    let first = instant_text(alloc, start)?;
    let last = instant_text(alloc, end)?;
    let local = local_times(alloc, start, end, zone)?;
    Ok(format!(in alloc; "{first} {last}{local}")?)
}

/// The local times of two instants, with a blank before each; nothing where no zone is given.
fn local_times(
    alloc: Global,
    start: i64,
    end: i64,
    zone: Option<Zone>,
) -> Result<String, AllocError>
    ensures { IfOk result (λ text. AreLocalTimes (option_map zone_of zone) start end (string_bytes text)) }
{
    let Some(zone) = zone else {
        return Ok(String::new(alloc));
    };
    let first = local_time_text(alloc, start, &zone)?;
    let last = local_time_text(alloc, end, &zone)?;
    Ok(format!(in alloc; " {first} {last}")?)
}

/// An instant in UTC; `-` where its year is none from 1 to 9999.
fn instant_text(alloc: Global, instant: i64) -> Result<String, AllocError>
    ensures { IfOk result (λ text. IsInstantText instant (string_bytes text)) }
{
    let Some(stamp) = Stamp::of_instant(instant) else {
        return String::from_str(alloc, "-");
    };
    stamp_text(alloc, stamp)
}

/// The local time that the clocks of a zone show at an instant; `-` where its year is none from 1 to 9999.
fn local_time_text(alloc: Global, instant: i64, zone: &Zone) -> Result<String, AllocError>
    ensures { IfOk result (λ text. IsLocalTimeText (zone_of zone.now) instant (string_bytes text)) }
{
    let offset = zone.offset(instant);
    // Past all numbers it is past year 9999 too, and so before year 1.
    let Some(local) = LocalTime::of_seconds(instant.saturating_add(offset as i64)) else {
        return String::from_str(alloc, "-");
    };
    local_text(alloc, local)
}
