//! VTIMEZONEs as they are written (RFC 5545 3.6.5): each line folded, and ended by CRLF.

ghost use Rattle.std.specs.Prelude.{◌≡◌, ◌++◌, ℕ, List, codes, OnOk, ◌≤◌, decimal, string_bytes, IfOk};
ghost use Rattle.profile.specs.text.Lines.{folded, written};
ghost use Rattle.profile.specs.text.Trees.{Tree};
ghost use Rattle.profile.specs.text.Values.{IsOffset, WritesLocal, WritesOffset, escaped};
ghost use Rattle.profile.specs.series.Zones.{local_time};
ghost use Rattle.profile.specs.series.ZoneTexts.{SaysZone};
ghost use Rattle.profile.specs.written.WrittenZones.{rule_lines, keeping, WritesParts, WritesZone, IsZoneText, IsTextName, ReadsAsZone};
ghost use Rattle.ical_values.specs.Written.{Appends};
ghost use Rattle.cal_zones.specs.Onsets.{observance_of};
ghost use Rattle.cal_zones.specs.Kinds.{zone_of};
ghost use Rattle.cal_zones.specs.Written.{AppendsLines, IsPartText, IsLineOf, year_text, week_text};
ghost use Rattle.profile.specs.series.Zones as zones;

use crate::observance::Observance;
use crate::yearly::{MonthDays, Yearly};
use crate::zone::{Fixed, Form, Zone};
use cal_days::EPOCH_INDEX;
use cal_rules::{one_rule, weekday_word};
use ical_lines::{lines_read_back, write_line, write_property};
use ical_values::local_time::one_local_time;
use ical_values::offset::one_offset;
use ical_values::shown::{escaped_text, local_text, offset_text};
use ical_values::text::text_reads_back;
use ical_values::{Text, UtcOffset};
use std::alloc::{AllocError, Global};

/// Appends the lines of the VTIMEZONE of that name. On an error some of them may have been appended.
pub(crate) fn write_zone(out: &mut Vec<u8>, name: &str, zone: &Zone) -> Result<(), AllocError>
    ensures { OnOk result
        (AppendsLines out.old.items out.new.items (λ lines. WritesZone lines name.now (zone_of zone.now))) }
{
    write_line(out, "BEGIN:VTIMEZONE")?;
    write_name(out, name)?;
    write_parts(out, zone)?;
    write_line(out, "END:VTIMEZONE")?;
    Ok(())
}

/// Appends the parts.
fn write_parts(out: &mut Vec<u8>, zone: &Zone) -> Result<(), AllocError>
    ensures { OnOk result (AppendsLines out.old.items out.new.items (λ lines. WritesParts lines (zone_of zone.now))) }
{
    match &zone.kind {
        Form::Constant(fixed) => write_part(out, "STANDARD", &keeping(fixed)),
        Form::Single(once) => write_part(out, "STANDARD", &once.observance),
        Form::Pair(pair) => {
            write_part(out, "STANDARD", &pair.standard)?;
            write_part(out, "DAYLIGHT", &pair.daylight)?;
            Ok(())
        }
    }
}

/// One offset for all time, as a part that changes nothing.
fn keeping(fixed: &Fixed) -> Observance
    ensures { observance_of result ≡ keeping fixed.now.offset }
{
    Observance {
        day: EPOCH_INDEX,
        second: 0,
        rule: None,
        offset_from: fixed.offset,
        offset_to: fixed.offset,
    }
}

/// Appends TZID, with its escapes.
fn write_name(out: &mut Vec<u8>, name: &str) -> Result<(), AllocError>
    ensures { OnOk result (out.new.items ≡ out.old.items ++ folded (codes "TZID:" ++ escaped name.now)) }
{
    let name = Text::of(*out.allocator(), name)?;
    let text = escaped_text(*out.allocator(), &name)?;
    write_property(out, "TZID", text.as_str())?;
    Ok(())
}

/// Appends a part of that name, STANDARD or DAYLIGHT.
fn write_part(out: &mut Vec<u8>, kind: &str, part: &Observance) -> Result<(), AllocError>
    ensures { OnOk result (AppendsLines out.old.items out.new.items (IsPartText kind.now (observance_of part.now))) }
{
    write_property(out, "BEGIN", kind)?;
    write_start(out, part)?;
    write_rule(out, part)?;
    write_offset(out, "TZOFFSETFROM", part.offset_from)?;
    write_offset(out, "TZOFFSETTO", part.offset_to)?;
    write_property(out, "END", kind)?;
    Ok(())
}

/// Appends DTSTART.
fn write_start(out: &mut Vec<u8>, part: &Observance) -> Result<(), AllocError>
    ensures { OnOk result
        (Appends out.old.items out.new.items
        (IsLineOf (codes "DTSTART") (λ text. WritesLocal text (local_time part.now.day part.now.second)))) }
{
    let text = local_text(*out.allocator(), part.start())?;
    write_property(out, "DTSTART", text.as_str())?;
    Ok(())
}

/// Appends RRULE, where there is one.
fn write_rule(out: &mut Vec<u8>, part: &Observance) -> Result<(), AllocError>
    ensures { OnOk result
        (let o = observance_of part.now in out.new.items ≡ out.old.items ++ written (rule_lines o.rule)) }
{
    let Some(rule) = part.rule else {
        return Ok(());
    };
    let text = rule_text(*out.allocator(), rule)?;
    write_property(out, "RRULE", text.as_str())?;
    Ok(())
}

/// Appends an offset, in seconds, under its name.
fn write_offset(out: &mut Vec<u8>, name: &str, seconds: i32) -> Result<(), AllocError>
    requires { IsOffset seconds }
    ensures { OnOk result
        (Appends out.old.items out.new.items (IsLineOf name.now (λ text. WritesOffset text seconds))) }
{
    let offset = UtcOffset::of_seconds(seconds).unwrap();
    let text = offset_text(*out.allocator(), offset)?;
    write_property(out, name, text.as_str())?;
    Ok(())
}

/// FREQ and BYMONTH, and then BYMONTHDAY and BYDAY where the rule has them, each list ascending.
fn rule_text(alloc: Global, rule: Yearly) -> Result<String, AllocError>
    ensures { IfOk result (λ text. string_bytes text ≡ year_text rule.month rule.days) }
{
    let month = rule.month;
    match rule.days {
        MonthDays::Day(day) => Ok(format!(in alloc;
            "FREQ=YEARLY;BYMONTH={month};BYMONTHDAY={day}"
        )?),
        MonthDays::FromStart { number, weekday } => {
            let word = weekday_word(weekday);
            Ok(format!(in alloc; "FREQ=YEARLY;BYMONTH={month};BYDAY={number}{word}")?)
        }
        MonthDays::FromEnd { number, weekday } => {
            let word = weekday_word(weekday);
            Ok(format!(in alloc; "FREQ=YEARLY;BYMONTH={month};BYDAY=-{number}{word}")?)
        }
        MonthDays::Week { first, weekday } => {
            let week = week_text(alloc, first)?;
            let days = week.as_str();
            let word = weekday_word(weekday);
            Ok(format!(in alloc; "FREQ=YEARLY;BYMONTH={month};BYMONTHDAY={days};BYDAY={word}")?)
        }
    }
}

/// Seven days in a row, from that one on.
fn week_text(alloc: Global, first: u8) -> Result<String, AllocError>
    requires { first ≤ 25 }
    ensures { IfOk result (λ text. string_bytes text ≡ week_text first) }
{
    let mut text = first.to_string(alloc)?;
    push_day(&mut text, first + 1)?;
    push_day(&mut text, first + 2)?;
    push_day(&mut text, first + 3)?;
    push_day(&mut text, first + 4)?;
    push_day(&mut text, first + 5)?;
    push_day(&mut text, first + 6)?;
    Ok(text)
}

/// Appends a comma and a day.
fn push_day(text: &mut String, day: u8) -> Result<(), AllocError>
    ensures { OnOk result (string_bytes text.new ≡ string_bytes text.old ++ (codes "," ++ decimal day)) }
{
    let digits = day.to_string(*text.allocator())?;
    text.push_str(",")?;
    text.push_str(digits.as_str())?;
    Ok(())
}

/// What is written of a zone that may be read, as some VTIMEZONE says it, reads back: the octets read as lines, and these
/// spell one VTIMEZONE of that name that says that zone (RFC 5545 3.1, 3.6.5). The name must be one that a TEXT value can
/// represent. With the contracts of `Zone::write` and `Zone::read`: what was written is read as that zone.
pub fn zone_reads_back()
    ensures { (t : Tree) (zone : zones.Zone) (name octets : List ℕ)
        → SaysZone t zone → IsTextName name → IsZoneText octets name zone → ReadsAsZone octets name zone }
{
    one_rule();
    one_local_time();
    one_offset();
    text_reads_back();
    lines_read_back();
}
