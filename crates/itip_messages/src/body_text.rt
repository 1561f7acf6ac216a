//! The lines of a body as they are in an object: each folded, with DTSTART in the zone under its number in that object (RFC 5545 3.8.2.4).
ghost use Rattle.std.specs.Prelude.{◌≡◌, ◌++◌, ℕ, Some, codes, string_bytes, IfOk, OnOk, OnErr};
ghost use Rattle.std.specs.Str.Lines.{lines};
ghost use Rattle.profile.specs.rooms.Kept.{renamed};
ghost use Rattle.profile.specs.text.Lines.{folded, written};
ghost use Rattle.itip_messages.specs.BodyText.{WritesBody, WritesText, name_of, named_lines};

use crate::body::zone_lines;
use crate::writer::ObjectWriter;
use crate::zones::Zones;
use itoa::Buffer;
use std::alloc::{AllocError, Global};
use std::str;

/// The number of octets of a body's VTIMEZONE up to what comes after its TZID: `BEGIN:VTIMEZONE`, `TZID:Z` and their line ends.
const ZONE_HEAD: usize = 25;

/// The lines of a body, each folded as it is written, with DTSTART in the zone under its number. A body that isn't
/// UTF-8 has none. Where the memory for them is refused, `object` and `zones` are as they were.
pub fn write_body(
    object: &mut ObjectWriter,
    zones: &mut Zones,
    body: &[u8],
) -> Result<(), AllocError>
    ensures ok { OnOk result (WritesBody body.now zones.old zones.new object.old object.new) }
    ensures object_err { OnErr result (object.new ≡ object.old) }
    ensures zones_err { OnErr result (zones.new ≡ zones.old) }
{
    let (lines, zone) = body.split_at(zone_lines(body));
    if zone.is_empty() {
        write_text(object, lines, None)?;
        return Ok(());
    }
    let known = zones.len();
    let number = zones.number_of(&zone[ZONE_HEAD.min(zone.len())..])?;
    if let Err(error) = write_text(object, lines, Some(number)) {
        zones.truncate(known);
        return Err(error);
    }
    Ok(())
}

/// The lines of these octets, each folded as it is written, with DTSTART in the zone of this number. Octets that aren't UTF-8 have
/// none.
fn write_text(
    object: &mut ObjectWriter,
    octets: &[u8],
    number: Option<usize>,
) -> Result<(), AllocError>
    ensures ok { OnOk result (WritesText number octets.now object.old object.new) }
    ensures err { OnErr result (object.new ≡ object.old) }
{
    let Ok(text) = str::from_utf8(octets) else {
        return Ok(());
    };
    match number {
        Some(number) => write_in_zone(object, text, number),
        None => write_lines(object, text),
    }
}

/// The lines of a text, each folded as it is written.
fn write_lines(object: &mut ObjectWriter, text: &str) -> Result<(), AllocError>
    ensures ok { OnOk result (object.new ≡ object.old ++ written (lines text.now)) }
    ensures err { OnErr result (object.new ≡ object.old) }
{
    let kept = object.len();
    for line in text.lines() {
        if let Err(error) = object.line(line) {
            object.truncate(kept);
            return Err(error);
        }
    }
    Ok(())
}

/// Writes the lines where DTSTART is in the zone of this number.
fn write_in_zone(object: &mut ObjectWriter, text: &str, number: usize) -> Result<(), AllocError>
    ensures ok { OnOk result (object.new ≡ object.old ++ written (named_lines (name_of (Some number)) (lines text.now))) }
    ensures err { OnErr result (object.new ≡ object.old) }
{
    let start = start_in(object.alloc(), number)?;
    let kept = object.len();
    for line in text.lines() {
        if let Err(error) = write_named(object, line, start.as_str()) {
            object.truncate(kept);
            return Err(error);
        }
    }
    Ok(())
}

/// One line, which begins so where it is DTSTART in a zone.
fn write_named(object: &mut ObjectWriter, line: &str, start: &str) -> Result<(), AllocError>
    ensures ok { OnOk result (object.new ≡ object.old ++ folded (renamed (codes "DTSTART;TZID=Z") start.now line.now)) }
    ensures err { OnErr result (object.new ≡ object.old) }
{
    match line.strip_prefix("DTSTART;TZID=Z") {
        Some(rest) => object.named(start, rest),
        None => object.line(line),
    }
}

/// How DTSTART begins in the zone of this number.
fn start_in(alloc: Global, number: usize) -> Result<String, AllocError>
    ensures { IfOk result (λ start. string_bytes start ≡ codes "DTSTART;TZID=" ++ name_of (Some number)) }
{
    let mut digits = Buffer::new();
    let mut start = String::new(alloc);
    start.push_str("DTSTART;TZID=Z")?;
    start.push_str(digits.format(number))?;
    Ok(start)
}
