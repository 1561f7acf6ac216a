//! An agenda as people subscribe to it: an iCalendar object with a VEVENT of its own for each instance (RFC 5545 3.6, 3.6.1), all times in UTC.
ghost use Rattle.std.specs.Prelude.{◌≡◌, ◌++◌, ◌∷◌, ℕ, List, [], map, codes, string_bytes, IfOk, OnOk};
ghost use Rattle.std.specs.Int.{int_max, int_min};
ghost use Rattle.std.specs.List.{AllZip, flat_map};
ghost use Rattle.profile.specs.text.Lines.{folded, written};
ghost use Rattle.profile.specs.text.Values.{WritesStamp, escaped};
ghost use Rattle.profile.specs.checker.Publishing.{IsOwnUid, IsPublished, IsPublishedEvent, plain_address, published_opening, writable};
ghost use Rattle.ical_values.specs.Octets.{text_octets};
ghost use Rattle.cal_events.specs.Calendar.{instance_of, key_of};
ghost use Rattle.cal_agenda.specs.Published.{AreEvents};

use cal_events::{Instance, InstanceKey};
use ical_lines::fold::{write_line, write_pieces};
use ical_values::shown::{escaped_text, stamp_text};
use ical_values::{Stamp, Text};
use std::alloc::{AllocError, Global};

/// The first second that a stamp can say, 0001-01-01T00:00:00Z.
const FIRST: i64 = -62_135_596_800;

/// The last one, 9999-12-31T23:59:59Z.
const LAST: i64 = 253_402_300_799;

/// An iCalendar object of this name with a VEVENT for each instance, in order, made at a moment: with a UID of its own, of the original start, the
/// organiser and the UID of its meeting; its start and its end in UTC; and as SUMMARY the organiser's address without `mailto:`. A time in year
/// 10000 or later is the last second before it. Fails only when out of memory.
pub fn publish(
    alloc: Global,
    name: &str,
    moment: Stamp,
    instances: &[Instance<'_>],
) -> Result<Vec<u8>, AllocError>
    ensures { IfOk result (λ octets. IsPublished name.now moment (map instance_of instances.now) octets.items) }
{
    let mut out = Vec::new(alloc);
    write_opening(alloc, name, &mut out)?;
    write_events(alloc, moment, instances, &mut out)?;
    write_line(&mut out, "END:VCALENDAR")?;
    Ok(out)
}

/// An address as people read it: without `mailto:`.
pub fn plain_address(address: &str) -> &str
    ensures { result.now ≡ plain_address address.now }
{
    match address.strip_prefix("mailto:") {
        Some(rest) => rest,
        None => address,
    }
}

/// Appends the first lines of the object, with its name (RFC 7986 5.1).
fn write_opening(alloc: Global, name: &str, out: &mut Vec<u8>) -> Result<(), AllocError>
    ensures { OnOk result (out.new.items ≡ out.old.items ++ written (published_opening name.now)) }
{
    let name = escaped_of(alloc, name)?;
    write_line(out, "BEGIN:VCALENDAR")?;
    write_line(out, "VERSION:2.0")?;
    write_line(out, "PRODID:-//iTIP room box//EN")?;
    write_pieces(out, "NAME:", name.as_str())?;
    write_pieces(out, "X-WR-CALNAME:", name.as_str())?;
    Ok(())
}

/// Appends the VEVENT of each instance.
fn write_events(
    alloc: Global,
    moment: Stamp,
    instances: &[Instance<'_>],
    out: &mut Vec<u8>,
) -> Result<(), AllocError>
    ensures { OnOk result ((lines : List (List ℕ)) × AreEvents moment (map instance_of instances.now) lines × (out.new.items ≡ out.old.items ++ written lines)) }
{
    for instance in instances {
        write_event(alloc, moment, instance, out)?;
    }
    Ok(())
}

/// Appends the VEVENT of an instance.
fn write_event(
    alloc: Global,
    moment: Stamp,
    instance: &Instance<'_>,
    out: &mut Vec<u8>,
) -> Result<(), AllocError>
    ensures { OnOk result ((lines : List (List ℕ)) × IsPublishedEvent moment (instance_of instance.now) lines × (out.new.items ≡ out.old.items ++ written lines)) }
{
    let uid = own_uid(alloc, &instance.key)?;
    let uid = escaped_of(alloc, uid.as_str())?;
    let stamp = stamp_text(alloc, moment)?;
    let start = writable_text(alloc, instance.start)?;
    let end = writable_text(alloc, instance.end)?;
    let who = escaped_of(alloc, plain_address(instance.key.organiser))?;
    write_line(out, "BEGIN:VEVENT")?;
    write_pieces(out, "UID:", uid.as_str())?;
    write_pieces(out, "DTSTAMP:", stamp.as_str())?;
    write_pieces(out, "DTSTART:", start.as_str())?;
    write_pieces(out, "DTEND:", end.as_str())?;
    write_pieces(out, "SUMMARY:", who.as_str())?;
    write_line(out, "TRANSP:OPAQUE")?;
    write_line(out, "END:VEVENT")?;
    Ok(())
}

/// The UID of an instance's own VEVENT, without escapes.
fn own_uid(alloc: Global, key: &InstanceKey<'_>) -> Result<String, AllocError>
    ensures { IfOk result (λ uid. IsOwnUid (key_of key.now) (string_bytes uid)) }
{
    let slot = writable_text(alloc, key.slot)?;
    let organiser = key.organiser;
    let uid = key.uid;
    Ok(format!(in alloc; "{slot} {organiser} {uid}")?)
}

/// A text with its escapes.
fn escaped_of(alloc: Global, octets: &str) -> Result<String, AllocError>
    ensures { IfOk result (λ text. string_bytes text ≡ escaped octets.now) }
{
    let text = Text::of(alloc, octets)?;
    escaped_text(alloc, &text)
}

/// An instant in UTC; where its year is none from 1 to 9999, the nearest second of those years.
fn writable_text(alloc: Global, instant: i64) -> Result<String, AllocError>
    ensures { IfOk result (λ text. WritesStamp (string_bytes text) (writable instant)) }
{
    let stamp = Stamp::of_instant(writable(instant)).unwrap();
    stamp_text(alloc, stamp)
}

/// The nearest second of the years 1 to 9999.
fn writable(instant: i64) -> i64
    ensures { result ≡ writable instant }
{
    FIRST.max(instant.min(LAST))
}
