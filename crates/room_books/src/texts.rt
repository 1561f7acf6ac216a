//! What a room keeps, as octets: its calendar, and the certificate for it.

ghost use Rattle.std.specs.Prelude.{◌≡◌, ◌∷◌, ◌++◌, [], ℕ, List, true, false, IfOk, OnOk};
ghost use Rattle.indexmap.specs.IndexMap.{values};
ghost use Rattle.ical_values.specs.Octets.{address_octets};
ghost use Rattle.cal_zones.specs.RoomZones.{words_of};
ghost use Rattle.itip_order.specs.Parts.{part_of};
ghost use Rattle.profile.specs.checker.Certificates.{Claims, IsCertificateWritten, SpellsCertificate};
ghost use Rattle.profile.specs.rooms.Kept.{IsKeptCalendar, room_zone_lines};
ghost use Rattle.profile.specs.text.Lines.{written};
ghost use Rattle.profile.specs.rooms.Revisions.{is_whole};
ghost use Rattle.profile.specs.rooms.Rooms.{Book};
ghost use Rattle.room_books.specs.Room.{Represents};
ghost use Rattle.room_books.specs.Texts.{WritesEntries, WritesHead, accepted_slots, all_kept, kept_entry_of, kept_in};

use crate::decide::{Meetings, keys_differ};
use crate::kept::Meeting;
use crate::meeting::PartAnswer;
use crate::reply::recurrence_of;
use crate::slots::{is_touched, put_in_order};
use cal_events::Calendar;
use cal_zones::RoomZone;
use clash_cert::certificate_written;
use ical_values::Address;
use itip_messages::{ObjectWriter, Zones, write_body, write_slot};
use itip_order::{Body, Part, Slot};
use std::alloc::{AllocError, Global};

/// What a room keeps, as octets.
#[derive(Drop)]
pub struct KeptTexts {
    pub calendar: Vec<u8>,
    pub certificate: Vec<u8>,
}

/// How a part in the view is kept.
#[derive(Clone, Copy)]
struct Keeping {
    /// It is confirmed, and so shown.
    shown: bool,
    /// The whole of its meeting is: a part that isn't shown hides an instance of it.
    hides: bool,
}

/// The kept calendar of a room of this zone, which it names where that isn't UTC; the meetings in order of first arrival: each accepted part in the
/// view, and what hides instances of an accepted whole.
pub(crate) fn calendar_of(
    alloc: Global,
    meetings: &Meetings,
    room: &Address,
    zone: &RoomZone,
) -> Result<Vec<u8>, AllocError>
    ensures { IfOk result (λ text. (book : Book) → Represents meetings.now.entries book
        → IsKeptCalendar (address_octets room.now) (words_of zone.now) book text.items) }
{
    // Only for the proof: no two meetings have one name.
    keys_differ(meetings);
    // the zones go first, and are known last
    let mut zones = Zones::new(alloc);
    let mut events = ObjectWriter::new(alloc);
    write_meetings(&mut events, &mut zones, meetings, room)?;
    events.end_calendar()?;
    let events = events.finish();
    let mut object = ObjectWriter::new(alloc);
    object.begin_calendar(None)?;
    write_room_zone(&mut object, zone)?;
    zones.write(&mut object)?;
    object.octets(events.as_slice())?;
    Ok(object.finish())
}

/// The line that names the zone of a room, where that isn't UTC.
fn write_room_zone(object: &mut ObjectWriter, zone: &RoomZone) -> Result<(), AllocError>
    ensures { OnOk result (object.new ≡ object.old ++ written (room_zone_lines (words_of zone.now))) }
{
    if zone.is_utc() {
        return Ok(());
    }
    let words = zone.words(object.alloc())?;
    object.named("X-ROOM-ZONE:", words.as_str())
}

/// The octets of the certificate that is written for a calendar, which is clear.
pub(crate) fn certificate_octets(alloc: Global, calendar: &Calendar) -> Result<Vec<u8>, AllocError>
    ensures { IfOk result (λ octets. (c : Claims) × IsCertificateWritten calendar.now c × SpellsCertificate octets.items c) }
{
    let certificate = certificate_written(alloc, calendar)?;
    let mut octets = Vec::new(alloc);
    certificate.write(&mut octets)?;
    Ok(octets)
}

/// The VEVENTs of all meetings, in order of first arrival. Each meeting is gone through once.
fn write_meetings(
    object: &mut ObjectWriter,
    zones: &mut Zones,
    meetings: &Meetings,
    room: &Address,
) -> Result<(), AllocError>
    ensures { OnOk result
        (WritesEntries (address_octets room.now) (all_kept (values meetings.now)) zones.old zones.new object.old object.new) }
{
    for meeting in meetings.values() {
        write_meeting(object, zones, meeting, room)?;
    }
    Ok(())
}

/// The VEVENTs that are kept of a meeting, by their slots: of the parts in the view that were accepted, and where the whole is one of
/// them, of each other instance in the view. For each part it takes as many steps as the number of the meeting's parts has binary
/// digits, and those for the octets that are written.
fn write_meeting(
    object: &mut ObjectWriter,
    zones: &mut Zones,
    meeting: &Meeting,
    room: &Address,
) -> Result<(), AllocError>
    ensures { OnOk result (WritesEntries (address_octets room.now) (kept_in meeting.now) zones.old zones.new object.old object.new) }
{
    // each part looks for its answer among them
    let mut accepted = slots_accepted(object.alloc(), &meeting.answers)?;
    put_in_order(&mut accepted);
    let hides = is_touched(&accepted, Slot::Whole);
    for part in meeting.held.view() {
        let shown = is_touched(&accepted, part.slot);
        write_kept(object, zones, part, Keeping { shown, hides }, room)?;
    }
    Ok(())
}

/// The VEVENT of a part, if it is kept: where it is shown, or where it hides an instance of the whole.
fn write_kept(
    object: &mut ObjectWriter,
    zones: &mut Zones,
    part: &Part,
    keeping: Keeping,
    room: &Address,
) -> Result<(), AllocError>
    ensures { OnOk result
        (WritesEntries (address_octets room.now) (kept_entry_of keeping.hides keeping.shown (part_of part.now)) zones.old zones.new object.old object.new) }
{
    if keeping.shown {
        return write_part(object, zones, part, room);
    }
    match part.slot {
        Slot::At(_) if keeping.hides => write_hidden(object, part, room),
        _ => Ok(()),
    }
}

/// The slots of the answers that accept.
fn slots_accepted(alloc: Global, answers: &[PartAnswer]) -> Result<Vec<Slot>, AllocError>
    ensures { IfOk result (λ slots. slots.items ≡ accepted_slots answers.now) }
{
    let mut slots = Vec::new(alloc);
    for given in answers {
        if given.outcome.is_accept() {
            slots.push(given.slot)?;
        }
    }
    Ok(slots)
}

/// The VEVENT of a part that is to take place: its own lines, and the room as the one attendee, who has accepted.
fn write_part(
    object: &mut ObjectWriter,
    zones: &mut Zones,
    part: &Part,
    room: &Address,
) -> Result<(), AllocError>
    ensures { OnOk result
        (WritesEntries (address_octets room.now) ((true, part_of part.now) ∷ []) zones.old zones.new object.old object.new) }
{
    let Body::Set(body) = &part.body else {
        return Ok(());
    };
    write_head(object, part)?;
    write_body(object, zones, body.as_slice())?;
    object.named("ORGANIZER:", part.organiser.as_str())?;
    object.named("ATTENDEE;PARTSTAT=ACCEPTED:", room.as_str())?;
    object.line("END:VEVENT")?;
    Ok(())
}

/// The VEVENT of an instance that the room hasn't accepted: nothing at its original start, cancelled, and the room has declined.
fn write_hidden(object: &mut ObjectWriter, part: &Part, room: &Address) -> Result<(), AllocError>
    requires { is_whole (part_of part.now) ≡ false }
    ensures { (zones : List (List ℕ)) → OnOk result
        (WritesEntries (address_octets room.now) ((false, part_of part.now) ∷ []) zones zones object.old object.new) }
{
    let Some(recurrence) = recurrence_of(part.slot) else {
        return Ok(());
    };
    let Some(start) = recurrence else {
        return Ok(());
    };
    write_head(object, part)?;
    object.stamp("DTSTART:", start)?;
    object.line("DURATION:PT0S")?;
    object.line("STATUS:CANCELLED")?;
    object.named("ORGANIZER:", part.organiser.as_str())?;
    object.named("ATTENDEE;PARTSTAT=DECLINED:", room.as_str())?;
    object.line("END:VEVENT")?;
    Ok(())
}

/// The lines of a VEVENT that say which part it is of.
fn write_head(object: &mut ObjectWriter, part: &Part) -> Result<(), AllocError>
    ensures { OnOk result (WritesHead (part_of part.now) object.old object.new) }
{
    object.line("BEGIN:VEVENT")?;
    object.uid(&part.uid)?;
    write_slot(object, part.slot)?;
    object.sequence(part.revision.sequence)?;
    object.stamp("DTSTAMP:", part.revision.stamp)?;
    Ok(())
}
