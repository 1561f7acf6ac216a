//! What an organiser writes of a meeting that it stored: its REQUEST (RFC 5546 3.2.2), and the same with other lines for its attendees. The
//! zones come first, each once under the names `Z1`, `Z2`, .., and then the VEVENTs in their order.
ghost use Rattle.std.specs.Prelude.{◌≡◌, ◌++◌, ℕ, List, OnOk, OnErr, option_map};
ghost use Rattle.std.specs.List.{AllZip};
ghost use Rattle.profile.specs.events.EventComponents as events;
ghost use Rattle.profile.specs.rooms.Revisions as revisions;
ghost use Rattle.profile.specs.events.Messages.{counted};
ghost use Rattle.profile.specs.organisers.Sent.{IsAsked};
ghost use Rattle.ical_values.specs.Written.{Appends};
ghost use Rattle.cal_events.specs.Component.{attendee_of};
ghost use Rattle.itip_order.specs.Parts.{slot_of};
ghost use Rattle.itip_messages.specs.Reply.{WritesLines, text_now};
ghost use Rattle.itip_messages.specs.MeetingText.{IsRequestOf, IsTextOf, WritesComponent, WritesComponents, WritesLine};

use crate::body_text::write_body;
use crate::event_lines::{write_revision, write_slot, write_status};
use crate::message_component::MessageComponent;
use crate::writer::ObjectWriter;
use crate::zones::Zones;
use cal_events::Attendee;
use ical_values::{Address, Text};
use itip_order::{Revision, Slot};
use std::alloc::AllocError;

/// A meeting that is written.
#[derive(Clone, Copy)]
pub struct MeetingText<'a> {
    /// The meeting, by its UID and its organiser.
    pub uid: &'a Text,
    pub organiser: &'a Address,
    /// SEQUENCE and DTSTAMP of each VEVENT, whatever its own are.
    pub revision: Revision,
    /// What its VEVENTs say, in their order.
    pub components: &'a [MessageComponent],
}

/// How the ATTENDEE lines of a meeting are written (RFC 5545 3.8.4.1).
pub trait AttendeeLines {
    // The line of an attendee of that slot.
    ghost line: { Self → revisions.Slot → events.Attendee → List ℕ → Type 0 };

    /// Writes the line of an attendee of a VEVENT of this slot. Where the memory for it is refused, `object` is as it was.
    fn write_line(
        &self,
        object: &mut ObjectWriter,
        slot: Slot,
        attendee: &Attendee,
    ) -> Result<(), AllocError>
        ensures ok { OnOk result (WritesLine (Self.line self.now (slot_of slot) (attendee_of attendee.now)) object.old object.new) }
        ensures err { OnErr result (object.new ≡ object.old) };
}

/// Each attendee is asked to answer (RFC 5545 3.2.12, 3.2.17).
struct Asked;

impl AttendeeLines for Asked {
    ghost line = { λ asked. IsAsked };

    fn write_line(
        &self,
        object: &mut ObjectWriter,
        _slot: Slot,
        attendee: &Attendee,
    ) -> Result<(), AllocError> {
        object.named(
            "ATTENDEE;PARTSTAT=NEEDS-ACTION;RSVP=TRUE:",
            attendee.address.as_str(),
        )
    }
}

/// Writes the REQUEST of a meeting. Where the memory for it is refused, `out` is as it was. In time that grows with what is written.
pub fn write_request(meeting: &MeetingText<'_>, out: &mut Vec<u8>) -> Result<(), AllocError>
    ensures ok { OnOk result (Appends out.old.items out.new.items (IsRequestOf meeting.now)) }
    ensures err { OnErr result (out.new.items ≡ out.old.items) }
{
    write_meeting(Some("REQUEST"), meeting, &Asked, out)
}

/// Writes a meeting with this METHOD, or with none, and with such lines for its attendees: of several ATTENDEE lines of one address in a
/// component only the first. Where the memory for it is refused, `out` is as it was.
pub fn write_meeting<A: AttendeeLines>(
    method: Option<&str>,
    meeting: &MeetingText<'_>,
    lines: &A,
    out: &mut Vec<u8>,
) -> Result<(), AllocError>
    ensures ok { OnOk result (Appends out.old.items out.new.items (IsTextOf (option_map text_now method.entry) (A.line lines.now) meeting.now)) }
    ensures err { OnErr result (out.new.items ≡ out.old.items) }
{
    let alloc = *out.allocator();
    // the zones go first, and are known last
    let mut zones = Zones::new(alloc);
    let mut events = ObjectWriter::new(alloc);
    write_components(&mut events, &mut zones, meeting, lines)?;
    events.end_calendar()?;
    let mut object = ObjectWriter::new(alloc);
    object.begin_calendar(method)?;
    zones.write(&mut object)?;
    let first = object.finish();
    let last = events.finish();
    append_both(out, first.as_slice(), last.as_slice())?;
    Ok(())
}

/// Appends both, one after the other. Where the memory for both is refused, `out` is as it was.
fn append_both(out: &mut Vec<u8>, first: &[u8], last: &[u8]) -> Result<(), AllocError>
    ensures ok { OnOk result (out.new.items ≡ out.old.items ++ (first.now ++ last.now)) }
    ensures err { OnErr result (out.new.items ≡ out.old.items) }
{
    let kept = out.len();
    out.extend_from_slice(first)?;
    if out.extend_from_slice(last).is_err() {
        out.truncate(kept);
        return Err(AllocError);
    }
    Ok(())
}

/// The VEVENTs of a meeting, in their order. On an error some of their lines may have been written.
fn write_components<A: AttendeeLines>(
    object: &mut ObjectWriter,
    zones: &mut Zones,
    meeting: &MeetingText<'_>,
    lines: &A,
) -> Result<(), AllocError>
    ensures { OnOk result (WritesComponents (A.line lines.now) meeting.now meeting.now.components.now zones.old zones.new object.old object.new) }
{
    for component in meeting.components {
        write_component(object, zones, meeting, component, lines)?;
    }
    Ok(())
}

/// The VEVENT of one component.
fn write_component<A: AttendeeLines>(
    object: &mut ObjectWriter,
    zones: &mut Zones,
    meeting: &MeetingText<'_>,
    component: &MessageComponent,
    lines: &A,
) -> Result<(), AllocError>
    ensures { OnOk result (WritesComponent (A.line lines.now) meeting.now component.now zones.old zones.new object.old object.new) }
{
    object.line("BEGIN:VEVENT")?;
    object.uid(meeting.uid)?;
    write_slot(object, component.slot)?;
    write_revision(object, meeting.revision)?;
    write_body(object, zones, component.canonical.as_slice())?;
    write_status(object, component.cancelled)?;
    object.summary(&component.summary)?;
    object.named("ORGANIZER:", meeting.organiser.as_str())?;
    write_attendees(object, component, lines)?;
    object.line("END:VEVENT")?;
    Ok(())
}

/// The lines of its attendees, of several of one address only the first.
fn write_attendees<A: AttendeeLines>(
    object: &mut ObjectWriter,
    component: &MessageComponent,
    lines: &A,
) -> Result<(), AllocError>
    ensures { OnOk result (WritesLines object.old object.new (AllZip (A.line lines.now (slot_of component.now.slot)) (counted component.now.attendees))) }
{
    for attendee in component.attendees.counted(object.alloc())? {
        lines.write_line(object, component.slot, attendee)?;
    }
    Ok(())
}
