//! What an organiser sends to those whom it takes out of a meeting, and to all where it calls the meeting off: a CANCEL (RFC 5546 3.2.5).
ghost use Rattle.std.specs.Prelude.{◌≡◌, ◌++◌, map, OnOk, OnErr};
ghost use Rattle.profile.specs.text.Lines.{written};
ghost use Rattle.ical_values.specs.Octets.{address_octets};
ghost use Rattle.ical_values.specs.Written.{Appends};
ghost use Rattle.itip_messages.specs.Reply.{WritesLines};
ghost use Rattle.itip_messages.specs.MeetingText.{IsCancelEvent, IsCancelOf, attendee_lines};

use crate::event_lines::{write_revision, write_status};
use crate::writer::ObjectWriter;
use ical_values::{Address, Text};
use itip_order::Revision;
use std::alloc::AllocError;

/// What a CANCEL of a whole meeting says.
#[derive(Clone, Copy)]
pub struct Cancel<'a> {
    /// The meeting, by its UID and its organiser.
    pub uid: &'a Text,
    pub organiser: &'a Address,
    /// SEQUENCE and DTSTAMP.
    pub revision: Revision,
    /// Whether the meeting is called off, and not only these taken out of it: STATUS says so.
    pub called_off: bool,
    /// To whom it goes.
    pub to: &'a [Address],
}

/// Writes a CANCEL. Where the memory for it is refused, `out` is as it was.
pub fn write_cancel(cancel: &Cancel<'_>, out: &mut Vec<u8>) -> Result<(), AllocError>
    ensures ok { OnOk result (Appends out.old.items out.new.items (IsCancelOf cancel.now)) }
    ensures err { OnErr result (out.new.items ≡ out.old.items) }
{
    let mut object = ObjectWriter::new(*out.allocator());
    object.begin_calendar(Some("CANCEL"))?;
    write_event(&mut object, cancel)?;
    object.end_calendar()?;
    let octets = object.finish();
    out.extend_from_slice(octets.as_slice())?;
    Ok(())
}

/// Its one VEVENT. On an error some of its lines may have been written.
fn write_event(object: &mut ObjectWriter, cancel: &Cancel<'_>) -> Result<(), AllocError>
    ensures { OnOk result (WritesLines object.old object.new (IsCancelEvent cancel.now)) }
{
    object.line("BEGIN:VEVENT")?;
    object.uid(cancel.uid)?;
    write_revision(object, cancel.revision)?;
    write_status(object, cancel.called_off)?;
    object.named("ORGANIZER:", cancel.organiser.as_str())?;
    write_attendees(object, cancel.to)?;
    object.line("END:VEVENT")?;
    Ok(())
}

/// A line for each of these addresses. On an error some of them may have been written.
fn write_attendees(object: &mut ObjectWriter, addresses: &[Address]) -> Result<(), AllocError>
    ensures { OnOk result (object.new ≡ object.old ++ written (attendee_lines (map address_octets addresses.now))) }
{
    for address in addresses {
        object.named("ATTENDEE:", address.as_str())?;
    }
    Ok(())
}
