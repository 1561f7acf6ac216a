//! Refreshes of a room (RFC 5546 3.2.6): it asks for a meeting of which it has only instances.
ghost use Rattle.std.specs.Prelude.{◌≡◌, OnOk, OnErr};
ghost use Rattle.ical_values.specs.Written.{Appends};
ghost use Rattle.itip_messages.specs.Reply.{WritesLines};
ghost use Rattle.itip_messages.specs.Refresh.{IsRefreshText, IsRefreshLines};

use crate::writer::ObjectWriter;
use ical_values::{Address, Stamp, Text};
use std::alloc::AllocError;

/// What a REFRESH says.
#[derive(Clone, Copy)]
pub struct Refresh<'a> {
    /// The meeting that is asked for, by its UID and its organiser.
    pub uid: &'a Text,
    pub organiser: &'a Address,
    /// The room that asks.
    pub room: &'a Address,
    /// The moment at which it asks, written as DTSTAMP.
    pub moment: Stamp,
}

/// Writes a REFRESH. Where the memory for it is refused, `out` is as it was.
pub fn write_refresh(refresh: &Refresh<'_>, out: &mut Vec<u8>) -> Result<(), AllocError>
    ensures ok { OnOk result (Appends out.old.items out.new.items (IsRefreshText refresh.now)) }
    ensures err { OnErr result (out.new.items ≡ out.old.items) }
{
    let mut object = ObjectWriter::new(*out.allocator());
    object.begin_calendar(Some("REFRESH"))?;
    write_event(&mut object, refresh)?;
    object.end_calendar()?;
    let octets = object.finish();
    out.extend_from_slice(octets.as_slice())?;
    Ok(())
}

/// Its one VEVENT. On an error some of its lines may have been written.
fn write_event(object: &mut ObjectWriter, refresh: &Refresh<'_>) -> Result<(), AllocError>
    ensures { OnOk result (WritesLines object.old object.new (IsRefreshLines refresh.now)) }
{
    object.line("BEGIN:VEVENT")?;
    object.uid(refresh.uid)?;
    object.stamp("DTSTAMP:", refresh.moment)?;
    object.named("ORGANIZER:", refresh.organiser.as_str())?;
    object.named("ATTENDEE:", refresh.room.as_str())?;
    object.line("END:VEVENT")?;
    Ok(())
}
