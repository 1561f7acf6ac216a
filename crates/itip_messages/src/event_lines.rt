//! Lines of the VEVENTs that a room keeps and an organiser writes (RFC 5545 3.8).
ghost use Rattle.std.specs.Prelude.{◌≡◌, ◌++◌, OnOk, OnErr};
ghost use Rattle.profile.specs.text.Lines.{written};
ghost use Rattle.profile.specs.rooms.Revisions.{At};
ghost use Rattle.profile.specs.organisers.Sent.{TellsRevision, status_lines};
ghost use Rattle.itip_order.specs.Parts.{revision_of, slot_of};
ghost use Rattle.itip_messages.specs.BodyText.{WritesSlot};
ghost use Rattle.itip_messages.specs.Reply.{WritesLines};

use crate::writer::ObjectWriter;
use ical_values::Stamp;
use itip_order::{Revision, Slot};
use std::alloc::AllocError;

/// RECURRENCE-ID, for one instance (RFC 5545 3.8.4.4). One at an instant that no stamp can write has none. Where the memory for it is
/// refused, `object` is as it was.
pub fn write_slot(object: &mut ObjectWriter, slot: Slot) -> Result<(), AllocError>
    ensures ok { OnOk result (WritesSlot (slot_of slot) object.old object.new) }
    ensures err { OnErr result (object.new ≡ object.old) }
{
    match slot {
        Slot::Whole => Ok(()),
        Slot::At(instant) => write_instance(object, instant),
    }
}

fn write_instance(object: &mut ObjectWriter, instant: i64) -> Result<(), AllocError>
    ensures ok { OnOk result (WritesSlot (At instant) object.old object.new) }
    ensures err { OnErr result (object.new ≡ object.old) }
{
    let Some(stamp) = Stamp::of_instant(instant) else {
        return Ok(());
    };
    object.stamp("RECURRENCE-ID:", stamp)
}

/// SEQUENCE and DTSTAMP. On an error one of them may have been written.
pub(crate) fn write_revision(
    object: &mut ObjectWriter,
    revision: Revision,
) -> Result<(), AllocError>
    ensures { OnOk result (WritesLines object.old object.new (TellsRevision (revision_of revision))) }
{
    object.sequence(revision.sequence)?;
    object.stamp("DTSTAMP:", revision.stamp)
}

/// STATUS, where something is cancelled (RFC 5545 3.8.1.11).
pub(crate) fn write_status(object: &mut ObjectWriter, cancelled: bool) -> Result<(), AllocError>
    ensures { OnOk result (object.new ≡ object.old ++ written (status_lines cancelled)) }
{
    if cancelled {
        object.line("STATUS:CANCELLED")
    } else {
        Ok(())
    }
}
