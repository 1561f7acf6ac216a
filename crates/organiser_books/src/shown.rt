//! How the attendees of a meeting are shown: with what they answered, and whether they were sent a message (RFC 6638 3.2.9, 7.3).

ghost use Rattle.std.specs.Prelude.{◌≡◌, ◌++◌, codes, string_bytes, IfOk};
ghost use Rattle.profile.specs.organisers.Organisers.{participation_word, sent_status};
ghost use Rattle.cal_events.specs.Component.{participation_of};
ghost use Rattle.organiser_books.specs.Shown.{ShowsAttendee};

use crate::meeting::StoredMeeting;
use cal_events::{Attendee, PartStat};
use itip_messages::{AttendeeLines, ObjectWriter};
use itip_order::Slot;
use std::alloc::{AllocError, Global};

/// A meeting that its organiser shows.
#[derive(Clone, Copy)]
pub(crate) struct Shown<'a> {
    pub meeting: &'a StoredMeeting,
}

impl AttendeeLines for Shown<'_> {
    ghost line = { ShowsAttendee };

    fn write_line(
        &self,
        object: &mut ObjectWriter,
        slot: Slot,
        attendee: &Attendee,
    ) -> Result<(), AllocError> {
        let status = self.meeting.answered(slot, &attendee.address);
        let sent = self.meeting.is_told(&attendee.address);
        let name = named(object.alloc(), status, sent)?;
        object.named(name.as_str(), attendee.address.as_str())
    }
}

/// The name of the line, with its parameters and colon.
fn named(alloc: Global, status: PartStat, sent: bool) -> Result<String, AllocError>
    ensures { IfOk result (λ name. string_bytes name ≡ codes "ATTENDEE;PARTSTAT=" ++ participation_word (participation_of status) ++ sent_status sent ++ codes ":") }
{
    let word = word_of(status);
    let status = status_of(sent);
    Ok(format!(in alloc; "ATTENDEE;PARTSTAT={word}{status}:")?)
}

/// The word of PARTSTAT (RFC 5545 3.2.12).
fn word_of(status: PartStat) -> &'static str
    ensures { result.now ≡ participation_word (participation_of status) }
{
    match status {
        PartStat::NeedsAction => "NEEDS-ACTION",
        PartStat::Tentative => "TENTATIVE",
        PartStat::Accepted => "ACCEPTED",
        PartStat::Delegated => "DELEGATED",
        PartStat::Declined => "DECLINED",
    }
}

/// SCHEDULE-STATUS, where it was sent a message (RFC 6638 7.3).
fn status_of(sent: bool) -> &'static str
    ensures { result.now ≡ sent_status sent }
{
    if sent { ";SCHEDULE-STATUS=1.1" } else { "" }
}
