//! The objects that a store makes, and to whom they are sent (RFC 6638 3.2.1).

ghost use Rattle.std.specs.Prelude.{◌≡◌, ◌++◌, List, ℕ, true, false, map, IfOk, OnOk};
ghost use Rattle.ical_values.specs.Octets.{address_octets, text_octets};
ghost use Rattle.profile.specs.events.EventComponents.{EventComponent};
ghost use Rattle.profile.specs.organisers.Organisers as profile;
ghost use Rattle.profile.specs.organisers.Organisers.{Sends};
ghost use Rattle.profile.specs.organisers.Sent.{IsCancel};
ghost use Rattle.itip_order.specs.Parts.{revision_of};
ghost use Rattle.itip_messages.specs.MeetingText.{AreWritten, IsRequestOf};
ghost use Rattle.organiser_books.specs.Calls.{sent_of};
ghost use Rattle.organiser_books.specs.Storing.{calls_off, cancels_whole, sent_to, stored_of, SendsTo};

use crate::outgoing::Outgoing;
use ical_values::Address;
use itip_messages::{Cancel, MeetingText, MessageComponent, write_cancel, write_request};
use itip_order::Slot;
use std::alloc::{AllocError, Global};

/// What a store makes and sends.
#[derive(Drop)]
pub(crate) struct Sending {
    /// The octets that were made of the meeting, also where they are sent to nobody.
    pub object: Vec<u8>,
    pub sent: Vec<Outgoing>,
}

/// What is made of a meeting, which is called off or isn't, and sent to those whom the server sends messages, and to those who are gone.
pub(crate) fn send(
    alloc: Global,
    meeting: &MeetingText<'_>,
    called_off: bool,
    to: Vec<Address>,
    gone: Vec<Address>,
) -> Result<Sending, AllocError>
    ensures { IfOk result (λ sending. (events : List EventComponent) → AreWritten meeting.now events
        → SendsTo called_off (address_octets meeting.now.organiser.now) (stored_of meeting.now events sending.object.items)
        (map address_octets to.items) (map address_octets gone.items) (map sent_of sending.sent.items)) }
{
    if called_off {
        return call_off(alloc, meeting, to, gone);
    }
    request(alloc, meeting, to, gone)
}

/// One CANCEL goes to all.
fn call_off(
    alloc: Global,
    meeting: &MeetingText<'_>,
    to: Vec<Address>,
    gone: Vec<Address>,
) -> Result<Sending, AllocError>
    ensures { IfOk result (λ sending. (events : List EventComponent)
        → SendsTo true (address_octets meeting.now.organiser.now) (stored_of meeting.now events sending.object.items)
        (map address_octets to.items) (map address_octets gone.items) (map sent_of sending.sent.items)) }
{
    let mut all = to;
    let mut gone = gone;
    all.append(&mut gone)?;
    let object = cancel_of(alloc, meeting, true, &all)?;
    let mut sent = Vec::new(alloc);
    push_sent(&mut sent, all, object.clone()?)?;
    Ok(Sending { object, sent })
}

/// The REQUEST goes to those of the meeting, and a CANCEL after it to those who are gone.
fn request(
    alloc: Global,
    meeting: &MeetingText<'_>,
    to: Vec<Address>,
    gone: Vec<Address>,
) -> Result<Sending, AllocError>
    ensures { IfOk result (λ sending. (events : List EventComponent) → AreWritten meeting.now events
        → SendsTo false (address_octets meeting.now.organiser.now) (stored_of meeting.now events sending.object.items)
        (map address_octets to.items) (map address_octets gone.items) (map sent_of sending.sent.items)) }
{
    let object = request_of(alloc, meeting)?;
    let mut sent = Vec::new(alloc);
    push_sent(&mut sent, to, object.clone()?)?;
    take_out(alloc, meeting, gone, &mut sent)?;
    Ok(Sending { object, sent })
}

/// A CANCEL goes to those who are gone, where there are some.
fn take_out(
    alloc: Global,
    meeting: &MeetingText<'_>,
    gone: Vec<Address>,
    sent: &mut Vec<Outgoing>,
) -> Result<(), AllocError>
    ensures { OnOk result ((cancels : List profile.Sent)
        × Sends (IsCancel (address_octets meeting.now.organiser.now) (text_octets meeting.now.uid.now) (revision_of meeting.now.revision) false (map address_octets gone.items)) (map address_octets gone.items) cancels
        × (map sent_of sent.new.items ≡ map sent_of sent.old.items ++ cancels)) }
{
    if gone.is_empty() {
        return Ok(());
    }
    let cancel = cancel_of(alloc, meeting, false, &gone)?;
    push_sent(sent, gone, cancel)?;
    Ok(())
}

/// Whether the whole meeting is cancelled.
pub(crate) fn calls_off(components: &[MessageComponent]) -> bool
    ensures { result ≡ calls_off components.now }
{
    components.iter().any(|component| cancels_whole(component))
}

fn cancels_whole(component: &MessageComponent) -> bool
    ensures { result ≡ cancels_whole component.now }
{
    matches!(component.slot(), Slot::Whole) && component.is_cancelled()
}

/// The REQUEST of a meeting.
fn request_of(alloc: Global, meeting: &MeetingText<'_>) -> Result<Vec<u8>, AllocError>
    ensures { IfOk result (λ octets. IsRequestOf meeting.now octets.items) }
{
    let mut octets = Vec::new(alloc);
    write_request(meeting, &mut octets)?;
    Ok(octets)
}

/// The CANCEL of a meeting to these.
fn cancel_of(
    alloc: Global,
    meeting: &MeetingText<'_>,
    called_off: bool,
    to: &[Address],
) -> Result<Vec<u8>, AllocError>
    ensures { IfOk result (λ octets. IsCancel (address_octets meeting.now.organiser.now) (text_octets meeting.now.uid.now) (revision_of meeting.now.revision)
        called_off (map address_octets to.now) octets.items) }
{
    let cancel = Cancel {
        uid: meeting.uid,
        organiser: meeting.organiser,
        revision: meeting.revision,
        called_off,
        to,
    };
    let mut octets = Vec::new(alloc);
    write_cancel(&cancel, &mut octets)?;
    Ok(octets)
}

/// Sends an object to these; nothing where there is nobody.
fn push_sent(sent: &mut Vec<Outgoing>, to: Vec<Address>, octets: Vec<u8>) -> Result<(), AllocError>
    ensures { OnOk result (map sent_of sent.new.items ≡ map sent_of sent.old.items ++ sent_to (map address_octets to.items) octets.items) }
{
    if to.is_empty() {
        return Ok(());
    }
    sent.push(Outgoing { to, octets })?;
    Ok(())
}
