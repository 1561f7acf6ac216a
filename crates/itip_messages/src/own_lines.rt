//! The own content lines of a VEVENT of a message, for those who ask (RFC 5545 3.1, 3.6.1): a message that was read keeps none of them.
ghost use Rattle.std.specs.Prelude.{◌≡◌, ◌≢◌, ℕ, Some, length, map, option_map, position, slice_get, string_bytes, IfOk, IfErr, MatchOption};
ghost use Rattle.std.specs.Ordering.{is_eq};
ghost use Rattle.ical_lines.specs.Fault.{RefusesOnly};
ghost use Rattle.ical_tree.specs.Tree.{component_lines};
ghost use Rattle.profile.specs.faults.Faults.{is_message_fault};
ghost use Rattle.profile.specs.rooms.Revisions.{slot_cmp};
ghost use Rattle.cal_events.specs.Component.{vevents_of};
ghost use Rattle.itip_order.specs.Parts.{slot_of};
ghost use Rattle.itip_messages.specs.OwnLines.{FindsLines};
ghost use Rattle.itip_messages.specs.Message.{ReadFault, event_slot};

use crate::message_component::slot_in;
use crate::message_events::read_events;
use cal_events::EventComponent;
use ical_lines::{Fault, Limits, Unfolded};
use ical_tree::{Component, Object};
use itip_order::Slot;
use std::alloc::{AllocError, Global};

/// The own content lines of the VEVENT of a message that is of a slot, unfolded, in the order of the text; None where no VEVENT is of it. In an
/// ADD each is of the slot of its own start, in other messages of that which its RECURRENCE-ID names, else of the whole meeting.
/// Refused: as by `Message::read`.
pub fn component_lines(
    alloc: Global,
    octets: &[u8],
    slot: Slot,
) -> Result<Option<Vec<String>>, Fault>
    ensures finds { IfOk result (λ found. FindsLines octets.now (slot_of slot) (option_map (λ lines. map string_bytes lines.items) found)) }
    ensures refuses { IfErr result (RefusesOnly is_message_fault) }
    ensures fault { IfErr result (ReadFault octets.now) }
{
    let text = Unfolded::read(alloc, octets, Limits::Message)?;
    let object = Object::read(alloc, &text, Limits::Message)?;
    let (_, events) = read_events(alloc, &object.calendar, &object.own)?;
    Ok(lines_of_slot(alloc, &object.calendar, &events, slot)?)
}

/// The own lines of the VEVENT that is of a slot, where the VEVENTs say these events. It fails only when out of memory.
fn lines_of_slot(
    alloc: Global,
    object: &Component,
    events: &[EventComponent],
    slot: Slot,
) -> Result<Option<Vec<String>>, AllocError>
    requires { length events.now ≡ length (vevents_of object.now) }
    ensures { IfOk result (λ found. MatchOption found ((place : ℕ) → slice_get (map event_slot events.now) place ≢ Some (slot_of slot))
        (λ lines. (place : ℕ) × (slice_get (map event_slot events.now) place ≡ Some (slot_of slot)) × (slice_get (vevents_of object.now) place ≡ Some (map string_bytes lines.items)))) }
{
    let Some(place) = place_of(events, slot) else {
        return Ok(None);
    };
    let vevents = vevents_of(alloc, object)?;
    let lines = lines_of(alloc, vevents[place])?;
    Ok(Some(lines))
}

/// Which of some events is the first of a slot.
fn place_of(events: &[EventComponent], slot: Slot) -> Option<usize>
    ensures { result ≡ position (λ event. is_eq (slot_cmp (event_slot event) (slot_of slot))) events.now }
{
    events.iter().position(|event| is_of(event, slot))
}

fn is_of(event: &EventComponent, slot: Slot) -> bool
    ensures { result ≡ is_eq (slot_cmp (event_slot event.now) (slot_of slot)) }
{
    slot_in(event).cmp(&slot).is_eq()
}

/// The VEVENTs of an object, in the order of the text. It fails only when out of memory.
fn vevents_of<'a, 'b>(
    alloc: Global,
    object: &'a Component<'b>,
) -> Result<Vec<&'a Component<'b>>, AllocError>
    ensures { IfOk result (λ vevents. map (λ vevent. component_lines vevent.now) vevents.items ≡ vevents_of object.now) }
{
    let mut vevents = Vec::new(alloc);
    for child in object.children() {
        if child.is_named("VEVENT") {
            vevents.push(child)?;
        }
    }
    Ok(vevents)
}

/// Copies of a component's own lines, in order. It fails only when out of memory.
fn lines_of(alloc: Global, component: &Component) -> Result<Vec<String>, AllocError>
    ensures { IfOk result (λ lines. map string_bytes lines.items ≡ component_lines component.now) }
{
    let mut lines = Vec::new(alloc);
    for line in component.lines() {
        lines.push(String::from_str(alloc, line.text())?)?;
    }
    Ok(lines)
}
