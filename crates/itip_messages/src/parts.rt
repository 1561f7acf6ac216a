//! The parts of a message for one room: a part for each VEVENT of a REQUEST or an ADD that names the room anywhere, and for each of a
//! CANCEL that names it or nobody; of two with one slot in the room's zone the greater.
ghost use Rattle.std.specs.Prelude.{◌≡◌, [], map, option_map, filter, IfOk, List};
ghost use Rattle.std.specs.List.{AllZip, list_any};
ghost use Rattle.ical_values.specs.Octets.{address_octets};
ghost use Rattle.cal_zones.specs.RoomZones.{room_of};
ghost use Rattle.itip_order.specs.Parts.{part_of, parts_of, revision_of, slot_of};
ghost use Rattle.profile.specs.events.Messages as profile;
ghost use Rattle.profile.specs.rooms.Messages.{AreParts, later_of, raised_to};
ghost use Rattle.itip_messages.specs.Message.{IsPartFor, RepresentsMessage, cancels_component, has_part, is_component_for, is_message_for, part_for};

use crate::message::Message;
use crate::message_component::MessageComponent;
use cal_events::Method;
use cal_zones::RoomZone;
use ical_values::Address;
use itip_order::{Body, Part, Revision, Slot, greatest_by_slot};
use std::alloc::{AllocError, Global};

impl Message {
    /// The parts that the message has for a room of this zone, the whole meeting first and then its instances; none where it isn't addressed to it.
    /// A component that is cancelled has a Cancelled body. Another one that doesn't name the room has an Absent body:
    /// for this room it isn't on. Of two that have one slot there the greater is the part, by revision and then by body.
    pub fn parts(
        &self,
        alloc: Global,
        room: &Address,
        zone: &RoomZone,
    ) -> Result<Vec<Part>, AllocError>
        ensures { IfOk result (λ parts. (said : profile.Message) → RepresentsMessage self.now said
            → AreParts (address_octets room.now) (room_of zone.now) said (parts_of parts.items)) }
    {
        if !self.is_addressed_to(room) {
            return Ok(Vec::new(alloc));
        }
        let all = self.all_parts(alloc, room, zone)?;
        let kept = greatest_by_slot(alloc, all)?;
        firsts(alloc, kept)
    }

    /// A part for each component that is one for the room, with nothing beside it.
    fn all_parts(
        &self,
        alloc: Global,
        room: &Address,
        zone: &RoomZone,
    ) -> Result<Vec<(Part, ())>, AllocError>
        ensures { IfOk result (λ all. AllZip (λ component one. IsPartFor (address_octets room.now) (room_of zone.now) self.now component (part_of one.0))
            (filter (has_part (address_octets room.now) self.now) self.now.components.items) all.items) }
    {
        let mut all = Vec::new(alloc);
        for component in self.components() {
            if self.has_part(component, room) {
                all.push((self.part(component, room, zone)?, ()))?;
            }
        }
        Ok(all)
    }

    /// Whether a component is a part for a room, if the message is addressed to it: of a REQUEST or an ADD each is; of a CANCEL
    /// one that names it or nobody.
    pub fn has_part(&self, component: &MessageComponent, room: &Address) -> bool
        ensures { result ≡ has_part (address_octets room.now) self.now component.now }
    {
        match self.method() {
            Method::Cancel => component.names(room) || component.names_nobody(),
            _ => true,
        }
    }

    /// The part that a component of the message is for a room of this zone.
    pub fn part(
        &self,
        component: &MessageComponent,
        room: &Address,
        zone: &RoomZone,
    ) -> Result<Part, AllocError>
        ensures { IfOk result (λ part. IsPartFor (address_octets room.now) (room_of zone.now) self.now component.now (part_of part)) }
    {
        self.part_at(component, room, component.slot_in(zone))
    }

    /// The part that a component of the message is for a room, where this is its slot there.
    fn part_at(
        &self,
        component: &MessageComponent,
        room: &Address,
        slot: Slot,
    ) -> Result<Part, AllocError>
        ensures { IfOk result (λ part. part_of part ≡ part_for (address_octets room.now) self.now component.now (slot_of slot)) }
    {
        let body = if self.cancels(component) {
            Body::Cancelled
        } else if component.names(room) {
            Body::Set(component.canonical.clone()?)
        } else {
            Body::Absent
        };
        Ok(Part {
            organiser: self.organiser().clone()?,
            uid: self.uid().clone()?,
            slot,
            revision: raised(self.whole, component.revision),
            body,
        })
    }

    /// Whether the message cancels what a component says: by METHOD, or by STATUS.
    fn cancels(&self, component: &MessageComponent) -> bool
        ensures { result ≡ cancels_component self.now component.now }
    {
        self.method().is_cancel() || component.cancelled
    }

    /// Whether it is one to rooms, and any of the components names the room as ATTENDEE; of a CANCEL also where one names nobody.
    pub fn is_addressed_to(&self, room: &Address) -> bool
        ensures { result ≡ is_message_for (address_octets room.now) self.now }
    {
        self.method().is_to_rooms() && self.names(room)
    }

    /// Whether any component addresses the message to a room.
    fn names(&self, room: &Address) -> bool
        ensures { result ≡ list_any (is_component_for (address_octets room.now) self.now) self.now.components.items }
    {
        self.components()
            .iter()
            .any(|component| self.is_for(component, room))
    }

    /// Whether a component addresses the message to a room.
    fn is_for(&self, component: &MessageComponent, room: &Address) -> bool
        ensures { result ≡ is_component_for (address_octets room.now) self.now component.now }
    {
        component.names(room) || (self.method().is_cancel() && component.names_nobody())
    }
}

/// The parts, without what is beside each. It fails only when out of memory.
fn firsts(alloc: Global, kept: Vec<(Part, ())>) -> Result<Vec<Part>, AllocError>
    ensures { IfOk result (λ parts. parts_of parts.items ≡ map (λ one. part_of one.0) kept.items) }
{
    let mut parts = Vec::new(alloc);
    for (part, _) in kept {
        parts.push(part)?;
    }
    Ok(parts)
}

/// A revision, or that of the whole meeting, if that is later.
fn raised(whole: Option<Revision>, own: Revision) -> Revision
    ensures { revision_of result ≡ raised_to (option_map revision_of whole) (revision_of own) }
{
    match whole {
        Some(whole) => later(own, whole),
        None => own,
    }
}

/// The later of two revisions.
fn later(a: Revision, b: Revision) -> Revision
    ensures { revision_of result ≡ later_of (revision_of a) (revision_of b) }
{
    if a.cmp(&b).is_lt() {
        return b;
    }
    a
}
