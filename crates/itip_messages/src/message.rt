//! A message, read: to rooms, or to an organiser (RFC 5546 1.4, 3.2; RFC 4791 4.1, RFC 6638 3.2). METHOD says which; an object without METHOD
//! is a meeting that its organiser stores.
ghost use Rattle.ical_tree.specs.Own.{own_lines, own_numbered};
ghost use Rattle.std.specs.Prelude.{◌≡◌, ◌<◌, ℕ, true, List, Contains, Some, map, length, option_map, IfOk, IfErr, IsSome};
ghost use Rattle.std.specs.List.{AllZip};
ghost use Rattle.ical_lines.specs.Fault.{RefusesOnly, RefusesBy, RefusesWhere};
ghost use Rattle.ical_tree.specs.Tree.{component_lines, component_numbered, tree_of};
ghost use Rattle.ical_values.specs.Octets.{address_octets, text_octets};
ghost use Rattle.profile.specs.faults.Faults.{is_message_fault};
ghost use Rattle.profile.specs.events.Messages as profile;
ghost use Rattle.profile.specs.events.Messages.{MessageFault, SaysMessage, SpellsMessage, is_to_rooms, master_in};
ghost use Rattle.profile.specs.events.EventComponents.{AreOfWritten};
ghost use Rattle.profile.specs.rooms.Messages.{own_revision};
ghost use Rattle.cal_events.specs.Component.{component_of, method_said};
ghost use Rattle.cal_events.specs.Said.{IsWritten};
ghost use Rattle.cal_events.specs.declared.component.EventComponent.{EventComponent};
ghost use Rattle.itip_order.specs.Parts.{revision_of};
ghost use Rattle.itip_messages.specs.Body.{IsReady};
ghost use Rattle.itip_messages.specs.Components.{AreLinesRead, HasInstances, IsDated, IsDatedEach, SaysComponent, event_slot};

use crate::message_component::{MessageComponent, own_revision};
use crate::message_events::read_events;
use cal_events::{EventComponent, Method};
use ical_lines::{Fault, Limits, Unfolded};
use ical_tree::{Component, Object, Properties};
use ical_values::{Address, Text};
use itip_order::Revision;
use std::alloc::{AllocError, Global};

/// A message for VEVENT, as some octets spell it: all its components are of one meeting, the UID of one ORGANIZER.
#[derive(Drop)]
pub struct Message {
    method: Method,
    organiser: Address,
    uid: Text,
    /// SEQUENCE and DTSTAMP of the component for the whole meeting, if there is one.
    pub(crate) whole: Option<Revision>,
    components: Vec<MessageComponent>,
    pub ghost read: { ∥ AreLinesRead method organiser uid whole components.items ∥₁ },
}

impl Message {
    ghost use Rattle.itip_messages.specs.Blame.{MessageBlame, MessageTextBlame};
    ghost use Rattle.itip_messages.specs.Message.{IsMessageOf, IsSpelled, ReadFault, RepresentsMessage, SaysEvents};

    /// Reads a message.
    /// Refused: 1 to 6 and 20 to 25 for the object, 60 for a METHOD that isn't supported, or for two, 66 without a VEVENT, 10 to 16, 30 to 34, 40
    /// to 43, 50 to 52, 56, 57, 61, 63, 65 and 67 for a VEVENT, 62 for two meetings, 53 for two VEVENTs without RECURRENCE-ID, 54 for two of
    /// one instance, 64 for a VEVENT of a REPLY or a REFRESH without one attendee.
    pub fn read(alloc: Global, bytes: &[u8]) -> Result<Message, Fault>
        ensures spells { IfOk result (IsSpelled bytes.now) }
        ensures refuses { IfErr result (RefusesOnly is_message_fault) }
        ensures fault { IfErr result (ReadFault bytes.now) }
        ensures at { IfErr result (RefusesWhere (MessageTextBlame bytes.now)) }
    {
        let text = Unfolded::read(alloc, bytes, Limits::Message)?;
        let object = Object::read(alloc, &text, Limits::Message)?;
        Message::of_object(alloc, &object.calendar, &object.own)
    }

    /// The message that an object of these own lines is. Where it says one, some octets spell that.
    /// Refused: as by `read`, except for the object.
    fn of_object(alloc: Global, object: &Component, own: &Properties<'_>) -> Result<Message, Fault>
        requires own { own_lines own.now ≡ component_lines object.now }
        requires spelled { (said : profile.Message) → SaysMessage (tree_of object.now) said → (octets : List ℕ) × SpellsMessage octets said }
        ensures says { IfOk result (IsMessageOf (tree_of object.now)) }
        ensures refuses { IfErr result (RefusesOnly is_message_fault) }
        ensures fault { IfErr result (RefusesBy (MessageFault (tree_of object.now))) }
        ensures at { own_numbered own.now ≡ component_numbered object.now → IfErr result (RefusesWhere (MessageBlame object.now)) }
    {
        let (method, events) = read_events(alloc, object, own)?;
        Ok(Message::of(alloc, object, method, events)?)
    }

    /// The message of that method that an object says with these events. It fails only when out of memory.
    fn of(
        alloc: Global,
        object: &Component,
        method: Method,
        events: Vec<EventComponent>,
    ) -> Result<Message, AllocError>
        requires says { SaysEvents (tree_of object.now) (method_said method) (map component_of events.items) }
        requires spelled { (said : profile.Message) → SaysMessage (tree_of object.now) said → (octets : List ℕ) × SpellsMessage octets said }
        ensures { IfOk result (IsMessageOf (tree_of object.now)) }
    {
        let (organiser, uid) = name_of(&events)?;
        let whole = whole_revision(&events);
        let components = components_of(alloc, method, events)?;
        Ok(Message {
            method,
            organiser,
            uid,
            whole,
            components,
        })
    }

    /// What it asks for: by METHOD, or without one that a meeting be stored (RFC 5546 1.4, RFC 4791 4.1).
    pub fn method(&self) -> Method
        ensures { result ≡ self.now.method }
    {
        self.method
    }

    /// The ORGANIZER's address.
    pub fn organiser(&self) -> &Address
        ensures { result.now ≡ self.now.organiser }
    {
        &self.organiser
    }

    /// The UID that all its VEVENTs have, its escapes read (RFC 5545 3.8.4.7).
    pub fn uid(&self) -> &Text
        ensures { result.now ≡ self.now.uid }
    {
        &self.uid
    }

    /// The VEVENTs, in the order of the text.
    pub fn components(&self) -> &[MessageComponent]
        ensures { result.now ≡ self.now.components.items }
    {
        self.components.as_slice()
    }
}

/// SEQUENCE and DTSTAMP of the VEVENT for the whole meeting, if it is among these.
fn whole_revision(events: &[EventComponent]) -> Option<Revision>
    requires { (event : EventComponent) → Contains events.now event → IsSome event.stamp }
    ensures { option_map revision_of result ≡ option_map own_revision (master_in (map component_of events.now)) }
{
    for event in events {
        if event.recurrence.is_none() {
            return Some(own_revision(event));
        }
    }
    None
}

/// The ORGANIZER and the UID of the first of some VEVENTs. It fails only when out of memory.
fn name_of(events: &[EventComponent]) -> Result<(Address, Text), AllocError>
    requires some { 0 < length events.now }
    requires organised { (event : EventComponent) → Contains events.now event → IsSome event.organiser }
    ensures { IfOk result (λ name. (event : EventComponent) × Contains events.now event
        × ((component_of event).organiser ≡ Some (address_octets name.0)) × ((component_of event).uid ≡ text_octets name.1)) }
{
    let Some(first) = events.first() else {
        unreachable!()
    };
    let Some(organiser) = &first.organiser else {
        unreachable!()
    };
    let organiser = organiser.clone()?;
    let uid = first.uid.clone()?;
    Ok((organiser, uid))
}

/// What some VEVENTs of such a message say, in their order. It fails only when out of memory.
fn components_of(
    alloc: Global,
    method: Method,
    events: Vec<EventComponent>,
) -> Result<Vec<MessageComponent>, AllocError>
    requires stamped { (event : EventComponent) → Contains events.items event → IsSome event.stamp }
    requires dated { (event : EventComponent) → Contains events.items event → IsDated (event_slot event) }
    requires dated_each { (event : EventComponent) → Contains events.items event → IsDatedEach (component_of event) }
    requires ready { (event : EventComponent) → Contains events.items event → IsReady (component_of event) }
    requires written { (event : EventComponent) → Contains events.items event → ∥ IsWritten (component_of event) ∥₁ }
    requires instants { (event : EventComponent) → Contains events.items event
        → AreOfWritten (component_of event).written (component_of event).recurrence (component_of event).additions (component_of event).exceptions }
    ensures says { IfOk result (λ components. AllZip SaysComponent (map component_of events.items) components.items) }
    ensures instances { IfOk result (λ components. is_to_rooms (method_said method) ≡ true → AllZip HasInstances (map component_of events.items) components.items) }
{
    let mut components = Vec::new(alloc);
    for event in events {
        components.push(MessageComponent::of(alloc, method, event)?)?;
    }
    Ok(components)
}
