//! What one VEVENT of a message says (RFC 5545 3.6.1, RFC 5546 3.2).
ghost use Rattle.std.specs.Prelude.{◌≡◌, ◌==◌, true, length, List, IfOk, IsSome};
ghost use Rattle.std.specs.Option.{ForSome};
ghost use Rattle.ical_values.specs.Octets.{address_octets};
ghost use Rattle.profile.specs.events.EventComponents as events;
ghost use Rattle.profile.specs.events.EventComponents.{AreOfWritten};
ghost use Rattle.profile.specs.events.Messages.{is_to_rooms};
ghost use Rattle.profile.specs.rooms.Messages.{own_revision};
ghost use Rattle.cal_events.specs.Component.{component_of, method_said};
ghost use Rattle.cal_events.specs.InRoom.{AreInstancesIn, AreInstancesOf};
ghost use Rattle.cal_events.specs.Said.{IsWritten};
ghost use Rattle.cal_events.specs.declared.component.EventComponent.{EventComponent};
ghost use Rattle.cal_events.specs.declared.instance.Single.{Single};
ghost use Rattle.cal_zones.specs.RoomZones.{room_of};
ghost use Rattle.itip_order.specs.Parts.{slot_of, revision_of};
ghost use Rattle.itip_messages.specs.Body.{IsReady};
ghost use Rattle.itip_messages.specs.MessageEvents.{HaveInstances, IsDated, IsDatedEach, event_slot, unattended};

use crate::attendees::Attendees;
use crate::body::canonical_body;
use cal_events::{Attendee, EventComponent, Method, Series, Single, Time};
use cal_zones::RoomZone;
use ical_values::{Address, Text};
use itip_order::{Revision, Slot};
use std::alloc::{AllocError, Global};

/// What one VEVENT of a message says. It is made where a message is read, and nowhere else.
#[derive(Drop)]
pub struct MessageComponent {
    /// In UTC, as an organiser has it, whose meetings name their instances by fixed times.
    pub(crate) slot: Slot,
    /// RECURRENCE-ID as it is written, in an ADD the start.
    pub(crate) recurrence: Option<Time>,
    pub(crate) revision: Revision,
    pub(crate) cancelled: bool,
    pub(crate) canonical: Vec<u8>,
    pub(crate) summary: Text,
    pub(crate) attendees: Attendees,
    /// Where all its times are fixed, its instances in each room: they are made once.
    pub(crate) singles: Vec<Single>,
    pub(crate) series: Option<Series>,
    /// Else the event, without SUMMARY and who attends: each room has instances of its own.
    pub(crate) by_room: Option<EventComponent>,
    ghost written: { ForSome by_room (λ event. ∥ IsWritten (component_of event) ∥₁) },
}

/// The instances of a VEVENT, or what makes them for a room.
#[derive(Drop)]
struct Occurring {
    singles: Vec<Single>,
    series: Option<Series>,
    by_room: Option<EventComponent>,
    ghost written: { ForSome by_room (λ event. ∥ IsWritten (component_of event) ∥₁) },
}

/// A VEVENT without its SUMMARY and its ATTENDEE lines, and these.
#[derive(Drop)]
struct Parted {
    event: EventComponent,
    summary: Text,
    attendees: Vec<Attendee>,
}

impl MessageComponent {
    ghost use Rattle.itip_messages.specs.Components.{HasInstances, IsComponentSlot, SaysComponent, component_names};

    /// What a VEVENT of a message of this method says. It fails only when out of memory.
    pub(crate) fn of(
        alloc: Global,
        method: Method,
        event: EventComponent,
    ) -> Result<MessageComponent, AllocError>
        requires stamp { IsSome event.stamp }
        requires dated { IsDated (event_slot event) }
        requires dated_each { IsDatedEach (component_of event) }
        requires ready { IsReady (component_of event) }
        requires written { ∥ IsWritten (component_of event) ∥₁ }
        requires instants { AreOfWritten (component_of event).written (component_of event).recurrence (component_of event).additions (component_of event).exceptions }
        ensures says { IfOk result (SaysComponent (component_of event)) }
        ensures instances { IfOk result (λ component. is_to_rooms (method_said method) ≡ true → HasInstances (component_of event) component) }
    {
        let canonical = canonical_body(alloc, &event)?;
        let slot = slot_in(&event);
        let recurrence = event.written.recurrence;
        let revision = own_revision(&event);
        let cancelled = event.cancelled;
        let Parted {
            event,
            summary,
            attendees,
        } = without_attendees(alloc, event)?;
        let attendees = Attendees::of(alloc, attendees)?;
        let Occurring {
            singles,
            series,
            by_room,
        } = instances_for(alloc, method, event)?;
        Ok(MessageComponent {
            slot,
            recurrence,
            revision,
            cancelled,
            canonical,
            summary,
            attendees,
            singles,
            series,
            by_room,
        })
    }

    /// A copy of what it says, without its instances, for which no organiser asks. It fails only when out of memory.
    pub fn without_instances(&self, alloc: Global) -> Result<MessageComponent, AllocError>
        ensures { IfOk result (λ copy. (event : events.EventComponent) → SaysComponent event self.now → SaysComponent event copy) }
    {
        let canonical = self.canonical.clone()?;
        let summary = self.summary.clone()?;
        let attendees = self.attendees.copy(alloc)?;
        Ok(MessageComponent {
            slot: self.slot,
            recurrence: self.recurrence,
            revision: self.revision,
            cancelled: self.cancelled,
            canonical,
            summary,
            attendees,
            singles: Vec::new(alloc),
            series: None,
            by_room: None,
        })
    }

    /// The instance that RECURRENCE-ID names, in an ADD that of its own start; else the whole meeting. In UTC, as an organiser has it.
    pub fn slot(&self) -> Slot
        ensures { result ≡ self.now.slot }
    {
        self.slot
    }

    /// The slot in a room of this zone, on whose clocks a time that isn't fixed is read.
    pub fn slot_in(&self, zone: &RoomZone) -> Slot
        ensures { IsComponentSlot (room_of zone.now) self.now (slot_of result) }
    {
        match self.recurrence {
            Some(time) => Slot::At(time.instant_in(zone)),
            None => Slot::Whole,
        }
    }

    /// Its own SEQUENCE and DTSTAMP.
    pub fn revision(&self) -> Revision
        ensures { result ≡ self.now.revision }
    {
        self.revision
    }

    /// Whether its STATUS is CANCELLED (RFC 5545 3.8.1.11).
    pub fn is_cancelled(&self) -> bool
        ensures { result ≡ self.now.cancelled }
    {
        self.cancelled
    }

    /// The body in its one form, and its VTIMEZONE after it: two bodies are the same where these octets are.
    pub fn canonical(&self) -> &[u8]
        ensures { result.now ≡ self.now.canonical.items }
    {
        self.canonical.as_slice()
    }

    /// SUMMARY, empty where it is missing.
    pub fn summary(&self) -> &Text
        ensures { result.now ≡ self.now.summary }
    {
        &self.summary
    }

    /// The ATTENDEE lines in the order of the text.
    pub fn attendees(&self) -> &Attendees
        ensures { result.now ≡ self.now.attendees }
    {
        &self.attendees
    }

    /// In a message to rooms its instances in a room of this zone, whichever of them other components are for: those that its RRULE doesn't give, by
    /// start, each once; and those that it gives, None where it has no RRULE, or is for one instance. It fails only when out of memory.
    pub fn instances_in(
        &self,
        alloc: Global,
        zone: &RoomZone,
    ) -> Result<(Vec<Single>, Option<Series>), AllocError>
        ensures { IfOk result (λ found. (event : events.EventComponent) → SaysComponent event self.now → HasInstances event self.now
            → AreInstancesIn (room_of zone.now) event found.0.items found.1) }
    {
        if let Some(event) = &self.by_room {
            return event.instances_in(alloc, zone);
        }
        let mut singles = Vec::new(alloc);
        singles.extend_from_slice(&self.singles)?;
        let series = copied(&self.series)?;
        Ok((singles, series))
    }

    /// Whether an ATTENDEE line has this address.
    pub fn names(&self, address: &Address) -> bool
        ensures { result ≡ component_names (address_octets address.now) self.now }
    {
        self.attendees.contains(address)
    }

    /// Whether it has no ATTENDEE line.
    pub fn names_nobody(&self) -> bool
        ensures { result ≡ (length self.now.attendees == 0) }
    {
        self.attendees.lines().is_empty()
    }
}

/// A series once more, if there is one: what it was made of is shared.
fn copied(series: &Option<Series>) -> Result<Option<Series>, AllocError>
    ensures { IfOk result (λ copy. (event : events.EventComponent) (own : List Single) → AreInstancesOf event own series.now → AreInstancesOf event own copy) }
{
    match series {
        Some(series) => Ok(Some(series.copy()?)),
        None => Ok(None),
    }
}

/// A VEVENT without its SUMMARY and its ATTENDEE lines, and these. It fails only when out of memory.
fn without_attendees(alloc: Global, event: EventComponent) -> Result<Parted, AllocError>
    ensures event { IfOk result (λ parted. component_of parted.event ≡ unattended (component_of event)) }
    ensures summary { IfOk result (λ parted. parted.summary ≡ event.summary) }
    ensures attendees { IfOk result (λ parted. parted.attendees ≡ event.attendees) }
{
    let empty = Text::of(alloc, "")?;
    let EventComponent {
        begun,
        uid,
        organiser,
        stamp,
        sequence,
        cancelled,
        recurrence,
        times,
        rule,
        additions,
        exceptions,
        written,
        summary,
        attendees,
    } = event;
    Ok(Parted {
        event: EventComponent {
            begun,
            uid,
            organiser,
            stamp,
            sequence,
            cancelled,
            recurrence,
            times,
            rule,
            additions,
            exceptions,
            written,
            summary: empty,
            attendees: Vec::new(alloc),
        },
        summary,
        attendees,
    })
}

/// The instances of a VEVENT, or what makes them for a room, where the message is one to rooms. It fails only when out of memory.
fn instances_for(
    alloc: Global,
    method: Method,
    event: EventComponent,
) -> Result<Occurring, AllocError>
    requires written { ∥ IsWritten (component_of event) ∥₁ }
    requires instants { AreOfWritten (component_of event).written (component_of event).recurrence (component_of event).additions (component_of event).exceptions }
    ensures { IfOk result (λ found. is_to_rooms (method_said method) ≡ true → (said : events.EventComponent) → component_of event ≡ unattended said
        → HaveInstances said found.singles.items found.series found.by_room) }
{
    if !method.is_to_rooms() {
        return Ok(Occurring {
            singles: Vec::new(alloc),
            series: None,
            by_room: None,
        });
    }
    if !event.is_all_fixed() {
        return Ok(Occurring {
            singles: Vec::new(alloc),
            series: None,
            by_room: Some(event),
        });
    }
    let singles = event.singles(alloc)?;
    let series = event.series(alloc)?;
    Ok(Occurring {
        singles,
        series,
        by_room: None,
    })
}

/// The slot of a VEVENT: the instance that it is for, else the whole meeting (RFC 5545 3.8.4.4).
pub(crate) fn slot_in(event: &EventComponent) -> Slot
    ensures { slot_of result ≡ event_slot event.now }
{
    match event.recurrence {
        Some(instant) => Slot::At(instant),
        None => Slot::Whole,
    }
}

/// SEQUENCE and DTSTAMP of a VEVENT.
pub(crate) fn own_revision(event: &EventComponent) -> Revision
    requires { IsSome event.now.stamp }
    ensures { revision_of result ≡ own_revision (component_of event.now) }
{
    let Some(stamp) = event.stamp else {
        unreachable!()
    };
    Revision {
        sequence: event.sequence,
        stamp,
    }
}
