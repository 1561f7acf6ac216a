//! A calendar read from its octets (RFC 5545 3.4), for one room: open limits, METHOD ignored.
ghost use Rattle.ical_tree.specs.Own.{own_lines, own_numbered};
ghost use Rattle.std.specs.Prelude.{ℕ, List, ◌≡◌, ◌⊎◌, [], map, Contains, IfOk, IfErr};
ghost use Rattle.std.specs.List.{AllZip};
ghost use Rattle.ical_lines.specs.Fault.{RefusesOnly, RefusesBy, RefusesAt, RefusesWhere};
ghost use Rattle.ical_values.specs.Octets.{address_octets};
ghost use Rattle.profile.specs.faults.Faults.{is_calendar_fault, is_meeting_event_fault};
ghost use Rattle.profile.specs.checker.Instances.{Instance};
ghost use Rattle.profile.specs.checker.Calendars.{SaysCalendar, SpellsCalendar, IsConfirmedIn, CalendarFault, CalendarTextFault};
ghost use Rattle.profile.specs.events.EventComponents.{EventComponentFault, SaysEventComponent};
ghost use Rattle.profile.specs.events.Placed.{SaysPlaced};
ghost use Rattle.profile.specs.series.RoomZones.{NamesRoomZone, RoomZoneFault};
ghost use Rattle.profile.specs.events.Spans.{AreSaidSeries};
ghost use Rattle.profile.specs.events.Confirmed.{Confirmed, IsConfirmed, IsInSeries, AreConfirmed};
ghost use Rattle.profile.specs.text.Trees.{Tree};
ghost use Rattle.ical_tree.specs.Tree.{component_begun, component_lines, events_in, numbered_of, tree_of, zones_in};
ghost use Rattle.profile.specs.events.EventBlame.{EventBlame, EventsBlame};
ghost use Rattle.cal_events.specs.Begins.{begins_of};
ghost use Rattle.cal_events.specs.Blame.{zones_of, CalendarBlame, IsZoneLine};
ghost use Rattle.cal_zones.specs.RoomZones.{room_of};
ghost use Rattle.cal_events.specs.Zones.{object_of, AreRead};
ghost use Rattle.cal_events.specs.Component.{IsFaultAmong, method_read, component_of, vevents_of};
ghost use Rattle.cal_events.specs.Naming.{IsNaming};

use crate::calendar::Calendar;
use crate::component::{EventComponent, one_event};
use crate::draft::Draft;
use crate::method::Method;
use crate::naming::Naming;
use crate::zones::ZonesOfObject;
use cal_zones::RoomZone;
use ical_lines::{Fault, Refusal};
use ical_tree::{Component, Properties, one_tree};
use ical_values::Address;
use std::alloc::Global;

impl Calendar {
    /// The calendar that the octets spell, with what is confirmed for the room: the VEVENTs whose ATTENDEE of its address has accepted, and
    /// that aren't cancelled.
    /// Refused: 1 to 5 and 20 to 24 for the object, and as by `of_object`.
    pub fn read(alloc: Global, bytes: &[u8], room: &Address) -> Result<Calendar, Fault>
        ensures spells { IfOk result (SpellsCalendar (address_octets room.now) bytes.now) }
        ensures refuses { IfErr result (RefusesOnly is_calendar_fault) }
        ensures fault { IfErr result (RefusesBy (CalendarTextFault bytes.now)) }
    {
        let draft = Draft::read(alloc, bytes, room)?;
        draft.into_calendar(alloc)
    }

    /// The same, and how its VEVENTs name the room.
    pub fn read_naming(
        alloc: Global,
        bytes: &[u8],
        room: &Address,
    ) -> Result<(Calendar, Naming), Fault>
        ensures spells { IfOk result (λ read. (s : SpellsCalendar (address_octets room.now) bytes.now read.0) × IsNaming (address_octets room.now) s.says.events read.1) }
        ensures refuses { IfErr result (RefusesOnly is_calendar_fault) }
        ensures fault { IfErr result (RefusesBy (CalendarTextFault bytes.now)) }
    {
        let draft = Draft::read(alloc, bytes, room)?;
        let naming = draft.naming;
        let calendar = draft.into_calendar(alloc)?;
        Ok((calendar, naming))
    }

    /// The calendar of an object that was read. In time n log n.
    /// Refused: 44 for the zone of the room that X-ROOM-ZONE names; as by `EventComponent::read` for a VEVENT; 53 for two VEVENTs of one meeting
    /// without RECURRENCE-ID; 54 for two of one meeting for the same instance.
    pub fn of_object(alloc: Global, object: &Component, room: &Address) -> Result<Calendar, Fault>
        ensures says { IfOk result (SaysCalendar (address_octets room.now) (tree_of object.now)) }
        ensures refuses { IfErr result (RefusesOnly is_calendar_fault) }
        ensures fault { IfErr result (RefusesBy (CalendarFault (tree_of object.now))) }
        ensures at { IfErr result (RefusesWhere (CalendarBlame object.now)) }
    {
        let own = Properties::of(alloc, object)?;
        let draft = Draft::of_object(alloc, object, &own, room)?;
        draft.into_calendar(alloc)
    }
}

/// The VEVENTs of an object say at most one calendar for a room, and none where they have a fault.
pub fn one_calendar()
    ensures one { (room : List ℕ) (object : Tree) (a b : Confirmed)
        → SaysCalendar room object a → SaysCalendar room object b → a ≡ b }
    ensures or_a_fault { (room : List ℕ) (object : Tree) (a : Confirmed) (n : ℕ)
        → SaysCalendar room object a → CalendarFault object n → ⊥ }
{
    one_event();
}

/// Octets spell at most one calendar for a room, and none where they have a fault.
pub fn one_calendar_text()
    ensures one { (room octets : List ℕ) (a b : Confirmed)
        → SpellsCalendar room octets a → SpellsCalendar room octets b → a ≡ b }
    ensures or_a_fault { (room octets : List ℕ) (all : Confirmed) (n : ℕ)
        → SpellsCalendar room octets all → CalendarTextFault octets n → ⊥ }
{
    one_tree();
    one_calendar();
}

/// Of a calendar without series the singles are all confirmed instances, and each key is that of one of them.
pub fn singles_are_confirmed()
    ensures single { (room octets : List ℕ) (all : Confirmed) (instance : Instance)
        → SpellsCalendar room octets all → Contains all.singles instance → IsConfirmedIn room octets instance }
    ensures all { (room octets : List ℕ) (all : Confirmed) (instance : Instance)
        → SpellsCalendar room octets all → all.series ≡ [] → IsConfirmedIn room octets instance → Contains all.singles instance }
    ensures keys { (room octets : List ℕ) (all : Confirmed) (a b : Instance)
        → SpellsCalendar room octets all → IsConfirmedIn room octets a → IsConfirmedIn room octets b → a.key ≡ b.key → a ≡ b }
{
    one_tree();
    one_event();
}

/// Series and singles divide what is confirmed: each instance of a series is confirmed, and no single; each other one that is confirmed is a
/// single.
pub fn series_and_singles_divide()
    ensures series { (room octets : List ℕ) (all : Confirmed) (instance : Instance)
        → SpellsCalendar room octets all → IsInSeries all.series instance → IsConfirmedIn room octets instance }
    ensures apart { (room octets : List ℕ) (all : Confirmed) (instance : Instance)
        → SpellsCalendar room octets all → IsInSeries all.series instance → Contains all.singles instance → ⊥ }
    ensures single { (room octets : List ℕ) (all : Confirmed) (instance : Instance)
        → SpellsCalendar room octets all → IsConfirmedIn room octets instance
        → (IsInSeries all.series instance → ⊥) → Contains all.singles instance }
{
    one_tree();
    one_event();
}

/// Of each series of a calendar that octets spell some VEVENT says the times and the rule.
pub fn calendar_series_are_said()
    ensures { (room octets : List ℕ) (all : Confirmed) → SpellsCalendar room octets all → AreSaidSeries all.series }
{
    one_tree();
    one_event();
}

/// What a VEVENT of an object of this METHOD says, or of one whose METHOD is ignored; its times may name these zones. Its lines are parsed
/// once, for all that is asked of them.
/// Refused: as by `EventComponent::read`.
pub(crate) fn read_event(
    alloc: Global,
    zones: &ZonesOfObject<'_, '_>,
    component: &Component,
    method: Option<Method>,
) -> Result<EventComponent, Fault>
    requires zones { AreRead zones.now }
    ensures says { IfOk result (λ event. SaysEventComponent (object_of zones.now) (method_read method) (component_lines component.now) (component_of event)) }
    ensures refuses { IfErr result (RefusesOnly is_meeting_event_fault) }
    ensures fault { IfErr result (RefusesBy (EventComponentFault (object_of zones.now) (method_read method) (component_lines component.now))) }
    ensures at { IfErr result (RefusesWhere (EventBlame (method_read method) (zones_of zones.now) (numbered_of component.now))) }
    ensures begun { IfOk result (λ event. event.begun ≡ component_begun component.now) }
{
    let properties = Properties::of(alloc, component)?;
    EventComponent::read(alloc, zones, &properties, method)
}

/// What a VEVENT says in a room of this zone.
pub(crate) fn read_placed(
    alloc: Global,
    zones: &ZonesOfObject<'_, '_>,
    component: &Component,
    method: Option<Method>,
    room: &RoomZone,
) -> Result<EventComponent, Fault>
    requires zones { AreRead zones.now }
    ensures says { IfOk result (λ event. SaysPlaced (room_of room.now) (object_of zones.now) (method_read method) (component_lines component.now) (component_of event)) }
    ensures refuses { IfErr result (RefusesOnly is_meeting_event_fault) }
    ensures fault { IfErr result (RefusesBy (EventComponentFault (object_of zones.now) (method_read method) (component_lines component.now))) }
    ensures at { IfErr result (RefusesWhere (EventBlame (method_read method) (zones_of zones.now) (numbered_of component.now))) }
    ensures begun { IfOk result (λ event. event.begun ≡ component_begun component.now) }
{
    let event = read_event(alloc, zones, component, method)?;
    Ok(event.placed(alloc, room)?)
}

/// What the VEVENTs of an object of this METHOD say in a room of this zone, or of one whose METHOD is ignored, in the order of the text.
/// Refused: as by `EventComponent::read`.
pub(crate) fn read_events(
    alloc: Global,
    object: &Component,
    method: Option<Method>,
    room: &RoomZone,
) -> Result<Vec<EventComponent>, Fault>
    ensures says { IfOk result (λ events. AllZip (SaysPlaced (room_of room.now) (tree_of object.now) (method_read method)) (vevents_of object.now) (map component_of events.items)) }
    ensures refuses { IfErr result (RefusesOnly is_meeting_event_fault) }
    ensures fault { IfErr result (RefusesBy (IsFaultAmong (tree_of object.now) (method_read method) (vevents_of object.now))) }
    ensures at { IfErr result (RefusesWhere (EventsBlame (method_read method) (zones_in object.now) (events_in object.now))) }
    ensures begun { IfOk result (λ events. begins_of events.items ≡ map (λ event. event.begun) (events_in object.now)) }
{
    let zones = ZonesOfObject::of(alloc, object)?;
    let mut events = Vec::new(alloc);
    for component in object.children() {
        if component.is_named("VEVENT") {
            events.push(read_placed(alloc, &zones, component, method, room)?)?;
        }
    }
    Ok(events)
}

/// The zone of the room of a calendar, which its own lines name by X-ROOM-ZONE; UTC where that is missing.
/// Refused: 44 where it occurs twice, or its words mean no zone.
pub(crate) fn read_room_zone(alloc: Global, properties: &Properties<'_>) -> Result<RoomZone, Fault>
    ensures names { IfOk result (λ room. NamesRoomZone (own_lines properties.now) (room_of room)) }
    ensures fault { IfErr result (RefusesBy (λ n. (n ≡ 44) × RoomZoneFault (own_lines properties.now))) }
    ensures at { IfErr result (RefusesAt (IsZoneLine (own_numbered properties.now))) }
{
    match properties.optional("X-ROOM-ZONE", Refusal::ROOM_ZONE)? {
        Some(line) => line.placed_fault(RoomZone::read(alloc, line.value())),
        None => Ok(RoomZone::utc()),
    }
}
