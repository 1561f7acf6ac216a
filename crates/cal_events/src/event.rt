//! An event with its instances: when its master takes place, and its overrides (RFC 5545 3.8.4.4), read from one object whatever its METHOD.

ghost use Rattle.std.specs.Prelude.{◌≡◌, ◌↔◌, ◌≤ℤ◌, ℕ, List, [], Option, Some, None, Contains, map, option_map, ℤ, IfOk, IfErr};
ghost use Rattle.ical_lines.specs.Fault.{RefusesOnly, RefusesBy, RefusesWhere};
ghost use Rattle.ical_tree.specs.Tree.{events_in, tree_of, zones_in};
ghost use Rattle.profile.specs.events.EventBlame.{EventsBlame};
ghost use Rattle.profile.specs.checker.Instances.{Instance as SaidInstance};
ghost use Rattle.profile.specs.events.Events.{Event as SaidEvent, SaysEvent, SpellsEvent, EventFault, EventTextFault, is_meeting_fault, components_of, AreOfOne};
ghost use Rattle.profile.specs.series.Zones as zones;
ghost use Rattle.profile.specs.series.RoomZones.{IsRoomZone};
ghost use Rattle.cal_zones.specs.RoomZones.{room_of};
ghost use Rattle.cal_events.specs.Component.{component_of, meeting_with};
ghost use Rattle.cal_events.specs.MeetingComponents.{instants_said, IsInEventDates};
ghost use Rattle.profile.specs.events.Starts.{IsInstance, IsFirstOverlap};
ghost use Rattle.cal_events.specs.Instants.{AreReplacedIn};
ghost use Rattle.cal_events.specs.Places.{ArePlaces};
ghost use Rattle.cal_events.specs.Recurrence.{AreNamed, recurring_with};
ghost use Rattle.cal_events.specs.Overlapping.{HaveOneEnd, AreDated};
ghost use Rattle.cal_events.specs.declared.component.EventComponent.{EventComponent};
ghost use Rattle.cal_events.specs.declared.recurrence.Recurrence.{Recurrence};

use crate::component::{EventComponent, one_event};
use crate::instance::Instance;
use crate::instances::Instances;
use crate::meeting_components::MeetingComponents;
use crate::overlapping::first_overlapping;
use crate::places::Places;
use crate::recurrence::{EventName, Recurrence};
use crate::sweep::Span;
use cal_zones::RoomZone;
use ical_lines::{Fault, Limits, Unfolded};
use ical_tree::{Component, one_tree, read_object};
use ical_values::Text;
use std::alloc::{AllocError, Global};

/// An event with its instances.
#[derive(Drop)]
pub struct Event {
    /// Whose it is.
    pub(crate) name: EventName,
    /// When it takes place by the VEVENT without RECURRENCE-ID, None where there is none.
    pub(crate) recurrence: Option<Recurrence>,
    /// The VEVENTs with one, each for another instance, in the order of the text.
    pub(crate) overrides: Vec<EventComponent>,
    /// Where the overrides are.
    pub(crate) places: Places,
    ghost replaced: { (r : Recurrence) → recurrence ≡ Some r → AreReplacedIn (map component_of overrides.items) r.exceptions },
    ghost ends: { HaveOneEnd (recurring_with name recurrence overrides.items) },
    ghost dated: { AreDated (recurring_with name recurrence overrides.items) },
    ghost placed: { ArePlaces overrides.items places },
    ghost named: { AreNamed name overrides.items },
}

impl Event {
    ghost use Rattle.profile.specs.events.Starts.{IsInstance};
    ghost use Rattle.cal_events.specs.Event.{said_meeting, AreAlike, TakesPlaceAs};
    ghost use Rattle.cal_events.specs.Left.{IsLeft};
    ghost use Rattle.cal_events.specs.Calendar.{instance_of};

    /// Its instances that start at an instant or later, in seconds from 1970-01-01T00:00:00Z: each once, by start and then by slot. Takes no
    /// memory, and looks at nothing that comes before.
    pub fn instances(&self, from: i64) -> Instances<'_>
        ensures left { (b : SaidInstance) → IsLeft result b ↔ IsInstance (said_meeting self.now) b × (from ≤ℤ b.start) }
        ensures of { said_meeting result.event.now ≡ said_meeting self.now }
    {
        Instances::from(self, from)
    }

    /// The first of its instances, by start and then by slot, that shares an instant with a span; None where none does.
    /// It begins to look where one that starts earlier would be over.
    pub fn first_overlap(&self, span: Span) -> Option<Instance<'_>>
        ensures { IsFirstOverlap (said_meeting self.now) span.start span.end (option_map instance_of result) }
    {
        first_overlapping(self, span)
    }

    /// The event that octets spell in a room of this zone: an object of one UID and one ORGANIZER, whose METHOD is ignored.
    /// Refused: 1 to 6 and 20 to 25 for the object, and as by `of_object`.
    pub fn read(alloc: Global, bytes: &[u8], room: &RoomZone) -> Result<Event, Fault>
        ensures spells { IfOk result (TakesPlaceAs (SpellsEvent (room_of room.now) bytes.now)) }
        ensures refuses { IfErr result (RefusesOnly is_meeting_fault) }
        ensures fault { IfErr result (RefusesBy (EventTextFault (room_of room.now) bytes.now)) }
    {
        let text = Unfolded::read(alloc, bytes, Limits::Message)?;
        let object = read_object(alloc, &text, Limits::Message)?;
        Event::of_object(alloc, &object, room)
    }

    /// The event of an object that was read, in a room of this zone.
    /// Refused: as by `MeetingComponents::read`.
    pub fn of_object(alloc: Global, object: &Component, room: &RoomZone) -> Result<Event, Fault>
        ensures says { IfOk result (TakesPlaceAs (SaysEvent (room_of room.now) (tree_of object.now) None)) }
        ensures refuses { IfErr result (RefusesOnly is_meeting_fault) }
        ensures fault { IfErr result (RefusesBy (EventFault (room_of room.now) (tree_of object.now) None)) }
        ensures at { IfErr result (RefusesWhere (EventsBlame None (zones_in object.now) (events_in object.now))) }
    {
        // Only for the proof: the words of the room mean its zone.
        room.words_mean();
        let components = MeetingComponents::read(alloc, object, room)?;
        Ok(Event::of(alloc, components)?)
    }

    /// The event of the VEVENTs of a meeting. It fails only when out of memory.
    fn of(alloc: Global, components: MeetingComponents) -> Result<Event, AllocError>
        requires said { map Some components.instants.items ≡ instants_said (map component_of components.overrides.items) }
        requires one { AreOfOne (components_of (meeting_with components.master components.overrides.items)) }
        requires ends { HaveOneEnd (meeting_with components.master components.overrides.items) }
        requires dated { AreDated (meeting_with components.master components.overrides.items) }
        ensures { IfOk result (λ event. AreAlike (said_meeting event) (meeting_with components.master components.overrides.items)) }
    {
        let MeetingComponents {
            master,
            overrides,
            instants,
        } = components;
        let places = Places::of(alloc, &overrides)?;
        match master {
            Some(master) => {
                let (name, recurrence) = master.without(alloc, instants)?;
                Ok(Event {
                    name,
                    recurrence: Some(recurrence),
                    overrides,
                    places,
                })
            }
            None => Ok(Event {
                name: first_name(alloc, &overrides)?,
                recurrence: None,
                overrides,
                places,
            }),
        }
    }

    /// The event that recurs so, without overrides.
    pub(crate) fn recurring(alloc: Global, name: EventName, recurrence: Recurrence) -> Event
        ensures name { result.name ≡ name }
        ensures recurrence { result.recurrence ≡ Some recurrence }
        ensures overrides { result.overrides.items ≡ [] }
    {
        Event {
            name,
            recurrence: Some(recurrence),
            overrides: Vec::new(alloc),
            places: Places::none(alloc),
        }
    }
}

/// The name of the first of these overrides; an empty one where there is none. It fails only when out of memory.
fn first_name(alloc: Global, overrides: &[EventComponent]) -> Result<EventName, AllocError>
    ensures { IfOk result (λ name. AreOfOne (map component_of overrides.now) → AreNamed name overrides.now) }
{
    match overrides.first() {
        Some(first) => first.name(),
        None => Ok(EventName {
            organiser: None,
            uid: Text::of(alloc, "")?,
        }),
    }
}

/// Octets spell at most one event with its instances in a room of a zone that words mean, and none where they have a fault.
pub fn one_meeting()
    ensures one { (words : List ℕ) (room : Option zones.Zone) (octets : List ℕ) (a b : SaidEvent) → IsRoomZone words room → SpellsEvent room octets a → SpellsEvent room octets b → a ≡ b }
    ensures or_a_fault { (words : List ℕ) (room : Option zones.Zone) (octets : List ℕ) (a : SaidEvent) (n : ℕ) → IsRoomZone words room → SpellsEvent room octets a → EventTextFault room octets n → ⊥ }
{
    one_tree();
    one_event();
}

/// The instances of an event that octets spell in a room of a zone that words mean differ in their places, by start and slot, which are in the dates that an event may name.
/// None ends before it starts.
pub fn one_instance()
    ensures one { (words : List ℕ) (room : Option zones.Zone) (octets : List ℕ) (meeting : SaidEvent) (a b : SaidInstance)
        → IsRoomZone words room → SpellsEvent room octets meeting → IsInstance meeting a → IsInstance meeting b
        → a.start ≡ b.start → a.key.slot ≡ b.key.slot → a ≡ b }
    ensures dates { (words : List ℕ) (room : Option zones.Zone) (octets : List ℕ) (meeting : SaidEvent) (a : SaidInstance)
        → IsRoomZone words room → SpellsEvent room octets meeting → IsInstance meeting a
        → IsInEventDates a.key.slot × IsInEventDates a.start × (a.start ≤ℤ a.end) }
{}
