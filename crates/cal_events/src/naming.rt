//! How the VEVENTs of a calendar name a room: whether one does, and how many of those wait for its answer.

ghost use Rattle.std.specs.Prelude.{◌≡◌, ◌||◌, ◌+◌, ◌-◌, ◌^◌, ℕ, List, [], true, min, if◌then◌else◌};
ghost use Rattle.ical_values.specs.Octets.{address_octets};
ghost use Rattle.profile.specs.checker.Naming.{are_of_room, is_not_accepted, names, not_accepted};
ghost use Rattle.profile.specs.events.EventComponents.{EventComponent as SaidComponent};
ghost use Rattle.cal_events.specs.Component.{component_of};
ghost use Rattle.cal_events.specs.Naming.{IsNaming};

use crate::component::{EventComponent, PartStat};
use ical_values::Address;

/// How the VEVENTs of a calendar name a room as their attendee.
#[derive(Clone, Copy)]
pub struct Naming {
    /// Whether there is a VEVENT.
    any: bool,
    /// Whether one names the room.
    named: bool,
    /// How many name it, which hasn't accepted them, and aren't cancelled.
    not_accepted: u64,
}

impl Naming {
    /// How no VEVENTs do.
    pub(crate) fn none() -> Naming
        ensures { (room : List ℕ) → IsNaming room [] result }
    {
        Naming {
            any: false,
            named: false,
            not_accepted: 0,
        }
    }

    /// How they do with one more.
    pub(crate) fn with(self, event: &EventComponent, room: &Address) -> Naming
        ensures any { result.any ≡ true }
        ensures named { result.named ≡ (self.named || names (address_octets room.now) (component_of event.now)) }
        ensures counted { result.not_accepted ≡ min (self.not_accepted + (if is_not_accepted (address_octets room.now) (component_of event.now) then 1 else 0)) (2 ^ 64 - 1) }
    {
        Naming {
            any: true,
            named: self.named || names(event, room),
            not_accepted: self.not_accepted.saturating_add(number_of(event, room)),
        }
    }

    /// Whether the calendar is one of the room: a VEVENT names it, or there is none.
    pub fn is_of_room(self) -> bool
        ensures { (room : List ℕ) (events : List SaidComponent) → IsNaming room events self → result ≡ are_of_room room events }
    {
        self.named || !self.any
    }

    /// How many name the room, which hasn't accepted them, and aren't cancelled.
    pub fn not_accepted(self) -> u64
        ensures { (room : List ℕ) (events : List SaidComponent) → IsNaming room events self → result ≡ not_accepted room events }
    {
        self.not_accepted
    }
}

/// Whether an event names the room.
fn names(event: &EventComponent, room: &Address) -> bool
    ensures { result ≡ names (address_octets room.now) (component_of event.now) }
{
    event.status_of(room).is_some()
}

/// Whether it does, isn't accepted and isn't cancelled.
fn is_not_accepted(event: &EventComponent, room: &Address) -> bool
    ensures { result ≡ is_not_accepted (address_octets room.now) (component_of event.now) }
{
    match event.status_of(room) {
        None | Some(PartStat::Accepted) => false,
        Some(_) => !event.cancelled,
    }
}

/// How many such events this one is.
fn number_of(event: &EventComponent, room: &Address) -> u64
    ensures { result ≡ (if is_not_accepted (address_octets room.now) (component_of event.now) then 1 else 0) }
{
    if is_not_accepted(event, room) { 1 } else { 0 }
}
