//! A schedule: organisers store meetings, and what anyone ever sent is delivered, in any order, repeated or not at all.
//! The messages of a world are numbered in the order in which they are written.

ghost use Rattle.std.specs.Prelude.{IfOk, MatchOption};
ghost use Rattle.itip_messages.specs.Message.{IsSpelled};
ghost use Rattle.profile.specs.streams.Schedules.{KeptTextsHold, KeptTextsSpell, SeenIsBooked, ShownIsClear, ShownIsConfirmed};
ghost use Rattle.sched_laws.specs.Shown.{TextsAreCalendars};
ghost use Rattle.profile.specs.streams.Worlds as worlds;
ghost use Rattle.sched_box.specs.Schedules.{IsPlayed, IsUnread, IsWorldOf, PlaysTo};

use crate::organisers::Organisers;
use crate::rooms::Rooms;
use crate::settings::ZonedRoom;
use cal_events::Method;
use ical_lines::Fault;
use ical_values::{Address, Stamp};
use itip_messages::Message;
use organiser_books::Organiser;
use room_books::Room;
use sched_laws::schedules_hold;
use std::alloc::{AllocError, Global};

/// What happens in a world.
#[derive(Drop)]
pub enum Step {
    /// An organiser is given an object to store at a moment; it sends each REQUEST and then each CANCEL that comes of it.
    Store {
        organiser: Address,
        object: Vec<u8>,
        now: Stamp,
    },
    /// A message that was sent arrives at an address, whomever it was for.
    Deliver {
        /// The message, counted from 0 in the order of sending.
        message: u32,
        to: Address,
        now: Stamp,
    },
}

/// Rooms and organisers with all that they took, and all messages that they ever sent.
#[derive(Drop)]
pub struct World {
    alloc: Global,
    rooms: Rooms,
    organisers: Organisers,
    sent: Vec<Vec<u8>>,
}

/// The world that these steps lead to, in order, where these rooms, each in its zone, and the organisers of these addresses have taken nothing yet; of
/// several of one address in one list the first counts. A step changes nothing that is refused, or names a message that wasn't sent or an address that isn't
/// hosted. A message to rooms reaches a room, and a reply or a refresh the organiser that it names.
pub fn play(
    alloc: Global,
    rooms: &[ZonedRoom],
    organisers: &[Address],
    steps: &[Step],
) -> Result<World, AllocError>
    ensures plays { IfOk result (λ world. (after : worlds.World) × PlaysTo rooms.now organisers.now steps.now after × IsWorldOf world after) }
    // Of each world that these steps lead to and that the result is: what an organiser sees accepted is booked.
    ensures booked { IfOk result (λ world. (after : worlds.World) → PlaysTo rooms.now organisers.now steps.now after → IsWorldOf world after → SeenIsBooked after) }
    // What the texts of meetings confirm for a room, the room has confirmed, and no two of these instances clash.
    ensures confirmed { IfOk result (λ world. (after : worlds.World) → PlaysTo rooms.now organisers.now steps.now after → IsWorldOf world after → ShownIsConfirmed after) }
    ensures read { IfOk result (λ world. (after : worlds.World) → PlaysTo rooms.now organisers.now steps.now after → IsWorldOf world after → TextsAreCalendars after) }
    ensures clear { IfOk result (λ world. (after : worlds.World) → PlaysTo rooms.now organisers.now steps.now after → IsWorldOf world after → ShownIsClear after) }
    // Each room's calendar spells what it has confirmed, and its certificate holds for it.
    ensures spells { IfOk result (λ world. (after : worlds.World) → PlaysTo rooms.now organisers.now steps.now after → IsWorldOf world after → KeptTextsSpell after) }
    ensures kept { IfOk result (λ world. (after : worlds.World) → PlaysTo rooms.now organisers.now steps.now after → IsWorldOf world after → KeptTextsHold after) }
{
    schedules_hold();
    let world = played(alloc, rooms, organisers, steps)?;
    Ok(world)
}

/// Takes these steps one after another, from a world in which nothing happened yet.
fn played(
    alloc: Global,
    rooms: &[ZonedRoom],
    organisers: &[Address],
    steps: &[Step],
) -> Result<World, AllocError>
    ensures { IfOk result (IsPlayed rooms.now organisers.now steps.now) }
{
    let mut world = World::new(alloc, rooms, organisers)?;
    for step in steps {
        world.take(step)?;
    }
    Ok(world)
}

impl World {
    ghost use Rattle.std.specs.Prelude.{◌≡◌, false, map, IfOk, IfSome, IfNone, OnOk};
    ghost use Rattle.ical_values.specs.Octets.{address_octets};
    ghost use Rattle.cal_events.specs.Component.{method_said};
    ghost use Rattle.profile.specs.events.Messages.{is_to_rooms};
    ghost use Rattle.profile.specs.streams.Worlds as worlds;
    ghost use Rattle.profile.specs.streams.Worlds.{Delivering, Storing, has_organiser, has_room, new_world};
    ghost use Rattle.sched_box.specs.Answering.{octets_each};
    ghost use Rattle.sched_box.specs.Settings.{zoned_room};
    ghost use Rattle.sched_box.specs.Schedules.{IsOrganiserOf, IsRoomOf, IsWorldOf, LeadsOn, TakesStep, TellsOrganiser, step_said};

    /// The room of this address, if it is hosted.
    pub fn room(&self, address: &Address) -> Option<&Room>
        ensures found { IfSome result (λ room. (said : worlds.World) → IsWorldOf self.now said → IsRoomOf (address_octets address.now) room.now said) }
        ensures none { IfNone result ((said : worlds.World) → IsWorldOf self.now said → has_room (address_octets address.now) said ≡ false) }
    {
        self.rooms.at(address)
    }

    /// The organiser of this address, if it is hosted.
    pub fn organiser(&self, address: &Address) -> Option<&Organiser>
        ensures found { IfSome result (λ organiser. (said : worlds.World) → IsWorldOf self.now said → IsOrganiserOf (address_octets address.now) organiser.now said) }
        ensures none { IfNone result ((said : worlds.World) → IsWorldOf self.now said → has_organiser (address_octets address.now) said ≡ false) }
    {
        self.organisers.at(address)
    }

    /// All messages that were sent, as octets, in the order in which they were written.
    pub fn sent(&self) -> &[Vec<u8>]
        ensures { (said : worlds.World) → IsWorldOf self.now said → octets_each result.now ≡ said.sent }
    {
        self.sent.as_slice()
    }

    /// A world in which nothing happened yet.
    fn new(alloc: Global, rooms: &[ZonedRoom], organisers: &[Address]) -> Result<World, AllocError>
        ensures { IfOk result (λ world. IsWorldOf world (new_world (map zoned_room rooms.now) (map address_octets organisers.now))) }
    {
        Ok(World {
            alloc,
            rooms: Rooms::new(alloc, rooms)?,
            organisers: Organisers::new(alloc, organisers)?,
            sent: Vec::new(alloc),
        })
    }

    /// Takes one step.
    fn take(&mut self, step: &Step) -> Result<(), AllocError>
        ensures { OnOk result (LeadsOn (step_said step.now) self.old self.new) }
    {
        let mut sent = self.effect(step)?;
        self.sent.append(&mut sent)?;
        Ok(())
    }

    /// What a step does to the hosts: what they send, which isn't among the messages yet.
    fn effect(&mut self, step: &Step) -> Result<Vec<Vec<u8>>, AllocError>
        ensures { IfOk result (λ sent. TakesStep (step_said step.now) self.old self.new (octets_each sent.items)) }
    {
        match step {
            Step::Store {
                organiser,
                object,
                now,
            } => self.store(organiser, object, *now),
            Step::Deliver { message, to, now } => self.deliver(*message, to, *now),
        }
    }

    /// Gives an organiser an object to store: what it sends.
    fn store(
        &mut self,
        organiser: &Address,
        object: &[u8],
        now: Stamp,
    ) -> Result<Vec<Vec<u8>>, AllocError>
        ensures { IfOk result (λ sent. TakesStep (Storing (address_octets organiser.now) object.now now) self.old self.new (octets_each sent.items)) }
    {
        let Some(message) = message_of(self.alloc, object)? else {
            return Ok(Vec::new(self.alloc));
        };
        if message.method() != Method::Store {
            return Ok(Vec::new(self.alloc));
        }
        self.tell_organiser(organiser, &message, now)
    }

    /// Delivers a message by its number: what is sent of it.
    fn deliver(&mut self, number: u32, to: &Address, now: Stamp) -> Result<Vec<Vec<u8>>, AllocError>
        ensures { IfOk result (λ sent. TakesStep (Delivering number (address_octets to.now) now) self.old self.new (octets_each sent.items)) }
    {
        let Some(octets) = self.sent.get(number as usize) else {
            return Ok(Vec::new(self.alloc));
        };
        let Some(message) = message_of(self.alloc, octets)? else {
            return Ok(Vec::new(self.alloc));
        };
        let method = message.method();
        if method.is_to_rooms() {
            return self.rooms.deliver(self.alloc, to, &message, now);
        }
        if method.is_of_attendee() {
            return self.tell_organiser(to, &message, now);
        }
        // nobody sends a store
        Ok(Vec::new(self.alloc))
    }

    /// Hands an object to the organiser of this address, if the object names it: what it sends, nothing where it refuses the object.
    fn tell_organiser(
        &mut self,
        organiser: &Address,
        object: &Message,
        now: Stamp,
    ) -> Result<Vec<Vec<u8>>, AllocError>
        requires { is_to_rooms (method_said object.now.method) ≡ false }
        ensures { IfOk result (λ sent. TellsOrganiser (address_octets organiser.now) now object.now self.old self.new (octets_each sent.items)) }
    {
        if *object.organiser() != *organiser {
            return Ok(Vec::new(self.alloc));
        }
        match self.organisers.take(self.alloc, object, now) {
            Ok(sent) => Ok(sent),
            Err(Fault::Refused(_)) => Ok(Vec::new(self.alloc)),
            Err(Fault::Memory) => Err(AllocError),
        }
    }
}

/// The message that octets spell; None where they are refused.
fn message_of(alloc: Global, octets: &[u8]) -> Result<Option<Message>, AllocError>
    ensures { IfOk result (λ read. MatchOption read (IsUnread octets.now) (IsSpelled octets.now)) }
{
    match Message::read(alloc, octets) {
        Ok(message) => Ok(Some(message)),
        Err(Fault::Refused(_)) => Ok(None),
        Err(Fault::Memory) => Err(AllocError),
    }
}
