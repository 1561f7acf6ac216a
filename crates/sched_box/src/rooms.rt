//! The rooms of a box: a message goes to each that it may be for, in turn.

ghost use Rattle.std.specs.Prelude.{◌≡◌, ◌<◌, ◌++◌, ◌∷◌, ℕ, List, [], true, false, length, get_or, map, Contains, option_map, IfOk, IfSome, IfNone, OnOk};
ghost use Rattle.std.specs.List.{list_any};
ghost use Rattle.std.specs.Option.{option_to_list};
ghost use Rattle.std.specs.Str.{bytes_eq};
ghost use Rattle.ical_values.specs.Octets.{address_octets};
ghost use Rattle.cal_events.specs.Component.{method_said};
ghost use Rattle.profile.specs.events.Messages.{is_to_rooms};
ghost use Rattle.profile.specs.streams.Streams.{ZonedRoom as SaidRoom, new_room};
ghost use Rattle.profile.specs.streams.Worlds.{rooms_once};
ghost use Rattle.room_books.specs.Taking.{octets_in};
ghost use Rattle.sched_box.specs.Answering.{AreHosted, IsHosted, IsMade, RoomTakes, RoomsSend, RoomsTake, octets_each, room_addresses, sent_by, sent_octets};
ghost use Rattle.sched_box.specs.Asked.{LeavesOut, asks, directory_addresses};
ghost use Rattle.sched_box.specs.Journal.{AddsEffect, AreEffects, InRoom, in_room_said};
ghost use Rattle.sched_box.specs.Settings.{zoned_room};

use crate::directory::Directory;
use crate::journal::{Became, Effects};
use crate::settings::ZonedRoom;
use ical_values::{Address, Stamp};
use itip_messages::Message;
use room_books::{Answer, Room};
use std::alloc::{AllocError, Global};

/// The rooms that a box hosts, each with all that it took.
#[derive(Drop)]
pub(crate) struct Rooms {
    rooms: Vec<Room>,
    directory: Directory,
    ghost listed: { directory_addresses directory ≡ room_addresses rooms.items },
}

impl Rooms {
    /// These rooms, empty, in order; of several of one address the first counts.
    pub(crate) fn new(alloc: Global, hosts: &[ZonedRoom]) -> Result<Rooms, AllocError>
        ensures hosted { IfOk result (λ rooms. AreHosted rooms.rooms.items (map new_room (rooms_once (map zoned_room hosts.now)))) }
    {
        let mut rooms = Vec::new(alloc);
        let mut directory = Directory::new(alloc);
        for host in hosts {
            add_room(alloc, &mut rooms, &mut directory, host)?;
        }
        Ok(Rooms { rooms, directory })
    }

    /// The room of an address, if it is hosted.
    pub(crate) fn at(&self, address: &Address) -> Option<&Room>
        ensures found { IfSome result (λ room. Contains self.now.rooms.items room.now) }
        ensures address { IfSome result (λ room. address_octets room.now.address ≡ address_octets address.now) }
        ensures none { IfNone result (list_any (bytes_eq (address_octets address.now)) (room_addresses self.now.rooms.items) ≡ false) }
    {
        let place = self.directory.place_of(address)?;
        Some(&self.rooms[place])
    }

    /// Hands a message to each room that it may be for, in turn, and appends what they answer. Gives what became of it.
    pub(crate) fn take(
        &mut self,
        alloc: Global,
        message: &Message,
        now: Stamp,
        answers: &mut Vec<u8>,
    ) -> Result<Effects, AllocError>
        ensures takes { IfOk result (λ effects. (more : List ℕ) × (all : List InRoom) × (answers.new.items ≡ answers.old.items ++ more)
            × RoomsTake now message.now self.old.rooms.items self.new.rooms.items more all × AreEffects all effects) }
        ensures addresses { room_addresses self.new.rooms.items ≡ room_addresses self.old.rooms.items }
    {
        let asked = self.directory.asked_by(alloc, message)?;
        take_all(&mut self.rooms, &asked, message, now, answers)
    }

    /// Hands a message to the room of this address, if it is hosted: what that sends.
    pub(crate) fn deliver(
        &mut self,
        alloc: Global,
        to: &Address,
        message: &Message,
        now: Stamp,
    ) -> Result<Vec<Vec<u8>>, AllocError>
        requires for_rooms { is_to_rooms (method_said message.now.method) ≡ true }
        ensures { IfOk result (λ sent. RoomsSend (address_octets to.now) now message.now self.old.rooms.items self.new.rooms.items (octets_each sent.items)) }
    {
        let mut sent = Vec::new(alloc);
        let Some(place) = self.directory.place_of(to) else {
            return Ok(sent);
        };
        let answer = take_at(&mut self.rooms, place, message, now)?;
        push_answer(&mut sent, answer)?;
        Ok(sent)
    }
}

/// Adds a room, empty, after the others, unless one of its address is there.
fn add_room(
    alloc: Global,
    rooms: &mut Vec<Room>,
    directory: &mut Directory,
    host: &ZonedRoom,
) -> Result<(), AllocError>
    ensures { OnOk result ((done : List SaidRoom) → IsMade rooms.old.items (directory_addresses directory.old) done
        → IsMade rooms.new.items (directory_addresses directory.new) (done ++ zoned_room host.now ∷ [])) }
{
    let is_new = directory.add(&host.address)?;
    if !is_new {
        return Ok(());
    }
    let room = room_of(alloc, host)?;
    rooms.push(room)?;
    Ok(())
}

/// An empty room of this address and zone.
fn room_of(alloc: Global, host: &ZonedRoom) -> Result<Room, AllocError>
    ensures { IfOk result (λ room. IsHosted room (new_room (zoned_room host.now))) }
{
    Ok(Room::new(alloc, host.address.clone()?, host.zone))
}

/// Hands a message to each room that it may be for, in turn, and appends what it answers. Gives what became of it.
fn take_all(
    rooms: &mut Vec<Room>,
    asked: &[bool],
    message: &Message,
    now: Stamp,
    answers: &mut Vec<u8>,
) -> Result<Effects, AllocError>
    requires long { length asked.now ≡ length rooms.old.items }
    requires out { LeavesOut (asks message.now) (room_addresses rooms.old.items) asked.now }
    ensures addresses { room_addresses rooms.new.items ≡ room_addresses rooms.old.items }
    ensures takes { IfOk result (λ effects. (more : List ℕ) × (all : List InRoom) × (answers.new.items ≡ answers.old.items ++ more)
        × RoomsTake now message.now rooms.old.items rooms.new.items more all × AreEffects all effects) }
{
    let mut effects = Effects::none();
    for (place, room) in rooms.iter_mut().enumerate() {
        if asked[place] {
            let next = take_next(room, message, now, answers, effects)?;
            effects = next;
        }
    }
    Ok(effects)
}

/// Hands a message to a room, appends what it answers, and adds what became of it to what became of it in other rooms.
fn take_next(
    room: &mut Room,
    message: &Message,
    now: Stamp,
    answers: &mut Vec<u8>,
    effects: Effects,
) -> Result<Effects, AllocError>
    ensures address { room.new.address ≡ room.old.address }
    ensures takes { IfOk result (λ next. (more : List ℕ) × (one : InRoom) × (answers.new.items ≡ answers.old.items ++ more)
        × RoomTakes now message.now room.old room.new more one × AddsEffect effects one next) }
{
    let became = take_one(room, message, now, answers)?;
    Ok(effects.with(&became))
}

/// Hands a message to a room, and appends its reply and then its refresh. Gives what became of it.
fn take_one(
    room: &mut Room,
    message: &Message,
    now: Stamp,
    answers: &mut Vec<u8>,
) -> Result<Became, AllocError>
    ensures address { room.new.address ≡ room.old.address }
    ensures zone { room.new.zone ≡ room.old.zone }
    ensures takes { IfOk result (λ became. (more : List ℕ) × (answers.new.items ≡ answers.old.items ++ more)
        × RoomTakes now message.now room.old room.new more (in_room_said became)) }
{
    let Answer {
        kind,
        reply,
        refresh,
        frees,
    } = room.take(message, now)?;
    append(&reply, answers)?;
    append(&refresh, answers)?;
    Ok(Became { kind, frees })
}

/// Appends an object, if there is one.
fn append(object: &Option<Vec<u8>>, answers: &mut Vec<u8>) -> Result<(), AllocError>
    ensures { OnOk result (answers.new.items ≡ answers.old.items ++ sent_octets (option_map (λ octets. octets.items) object.now)) }
{
    match object {
        Some(octets) => answers.extend_from_slice(octets.as_slice()),
        None => Ok(()),
    }
}

/// Hands a message to the room in its place.
fn take_at(
    rooms: &mut Vec<Room>,
    place: usize,
    message: &Message,
    now: Stamp,
) -> Result<Answer, AllocError>
    requires for_rooms { is_to_rooms (method_said message.now.method) ≡ true }
    requires within { place < length rooms.old.items }
    ensures sends { IfOk result (λ answer. RoomsSend (get_or (room_addresses rooms.old.items) place []) now message.now rooms.old.items rooms.new.items (sent_by answer)) }
    ensures addresses { room_addresses rooms.new.items ≡ room_addresses rooms.old.items }
{
    let room = &mut rooms[place];
    room.take(message, now)
}

/// Adds what a room sends: its reply and then its refresh.
fn push_answer(sent: &mut Vec<Vec<u8>>, answer: Answer) -> Result<(), AllocError>
    ensures { OnOk result (octets_each sent.new.items ≡ octets_each sent.old.items ++ sent_by answer) }
{
    let Answer {
        kind: _,
        reply,
        refresh,
        frees: _,
    } = answer;
    push(sent, reply)?;
    push(sent, refresh)
}

/// Adds an object, if there is one.
fn push(sent: &mut Vec<Vec<u8>>, object: Option<Vec<u8>>) -> Result<(), AllocError>
    ensures { OnOk result (octets_each sent.new.items ≡ octets_each sent.old.items ++ option_to_list (octets_in object)) }
{
    if let Some(octets) = object {
        sent.push(octets)?;
    }
    Ok(())
}
