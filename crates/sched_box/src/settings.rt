//! The lines of a preamble or a configuration: LF or CRLF ends each, an empty one ends them all.

ghost use Rattle.std.specs.Prelude.{◌≡◌, ◌↔◌, ◌<◌, ℤ, length, map, option_map, Contains, IfOk, IfSome, OnOk, IfErr, OnErr, IsTrue, MatchOption};
ghost use Rattle.std.specs.List.{find, list_any};
ghost use Rattle.std.specs.Str.{bytes_eq};
ghost use Rattle.profile.specs.faults.Faults.{is_preamble_fault};
ghost use Rattle.profile.specs.streams.Streams.{Setting, Now, Room, Organiser, IsSetting, ZonedRoom as SaidRoom, addresses, most_organisers, most_rooms};
ghost use Rattle.profile.specs.text.Values.{SpellsStamp, IsAddress, lower_case};
ghost use Rattle.ical_lines.specs.Fault.{RefusesOnly};
ghost use Rattle.ical_values.specs.Refused.{IfRefused};
ghost use Rattle.ical_values.specs.Octets.{address_octets};
ghost use Rattle.cal_zones.specs.RoomZones.{room_of, words_of};
ghost use Rattle.sched_box.specs.Settings.{Adds, AddsHost, AddsLine, AddsZone, Breaks, CanAdd, CanHost, IsUnbroken, Reads, SaysNone, SaysZone, are_of_rooms, zoned_room};

use cal_zones::RoomZone;
use ical_lines::{Fault, Refusal};
use ical_values::stamp::one_stamp;
use ical_values::{Address, Stamp};
use std::alloc::Global;

/// How many rooms a box may host; this profile's choice.
pub const MOST_ROOMS: usize = 64;

/// How many organisers a box may host; this profile's choice.
pub const MOST_ORGANISERS: usize = 256;

/// A room and its zone.
#[derive(Drop)]
pub struct ZonedRoom {
    pub address: Address,
    pub zone: RoomZone,
}

/// What the lines so far have set.
#[derive(Drop)]
pub(crate) struct Settings {
    /// The rooms, in the order of the lines.
    pub(crate) rooms: Vec<Address>,
    /// The zones of rooms, likewise; the line of such a room may come later.
    pub(crate) zones: Vec<ZonedRoom>,
    /// The organisers, in the order of the lines.
    pub(crate) organisers: Vec<Address>,
    /// The moment of every decision.
    pub(crate) moment: Option<Stamp>,
}

impl Settings {
    /// Reads the lines up to the empty one, after which nothing may follow.
    /// Refused: 90.
    pub(crate) fn read(alloc: Global, text: &str) -> Result<Settings, Fault>
        ensures reads { IfOk result (λ settings. Reads settings text.now) }
        ensures refuses { IfErr result (RefusesOnly is_preamble_fault) }
        ensures none { IfErr result (IfRefused (SaysNone text.now)) }
    {
        let mut settings = Settings {
            rooms: Vec::new(alloc),
            zones: Vec::new(alloc),
            organisers: Vec::new(alloc),
            moment: None,
        };
        let mut rest = text;
        while let Some((line, after)) = next_line(rest) {
            if line.is_empty() {
                return if after.is_empty() {
                    Ok(settings)
                } else {
                    Err(refused())
                };
            }
            settings.add_line(alloc, line)?;
            rest = after;
        }
        if !rest.is_empty() {
            settings.add_line(alloc, rest)?;
        }
        Ok(settings)
    }

    /// Adds what a line says: the moment, a room, the zone of a room or an organiser.
    fn add_line(&mut self, alloc: Global, line: &str) -> Result<(), Fault>
        ensures added { OnOk result (AddsLine self.old self.new line.now) }
        ensures refuses { IfErr result (RefusesOnly is_preamble_fault) }
        ensures none { IfErr result (IfRefused ((setting : Setting) → IsSetting line.now setting → CanAdd self.old setting → ⊥)) }
    {
        one_stamp();
        if let Some(stamp) = line.strip_prefix("now ") {
            return self.set_moment(stamp);
        }
        if let Some(address) = line.strip_prefix("room ") {
            return add_host(alloc, &mut self.rooms, MOST_ROOMS, address);
        }
        if let Some(room) = line.strip_prefix("zone ") {
            return add_zone(alloc, &mut self.zones, room);
        }
        if let Some(address) = line.strip_prefix("organiser ") {
            return add_host(alloc, &mut self.organisers, MOST_ORGANISERS, address);
        }
        Err(refused())
    }

    /// Whether each zone is of a room.
    pub(crate) fn are_zones_of_rooms(&self) -> bool
        ensures { result ≡ are_of_rooms self.now.rooms.items self.now.zones.items }
    {
        are_of_rooms(self.rooms.as_slice(), self.zones.as_slice())
    }

    /// Sets the moment; a second one is refused.
    fn set_moment(&mut self, text: &str) -> Result<(), Fault>
        ensures set { OnOk result ((t : ℤ) × SpellsStamp text.now t × Adds self.old self.new (Now t)) }
        ensures refuses { IfErr result (RefusesOnly is_preamble_fault) }
        ensures none { OnErr result ((t : ℤ) → SpellsStamp text.now t → CanAdd self.old (Now t) → ⊥) }
    {
        if self.moment.is_some() {
            return Err(refused());
        }
        let Ok(moment) = Stamp::read(text) else {
            return Err(refused());
        };
        self.moment = Some(moment);
        Ok(())
    }
}

/// Adds a host to those of its kind, of which there may be this many; one that is there is refused.
/// At most this many are looked at.
fn add_host(alloc: Global, hosts: &mut Vec<Address>, most: usize, text: &str) -> Result<(), Fault>
    ensures address { OnOk result (IsAddress text.now) }
    ensures added { OnOk result (AddsHost most hosts.old.items hosts.new.items (lower_case text.now)) }
    ensures refuses { IfErr result (RefusesOnly is_preamble_fault) }
    ensures none { IfErr result (IfRefused (IsAddress text.now → CanHost most (map address_octets hosts.old.items) (lower_case text.now) → ⊥)) }
{
    if hosts.len() >= most {
        return Err(refused());
    }
    let host = read_address(alloc, text)?;
    if contains(hosts.as_slice(), &host) {
        return Err(refused());
    }
    hosts.push(host)?;
    Ok(())
}

/// Adds the zone of a room, an address and after a space its words, to those of other rooms; a second one of a room is refused. There are no more
/// than rooms, and at most so many are looked at.
fn add_zone(alloc: Global, zones: &mut Vec<ZonedRoom>, text: &str) -> Result<(), Fault>
    ensures added { OnOk result ((room : SaidRoom) × SaysZone text.now room × AddsZone zones.old.items zones.new.items room) }
    ensures refuses { IfErr result (RefusesOnly is_preamble_fault) }
    ensures none { IfErr result (IfRefused ((room : SaidRoom) → SaysZone text.now room → CanHost most_rooms (addresses (map zoned_room zones.old.items)) room.address → ⊥)) }
{
    if zones.len() >= MOST_ROOMS {
        return Err(refused());
    }
    let room = read_zone(alloc, text)?;
    if is_zoned(zones, &room.address) {
        return Err(refused());
    }
    zones.push(room)?;
    Ok(())
}

/// The room and its zone that a text says.
/// Refused: 90.
fn read_zone(alloc: Global, text: &str) -> Result<ZonedRoom, Fault>
    ensures says { IfOk result (λ room. SaysZone text.now (zoned_room room)) }
    ensures refuses { IfErr result (RefusesOnly is_preamble_fault) }
    ensures none { IfErr result (IfRefused ((room : SaidRoom) → SaysZone text.now room → ⊥)) }
{
    let Some((address, words)) = text.split_once(' ') else {
        return Err(refused());
    };
    let address = read_address(alloc, address)?;
    let zone = match RoomZone::read(alloc, words) {
        Ok(zone) => zone,
        Err(Fault::Memory) => return Err(Fault::Memory),
        Err(Fault::Refused(_)) => return Err(refused()),
    };
    Ok(ZonedRoom { address, zone })
}

/// The address that a text is.
/// Refused: 90.
fn read_address(alloc: Global, text: &str) -> Result<Address, Fault>
    ensures reads { IfOk result (λ host. IsAddress text.now × (address_octets host ≡ lower_case text.now)) }
    ensures refuses { IfErr result (RefusesOnly is_preamble_fault) }
    ensures none { IfErr result (IfRefused (IsAddress text.now → ⊥)) }
{
    match Address::read(alloc, text) {
        Ok(host) => Ok(host),
        Err(Fault::Memory) => Err(Fault::Memory),
        Err(Fault::Refused(_)) => Err(refused()),
    }
}

/// The zone of the room of this address, where a line gives one.
pub(crate) fn zone_among(zones: &[ZonedRoom], address: &Address) -> Option<RoomZone>
    ensures { option_map (λ zone. record { address = address_octets address.now; words = words_of zone; zone = room_of zone }) result
        ≡ find (λ room. bytes_eq room.address (address_octets address.now)) (map zoned_room zones.now) }
{
    for room in zones {
        if room.address == *address {
            return Some(room.zone);
        }
    }
    None
}

/// Whether a line gives the room of this address a zone.
fn is_zoned(zones: &[ZonedRoom], address: &Address) -> bool
    ensures { IsTrue result ↔ Contains (addresses (map zoned_room zones.now)) (address_octets address.now) }
{
    zone_among(zones, address).is_some()
}

/// Whether each zone is of a room.
fn are_of_rooms(rooms: &[Address], zones: &[ZonedRoom]) -> bool
    ensures { result ≡ are_of_rooms rooms.now zones.now }
{
    zones.iter().all(|zone| has_address(rooms, &zone.address))
}

/// Whether one of the hosts has this address.
pub(crate) fn contains(hosts: &[Address], address: &Address) -> bool
    ensures { IsTrue result ↔ Contains (map address_octets hosts.now) (address_octets address.now) }
{
    has_address(hosts, address)
}

/// Whether an address is one of those of the hosts.
fn has_address(hosts: &[Address], address: &Address) -> bool
    ensures { result ≡ list_any (λ hosted. bytes_eq (address_octets hosted) (address_octets address.now)) hosts.now }
{
    hosts.iter().any(|hosted| *hosted == *address)
}

/// What every fault of a preamble or a configuration is: 90.
pub(crate) fn refused() -> Fault
    ensures refuses { RefusesOnly is_preamble_fault result }
{
    Fault::Refused(Refusal::BAD_PREAMBLE)
}

/// The first line without its LF or CRLF, and what follows it; None where there is no LF.
fn next_line(text: &str) -> Option<(&str, &str)>
    ensures split { MatchOption result (IsUnbroken text.now) (λ found. Breaks text.now found.0.now found.1.now) }
    ensures shorter { IfSome result (λ found. length found.1.now < length text.now) }
{
    let Some((whole, after)) = text.split_once('\n') else {
        return None;
    };
    match whole.strip_suffix('\r') {
        Some(line) => Some((line, after)),
        None => Some((whole, after)),
    }
}
