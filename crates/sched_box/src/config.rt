//! The configuration of a box: its rooms and its organisers. It is written in lines, ended by LF or
//! CRLF, `room ADDRESS`, `zone ADDRESS WORDS` or `organiser ADDRESS` each, in any order, ended by an empty line or by the end
//! of the input; a preamble has one line `now STAMP` among them. A room without `zone` goes by UTC. This format is roombox's own.
ghost use Rattle.std.specs.Prelude.{◌≡◌, ◌≢◌, map, AllPairs, Contains, IfOk, IfErr, IfNone, IfSome};
ghost use Rattle.ical_lines.specs.Fault.{RefusesOnly};
ghost use Rattle.ical_values.specs.Octets.{address_octets};
ghost use Rattle.ical_values.specs.Refused.{IfRefused};
ghost use Rattle.profile.specs.faults.Faults.{is_preamble_fault};
ghost use Rattle.profile.specs.streams.Streams.{addresses, room_in};
ghost use Rattle.cal_zones.specs.RoomZones.{room_of, words_of};
ghost use Rattle.sched_box.specs.Settings.{ReadsSettings, ReadsNone, zoned_room};

use crate::settings::{Settings, ZonedRoom, contains, refused, zone_among};
use cal_zones::RoomZone;
use ical_lines::Fault;
use ical_values::{Address, Stamp};
use std::alloc::{AllocError, Global};
use std::str;

/// The most octets of a preamble or a configuration, the empty line at its end included.
pub const LONGEST: usize = 65_536;

/// The rooms, each in its zone, and the organisers that a box hosts.
#[derive(Drop)]
pub struct Config {
    rooms: Vec<ZonedRoom>,
    organisers: Vec<Address>,
    ghost rooms_differ: { AllPairs ◌≢◌ (addresses (map zoned_room rooms.items)) },
    ghost organisers_differ: { AllPairs ◌≢◌ (map address_octets organisers.items) },
}

impl Config {
    ghost use Rattle.std.specs.Prelude.{◌≡◌, ◌≢◌, ◌↔◌, ℕ, List, [], map, Bool, ℤ, AllPairs, Contains, IsTrue, IfOk, IfErr, IfNone, IfSome};
    ghost use Rattle.cal_zones.specs.RoomZones.{room_of, words_of};
    ghost use Rattle.ical_lines.specs.Fault.{RefusesOnly};
    ghost use Rattle.ical_values.specs.Octets.{address_octets};
    ghost use Rattle.ical_values.specs.Refused.{IfRefused};
    ghost use Rattle.profile.specs.faults.Faults.{is_preamble_fault};
    ghost use Rattle.profile.specs.streams.Streams.{Config as SaidConfig, IsPreamble, IsConfiguration, room_in};
    ghost use Rattle.sched_box.specs.Config.{config_hosts, config_organisers, config_rooms};
    ghost use Rattle.sched_box.specs.Settings.{organisers_of, rooms_of, zones_of};

    /// The configuration that a file spells: a preamble without its `now`.
    /// Refused: 90.
    pub fn read(alloc: Global, bytes: &[u8]) -> Result<Config, Fault>
        ensures reads { IfOk result (λ config. (closed : Bool) × IsConfiguration closed bytes.now (config_hosts config)) }
        ensures refuses { IfErr result (RefusesOnly is_preamble_fault) }
        ensures none { IfErr result (IfRefused ((closed : Bool) (hosts : SaidConfig) → IsConfiguration closed bytes.now hosts → ⊥)) }
    {
        let settings = read_settings(alloc, bytes)?;
        match settings.moment {
            None => Ok(Config::of(alloc, settings)?),
            Some(_) => Err(refused()),
        }
    }

    /// The configuration and the moment that a preamble spells.
    /// Refused: 90.
    pub fn read_with_now(alloc: Global, bytes: &[u8]) -> Result<(Config, Stamp), Fault>
        ensures reads { IfOk result (λ read. (closed : Bool) × IsPreamble closed bytes.now read.1 (config_hosts read.0)) }
        ensures refuses { IfErr result (RefusesOnly is_preamble_fault) }
        ensures none { IfErr result (IfRefused ((closed : Bool) (moment : ℤ) (hosts : SaidConfig) → IsPreamble closed bytes.now moment hosts → ⊥)) }
    {
        let settings = read_settings(alloc, bytes)?;
        match settings.moment {
            Some(moment) => Ok((Config::of(alloc, settings)?, moment)),
            None => Err(refused()),
        }
    }

    /// The hosts that settings name, each room in the zone that a line gives it, else in UTC. It fails only when out of memory.
    fn of(alloc: Global, settings: Settings) -> Result<Config, AllocError>
        requires rooms { AllPairs ◌≢◌ (rooms_of settings) }
        requires organisers { AllPairs ◌≢◌ (organisers_of settings) }
        ensures rooms { IfOk result (λ config. (config_hosts config).rooms ≡ map (room_in (zones_of settings)) (rooms_of settings)) }
        ensures organisers { IfOk result (λ config. config_organisers config ≡ organisers_of settings) }
    {
        let Settings {
            rooms: addresses,
            zones,
            organisers,
            moment: _,
        } = settings;
        let mut rooms = Vec::new(alloc);
        for address in addresses {
            let zone = zone_of(&zones, &address);
            rooms.push(ZonedRoom { address, zone })?;
        }
        Ok(Config { rooms, organisers })
    }

    /// The rooms, each in its zone, in the order of their lines: no two have one address.
    pub fn rooms(&self) -> &[ZonedRoom]
        ensures rooms { result.now ≡ self.now.rooms.items }
        ensures differ { AllPairs ◌≢◌ (config_rooms self.now) }
    {
        self.rooms.as_slice()
    }

    /// The organisers, in the order of the lines: no two have one address.
    pub fn organisers(&self) -> &[Address]
        ensures organisers { result.now ≡ self.now.organisers.items }
        ensures differ { AllPairs ◌≢◌ (config_organisers self.now) }
    {
        self.organisers.as_slice()
    }

    /// Whether the box hosts a room of this address.
    pub fn has_room(&self, room: &Address) -> bool
        ensures { IsTrue result ↔ Contains (config_rooms self.now) (address_octets room.now) }
    {
        self.zone(room).is_some()
    }

    /// Whether the box hosts an organiser of this address.
    pub fn has_organiser(&self, organiser: &Address) -> bool
        ensures { IsTrue result ↔ Contains (config_organisers self.now) (address_octets organiser.now) }
    {
        contains(self.organisers.as_slice(), organiser)
    }

    /// The zone of the room of this address, UTC where no line gives one; None where the box doesn't host it.
    pub fn zone(&self, room: &Address) -> Option<&RoomZone>
        ensures found { IfSome result (λ zone. Contains (config_hosts self.now).rooms
            (record { address = address_octets room.now; words = words_of zone.now; zone = room_of zone.now })) }
        ensures none { IfNone result (Contains (config_rooms self.now) (address_octets room.now) → ⊥) }
    {
        zone_in(self.rooms.as_slice(), room)
    }
}

/// The zone of the room of this address, which is one of these.
fn zone_in<'a>(rooms: &'a [ZonedRoom], address: &Address) -> Option<&'a RoomZone>
    ensures found { IfSome result (λ zone. Contains (map zoned_room rooms.now)
        (record { address = address_octets address.now; words = words_of zone.now; zone = room_of zone.now })) }
    ensures none { IfNone result (Contains (addresses (map zoned_room rooms.now)) (address_octets address.now) → ⊥) }
{
    for room in rooms {
        if room.address == *address {
            return Some(&room.zone);
        }
    }
    None
}

/// The zone of the room of this address: that which a line gives it, else UTC.
fn zone_of(zones: &[ZonedRoom], address: &Address) -> RoomZone
    ensures { record { address = address_octets address.now; words = words_of result; zone = room_of result }
        ≡ room_in (map zoned_room zones.now) (address_octets address.now) }
{
    match zone_among(zones, address) {
        Some(zone) => zone,
        None => RoomZone::utc(),
    }
}

/// The settings of a preamble or a configuration, in at most 65,536 octets of UTF-8: at least one room or
/// organiser, and no zone but of a room.
/// Refused: 90.
fn read_settings(alloc: Global, bytes: &[u8]) -> Result<Settings, Fault>
    ensures reads { IfOk result (λ settings. ReadsSettings settings bytes.now) }
    ensures refuses { IfErr result (RefusesOnly is_preamble_fault) }
    ensures none { IfErr result (IfRefused (ReadsNone bytes.now)) }
{
    if bytes.len() > LONGEST {
        return Err(refused());
    }
    let Ok(text) = str::from_utf8(bytes) else {
        return Err(refused());
    };
    let settings = Settings::read(alloc, text)?;
    if settings.rooms.is_empty() && settings.organisers.is_empty() {
        return Err(refused());
    }
    if !settings.are_zones_of_rooms() {
        return Err(refused());
    }
    Ok(settings)
}
