//! Events in a room: times that aren't fixed are read on the room's clocks (RFC 5545 3.3.4, 3.3.5, form 1).

ghost use Rattle.std.specs.Prelude.{◌≡◌, true, map, option_map, unwrap_or, IfOk};
ghost use Rattle.std.specs.List.{AllZip, list_all};
ghost use Rattle.profile.specs.events.Properties.{BothOrNeither, is_fixed};
ghost use Rattle.profile.specs.events.Placed.{IsAt, IsPlaced, is_all_fixed};
ghost use Rattle.cal_events.specs.Component.{component_of, time_of};
ghost use Rattle.cal_events.specs.InRoom.{AreInstancesIn, ArePlacedTimes, IsPlacedCopy};
ghost use Rattle.cal_events.specs.Said.{IsWritten};
ghost use Rattle.cal_zones.specs.RoomZones.{room_of};

use crate::component::EventComponent;
use crate::event_times::{EventTimes, resolve};
use crate::instance::Single;
use crate::occurrences::WrittenTimes;
use crate::series::Series;
use crate::time::Time;
use crate::when::Form;
use cal_zones::RoomZone;
use ical_values::{Stamp, Text};
use std::alloc::{AllocError, Global};

/// The times of an event in a room.
#[derive(Drop)]
struct PlacedTimes {
    times: EventTimes,
    recurrence: Option<i64>,
    additions: Vec<i64>,
    exceptions: Vec<i64>,
}

impl EventComponent {
    /// An event that was read as it is in a room of this zone. It fails only when out of memory.
    pub(crate) fn placed(self, alloc: Global, room: &RoomZone) -> Result<EventComponent, AllocError>
        requires { ∥ IsWritten (component_of self) ∥₁ }
        ensures { IfOk result (λ placed. IsPlaced (room_of room.now) (component_of self) (component_of placed) × (placed.begun ≡ self.begun)) }
    {
        // Only for the proof: the words of the room mean it.
        room.words_mean();
        let PlacedTimes {
            times,
            recurrence,
            additions,
            exceptions,
        } = self.times_in(alloc, room)?;
        let EventComponent {
            begun,
            uid,
            organiser,
            stamp,
            sequence,
            cancelled,
            rule,
            written,
            summary,
            attendees,
            ..
        } = self;
        Ok(EventComponent {
            begun,
            uid,
            organiser,
            stamp,
            sequence,
            cancelled,
            recurrence,
            times,
            rule,
            additions,
            exceptions,
            written,
            summary,
            attendees,
        })
    }

    /// The instances in a room of this zone of an event that was read: those that its RRULE doesn't give, as `singles` has them, and those that
    /// it gives, as `series` has them. It fails only when out of memory.
    pub fn instances_in(
        &self,
        alloc: Global,
        room: &RoomZone,
    ) -> Result<(Vec<Single>, Option<Series>), AllocError>
        requires { ∥ IsWritten (component_of self.now) ∥₁ }
        ensures { IfOk result (λ found. AreInstancesIn (room_of room.now) (component_of self.now) found.0.items found.1) }
    {
        let placed = self.placed_copy(alloc, room)?;
        let singles = placed.singles(alloc)?;
        let series = placed.series(alloc)?;
        Ok((singles, series))
    }

    /// A copy of an event that was read, as it is in a room of this zone, without its SUMMARY, who attends and how its times are written. It fails
    /// only when out of memory.
    fn placed_copy(&self, alloc: Global, room: &RoomZone) -> Result<EventComponent, AllocError>
        requires { ∥ IsWritten (component_of self.now) ∥₁ }
        ensures { IfOk result (λ copy. IsPlacedCopy (room_of room.now) (component_of self.now) (component_of copy)) }
    {
        // Only for the proof: the words of the room mean it.
        room.words_mean();
        let PlacedTimes {
            times,
            recurrence,
            additions,
            exceptions,
        } = self.times_in(alloc, room)?;
        let uid = self.uid.clone()?;
        let organiser = self.organiser.clone()?;
        let rule = self.rule.clone()?;
        let summary = Text::of(alloc, "")?;
        Ok(EventComponent {
            begun: self.begun,
            uid,
            organiser,
            stamp: self.stamp,
            sequence: self.sequence,
            cancelled: self.cancelled,
            recurrence,
            times,
            rule,
            additions,
            exceptions,
            written: WrittenTimes::new(alloc),
            summary,
            attendees: Vec::new(alloc),
        })
    }

    /// The times of an event that was read in a room of this zone. It fails only when out of memory.
    fn times_in(&self, alloc: Global, room: &RoomZone) -> Result<PlacedTimes, AllocError>
        requires { ∥ IsWritten (component_of self.now) ∥₁ }
        ensures { IfOk result (ArePlacedTimes (room_of room.now) (component_of self.now)) }
    {
        // Only for the proof: the words of the room mean it.
        room.words_mean();
        let times = self.times;
        let start = Time {
            form: times.start.form(),
            instant: times.instant.instant(),
        };
        let Some(instant) = Stamp::of_instant(start.instant_in(room)) else {
            unreachable!()
        };
        let recurrence = slot_in(room, self.written.recurrence);
        let additions = instants_in(alloc, room, &self.written.additions)?;
        let exceptions = instants_in(alloc, room, &self.written.exceptions)?;
        Ok(PlacedTimes {
            times: EventTimes {
                start: times.start.in_room(room.own_zone()),
                instant,
                length: times.length,
            },
            recurrence,
            additions,
            exceptions,
        })
    }

    /// Whether each of its times is fixed: then it is the same event in each room.
    pub fn is_all_fixed(&self) -> bool
        ensures { result ≡ is_all_fixed (component_of self.now) }
    {
        self.times.start.form().is_fixed()
            && is_slot_fixed(self.written.recurrence)
            && are_fixed(&self.written.additions)
            && are_fixed(&self.written.exceptions)
    }
}

impl Time {
    /// The instant of the time in a room of this zone, in seconds from 1970-01-01T00:00:00Z.
    pub fn instant_in(self, room: &RoomZone) -> i64
        ensures { IsAt (room_of room.now) (time_of self) result }
    {
        match self.form {
            Form::Fixed => self.instant,
            Form::Floating => resolve(&room.zone(), self.instant),
            Form::WholeDay => resolve(&room.zone(), self.instant),
        }
    }
}

/// The instant of the time in a room of this zone, where there is one.
fn slot_in(room: &RoomZone, time: Option<Time>) -> Option<i64>
    ensures { BothOrNeither (IsAt (room_of room.now)) (option_map time_of time) result }
{
    match time {
        Some(time) => Some(time.instant_in(room)),
        None => None,
    }
}

/// The instants of times in a room of this zone, in their order. It fails only when out of memory.
fn instants_in(alloc: Global, room: &RoomZone, times: &[Time]) -> Result<Vec<i64>, AllocError>
    ensures { IfOk result (λ instants. AllZip (IsAt (room_of room.now)) (map time_of times.now) instants.items) }
{
    let mut instants = Vec::new(alloc);
    for time in times {
        instants.push(time.instant_in(room))?;
    }
    Ok(instants)
}

/// Whether a time, where there is one, is fixed.
fn is_slot_fixed(time: Option<Time>) -> bool
    ensures { result ≡ unwrap_or (option_map (λ time. is_fixed time.form) (option_map time_of time)) true }
{
    match time {
        Some(time) => time.form.is_fixed(),
        None => true,
    }
}

/// Whether each of these times is fixed.
fn are_fixed(times: &[Time]) -> bool
    ensures { result ≡ list_all (λ time. is_fixed time.form) (map time_of times.now) }
{
    is_each_fixed(times)
}

fn is_each_fixed(times: &[Time]) -> bool
    ensures { result ≡ list_all (λ time. is_fixed (time_of time).form) times.now }
{
    times.iter().all(|time| time.form.is_fixed())
}
