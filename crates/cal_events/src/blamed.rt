//! The UID that a calendar is refused for. The calendar is read once more for it, so it is asked of refused ones alone.

ghost use Rattle.std.specs.Prelude.{◌≡◌, ◌≢◌, map, AllPairs, IsTrue, IfOk, IfSome};
ghost use Rattle.std.specs.Str.{bytes_eq};
ghost use Rattle.ical_values.specs.Octets.{text_octets};
ghost use Rattle.ical_tree.specs.Tree.{component_lines, tree_of};
ghost use Rattle.profile.specs.checker.Blamed.{HasFaultWith, IsBlamed, IsBlamedIn, of_uid};
ghost use Rattle.profile.specs.series.RoomZones.{NamesRoomZone};
ghost use Rattle.cal_zones.specs.RoomZones.{room_of};
ghost use Rattle.cal_events.specs.Component.{component_of};
ghost use Rattle.cal_events.specs.Draft.{IsTwoOf, master_keys, override_keys};
ghost use Rattle.cal_events.specs.Names.{name_said};
ghost use Rattle.cal_events.specs.Zones.{object_of, AreRead};

use crate::component::EventComponent;
use crate::component_values::read_uid;
use crate::draft::{keys_of_masters, keys_of_overrides};
use crate::entries::Entries;
use crate::neighbours::has_equal_neighbours;
use crate::reading::{read_events, read_room_zone};
use crate::zones::ZonesOfObject;
use cal_zones::RoomZone;
use ical_lines::{Fault, Limits, Refusal, Unfolded};
use ical_tree::{Component, Object, Properties};
use ical_values::Text;
use std::alloc::{AllocError, Global};

/// The UID of the VEVENT that has the fault of this number in the calendar that the octets are, or of two masters of one meeting (53), or of two
/// overrides of one instance (54). None where the fault is in no VEVENT, or that one says no UID. In time n log n.
pub fn blamed_uid(alloc: Global, bytes: &[u8], number: u8) -> Result<Option<Text>, AllocError>
    ensures { IfOk result (λ found. IfSome found (λ uid. IsBlamed bytes.now number (text_octets uid))) }
{
    match uid_in(alloc, bytes, number) {
        Ok(found) => Ok(found),
        Err(Fault::Refused(_)) => Ok(None),
        Err(Fault::Memory) => Err(AllocError),
    }
}

/// The same, where the octets are an object.
fn uid_in(alloc: Global, bytes: &[u8], number: u8) -> Result<Option<Text>, Fault>
    ensures { IfOk result (λ found. IfSome found (λ uid. IsBlamed bytes.now number (text_octets uid))) }
{
    let text = Unfolded::read(alloc, bytes, Limits::Open)?;
    let object = Object::read(alloc, &text, Limits::Open)?;
    if let Some(uid) = faulty_uid(alloc, &object.calendar, number)? {
        return Ok(Some(uid));
    }
    let zone = read_room_zone(alloc, &object.own)?;
    twin_uid(alloc, &object.calendar, &zone, number)
}

/// That of the first VEVENT of an object that is refused so.
fn faulty_uid(alloc: Global, object: &Component, number: u8) -> Result<Option<Text>, Fault>
    ensures { IfOk result (λ found. IfSome found (λ uid. IsBlamedIn (tree_of object.now) (text_octets uid) number)) }
{
    let zones = ZonesOfObject::of(alloc, object)?;
    for component in object.children() {
        if component.is_named("VEVENT") {
            if let Some(uid) = uid_of_faulty(alloc, &zones, component, number)? {
                return Ok(Some(uid));
            }
        }
    }
    Ok(None)
}

/// That of a VEVENT, if it is refused so.
fn uid_of_faulty(
    alloc: Global,
    zones: &ZonesOfObject<'_, '_>,
    component: &Component,
    number: u8,
) -> Result<Option<Text>, Fault>
    requires zones { AreRead zones.now }
    ensures { IfOk result (λ found. IfSome found (λ uid. HasFaultWith (object_of zones.now) (text_octets uid) number (component_lines component.now))) }
{
    let properties = Properties::of(alloc, component)?;
    match EventComponent::read(alloc, zones, &properties, None) {
        Ok(_) => Ok(None),
        Err(Fault::Memory) => Err(Fault::Memory),
        Err(Fault::Refused(refusal)) => {
            if refusal.number != number {
                return Ok(None);
            }
            let uid = read_uid(alloc, &properties, None)?;
            Ok(Some(uid))
        }
    }
}

/// That of two masters of one meeting, or of two overrides of one instance, among the events of an object in a room of this zone.
fn twin_uid(
    alloc: Global,
    object: &Component,
    zone: &RoomZone,
    number: u8,
) -> Result<Option<Text>, Fault>
    ensures { NamesRoomZone (component_lines object.now) (room_of zone.now) → IfOk result (λ found. IfSome found (λ uid. IsBlamedIn (tree_of object.now) (text_octets uid) number)) }
{
    let events = read_events(alloc, object, None, zone)?;
    let Some(uid) = equal_uid(alloc, &events, number)? else {
        return Ok(None);
    };
    if !are_twins(alloc, &events, &uid, number)? {
        return Ok(None);
    }
    Ok(Some(uid))
}

/// That of the first two keys that are equal. No clause says so: `are_twins` judges it.
fn equal_uid(
    alloc: Global,
    events: &[EventComponent],
    number: u8,
) -> Result<Option<Text>, AllocError> {
    let mut entries = Entries::new(alloc);
    for event in events {
        entries.push(alloc, event)?;
    }
    let keys = if number == Refusal::TWO_MASTERS.number {
        keys_of_masters(alloc, &entries)?
    } else {
        keys_of_overrides(alloc, &entries)?
    };
    for next in 1..keys.len() {
        if keys[next - 1] == keys[next] {
            let uid = Text::of(alloc, keys[next].uid)?;
            return Ok(Some(uid));
        }
    }
    Ok(None)
}

/// Whether two of the events of a UID are masters of one meeting, or, as the number asks, overrides of one instance.
fn are_twins(
    alloc: Global,
    events: &[EventComponent],
    uid: &Text,
    number: u8,
) -> Result<bool, AllocError>
    ensures { IfOk result (λ are. IsTrue are → IsTwoOf (of_uid (text_octets uid.now) (map component_of events.now)) number) }
{
    let entries = entries_of(alloc, events, uid)?;
    match number {
        53 => have_twin_masters(alloc, &entries),
        54 => have_twin_overrides(alloc, &entries),
        _ => Ok(false),
    }
}

fn have_twin_masters(alloc: Global, entries: &Entries) -> Result<bool, AllocError>
    ensures { IfOk result (λ have. IsTrue have → AllPairs ◌≢◌ (master_keys entries.now) → ⊥) }
{
    let keys = keys_of_masters(alloc, entries)?;
    Ok(has_equal_neighbours(&keys))
}

fn have_twin_overrides(alloc: Global, entries: &Entries) -> Result<bool, AllocError>
    ensures { IfOk result (λ have. IsTrue have → AllPairs ◌≢◌ (override_keys entries.now) → ⊥) }
{
    let keys = keys_of_overrides(alloc, entries)?;
    Ok(has_equal_neighbours(&keys))
}

/// The events of a UID, as entries of a calendar.
fn entries_of(alloc: Global, events: &[EventComponent], uid: &Text) -> Result<Entries, AllocError>
    ensures { IfOk result (λ entries. entries ≡ map name_said (of_uid (text_octets uid.now) (map component_of events.now))) }
{
    let mut entries = Entries::new(alloc);
    for event in events {
        if is_of_uid(event, uid) {
            entries.push(alloc, event)?;
        }
    }
    Ok(entries)
}

fn is_of_uid(event: &EventComponent, uid: &Text) -> bool
    ensures { result ≡ bytes_eq (component_of event.now).uid (text_octets uid.now) }
{
    event.uid.as_str() == uid.as_str()
}
