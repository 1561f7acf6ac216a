//! Which VTIMEZONEs of an object have to change, and into what.

ghost use Rattle.std.specs.Prelude.{◌≡◌, true, false, map, option_map, string_bytes, IfOk, IfSome, Some};
ghost use Rattle.ical_tree.specs.Tree.{tree_of};
ghost use Rattle.cal_doors.specs.Named.{AreNamed};
ghost use Rattle.cal_doors.specs.Used.{AreUses};
ghost use Rattle.cal_doors.specs.Adapted.{IsListOfZones, listed_of, AreChanges, AreGoingOn, IsUseFor, IsNeeded, IsMeantZone};
ghost use Rattle.cal_doors.specs.Found.{general_of};
ghost use Rattle.profile.specs.text.Trees.{Tree};
ghost use Rattle.profile.specs.series.Zones as zones;
ghost use Rattle.profile.specs.series.GeneralZoneTexts.{SaysGeneralZone};
ghost use Rattle.profile.specs.events.ZonedTimes.{zone_named, SaysZoneOf};
ghost use Rattle.profile.specs.doors.Adapting.{SaysNothing};

use crate::choice::{Choice, choose};
use crate::named::NamedZones;
use crate::part::is_part;
use crate::uses::{Use, Uses};
use crate::zone::GeneralZone;
use cal_zones::{Zone, one_zone};
use ical_lines::Fault;
use ical_tree::Component;
use indexmap::IndexMap;
use std::alloc::{AllocError, Global};

/// The zones that take the place of VTIMEZONEs, by the names of these.
pub(crate) type Changes = IndexMap<String, Choice>;

/// What has to be done for a name.
enum Need {
    /// Nothing: a room reads its VTIMEZONE.
    Nothing,
    /// This takes its place.
    Change(Choice),
    /// Nothing can.
    Lost,
}

/// The zones that have to take the place of the VTIMEZONEs of an object, whose uses these are. None where one can't be had.
pub(crate) fn changes_of(
    alloc: Global,
    uses: &Uses,
    zones: &NamedZones<'_, '_>,
    listed: Option<&NamedZones<'_, '_>>,
) -> Result<Option<Changes>, AllocError>
    requires uses { AreUses (tree_of zones.now.object.now) uses.now.entries }
    requires zones { AreNamed zones.now }
    requires listed { IsListOfZones listed }
    ensures { IfOk result (λ found. IfSome found (λ changes. AreChanges (listed_of listed.entry) (tree_of zones.now.object.now) uses.now.entries changes.entries)) }
{
    let mut changes = IndexMap::new(alloc);
    for (name, times) in uses.iter() {
        match need_of(alloc, name.as_str(), *times, zones, listed)? {
            Need::Nothing => {}
            Need::Change(choice) => {
                let name = String::from_str(alloc, name.as_str())?;
                changes.insert(name, choice)?;
            }
            Need::Lost => return Ok(None),
        }
    }
    Ok(Some(changes))
}

/// What has to be done for a name.
fn need_of(
    alloc: Global,
    name: &str,
    times: Use,
    zones: &NamedZones<'_, '_>,
    listed: Option<&NamedZones<'_, '_>>,
) -> Result<Need, AllocError>
    requires zones { AreNamed zones.now }
    requires listed { IsListOfZones listed }
    requires times { IsUseFor (tree_of zones.now.object.now) name.now times }
    ensures { IfOk result (IsNeeded (listed_of listed.entry) (tree_of zones.now.object.now) name.now) }
{
    let own = zones.named(name);
    if is_read(alloc, own)? {
        return Ok(Need::Nothing);
    }
    let Some(general) = meant(alloc, own, name, listed)? else {
        return Ok(Need::Lost);
    };
    match choose(alloc, &general, times)? {
        Some(choice) => Ok(Need::Change(choice)),
        None => Ok(Need::Lost),
    }
}

/// Whether there is a VTIMEZONE that a room reads.
fn is_read(alloc: Global, zone: Option<&Component>) -> Result<bool, AllocError>
    ensures yes { IfOk result (λ read. read ≡ true → (said : zones.Zone) × SaysZoneOf (option_map (λ z. tree_of z.now) zone.entry) said) }
    ensures no { IfOk result (λ read. read ≡ false → (said : zones.Zone) → SaysZoneOf (option_map (λ z. tree_of z.now) zone.entry) said → ⊥) }
{
    let Some(zone) = zone else {
        return Ok(false);
    };
    // Only for the proof: a VTIMEZONE with a fault says no zone.
    one_zone();
    match Zone::read(alloc, zone) {
        Ok(_) => Ok(true),
        Err(Fault::Memory) => Err(AllocError),
        Err(Fault::Refused(_)) => Ok(false),
    }
}

/// The zone in general that a name means at the door: that of its own VTIMEZONE, or of that of the list where its own says nothing. None where
/// it means none.
fn meant(
    alloc: Global,
    own: Option<&Component>,
    name: &str,
    listed: Option<&NamedZones<'_, '_>>,
) -> Result<Option<GeneralZone>, AllocError>
    requires { IsListOfZones listed }
    ensures { IfOk result (λ found. IfSome found (λ general. (object : Tree) → option_map (λ z. tree_of z.now) own.entry ≡ zone_named name.now object
        → IsMeantZone (listed_of listed.entry) object name.now (general_of general))) }
{
    if let Some(zone) = own {
        if has_part(zone) {
            return general_zone(alloc, zone);
        }
    }
    let Some(listed) = listed else {
        return Ok(None);
    };
    let Some(zone) = listed.named(name) else {
        return Ok(None);
    };
    general_zone(alloc, zone)
}

/// Whether a VTIMEZONE has a part, STANDARD or DAYLIGHT.
fn has_part(zone: &Component) -> bool
    ensures yes { result ≡ true → SaysNothing (Some (tree_of zone.now)) → ⊥ }
    ensures no { result ≡ false → SaysNothing (Some (tree_of zone.now)) }
{
    for child in zone.children() {
        if is_part(child) {
            return true;
        }
    }
    false
}

/// The zone in general that a VTIMEZONE says. None where it says none.
fn general_zone(alloc: Global, zone: &Component) -> Result<Option<GeneralZone>, AllocError>
    ensures { IfOk result (λ found. IfSome found (λ general. SaysGeneralZone (tree_of zone.now) (general_of general))) }
{
    match GeneralZone::read(alloc, zone) {
        Ok(general) => Ok(Some(general)),
        Err(Fault::Memory) => Err(AllocError),
        Err(Fault::Refused(_)) => Ok(None),
    }
}

/// The names of the zones that go on beyond what is stated, and no others.
pub(crate) fn names_going_on(alloc: Global, changes: &Changes) -> Result<Vec<String>, AllocError>
    ensures { IfOk result (λ names. AreGoingOn changes.now.entries (map string_bytes names.items)) }
{
    let mut names = Vec::new(alloc);
    for (name, choice) in changes.iter() {
        if choice.goes_on {
            names.push(String::from_str(alloc, name.as_str())?)?;
        }
    }
    Ok(names)
}
