//! The words of an object for what an answer to it says: its names of zones, and its lines for instances.

ghost use Rattle.std.specs.Prelude.{◌≡◌, ℕ, ℤ, List, true, Contains, codes, map, IfOk, IfSome, OnOk};
ghost use Rattle.ical_lines.specs.Text.{line_text};
ghost use Rattle.ical_tree.specs.Tree.{component_lines, tree_of};
ghost use Rattle.profile.specs.text.Trees.{Tree, vevents};
ghost use Rattle.profile.specs.events.Properties.{Fixed, is_of, allows_form, time_kind};
ghost use Rattle.profile.specs.events.ZonedTimes.{SaysInstant};
ghost use Rattle.profile.specs.series.ZoneTexts.{SaysZone};
ghost use Rattle.cal_zones.specs.Kinds.{zone_of};
ghost use Rattle.cal_doors.specs.Named.{AreNamed};
ghost use Rattle.cal_doors.specs.Told.{is_event, AreZonesOf, AreAllInstancesOf, AreWordsOf, NamesSame, AreSameZone};

use crate::named::NamedZones;
use crate::uses::is_time_line;
use cal_zones::Zone;
use ical_lines::{Fault, Line};
use ical_tree::Component;
use ical_values::{LocalTime, Stamp};
use indexmap::IndexMap;
use std::alloc::{AllocError, Global};

/// The zones that an object names, by their names, in the order in which it names them.
pub(crate) type Zones = IndexMap<String, Zone>;

/// An instance that an object names.
#[derive(Clone, Copy)]
struct Instance<'r> {
    /// The line that names it.
    text: &'r str,
    instant: i64,
}

/// The words of an object, as a room reads it, for those of an answer to it.
#[derive(Drop)]
pub(crate) struct Words<'r> {
    /// The zones of the object.
    read: Zones,
    /// The zones of the answer.
    told: Zones,
    instances: Vec<Instance<'r>>,
}

impl<'r> Words<'r> {
    /// The words of an object for an answer.
    pub(crate) fn of(
        alloc: Global,
        read: &'r Component<'_>,
        told: &Component,
    ) -> Result<Words<'r>, AllocError>
        ensures { IfOk result (λ words. AreWordsOf (tree_of read.now) (tree_of told.now) words) }
    {
        let zones = zones_of(alloc, read)?;
        let instances = instances_of(alloc, read, &zones)?;
        let answered = zones_of(alloc, told)?;
        Ok(Words {
            read: zones,
            told: answered,
            instances,
        })
    }

    /// The line of the object for the instance that a line of the answer names. None where it names none, or one that the object doesn't.
    pub(crate) fn instance(&self, line: Line<'_>) -> Option<&'r str>
        ensures { IfSome result (λ text. (read answer : Tree) → AreWordsOf read answer self.now → NamesSame read answer (line_text line.entry) text.now) }
    {
        let instant = named_instant(line, &self.told)?;
        for instance in self.instances.iter() {
            if instance.instant == instant {
                return Some(instance.text);
            }
        }
        None
    }

    /// The name in the object of the zone that has this name in the answer: the first whose zone is the same.
    pub(crate) fn name(&self, name: &str) -> Option<&str> {
        let zone = self.told.get(name)?;
        for (new, other) in self.read.iter() {
            if other.is_same(zone) {
                return Some(new.as_str());
            }
        }
        None
    }

    /// Whether a name in the answer and one in the object mean the same zone.
    pub(crate) fn is_same_zone(&self, name: &str, new: &str) -> bool
        ensures { result ≡ true → (read answer : Tree) → AreWordsOf read answer self.now → AreSameZone read answer name.now new.now }
    {
        let Some(zone) = self.told.get(name) else {
            return false;
        };
        let Some(other) = self.read.get(new) else {
            return false;
        };
        zone.is_same(other)
    }
}

/// The zones that the VEVENTs of an object name, and that a room reads.
fn zones_of(alloc: Global, object: &Component) -> Result<Zones, AllocError>
    ensures { IfOk result (λ zones. AreZonesOf (tree_of object.now) zones.entries) }
{
    let named = NamedZones::of(alloc, object)?;
    let mut zones = IndexMap::new(alloc);
    for child in object.children() {
        if child.is_named("VEVENT") {
            add_zones(alloc, child, &named, &mut zones)?;
        }
    }
    Ok(zones)
}

/// Adds the zones that a VEVENT names.
fn add_zones(
    alloc: Global,
    event: &Component,
    named: &NamedZones<'_, '_>,
    zones: &mut Zones,
) -> Result<(), AllocError>
    requires { AreNamed named.now }
    ensures { OnOk result ((object : Tree) → object ≡ tree_of named.now.object.now → AreZonesOf object zones.old.entries → AreZonesOf object zones.new.entries) }
{
    for line in event.lines() {
        if is_time_line(line) {
            add_zone_of(alloc, line, named, zones)?;
        }
    }
    Ok(())
}

/// Adds the zone that a line names, if it names one.
fn add_zone_of(
    alloc: Global,
    line: Line<'_>,
    named: &NamedZones<'_, '_>,
    zones: &mut Zones,
) -> Result<(), AllocError>
    requires { AreNamed named.now }
    ensures { OnOk result ((object : Tree) → object ≡ tree_of named.now.object.now → AreZonesOf object zones.old.entries → AreZonesOf object zones.new.entries) }
{
    let Some(name) = line.param("TZID") else {
        return Ok(());
    };
    if zones.contains_key(name) {
        return Ok(());
    }
    let Some(part) = named.named(name) else {
        return Ok(());
    };
    let Some(zone) = read_zone(alloc, part)? else {
        return Ok(());
    };
    let name = String::from_str(alloc, name)?;
    zones.insert(name, zone)?;
    Ok(())
}

/// The zone that a VTIMEZONE says. None where a room reads none.
fn read_zone(alloc: Global, part: &Component) -> Result<Option<Zone>, AllocError>
    ensures { IfOk result (λ found. IfSome found (λ zone. SaysZone (tree_of part.now) (zone_of zone))) }
{
    match Zone::read(alloc, part) {
        Ok(zone) => Ok(Some(zone)),
        Err(Fault::Memory) => Err(AllocError),
        Err(Fault::Refused(_)) => Ok(None),
    }
}

/// The instances that the VEVENTs of an object name, whose zones these are.
fn instances_of<'r>(
    alloc: Global,
    object: &'r Component<'_>,
    zones: &Zones,
) -> Result<Vec<Instance<'r>>, AllocError>
    ensures { IfOk result (λ instances. AreZonesOf (tree_of object.now) zones.now.entries → AreAllInstancesOf (tree_of object.now) instances.items) }
{
    let mut instances = Vec::new(alloc);
    for child in object.children() {
        add_instances(child, zones, &mut instances)?;
    }
    Ok(instances)
}

/// Adds the instances that a component names, if it is a VEVENT.
fn add_instances<'r>(
    component: &'r Component<'_>,
    zones: &Zones,
    instances: &mut Vec<Instance<'r>>,
) -> Result<(), AllocError>
    ensures { OnOk result ((object : Tree) → AreZonesOf object zones.now.entries
        → (is_event component.now ≡ true → Contains (vevents object) (component_lines component.now))
        → AreAllInstancesOf object instances.old.items → AreAllInstancesOf object instances.new.items) }
{
    if !component.is_named("VEVENT") {
        return Ok(());
    }
    for line in component.lines() {
        add_instance(line, zones, instances)?;
    }
    Ok(())
}

/// Adds the instance that a line names, if it names one.
fn add_instance<'r>(
    line: Line<'r>,
    zones: &Zones,
    instances: &mut Vec<Instance<'r>>,
) -> Result<(), AllocError>
    ensures { OnOk result ((object : Tree) (lines : List (List ℕ)) → AreZonesOf object zones.now.entries → Contains (vevents object) lines
        → Contains lines (line_text line.entry) → AreAllInstancesOf object instances.old.items → AreAllInstancesOf object instances.new.items) }
{
    let Some(instant) = named_instant(line, zones) else {
        return Ok(());
    };
    let text = line.text();
    instances.push(Instance { text, instant })?;
    Ok(())
}

/// The instant of the instance that a line names. None where it names none, or not by a time that is fixed.
fn named_instant(line: Line<'_>, zones: &Zones) -> Option<i64>
    ensures named { IfSome result (λ instant. is_of (codes "RECURRENCE-ID") (line_text line.entry) ≡ true) }
    ensures says { IfSome result (λ instant. (object : Tree) → AreZonesOf object zones.now.entries → SaysInstant object (line_text line.entry) Fixed instant) }
{
    if !line.is_named("RECURRENCE-ID") {
        return None;
    }
    instant_of(line, zones)
}

/// The instant that a line says, in UTC or in one of these zones. None where it says none.
fn instant_of(line: Line<'_>, zones: &Zones) -> Option<i64>
    ensures { IfSome result (λ instant. (object : Tree) → AreZonesOf object zones.now.entries → SaysInstant object (line_text line.entry) Fixed instant) }
{
    if !may_be_fixed(line) {
        return None;
    }
    match line.param("TZID") {
        None => {
            let stamp = Stamp::read(line.value()).ok()?;
            Some(stamp.instant())
        }
        Some(name) => {
            let zone = zones.get(name)?;
            let local = LocalTime::read(line.value()).ok()?;
            Some(zone.resolve(local))
        }
    }
}

/// Whether a line is a date-time, or doesn't say what it is.
fn may_be_fixed(line: Line<'_>) -> bool
    ensures { result ≡ true → allows_form (time_kind (line_text line.entry)) Fixed ≡ true }
{
    match line.param("VALUE") {
        Some(word) => word.eq_ignore_ascii_case("DATE-TIME"),
        None => true,
    }
}
