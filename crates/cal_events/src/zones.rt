//! The VTIMEZONEs of an object by their names, each read once for all lines that name it (RFC 5545 3.2.19, 3.6.5, 3.8.3.1).
//! What is wrong with one is reported where a line names it: a VTIMEZONE that no line names refuses nothing.

ghost use Rattle.std.specs.Prelude.{◌≡◌, ◌∷◌, ◌++◌, [], List, IfOk, IfErr, OnOk};
ghost use Rattle.ical_tree.specs.declared.component.Component.{Component};
ghost use Rattle.profile.specs.events.ZonedTimes.{zone_named, SaysZoneOf, NamedFault};
ghost use Rattle.cal_zones.specs.Kinds.{zone_of};
ghost use Rattle.profile.specs.events.EventBlame.{NamedBlame};
ghost use Rattle.cal_events.specs.Blame.{zones_of};
ghost use Rattle.cal_events.specs.Zones.{AreZonesAmong, IsZoneRead, object_of, AreRead};

use cal_zones::{Zone, zone_name};
use ical_lines::{Fault, Refusal};
use ical_tree::Component;
use indexmap::IndexMap;
use std::alloc::{AllocError, Global};

/// What the VTIMEZONEs of some names say, or what is wrong with them.
type ByName = IndexMap<String, Result<Zone, Refusal>>;

/// The VTIMEZONEs of an object.
// What they say is beside it as a premise and not as an invariant: that a zone is said can hold in several ways.
#[derive(Drop)]
pub(crate) struct ZonesOfObject<'c, 'a> {
    object: &'c Component<'a>,
    by_name: ByName,
}

impl<'c, 'a> ZonesOfObject<'c, 'a> {
    /// The VTIMEZONEs directly inside an object. It fails only when out of memory.
    pub(crate) fn of(
        alloc: Global,
        object: &'c Component<'a>,
    ) -> Result<ZonesOfObject<'c, 'a>, AllocError>
        ensures object { IfOk result (λ zones. zones.object.now ≡ object.now) }
        ensures read { IfOk result AreRead }
    {
        let mut by_name = IndexMap::new(alloc);
        for child in object.children() {
            add_zone(alloc, &mut by_name, child)?;
        }
        Ok(ZonesOfObject { object, by_name })
    }

    /// The zone that a name means: what the first VTIMEZONE of that name says. Names are compared octet by octet.
    /// Refused: 43 where no VTIMEZONE has it, at the line of this number, which names it; 11, 13 and 40 to 42 as by `Zone::read`.
    pub(crate) fn named(&self, name: &str, line: usize) -> Result<Zone, Refusal>
        requires { AreRead self.now }
        ensures says { IfOk result (λ zone. SaysZoneOf (zone_named name.now (object_of self.now)) (zone_of zone)) }
        ensures fault { IfErr result (λ e. NamedFault (zone_named name.now (object_of self.now)) e.number) }
        ensures at { IfErr result (λ e. NamedBlame (zones_of self.now) line name.now e.number e.line) }
    {
        match self.by_name.get(name) {
            Some(zone) => *zone,
            None => Err(Refusal::NO_ZONE.at(line)),
        }
    }
}

/// Adds a component, where it is the first VTIMEZONE of its name.
fn add_zone(alloc: Global, by_name: &mut ByName, component: &Component) -> Result<(), AllocError>
    ensures { OnOk result ((earlier : List Component) → AreZonesAmong earlier by_name.old.entries
        → AreZonesAmong (earlier ++ component.now ∷ []) by_name.new.entries) }
{
    let Some(name) = zone_name(alloc, component)? else {
        return Ok(());
    };
    if by_name.contains_key(name.as_str()) {
        return Ok(());
    }
    let zone = read_zone(alloc, component)?;
    by_name.insert(name, zone)?;
    Ok(())
}

/// What a VTIMEZONE says, or what is wrong with it.
fn read_zone(alloc: Global, component: &Component) -> Result<Result<Zone, Refusal>, AllocError>
    ensures { IfOk result (IsZoneRead component.now) }
{
    match Zone::read(alloc, component) {
        Ok(zone) => Ok(Ok(zone)),
        Err(Fault::Refused(refusal)) => Ok(Err(refusal)),
        Err(Fault::Memory) => Err(AllocError),
    }
}
