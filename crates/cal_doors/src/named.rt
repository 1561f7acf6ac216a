//! The VTIMEZONEs of an object by their names (RFC 5545 3.2.19, 3.8.3.1).

ghost use Rattle.std.specs.Prelude.{◌≡◌, ◌++◌, ◌∷◌, [], List, option_map, IfOk, OnOk};
ghost use Rattle.ical_tree.specs.Tree.{tree_of};
ghost use Rattle.ical_tree.specs.declared.component.Component.{Component};
ghost use Rattle.profile.specs.events.ZonedTimes.{zone_named};
ghost use Rattle.cal_doors.specs.Named.{AreNamedAmong, AreNamed};

use cal_zones::zone_name;
use ical_tree::Component;
use indexmap::IndexMap;
use std::alloc::{AllocError, Global};

/// The VTIMEZONEs of some names.
type ByName<'c, 'a> = IndexMap<String, &'c Component<'a>>;

/// The VTIMEZONEs of an object.
#[derive(Drop)]
pub struct NamedZones<'c, 'a> {
    object: &'c Component<'a>,
    by_name: ByName<'c, 'a>,
}

impl<'c, 'a> NamedZones<'c, 'a> {
    /// Those directly inside an object. Fails only when out of memory.
    pub fn of(alloc: Global, object: &'c Component<'a>) -> Result<NamedZones<'c, 'a>, AllocError>
        ensures object { IfOk result (λ zones. zones.object.now ≡ object.now) }
        ensures named { IfOk result AreNamed }
    {
        let mut by_name = IndexMap::new(alloc);
        for child in object.children() {
            add_zone(alloc, &mut by_name, child)?;
        }
        Ok(NamedZones { object, by_name })
    }

    /// The VTIMEZONE that a name means: the first that has it. Names are compared octet by octet.
    pub fn named(&self, name: &str) -> Option<&'c Component<'a>>
        requires { AreNamed self.now }
        ensures { option_map (λ zone. tree_of zone.now) result ≡ zone_named name.now (tree_of self.now.object.now) }
    {
        match self.by_name.get(name) {
            Some(zone) => Some(*zone),
            None => None,
        }
    }
}

/// Adds a component, where it is the first VTIMEZONE of its name.
fn add_zone<'c, 'a>(
    alloc: Global,
    by_name: &mut ByName<'c, 'a>,
    component: &'c Component<'a>,
) -> Result<(), AllocError>
    ensures { OnOk result ((earlier : List Component) → AreNamedAmong earlier by_name.old.entries
        → AreNamedAmong (earlier ++ component.now ∷ []) by_name.new.entries) }
{
    let Some(name) = zone_name(alloc, component)? else {
        return Ok(());
    };
    if by_name.contains_key(name.as_str()) {
        return Ok(());
    }
    by_name.insert(name, component)?;
    Ok(())
}
