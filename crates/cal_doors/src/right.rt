//! Whether an object that was made of another is right: it is read again, and compared.

ghost use Rattle.std.specs.Prelude.{◌≡◌, true, IfOk};
ghost use Rattle.ical_tree.specs.Tree.{component_lines, component_children};
ghost use Rattle.profile.specs.series.ZoneTexts.{SaysZone};
ghost use Rattle.profile.specs.text.Trees.{tree_own};
ghost use Rattle.profile.specs.doors.Adapting.{without_zones};
ghost use Rattle.cal_zones.specs.Kinds.{zone_of};
ghost use Rattle.cal_doors.specs.Used.{held};
ghost use Rattle.ical_tree.specs.Tree.{tree_of};
ghost use Rattle.cal_doors.specs.Named.{AreNamed};
ghost use Rattle.cal_doors.specs.Adapted.{IsRightlyAdapted, MeansNow, AllMeanNow, others_among};

use crate::changes::Changes;
use crate::named::NamedZones;
use crate::readable::{object_of, text_of};
use crate::uses::Uses;
use cal_zones::Zone;
use ical_lines::Fault;
use ical_tree::Component;
use std::alloc::{AllocError, Global};

/// Whether octets are an object with the lines of another, but for VTIMEZONEs; and whether of the names that are used each that changes means the
/// zone that takes its place, and each other one the same VTIMEZONE as before.
pub(crate) fn is_right(
    alloc: Global,
    octets: &[u8],
    before: &Component,
    uses: &Uses,
    zones: &NamedZones<'_, '_>,
    changes: &Changes,
) -> Result<bool, AllocError>
    requires before { zones.now.object.now ≡ before.now }
    requires named { AreNamed zones.now }
    ensures { IfOk result (λ right. right ≡ true → IsRightlyAdapted (tree_of before.now) uses.now.entries changes.now.entries octets.now) }
{
    let Some(text) = text_of(alloc, octets)? else {
        return Ok(false);
    };
    let Some(after) = object_of(alloc, &text)? else {
        return Ok(false);
    };
    if !are_same_but_zones(before, &after) {
        return Ok(false);
    }
    let now = NamedZones::of(alloc, &after)?;
    are_given(alloc, uses, zones, &now, changes)
}

/// Whether each name that is used means what it has to mean.
fn are_given(
    alloc: Global,
    uses: &Uses,
    before: &NamedZones<'_, '_>,
    now: &NamedZones<'_, '_>,
    changes: &Changes,
) -> Result<bool, AllocError>
    requires before { AreNamed before.now }
    requires now { AreNamed now.now }
    ensures { IfOk result (λ given. given ≡ true
        → AllMeanNow (tree_of before.now.object.now) (tree_of now.now.object.now) uses.now.entries changes.now.entries) }
{
    for (name, _) in uses.iter() {
        if !is_given(alloc, name.as_str(), before, now, changes)? {
            return Ok(false);
        }
    }
    Ok(true)
}

/// Whether a name means what it has to mean.
fn is_given(
    alloc: Global,
    name: &str,
    before: &NamedZones<'_, '_>,
    now: &NamedZones<'_, '_>,
    changes: &Changes,
) -> Result<bool, AllocError>
    requires before { AreNamed before.now }
    requires now { AreNamed now.now }
    ensures { IfOk result (λ given. given ≡ true
        → MeansNow (tree_of before.now.object.now) (tree_of now.now.object.now) name.now (held name.now changes.now.entries)) }
{
    let Some(zone) = now.named(name) else {
        return Ok(false);
    };
    match changes.get(name) {
        Some(choice) => says(alloc, zone, &choice.zone),
        None => match before.named(name) {
            Some(earlier) => Ok(zone.is_same(earlier)),
            None => Ok(false),
        },
    }
}

/// Whether a room reads a VTIMEZONE as this zone.
fn says(alloc: Global, zone: &Component, expected: &Zone) -> Result<bool, AllocError>
    ensures { IfOk result (λ same. same ≡ true → SaysZone (tree_of zone.now) (zone_of expected.now)) }
{
    match Zone::read(alloc, zone) {
        Ok(zone) => Ok(zone.is_same(expected)),
        Err(Fault::Memory) => Err(AllocError),
        Err(Fault::Refused(_)) => Ok(false),
    }
}

/// Whether two objects have the same lines and components, but for VTIMEZONEs.
fn are_same_but_zones(before: &Component, after: &Component) -> bool
    ensures own { result ≡ true → tree_own (tree_of after.now) ≡ tree_own (tree_of before.now) }
    ensures others { result ≡ true → without_zones (tree_of after.now) ≡ without_zones (tree_of before.now) }
{
    if !before.has_same_lines(after) {
        return false;
    }
    are_same_components(before.children(), after.children())
}

/// Whether components are the same, but for VTIMEZONEs.
fn are_same_components(before: &[Component], after: &[Component]) -> bool
    ensures { result ≡ true → others_among before.now ≡ others_among after.now }
{
    let mut left = after;
    for component in before {
        if component.is_named("VTIMEZONE") {
            continue;
        }
        left = past_zones(left);
        let [other, later @ ..] = left else {
            return false;
        };
        if !component.is_same(other) {
            return false;
        }
        left = later;
    }
    past_zones(left).is_empty()
}

/// What is left behind the VTIMEZONEs that come first.
pub(crate) fn past_zones<'s, 'a>(components: &'s [Component<'a>]) -> &'s [Component<'a>]
    ensures { others_among result.now ≡ others_among components.now }
{
    let mut left = components;
    while let [first, later @ ..] = left {
        if !first.is_named("VTIMEZONE") {
            return left;
        }
        left = later;
    }
    left
}
