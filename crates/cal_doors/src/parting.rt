//! The VEVENTs of an object, each in an object of its own.

ghost use Rattle.std.specs.Prelude.{◌≡◌, ◌∷◌, [], ℕ, List, Some, true, map, codes, IfOk, IfSome};
ghost use Rattle.std.specs.List.{AllZip};
ghost use Rattle.ical_lines.specs.Text.{line_text};
ghost use Rattle.profile.specs.text.Lines.{line_param};
ghost use Rattle.ical_tree.specs.Runs.{lines_left};
ghost use Rattle.ical_tree.specs.Tree.{component_children, component_lines, tree_of};
ghost use Rattle.profile.specs.events.ZonedTimes.{zone_named};
ghost use Rattle.profile.specs.doors.Uses.{is_time_line, IsLineIn};
ghost use Rattle.profile.specs.doors.Returning.{IsSplit};
ghost use Rattle.cal_doors.specs.Named.{AreNamed};
ghost use Rattle.cal_doors.specs.Told.{events_among, trees_among, IsSingleOf};
ghost use Rattle.cal_doors.specs.Adapted.{others_among};

use crate::named::NamedZones;
use crate::readable::{object_of, text_of};
use crate::retold::{Names, note_zone, write_lines};
use crate::right::past_zones;
use crate::told::from_event;
use crate::uses::is_time_line;
use ical_lines::{Line, write_property};
use ical_tree::{Component, OwnLines, write_object};
use indexmap::IndexMap;
use std::alloc::{AllocError, Global};

/// The VEVENTs of an object, each with all that is inside it in an object of its own: with the own lines of the object, and with the VTIMEZONEs that it names.
/// None where there aren't at least two, or it is no object within the limits of a message. What is made is read again, and handed on only if it is
/// right: where one isn't, as if it is beyond those limits with its lines folded, there is None either.
pub fn split(alloc: Global, octets: &[u8]) -> Result<Option<Vec<Vec<u8>>>, AllocError>
    ensures { IfOk result (λ found. IfSome found (λ parts. IsSplit octets.now (map (λ part. part.items) parts.items))) }
{
    let Some(text) = text_of(alloc, octets)? else {
        return Ok(None);
    };
    let Some(whole) = object_of(alloc, &text)? else {
        return Ok(None);
    };
    let zones = NamedZones::of(alloc, &whole)?;
    let Some(parts) = parts_of(alloc, &whole, &zones)? else {
        return Ok(None);
    };
    if parts.len() < 2 {
        return Ok(None);
    }
    Ok(Some(parts))
}

/// An object for each VEVENT of an object. None where one isn't right.
fn parts_of(
    alloc: Global,
    whole: &Component,
    zones: &NamedZones<'_, '_>,
) -> Result<Option<Vec<Vec<u8>>>, AllocError>
    requires zones { AreNamed zones.now }
    requires whole { zones.now.object.now ≡ whole.now }
    ensures { IfOk result (λ found. IfSome found (λ parts.
        AllZip (IsSingleOf (tree_of whole.now)) (trees_among (component_children whole.now)) (map (λ part. part.items) parts.items))) }
{
    let mut parts = Vec::new(alloc);
    for child in whole.children() {
        if !child.is_named("VEVENT") {
            continue;
        }
        let Some(part) = part_of(alloc, whole, child, zones)? else {
            return Ok(None);
        };
        parts.push(part)?;
    }
    Ok(Some(parts))
}

/// An object of one VEVENT of an object. None where it isn't right.
fn part_of(
    alloc: Global,
    whole: &Component,
    event: &Component,
    zones: &NamedZones<'_, '_>,
) -> Result<Option<Vec<u8>>, AllocError>
    requires zones { AreNamed zones.now }
    requires whole { zones.now.object.now ≡ whole.now }
    ensures { IfOk result (λ found. IfSome found (λ part. IsSingleOf (tree_of whole.now) (tree_of event.now) part.items)) }
{
    let part = single(alloc, whole, event, zones)?;
    if !is_single(alloc, part.as_slice(), whole, event, zones)? {
        return Ok(None);
    }
    Ok(Some(part))
}

/// An object of one VEVENT. Nothing is said of it: it is read again, and judged.
fn single(
    alloc: Global,
    whole: &Component,
    event: &Component,
    zones: &NamedZones<'_, '_>,
) -> Result<Vec<u8>, AllocError>
    requires { AreNamed zones.now }
{
    let mut out = Vec::new(alloc);
    write_property(&mut out, "BEGIN", whole.name())?;
    write_lines(whole, &mut out)?;
    for (name, _) in names_of(alloc, event)?.iter() {
        if let Some(zone) = zones.named(name.as_str()) {
            write_object(zone, &mut out)?;
        }
    }
    write_object(event, &mut out)?;
    write_property(&mut out, "END", whole.name())?;
    Ok(out)
}

/// The names of the zones that a VEVENT names.
fn names_of(alloc: Global, event: &Component) -> Result<Names, AllocError> {
    let mut names = IndexMap::new(alloc);
    for line in event.lines() {
        if is_time_line(line) {
            note_zone(alloc, line, &mut names)?;
        }
    }
    Ok(names)
}

/// Whether octets are an object of one VEVENT, with the own lines of another object, where each name means the same VTIMEZONE, and nothing else is inside.
fn is_single(
    alloc: Global,
    octets: &[u8],
    whole: &Component,
    event: &Component,
    zones: &NamedZones<'_, '_>,
) -> Result<bool, AllocError>
    requires zones { AreNamed zones.now }
    requires whole { zones.now.object.now ≡ whole.now }
    ensures { IfOk result (λ right. right ≡ true → IsSingleOf (tree_of whole.now) (tree_of event.now) octets.now) }
{
    let Some(text) = text_of(alloc, octets)? else {
        return Ok(false);
    };
    let Some(part) = object_of(alloc, &text)? else {
        return Ok(false);
    };
    let its = NamedZones::of(alloc, &part)?;
    if !part.has_same_lines(whole) || !is_only_event(part.children(), event) {
        return Ok(false);
    }
    if !is_only_other(part.children(), event) {
        return Ok(false);
    }
    Ok(have_same_zones(event.lines(), &its, zones))
}

/// Whether components have one VEVENT among them, with the lines of this one.
fn is_only_event(components: &[Component], event: &Component) -> bool
    ensures { result ≡ true → events_among components.now ≡ component_lines event.now ∷ [] }
{
    let [only, later @ ..] = from_event(components) else {
        return false;
    };
    if !only.has_same_lines(event) {
        return false;
    }
    from_event(later).is_empty()
}

/// Whether components are this one, but for VTIMEZONEs.
fn is_only_other(components: &[Component], event: &Component) -> bool
    ensures { result ≡ true → others_among components.now ≡ tree_of event.now ∷ [] }
{
    let [only, later @ ..] = past_zones(components) else {
        return false;
    };
    if only.is_named("VTIMEZONE") || !only.is_same(event) {
        return false;
    }
    past_zones(later).is_empty()
}

/// Whether each name of a zone in lines of times means the same VTIMEZONE in both.
fn have_same_zones(
    lines: OwnLines<'_>,
    one: &NamedZones<'_, '_>,
    other: &NamedZones<'_, '_>,
) -> bool
    requires one { AreNamed one.now }
    requires other { AreNamed other.now }
    ensures { result ≡ true → (name line : List ℕ) → IsLineIn name (lines_left lines.entry) line
        → zone_named name (tree_of one.now.object.now) ≡ zone_named name (tree_of other.now.object.now) }
{
    for line in lines {
        if !has_same_zone(line, one, other) {
            return false;
        }
    }
    true
}

/// Whether a line names one zone in both, if it is one of times.
fn has_same_zone(line: Line<'_>, one: &NamedZones<'_, '_>, other: &NamedZones<'_, '_>) -> bool
    requires one { AreNamed one.now }
    requires other { AreNamed other.now }
    ensures { result ≡ true → (name : List ℕ) → is_time_line (line_text line.entry) ≡ true → line_param (codes "TZID") (line_text line.entry) ≡ Some name
        → zone_named name (tree_of one.now.object.now) ≡ zone_named name (tree_of other.now.object.now) }
{
    if !is_time_line(line) {
        return true;
    }
    match line.param("TZID") {
        Some(name) => is_same_zone(name, one, other),
        None => true,
    }
}

/// Whether a name means the same VTIMEZONE in both, or none.
fn is_same_zone(name: &str, one: &NamedZones<'_, '_>, other: &NamedZones<'_, '_>) -> bool
    requires one { AreNamed one.now }
    requires other { AreNamed other.now }
    ensures { result ≡ true → zone_named name.now (tree_of one.now.object.now) ≡ zone_named name.now (tree_of other.now.object.now) }
{
    let Some(zone) = one.named(name) else {
        return other.named(name).is_none();
    };
    match other.named(name) {
        Some(its) => zone.is_same(its),
        None => false,
    }
}
