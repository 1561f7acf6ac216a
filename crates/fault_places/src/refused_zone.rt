//! What is in the way of a VTIMEZONE that an object is refused for, and where in the object it is (RFC 5545 3.2.19, 3.6.5).

ghost use Rattle.std.specs.Prelude.{◌≡◌, ℕ, true, Contains, IfNone, IfOk, IfSome};
ghost use Rattle.std.specs.List.{enumerate_from};
ghost use Rattle.ical_lines.specs.Text.{line_text};
ghost use Rattle.ical_tree.specs.Reading.{TreeHas};
ghost use Rattle.ical_tree.specs.Tree.{ArePlaced, IsObjectOf, component_children, component_lines, tree_of};
ghost use Rattle.profile.specs.text.Lines.{logical_lines, text_has};
ghost use Rattle.profile.specs.series.ZoneTexts.{ZoneFault};
ghost use Rattle.cal_doors.specs.Named.{AreNamed};
ghost use Rattle.fault_places.specs.InTheWay.{IsInTheWay, IsPlacedInOctets, IsRefusedAs, NamesRefused, RefusedBy};

use crate::obstacle::{Obstacle, PartCause, cause_in};
use crate::place::Place;
use crate::spot::spot_of;
use cal_doors::{NamedZones, is_time_line};
use cal_zones::Zone;
use ical_lines::{Fault, Limits, Line, Unfolded};
use ical_tree::{Component, read_object};
use indexmap::IndexMap;
use std::alloc::{AllocError, Global};

/// What of a VTIMEZONE is in the way, and where in the object.
#[derive(Drop)]
pub struct InTheWay {
    pub obstacle: Obstacle,
    /// The name of the part that has it, as it is written; VTIMEZONE where there is no part.
    pub part: Vec<u8>,
    /// The physical line on which that one begins, counted from 1.
    pub begins: u64,
    /// The content line that is in the way.
    pub place: Place,
}

/// The names that times named whose VTIMEZONE isn't the one.
type Passed = IndexMap<String, ()>;

/// What is in the way of the VTIMEZONE that an object is refused for with this number, from 40 to 42: of the first one that is so refused, in the
/// order of the times that name them. None where there is none.
pub fn in_the_way(alloc: Global, octets: &[u8], number: u8) -> Result<Option<InTheWay>, AllocError>
    ensures { IfOk result (λ found. IfSome found (IsInTheWay octets.now number)) }
{
    let Some(text) = text_of(alloc, octets)? else {
        return Ok(None);
    };
    let Some(object) = object_of(alloc, &text)? else {
        return Ok(None);
    };
    let zones = NamedZones::of(alloc, &object)?;
    let Some(zone) = refused_zone(alloc, &object, &zones, number)? else {
        return Ok(None);
    };
    let Some(zone) = child_like(&object, zone) else {
        return Ok(None);
    };
    match cause_in(alloc, zone, number)? {
        Some(found) => placed(alloc, octets, found),
        None => Ok(None),
    }
}

/// The lines of octets within the limits of a message. None where they aren't.
pub(crate) fn text_of(alloc: Global, octets: &[u8]) -> Result<Option<Unfolded<'_>>, AllocError>
    ensures found { IfOk result (λ found. IfSome found (λ text. text ≡ logical_lines octets.now)) }
    ensures none { IfOk result (λ found. IfNone found ((n : ℕ) × (text_has true n octets.now ≡ true))) }
{
    match Unfolded::read(alloc, octets, Limits::Message) {
        Ok(text) => Ok(Some(text)),
        Err(Fault::Memory) => Err(AllocError),
        Err(Fault::Refused(_)) => Ok(None),
    }
}

/// The object that lines spell, within the limits of a message. None where they spell none.
pub(crate) fn object_of<'a>(
    alloc: Global,
    text: &'a Unfolded<'_>,
) -> Result<Option<Component<'a>>, AllocError>
    ensures found { IfOk result (λ found. IfSome found (λ object. IsObjectOf true object text.now × ArePlaced (enumerate_from 1 text.now) object)) }
    ensures none { IfOk result (λ found. IfNone found ((n : ℕ) × TreeHas true n text.now)) }
{
    match read_object(alloc, text, Limits::Message) {
        Ok(object) => Ok(Some(object)),
        Err(Fault::Memory) => Err(AllocError),
        Err(Fault::Refused(_)) => Ok(None),
    }
}

/// The VTIMEZONE that is refused with this number and that a time of a VEVENT names: the first, in the order of the times.
fn refused_zone<'c, 'a>(
    alloc: Global,
    object: &'c Component<'a>,
    zones: &NamedZones<'c, 'a>,
    number: u8,
) -> Result<Option<&'c Component<'a>>, AllocError>
    requires object { zones.now.object.now ≡ object.now }
    requires named { AreNamed zones.now }
    ensures { IfOk result (λ found. IfSome found (λ zone. NamesRefused object.now number zone.now)) }
{
    let mut passed = IndexMap::new(alloc);
    for child in object.children() {
        if child.is_named("VEVENT") {
            if let Some(zone) = refused_in_event(alloc, child, zones, &mut passed, number)? {
                return Ok(Some(zone));
            }
        }
    }
    Ok(None)
}

/// The VTIMEZONE by which a time of one VEVENT is refused.
fn refused_in_event<'c, 'a>(
    alloc: Global,
    event: &Component,
    zones: &NamedZones<'c, 'a>,
    passed: &mut Passed,
    number: u8,
) -> Result<Option<&'c Component<'a>>, AllocError>
    requires { AreNamed zones.now }
    ensures { IfOk result (λ found. IfSome found (λ zone. RefusedBy (tree_of zones.now.object.now) (component_lines event.now) number zone.now)) }
{
    for line in event.lines() {
        if is_time_line(line) {
            if let Some(zone) = refused_by_line(alloc, line, zones, passed, number)? {
                return Ok(Some(zone));
            }
        }
    }
    Ok(None)
}

/// The VTIMEZONE by which a time of one line is refused. What isn't refused so is looked at once.
fn refused_by_line<'c, 'a>(
    alloc: Global,
    line: Line<'_>,
    zones: &NamedZones<'c, 'a>,
    passed: &mut Passed,
    number: u8,
) -> Result<Option<&'c Component<'a>>, AllocError>
    requires { AreNamed zones.now }
    ensures { IfOk result (λ found. IfSome found (λ zone. IsRefusedAs (tree_of zones.now.object.now) (line_text line.entry) number zone.now)) }
{
    let Some(name) = line.param("TZID") else {
        return Ok(None);
    };
    if passed.contains_key(name) {
        return Ok(None);
    }
    if let Some(zone) = zones.named(name) {
        if is_refused(alloc, zone, number)? {
            return Ok(Some(zone));
        }
    }
    passed.insert(String::from_str(alloc, name)?, ())?;
    Ok(None)
}

/// Whether a VTIMEZONE is refused with this number.
fn is_refused(alloc: Global, zone: &Component, number: u8) -> Result<bool, AllocError>
    ensures { IfOk result (λ refused. refused ≡ true → ZoneFault (tree_of zone.now) number) }
{
    match Zone::read(alloc, zone) {
        Ok(_) => Ok(false),
        Err(Fault::Memory) => Err(AllocError),
        Err(Fault::Refused(refusal)) => Ok(refusal.number == number),
    }
}

/// The component of an object that is the same as one.
fn child_like<'c, 'a>(object: &'c Component<'a>, zone: &Component) -> Option<&'c Component<'a>>
    ensures { IfSome result (λ child. Contains (component_children object.now) child.now × (tree_of child.now ≡ tree_of zone.now)) }
{
    for child in object.children() {
        if child.is_same(zone) {
            return Some(child);
        }
    }
    None
}

/// What is in the way, with its places in the object.
fn placed(
    alloc: Global,
    octets: &[u8],
    found: PartCause<'_, '_>,
) -> Result<Option<InTheWay>, AllocError>
    ensures { IfOk result (λ way. IfSome way (IsPlacedInOctets octets.now found.entry)) }
{
    let Some(spot) = spot_of(alloc, octets, found.component, found.cause.line)? else {
        return Ok(None);
    };
    let mut part = Vec::new(alloc);
    part.extend_from_slice(found.component.name().as_bytes())?;
    Ok(Some(InTheWay {
        obstacle: found.cause.obstacle,
        part,
        begins: spot.begins,
        place: spot.place,
    }))
}
