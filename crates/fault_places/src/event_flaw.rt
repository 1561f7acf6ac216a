//! Which property of a VEVENT is missing, or there twice, where an object is refused for that (RFC 5545 3.6.1).

ghost use Rattle.std.specs.Prelude.{◌≡◌, ◌⊎◌, true, false, map, codes, None, Some, IfNone, IfOk, IfSome};
ghost use Rattle.ical_tree.specs.Tree.{component_children, component_lines};
ghost use Rattle.profile.specs.events.EventComponents as profile;
ghost use Rattle.profile.specs.events.EventComponents.{is_once, missing_number, presence, property_name};
ghost use Rattle.profile.specs.events.Messages.{NamesMethod};
ghost use Rattle.profile.specs.events.Properties.{IsMissing};
ghost use Rattle.cal_events.specs.Component.{method_said};
ghost use Rattle.cal_events.specs.Property.{property_said};
ghost use Rattle.fault_places.specs.EventFlaws.{AreFree, AreRight, FlawIn, IsFlaw, IsFlawPlaced, IsFree, IsToldFlaw, OccursRightly};
ghost use Rattle.fault_places.specs.Obstacles.{text_of};

use crate::obstacle::{first_line, second_line};
use crate::place::Place;
use crate::refused_zone::{object_of, text_of};
use crate::spot::spot_of;
use cal_events::{Method, PROPERTIES, Property};
use ical_lines::{Refusal, read_lines_are_content};
use ical_tree::{Component, one_tree};
use std::alloc::{AllocError, Global};

/// What is wrong with a property.
#[derive(Clone, Copy, PartialEq, Eq)]
pub enum FlawKind {
    /// It isn't there.
    Missing,
    /// It occurs twice.
    Twice,
    /// It stands beside another one that excludes it.
    Beside,
}

/// What is wrong with a VEVENT.
#[derive(Clone, Copy)]
pub(crate) struct Flaw<'a> {
    pub(crate) kind: FlawKind,
    pub(crate) property: &'a str,
    /// The text of the line; None where it isn't there.
    pub(crate) line: Option<&'a str>,
}

/// What is wrong with a component of an object.
#[derive(Clone, Copy)]
pub(crate) struct EventFlaw<'c, 'a> {
    /// The VEVENT.
    pub(crate) event: &'c Component<'a>,
    pub(crate) flaw: Flaw<'c>,
}

/// What is wrong with a component, with its places in the object.
#[derive(Drop)]
pub struct PlacedFlaw {
    pub kind: FlawKind,
    pub property: Vec<u8>,
    /// The name of the VEVENT, as it is written.
    pub event: Vec<u8>,
    /// The physical line on which that begins, counted from 1.
    pub begins: u64,
    /// The content line that is wrong, or the BEGIN of the VEVENT.
    pub place: Place,
}

/// What is wrong with the properties of the VEVENTs of an object that is refused with 61 or 63.
#[derive(Drop)]
pub enum ObjectFlaw {
    /// A VEVENT has this flaw, there.
    Placed(PlacedFlaw),
    /// A VEVENT has a flaw; where it stands isn't known.
    Unplaced,
    /// No VEVENT has a flaw for this number, or the octets are no object.
    Absent,
}

/// The first flaw of a VEVENT of an object that is refused with 61 or 63; of another number there is none.
pub fn flaw_in_object(alloc: Global, octets: &[u8], number: u8) -> Result<ObjectFlaw, AllocError>
    ensures { IfOk result (IsToldFlaw octets.now number) }
{
    one_tree();
    read_lines_are_content();
    if number != Refusal::BAD_PROPERTY.number && number != Refusal::NO_ORGANIZER.number {
        return Ok(ObjectFlaw::Absent);
    }
    let Some(text) = text_of(alloc, octets)? else {
        return Ok(ObjectFlaw::Absent);
    };
    let Some(object) = object_of(alloc, &text)? else {
        return Ok(ObjectFlaw::Absent);
    };
    let Some(found) = first_flaw(&object, number) else {
        return Ok(ObjectFlaw::Absent);
    };
    match placed(alloc, octets, found)? {
        Some(flaw) => Ok(ObjectFlaw::Placed(flaw)),
        None => Ok(ObjectFlaw::Unplaced),
    }
}

/// The first flaw of a VEVENT of an object.
fn first_flaw<'c, 'a>(object: &'c Component<'a>, number: u8) -> Option<EventFlaw<'c, 'a>>
    ensures found { IfSome result (FlawIn (component_children object.now)) }
    ensures none { IfNone result ((method : profile.Method) → NamesMethod (component_lines object.now) method → AreFree method number (component_children object.now)) }
{
    let method = method_of(object);
    for event in object.children() {
        if event.is_named("VEVENT") {
            if let Some(flaw) = flaw_of(event, method, number) {
                return Some(EventFlaw { event, flaw });
            }
        }
    }
    None
}

/// What METHOD says; without one it is a store. A word that names no method is refused before any VEVENT is looked at.
fn method_of(object: &Component) -> Method
    ensures { (method : profile.Method) → NamesMethod (component_lines object.now) method → method_said result ≡ method }
{
    match first_line(object, "METHOD") {
        Some(line) => Method::named(line.value()).unwrap_or(Method::Store),
        None => Method::Store,
    }
}

/// What is wrong with a VEVENT of an object of this METHOD, where the object is refused with this number.
fn flaw_of<'c>(event: &'c Component, method: Method, number: u8) -> Option<Flaw<'c>>
    ensures found { IfSome result (λ flaw. IsFlaw (component_lines event.now) flaw) }
    ensures none { IfNone result (IsFree (method_said method) number (component_lines event.now)) }
{
    if number == Refusal::NO_ORGANIZER.number {
        return flaw_in(event, Property::Organizer, true);
    }
    if let Some(flaw) = flaw_among(event, method, &PROPERTIES) {
        return Some(flaw);
    }
    beside(event)
}

/// The first flaw of a VEVENT in some properties, where the object is refused with 61.
fn flaw_among<'c>(event: &'c Component, method: Method, properties: &[Property]) -> Option<Flaw<'c>>
    ensures found { IfSome result (λ flaw. IsFlaw (component_lines event.now) flaw) }
    ensures none { IfNone result (AreRight (method_said method) (component_lines event.now) (map property_said properties.now)) }
{
    for property in properties {
        if property.presence(None).is_single() {
            let is_needed = is_needed(*property, method);
            if let Some(flaw) = flaw_in(event, *property, is_needed) {
                return Some(flaw);
            }
        }
    }
    None
}

/// Whether 61 is the number of a property that METHOD asks for, and that is missing; that of ORGANIZER is 63.
fn is_needed(property: Property, method: Method) -> bool
    ensures { is_once (presence (property_said property) (Some (method_said method))) ≡ true → missing_number (property_said property) ≡ 61 → result ≡ true }
{
    property != Property::Organizer && property.presence(Some(method)).is_once()
}

/// A property that is there twice, or that is needed and isn't there.
fn flaw_in<'c>(event: &'c Component, property: Property, is_needed: bool) -> Option<Flaw<'c>>
    ensures found { IfSome result (λ flaw. IsFlaw (component_lines event.now) flaw) }
    ensures none { IfNone result (OccursRightly is_needed (property_name (property_said property)) (component_lines event.now)) }
{
    let name = property.name();
    if first_line(event, name).is_none() {
        return Flaw::missing(name, is_needed);
    }
    let line = second_line(event, name)?;
    Some(Flaw {
        kind: FlawKind::Twice,
        property: name,
        line: Some(line.text()),
    })
}

/// DURATION beside DTEND.
fn beside<'c>(event: &'c Component) -> Option<Flaw<'c>>
    ensures found { IfSome result (λ flaw. IsFlaw (component_lines event.now) flaw) }
    ensures none { IfNone result (IsMissing (codes "DTEND") (component_lines event.now) ⊎ IsMissing (codes "DURATION") (component_lines event.now)) }
{
    first_line(event, Property::Dtend.name())?;
    let property = Property::Duration.name();
    let line = first_line(event, property)?;
    Some(Flaw {
        kind: FlawKind::Beside,
        property,
        line: Some(line.text()),
    })
}

impl<'a> Flaw<'a> {
    /// Of one that isn't there, where it is needed.
    fn missing(property: &'a str, is_needed: bool) -> Option<Flaw<'a>>
        ensures found { IfSome result (λ flaw. (flaw.kind ≡ FlawKind.Missing) × (flaw.property.now ≡ property.now) × (text_of flaw.line ≡ None)) }
        ensures none { IfNone result (is_needed ≡ false) }
    {
        if !is_needed {
            return None;
        }
        Some(Flaw {
            kind: FlawKind::Missing,
            property,
            line: None,
        })
    }
}

/// What is wrong, with its places in the object.
fn placed(
    alloc: Global,
    octets: &[u8],
    found: EventFlaw<'_, '_>,
) -> Result<Option<PlacedFlaw>, AllocError>
    ensures { IfOk result (λ flaw. IfSome flaw (IsFlawPlaced octets.now found.entry)) }
{
    let Some(spot) = spot_of(alloc, octets, found.event, found.flaw.line)? else {
        return Ok(None);
    };
    let mut event = Vec::new(alloc);
    event.extend_from_slice(found.event.name().as_bytes())?;
    let mut property = Vec::new(alloc);
    property.extend_from_slice(found.flaw.property.as_bytes())?;
    Ok(Some(PlacedFlaw {
        kind: found.flaw.kind,
        property,
        event,
        begins: spot.begins,
        place: spot.place,
    }))
}
