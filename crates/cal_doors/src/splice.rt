//! The octets of an object with other VTIMEZONEs. Nothing is said of what comes out: it is read again, and judged (`is_right`).

ghost use Rattle.std.specs.Prelude.{◌<◌, length, IfOk, IfSome};

use crate::changes::Changes;
use cal_zones::{Zone, zone_name};
use ical_lines::{split_line, without_mark};
use ical_tree::Component;
use std::alloc::{AllocError, Global};

/// Where in an object a physical line is.
#[derive(Clone, Copy, PartialEq, Eq)]
enum Place {
    /// Before the first component inside: what is missing comes there.
    Before,
    /// In a component, or after one.
    Inside,
    /// In a VTIMEZONE that gives way to another.
    Replaced,
}

/// The octets with the VTIMEZONEs of these names in the place of those that are there; those that aren't come before the first component inside. A byte
/// order mark stays.
pub(crate) fn spliced(
    alloc: Global,
    octets: &[u8],
    object: &Component,
    changes: &Changes,
) -> Result<Vec<u8>, AllocError> {
    let order = order_of(alloc, object, changes)?;
    let unmarked = without_mark(octets);
    let mut splicer = Splicer {
        out: Vec::new(alloc),
        place: Place::Before,
        begun: false,
        zones: 0,
    };
    splicer
        .out
        .extend_from_slice(up_to(octets, Some(unmarked)))?;
    let mut left = Some(unmarked);
    while let Some(rest) = left {
        let (line, next) = split_line(rest);
        splicer.take_line(line, up_to(rest, next), &order, changes)?;
        left = next;
    }
    Ok(splicer.out)
}

/// What comes before the rest of octets; all of them where nothing is left.
fn up_to<'a>(octets: &'a [u8], rest: Option<&[u8]>) -> &'a [u8] {
    match rest {
        Some(rest) => &octets[..octets.len().saturating_sub(rest.len())],
        None => octets,
    }
}

/// For each VTIMEZONE of the object, in order, the place of its change among the changes, if it is the first of its name and changes; and the
/// changes of names that no VTIMEZONE has.
#[derive(Drop)]
struct Order {
    places: Vec<Option<usize>>,
    missing: Vec<usize>,
}

fn order_of(alloc: Global, object: &Component, changes: &Changes) -> Result<Order, AllocError> {
    let mut places = Vec::new(alloc);
    let mut is_there = Vec::new(alloc);
    is_there.resize(changes.len(), false)?;
    for child in object.children() {
        if child.is_named("VTIMEZONE") {
            let place = place_of(alloc, child, changes, is_there.as_slice())?;
            if let Some(place) = place {
                is_there[place] = true;
            }
            places.push(place)?;
        }
    }
    let mut missing = Vec::new(alloc);
    for (place, there) in is_there.iter().enumerate() {
        if !*there {
            missing.push(place)?;
        }
    }
    Ok(Order { places, missing })
}

/// The place of the change of a VTIMEZONE, where none of its name came before it.
fn place_of(
    alloc: Global,
    zone: &Component,
    changes: &Changes,
    is_there: &[bool],
) -> Result<Option<usize>, AllocError>
    ensures { IfOk result (λ found. IfSome found (λ place. place < length is_there.now)) }
{
    let Some(name) = zone_name(alloc, zone)? else {
        return Ok(None);
    };
    let Some(place) = changes.get_index_of(name.as_str()) else {
        return Ok(None);
    };
    match is_there.get(place) {
        Some(false) => Ok(Some(place)),
        _ => Ok(None),
    }
}

/// The octets so far.
#[derive(Drop)]
struct Splicer {
    out: Vec<u8>,
    place: Place,
    /// The object has begun.
    begun: bool,
    /// How many VTIMEZONEs have begun.
    zones: usize,
}

impl Splicer {
    /// Takes a physical line; `octets` are the line and its end.
    fn take_line(
        &mut self,
        line: &[u8],
        octets: &[u8],
        order: &Order,
        changes: &Changes,
    ) -> Result<(), AllocError> {
        if self.place == Place::Replaced {
            if is_line(line, b"END:VTIMEZONE") {
                self.place = Place::Inside;
            }
            return Ok(());
        }
        if begins(line) {
            if self.begun && self.place == Place::Before {
                self.place = Place::Inside;
                self.add_missing(order, changes)?;
            }
            self.begun = true;
        }
        if is_line(line, b"BEGIN:VTIMEZONE") {
            let place = order.places.get(self.zones).copied().flatten();
            self.zones = self.zones.saturating_add(1);
            if let Some(place) = place {
                self.place = Place::Replaced;
                return self.add_change(place, changes);
            }
        }
        self.out.extend_from_slice(octets)
    }

    /// Adds the VTIMEZONEs that are missing.
    fn add_missing(&mut self, order: &Order, changes: &Changes) -> Result<(), AllocError> {
        for place in order.missing.iter() {
            self.add_change(*place, changes)?;
        }
        Ok(())
    }

    /// Adds the VTIMEZONE of a change.
    fn add_change(&mut self, place: usize, changes: &Changes) -> Result<(), AllocError> {
        let Some((name, choice)) = changes.get_index(place) else {
            return Ok(());
        };
        let zone: Zone = choice.zone;
        zone.write(name.as_str(), &mut self.out)
    }
}

/// Whether a physical line is this one; ASCII letters are compared caseless.
fn is_line(line: &[u8], text: &[u8]) -> bool {
    line.eq_ignore_ascii_case(text)
}

/// Whether a physical line begins a component.
fn begins(line: &[u8]) -> bool {
    match line.get(..6) {
        Some(front) => front.eq_ignore_ascii_case(b"BEGIN:"),
        None => false,
    }
}
