//! Where a component of an object begins, and where a line of it does.

ghost use Rattle.std.specs.Prelude.{◌≡◌, map, drop, option_map, Contains, IfOk, IfSome};
ghost use Rattle.ical_lines.specs.Text.{numbered};
ghost use Rattle.fault_places.specs.Places.{IsLineAt, IsSpotOf};

use crate::place::{Place, place_of};
use ical_tree::{Component, Properties};
use std::alloc::{AllocError, Global};

/// Where a component begins, and where a line of it does.
#[derive(Drop)]
pub(crate) struct Spot {
    /// The physical line on which the component begins, counted from 1.
    pub(crate) begins: u64,
    pub(crate) place: Place,
}

/// The places of a component and of its line of this text; that of its BEGIN where there is no text.
pub(crate) fn spot_of(
    alloc: Global,
    octets: &[u8],
    component: &Component,
    line: Option<&str>,
) -> Result<Option<Spot>, AllocError>
    ensures { IfOk result (λ found. IfSome found (IsSpotOf octets.now component.now (option_map (λ text. text.now) line.entry))) }
{
    let Some(number) = number_of(alloc, component, line)? else {
        return Ok(None);
    };
    let Some(begins) = place_of(alloc, octets, component.begun())? else {
        return Ok(None);
    };
    let Some(place) = place_of(alloc, octets, number)? else {
        return Ok(None);
    };
    Ok(Some(Spot {
        begins: begins.line,
        place,
    }))
}

/// The number of the line of this text among the logical lines of the octets; that of the BEGIN where there is no text.
fn number_of(
    alloc: Global,
    component: &Component,
    line: Option<&str>,
) -> Result<Option<usize>, AllocError>
    ensures { IfOk result (λ found. IfSome found (IsLineAt component.now (option_map (λ text. text.now) line.entry))) }
{
    let Some(text) = line else {
        return Ok(Some(component.begun()));
    };
    let properties = Properties::of(alloc, component)?;
    for own in properties.lines() {
        if own.text() == text {
            return Ok(Some(own.number()));
        }
    }
    Ok(None)
}
