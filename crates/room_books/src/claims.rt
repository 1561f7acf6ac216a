//! What a message asks of a room: a claim for each of its parts.

ghost use Rattle.std.specs.Prelude.{◌≡◌, filter, true, IfOk};
ghost use Rattle.std.specs.List.{AllZip};
ghost use Rattle.ical_values.specs.Octets.{address_octets};
ghost use Rattle.cal_zones.specs.RoomZones.{room_of};
ghost use Rattle.itip_messages.specs.Message.{RepresentsMessage, has_part};
ghost use Rattle.itip_order.specs.Parts.{part_of};
ghost use Rattle.room_books.specs.Claim.{is_of_whole};
ghost use Rattle.profile.specs.events.Messages as profile;
ghost use Rattle.room_books.specs.Claims.{AreClaimed, AreClaimsOf, IsAsking, IsAskingIn};

use crate::claim::{Claim, takes_place};
use cal_events::{Series, Single};
use cal_zones::RoomZone;
use ical_values::Address;
use itip_messages::{Message, MessageComponent};
use itip_order::{Part, Slot, greatest_by_slot};
use std::alloc::{AllocError, Global};

/// What a part asks for: single instances, and those of a series.
#[derive(Drop)]
struct Asked {
    singles: Vec<Single>,
    series: Option<Series>,
}

/// The claims that a message has for a room of this zone, the whole meeting first and then its instances; none where it isn't addressed to it. Of
/// two that have one slot there the greater counts.
pub fn claims_of(
    alloc: Global,
    message: &Message,
    room: &Address,
    zone: &RoomZone,
) -> Result<Vec<Claim>, AllocError>
    ensures { IfOk result (λ claims. (said : profile.Message) → RepresentsMessage message.now said
        → AreClaimed (address_octets room.now) (room_of zone.now) said claims.items) }
{
    if !message.is_addressed_to(room) {
        return Ok(Vec::new(alloc));
    }
    let all = all_asked(alloc, message, room, zone)?;
    let kept = greatest_by_slot(alloc, all)?;
    claims_for(alloc, kept)
}

/// A part for each component that is one for the room, and what it asks for.
// Apart from `claims_of`, which most rooms leave at its first line.
#[inline(never)]
fn all_asked(
    alloc: Global,
    message: &Message,
    room: &Address,
    zone: &RoomZone,
) -> Result<Vec<(Part, Asked)>, AllocError>
    ensures { IfOk result (λ all. AllZip (IsAskingIn (address_octets room.now) (room_of zone.now) message.now)
        (filter (has_part (address_octets room.now) message.now) message.now.components.items) all.items) }
{
    let mut all = Vec::new(alloc);
    for component in message.components() {
        if message.has_part(component, room) {
            let part = message.part(component, room, zone)?;
            let asked = asked_by(alloc, &part, component, zone)?;
            all.push((part, asked))?;
        }
    }
    Ok(all)
}

/// What a part asks for, if it is to take place: the instances of its component in a room of this zone. A single instance has no series.
fn asked_by(
    alloc: Global,
    part: &Part,
    component: &MessageComponent,
    zone: &RoomZone,
) -> Result<Asked, AllocError>
    ensures { IfOk result (IsAsking (room_of zone.now) (part_of part.now) component.now) }
{
    if !takes_place(part) {
        return Ok(Asked {
            singles: Vec::new(alloc),
            series: None,
        });
    }
    let (singles, series) = component.instances_in(alloc, zone)?;
    Ok(Asked { singles, series })
}

/// The claims of parts that ask for these. It fails only when out of memory.
fn claims_for(alloc: Global, kept: Vec<(Part, Asked)>) -> Result<Vec<Claim>, AllocError>
    ensures { IfOk result (λ claims. AreClaimsOf kept.items claims.items) }
{
    let mut claims = Vec::new(alloc);
    for (part, asked) in kept {
        claims.push(claim_for(part, asked))?;
    }
    Ok(claims)
}

/// The claim of a part that asks for these. Only a whole recurs.
fn claim_for(part: Part, asked: Asked) -> Claim
    ensures part { result.part ≡ part }
    ensures singles { result.singles ≡ asked.singles }
    ensures series { is_of_whole asked.series part.slot ≡ true → result.series ≡ asked.series }
{
    let Asked { singles, series } = asked;
    let series = match part.slot {
        Slot::Whole => series,
        Slot::At(_) => None,
    };
    Claim {
        part,
        singles,
        series,
    }
}
