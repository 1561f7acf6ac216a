//! The refresh by which a room asks for a meeting (RFC 5546 3.2.6).

ghost use Rattle.std.specs.Prelude.{List, IfOk, option_copied};
ghost use Rattle.ical_values.specs.Octets.{address_octets};
ghost use Rattle.itip_order.specs.Parts.{part_of};
ghost use Rattle.itip_order.specs.Registers.{RepresentsHistory};
ghost use Rattle.profile.specs.rooms.Revisions as revisions;
ghost use Rattle.profile.specs.rooms.Kept.{Refreshes};
ghost use Rattle.room_books.specs.Taking.{claims_said, octets_in, HasHistory};
ghost use Rattle.room_books.specs.Reply.{IsRefreshOf};

use crate::change::Views;
use ical_values::{Address, Stamp};
use itip_messages::{Refresh, write_refresh};
use itip_order::Part;
use std::alloc::{AllocError, Global};

/// The REFRESH after a message that adds instances or doesn't; None where the whole of its meeting isn't wanted.
pub(crate) fn refresh_to(
    room: &Address,
    views: &Views<'_>,
    adds: bool,
    moment: Stamp,
) -> Result<Option<Vec<u8>>, AllocError>
    ensures { IfOk result (λ refresh. (before after : List revisions.Part) → HasHistory (option_copied views.now.before) before → RepresentsHistory views.now.after.now after
        → Refreshes (address_octets room.now) adds before after (claims_said views.now.claims.now) moment (octets_in refresh)) }
{
    if !adds {
        return Ok(None);
    }
    let Some(claim) = views.unheard() else {
        return Ok(None);
    };
    let octets = refresh_for(views.alloc, room, &claim.part, moment)?;
    Ok(Some(octets))
}

/// The REFRESH that asks for the meeting of a part, at a moment.
fn refresh_for(
    alloc: Global,
    room: &Address,
    part: &Part,
    moment: Stamp,
) -> Result<Vec<u8>, AllocError>
    ensures { IfOk result (λ octets. IsRefreshOf (address_octets room.now) (part_of part.now) moment octets.items) }
{
    let refresh = Refresh {
        uid: &part.uid,
        organiser: &part.organiser,
        room,
        moment,
    };
    let mut octets = Vec::new(alloc);
    write_refresh(&refresh, &mut octets)?;
    Ok(octets)
}
