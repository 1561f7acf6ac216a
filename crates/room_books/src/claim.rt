//! What a part of a message asks of a room.

ghost use Rattle.std.specs.Prelude.{◌≡◌, true};
ghost use Rattle.itip_order.specs.Parts.{part_of};
ghost use Rattle.profile.specs.rooms.Rooms.{is_set};
ghost use Rattle.room_books.specs.Claim.{is_of_whole};

use cal_events::{Series, Single};
use itip_order::{Body, Part};

/// A part of a message, and the instances that it asks for: none where it isn't to take place.
#[derive(Drop)]
pub struct Claim {
    pub part: Part,
    pub singles: Vec<Single>,
    /// Those that its RRULE gives, if it has one. Only a whole recurs.
    pub series: Option<Series>,
    ghost whole: { is_of_whole series part.slot ≡ true },
}

impl Claim {
    /// Whether the part is to take place.
    pub fn is_set(&self) -> bool
        ensures { result ≡ is_set (part_of self.now.part) }
    {
        takes_place(&self.part)
    }
}

/// Whether a part is to take place.
pub fn takes_place(part: &Part) -> bool
    ensures { result ≡ is_set (part_of part.now) }
{
    matches!(part.body, Body::Set(_))
}
