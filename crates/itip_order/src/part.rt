//! What a message says of one slot of one meeting, and the order of what was said of it.
//!
//! Octets of organisers and UIDs are compared as they are: an `Address` is kept in lower case.

ghost use Rattle.std.specs.Prelude.{◌≡◌};
ghost use Rattle.profile.specs.rooms.Revisions.{meeting_cmp, place_cmp, part_cmp};

use ical_values::{Address, Sequence, Stamp, Text};
use std::alloc::AllocError;
use std::cmp::Ordering;

/// A slot of a meeting (RFC 5545 3.8.4.4). The Whole is below each At.
#[derive(Clone, Copy, PartialEq, Eq, Hash, PartialOrd, Ord)]
pub enum Slot {
    /// The whole meeting.
    Whole,
    /// The instance that starts at this instant, in seconds from 1970-01-01T00:00:00Z.
    At(i64),
}

/// SEQUENCE, then DTSTAMP (RFC 5546 2.1.4, 2.1.5).
#[derive(Clone, Copy, PartialEq, Eq, PartialOrd, Ord)]
pub struct Revision {
    pub sequence: Sequence,
    pub stamp: Stamp,
}

/// What a part makes of its slot. In the order of the variants, and a Set by its octets.
#[derive(Drop, PartialEq, Eq, PartialOrd, Ord)]
pub enum Body {
    /// The event, as its canonical octets.
    Set(Vec<u8>),
    /// The event no longer names the room.
    Absent,
    /// The event is cancelled.
    Cancelled,
}

impl Clone for Body {
    ghost use Rattle.itip_order.specs.Parts.{body_of};

    ghost is_clone = { λ body copy. body_of copy ≡ body_of body };

    fn clone(&self) -> Result<Body, AllocError> {
        match self {
            Body::Set(octets) => Ok(Body::Set(octets.clone()?)),
            Body::Absent => Ok(Body::Absent),
            Body::Cancelled => Ok(Body::Cancelled),
        }
    }
}

/// What a message says of one slot of one meeting.
#[derive(Drop, PartialEq, Eq)]
pub struct Part {
    pub organiser: Address,
    pub uid: Text,
    pub slot: Slot,
    pub revision: Revision,
    pub body: Body,
}

impl Clone for Part {
    ghost use Rattle.itip_order.specs.Parts.{part_of};

    ghost is_clone = { λ part copy. part_of copy ≡ part_of part };

    fn clone(&self) -> Result<Part, AllocError> {
        let organiser = self.organiser.clone()?;
        let uid = self.uid.clone()?;
        let body = self.body.clone()?;
        Ok(Part {
            organiser,
            uid,
            slot: self.slot,
            revision: self.revision,
            body,
        })
    }
}

impl Part {
    ghost use Rattle.itip_order.specs.Parts.{part_of, slot_of};
    ghost use Rattle.itip_order.specs.Registers.{at_slot};

    // Compares meetings: by organiser, then UID, octet by octet.
    fn cmp_meeting(&self, other: &Part) -> Ordering
        ensures { result ≡ meeting_cmp (part_of self.now) (part_of other.now) }
    {
        let organiser = self.organiser.as_str().cmp(other.organiser.as_str());
        organiser.then(self.uid.as_str().cmp(other.uid.as_str()))
    }

    // Compares the part's place with a slot of the other's meeting.
    pub(crate) fn cmp_place(&self, other: &Part, slot: Slot) -> Ordering
        ensures { result ≡ place_cmp (part_of self.now) (at_slot (part_of other.now) (slot_of slot)) }
    {
        self.cmp_meeting(other).then(self.slot.cmp(&slot))
    }

    // Compares two parts of one place: SEQUENCE, DTSTAMP, then the body.
    pub(crate) fn cmp_part(&self, other: &Part) -> Ordering
        ensures { result ≡ part_cmp (part_of self.now) (part_of other.now) }
    {
        let revision = self.revision.cmp(&other.revision);
        revision.then(self.body.cmp(&other.body))
    }
}
