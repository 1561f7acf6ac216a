//! The name of a meeting, and the answers to its parts.

ghost use Rattle.std.specs.Prelude.{◌≡◌, true, IfOk};
ghost use Rattle.room_books.specs.Claim.{is_of_whole};

use crate::answer::LimitKind;
use crate::claim::Claim;
use crate::hidden::{left_of, series_left};
use cal_events::{Instance, InstanceKey, OwnedKey, Series, Single};
use clash_cert::Clash;
use ical_values::{Address, Stamp, Text};
use itip_order::{Slot, Together};
use std::alloc::{AllocError, Global};

/// A meeting's name: the UID of an ORGANIZER.
#[derive(PartialEq, Eq, Hash, Drop)]
pub struct MeetingKey {
    pub organiser: Address,
    pub uid: Text,
}

impl MeetingKey {
    ghost use Rattle.ical_values.specs.Octets.{address_octets, text_octets};
    ghost use Rattle.cal_events.specs.Calendar.{instance_of, owned_key_of};
    ghost use Rattle.room_books.specs.Meeting.{keyed_instance, IsKeyOf};

    /// The name of the meeting that has this ORGANIZER's address and this UID, both copied (RFC 5545 3.8.4.7).
    /// It fails only when out of memory.
    pub fn of(organiser: &Address, uid: &Text) -> Result<MeetingKey, AllocError>
        ensures { IfOk result (IsKeyOf (address_octets organiser.now) (text_octets uid.now)) }
    {
        let organiser = organiser.clone()?;
        let uid = uid.clone()?;
        Ok(MeetingKey { organiser, uid })
    }

    /// An instance of this meeting, with the meeting's texts borrowed.
    pub fn instance(&self, single: Single) -> Instance<'_>
        ensures { instance_of result ≡ keyed_instance self.now single }
    {
        let key = InstanceKey {
            organiser: self.organiser.as_str(),
            uid: self.uid.as_str(),
            slot: single.slot,
        };
        Instance {
            key,
            start: single.span.start,
            end: single.span.end,
        }
    }

    /// The key of that instance, with its own texts.
    pub fn owned(&self, single: Single) -> Result<OwnedKey, AllocError>
        ensures { IfOk result (λ key. owned_key_of key ≡ (keyed_instance self.now single).key) }
    {
        let organiser = self.organiser.clone()?;
        let uid = self.uid.clone()?;
        Ok(OwnedKey {
            organiser,
            uid,
            slot: single.slot,
        })
    }
}

/// What was decided about a part.
#[derive(Clone, Drop)]
pub enum Outcome {
    Accepted,
    Declined(Clash),
    Limit(LimitKind),
}

impl Outcome {
    ghost use Rattle.profile.specs.rooms.Rooms as rooms;
    ghost use Rattle.room_books.specs.Meeting.{outcome_of};

    /// Whether it is to accept.
    pub fn is_accept(&self) -> bool
        ensures { result ≡ rooms.is_accept (outcome_of self.now) }
    {
        matches!(self, Outcome::Accepted)
    }
}

/// The answer to a part: when and how it was decided, and the instances that it confirms. It is kept as long as the part is
/// in the view, so that a repeat gets the same answer.
#[derive(Drop)]
pub struct PartAnswer {
    /// The slot of the part.
    pub slot: Slot,
    /// The moment of the decision.
    pub moment: Stamp,
    pub outcome: Outcome,
    /// None unless the part was accepted, and none that another part in the view hides.
    pub singles: Vec<Single>,
    /// The instances that its RRULE gives, without those that another part in the view hides. None unless the part was accepted. Only a
    /// whole recurs.
    pub series: Option<Series>,
    ghost whole: { is_of_whole series slot ≡ true },
}

impl PartAnswer {
    ghost use Rattle.room_books.specs.Taking.{IsAccepted, IsDecided};

    /// The answer to a claim at a moment, if it were accepted.
    pub(crate) fn accepted(
        alloc: Global,
        held: &Together<'_>,
        claim: &Claim,
        moment: Stamp,
    ) -> Result<PartAnswer, AllocError>
        ensures { IfOk result (IsAccepted held.now claim.now moment) }
    {
        let singles = left_of(alloc, held, &claim.part, &claim.singles)?;
        let series = series_left(alloc, held, &claim.part, &claim.series)?;
        Ok(PartAnswer {
            slot: claim.part.slot,
            moment,
            outcome: Outcome::Accepted,
            singles,
            series,
        })
    }

    /// This answer with what was decided: it confirms something only where that is to accept it.
    pub(crate) fn decided(self, alloc: Global, outcome: &Outcome) -> Result<PartAnswer, AllocError>
        ensures { IfOk result (IsDecided self outcome.now) }
    {
        let outcome = outcome.clone()?;
        if outcome.is_accept() {
            return Ok(PartAnswer {
                slot: self.slot,
                moment: self.moment,
                outcome,
                singles: self.singles,
                series: self.series,
            });
        }
        Ok(PartAnswer {
            slot: self.slot,
            moment: self.moment,
            outcome,
            singles: Vec::new(alloc),
            series: None,
        })
    }
}
