//! What the attendees of a meeting answered to its last store.

ghost use Rattle.std.specs.Prelude.{◌≡◌, ◌+◌, ◌<◌, ◌≤◌, cond, Some};
ghost use Rattle.indexmap.specs.IndexMap.{get, spare};
ghost use Rattle.profile.specs.organisers.Organisers.{rank};
ghost use Rattle.cal_events.specs.Component.{participation_of};
ghost use Rattle.itip_order.specs.Parts.{slot_of};
ghost use Rattle.organiser_books.specs.Answers.{answer_cmp, answer_key_at, same_answer_key, later_answer};

use cal_events::PartStat;
use ical_values::Stamp;
use indexmap::IndexMap;
use itip_order::Slot;
use std::cmp::Ordering;

/// The latest answer of each attendee for each slot.
pub(crate) type AttendeeAnswers = IndexMap<AnswerKey, AttendeeAnswer>;

/// Whose answer it is, by the place of the attendee in its meeting, and for which slot.
#[derive(Clone, Copy, PartialEq, Eq, Hash, Drop)]
pub(crate) struct AnswerKey {
    attendee: usize,
    slot: Slot,
}

/// What an attendee answered, and when.
#[derive(Clone, Copy, Drop)]
pub(crate) struct AttendeeAnswer {
    pub stamp: Stamp,
    pub status: PartStat,
}

impl AnswerKey {
    /// The key of an answer for this slot by the attendee in a place.
    pub fn at(attendee: usize, slot: Slot) -> AnswerKey
        ensures { result ≡ answer_key_at attendee (slot_of slot) }
    {
        AnswerKey { attendee, slot }
    }
}

impl AttendeeAnswer {
    /// By DTSTAMP, and of one moment by what was answered (RFC 5546 2.1.5).
    fn order(&self, other: &AttendeeAnswer) -> Ordering
        ensures { result ≡ answer_cmp self.now other.now }
    {
        let stamps = self.stamp.cmp(&other.stamp);
        stamps.then(rank(self.status).cmp(&rank(other.status)))
    }
}

/// Of two answers of one moment that of the greater rank counts; this profile's choice.
fn rank(status: PartStat) -> u8
    ensures { result ≡ rank (participation_of status) }
{
    match status {
        PartStat::NeedsAction => 0,
        PartStat::Tentative => 1,
        PartStat::Accepted => 2,
        PartStat::Delegated => 3,
        PartStat::Declined => 4,
    }
}

/// Puts in an answer, unless a later one is there. There is room for it.
pub(crate) fn put(answers: &mut AttendeeAnswers, key: AnswerKey, answer: AttendeeAnswer)
    requires { 0 < spare answers.old }
    ensures put { (other : AnswerKey) → get same_answer_key answers.new other
        ≡ cond (same_answer_key key other) (Some (later_answer (get same_answer_key answers.old key) answer)) (get same_answer_key answers.old other) }
    ensures spare { spare answers.old ≤ spare answers.new + 1 }
{
    if let Some(held) = answers.get(&key) {
        if answer.order(held).is_le() {
            return;
        }
    }
    // there is room for it
    let _ = answers.insert(key, answer);
}
