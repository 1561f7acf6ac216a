//! The reply to a message: a VEVENT for each part that is to take place and is in the view.

ghost use Rattle.std.specs.Prelude.{◌≡◌, IfOk, IfSome, IfNone, OnOk, List, option_copied};
ghost use Rattle.ical_values.specs.Octets.{address_octets};
ghost use Rattle.itip_order.specs.Parts.{part_of, slot_of};
ghost use Rattle.itip_order.specs.Registers.{RepresentsHistory};
ghost use Rattle.itip_messages.specs.Reply.{WritesLines, decision_outcome, slot_at as recurrence_slot};
ghost use Rattle.profile.specs.rooms.Revisions as revisions;
ghost use Rattle.profile.specs.rooms.Rooms.{Book};
ghost use Rattle.profile.specs.rooms.Kept.{Replies};
ghost use Rattle.room_books.specs.declared.meeting.MeetingKey.{MeetingKey};
ghost use Rattle.room_books.specs.declared.kept.Meeting.{Meeting};
ghost use Rattle.room_books.specs.Meeting.{outcome_of};
ghost use Rattle.room_books.specs.Taking.{answers_by, answers_then, claims_said, octets_in, IsMadeOf, OutcomeDated};
ghost use Rattle.room_books.specs.Room.{AreFitting, IsOwn, Meets, SlotDated};
ghost use Rattle.room_books.specs.Slots.{AreAnswersBySlot};
ghost use Rattle.room_books.specs.Reply.{AreShown, CanTell, AllTell, IsEventIn, IsReplyOf, ShowsGiven, WritesAnswers};

use crate::answer::LimitKind;
use crate::change::Views;
use crate::claim::Claim;
use crate::kept::Changes;
use crate::meeting::{Outcome, PartAnswer};
use crate::slots::answer_after;
use clash_cert::Clash;
use ical_values::{Address, Stamp};
use itip_messages::{Conflict, Decision, ObjectWriter, ReplyEvent, write_event};
use itip_order::{Part, Slot};
use std::alloc::{AllocError, Global};

/// The REPLY to a message that changes the answers of its meeting so: a VEVENT for each part that is to take place and is in the view, in their order; None where there is none.
///
/// A part is looked up in the view by binary search, and so is its answer.
pub(crate) fn reply_to(
    room: &Address,
    views: &Views<'_>,
    changes: &Changes,
) -> Result<Option<Vec<u8>>, AllocError>
    ensures { IfOk result (λ reply. (key : MeetingKey) (own : Book) (meeting : Meeting) → AreFitting key (claims_said views.now.claims.now)
        → IsOwn key own
        → IsMadeOf views.now.after.now (answers_then (answers_by (option_copied views.now.before)) changes.now) meeting → Meets own key meeting
        → Replies (address_octets room.now) own (claims_said views.now.claims.now) (octets_in reply)) }
{
    let shown = shown_in(views)?;
    if shown.is_empty() {
        return Ok(None);
    }
    let octets = reply_of(views.alloc, room, &shown, views.answers(), changes)?;
    Ok(Some(octets))
}

/// The claims that a reply answers: their parts are to take place, and in the view.
fn shown_in<'a>(views: &Views<'a>) -> Result<Vec<&'a Claim>, AllocError>
    ensures { IfOk result (λ shown. (history : List revisions.Part) → RepresentsHistory views.now.after.now history → AreShown history views.now.claims.now shown.items) }
{
    let mut shown = Vec::new(views.alloc);
    for claim in views.claims {
        if claim.is_set() && views.shows(&claim.part) {
            shown.push(claim)?;
        }
    }
    Ok(shown)
}

/// The REPLY that gives the answers to the parts of these claims.
fn reply_of(
    alloc: Global,
    room: &Address,
    shown: &[&Claim],
    before: &[PartAnswer],
    changes: &Changes,
) -> Result<Vec<u8>, AllocError>
    requires { AreAnswersBySlot before.now }
    ensures { IfOk result (λ octets. AllTell (answers_then before.now changes.now) shown.now
        → IsReplyOf (address_octets room.now) (answers_then before.now changes.now) shown.now octets.items) }
{
    let mut object = ObjectWriter::new(alloc);
    object.begin_calendar(Some("REPLY"))?;
    write_answers(&mut object, room, shown, before, changes)?;
    object.end_calendar()?;
    Ok(object.finish())
}

fn write_answers(
    object: &mut ObjectWriter,
    room: &Address,
    shown: &[&Claim],
    before: &[PartAnswer],
    changes: &Changes,
) -> Result<(), AllocError>
    requires { AreAnswersBySlot before.now }
    ensures { OnOk result (AllTell (answers_then before.now changes.now) shown.now → WritesAnswers (address_octets room.now) (answers_then before.now changes.now) shown.now object.old object.new) }
{
    for claim in shown {
        write_answer(object, room, &claim.part, before, changes)?;
    }
    Ok(())
}

/// The VEVENT that gives the answer to a part; nothing where it has none, or one with an instant that no stamp can write.
fn write_answer(
    object: &mut ObjectWriter,
    room: &Address,
    part: &Part,
    before: &[PartAnswer],
    changes: &Changes,
) -> Result<(), AllocError>
    requires { AreAnswersBySlot before.now }
    ensures { OnOk result (CanTell (answers_then before.now changes.now) (part_of part.now) → WritesLines object.old object.new (ShowsGiven (address_octets room.now) (answers_then before.now changes.now) (part_of part.now))) }
{
    let Some(event) = event_of(room, part, before, changes) else {
        return Ok(());
    };
    write_event(object, &event)?;
    Ok(())
}

/// What that VEVENT says.
fn event_of<'a>(
    room: &'a Address,
    part: &'a Part,
    before: &'a [PartAnswer],
    changes: &'a Changes,
) -> Option<ReplyEvent<'a>>
    requires { AreAnswersBySlot before.now }
    ensures event { IfSome result (IsEventIn (address_octets room.now) (answers_then before.now changes.now) (part_of part.now)) }
    ensures none { IfNone result (CanTell (answers_then before.now changes.now) (part_of part.now) → ⊥) }
{
    let given = answer_after(before, changes, part.slot)?;
    let recurrence = recurrence_of(part.slot)?;
    // no `?`, nor in `busy`: Rattle's borrow checker doesn't follow stamps beside references through it
    let Some(decision) = decision_of(&given.outcome) else {
        return None;
    };
    Some(ReplyEvent {
        uid: &part.uid,
        recurrence,
        sequence: part.revision.sequence,
        moment: given.moment,
        organiser: &part.organiser,
        room,
        decision,
    })
}

/// The RECURRENCE-ID of a slot, which the whole of a meeting has none of (RFC 5545 3.8.4.4); None where no stamp can write it.
pub(crate) fn recurrence_of(slot: Slot) -> Option<Option<Stamp>>
    ensures slot { IfSome result (λ recurrence. recurrence_slot recurrence ≡ slot_of slot) }
    ensures none { IfNone result (SlotDated (slot_of slot) → ⊥) }
{
    match slot {
        Slot::Whole => Some(None),
        Slot::At(instant) => Some(Some(Stamp::of_instant(instant)?)),
    }
}

/// The decision, None where a clash has an instant that no stamp can write.
fn decision_of(outcome: &Outcome) -> Option<Decision<'_>>
    ensures decision { IfSome result (λ decision. decision_outcome decision ≡ outcome_of outcome.now) }
    ensures none { IfNone result (OutcomeDated (outcome_of outcome.now) → ⊥) }
{
    match outcome {
        Outcome::Accepted => Some(Decision::Accepted),
        Outcome::Limit(LimitKind::Series) => Some(Decision::SeriesLimit),
        Outcome::Limit(LimitKind::Singles) => Some(Decision::SinglesLimit),
        Outcome::Declined(clash) => busy(clash),
    }
}

fn busy(clash: &Clash) -> Option<Decision<'_>>
    ensures decision { IfSome result (λ decision. decision_outcome decision ≡ outcome_of (Outcome.Declined clash.now)) }
    ensures none { IfNone result (OutcomeDated (outcome_of (Outcome.Declined clash.now)) → ⊥) }
{
    let first = clash.first.lend();
    let second = clash.second.lend();
    match Conflict::of(clash.instant, first, second) {
        Some(conflict) => Some(Decision::Busy(conflict)),
        None => None,
    }
}
