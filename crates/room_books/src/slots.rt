//! Slots: those of a message's parts, and the answers of a meeting by theirs.

ghost use Rattle.std.specs.Prelude.{◌≡◌, ◌++◌, filter, IfOk, OnOk, IfSome, IfNone, Contains};
ghost use Rattle.std.specs.List.Sorted.{IsPermutation, IsSortedByKey};
ghost use Rattle.profile.specs.rooms.Revisions.{slot_cmp};
ghost use Rattle.itip_order.specs.Parts.{slot_of};
ghost use Rattle.room_books.specs.declared.meeting.PartAnswer.{PartAnswer};
ghost use Rattle.room_books.specs.Taking.{answers_then, parts_said};
ghost use Rattle.room_books.specs.Slots as touching;
ghost use Rattle.room_books.specs.Slots.{AllTouch, AreAnswersBySlot, givens, is_at, is_below, is_up_to, taken_at, IsSplitAt};

use crate::claim::Claim;
use crate::kept::Changes;
use crate::meeting::PartAnswer;
use itip_order::Slot;
use std::alloc::{AllocError, Global};

/// The slots of the parts of these claims, in order.
pub fn slots_of(alloc: Global, claims: &[Claim]) -> Result<Vec<Slot>, AllocError>
    ensures rises { IfOk result (λ slots. IsSortedByKey slot_of slot_cmp slots.items) }
    ensures all { IfOk result (λ slots. AllTouch slots.items (parts_said claims.now)) }
{
    let mut slots = Vec::new(alloc);
    for claim in claims {
        slots.push(claim.part.slot)?;
    }
    put_in_order(&mut slots);
    Ok(slots)
}

/// Puts slots in order.
pub fn put_in_order(slots: &mut Vec<Slot>)
    ensures same { IsPermutation slots.old.items slots.new.items }
    ensures rises { IsSortedByKey slot_of slot_cmp slots.new.items }
{
    slots.sort_unstable();
}

/// Whether a slot is one of these, which are in order.
pub fn is_touched(sorted: &[Slot], slot: Slot) -> bool
    requires { IsSortedByKey slot_of slot_cmp sorted.now }
    ensures { result ≡ touching.is_touched sorted.now (slot_of slot) }
{
    sorted.binary_search(&slot).is_ok()
}

/// The place of the first answer of a slot that isn't below, among answers by their slots.
pub fn place_before(answers: &[PartAnswer], slot: Slot) -> usize
    requires { AreAnswersBySlot answers.now }
    ensures { IsSplitAt (is_below (slot_of slot)) answers.now result }
{
    answers.partition_point(|given| given.slot.cmp(&slot).is_lt())
}

/// The place of the first answer of a slot above, among answers by their slots.
pub fn place_past(answers: &[PartAnswer], slot: Slot) -> usize
    requires { AreAnswersBySlot answers.now }
    ensures { IsSplitAt (is_up_to (slot_of slot)) answers.now result }
{
    answers.partition_point(|given| given.slot.cmp(&slot).is_le())
}

/// The answers of a slot, among answers by their slots.
pub fn answers_of(answers: &[PartAnswer], slot: Slot) -> &[PartAnswer]
    requires { AreAnswersBySlot answers.now }
    ensures { result.now ≡ filter (is_at (slot_of slot)) answers.now }
{
    let from = place_before(answers, slot);
    let to = place_past(answers, slot);
    let rest = &answers[from..];
    &rest[..to - from]
}

/// The answers of these slots, among answers by theirs: each slot is looked for after what was found before.
pub fn answers_at<'a>(
    alloc: Global,
    answers: &'a [PartAnswer],
    slots: &[Slot],
) -> Result<Vec<&'a PartAnswer>, AllocError>
    requires slots { IsSortedByKey slot_of slot_cmp slots.now }
    requires answers { AreAnswersBySlot answers.now }
    ensures { IfOk result (λ are. givens are.items ≡ taken_at slots.now answers.now) }
{
    let mut are = Vec::new(alloc);
    let mut rest = answers;
    for slot in slots {
        push_all(&mut are, answers_of(rest, *slot))?;
        let past = place_past(rest, *slot);
        rest = &rest[past..];
    }
    Ok(are)
}

/// Puts answers after others.
fn push_all<'a>(are: &mut Vec<&'a PartAnswer>, more: &'a [PartAnswer]) -> Result<(), AllocError>
    ensures { OnOk result (givens are.new.items ≡ givens are.old.items ++ more.now) }
{
    for given in more {
        are.push(given)?;
    }
    Ok(())
}

/// The answer to the part of a slot, among answers by their slots.
pub fn answer_of(answers: &[PartAnswer], slot: Slot) -> Option<&PartAnswer>
    requires { AreAnswersBySlot answers.now }
    ensures found { IfSome result (λ given. Contains answers.now given.now × (slot_of given.now.slot ≡ slot_of slot)) }
    ensures none { IfNone result ((given : PartAnswer) → Contains answers.now given → slot_of given.slot ≡ slot_of slot → ⊥) }
{
    let own = answers_of(answers, slot);
    let Some(given) = own.first() else {
        return None;
    };
    Some(given)
}

/// The answer to the part of a slot, where these are the answers before a message and what it does to them.
pub fn answer_after<'a>(
    before: &'a [PartAnswer],
    changes: &'a Changes,
    slot: Slot,
) -> Option<&'a PartAnswer>
    requires { AreAnswersBySlot before.now }
    ensures found { IfSome result (λ given. Contains (answers_then before.now changes.now) given.now × (slot_of given.now.slot ≡ slot_of slot)) }
    ensures none { IfNone result ((given : PartAnswer) → Contains (answers_then before.now changes.now) given → slot_of given.slot ≡ slot_of slot → ⊥) }
{
    if let Some(given) = answer_of(&changes.new, slot) {
        return Some(given);
    }
    if is_touched(&changes.lost, slot) {
        return None;
    }
    let Some(given) = answer_of(before, slot) else {
        return None;
    };
    Some(given)
}
