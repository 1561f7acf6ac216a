//! What a room keeps of one meeting: the parts taken, and the answers to those in the view by their slots. A message changes both in place.

ghost use Rattle.std.specs.Prelude.{◌≡◌, ◌+◌, ◌<◌, ◌≤◌, ℕ, not, filter, [], ◌∷◌, ◌++◌, IfOk, OnOk, OnErr, length};
ghost use Rattle.std.specs.List.Sorted.{IsSortedByKey};
ghost use Rattle.std.specs.Vec.{vec_len, vec_capacity};
ghost use Rattle.itip_order.specs.Parts.{slot_of};
ghost use Rattle.profile.specs.rooms.Revisions.{slot_cmp};
ghost use Rattle.room_books.specs.Slots.{AreAnswersBySlot, HasRoom, Reordered, is_at, left_without};

use crate::meeting::PartAnswer;
use crate::slots::{place_before, place_past};
use itip_order::{Held, Part, Slot};
use std::alloc::{AllocError, Global};

/// What a message does to the answers of its meeting: those of some slots go, and others come.
#[derive(Drop)]
pub struct Changes {
    /// In order.
    pub lost: Vec<Slot>,
    /// By their slots: those to new parts, and what is left of one that went.
    pub new: Vec<PartAnswer>,
    ghost rises: { IsSortedByKey slot_of slot_cmp lost.items },
    ghost by_slot: { AreAnswersBySlot new.items },
}

/// A meeting of a room.
#[derive(Drop)]
pub struct Meeting {
    pub held: Held,
    /// The answers to those parts in the view that are to take place, by their slots.
    pub answers: Vec<PartAnswer>,
    ghost by_slot: { AreAnswersBySlot answers.items },
}

impl Changes {
    ghost use Rattle.room_books.specs.Taking.{answers_then};

    /// The answers of these slots, in order, go; and these come, in any order.
    pub fn of(alloc: Global, lost: Vec<Slot>, new: Vec<PartAnswer>) -> Result<Changes, AllocError>
        requires { IsSortedByKey slot_of slot_cmp lost.items }
        ensures lost { IfOk result (λ changes. changes.lost ≡ lost) }
        ensures new { IfOk result (λ changes. Reordered new.items changes.new.items) }
    {
        let mut sorted = Vec::new(alloc);
        put_all(&mut sorted, new)?;
        Ok(Changes { lost, new: sorted })
    }
}

impl Meeting {
    ghost use Rattle.itip_order.specs.Registers.{together};
    ghost use Rattle.std.specs.Prelude.{IfSome, IfNone};
    ghost use Rattle.itip_order.specs.Registers.{at_slot, HasNone};
    ghost use Rattle.itip_order.specs.Parts.{part_of};
    ghost use Rattle.room_books.specs.Taking.{answers_then, IsMadeOf, IsViewed};

    /// One of which nothing was taken before.
    pub fn new(held: Held, changes: Changes) -> Meeting
        ensures { IsMadeOf held (answers_then [] changes) result }
    {
        Meeting {
            held,
            answers: changes.new,
        }
    }

    /// The part in the view of a slot; the part that is given is any one of the meeting.
    pub fn part_in(&self, part: &Part, slot: Slot) -> Option<&Part>
        ensures found { IfSome result (λ found. IsViewed self.now.held (at_slot (part_of part.now) (slot_of slot)) (part_of found.now)) }
        ensures none { IfNone result (HasNone self.now.held (at_slot (part_of part.now) (slot_of slot))) }
    {
        let held = self.held.alone();
        held.part_in(part, slot)
    }

    /// Takes more parts, and changes the answers in place. On an error nothing has changed. It moves the answers that come after those
    /// that go or come, and copies none.
    pub fn take(&mut self, alloc: Global, more: Held, changes: Changes) -> Result<(), AllocError>
        ensures made { OnOk result (IsMadeOf (together self.old.held more) (answers_then self.old.answers.items changes) self.new) }
        ensures err { OnErr result (self.new ≡ self.old) }
    {
        let larger = larger(alloc, &self.answers, &changes.new)?;
        self.held.take_all(more)?;
        move_into(&mut self.answers, larger);
        take_out(&mut self.answers, &changes.lost);
        // there is room for them
        let _ = put_all(&mut self.answers, changes.new);
        Ok(())
    }
}

/// Memory for these answers and the new ones, where there isn't room for the new ones after them.
fn larger(
    alloc: Global,
    answers: &Vec<PartAnswer>,
    new: &[PartAnswer],
) -> Result<Option<Vec<PartAnswer>>, AllocError>
    ensures { IfOk result (HasRoom answers.now (length new.now)) }
{
    let wanted = answers.len() + new.len();
    if wanted <= answers.capacity() {
        return Ok(None);
    }
    let mut larger = Vec::new(alloc);
    larger.reserve(answers.len())?;
    // for more than those, as it grows
    larger.reserve(wanted)?;
    Ok(Some(larger))
}

/// Moves answers into a larger place, if there is one.
fn move_into(answers: &mut Vec<PartAnswer>, larger: Option<Vec<PartAnswer>>)
    ensures { (more : ℕ) → HasRoom answers.old more larger → (answers.new.items ≡ answers.old.items) × (vec_len answers.new + more ≤ vec_capacity answers.new) }
{
    if let Some(mut larger) = larger {
        // there is room for them
        let _ = larger.append(answers);
        *answers = larger;
    }
}

/// Takes out the answers of some slots.
fn take_out(answers: &mut Vec<PartAnswer>, slots: &[Slot])
    requires { AreAnswersBySlot answers.old.items }
    ensures items { answers.new.items ≡ left_without slots.now answers.old.items }
    ensures by_slot { AreAnswersBySlot answers.new.items }
    ensures len { vec_len answers.new ≤ vec_len answers.old }
    ensures capacity { vec_capacity answers.new ≡ vec_capacity answers.old }
{
    for slot in slots {
        take_out_of(answers, *slot);
    }
}

/// Takes out the answers of a slot.
fn take_out_of(answers: &mut Vec<PartAnswer>, slot: Slot)
    requires { AreAnswersBySlot answers.old.items }
    ensures items { answers.new.items ≡ filter (λ given. not (is_at (slot_of slot) given)) answers.old.items }
    ensures by_slot { AreAnswersBySlot answers.new.items }
    ensures len { vec_len answers.new ≤ vec_len answers.old }
    ensures capacity { vec_capacity answers.new ≡ vec_capacity answers.old }
{
    let from = place_before(answers, slot);
    let to = place_past(answers, slot);
    for _place in from..to {
        answers.remove(from);
    }
}

/// Puts in more answers by their slots.
fn put_all(answers: &mut Vec<PartAnswer>, new: Vec<PartAnswer>) -> Result<(), AllocError>
    requires { AreAnswersBySlot answers.old.items }
    ensures put { OnOk result (Reordered (answers.old.items ++ new.items) answers.new.items) }
    ensures by_slot { OnOk result (AreAnswersBySlot answers.new.items) }
    ensures full { OnErr result (vec_capacity answers.old < vec_len answers.old + vec_len new) }
{
    for given in new {
        put(answers, given)?;
    }
    Ok(())
}

/// Puts in an answer by its slot.
fn put(answers: &mut Vec<PartAnswer>, given: PartAnswer) -> Result<(), AllocError>
    requires { AreAnswersBySlot answers.old.items }
    ensures put { OnOk result (Reordered (given ∷ answers.old.items) answers.new.items) }
    ensures by_slot { OnOk result (AreAnswersBySlot answers.new.items) }
    ensures len { OnOk result (vec_len answers.new ≡ vec_len answers.old + 1) }
    ensures capacity { vec_capacity answers.old ≤ vec_capacity answers.new }
    ensures full { OnErr result (vec_capacity answers.old ≤ vec_len answers.old) }
{
    let at = place_past(answers, given.slot);
    answers.insert(at, given)?;
    Ok(())
}
