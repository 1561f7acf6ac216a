//! What a message changes in the view of its meeting, and in the answers that were given before: computed beside the room.

ghost use Rattle.std.specs.Prelude.{◌≡◌, ◌&&◌, ◌||◌, false, map, Contains, IsTrue, List, [], None, Some, IfOk, OnOk, IfSome, is_some, option_copied};
ghost use Rattle.std.specs.List.{list_any};
ghost use Rattle.profile.specs.rooms.Revisions as revisions;
ghost use Rattle.profile.specs.rooms.Rooms as rooms;
ghost use Rattle.itip_order.specs.Parts.{part_of, slot_of};
ghost use Rattle.std.specs.List.Sorted.{IsSortedByKey};
ghost use Rattle.profile.specs.rooms.Revisions.{slot_cmp};
ghost use Rattle.room_books.specs.Taking as takings;
ghost use Rattle.room_books.specs.Slots as touching;
ghost use Rattle.itip_order.specs.Registers.{RepresentsHistory};
ghost use Rattle.room_books.specs.Meeting.{outcome_of, all_singles, all_series, series_by, singles_by, AddsLoss, AreFewer, SaysLossOfOne};
ghost use Rattle.std.specs.Option.{option_to_list};
ghost use Rattle.room_books.specs.Slots.{AllTouch, AreAnswersBySlot, givens, IsUntouched};
ghost use Rattle.room_books.specs.Gone.{IsPartedInto, IsSplitInto, Sheds};
ghost use Rattle.room_books.specs.declared.meeting.PartAnswer.{PartAnswer};
ghost use Rattle.room_books.specs.Room.{KeepsEach, KeepsSome};
ghost use Rattle.room_books.specs.Taking.{answers_by, LeavesAll, HasHistory, held_after, AreAsked, part_instance, KeepsWhatIsLeft, IsKindIn, IsLeftAlone, IsAnswerAfter, frees_then, kept_then, kind_view, parts_said, series_still, singles_of_left};

use crate::answer::Kind;
use crate::claim::Claim;
use crate::hidden::{has_instance, hides_start, is_hidden, series_without};
use crate::kept::Meeting;
use crate::meeting::{Outcome, PartAnswer};
use crate::slots::{answers_at, answers_of, is_touched};
use cal_events::Single;
use itip_order::{Held, Part, Slot, Together};
use std::alloc::{AllocError, Global};

/// The claims of a message, and their meeting before it and after it.
#[derive(Clone, Copy)]
pub(crate) struct Views<'a> {
    pub alloc: Global,
    /// What is kept of the meeting; None where nothing of it was ever taken.
    pub before: Option<&'a Meeting>,
    /// What is held of it with the parts of the claims.
    pub after: &'a Together<'a>,
    pub claims: &'a [Claim],
    /// One of the meeting's parts, by which others of it are found.
    pub part: &'a Part,
    /// The slots of the claims' parts, in order.
    pub slots: &'a [Slot],
    ghost rises: { IsSortedByKey slot_of slot_cmp slots.now },
    ghost all: { AllTouch slots.now (parts_said claims.now) },
}

/// What becomes of the answers of a meeting before anything new is decided.
#[derive(Drop)]
pub(crate) struct Change {
    /// The slots of those that don't stay as they are, in order.
    pub lost: Vec<Slot>,
    /// What is left of them where their parts stay in the view.
    pub left: Vec<PartAnswer>,
    /// The instances that no answer confirms any more.
    pub gone: Vec<Single>,
    /// Whether one of a series is gone.
    pub sheds: bool,
    ghost rises: { IsSortedByKey slot_of slot_cmp lost.items },
}

impl Change {
    /// Whether an instance that an answer confirmed is gone.
    pub(crate) fn frees(&self) -> bool
        ensures { result ≡ frees_then None self.now.gone.items self.now.sheds }
    {
        self.sheds || !self.gone.is_empty()
    }
}

/// What answers no longer confirm.
#[derive(Drop)]
struct Shed {
    singles: Vec<Single>,
    /// Whether an instance of a series is among it.
    recurs: bool,
}

impl Shed {
    /// All that an answer confirmed goes after the others.
    fn add(&mut self, given: &PartAnswer) -> Result<(), AllocError>
        ensures singles { OnOk result (Sheds given.now.singles.items [] self.old.singles.items self.new.singles.items) }
        ensures series { OnOk result (AddsLoss self.old.recurs self.new.recurs (option_to_list given.now.series) []) }
    {
        self.singles.extend_from_slice(&given.singles)?;
        self.lose(has_instance(&given.series));
        Ok(())
    }

    /// An instance of a series goes too, or doesn't.
    fn lose(&mut self, loses: bool)
        ensures singles { self.new.singles ≡ self.old.singles }
        ensures recurs { self.new.recurs ≡ (self.old.recurs || loses) }
    {
        self.recurs = self.recurs || loses;
    }
}

/// The parts of these claims, as they are taken.
pub(crate) fn parts_of(alloc: Global, claims: &[Claim]) -> Result<Held, AllocError>
    ensures { IfOk result (λ parts. RepresentsHistory parts (parts_said claims.now)) }
{
    let mut parts = Held::new(alloc);
    for claim in claims {
        parts.take(claim.part.clone()?)?;
    }
    Ok(parts)
}

/// What is held of a meeting where more of its parts are taken.
pub(crate) fn held_with<'a>(before: Option<&'a Meeting>, more: &'a Held) -> Together<'a>
    ensures { result ≡ held_after (option_copied before.entry) more.now }
{
    match before {
        Some(meeting) => meeting.held.with(more),
        None => more.alone(),
    }
}

impl<'a> Views<'a> {
    /// Whether a part is in the view after.
    pub(crate) fn shows(&self, part: &Part) -> bool
        ensures { (history : List revisions.Part) → RepresentsHistory self.now.after.now history → result ≡ revisions.in_view history (part_of part.now) }
    {
        self.after.shows(part)
    }

    /// Whether a part is in the view before.
    fn showed(&self, part: &Part) -> bool
        ensures { (history : List revisions.Part) → HasHistory (option_copied self.now.before) history → result ≡ revisions.in_view history (part_of part.now) }
    {
        match self.before {
            Some(meeting) => meeting.held.shows(part),
            None => false,
        }
    }

    /// Whether a part is in the view after, and wasn't before.
    fn is_fresh(&self, part: &Part) -> bool
        ensures { (before after : List revisions.Part) → HasHistory (option_copied self.now.before) before → RepresentsHistory self.now.after.now after
            → result ≡ rooms.is_fresh before after (part_of part.now) }
    {
        match self.before {
            Some(meeting) => meeting.held.is_new_in(self.after, part),
            None => self.shows(part),
        }
    }

    /// Whether a part is in the view before and after.
    fn is_same(&self, part: &Part) -> bool
        ensures { (before after : List revisions.Part) → HasHistory (option_copied self.now.before) before → RepresentsHistory self.now.after.now after
            → result ≡ rooms.is_same before after (part_of part.now) }
    {
        self.shows(part) && self.showed(part)
    }

    /// The answers that the meeting has before; none where nothing of it was ever taken.
    pub(crate) fn answers(&self) -> &'a [PartAnswer]
        ensures are { result.now ≡ answers_by (option_copied self.now.before) }
        ensures by_slot { AreAnswersBySlot result.now }
    {
        match self.before {
            Some(meeting) => &meeting.answers,
            None => &[],
        }
    }

    /// The claims that get an answer now: their parts are fresh, and to take place.
    pub(crate) fn asked(&self) -> Result<Vec<&'a Claim>, AllocError>
        ensures { IfOk result (λ asked. (before after : List revisions.Part) → HasHistory (option_copied self.now.before) before → RepresentsHistory self.now.after.now after
            → AreAsked before after self.now.claims.now asked.items) }
    {
        let mut asked = Vec::new(self.alloc);
        for claim in self.claims {
            if claim.is_set() && self.is_fresh(&claim.part) {
                asked.push(claim)?;
            }
        }
        Ok(asked)
    }

    /// What became of the message, where this was decided of the claims that get an answer now.
    pub(crate) fn kind_of(&self, outcome: &Option<Outcome>) -> Result<Kind, AllocError>
        ensures kind { IfOk result (IsKindIn (option_copied self.now.before) self.now.after.now self.now.claims.now outcome.now) }
        ensures decision { IfOk result (λ kind. rooms.is_decision (kind_view kind) ≡ is_some outcome.now) }
    {
        if let Some(outcome) = outcome {
            return kind_of_outcome(outcome);
        }
        if self.any_fresh() {
            return Ok(Kind::Cancelled);
        }
        if self.any_same() {
            return Ok(Kind::Repeated);
        }
        Ok(Kind::Stale)
    }

    fn any_fresh(&self) -> bool
        ensures { (before after : List revisions.Part) → HasHistory (option_copied self.now.before) before → RepresentsHistory self.now.after.now after
            → result ≡ list_any (rooms.is_fresh before after) (parts_said self.now.claims.now) }
    {
        for claim in self.claims {
            if self.is_fresh(&claim.part) {
                return true;
            }
        }
        false
    }

    fn any_same(&self) -> bool
        ensures { (before after : List revisions.Part) → HasHistory (option_copied self.now.before) before → RepresentsHistory self.now.after.now after
            → result ≡ list_any (rooms.is_same before after) (parts_said self.now.claims.now) }
    {
        for claim in self.claims {
            if self.is_same(&claim.part) {
                return true;
            }
        }
        false
    }

    /// The first claim whose part is fresh where nothing of the whole was ever taken, if there is one.
    pub(crate) fn unheard(&self) -> Option<&'a Claim>
        ensures found { IfSome result (λ claim. Contains self.now.claims.now claim.now) }
        ensures wanted { (before after : List revisions.Part) → HasHistory (option_copied self.now.before) before → RepresentsHistory self.now.after.now after
            → is_some result ≡ list_any (λ part. rooms.is_fresh before after part && rooms.lacks_whole after part) (parts_said self.now.claims.now) }
    {
        for claim in self.claims {
            if self.is_unheard(&claim.part) {
                return Some(claim);
            }
        }
        None
    }

    /// Whether a part is fresh, and nothing of the whole of its meeting was ever taken.
    fn is_unheard(&self, part: &Part) -> bool
        ensures { (before after : List revisions.Part) → HasHistory (option_copied self.now.before) before → RepresentsHistory self.now.after.now after
            → result ≡ (rooms.is_fresh before after (part_of part.now) && rooms.lacks_whole after (part_of part.now)) }
    {
        self.is_fresh(part) && lacks_whole(self.after, part)
    }

    /// What becomes of the answers where the parts of the claims were taken: those to parts that left the view go, and of those that confirm
    /// less than before that is left; the others stay. Only what the message touches is looked at.
    pub(crate) fn change(&self) -> Result<Change, AllocError>
        ensures kept { IfOk result (λ change.
            KeepsEach (part_of self.now.part.now) self.now.slots.now (option_copied self.now.before) self.now.after.now
            (kept_then (option_copied self.now.before) change.lost.items change.left.items)) }
        ensures parted { IfOk result (λ change.
            IsPartedInto (singles_by (option_copied self.now.before)) change.gone.items
            (all_singles (kept_then (option_copied self.now.before) change.lost.items change.left.items))) }
        ensures fewer { IfOk result (λ change.
            AreFewer (series_by (option_copied self.now.before)) (all_series (kept_then (option_copied self.now.before) change.lost.items change.left.items))) }
        ensures sheds { IfOk result (λ change. (history : List revisions.Part) → RepresentsHistory self.now.after.now history
            → SaysLossOfOne change.sheds (series_by (option_copied self.now.before)) (all_series (kept_then (option_copied self.now.before) change.lost.items change.left.items))) }
    {
        let Some(meeting) = self.before else {
            return Ok(Change {
                lost: Vec::new(self.alloc),
                left: Vec::new(self.alloc),
                gone: Vec::new(self.alloc),
                sheds: false,
            });
        };
        let lost = self.lost(meeting)?;
        let out = answers_at(self.alloc, &meeting.answers, &lost)?;
        let change = self.left_at(meeting, lost, &out)?;
        Ok(change)
    }

    /// What is left of these answers, those of the slots that are lost, and the instances that they no longer confirm.
    fn left_at(
        &self,
        before: &Meeting,
        lost: Vec<Slot>,
        out: &[&PartAnswer],
    ) -> Result<Change, AllocError>
        requires { IsSortedByKey slot_of slot_cmp lost.items }
        ensures lost { IfOk result (λ change. change.lost ≡ lost) }
        ensures left { IfOk result (λ change. KeepsSome (part_of self.now.part.now) self.now.slots.now before.now.held self.now.after.now (givens out.now) change.left.items) }
        ensures split { IfOk result (λ change. IsSplitInto (all_singles (givens out.now)) change.gone.items (all_singles change.left.items)) }
        ensures fewer { IfOk result (λ change. AreFewer (all_series (givens out.now)) (all_series change.left.items)) }
        ensures sheds { IfOk result (λ change. (history : List revisions.Part) → RepresentsHistory self.now.after.now history
            → SaysLossOfOne change.sheds (all_series (givens out.now)) (all_series change.left.items)) }
    {
        let mut left = Vec::new(self.alloc);
        let mut gone = Shed {
            singles: Vec::new(self.alloc),
            recurs: false,
        };
        for given in out {
            let Some(still) = self.still(before, given, &mut gone)? else {
                continue;
            };
            left.push(still)?;
        }
        Ok(Change {
            lost,
            left,
            gone: gone.singles,
            sheds: gone.recurs,
        })
    }

    /// The slots of the answers that don't stay as they are, in order.
    fn lost(&self, before: &Meeting) -> Result<Vec<Slot>, AllocError>
        ensures rises { IfOk result (λ lost. IsSortedByKey slot_of slot_cmp lost.items) }
        ensures others { IfOk result (λ lost. (given : PartAnswer) → Contains before.now.answers.items given → touching.is_touched lost.items (slot_of given.slot) ≡ false
            → IsLeftAlone self.now.slots.now before.now.held self.now.after.now (part_of self.now.part.now) given) }
    {
        let looked = looked_at(self.alloc, self.slots, &before.answers)?;
        let mut lost = Vec::new(self.alloc);
        for slot in &looked {
            if self.stays(before, *slot) {
                continue;
            }
            lost.push(*slot)?;
        }
        Ok(lost)
    }

    /// Whether the answers of a slot stay as they are.
    fn stays(&self, before: &Meeting, slot: Slot) -> bool
        ensures { IsTrue result → (given : PartAnswer) → Contains before.now.answers.items given → slot_of given.slot ≡ slot_of slot
            → IsAnswerAfter self.now.slots.now before.now.held self.now.after.now (part_of self.now.part.now) given (Some given) }
    {
        let Some(stayed) = before.part_in(self.part, slot) else {
            return false;
        };
        if !self.shows(stayed) {
            return false;
        }
        self.leaves_each(stayed, answers_of(&before.answers, slot))
    }

    /// Whether no part of the claims in the view hides an instance that these answers to a part confirm.
    fn leaves_each(&self, part: &Part, answers: &[PartAnswer]) -> bool
        ensures { IsTrue result → (history : List revisions.Part) → RepresentsHistory self.now.after.now history → (given : PartAnswer) → Contains answers.now given
            → LeavesAll self.now.slots.now history (part_of part.now) given }
    {
        for given in answers {
            if !self.leaves_all(part, given) {
                return false;
            }
        }
        true
    }

    /// Whether no part of the claims in the view hides an instance that this answer to a part confirms.
    fn leaves_all(&self, part: &Part, given: &PartAnswer) -> bool
        ensures { IsTrue result → (history : List revisions.Part) → RepresentsHistory self.now.after.now history → LeavesAll self.now.slots.now history (part_of part.now) given.now }
    {
        if self.any_hidden(part, &given.singles) {
            return false;
        }
        !hides_start(self.after, part, self.slots, &given.series)
    }

    /// Whether a part of the claims in the view hides one of a part's instances.
    fn any_hidden(&self, part: &Part, singles: &[Single]) -> bool
        ensures { result ≡ false → (history : List revisions.Part) → RepresentsHistory self.now.after.now history
            → singles.now ≡ takings.left_beside self.now.slots.now history (part_of part.now) singles.now }
    {
        for single in singles {
            if self.is_hidden_by(part, *single) {
                return true;
            }
        }
        false
    }

    /// An answer whose part stays in the view, with the instances that it still confirms; those that it doesn't go after others.
    fn still(
        &self,
        before: &Meeting,
        given: &PartAnswer,
        gone: &mut Shed,
    ) -> Result<Option<PartAnswer>, AllocError>
        ensures still { IfOk result (IsAnswerAfter self.now.slots.now before.now.held self.now.after.now (part_of self.now.part.now) given.now) }
        ensures sheds { IfOk result (λ still. Sheds given.now.singles.items (singles_of_left still) gone.old.singles.items gone.new.singles.items) }
        ensures fewer { IfOk result (λ still. AreFewer (option_to_list given.now.series) (series_still still)) }
        ensures loses { IfOk result (λ still. (history : List revisions.Part) → RepresentsHistory self.now.after.now history
            → AddsLoss gone.old.recurs gone.new.recurs (option_to_list given.now.series) (series_still still)) }
    {
        let Some(own) = before.part_in(self.part, given.slot) else {
            gone.add(given)?;
            return Ok(None);
        };
        if !self.shows(own) {
            gone.add(given)?;
            return Ok(None);
        }
        Ok(Some(self.left(own, given, gone)?))
    }

    /// An answer to a part, with those of its instances that no part of the claims in the view hides; the others go
    /// after those that are gone.
    fn left(
        &self,
        part: &Part,
        given: &PartAnswer,
        gone: &mut Shed,
    ) -> Result<PartAnswer, AllocError>
        ensures left { IfOk result (KeepsWhatIsLeft self.now.slots.now self.now.after.now (part_of part.now) given.now) }
        ensures sheds { IfOk result (λ left. Sheds given.now.singles.items left.singles.items gone.old.singles.items gone.new.singles.items) }
        ensures fewer { IfOk result (λ left. AreFewer (option_to_list given.now.series) (option_to_list left.series)) }
        ensures loses { IfOk result (λ left. (history : List revisions.Part) → RepresentsHistory self.now.after.now history
            → AddsLoss gone.old.recurs gone.new.recurs (option_to_list given.now.series) (option_to_list left.series)) }
    {
        let outcome = given.outcome.clone()?;
        let singles = self.left_beside(part, &given.singles, &mut gone.singles)?;
        let series = series_without(self.alloc, self.after, part, self.slots, &given.series)?;
        gone.lose(hides_start(self.after, part, self.slots, &given.series));
        Ok(PartAnswer {
            slot: given.slot,
            moment: given.moment,
            outcome,
            singles,
            series,
        })
    }

    /// Those of a part's instances that no part of the claims in the view hides; the others go after those that are gone.
    fn left_beside(
        &self,
        part: &Part,
        singles: &[Single],
        gone: &mut Vec<Single>,
    ) -> Result<Vec<Single>, AllocError>
        ensures left { IfOk result (λ left. (history : List revisions.Part) → RepresentsHistory self.now.after.now history
            → left.items ≡ takings.left_beside self.now.slots.now history (part_of part.now) singles.now) }
        ensures sheds { IfOk result (λ left. Sheds singles.now left.items gone.old.items gone.new.items) }
    {
        let mut left = Vec::new(self.alloc);
        for single in singles {
            if self.is_hidden_by(part, *single) {
                gone.push(*single)?;
                continue;
            }
            left.push(*single)?;
        }
        Ok(left)
    }

    /// Whether another part in the view, one of the claims', hides an instance of a part.
    fn is_hidden_by(&self, part: &Part, single: Single) -> bool
        ensures { (history : List revisions.Part) → RepresentsHistory self.now.after.now history
            → result ≡ (touching.is_touched self.now.slots.now (revisions.At single.slot) && rooms.is_hidden history (part_of part.now) (part_instance
            (part_of part.now) single)) }
    {
        is_touched(self.slots, Slot::At(single.slot)) && is_hidden(self.after, part, single)
    }
}

/// The slots of the answers that parts of these slots can change: all of them where the whole is among these.
fn looked_at(alloc: Global, slots: &[Slot], answers: &[PartAnswer]) -> Result<Vec<Slot>, AllocError>
    requires slots { IsSortedByKey slot_of slot_cmp slots.now }
    requires answers { AreAnswersBySlot answers.now }
    ensures rises { IfOk result (λ looked. IsSortedByKey slot_of slot_cmp looked.items) }
    ensures others { IfOk result (λ looked. (given : PartAnswer) → Contains answers.now given → touching.is_touched looked.items (slot_of given.slot) ≡ false
        → IsUntouched slots.now (slot_of given.slot)) }
{
    if is_touched(slots, Slot::Whole) {
        let all = slots_in(alloc, answers)?;
        return Ok(all);
    }
    let mut looked = Vec::new(alloc);
    looked.push(Slot::Whole)?;
    looked.extend_from_slice(slots)?;
    Ok(looked)
}

/// The slots of answers.
fn slots_in(alloc: Global, answers: &[PartAnswer]) -> Result<Vec<Slot>, AllocError>
    ensures { IfOk result (λ slots. slots.items ≡ map (λ given. given.slot) answers.now) }
{
    let mut slots = Vec::new(alloc);
    for given in answers {
        slots.push(given.slot)?;
    }
    Ok(slots)
}

/// Whether nothing was ever taken of the whole of a part's meeting. The greatest part of the whole is in the view, whatever it says.
fn lacks_whole(held: &Together<'_>, part: &Part) -> bool
    ensures { (history : List revisions.Part) → RepresentsHistory held.now history → result ≡ rooms.lacks_whole history (part_of part.now) }
{
    held.part_in(part, Slot::Whole).is_none()
}

fn kind_of_outcome(outcome: &Outcome) -> Result<Kind, AllocError>
    ensures { IfOk result (λ kind. kind_view kind ≡ rooms.kind_of_outcome (outcome_of outcome.now)) }
{
    match outcome {
        Outcome::Accepted => Ok(Kind::Accepted),
        Outcome::Declined(clash) => Ok(Kind::Declined(clash.clone()?)),
        Outcome::Limit(limit) => Ok(Kind::Limit(*limit)),
    }
}
