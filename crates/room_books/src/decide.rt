//! The decision: may what is asked of a meeting be confirmed beside what is?

ghost use Rattle.std.specs.Prelude.{◌≡◌, ◌≤◌, ◌+◌, ◌++◌, List, IfOk, OnOk, length, map, Contains};
ghost use Rattle.std.specs.List.{AllZip, IsDistinct};
ghost use Rattle.std.specs.List.Sorted.{IsSortedByKey};
ghost use Rattle.std.specs.Map.{keys_of, lookup};
ghost use Rattle.itip_order.specs.Parts.{slot_of};
ghost use Rattle.profile.specs.rooms.Revisions.{slot_cmp};
ghost use Rattle.clash_cert.specs.Makings.{AreBothNamed};
ghost use Rattle.cal_events.specs.declared.instance.Single.{Single};
ghost use Rattle.room_books.specs.Meeting.{all_series, all_singles, beside, keyed_instance, instance_list, other_recurring, others, recurring_at, same_key, series_by, singles_by, spans_of, AreFewer, RecursIn, AreBusyIn, HaveOverlap};
ghost use Rattle.room_books.specs.Gone.{IsLater, IsPartedInto};
ghost use Rattle.room_books.specs.Recurring.{recurring_said, AreAllOf, AreClearBeside, AreNewClear};
ghost use Rattle.room_books.specs.Taking.{kept_then, IsAccepted, IsDecided, IsDecision, IsWholeDecision};

use crate::answer::LimitKind;
use crate::claim::Claim;
use crate::confirming::{count_series, kept_series, series_of};
use crate::gone::Gone;
use crate::kept::Meeting;
use crate::meeting::{MeetingKey, Outcome, PartAnswer};
use crate::recurring::{Recurring, clash_from, push_all, single_beside};
use crate::room::Room;
use crate::slots::answers_of;
use cal_events::{Series, Single, Span, first_overlap};
use clash_cert::{Clash, clash_of};
use ical_values::Stamp;
use indexmap::IndexMap;
use itip_order::{Slot, Together};
use std::alloc::{AllocError, Global};

/// How many series a room may have confirmed; this profile's choice.
pub const MOST_SERIES: usize = 64;

/// How many single instances a room may have confirmed; this profile's choice.
pub const MOST_SINGLES: usize = 10_000;

/// The meetings of a room, in order of first arrival.
pub type Meetings = IndexMap<MeetingKey, Meeting>;

/// An instance that is asked for, and one that stays confirmed and shares an instant with it.
#[derive(Clone, Copy)]
pub(crate) struct SharedInstant<'a> {
    pub asked: Single,
    pub other: &'a MeetingKey,
    pub booked: Single,
}

/// A meeting whose answers change, in its room: what is asked of it is decided beside what it keeps and what all others have confirmed.
#[derive(Clone, Copy)]
pub(crate) struct Deciding<'a> {
    pub room: &'a Room,
    pub key: &'a MeetingKey,
    /// The slots of the answers that don't stay as they are, in order.
    pub lost: &'a [Slot],
    /// What is left of them.
    pub left: &'a [PartAnswer],
    /// The instances that no answer confirms any more; the timeline still has them.
    pub gone: &'a [Single],
    ghost rises: { IsSortedByKey slot_of slot_cmp lost.now },
}

impl<'a> Deciding<'a> {
    /// What is decided of candidates, which confirm these singles: the limit of series is looked at first, then that of singles, then whether any
    /// two instances share an instant. It fails only when out of memory.
    pub(crate) fn decide(
        &self,
        candidates: &[PartAnswer],
        singles: &[Single],
    ) -> Result<Outcome, AllocError>
        requires singles { singles.now ≡ all_singles candidates.now }
        requires parted { IsPartedInto (singles_by (lookup (same_key self.now.key.now) self.now.room.now.meetings.entries)) self.now.gone.now (all_singles (kept_then (lookup (same_key self.now.key.now) self.now.room.now.meetings.entries) self.now.lost.now self.now.left.now)) }
        requires less { AreFewer (series_by (lookup (same_key self.now.key.now) self.now.room.now.meetings.entries)) (all_series (kept_then (lookup (same_key self.now.key.now) self.now.room.now.meetings.entries) self.now.lost.now self.now.left.now)) }
        ensures { IfOk result (IsWholeDecision (beside self.now.key.now self.now.room.now.meetings.entries) self.now.key.now (kept_then (lookup (same_key self.now.key.now) self.now.room.now.meetings.entries) self.now.lost.now self.now.left.now) candidates.now) }
    {
        // Only for the proof: no two meetings have one name.
        keys_differ(&self.room.meetings);
        let alloc = self.room.alloc;
        let wanted = series_of(alloc, candidates)?;
        let before = self.room.answers_before(self.key);
        let kept = kept_series(alloc, before, self.lost, self.left)?;
        let others = self.room.series - count_series(before);
        if kept.len() + wanted.len() > MOST_SERIES - others {
            return Ok(Outcome::Limit(LimitKind::Series));
        }
        let outcome = self.decide_singles(singles)?;
        if !outcome.is_accept() {
            return Ok(outcome);
        }
        match self.clash_in_series(&kept, singles, &wanted)? {
            Some(clash) => Ok(Outcome::Declined(clash)),
            None => Ok(outcome),
        }
    }

    /// What is decided of these instances beside the single ones that the meeting keeps, and all that the others have.
    fn decide_singles(&self, wanted: &[Single]) -> Result<Outcome, AllocError>
        requires parted { (kept : List Single) × IsPartedInto (singles_by (lookup (same_key self.now.key.now) self.now.room.now.meetings.entries)) self.now.gone.now kept }
        ensures { IfOk result (λ outcome. (kept : List Single)
            → IsPartedInto (singles_by (lookup (same_key self.now.key.now) self.now.room.now.meetings.entries)) self.now.gone.now kept
            → IsDecision (others self.now.key.now self.now.room.now.meetings.entries) self.now.key.now kept wanted.now outcome) }
    {
        // Only for the proof: no two meetings have one name.
        keys_differ(&self.room.meetings);
        let beside = self.room.timeline.confirmed() - self.gone.len();
        let outcome = self.decide_beside(beside, wanted)?;
        Ok(outcome)
    }

    /// What is decided where this many stay confirmed: the limit is looked at first, then whether any two instances share an instant.
    fn decide_beside(&self, beside: usize, wanted: &[Single]) -> Result<Outcome, AllocError>
        requires few { beside ≤ 10_000 }
        ensures { IfOk result (λ outcome. (kept : List Single)
            → IsPartedInto (singles_by (lookup (same_key self.now.key.now) self.now.room.now.meetings.entries)) self.now.gone.now kept
            → beside ≡ length (others self.now.key.now self.now.room.now.meetings.entries) + length kept
            → IsDecision (others self.now.key.now self.now.room.now.meetings.entries) self.now.key.now kept wanted.now outcome) }
    {
        // Only for the proof: no two meetings have one name.
        keys_differ(&self.room.meetings);
        let key = self.key;
        if wanted.len() > MOST_SINGLES - beside {
            return Ok(Outcome::Limit(LimitKind::Singles));
        }
        if let Some((first, second)) = own_overlap(self.room.alloc, wanted)? {
            let clash = clash_between(key, first, key, second)?;
            return Ok(Outcome::Declined(clash));
        }
        // those that are asked for are apart, so the look-ups pass over each of those that are gone once or twice in all
        let gone = Gone::of(self.room.alloc, self.gone)?;
        if let Some(shared) = self.busy_beside(&gone, wanted) {
            let clash = clash_between(key, shared.asked, shared.other, shared.booked)?;
            return Ok(Outcome::Declined(clash));
        }
        Ok(Outcome::Accepted)
    }

    /// One of these instances, and one that stays confirmed, of another meeting or of the same, that share an instant.
    fn busy_beside(&self, gone: &Gone, wanted: &[Single]) -> Option<SharedInstant<'a>>
        ensures { (kept : List Single) → IsPartedInto (singles_by (lookup (same_key self.now.key.now) self.now.room.now.meetings.entries)) gone.now kept
            → AreBusyIn (others self.now.key.now self.now.room.now.meetings.entries ++ instance_list self.now.key.now kept) (Contains wanted.now) result }
    {
        let own = self.room.meetings.get_index_of(self.key);
        let (asked, busy) = self.room.timeline.first_taken(wanted, own, gone)?;
        let (other, _) = self.room.meetings.get_index(busy.place)?;
        Some(SharedInstant {
            asked,
            other,
            booked: busy.single,
        })
    }

    /// A clash of two instances of which one is asked for, and one is of a series. The meeting keeps these series, and asks for these singles
    /// and series.
    fn clash_in_series(
        &self,
        kept: &[&'a Series],
        singles: &[Single],
        wanted: &[&'a Series],
    ) -> Result<Option<Clash>, AllocError>
        ensures { IfOk result (λ found. (own : List Single)
            → IsPartedInto (singles_by (lookup (same_key self.now.key.now) self.now.room.now.meetings.entries)) self.now.gone.now own
            → AreClearBeside (beside self.now.key.now self.now.room.now.meetings.entries) self.now.key.now own (map (λ one. one.now) kept.now) singles.now (map (λ one. one.now) wanted.now) found) }
    {
        let mut all = self.other_series()?;
        push_all(&mut all, self.key, kept)?;
        let from = all.len();
        push_all(&mut all, self.key, wanted)?;
        let found = match single_beside(singles, &all) {
            Some(shared) => Some(shared),
            None => self.clash_of_new(&all, from, wanted)?,
        };
        let Some(shared) = found else {
            return Ok(None);
        };
        let clash = clash_between(self.key, shared.asked, shared.other, shared.booked)?;
        Ok(Some(clash))
    }

    /// The series that the other meetings have confirmed.
    fn other_series(&self) -> Result<Vec<Recurring<'a>>, AllocError>
        ensures { IfOk result (λ all. AreAllOf (other_recurring self.now.key.now self.now.room.now.meetings.entries) all.items) }
    {
        let own = self.room.meetings.get_index_of(self.key);
        let mut all = Vec::new(self.room.alloc);
        for place in &self.room.recurring {
            if own == Some(*place) {
                continue;
            }
            push_at(&mut all, &self.room.meetings, *place)?;
        }
        Ok(all)
    }

    /// Two instances that share an instant, one of them of a series that is asked for: these are the series from a place on.
    fn clash_of_new(
        &self,
        all: &[Recurring<'a>],
        from: usize,
        wanted: &[&Series],
    ) -> Result<Option<SharedInstant<'a>>, AllocError>
        requires { from ≤ length all.now }
        ensures { IfOk result (λ found. (own : List Single)
            → IsPartedInto (singles_by (lookup (same_key self.now.key.now) self.now.room.now.meetings.entries)) self.now.gone.now own
            → AreNewClear (others self.now.key.now self.now.room.now.meetings.entries ++ instance_list self.now.key.now own) all.now from (map (λ one. one.now) wanted.now) found) }
    {
        if wanted.is_empty() {
            return Ok(None);
        }
        if let Some(shared) = clash_from(self.room.alloc, all, from)? {
            return Ok(Some(shared));
        }
        let gone = Gone::of(self.room.alloc, self.gone)?;
        let found = self.busy_beside_series(&gone, wanted);
        Ok(found)
    }

    /// An instance of one of these series, and a single that stays confirmed, of another meeting or of the same, that share an instant.
    fn busy_beside_series(&self, gone: &Gone, all: &[&Series]) -> Option<SharedInstant<'a>>
        ensures { (kept : List Single) → IsPartedInto (singles_by (lookup (same_key self.now.key.now) self.now.room.now.meetings.entries)) gone.now kept
            → AreBusyIn (others self.now.key.now self.now.room.now.meetings.entries ++ instance_list self.now.key.now kept) (RecursIn (map (λ one. one.now) all.now)) result }
    {
        let own = self.room.meetings.get_index_of(self.key);
        for series in all {
            if let Some((asked, busy)) = self.room.timeline.first_of_series(series, own, gone) {
                let (other, _) = self.room.meetings.get_index(busy.place)?;
                return Some(SharedInstant {
                    asked,
                    other,
                    booked: busy.single,
                });
            }
        }
        None
    }
}

/// Two of these instances of a meeting that share an instant.
fn own_overlap(alloc: Global, wanted: &[Single]) -> Result<Option<(Single, Single)>, AllocError>
    ensures { IfOk result (HaveOverlap wanted.now) }
{
    // one alone
    if wanted.len() < 2 {
        return Ok(None);
    }
    let spans = spans_in(alloc, wanted)?;
    let Some(overlap) = first_overlap(alloc, &spans)? else {
        return Ok(None);
    };
    Ok(Some((wanted[overlap.first], wanted[overlap.second])))
}

/// Their spans.
fn spans_in(alloc: Global, singles: &[Single]) -> Result<Vec<Span>, AllocError>
    ensures { IfOk result (λ spans. spans.items ≡ spans_of singles.now) }
{
    let mut spans = Vec::new(alloc);
    for single in singles {
        spans.push(single.span)?;
    }
    Ok(spans)
}

/// Puts the series of the meeting in a place after others.
fn push_at<'a>(
    all: &mut Vec<Recurring<'a>>,
    meetings: &'a Meetings,
    place: usize,
) -> Result<(), AllocError>
    ensures { OnOk result (map recurring_said all.new.items ≡ map recurring_said all.old.items ++ recurring_at meetings.now.entries place) }
{
    let Some((key, meeting)) = meetings.get_index(place) else {
        return Ok(());
    };
    for given in answers_of(&meeting.answers, Slot::Whole) {
        if let Some(series) = &given.series {
            all.push(Recurring { key, series })?;
        }
    }
    Ok(())
}

/// The clash of an instance that is asked for and one that stays confirmed, of these meetings.
fn clash_between(
    key: &MeetingKey,
    asked: Single,
    other: &MeetingKey,
    booked: Single,
) -> Result<Clash, AllocError>
    ensures { IfOk result (λ clash. IsLater asked.span booked.span clash.instant
        × AreBothNamed (keyed_instance key.now asked) (keyed_instance other.now booked) clash.instant clash) }
{
    let of_asked = key.owned(asked)?;
    let of_booked = other.owned(booked)?;
    let (asked, booked) = (key.instance(asked), other.instance(booked));
    Ok(clash_of(&asked, &booked, of_asked, of_booked))
}

/// Only for the proof: no two keys of a map are of one meeting.
pub(crate) fn keys_differ(meetings: &Meetings)
    ensures { IsDistinct same_key (keys_of meetings.now.entries) }
{
    let _ = meetings.len();
}

/// The answers to claims at a moment, if they were accepted.
pub(crate) fn candidates(
    alloc: Global,
    held: &Together<'_>,
    asked: &[&Claim],
    moment: Stamp,
) -> Result<Vec<PartAnswer>, AllocError>
    ensures { IfOk result (λ given. AllZip (λ claim given. IsAccepted held.now claim.now moment given) asked.now given.items) }
{
    let mut given = Vec::new(alloc);
    for claim in asked {
        given.push(PartAnswer::accepted(alloc, held, claim, moment)?)?;
    }
    Ok(given)
}

/// These answers with what was decided.
pub(crate) fn decided(
    alloc: Global,
    candidates: Vec<PartAnswer>,
    outcome: &Outcome,
) -> Result<Vec<PartAnswer>, AllocError>
    ensures { IfOk result (λ given. AllZip (λ candidate given. IsDecided candidate outcome.now given) candidates.items given.items) }
{
    let mut given = Vec::new(alloc);
    for candidate in candidates {
        given.push(candidate.decided(alloc, outcome)?)?;
    }
    Ok(given)
}
