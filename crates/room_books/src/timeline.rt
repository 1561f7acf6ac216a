//! When a room is taken: what is confirmed in it, in order of time. It knows the places of meetings, and nothing else of them.

ghost use Rattle.std.specs.Prelude.{◌≡◌, ◌<◌, ◌≤◌, ◌+◌, ◌↔◌, true, IsTrue, ◌++◌, [], List, OnOk, length, Contains};
ghost use Rattle.std.specs.List.{find, take_while};
ghost use Rattle.cal_events.specs.declared.instance.Single.{Single};
ghost use Rattle.room_books.specs.Timeline.{AreBusy, HoldsInstants, IsPlaceAfter, AreTaken, IsSharedIn, IsFreeAmong, AreAt, IsChanged, ShiftsTimeline, IsTakenOut, IsPut, IsTimelineOf, is_leaving, stays, starts_before, busy_in, has_busy};
ghost use Rattle.room_books.specs.Gone.{AreSeparate};
ghost use Rattle.room_books.specs.Meeting.{Recurs};
ghost use Rattle.std.specs.Vec.{vec_len, vec_capacity};

use crate::gone::Gone;
use crate::recurring::as_single;
use cal_events::{HORIZON, Series, Single, Span};
use cal_period::first_sharer;
use std::alloc::{AllocError, Global};

/// An instance that holds the room.
#[derive(Clone, Copy)]
pub(crate) struct Busy {
    pub single: Single,
    /// The place of its meeting in the order of first arrival.
    pub place: usize,
}

/// What is confirmed in a room, in order of time. A look-up takes as many steps as the number of instances has binary digits, and
/// as many as the number of those that are gone for each of them in the span; what is put in or taken out moves those that come after it.
#[derive(Drop)]
pub(crate) struct Timeline {
    /// Those that hold an instant before year 10000: each ends before the next one starts.
    busy: Vec<Busy>,
    /// How many are confirmed, with those that hold none.
    confirmed: usize,
    ghost apart: { AreBusy busy.items },
    ghost few: { confirmed ≤ 10_000 },
}

impl Timeline {
    /// Nothing is confirmed.
    pub(crate) fn new(alloc: Global) -> Timeline
        ensures empty { IsTimelineOf (λ _. []) result.busy.items }
        ensures confirmed { result.confirmed ≡ 0 }
    {
        Timeline {
            busy: Vec::new(alloc),
            confirmed: 0,
        }
    }

    /// How many instances are confirmed.
    pub(crate) fn confirmed(&self) -> usize
        ensures { result ≡ self.now.confirmed }
    {
        self.confirmed
    }

    /// One of these that shares an instant with an instance that isn't leaving the place `own`, and that instance, None where there is none.
    pub(crate) fn first_taken(
        &self,
        wanted: &[Single],
        own: Option<usize>,
        gone: &Gone,
    ) -> Option<(Single, Busy)>
        ensures { AreTaken (is_leaving own gone.now) self.now.busy.items (Contains wanted.now) result }
    {
        for single in wanted {
            if let Some(busy) = self.taken_in(single.span, own, gone) {
                return Some((*single, busy));
            }
        }
        None
    }

    /// An instance of a series that shares an instant with one that isn't leaving the place `own`, and that instance. For each of these it
    /// jumps into the series once.
    pub(crate) fn first_of_series(
        &self,
        series: &Series,
        own: Option<usize>,
        gone: &Gone,
    ) -> Option<(Single, Busy)>
        ensures { AreTaken (is_leaving own gone.now) self.now.busy.items (Recurs series.now) result }
    {
        for busy in &self.busy {
            if is_gone(busy, own, gone) {
                continue;
            }
            if let Some(instance) = first_sharer(series, busy.single.span) {
                return Some((as_single(&instance), *busy));
            }
        }
        None
    }

    /// An instance that shares an instant with a span, those that are gone from the place `own` aside. It looks only at those that end
    /// after the span's start and start before its end, up to the first that stays.
    fn taken_in(&self, span: Span, own: Option<usize>, gone: &Gone) -> Option<Busy>
        ensures { IsSharedIn (is_leaving own gone.now) self.now.busy.items span result }
    {
        if !holds_instants(span) {
            return None;
        }
        let place = self.place_after(span.start);
        first_staying(&self.busy[place..], span.end, own, gone)
    }

    /// Takes memory for this many more.
    pub(crate) fn reserve(&mut self, more: usize) -> Result<(), AllocError>
        ensures busy { self.new.busy.items ≡ self.old.busy.items }
        ensures confirmed { self.new.confirmed ≡ self.old.confirmed }
        ensures room { OnOk result (vec_len self.new.busy + more ≤ vec_capacity self.new.busy) }
    {
        self.busy.reserve(more)
    }

    /// Takes out what the meeting in a place no longer confirms, and puts in what it confirms now and didn't before.
    pub(crate) fn change(&mut self, place: usize, gone: &[Single], added: &[Single])
        requires shift { (kept : List Single) × ShiftsTimeline place gone.now kept added.now self.old.busy.items }
        requires counted { length gone.now ≤ self.old.confirmed }
        requires few { self.old.confirmed + length added.now ≤ 10_000 + length gone.now }
        requires room { vec_len self.old.busy + length added.now ≤ vec_capacity self.old.busy }
        ensures changed { (kept : List Single) → ShiftsTimeline place gone.now kept added.now self.old.busy.items
            → IsChanged place (kept ++ added.now) self.old.busy.items self.new.busy.items }
        ensures confirmed { self.new.confirmed + length gone.now ≡ self.old.confirmed + length added.now }
    {
        self.take_all(place, gone);
        self.put_all(place, added);
    }

    /// Takes out some of what a meeting had confirmed.
    fn take_all(&mut self, place: usize, gone: &[Single])
        requires held { (kept : List Single) × AreAt place (gone.now ++ kept) self.old.busy.items × AreSeparate (gone.now ++ kept) }
        requires counted { length gone.now ≤ self.old.confirmed }
        ensures changed { (kept : List Single) → AreAt place (gone.now ++ kept) self.old.busy.items → AreSeparate (gone.now ++ kept)
            → IsChanged place kept self.old.busy.items self.new.busy.items }
        ensures confirmed { self.new.confirmed + length gone.now ≡ self.old.confirmed }
        ensures len { vec_len self.new.busy ≤ vec_len self.old.busy }
        ensures capacity { vec_capacity self.new.busy ≡ vec_capacity self.old.busy }
    {
        for single in gone {
            self.take_out(place, *single);
        }
    }

    /// Puts in more that a meeting confirms.
    fn put_all(&mut self, place: usize, added: &[Single])
        requires free { (s : Single) → Contains added.now s → IsFreeAmong self.old.busy.items s.span }
        requires separate { AreSeparate added.now }
        requires few { self.old.confirmed + length added.now ≤ 10_000 }
        requires room { vec_len self.old.busy + length added.now ≤ vec_capacity self.old.busy }
        ensures changed { (kept : List Single) → AreAt place kept self.old.busy.items
            → IsChanged place (kept ++ added.now) self.old.busy.items self.new.busy.items }
        ensures confirmed { self.new.confirmed ≡ self.old.confirmed + length added.now }
    {
        for single in added {
            self.put_in(place, *single);
        }
    }

    /// Takes out an instance that a meeting had confirmed.
    fn take_out(&mut self, place: usize, single: Single)
        requires held { HoldsInstants single.span → has_busy (busy_in place single) self.old.busy.items ≡ true }
        requires counted { 1 ≤ self.old.confirmed }
        ensures taken { IsTakenOut (busy_in place single) self.old.busy.items self.new.busy.items }
        ensures confirmed { self.new.confirmed + 1 ≡ self.old.confirmed }
        ensures len { vec_len self.new.busy ≤ vec_len self.old.busy }
        ensures capacity { vec_capacity self.new.busy ≡ vec_capacity self.old.busy }
    {
        self.confirmed -= 1;
        if holds_instants(single.span) {
            let at = self.place_after(single.span.start);
            self.busy.remove(at);
        }
    }

    /// Puts in an instance that a meeting confirms.
    fn put_in(&mut self, place: usize, single: Single)
        requires free { IsFreeAmong self.old.busy.items single.span }
        requires few { self.old.confirmed < 10_000 }
        requires room { vec_len self.old.busy < vec_capacity self.old.busy }
        ensures put { IsPut (busy_in place single) self.old.busy.items self.new.busy.items }
        ensures confirmed { self.new.confirmed ≡ self.old.confirmed + 1 }
        ensures len { vec_len self.new.busy ≤ vec_len self.old.busy + 1 }
        ensures capacity { vec_capacity self.old.busy ≤ vec_capacity self.new.busy }
    {
        self.confirmed += 1;
        if holds_instants(single.span) {
            let at = self.place_after(single.span.start);
            // there is room for it
            let _ = self.busy.insert(at, Busy { single, place });
        }
    }

    /// The place of the first that ends after an instant.
    fn place_after(&self, instant: i64) -> usize
        ensures { IsPlaceAfter self.now.busy.items instant result }
    {
        self.busy
            .partition_point(|busy| busy.single.span.end <= instant)
    }
}

/// The first of these that isn't leaving the place `own`, if it starts before the end.
fn first_staying(busy: &[Busy], end: i64, own: Option<usize>, gone: &Gone) -> Option<Busy>
    ensures { result ≡ find (stays (is_leaving own gone.now)) (take_while (starts_before end) busy.now) }
{
    busy.iter()
        .take_while(|busy| busy.single.span.start < end)
        .find(|busy| !is_gone(busy, own, gone))
        .copied()
}

/// Whether an instance is of the meeting in the place `own`, and gone.
fn is_gone(busy: &Busy, own: Option<usize>, gone: &Gone) -> bool
    ensures { result ≡ is_leaving own gone.now busy.now }
{
    own == Some(busy.place) && gone.has(busy.single)
}

/// Whether a span holds an instant before year 10000.
fn holds_instants(span: Span) -> bool
    ensures { IsTrue result ↔ HoldsInstants span }
{
    span.start < span.end && span.start < HORIZON
}
