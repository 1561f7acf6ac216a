//! Drawing the instances of a calendar, one by one.
ghost use Rattle.std.specs.Prelude.{ℕ, ℤ, ◌≡◌, ◌<◌, ◌-◌, ◌<ℤ◌, Contains, IfOk, IfSome, Some, length, pos};
ghost use Rattle.std.specs.List.{slice_get};
ghost use Rattle.profile.specs.checker.Instances.{horizon};
ghost use Rattle.profile.specs.events.Events.{Event};
ghost use Rattle.clash_check.specs.Opened.{IsFirstSpanFrom, IsFirstBetween};
ghost use Rattle.clash_check.specs.declared.open_series.OpenSeries.{OpenSeries};

use crate::drawn::Drawn;
use crate::open_series::OpenSeries;
use cal_events::{Calendar, instances_last, known_by_start, series_are_said};
use cal_period::{residues, residues_settle, spans_settle};
use std::alloc::{AllocError, Global};

/// What is wanted of a series: its instances that start from an instant on and before a bound.
#[derive(Clone, Copy)]
pub(crate) struct Wanted {
    pub(crate) from: i64,
    pub(crate) bound: i64,
}

/// A calendar whose instances are drawn. Each of its series stays open, so that those of many are drawn in turn without a new search.
#[derive(Drop)]
pub struct Drawing<'a> {
    calendar: &'a Calendar,
    // of each series what is still to come
    wanted: Vec<Wanted>,
    opened: Vec<OpenSeries<'a>>,
    drawn: u64,
    ghost counted: { length wanted.items ≡ length calendar.now.series },
    ghost all_opened: { length opened.items ≡ length calendar.now.series },
    ghost same: { (one : OpenSeries) → Contains opened.items one → one.calendar.now ≡ calendar.now },
}

impl<'a> Drawing<'a> {
    ghost use Rattle.clash_check.specs.Drawings.{IsComing};

    /// Nothing is drawn of the calendar yet, and nothing comes. Fails only when out of memory.
    pub fn new(alloc: Global, calendar: &'a Calendar) -> Result<Drawing<'a>, AllocError>
        ensures calendar { IfOk result (λ drawing. drawing.calendar.now ≡ calendar.now) }
        ensures none { IfOk result (λ drawing. drawing.drawn ≡ 0) }
        ensures coming { IfOk result (λ drawing. (i : ℕ) (start end : ℤ) → IsComing calendar.now drawing.wanted.items i start end → ⊥) }
    {
        Ok(Drawing {
            calendar,
            wanted: nothing(alloc, calendar.series_count() as usize)?,
            opened: none_open(alloc, calendar)?,
            drawn: 0,
        })
    }
}

impl<'a> Drawn for Drawing<'a> {
    ghost use Rattle.clash_check.specs.Drawings.{IsComing};

    ghost calendar = { λ drawing. drawing.calendar.now };

    ghost coming = { λ drawing i start end. IsComing drawing.calendar.now drawing.wanted.items i start end };

    ghost count = { λ drawing. drawing.drawn };

    fn is_drawable(&self) {
        let _singles = self.calendar.singles();
        let _series = self.calendar.series();
        known_by_start();
        series_are_said();
        instances_last();
        spans_settle();
        residues_settle();
    }

    fn series(&self) -> u64 {
        self.calendar.series_count()
    }

    fn singles(&self) -> u64 {
        self.calendar.single_count()
    }

    fn regular_from(&self, i: u64) -> i64 {
        self.calendar.series()[place_of(i)].regular_from()
    }

    fn period_days(&self, i: u64) -> Option<u64> {
        self.calendar.series()[place_of(i)].period_days()
    }

    fn width(&self, i: u64) -> i64 {
        self.calendar.series()[place_of(i)].width()
    }

    fn residues(&self, alloc: Global, i: u64, m: u64) -> Result<Vec<u64>, AllocError> {
        residues(alloc, &self.calendar.series()[place_of(i)], m)
    }

    fn begin(&mut self, i: u64, from: i64, bound: i64) {
        self.wanted[place_of(i)] = Wanted { from, bound };
    }

    fn draw(&mut self, i: u64) -> Option<(i64, i64)> {
        let drawn = self.drawn;
        let place = place_of(i);
        let part = &mut self.wanted[place];
        let found = self.opened[place].first_from(place, part.from);
        let Some((start, end)) = before(part.bound, found) else {
            return None;
        };
        part.from = start + 1;
        self.drawn = drawn.saturating_add(1);
        Some((start, end))
    }

    fn single(&mut self, k: u64) -> (i64, i64) {
        self.drawn = self.drawn.saturating_add(1);
        match self.calendar.single(place_of(k)) {
            Some(single) => (single.start, single.end),
            None => unreachable!(),
        }
    }

    fn drawn(&self) -> u64 {
        self.drawn
    }
}

/// The place of what is counted from 1.
fn place_of(number: u64) -> usize
    requires { 0 < number }
    ensures { result ≡ number - 1 }
{
    number as usize - 1
}

/// Start and end of an instance, where it starts before a bound.
fn before(bound: i64, found: Option<(i64, i64)>) -> Option<(i64, i64)>
    requires { IfSome found (λ p. p.0 <ℤ horizon) }
    ensures first { (series : Event) (from : ℤ) → IsFirstSpanFrom series from found → IsFirstBetween series from bound result }
    ensures early { IfSome result (λ p. p.0 <ℤ horizon) }
{
    let (start, end) = found?;
    if start < bound {
        Some((start, end))
    } else {
        None
    }
}

/// Of so many series nothing is wanted. Fails only when out of memory.
fn nothing(alloc: Global, count: usize) -> Result<Vec<Wanted>, AllocError>
    ensures count { IfOk result (λ wanted. length wanted.items ≡ count) }
    ensures none { IfOk result (λ wanted. (place : ℕ) (part : Wanted) → slice_get wanted.items place ≡ Some part → part ≡ record { from = pos 0; bound = pos 0 }) }
{
    vec![in alloc; Wanted { from: 0, bound: 0 }; count]
}

/// Of no series of a calendar instances are looked through yet. Fails only when out of memory.
fn none_open(alloc: Global, calendar: &Calendar) -> Result<Vec<OpenSeries<'_>>, AllocError>
    ensures count { IfOk result (λ opened. length opened.items ≡ length calendar.now.series) }
    ensures same { IfOk result (λ opened. (one : OpenSeries) → Contains opened.items one → one.calendar.now ≡ calendar.now) }
{
    // A push would take a struct that lends by value, which the borrow checker doesn't cover.
    calendar
        .series()
        .iter()
        .map(|_| OpenSeries::none(calendar))
        .collect(alloc)
}
