//! A series whose instances are looked through by start: from where the last one was found, not anew.
ghost use Rattle.std.specs.Prelude.{◌≡◌, ◌≢◌, ◌<◌, ◌<ℤ◌, IfSome, length, Some, None};
ghost use Rattle.std.specs.List.{slice_get};
ghost use Rattle.profile.specs.checker.Instances.{horizon};
ghost use Rattle.profile.specs.events.Events.{Event};
ghost use Rattle.clash_check.specs.Opened.{AreOfSeries, NoneIsBefore, AllAreLeft, IsFirstSpanFrom};

use cal_events::{Calendar, Instances, known_by_start};

/// The instances of a series of a calendar that start from an instant on.
#[derive(Drop)]
pub(crate) struct OpenSeries<'a> {
    pub(crate) calendar: &'a Calendar,
    pub(crate) place: usize,
    pub(crate) from: i64,
    /// Those of the series at the place; None where no series is open.
    pub(crate) starts: Option<Instances<'a>>,
    ghost of: { AreOfSeries calendar.now place starts },
    ghost before: { NoneIsBefore from starts },
    ghost left: { AllAreLeft from starts },
}

impl<'a> OpenSeries<'a> {
    /// No series is open.
    pub(crate) fn none(calendar: &'a Calendar) -> OpenSeries<'a>
        ensures { result.calendar.now ≡ calendar.now }
    {
        OpenSeries {
            calendar,
            place: 0,
            from: 0,
            starts: None,
        }
    }

    /// Start and end of the first instance of the series at a place that starts at an instant or later; None where none does. Where it is open
    /// there, that is the next one.
    pub(crate) fn first_from(&mut self, place: usize, from: i64) -> Option<(i64, i64)>
        requires { place < length self.old.calendar.now.series }
        ensures calendar { self.new.calendar.now ≡ self.old.calendar.now }
        ensures first { (series : Event) → slice_get self.old.calendar.now.series place ≡ Some series → IsFirstSpanFrom series from result }
        ensures early { IfSome result (λ p. p.0 <ℤ horizon) }
    {
        self.open(place, from);
        self.next()
    }

    /// Opens the series at a place, from an instant on, where it isn't open there.
    fn open(&mut self, place: usize, from: i64)
        requires { place < length self.old.calendar.now.series }
        ensures calendar { self.new.calendar.now ≡ self.old.calendar.now }
        ensures place { self.new.place ≡ place }
        ensures from { self.new.from ≡ from }
        ensures some { self.new.starts ≢ None }
    {
        let is_there = self.place == place && self.from == from && self.starts.is_some();
        if !is_there {
            self.reopen(place, from);
        }
    }

    /// Opens it anew.
    fn reopen(&mut self, place: usize, from: i64)
        requires { place < length self.old.calendar.now.series }
        ensures calendar { self.new.calendar.now ≡ self.old.calendar.now }
        ensures place { self.new.place ≡ place }
        ensures from { self.new.from ≡ from }
        ensures some { self.new.starts ≢ None }
    {
        self.starts = Some(self.calendar.series()[place].starts(from));
        self.place = place;
        self.from = from;
    }

    /// Start and end of the next one; None where there is no more.
    fn next(&mut self) -> Option<(i64, i64)>
        requires { self.old.starts ≢ None }
        ensures calendar { self.new.calendar.now ≡ self.old.calendar.now }
        ensures first { (series : Event) → slice_get self.old.calendar.now.series self.old.place ≡ Some series → IsFirstSpanFrom series self.old.from result }
        ensures early { IfSome result (λ p. p.0 <ℤ horizon) }
    {
        // Only for the proof: each is known by its start.
        let _series = self.calendar.series();
        known_by_start();
        let Some(starts) = &mut self.starts else {
            return None;
        };
        let Some(instance) = starts.next() else {
            return None;
        };
        self.from = instance.start + 1;
        Some((instance.start, instance.end))
    }
}
