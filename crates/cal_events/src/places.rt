//! Where the overrides of an event are among its instances, by start and then by slot, so that one is looked for by binary search.

ghost use Rattle.std.specs.Prelude.{◌≡◌, [], None, IfOk, IfSome, IfNone};
ghost use Rattle.cal_events.specs.Instances.{IsAtPlace, IsSoonest};

use crate::component::EventComponent;
use crate::instances::{Bound, InstancePlace};
use std::alloc::{AllocError, Global};
use std::marker::Model;

/// The place of an override, and which of them it is.
#[derive(Clone, Copy, PartialEq, Eq, PartialOrd, Ord)]
pub(crate) struct Moved {
    start: i64,
    slot: i64,
    which: usize,
}

impl Moved {
    ghost use Rattle.cal_events.specs.Places.{place_of, is_to_come, is_left_of, is_there};

    /// That of an override, of this number. None where it has no RECURRENCE-ID.
    fn of(component: &EventComponent, which: usize) -> Option<Moved>
        ensures found { IfSome result (λ moved. (moved.which ≡ which) × IsAtPlace component.now (place_of moved)) }
        ensures none { IfNone result (component.now.recurrence ≡ None) }
    {
        let slot = component.recurrence?;
        let start = component.times.instant.instant();
        Some(Moved { start, slot, which })
    }

    fn place(&self) -> InstancePlace
        ensures { result ≡ place_of self.now }
    {
        InstancePlace {
            start: self.start,
            slot: self.slot,
        }
    }

    /// Whether it is still to come.
    fn is_to_come(&self, after: Bound) -> bool
        ensures { result ≡ is_to_come after self.now }
    {
        after.admits(self.start, self.slot)
    }

    /// Whether it is at a place.
    fn is_at(&self, place: InstancePlace) -> bool
        ensures { result ≡ is_there place self.now }
    {
        self.start == place.start && self.slot == place.slot
    }

    /// Whether it comes before a place.
    fn is_left_of(&self, place: InstancePlace) -> bool
        ensures { result ≡ is_left_of place self.now }
    {
        self.place().is_before(place)
    }
}

/// The places of the overrides of an event, in order.
#[derive(Drop)]
pub(crate) struct Places {
    sorted: Vec<Moved>,
}

impl Model for Places {
    ghost use Rattle.std.specs.Prelude.{List};
    ghost use Rattle.std.specs.List.Sorted.{IsSorted};
    ghost use Rattle.cal_events.specs.PlaceOrder.{moved_cmp};
    ghost use Rattle.cal_events.specs.declared.places.Moved.{Moved};

    ghost Value = { List Moved };

    ghost view = { λ places. places.sorted.items };

    ghost invariant = { λ places. IsSorted moved_cmp places.sorted.items };
}

impl Places {
    ghost use Rattle.cal_events.specs.Places.{ArePlaces, IsPlaceToCome, IsWhichAt};

    /// Those of these overrides. It fails only when out of memory.
    pub(crate) fn of(alloc: Global, overrides: &[EventComponent]) -> Result<Places, AllocError>
        ensures { IfOk result (ArePlaces overrides.now) }
    {
        let mut sorted = Vec::new(alloc);
        for which in 0..overrides.len() {
            if let Some(moved) = Moved::of(&overrides[which], which) {
                sorted.push(moved)?;
            }
        }
        sorted.sort_unstable();
        Ok(Places { sorted })
    }

    /// None.
    pub(crate) fn none(alloc: Global) -> Places
        ensures { ArePlaces [] result }
    {
        Places {
            sorted: Vec::new(alloc),
        }
    }

    /// The first that is to come.
    pub(crate) fn first(&self, after: Bound) -> Option<InstancePlace>
        ensures { IsSoonest (IsPlaceToCome self.now after) result }
    {
        let at = self
            .sorted
            .partition_point(|moved| !moved.is_to_come(after));
        if at < self.sorted.len() {
            return Some(self.sorted[at].place());
        }
        None
    }

    /// Which override is at a place.
    pub(crate) fn which(&self, place: InstancePlace) -> Option<usize>
        ensures { IsWhichAt self.now place result }
    {
        let at = self.sorted.partition_point(|moved| moved.is_left_of(place));
        if at < self.sorted.len() && self.sorted[at].is_at(place) {
            return Some(self.sorted[at].which);
        }
        None
    }
}
