//! The instances of a VEVENT by itself that no rule gives (RFC 5545 3.8.5.2, 3.8.5.1, 3.8.4.4).
ghost use Rattle.std.specs.Prelude.{◌≡◌, ◌∷◌, [], None, map, Contains, IfOk};
ghost use Rattle.std.specs.List.{AllZip};
ghost use Rattle.profile.specs.text.Values.{IsClockSeconds};
ghost use Rattle.profile.specs.events.Properties.{first_second};
ghost use Rattle.profile.specs.events.Starts.{AreInstancesFrom};
ghost use Rattle.profile.specs.events.Confirmed.{alone, AreApart};
ghost use Rattle.cal_events.specs.Component.{component_of};
ghost use Rattle.cal_events.specs.OwnInstances.{own_instance_at, IsInstanceAt};

use crate::component::EventComponent;
use crate::instance::Single;
use crate::single_starts::single_starts;
use crate::sweep::Span;
use std::alloc::{AllocError, Global};

impl EventComponent {
    /// The instances of an event that its RRULE doesn't give, by start, each once, whichever of them other VEVENTs are for: of one with
    /// RECURRENCE-ID its own; of another one those at what RDATE adds, and where there is no RRULE at DTSTART, except for what EXDATE names.
    /// It fails only when out of memory.
    pub fn singles(&self, alloc: Global) -> Result<Vec<Single>, AllocError>
        ensures apart { IfOk result (λ singles. AreApart (component_of self.now) (map (own_instance_at (component_of self.now)) singles.items)) }
        ensures once { IfOk result (λ singles. self.now.rule ≡ None
            → AreInstancesFrom (alone (component_of self.now)) first_second (map (own_instance_at (component_of self.now)) singles.items)) }
    {
        if let Some(slot) = self.recurrence {
            return self.own_single(alloc, slot);
        }
        let starts = single_starts(alloc, self)?;
        self.singles_at(alloc, &starts)
    }

    /// The one instance, which has that slot.
    fn own_single(&self, alloc: Global, slot: i64) -> Result<Vec<Single>, AllocError>
        ensures { IfOk result (λ singles. (own : Single) × (singles.items ≡ own ∷ []) × IsInstanceAt (component_of self.now) slot self.now.times.instant own) }
    {
        let mut singles = Vec::new(alloc);
        singles.push(self.single_at(slot, self.times.instant.instant()))?;
        Ok(singles)
    }

    /// The instances at these starts.
    fn singles_at(&self, alloc: Global, starts: &[i64]) -> Result<Vec<Single>, AllocError>
        requires { (start : _) → Contains starts.now start → IsClockSeconds start }
        ensures { IfOk result (λ singles. AllZip (λ start single. IsInstanceAt (component_of self.now) start start single) starts.now singles.items) }
    {
        let mut singles = Vec::new(alloc);
        for start in starts {
            singles.push(self.single_at(*start, *start))?;
        }
        Ok(singles)
    }

    /// The instance of that slot at a start.
    fn single_at(&self, slot: i64, start: i64) -> Single
        requires { IsClockSeconds start }
        ensures { IsInstanceAt (component_of self.now) slot start result }
    {
        Single {
            slot,
            span: Span {
                start,
                end: self.times.end_from(start),
            },
        }
    }
}
