//! The starts of a master that belong to no series (RFC 5545 3.8.5.2, 3.8.5.1).
ghost use Rattle.std.specs.Prelude.{◌≡◌, ◌↔◌, ℤ, true, is_some, Contains, IsTrue, IfOk};
ghost use Rattle.cal_events.specs.Clocks.{HasGoodClock};
ghost use Rattle.cal_events.specs.Component.{component_of};
ghost use Rattle.cal_events.specs.MeetingComponents.{IsInEventDates};
ghost use Rattle.cal_events.specs.SingleStarts.{AreSingleStarts, IsCandidate, IsLast, IsLeftOver, IsOnRule};

use crate::component::EventComponent;
use crate::instances::{days_of, is_start, start_on};
use crate::instants::{Instants, copied};
use std::alloc::{AllocError, Global};

/// The starts of a master, by itself, that no rule gives: DTSTART where there is no rule, and RDATEs; ascending, each once. What EXDATE names
/// isn't one. It fails only when out of memory.
pub(crate) fn single_starts(alloc: Global, master: &EventComponent) -> Result<Vec<i64>, AllocError>
    requires { is_some master.now.rule ≡ true → HasGoodClock (component_of master.now) }
    ensures { IfOk result (λ starts. AreSingleStarts (component_of master.now) starts.items) }
{
    let hidden = Instants::of(copied(alloc, &master.exceptions)?);
    let candidates = candidates(alloc, master)?;
    let mut starts = Vec::new(alloc);
    for instant in candidates.sorted() {
        if !is_last(&starts, *instant) && is_single(master, &hidden, *instant) {
            starts.push(*instant)?;
        }
    }
    Ok(starts)
}

/// DTSTART where there is no rule, and the RDATEs, in order.
fn candidates(alloc: Global, master: &EventComponent) -> Result<Instants, AllocError>
    ensures { IfOk result (λ found. (t : ℤ) → Contains found t ↔ IsCandidate (component_of master.now) t) }
{
    let mut instants = copied(alloc, &master.additions)?;
    if master.rule.is_none() {
        instants.push(master.times.instant.instant())?;
    }
    Ok(Instants::of(instants))
}

/// Whether the last of the starts is this one.
fn is_last(starts: &[i64], instant: i64) -> bool
    ensures { IsTrue result ↔ IsLast starts.now instant }
{
    let count = starts.len();
    count > 0 && starts[count - 1] == instant
}

/// Whether a candidate is a start that no rule gives.
fn is_single(master: &EventComponent, hidden: &Instants, instant: i64) -> bool
    requires clock { is_some master.now.rule ≡ true → HasGoodClock (component_of master.now) }
    requires hidden { (t : ℤ) → Contains hidden.now t ↔ Contains master.now.exceptions.items t }
    ensures { IsTrue result ↔ IsLeftOver (component_of master.now) instant }
{
    is_start(instant, hidden) && !is_on_rule(master, instant)
}

/// Whether the master's rule gives a start at an instant, which EXDATE doesn't name. Looks only at the days near it.
fn is_on_rule(master: &EventComponent, instant: i64) -> bool
    requires clock { is_some master.now.rule ≡ true → HasGoodClock (component_of master.now) }
    requires named { IsInEventDates instant }
    requires not_excepted { Contains master.now.exceptions.items instant → ⊥ }
    ensures { IsTrue result ↔ IsOnRule (component_of master.now) instant }
{
    if master.rule.is_none() {
        return false;
    }
    let (_, second) = master.times.start.local().day_and_second();
    let mut days = days_of(&master.times, &master.rule, instant);
    while let Some(day) = days.next() {
        let start = start_on(&master.times.start, day, second);
        if start >= instant {
            return start == instant;
        }
    }
    false
}
