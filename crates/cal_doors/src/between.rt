//! What some runs are between two instants: onsets after the later one are left aside.

ghost use Rattle.std.specs.Prelude.{◌≡◌, true, false, IfOk, IfSome, IfNone};
ghost use Rattle.profile.specs.doors.Adapting.{HasEnd, IsGoneOn, IsTableEnd, ReachesTablesEnd};
ghost use Rattle.cal_doors.specs.Ends.{end_of};
ghost use Rattle.cal_doors.specs.Runs.{run_of, runs_in};
ghost use Rattle.cal_doors.specs.Between.{HasOnsetBy, HasRunBegun, AreSameUpTo, IsSameEndUpTo, IsLastOfAll};

use crate::end::End;
use crate::places::{is_endless, latest_place};
use crate::run::Run;
use std::alloc::{AllocError, Global};

/// 2036-01-01T00:00:00Z: programs write their zones up to some year not before this; this profile's choice.
const TABLES_END: i64 = 2_082_758_400;

/// 2038-01-19T03:14:07Z, the last second of times in 32 bits: what a table that ends there says from then on is made up.
const TIMES_END: i64 = 2_147_483_647;

/// Whether an onset comes up to an instant. It isn't known where the onsets are counted.
pub(crate) fn has_begun(runs: &[Run], instant: i64) -> bool
    ensures { result ≡ true → HasOnsetBy (runs_in runs.now) instant }
{
    let Some(place) = latest_place(runs, instant) else {
        return false;
    };
    match runs.get(place) {
        Some(run) => begins_by(run, instant),
        None => false,
    }
}

/// Whether an onset of a run comes up to an instant. It isn't known where the onsets are counted.
fn begins_by(run: &Run, instant: i64) -> bool
    ensures { result ≡ true → HasRunBegun (run_of run.now) instant }
{
    let Some(latest) = run.latest_bound(instant) else {
        return false;
    };
    if instant < latest {
        return false;
    }
    run.begins_at(latest)
}

/// Runs cut at an instant, where those whose rule would set nothing more up to it go on after it.
pub(crate) fn going_on(alloc: Global, runs: &[Run], to: i64) -> Result<Vec<Run>, AllocError>
    ensures { IfOk result (λ others. IsGoneOn (runs_in runs.now) to (runs_in others.items)) }
{
    let mut others = Vec::new(alloc);
    for run in runs {
        if to < run.first_bound() {
            continue;
        }
        others.push(run.going_on(to))?;
    }
    Ok(others)
}

/// Runs cut at an instant: none has an onset after it, unless its onsets are counted.
pub(crate) fn ending(alloc: Global, runs: &[Run], to: i64) -> Result<Vec<Run>, AllocError>
    ensures { IfOk result (λ others. AreSameUpTo to (runs_in runs.now) (runs_in others.items)) }
{
    let mut others = Vec::new(alloc);
    for run in runs {
        if to < run.first_bound() {
            continue;
        }
        others.push(run.ending(to))?;
    }
    Ok(others)
}

impl Run {
    ghost use Rattle.std.specs.Prelude.{◌≡◌, true, false, ◌↔◌};
    ghost use Rattle.profile.specs.series.Zones.{Onset};
    ghost use Rattle.profile.specs.series.GeneralZones.{IsRunOnset};
    ghost use Rattle.profile.specs.doors.Adapting.{IsStatedLate};
    ghost use Rattle.cal_doors.specs.Runs.{run_of};
    ghost use Rattle.cal_doors.specs.Between.{IsSameRunUpTo, IsOnsetOf, IsLaterStated};
    ghost use Rattle.cal_doors.specs.declared.end.End.TheVariants.{At};

    /// The run up to an instant, and without an end where its rule sets nothing more up to it.
    fn going_on(&self, to: i64) -> Run
        ensures { (x : Onset) → IsRunOnset (run_of result) x ↔ IsOnsetOf to (run_of self.now) x }
    {
        match self.end {
            End::Never => *self,
            End::After(_) => *self,
            End::At(until) => self.past_until(until, to),
        }
    }

    /// The same of a run that UNTIL ends.
    fn past_until(&self, until: i64, to: i64) -> Run
        requires { self.now.end ≡ At until }
        ensures { (x : Onset) → IsRunOnset (run_of result) x ↔ IsOnsetOf to (run_of self.now) x }
    {
        if self.has_onset_in(until, to) {
            return *self;
        }
        self.endless()
    }

    /// Whether it states something of 2036 or later, before times in 32 bits end, and its onsets aren't counted.
    fn is_stated_late(&self) -> bool
        ensures yes { result ≡ true → IsStatedLate (run_of self.now) }
        ensures no { result ≡ false → IsStatedLate (run_of self.now) → ⊥ }
    {
        if self.end.is_counted() {
            return false;
        }
        match self.last_stated(TIMES_END - 1) {
            Some(stated) => TABLES_END <= stated,
            None => false,
        }
    }

    /// The last instant before times in 32 bits end of which it states something, where that is later than this.
    fn later_stated(&self, last: i64) -> i64
        ensures { IsLaterStated (run_of self.now) last result }
    {
        let Some(stated) = self.last_stated(TIMES_END - 1) else {
            return last;
        };
        if stated <= last {
            return last;
        }
        stated
    }

    /// The run up to an instant, after which it has no onset, unless its onsets are counted.
    fn ending(&self, to: i64) -> Run
        ensures { IsSameRunUpTo to (run_of self.now) (run_of result) }
    {
        let mut run = *self;
        run.end = ending_by(self.end, to);
        run
    }
}

/// An end, moved up to an instant where it is later, unless it counts onsets.
fn ending_by(end: End, to: i64) -> End
    ensures { IsSameEndUpTo to (end_of end) (end_of result) }
{
    match end {
        End::Never => End::At(to),
        End::At(until) => End::At(until.min(to)),
        End::After(count) => End::After(count),
    }
}

/// The end of a table that reaches 2036. None where it doesn't, but by onsets that are counted.
pub(crate) fn table_end(runs: &[Run]) -> Option<i64>
    ensures end { IfSome result (IsTableEnd (runs_in runs.now)) }
    ensures none { IfNone result (ReachesTablesEnd (runs_in runs.now) → ⊥) }
{
    if !reaches_tables_end(runs) {
        return None;
    }
    Some(last_of_all(runs))
}

/// Whether a run states something of 2036 or later, before times in 32 bits end, and its onsets aren't counted.
fn reaches_tables_end(runs: &[Run]) -> bool
    ensures yes { result ≡ true → ReachesTablesEnd (runs_in runs.now) }
    ensures no { result ≡ false → ReachesTablesEnd (runs_in runs.now) → ⊥ }
{
    for run in runs {
        if run.is_stated_late() {
            return true;
        }
    }
    false
}

/// The last instant before times in 32 bits end of which a run states something.
fn last_of_all(runs: &[Run]) -> i64
    ensures { IsLastOfAll (runs_in runs.now) result }
{
    let mut last = i64::MIN;
    for run in runs {
        last = run.later_stated(last);
    }
    last
}

/// Whether no rule that began before an instant goes on without an end.
pub(crate) fn has_end(runs: &[Run], to: i64) -> bool
    ensures yes { result ≡ true → HasEnd (runs_in runs.now) to }
    ensures no { result ≡ false → HasEnd (runs_in runs.now) to → ⊥ }
{
    for run in runs {
        if to < run.first_bound() {
            continue;
        }
        if is_endless(run) {
            return false;
        }
    }
    true
}
