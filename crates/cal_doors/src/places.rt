//! Where to look for the zone that some runs are: what is found here is checked by those who use it.

ghost use Rattle.std.specs.Prelude.{◌≡◌, true, false};
ghost use Rattle.cal_doors.specs.Runs.{run_of, IsEndless};

use crate::end::End;
use crate::run::Run;

/// The place of the run with the latest onset up to an instant.
pub(crate) fn latest_place(runs: &[Run], instant: i64) -> Option<usize> {
    let mut found = None;
    let mut latest = i64::MIN;
    for (place, run) in runs.iter().enumerate() {
        let bound = run.latest_bound(instant).unwrap_or(i64::MIN);
        if latest < bound {
            found = Some(place);
            latest = bound;
        }
    }
    found
}

/// The place of the run with the first onset.
pub(crate) fn first_place(runs: &[Run]) -> Option<usize> {
    let mut found = None;
    let mut first = i64::MAX;
    for (place, run) in runs.iter().enumerate() {
        let bound = run.first_bound();
        if bound < first && run.begins_at(bound) {
            found = Some(place);
            first = bound;
        }
    }
    found
}

/// The place of the first run that has an onset left after an instant.
pub(crate) fn place_left(runs: &[Run], instant: i64) -> Option<usize> {
    for (place, run) in runs.iter().enumerate() {
        if !run.is_over(instant) {
            return Some(place);
        }
    }
    None
}

/// The place of the first run that never ends and isn't alike the other.
pub(crate) fn endless_place(runs: &[Run], other: Option<&Run>) -> Option<usize> {
    for (place, run) in runs.iter().enumerate() {
        if is_endless(run) && !is_alike_some(run, other) {
            return Some(place);
        }
    }
    None
}

/// The place of the run alike another whose DTSTART is the earliest.
pub(crate) fn earliest_place(runs: &[Run], other: &Run) -> Option<usize> {
    let mut found = None;
    let mut first = i64::MAX;
    for (place, run) in runs.iter().enumerate() {
        let start = run.start.seconds();
        if start < first && run.is_alike(other) {
            found = Some(place);
            first = start;
        }
    }
    found
}

/// Whether a run has a rule that never ends.
pub(crate) fn is_endless(run: &Run) -> bool
    ensures yes { result ≡ true → IsEndless (run_of run.now) }
    ensures no { result ≡ false → IsEndless (run_of run.now) → ⊥ }
{
    match run.end {
        End::Never => run.each.is_some(),
        _ => false,
    }
}

/// Whether there is another, and the run is alike it.
fn is_alike_some(run: &Run, other: Option<&Run>) -> bool {
    match other {
        None => false,
        Some(other) => run.is_alike(other),
    }
}
