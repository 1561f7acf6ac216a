//! A search for a clash of a series with itself, by residues, near the onsets of its zone, or start by start. No memory is taken.
ghost use Rattle.cal_events.specs.Series.{series_said};
ghost use Rattle.cal_period.specs.Onward.{IsSharedAlone, IsSharedAloneBelow};

use crate::by_residues::is_clear_by_residues;
use crate::onsets::{clash_alone_near_onsets, zone_alone_apart};
use crate::settled::settled_by;
use crate::walk::Walk;
use cal_events::{Instance, Series, known_by_start};

/// Two instances of a series that share an instant before the horizon; None where no two do. It stops at the first clash that it finds. Residues settle
/// most series without a look at an instance. No memory is taken.
pub fn clash_alone(a: &Series) -> Option<(Instance<'_>, Instance<'_>)>
    ensures { IsSharedAlone (series_said a.now) result }
{
    if is_clear_by_residues(a) {
        return None;
    }
    clash_alone_below(a, settled_by(a, a))
}

/// Two that start before a bound. Where none meet by the clocks of the series' zone, only what starts near its onsets is looked at.
fn clash_alone_below(a: &Series, bound: i64) -> Option<(Instance<'_>, Instance<'_>)>
    ensures { IsSharedAloneBelow (series_said a.now) bound result }
{
    match zone_alone_apart(a) {
        Some(zone) => clash_alone_near_onsets(a, &zone, bound),
        None => clash_of_own_starts(a, bound),
    }
}

/// Two that start before a bound, looked for from the first start on.
fn clash_of_own_starts(a: &Series, bound: i64) -> Option<(Instance<'_>, Instance<'_>)>
    ensures { IsSharedAloneBelow (series_said a.now) bound result }
{
    known_by_start();
    let mut starts = a.starts(i64::MIN);
    let mut walk = Walk::to(starts.next());
    while let Some(next) = walk.next_below(bound) {
        if let Some(last) = walk.met_by(next) {
            return Some((last, next));
        }
        walk = walk.past(next, starts.next());
    }
    None
}
