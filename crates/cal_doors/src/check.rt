//! Checks of all runs of a zone.

ghost use Rattle.std.specs.Prelude.{◌≡◌, true};
ghost use Rattle.std.specs.Int.Signed.{◌<ℤ◌};
ghost use Rattle.profile.specs.series.Zones.{Onset, IsOnset};
ghost use Rattle.profile.specs.series.GeneralZones.{IsGeneralOnset};
ghost use Rattle.cal_zones.specs.Onsets.{observance_of};
ghost use Rattle.cal_doors.specs.Runs.{runs_in};
ghost use Rattle.cal_doors.specs.Conditions.{PassesCondition};
ghost use Rattle.cal_doors.specs.declared.end.End.TheVariants.{Never};

use crate::condition::Condition;
use crate::run::Run;

/// Whether a condition holds of each onset.
pub(crate) fn all_hold(runs: &[Run], condition: &Condition) -> bool
    ensures { result ≡ true → (x : Onset) → IsGeneralOnset (runs_in runs.now) x → PassesCondition condition.now x }
{
    for run in runs {
        if !condition.holds(run) {
            return false;
        }
    }
    true
}

/// Whether the runs have each onset of another that comes after an instant, where its end is left aside. Of several runs with its rule
/// each has to come after those that it follows.
pub(crate) fn covers(runs: &[Run], whole: &Run, instant: i64) -> bool
    requires { whole.now.end ≡ Never }
    ensures { result ≡ true → (x : Onset) → IsOnset (observance_of whole.now.observance) x → instant <ℤ x.instant → IsGeneralOnset (runs_in runs.now) x }
{
    let mut reach = instant;
    for run in runs {
        let Some(to) = run.reach(whole, reach) else {
            return true;
        };
        reach = to;
    }
    false
}
