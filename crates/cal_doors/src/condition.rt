//! What holds of all onsets of a zone: each way in which a zone is checked is such a condition.

ghost use Rattle.std.specs.Prelude.{◌≡◌, true};
ghost use Rattle.profile.specs.series.Zones.{Onset};
ghost use Rattle.profile.specs.series.GeneralZones.{IsRunOnset};
ghost use Rattle.cal_doors.specs.Runs.{run_of};
ghost use Rattle.cal_zones.specs.Onsets.{observance_of};
ghost use Rattle.cal_doors.specs.Passing.{PassesStill, PassesLatest, PassesFirst, PassesOnly, PassesPair};

use crate::run::Run;

/// A condition on onsets.
#[derive(Clone, Copy)]
pub(crate) enum Condition {
    /// After an instant each sets this offset.
    Still(Still),
    /// Up to an instant none is later than the latest one, and those at its instant set this offset.
    Latest(Latest),
    /// None is earlier than the first one, and those at its instant end this offset.
    First(First),
    /// After an instant there is only one, or the same one several times.
    Only(Only),
    /// After an instant each is one of these two.
    Pair(Two),
}

#[derive(Clone, Copy)]
pub(crate) struct Still {
    pub(crate) instant: i64,
    pub(crate) sets: i32,
}

#[derive(Clone, Copy)]
pub(crate) struct Latest {
    pub(crate) instant: i64,
    pub(crate) latest: i64,
    pub(crate) sets: i32,
}

#[derive(Clone, Copy)]
pub(crate) struct First {
    pub(crate) first: i64,
    pub(crate) ends: i32,
}

#[derive(Clone, Copy)]
pub(crate) struct Only {
    pub(crate) instant: i64,
    pub(crate) only: i64,
    pub(crate) offset_from: i32,
    pub(crate) offset_to: i32,
}

#[derive(Clone, Copy)]
pub(crate) struct Two {
    pub(crate) instant: i64,
    pub(crate) one: Run,
    pub(crate) other: Run,
}

impl Condition {
    ghost use Rattle.std.specs.Prelude.{◌≡◌, true};
    ghost use Rattle.profile.specs.series.Zones.{Onset};
    ghost use Rattle.profile.specs.series.GeneralZones.{IsRunOnset};
    ghost use Rattle.cal_doors.specs.Runs.{run_of};
    ghost use Rattle.cal_doors.specs.Conditions.{PassesCondition};

    /// Whether it holds of each onset of a run.
    pub(crate) fn holds(&self, run: &Run) -> bool
        ensures { result ≡ true → (x : Onset) → IsRunOnset (run_of run.now) x → PassesCondition self.now x }
    {
        match self {
            Condition::Still(c) => is_still(run, c.instant, c.sets),
            Condition::Latest(c) => is_latest(run, c.instant, c.latest, c.sets),
            Condition::First(c) => is_first(run, c.first, c.ends),
            Condition::Only(c) => is_only(run, c.instant, c.only, c.offset_from, c.offset_to),
            Condition::Pair(c) => is_in_pair(run, c.instant, &c.one, &c.other),
        }
    }
}

/// Whether each onset of the run after an instant sets that offset.
fn is_still(run: &Run, instant: i64, offset: i32) -> bool
    ensures { result ≡ true → (x : Onset) → IsRunOnset (run_of run.now) x → PassesStill instant offset x }
{
    if run.is_over(instant) {
        return true;
    }
    run.sets(offset)
}

/// Whether no onset of the run up to an instant is later than the latest one, and those at its instant set that offset.
fn is_latest(run: &Run, instant: i64, latest: i64, offset: i32) -> bool
    ensures { result ≡ true → (x : Onset) → IsRunOnset (run_of run.now) x → PassesLatest instant latest offset x }
{
    let Some(bound) = run.latest_bound(instant) else {
        return true;
    };
    if bound < latest {
        return true;
    }
    if latest < bound {
        return false;
    }
    run.sets(offset)
}

/// Whether no onset of the run is earlier than the first one, and those at its instant end that offset.
fn is_first(run: &Run, first: i64, offset: i32) -> bool
    ensures { result ≡ true → (x : Onset) → IsRunOnset (run_of run.now) x → PassesFirst first offset x }
{
    let bound = run.first_bound();
    if first < bound {
        return true;
    }
    if bound < first {
        return false;
    }
    run.ends(offset)
}

/// Whether no onset of the run comes after an instant but the one, with those offsets.
fn is_only(run: &Run, instant: i64, only: i64, from: i32, to: i32) -> bool
    ensures { result ≡ true → (x : Onset) → IsRunOnset (run_of run.now) x → PassesOnly instant only from to x }
{
    if run.is_over(instant) {
        return true;
    }
    if !run.ends(from) {
        return false;
    }
    if !run.sets(to) {
        return false;
    }
    run.is_alone(instant, only)
}

/// Whether each onset of the run after an instant is one of the two.
fn is_in_pair(run: &Run, instant: i64, one: &Run, other: &Run) -> bool
    ensures { result ≡ true → (x : Onset) → IsRunOnset (run_of run.now) x
        → PassesPair instant (observance_of one.now.observance) (observance_of other.now.observance) x }
{
    if run.is_over(instant) {
        return true;
    }
    if run.is_within(one) {
        return true;
    }
    run.is_within(other)
}
