//! What residues show without a look at any instance, and without memory: that two series are clear of each other, or one by itself, and that a series
//! stays clear of a span.
ghost use Rattle.std.specs.Prelude.{◌≡◌, ◌≢◌, ℕ, ◌^◌, ◌<◌, ℤ, pos, ◌≤ℤ◌, true, false};
ghost use Rattle.profile.specs.checker.Instances.{Instance as SaidInstance};
ghost use Rattle.profile.specs.series.Repeating.{ArcsMeet};
ghost use Rattle.profile.specs.events.Starts.{IsInstance, Overlaps};
ghost use Rattle.cal_events.specs.Series.{series_said};
ghost use Rattle.cal_period.specs.Clear.{AreSeriesClear, IsSeriesClear};
ghost use Rattle.cal_period.specs.LocalResidues.{AreLocallyApart, IsLocallyApart};
ghost use Rattle.cal_period.specs.PhaseViews.{AreTurnsOf, ArePhasesApart, ArePhasesAlone};

use crate::arcs::residue_of;
use crate::phases::{DAY, Phases, common_divisor};
use cal_events::{Series, Span, instances_last, known_by_start, series_are_said};

/// Do residues show that two series are clear of each other?
pub(crate) fn are_clear_by_residues(a: &Series, b: &Series) -> bool
    ensures { result ≡ true → AreSeriesClear (series_said a.now) (series_said b.now) }
{
    series_are_said();
    instances_last();
    are_phases_apart(&Phases::of(a), a.width(), &Phases::of(b), b.width())
}

/// Do residues show that a series is clear by itself?
pub(crate) fn is_clear_by_residues(a: &Series) -> bool
    ensures { result ≡ true → IsSeriesClear (series_said a.now) }
{
    known_by_start();
    series_are_said();
    instances_last();
    are_phases_alone(&Phases::of(a), a.width())
}

/// Do residues by local times show it of two series, where both start by one offset?
pub(crate) fn are_locally_apart(a: &Series, b: &Series) -> bool
    ensures { result ≡ true → (m : ℕ) × (0 < m) × AreLocallyApart (series_said a.now) (series_said b.now) m }
{
    are_phases_apart(&Phases::local(a), a.width(), &Phases::local(b), b.width())
}

/// Do residues by local times show of a series that no two of its own instances share an instant?
pub(crate) fn is_locally_apart(a: &Series) -> bool
    ensures { result ≡ true → (m : ℕ) × (0 < m) × IsLocallyApart (series_said a.now) m }
{
    are_phases_alone(&Phases::local(a), a.width())
}

/// May an instance of the series share an instant with a span? Where its residues exclude that, none does.
pub fn may_meet(series: &Series, span: Span) -> bool
    ensures { result ≡ false → (b : SaidInstance) → IsInstance (series_said series.now) b → Overlaps b.start b.end span.start span.end → ⊥ }
{
    series_are_said();
    instances_last();
    let phases = Phases::of(series);
    let m = cycle_seconds(&phases);
    let length = span.end.saturating_sub(span.start);
    phases.meet(m, series.width(), residue_of(m, span.start), length, false)
}

/// Does no arc of the one, `width` seconds long, meet an arc of the other, `other` seconds long?
fn are_phases_apart(first: &Phases<'_>, width: i64, second: &Phases<'_>, other: i64) -> bool
    ensures { result ≡ true → ArePhasesApart first.now width second.now other }
{
    first.are_apart(modulus(first, second), width, second, other)
}

/// Are the arcs short enough, and does none meet another?
fn are_phases_alone(phases: &Phases<'_>, width: i64) -> bool
    ensures { result ≡ true → ArePhasesAlone phases.now width }
{
    let m = cycle_seconds(phases);
    if (m as i64) < width {
        return false;
    }
    phases.is_apart(m, width)
}

/// The seconds of a cycle.
fn cycle_seconds(phases: &Phases<'_>) -> u64
    ensures range { (0 < result) × (result < 2 ^ 40) }
    ensures turn { AreTurnsOf phases.now result 1 }
{
    DAY * phases.cycle()
}

/// The seconds of the greatest number of days that goes into the cycles of both.
fn modulus(first: &Phases<'_>, second: &Phases<'_>) -> u64
    ensures range { (0 < result) × (result < 2 ^ 40) }
    ensures first { AreTurnsOf first.now result 1 }
    ensures second { AreTurnsOf second.now result 1 }
{
    DAY * common_divisor(first.cycle(), second.cycle())
}
