//! A series that is compared with many others, one after another.
ghost use Rattle.cal_zones.specs.Kinds.{zone_of};
ghost use Rattle.cal_events.specs.Series.{series_said};
ghost use Rattle.cal_period.specs.NearSpans.{HoldsAll, IsLongBefore};
ghost use Rattle.cal_period.specs.Onsets.{GoesBy};

use crate::by_residues::{are_clear_by_residues, are_locally_apart};
use crate::clash::{clash_below, first_start};
use crate::near::{NearSpan, REACH, are_passed_by, push_to};
use crate::onsets::reach_of;
use crate::settled::settled_by;
use cal_events::{HORIZON, Instance, Series, instances_last, known_by_start, series_are_said};
use cal_zones::{Zone, zones_repeat};
use std::alloc::{AllocError, Global};

/// A series that is compared with many others. What it does near the onsets of its zone is found once, as far as one of them needs it.
#[derive(Drop)]
pub struct NewSeries<'a> {
    series: &'a Series,
    zone: Zone,
    /// A day and a half before its first start: no onset up to then counts.
    after: i64,
    /// The last onset that was looked at.
    last: i64,
    near: Vec<NearSpan>,
    ghost goes: { ∥ GoesBy (series_said series.now) zone ∥₁ },
    ghost begins: { IsLongBefore (series_said series.now) after },
    ghost holds: { HoldsAll (series_said series.now) (zone_of zone) after last near.items },
}

impl<'a> NewSeries<'a> {
    ghost use Rattle.std.specs.Prelude.{◌≡◌, ℕ, ◌<◌, true, IfOk};
    ghost use Rattle.cal_period.specs.Clear.{AreClearBelow};
    ghost use Rattle.cal_period.specs.LocalResidues.{AreLocallyApart};
    ghost use Rattle.cal_period.specs.Onward.{IsSharedByPair};
    ghost use Rattle.cal_period.specs.Compared.{compared};

    /// That series, not yet compared with any.
    pub fn of(alloc: Global, series: &'a Series) -> NewSeries<'a>
        ensures { compared result ≡ series_said series.now }
    {
        let after = long_before(series);
        NewSeries {
            series,
            zone: series.zone(),
            after,
            last: after,
            near: Vec::new(alloc),
        }
    }

    /// Two instances, one of it and one of another series, that share an instant before the horizon; None where the two are clear: `clash_of_pair`
    /// for many pairs. Fails only when out of memory.
    pub fn clash_with(
        &mut self,
        other: &'a Series,
    ) -> Result<Option<(Instance<'a>, Instance<'a>)>, AllocError>
        ensures found { IfOk result (λ found. IsSharedByPair (compared self.old) (series_said other.now) found) }
        ensures same { compared self.new ≡ compared self.old }
    {
        if are_clear_by_residues(self.series, other) {
            return Ok(None);
        }
        let bound = settled_by(self.series, other);
        if self.is_clear_below(other, bound)? {
            return Ok(None);
        }
        Ok(clash_below(self.series, other, bound))
    }

    /// Whether what it does near onsets shows that it is clear of another up to a bound. Fails only when out of memory.
    fn is_clear_below(&mut self, other: &Series, bound: i64) -> Result<bool, AllocError>
        ensures clear { IfOk result (λ clear. clear ≡ true → AreClearBelow (compared self.old) (series_said other.now) bound) }
        ensures same { self.new.series ≡ self.old.series }
    {
        known_by_start();
        series_are_said();
        instances_last();
        zones_repeat();
        self.zone.one_meaning();
        let reach = reach_of(other);
        if REACH < reach || !self.never_meets(other) {
            return Ok(false);
        }
        let bound = bound.min(HORIZON);
        self.last = push_to(&mut self.near, self.series, &self.zone, self.last, bound)?;
        Ok(are_passed_by(&self.near, other, reach, bound))
    }

    /// Whether another series goes by its zone, and never meets it by the clocks there.
    fn never_meets(&self, other: &Series) -> bool
        ensures zone { result ≡ true → GoesBy (series_said other.now) self.now.zone }
        ensures apart { result ≡ true → (m : ℕ) × (0 < m) × AreLocallyApart (compared self.now) (series_said other.now) m }
    {
        self.zone.is_same(&other.zone()) && are_locally_apart(self.series, other)
    }
}

/// An instant a day and a half before the first start of a series; any where it has none.
fn long_before(series: &Series) -> i64
    ensures { IsLongBefore (series_said series.now) result }
{
    known_by_start();
    match first_start(series) {
        Some(first) => first.saturating_sub(REACH),
        None => HORIZON,
    }
}
