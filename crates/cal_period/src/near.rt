//! When a series lasts near the onsets of its zone: found once, and compared with many others.
ghost use Rattle.std.specs.Prelude.{◌≡◌, ◌^◌, pos, ◌+ℤ◌, ◌≤ℤ◌, ◌<ℤ◌, true, false, Contains, IfOk};
ghost use Rattle.profile.specs.checker.Instances.{horizon};
ghost use Rattle.profile.specs.series.Zones.{IsZoneOnset};
ghost use Rattle.cal_zones.specs.Kinds.{zone_of};
ghost use Rattle.cal_zones.specs.Spans.{AreNoneBetween};
ghost use Rattle.cal_events.specs.Series.{series_said};
ghost use Rattle.cal_period.specs.NearSpans.{HoldsNear, HoldsAll, IsPassedBy, ArePassedBy};

use crate::clash::entry;
use crate::onsets::{onset_below, span_of};
use crate::sharer::first_sharer;
use crate::walk::Walk;
use cal_events::{Series, Span, known_by_start};
use cal_zones::Zone;
use std::alloc::AllocError;

/// How long after an onset what starts is kept: half a day, by which the offsets of a zone differ at the most, a second, and a day, which most
/// instances don't last longer than.
pub(crate) const REACH: i64 = 129_601;

/// When an instance lasts that starts near an onset or is going on then.
#[derive(Clone, Copy)]
pub(crate) struct NearSpan {
    onset: i64,
    span: Span,
}

impl NearSpan {
    /// Whether it is near an onset before a bound, and starts within a reach of that.
    fn counts(&self, reach: i64, bound: i64) -> bool
        requires { (pos 0 ≤ℤ reach) × (reach <ℤ pos (2 ^ 51)) }
        ensures { result ≡ false → self.now.onset <ℤ bound → self.now.span.start <ℤ (self.now.onset +ℤ reach) → ⊥ }
    {
        self.onset < bound && self.span.start.saturating_sub(self.onset) < reach
    }
}

/// Adds what a series does near the onsets after one instant and before another, and gives the last of these. Fails only when out of memory.
pub(crate) fn push_to(
    near: &mut Vec<NearSpan>,
    series: &Series,
    zone: &Zone,
    after: i64,
    bound: i64,
) -> Result<i64, AllocError>
    requires { bound ≤ℤ horizon }
    ensures stay { (one : NearSpan) → Contains near.old.items one → Contains near.new.items one }
    ensures none { IfOk result (λ last. AreNoneBetween (IsZoneOnset (zone_of zone.now)) last bound) }
    ensures holds { IfOk result (λ last. HoldsAll (series_said series.now) (zone_of zone.now) after last near.new.items) }
{
    let mut last = after;
    while let Some(onset) = onset_below(zone, last, bound) {
        push_near(near, series, onset)?;
        last = onset;
    }
    Ok(last)
}

/// Adds what a series does near an onset. Fails only when out of memory.
fn push_near(near: &mut Vec<NearSpan>, series: &Series, onset: i64) -> Result<(), AllocError>
    requires { onset <ℤ horizon }
    ensures stay { (one : NearSpan) → Contains near.old.items one → Contains near.new.items one }
    ensures holds { IfOk result (λ _. HoldsNear (series_said series.now) onset near.new.items) }
{
    known_by_start();
    let bound = onset + REACH;
    let mut starts = series.starts(entry(series, onset));
    let mut walk = Walk::to(starts.next());
    while let Some(next) = walk.next_below(bound) {
        near.push(NearSpan {
            onset,
            span: span_of(next),
        })?;
        walk = walk.past(next, starts.next());
    }
    Ok(())
}

/// Whether no instance of another series shares an instant with what is near an onset before a bound, as far as it starts within the other's reach.
pub(crate) fn are_passed_by(near: &[NearSpan], other: &Series, reach: i64, bound: i64) -> bool
    requires { (pos 0 ≤ℤ reach) × (reach <ℤ pos (2 ^ 51)) }
    ensures { result ≡ true → ArePassedBy (series_said other.now) reach bound near.now }
{
    for one in near {
        if meets(one, other, reach, bound) {
            return false;
        }
    }
    true
}

/// Whether an instance of another series shares an instant with one of these spans, where that counts.
fn meets(one: &NearSpan, other: &Series, reach: i64, bound: i64) -> bool
    requires { (pos 0 ≤ℤ reach) × (reach <ℤ pos (2 ^ 51)) }
    ensures { result ≡ false → IsPassedBy (series_said other.now) reach bound one.now }
{
    if !one.counts(reach, bound) {
        return false;
    }
    first_sharer(other, one.span).is_some()
}
