//! The residues of a series: where its instances can start, counted from the multiples of a number of seconds.
ghost use Rattle.std.specs.Prelude.{◌≡◌, ◌↔◌, ℕ, ◌*◌, ◌<◌, ◌≤◌, Contains, IsTrue, IfOk, MatchOption};
ghost use Rattle.std.specs.List.Sorted.{IsStrictlyIncreasing};
ghost use Rattle.profile.specs.series.Periods.{IsMultiple};
ghost use Rattle.profile.specs.events.Residues.{AreResidues, IsModulus, IsStrideOf, ResiduesHold};
ghost use Rattle.profile.specs.checker.Certificates.{AreSettling, NoneSettle};
ghost use Rattle.cal_events.specs.Series.{series_said};
ghost use Rattle.cal_period.specs.Strides.{IsStrideOr};

use crate::arcs::{are_apart, is_apart};
use crate::phases::{DAY, Phases, common_divisor};
use cal_events::Series;
use cal_rules::{common_multiple, form_days_repeat};
use std::alloc::{AllocError, Global};

/// The most days of which the seconds may be a modulus.
pub const MOST_RESIDUE_DAYS: u64 = 420;

/// The residues of a series modulo m, a number of seconds: ascending, each once. It goes by the classes of the days that the form of the rule allows,
/// at most seven of them, and takes the time and the memory of the residues. Fails only when out of memory.
pub fn residues(alloc: Global, series: &Series, m: u64) -> Result<Vec<u64>, AllocError>
    requires { IsModulus m }
    ensures { IfOk result (λ all. AreResidues (series_said series.now) m all.items) }
{
    let phases = Phases::of(series);
    let mut all = phases.list(alloc, m, turns(phases.cycle(), m))?;
    put_in_order(&mut all);
    Ok(all)
}

/// After how many turns of a cycle of days it is where it was, modulo a number of seconds.
fn turns(cycle: u64, m: u64) -> u32
    requires modulus { IsModulus m }
    requires cycle { (0 < cycle) × (cycle ≤ 69_993) }
    ensures some { (0 < result) × (result ≤ 420) }
    ensures whole { IsMultiple (86_400 * (cycle * result)) m }
{
    let days = m / DAY;
    (days / common_divisor(cycle, days)) as u32
}

/// Puts numbers into ascending order, each once.
fn put_in_order(residues: &mut Vec<u64>)
    ensures rises { IsStrictlyIncreasing residues.new.items }
    ensures keeps { (x : ℕ) → Contains residues.old.items x → Contains residues.new.items x }
    ensures adds_none { (x : ℕ) → Contains residues.new.items x → Contains residues.old.items x }
{
    residues.sort_unstable();
    residues.dedup();
}

/// The seconds modulo which residues settle two series, or one (`own`) by itself: those of the least number of days after which the forms of both
/// rules allow the same days. None where these are more than 420, and where arcs meet. Fails only when out of memory.
pub fn settling_residues(
    alloc: Global,
    a: &Series,
    b: &Series,
    own: bool,
) -> Result<Option<u64>, AllocError>
    ensures { IfOk result (λ found. MatchOption found (NoneSettle own (series_said a.now) (series_said b.now)) (AreSettling own (series_said a.now) (series_said b.now))) }
{
    let Some(days) = common_stride(a, b) else {
        return Ok(None);
    };
    let m = DAY * days;
    if !do_residues_hold(alloc, a, b, own, m)? {
        return Ok(None);
    }
    Ok(Some(m))
}

/// The least number of days after which the forms of both rules allow the same days; None where they are more than 420.
fn common_stride(a: &Series, b: &Series) -> Option<u64>
    ensures { IsStrideOr (series_said a.now) (series_said b.now) result }
{
    let first = stride(a);
    let second = stride(b);
    let Some(days) = common_multiple(first, second) else {
        return None;
    };
    if days > MOST_RESIDUE_DAYS {
        return None;
    }
    Some(days)
}

/// The number of days after whose multiples the form of the rule allows the same days, and after no others.
fn stride(series: &Series) -> u64
    ensures { (days : ℕ) → IsStrideOf (series_said series.now) days ↔ IsMultiple days result }
{
    // Only for the proof: it has a rule, whose strides are the multiples of the least one.
    form_days_repeat();
    let _ = series.second();
    series.rule().stride()
}

/// Do residues modulo m hold of two series, or of one by itself? Fails only when out of memory.
fn do_residues_hold(
    alloc: Global,
    a: &Series,
    b: &Series,
    own: bool,
    m: u64,
) -> Result<bool, AllocError>
    requires { IsModulus m }
    ensures { IfOk result (λ hold. IsTrue hold ↔ ResiduesHold own (series_said a.now) (series_said b.now) m) }
{
    let first = residues(alloc, a, m)?;
    if own {
        return Ok(is_apart(m, &first, a.width()));
    }
    let second = residues(alloc, b, m)?;
    Ok(are_apart(m, &first, a.width(), &second, b.width()))
}
