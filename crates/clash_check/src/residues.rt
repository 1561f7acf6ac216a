//! An entry that says RES, judged by the residues of its two series. Nothing is drawn.
ghost use Rattle.std.specs.Prelude.{ℕ, ◌≡◌, ◌↔◌, ◌==◌, ◌<◌, ◌≤◌, length, IsTrue, IfOk};
ghost use Rattle.profile.specs.checker.Certificates.{IsSeriesAt, IsPair};
ghost use Rattle.profile.specs.events.Events.{Event};
ghost use Rattle.profile.specs.events.Residues.{IsModulus, AreArcsApart, IsArcsApart, ResiduesHold};
ghost use Rattle.clash_check.specs.Draws.{IsPlaceIn};

use crate::drawn::Drawn;
use cal_period::{MOST_RESIDUE_DAYS, are_apart, is_apart};
use ical_values::DAY_SECONDS;
use std::alloc::{AllocError, Global};

/// Do residues modulo m seconds settle two series, or one by itself? Fails only when out of memory.
pub(crate) fn residues_hold<D: Drawn>(
    alloc: Global,
    drawn: &D,
    i: u64,
    j: u64,
    m: u64,
) -> Result<bool, AllocError>
    requires { IsPair (length (D.calendar drawn.now).series) i j }
    ensures { IfOk result (λ r. (a b : Event) → IsSeriesAt (D.calendar drawn.now) i a → IsSeriesAt (D.calendar drawn.now) j b → IsTrue r ↔ ResiduesHold (i == j) a b m) }
{
    if !is_modulus(m) {
        return Ok(false);
    }
    if i == j {
        one_apart(alloc, drawn, i, m)
    } else {
        two_apart(alloc, drawn, i, j, m)
    }
}

/// Are these the seconds of 1 to 420 days?
fn is_modulus(m: u64) -> bool
    ensures { IsTrue result ↔ IsModulus m }
{
    let day = DAY_SECONDS as u64;
    m % day == 0 && is_few(m / day)
}

/// Are these 1 to 420 days?
fn is_few(days: u64) -> bool
    ensures { IsTrue result ↔ (0 < days) × (days ≤ 420) }
{
    0 < days && days <= MOST_RESIDUE_DAYS
}

/// Are the arcs of a series not longer than m, and apart?
fn one_apart<D: Drawn>(alloc: Global, drawn: &D, i: u64, m: u64) -> Result<bool, AllocError>
    requires place { IsPlaceIn (length (D.calendar drawn.now).series) i }
    requires modulus { IsModulus m }
    ensures { IfOk result (λ r. (a : Event) → IsSeriesAt (D.calendar drawn.now) i a → IsTrue r ↔ IsArcsApart a m) }
{
    let all = drawn.residues(alloc, i, m)?;
    Ok(is_apart(m, &all, drawn.width(i)))
}

/// Are the arcs of one series apart from those of another?
fn two_apart<D: Drawn>(alloc: Global, drawn: &D, i: u64, j: u64, m: u64) -> Result<bool, AllocError>
    requires first { IsPlaceIn (length (D.calendar drawn.now).series) i }
    requires second { IsPlaceIn (length (D.calendar drawn.now).series) j }
    requires modulus { IsModulus m }
    ensures { IfOk result (λ r. (a b : Event) → IsSeriesAt (D.calendar drawn.now) i a → IsSeriesAt (D.calendar drawn.now) j b → IsTrue r ↔ AreArcsApart a b m) }
{
    let first = drawn.residues(alloc, i, m)?;
    let second = drawn.residues(alloc, j, m)?;
    Ok(are_apart(m, &first, drawn.width(i), &second, drawn.width(j)))
}
