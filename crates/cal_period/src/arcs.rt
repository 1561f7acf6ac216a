//! Arcs around a number m of seconds: an arc is so many seconds from a residue on, and after the last second of m the first comes again.
ghost use Rattle.std.specs.Prelude.{ℕ, ℤ, List, ◌≡◌, ◌↔◌, ◌^◌, ◌+◌, ◌-◌, ◌<◌, ◌≤ℤ◌, ◌+ℤ◌, pos, length, false, Contains, IsTrue, MatchOption};
ghost use Rattle.std.specs.List.{slice_index};
ghost use Rattle.std.specs.List.Sorted.{IsStrictlyIncreasing};
ghost use Rattle.profile.specs.checker.Instances.{IsWithin};
ghost use Rattle.profile.specs.series.Repeating.{ArcsMeet, IsCongruent};
ghost use Rattle.cal_period.specs.Around.{AreAround, IsOver, AreBesideResidue, MeetsNoArc, AreApart, IsApart, AreStepsOver, IsLastOver};

/// Does no arc of the first residues, `width` seconds long, meet an arc of the second ones, `other` seconds long? It takes a binary search
/// among the second for each of the first. It requires an m below 2^40, and of each residues that are below m and ascending, none twice.
pub fn are_apart(m: u64, first: &[u64], width: i64, second: &[u64], other: i64) -> bool
    requires modulus { m < 2 ^ 40 }
    requires first { AreAround m first.now }
    requires second { AreAround m second.now }
    ensures { IsTrue result ↔ AreApart m first.now width second.now other }
{
    for residue in first {
        if !meets_none(m, *residue, width, second, other) {
            return false;
        }
    }
    true
}

/// Are the arcs of these residues, `width` seconds long, not longer than m, and does none of them meet that of another? It requires an m below 2^40,
/// and residues that are below m and ascending, none twice.
pub fn is_apart(m: u64, all: &[u64], width: i64) -> bool
    requires modulus { m < 2 ^ 40 }
    requires all { AreAround m all.now }
    ensures { IsTrue result ↔ IsApart m all.now width }
{
    if (m as i64) < width {
        return false;
    }
    are_steps_over(m, all, width) && is_last_over(m, all, width)
}

/// May an instance that starts at one of these residues, and lasts `width` seconds at most, share an instant with what lasts from `start` to
/// `end`? It takes one binary search. Instants are seconds from 1970-01-01T00:00:00Z. It requires an m from 1 on and below 2^40, and residues that are
/// below m and ascending, none twice.
pub fn reaches(m: u64, residues: &[u64], width: i64, start: i64, end: i64) -> bool
    requires some { 0 < m }
    requires modulus { m < 2 ^ 40 }
    requires residues { AreAround m residues.now }
    ensures { result ≡ false → (x y t : ℤ) (r : ℕ) → Contains residues.now r → IsCongruent m x (pos r) → y ≤ℤ (x +ℤ width) → IsWithin x y t → IsWithin start end t → ⊥ }
{
    let length = end.saturating_sub(start);
    !meets_none(m, residue_of(m, start), length, residues, width)
}

/// Do the arcs of two residues meet?
pub(crate) fn arcs_meet(m: u64, first: u64, width: i64, second: u64, other: i64) -> bool
    requires modulus { m < 2 ^ 40 }
    requires first { first < m }
    requires second { second < m }
    ensures { IsTrue result ↔ ArcsMeet m first width second other }
{
    0 < width.min(other) && !are_over(m, first, width, second, other)
}

/// Is the arc of each of two residues over when the other one begins?
fn are_over(m: u64, first: u64, width: i64, second: u64, other: i64) -> bool
    requires modulus { m < 2 ^ 40 }
    requires first { first < m }
    requires second { second < m }
    ensures { IsTrue result ↔ (IsOver m first width second × IsOver m second other first) }
{
    is_over(m, first, width, second) && is_over(m, second, other, first)
}

/// The residue of an instant: by how many seconds it is past a multiple of m.
pub(crate) fn residue_of(m: u64, instant: i64) -> u64
    requires some { 0 < m }
    requires modulus { m < 2 ^ 40 }
    ensures below { result < m }
    ensures same { IsCongruent m instant (pos result) }
{
    instant.rem_euclid(m as i64) as u64
}

/// Does the arc of one residue meet none of the arcs of the others? Only its neighbours among them count.
fn meets_none(m: u64, residue: u64, width: i64, others: &[u64], other: i64) -> bool
    requires modulus { m < 2 ^ 40 }
    requires residue { residue < m }
    requires others { AreAround m others.now }
    ensures { IsTrue result ↔ MeetsNoArc m residue width others.now other }
{
    match neighbours(residue, others) {
        Some((before, next)) => {
            !arcs_meet(m, residue, width, before, other)
                && !arcs_meet(m, residue, width, next, other)
        }
        None => true,
    }
}

/// The last of the others before a residue, and the first from it on, around m; None where there are no others.
fn neighbours(residue: u64, others: &[u64]) -> Option<(u64, u64)>
    requires { IsStrictlyIncreasing others.now }
    ensures { MatchOption result (length others.now ≡ 0) (λ p. AreBesideResidue residue others.now p.0 p.1) }
{
    if others.is_empty() {
        return None;
    }
    let place = others.partition_point(|next| *next < residue);
    let last = if 0 < place { place } else { others.len() };
    let next = if place < others.len() { place } else { 0 };
    Some((others[last - 1], others[next]))
}

/// Is the arc of each over when the next begins?
fn are_steps_over(m: u64, all: &[u64], width: i64) -> bool
    requires modulus { m < 2 ^ 40 }
    requires all { AreAround m all.now }
    ensures { IsTrue result ↔ AreStepsOver m all.now width }
{
    for next in 1..all.len() {
        if !is_over(m, all[next - 1], width, all[next]) {
            return false;
        }
    }
    true
}

/// Is the arc of the last over when the first comes again, if that is another one?
fn is_last_over(m: u64, all: &[u64], width: i64) -> bool
    requires modulus { m < 2 ^ 40 }
    requires all { AreAround m all.now }
    ensures { IsTrue result ↔ IsLastOver m all.now width }
{
    let count = all.len();
    count < 2 || is_over(m, all[count - 1], width, all[0])
}

/// Is the arc of the first residue over when the other comes, around m?
fn is_over(m: u64, first: u64, width: i64, next: u64) -> bool
    requires modulus { m < 2 ^ 40 }
    requires first { first < m }
    requires next { next < m }
    ensures { IsTrue result ↔ IsOver m first width next }
{
    let gap = if first <= next {
        next - first
    } else {
        next + m - first
    };
    width <= gap as i64
}
