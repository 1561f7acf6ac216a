//! Where the starts of a series fall, modulo a number of seconds: on the days that the form of its rule allows, at one second of the day, by one of
//! two offsets. At most fourteen phases stand for all in each turn of the form's cycle.
ghost use Rattle.std.specs.Prelude.{◌≡◌, ◌≢◌, ◌↔◌, ℕ, ◌+◌, ◌*◌, ◌^◌, ◌<◌, ◌≤◌, ℤ, pos, ◌-ℤ◌, true, false, IsTrue};
ghost use Rattle.std.specs.Int.{IsGcd};
ghost use Rattle.profile.specs.text.Values.{IsOffset};
ghost use Rattle.profile.specs.series.Zones.{local_time};
ghost use Rattle.profile.specs.series.Repeating.{ArcsMeet};
ghost use Rattle.profile.specs.events.Residues.{IsModulus};
ghost use Rattle.cal_rules.specs.Forms.{form_cycle};
ghost use Rattle.cal_period.specs.Phases.{MeetsOther, nth_offset};

use crate::arcs::{arcs_meet, residue_of};
use cal_events::Series;
use cal_rules::Rule;
use ical_values::DAY_SECONDS;
use std::alloc::{AllocError, Global};

/// The seconds from 0000-01-01 to 1970-01-01.
const EPOCH: i64 = 62_167_219_200;

/// The seconds of a day.
pub(crate) const DAY: u64 = DAY_SECONDS as u64;

/// How many phases stand for all in one turn: two offsets for each of seven days.
const OF_A_TURN: u32 = 14;

/// The days that the form of a rule allows, a second of the day and two offsets.
#[derive(Clone, Copy)]
pub(crate) struct Phases<'a> {
    rule: &'a Rule,
    second: u32,
    least: i32,
    greatest: i32,
    ghost clock: { (second < 86_400) × IsOffset least × IsOffset greatest },
    ghost form: { (1 ≤ rule.now.pattern.interval) × (rule.now.pattern.week_start < 7) },
}

impl<'a> Phases<'a> {
    ghost use Rattle.std.specs.Prelude.{◌↔◌, ℕ, Contains, IfOk};
    ghost use Rattle.profile.specs.events.Residues.{IsResidue};
    ghost use Rattle.cal_events.specs.Series.{series_said};
    ghost use Rattle.cal_period.specs.LocalResidues.{IsLocalResidue};
    ghost use Rattle.cal_period.specs.PhaseViews.{AreTurnsOf, IsNthOr, IsPhaseOf};

    /// Those of a series: its residues.
    pub fn of(series: &'a Series) -> Phases<'a>
        ensures { (m residue : ℕ) → IsResidue (series_said series.now) m residue ↔ IsPhaseOf result m residue }
    {
        Phases::new(series.rule(), series.second(), series.zone().offsets())
    }

    /// Those of a series by the clocks of its zone.
    pub fn local(series: &'a Series) -> Phases<'a>
        ensures { (m residue : ℕ) → IsLocalResidue (series_said series.now) m residue ↔ IsPhaseOf result m residue }
    {
        Phases::new(series.rule(), series.second(), (0, 0))
    }

    /// Those of a rule, at a second of the day, by these offsets.
    pub fn new(rule: &'a Rule, second: u32, offsets: (i32, i32)) -> Phases<'a>
        requires second { second < 86_400 }
        requires offsets { IsOffset offsets.0 × IsOffset offsets.1 }
        ensures rule { result.rule.now ≡ rule.now }
        ensures second { result.second ≡ second }
        ensures offsets { (result.least ≡ offsets.0) × (result.greatest ≡ offsets.1) }
    {
        // Only for the proof: INTERVAL isn't 0, and WKST names a weekday.
        rule.text().is_allowed();
        let (least, greatest) = offsets;
        Phases {
            rule,
            second,
            least,
            greatest,
        }
    }

    /// After how many days the form of the rule allows the same days.
    pub fn cycle(&self) -> u64
        ensures cycle { result ≡ form_cycle self.now.rule.now.pattern }
        ensures range { (0 < result) × (result ≤ 69_993) }
    {
        self.rule.form_cycle()
    }

    /// The phase of a number modulo m, if there is one.
    fn nth(&self, m: u64, number: u32) -> Option<u64>
        requires some { 0 < m }
        requires modulus { m < 2 ^ 40 }
        requires number { number < 5_880 }
        ensures { IsNthOr self.now m number result }
    {
        let day = self.rule.form_day(number / 2 % 7)?;
        let later = u64::from(day) + self.cycle() * u64::from(number / OF_A_TURN);
        let start = start_of(later, self.second, self.nth_offset(number));
        Some(residue_of(m, start))
    }

    /// The offset of a number.
    fn nth_offset(&self, number: u32) -> i32
        ensures offset { result ≡ nth_offset self.now.least self.now.greatest number }
        ensures range { IsOffset result }
    {
        if number % 2 == 0 {
            self.least
        } else {
            self.greatest
        }
    }

    /// All phases modulo m, which that many turns give, in no order, and some more than once. Fails only when out of memory.
    pub fn list(&self, alloc: Global, m: u64, turns: u32) -> Result<Vec<u64>, AllocError>
        requires some { 0 < m }
        requires modulus { m < 2 ^ 40 }
        requires turns { turns ≤ 420 }
        requires are { AreTurnsOf self.now m turns }
        ensures { IfOk result (λ all. (residue : ℕ) → Contains all.items residue ↔ IsPhaseOf self.now m residue) }
    {
        let mut all = Vec::new(alloc);
        for number in 0..OF_A_TURN * turns {
            if let Some(residue) = self.nth(m, number) {
                all.push(residue)?;
            }
        }
        Ok(all)
    }

    /// Does the arc of one of the phases, `width` seconds long, meet that of a residue? Where they are of one series (`own`), a residue with itself
    /// doesn't count.
    pub fn meet(&self, m: u64, width: i64, residue: u64, other: i64, own: bool) -> bool
        requires modulus { m < 2 ^ 40 }
        requires residue { residue < m }
        requires turn { AreTurnsOf self.now m 1 }
        ensures { result ≡ false → (r : ℕ) → IsPhaseOf self.now m r → MeetsOther own m r width residue other → ⊥ }
    {
        for number in 0..OF_A_TURN {
            if let Some(first) = self.nth(m, number) {
                if meets_other(m, first, width, residue, other, own) {
                    return true;
                }
            }
        }
        false
    }

    /// Do no arcs of these phases, `width` seconds long, meet arcs of others, `other` seconds long?
    pub fn are_apart(&self, m: u64, width: i64, others: &Phases<'_>, other: i64) -> bool
        requires some { 0 < m }
        requires modulus { m < 2 ^ 40 }
        requires first { AreTurnsOf self.now m 1 }
        requires second { AreTurnsOf others.now m 1 }
        ensures { result ≡ true → (r s : ℕ) → IsPhaseOf self.now m r → IsPhaseOf others.now m s → MeetsOther false m r width s other → ⊥ }
    {
        for number in 0..OF_A_TURN {
            if let Some(residue) = others.nth(m, number) {
                if self.meet(m, width, residue, other, false) {
                    return false;
                }
            }
        }
        true
    }

    /// Do no arcs of different phases, `width` seconds long, meet?
    pub fn is_apart(&self, m: u64, width: i64) -> bool
        requires some { 0 < m }
        requires modulus { m < 2 ^ 40 }
        requires turn { AreTurnsOf self.now m 1 }
        ensures { result ≡ true → (r s : ℕ) → IsPhaseOf self.now m r → IsPhaseOf self.now m s → MeetsOther true m r width s width → ⊥ }
    {
        for number in 0..OF_A_TURN {
            if let Some(residue) = self.nth(m, number) {
                if self.meet(m, width, residue, width, true) {
                    return false;
                }
            }
        }
        true
    }
}

/// Do the arcs of two residues meet, where one with itself counts or not?
fn meets_other(m: u64, first: u64, width: i64, residue: u64, other: i64, own: bool) -> bool
    requires modulus { m < 2 ^ 40 }
    requires first { first < m }
    requires residue { residue < m }
    ensures { IsTrue result ↔ MeetsOther own m first width residue other }
{
    if own && first == residue {
        return false;
    }
    arcs_meet(m, first, width, residue, other)
}

/// When a second of a day, by its index, is by an offset: in seconds from 1970-01-01T00:00:00Z.
fn start_of(day: u64, second: u32, offset: i32) -> i64
    requires day { day ≤ 40_000_000 }
    requires second { second < 86_400 }
    requires offset { IsOffset offset }
    ensures { result ≡ local_time day second -ℤ offset }
{
    let local = (DAY * day + u64::from(second)) as i64 - EPOCH;
    local - i64::from(offset)
}

/// The greatest number of which both are multiples.
pub(crate) fn common_divisor(a: u64, b: u64) -> u64
    requires some { 0 < a }
    ensures { IsGcd a b result }
{
    let mut greater = a;
    let mut lesser = b;
    while lesser > 0 {
        let rest = greater % lesser;
        greater = lesser;
        lesser = rest;
    }
    greater
}
