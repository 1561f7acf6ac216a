//! Two observances that follow each other: STANDARD and DAYLIGHT.

ghost use Rattle.std.specs.Prelude.{◌≡◌, ◌≤◌, true, false, None, unsigned_abs, ◌-ℤ◌};
ghost use Rattle.cal_zones.specs.Apart.{NeverAtOnce};
ghost use Rattle.cal_zones.specs.Spaced.{IsApart, IsYearSpaced, IsSpaced, AreNear, HasNear};

use crate::observance::Observance;
use crate::yearly::Yearly;
use ical_lines::Refusal;

/// The least number of seconds between two onsets.
const SPACING: u64 = 172_800;

/// Two observances that follow each other.
#[derive(Clone, Copy)]
pub struct Pair {
    pub(crate) standard: Observance,
    pub(crate) daylight: Observance,
    ghost first: { standard.rule ≡ None → ⊥ },
    ghost second: { daylight.rule ≡ None → ⊥ },
    ghost near: { unsigned_abs (standard.offset_from -ℤ standard.offset_to) ≤ 43_200 },
    ghost there: { standard.offset_to ≡ daylight.offset_from },
    ghost back: { daylight.offset_to ≡ standard.offset_from },
    ghost apart: { NeverAtOnce standard daylight },
}

impl Pair {
    ghost use Rattle.std.specs.Prelude.{◌≡◌, ◌≤◌, ℕ, true, IfOk, IfErr};
    ghost use Rattle.profile.specs.text.Values.{IsOffset};
    ghost use Rattle.profile.specs.series.Zones.{IsOffsetAt, IsZoneOnset, NoneBegun};
    ghost use Rattle.profile.specs.series.ZoneTexts.{AreMatched, AreSpaced, IsPairFault};
    ghost use Rattle.cal_zones.specs.Onsets.{observance_of};
    ghost use Rattle.cal_zones.specs.Kinds.{pair_of};
    ghost use Rattle.cal_zones.specs.Spans.{AreNoneBetween, IsNextOr};

    /// The pair of two observances. Refused with 40 where one has no rule, else with 41 where each TZOFFSETFROM isn't the
    /// other's TZOFFSETTO or they are more than 12 hours apart, else with 42 where two onsets of their rules are less than
    /// 172,800 seconds apart, in any year.
    pub(crate) fn new(standard: Observance, daylight: Observance) -> Result<Pair, Refusal>
        ensures standard { IfOk result (λ pair. pair.standard ≡ standard) }
        ensures daylight { IfOk result (λ pair. pair.daylight ≡ daylight) }
        ensures accepted { IfOk result (λ _. AreMatched (pair_of standard daylight) × AreSpaced (pair_of standard daylight)) }
        ensures refuses { IfErr result (λ e. IsPairFault e.number (observance_of standard) (observance_of daylight)) }
        ensures least { IfErr result (λ e. (n : ℕ) → IsPairFault n (observance_of standard) (observance_of daylight) → e.number ≤ n) }
    {
        let Some(first) = standard.rule else {
            return Err(Refusal::ZONE_SHAPE);
        };
        let Some(second) = daylight.rule else {
            return Err(Refusal::ZONE_SHAPE);
        };
        if !Pair::are_matched(&standard, &daylight) {
            return Err(Refusal::ZONE_OFFSETS);
        }
        if !is_spaced(&standard, &daylight, first, second) {
            return Err(Refusal::ZONE_ONSETS);
        }
        Ok(Pair { standard, daylight })
    }

    /// Does each TZOFFSETFROM equal the other's TZOFFSETTO, and are they at most 12 hours apart?
    fn are_matched(a: &Observance, b: &Observance) -> bool
        ensures yes { result ≡ true → AreMatched (pair_of a.now b.now) }
        ensures no { AreMatched (pair_of a.now b.now) → result ≡ true }
    {
        a.offset_to == b.offset_from && b.offset_to == a.offset_from && a.is_near()
    }

    /// Whether another has the same two, each in its place.
    pub(crate) fn is_same(&self, other: &Pair) -> bool
        ensures { result ≡ true → pair_of self.now.standard self.now.daylight ≡ pair_of other.now.standard other.now.daylight }
    {
        self.standard.is_same(&other.standard) && self.daylight.is_same(&other.daylight)
    }

    /// The offset in force: what the later of the latest onsets sets, and before all onsets what the first one ends.
    pub(crate) fn offset(&self, instant: i64) -> i32
        ensures offset { IsOffsetAt (pair_of self.now.standard self.now.daylight) instant result }
        ensures range { IsOffset result }
    {
        let standard = self.standard.latest_onset(instant);
        let daylight = self.daylight.latest_onset(instant);
        match (standard, daylight) {
            (None, None) => self.offset_before_both(instant),
            (None, Some(_)) => self.daylight.offset_to,
            (Some(_), None) => self.standard.offset_to,
            (Some(x), Some(y)) if x >= y => self.standard.offset_to,
            (Some(_), Some(_)) => self.daylight.offset_to,
        }
    }

    /// The first onset of either later than an instant. None where there is none that 64 bits hold.
    pub(crate) fn next_onset(&self, after: i64) -> Option<i64>
        ensures { IsNextOr (IsZoneOnset (pair_of self.now.standard self.now.daylight)) after result }
    {
        let standard = self.standard.next_onset(after);
        let daylight = self.daylight.next_onset(after);
        match (standard, daylight) {
            (None, None) => None,
            (None, Some(y)) => Some(y),
            (Some(x), None) => Some(x),
            (Some(x), Some(y)) if x <= y => Some(x),
            (Some(_), Some(y)) => Some(y),
        }
    }

    /// An instant such that no onset of either comes after the given one and before it.
    pub(crate) fn quiet_until(&self, instant: i64) -> i64
        ensures { AreNoneBetween (IsZoneOnset (pair_of self.now.standard self.now.daylight)) instant result }
    {
        let standard = self.standard.quiet_until(instant);
        let daylight = self.daylight.quiet_until(instant);
        standard.min(daylight)
    }

    /// The offset where neither has begun.
    fn offset_before_both(&self, instant: i64) -> i32
        requires standard { NoneBegun (observance_of self.now.standard) instant }
        requires daylight { NoneBegun (observance_of self.now.daylight) instant }
        ensures offset { IsOffsetAt (pair_of self.now.standard self.now.daylight) instant result }
        ensures range { IsOffset result }
    {
        if self.standard.first_onset() <= self.daylight.first_onset() {
            self.standard.offset_from
        } else {
            self.daylight.offset_from
        }
    }
}

/// Do their onsets keep apart in each year? The years repeat after 400, so these are looked at.
pub(crate) fn is_spaced(a: &Observance, b: &Observance, first: Yearly, second: Yearly) -> bool
    ensures apart { result ≡ true → IsSpaced a.now b.now first second 801 }
    ensures near { result ≡ false → HasNear a.now b.now first second }
{
    for year in 401..801 {
        if !is_year_spaced(a, b, first, second, year) {
            return false;
        }
    }
    true
}

/// Does the onset of the first in a year keep apart from those of the second in that year, in the year
/// before it and in the year after it?
fn is_year_spaced(a: &Observance, b: &Observance, first: Yearly, second: Yearly, year: u32) -> bool
    requires { (2 ≤ year) × (year ≤ 1000) }
    ensures apart { result ≡ true → IsYearSpaced a.now b.now first second year }
    ensures near { result ≡ false → HasNear a.now b.now first second }
{
    let day = first.day_in(year);
    if !is_apart(a, b, day, second.day_in(year - 1)) {
        return false;
    }
    if !is_apart(a, b, day, second.day_in(year)) {
        return false;
    }
    is_apart(a, b, day, second.day_in(year + 1))
}

/// Do the onsets on two days keep apart?
fn is_apart(a: &Observance, b: &Observance, n: u32, m: u32) -> bool
    requires { (n ≤ 3_653_155) × (m ≤ 3_653_155) }
    ensures apart { result ≡ true → IsApart a.now b.now n m }
    ensures near { result ≡ false → AreNear a.now b.now n m }
{
    a.onset_on(n).abs_diff(b.onset_on(m)) >= SPACING
}
