//! One observance, STANDARD or DAYLIGHT, and its onsets.

ghost use Rattle.std.specs.Prelude.{◌<◌, ◌≤◌};
ghost use Rattle.profile.specs.text.Values.{IsOffset};

use crate::yearly::Yearly;
use cal_days::Day;
use ical_values::{LocalTime, UtcOffset, seconds_at};

/// The greatest difference between the offsets of a zone, in seconds.
const HALF_DAY: u32 = 43_200;

/// STANDARD or DAYLIGHT of a VTIMEZONE.
#[derive(Clone, Copy)]
pub struct Observance {
    /// The day of DTSTART, by its index.
    pub(crate) day: u32,
    /// The second of that day.
    pub(crate) second: u32,
    /// RRULE, where there is one.
    pub(crate) rule: Option<Yearly>,
    /// TZOFFSETFROM, in seconds.
    pub(crate) offset_from: i32,
    /// TZOFFSETTO, in seconds.
    pub(crate) offset_to: i32,
    ghost starts: { (366 ≤ day) × (day ≤ 3_652_424) × (second < 86_400) },
    ghost from: { IsOffset offset_from },
    ghost to: { IsOffset offset_to },
}

impl Observance {
    ghost use Rattle.std.specs.Prelude.{◌≡◌, ◌↔◌, ◌≤◌, ℕ, true, pos, negsuc, unsigned_abs, IfSome, MatchOption, ◌+ℤ◌, ◌-ℤ◌, ◌≤ℤ◌};
    ghost use Rattle.profile.specs.text.Values.{IsOffset};
    ghost use Rattle.profile.specs.series.Zones.{Single, local_time, IsOffsetAt, IsOnset, IsLatest, IsFirstOf, NoneBegun, onset_at};
    ghost use Rattle.cal_zones.specs.Onsets.{observance_of, yearly_rule, HasTimesOf, IsFirstDayOf};
    ghost use Rattle.cal_zones.specs.Kinds.{IsOrdered};
    ghost use Rattle.cal_zones.specs.Repeats.{IsBegunFrom};
    ghost use Rattle.cal_zones.specs.Spans.{AreNoneBetween, IsNextOr};

    /// The observance with that DTSTART, RRULE, TZOFFSETFROM and TZOFFSETTO.
    pub fn new(start: LocalTime, rule: Option<Yearly>, from: UtcOffset, to: UtcOffset) -> Observance
        ensures start { local_time result.day result.second ≡ start }
        ensures rule { result.rule ≡ rule }
        ensures from { result.offset_from ≡ from }
        ensures to { result.offset_to ≡ to }
    {
        let (day, second) = start.day_and_second();
        Observance {
            day: day.index(),
            second,
            rule,
            offset_from: from.seconds(),
            offset_to: to.seconds(),
        }
    }

    /// DTSTART.
    pub(crate) fn start(&self) -> LocalTime
        ensures { result ≡ local_time self.now.day self.now.second }
    {
        let day = Day::at_index(self.day).unwrap();
        LocalTime::of_day(day, self.second).unwrap()
    }

    /// The day of the first onset, by its index.
    fn first_day(&self) -> u32
        ensures first { IsFirstDayOf (observance_of self.now) result }
        ensures range { (366 ≤ result) × (result ≤ 3_653_155) }
    {
        match self.rule {
            None => self.day,
            Some(rule) => rule.first_from(self.day),
        }
    }

    /// The onset on a day, by its index: the time of DTSTART there, read with TZOFFSETFROM.
    pub(crate) fn onset_on(&self, day: u32) -> i64
        requires range { day ≤ 3_653_155 }
        ensures read { result +ℤ self.now.offset_from ≡ local_time day self.now.second }
        ensures low { negsuc 100_000_000_000 ≤ℤ result }
        ensures high { result ≤ℤ pos 1_000_000_000_000 }
    {
        seconds_at(day, self.second) - self.offset_from as i64
    }

    /// The first onset.
    pub fn first_onset(&self) -> i64
        ensures first { IsFirstOf (observance_of self.now) result }
        ensures low { negsuc 100_000_000_000 ≤ℤ result }
        ensures high { result ≤ℤ pos 1_000_000_000_000 }
    {
        self.onset_on(self.first_day())
    }

    /// The first instant that is more than half a day past the first onset.
    pub(crate) fn begun_from(&self) -> i64
        ensures { IsBegunFrom (observance_of self.now) result }
    {
        self.first_onset() + HALF_DAY as i64 + 1
    }

    /// The latest onset up to an instant. None before the first one.
    pub fn latest_onset(&self, instant: i64) -> Option<i64>
        ensures low { IfSome result (λ onset. negsuc 100_000_000_000 ≤ℤ onset) }
        ensures latest { let o = observance_of self.now in
            MatchOption result (NoneBegun o instant) (λ onset. IsLatest (IsOnset o) instant (onset_at o onset)) }
    {
        let first_day = self.first_day();
        let first = self.onset_on(first_day);
        if instant < first {
            return None;
        }
        match self.rule {
            None => Some(first),
            Some(rule) => Some(rule.latest_onset(first_day, first, instant)),
        }
    }

    /// The first onset later than an instant. None where there is none that 64 bits hold.
    pub(crate) fn next_onset(&self, after: i64) -> Option<i64>
        ensures { IsNextOr (IsOnset (observance_of self.now)) after result }
    {
        let first_day = self.first_day();
        let first = self.onset_on(first_day);
        if after < first {
            return Some(first);
        }
        match self.rule {
            None => None,
            Some(rule) => rule.next_onset(first_day, first, after),
        }
    }

    /// An instant such that no onset comes after the given one and before it. It needn't be later than the given one: on
    /// the day of an onset, once that has come, it is that onset.
    pub(crate) fn quiet_until(&self, instant: i64) -> i64
        ensures { AreNoneBetween (IsOnset (observance_of self.now)) instant result }
    {
        let Some(rule) = self.rule else {
            let only = self.onset_on(self.day);
            if instant < only {
                return only;
            }
            return i64::MAX;
        };
        let shown = instant.saturating_add(self.offset_from as i64);
        let Some(local) = LocalTime::of_seconds(shown) else {
            // Before the year 1, or after the year 9999.
            return instant;
        };
        let (day, _) = local.day_and_second();
        let from = day.index().max(self.day);
        self.onset_on(rule.first_from(from))
    }

    /// The offset in force by this one alone.
    pub(crate) fn offset(&self, instant: i64) -> i32
        ensures offset { IsOffsetAt (Single (observance_of self.now)) instant result }
        ensures range { IsOffset result }
    {
        match self.latest_onset(instant) {
            None => self.offset_from,
            Some(_) => self.offset_to,
        }
    }

    /// Whether another begins at the same times, by the same offsets.
    pub(crate) fn is_same(&self, other: &Observance) -> bool
        ensures { result ≡ true → observance_of self.now ≡ observance_of other.now }
    {
        self.has_times_of(other) && Observance::is_same_rule(self.rule, other.rule)
    }

    /// Whether its DTSTART and its offsets are those of another.
    fn has_times_of(&self, other: &Observance) -> bool
        ensures { result ≡ true → HasTimesOf self.now other.now }
    {
        self.day == other.day
            && self.second == other.second
            && self.offset_from == other.offset_from
            && self.offset_to == other.offset_to
    }

    /// Whether two rules are the same, or neither is there.
    fn is_same_rule(one: Option<Yearly>, other: Option<Yearly>) -> bool
        ensures { result ≡ true → (day : ℕ) → yearly_rule day one ≡ yearly_rule day other }
    {
        match (one, other) {
            (Some(a), Some(b)) => a.is_same(b),
            (None, None) => true,
            _ => false,
        }
    }

    /// Its two offsets, the lesser first.
    pub(crate) fn offsets(&self) -> (i32, i32)
        ensures order { IsOrdered self.now.offset_from self.now.offset_to result.0 result.1 }
        ensures range { IsOffset result.0 × IsOffset result.1 }
    {
        if self.offset_from <= self.offset_to {
            (self.offset_from, self.offset_to)
        } else {
            (self.offset_to, self.offset_from)
        }
    }

    /// Are its offsets at most 12 hours apart?
    pub(crate) fn is_near(&self) -> bool
        ensures { result ≡ true ↔ (unsigned_abs (self.now.offset_from -ℤ self.now.offset_to) ≤ 43_200) }
    {
        self.offset_from.abs_diff(self.offset_to) <= HALF_DAY
    }
}
