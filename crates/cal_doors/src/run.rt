//! A run of onsets: those of one observance, up to an end.

ghost use Rattle.std.specs.Prelude.{◌≡◌, true};
ghost use Rattle.profile.specs.series.Zones.{local_time};
ghost use Rattle.cal_zones.specs.Onsets.{observance_of};
ghost use Rattle.cal_doors.specs.Ends.{rule_on, AreDaysApart, AreSameDays};

use crate::end::{End, YearDay};
use cal_zones::{Observance, Yearly};
use ical_values::{DAY_SECONDS, LocalTime, UtcOffset};

/// A run of onsets.
#[derive(Clone, Copy)]
pub struct Run {
    pub(crate) observance: Observance,
    /// DTSTART.
    pub(crate) start: LocalTime,
    /// The day of its rule, where it has one.
    pub(crate) each: Option<YearDay>,
    /// TZOFFSETFROM, in seconds.
    pub(crate) offset_from: i32,
    /// TZOFFSETTO, in seconds.
    pub(crate) offset_to: i32,
    pub(crate) end: End,
    ghost starts: { local_time (observance_of observance).day (observance_of observance).second ≡ start },
    ghost rule: { (observance_of observance).rule ≡ rule_on (observance_of observance).day each },
    ghost before: { (observance_of observance).offset_from ≡ offset_from },
    ghost after: { (observance_of observance).offset_to ≡ offset_to },
}

impl Run {
    ghost use Rattle.std.specs.Prelude.{◌≡◌, ℕ, true, false, None, IfSome, MatchOption, pos, negsuc, ◌≤ℤ◌};
    ghost use Rattle.std.specs.Int.Signed.{◌<ℤ◌};
    ghost use Rattle.profile.specs.series.Zones.{Onset, IsOnset, IsFirstOf, onset_at};
    ghost use Rattle.profile.specs.series.GeneralZones.{IsRunOnset};
    ghost use Rattle.cal_zones.specs.Onsets.{observance_of};
    ghost use Rattle.std.specs.Prelude.{◌↔◌, IsSome};
    ghost use Rattle.profile.specs.series.Zones as said;
    ghost use Rattle.profile.specs.series.GeneralZoneTexts.{IsRunAt};
    ghost use Rattle.cal_zones.specs.Shapes.{occurs_yearly};
    ghost use Rattle.cal_doors.specs.Ends.{end_of};
    ghost use Rattle.cal_doors.specs.Runs.{IsYearlyRun, run_of, AreUpTo, IsAlike, ReachTo, StatesNothingBy, IsLastStated, HasOnsetIn};
    ghost use Rattle.cal_doors.specs.declared.end.End.TheVariants.{Never, At};

    /// The run of one onset, at a local time that is read with TZOFFSETFROM.
    pub fn once(start: LocalTime, from: UtcOffset, to: UtcOffset) -> Run
        ensures run { (o : said.Observance) → o.offset_from ≡ from → o.offset_to ≡ to → IsRunAt o start (run_of result) }
    {
        Run {
            observance: Observance::new(start, None, from, to),
            start,
            each: None,
            offset_from: from.seconds(),
            offset_to: to.seconds(),
            end: End::Never,
        }
    }

    /// The run of one day a year from a DTSTART on, up to an end. None where a year lacks the day or has two of it.
    pub fn yearly(
        start: LocalTime,
        each: YearDay,
        from: UtcOffset,
        to: UtcOffset,
        end: End,
    ) -> Option<Run>
        ensures run { IfSome result (λ run. IsYearlyRun start each from to (end_of end) (run_of run)) }
        ensures found { IsSome result ↔ (occurs_yearly each.month each.days ≡ true) }
    {
        let rule = Yearly::new(each.month, each.days)?;
        Some(Run {
            observance: Observance::new(start, Some(rule), from, to),
            start,
            each: Some(each),
            offset_from: from.seconds(),
            offset_to: to.seconds(),
            end,
        })
    }

    /// No onset up to an instant is later than this. None where there is none up to it.
    pub(crate) fn latest_bound(&self, instant: i64) -> Option<i64>
        ensures { AreUpTo (run_of self.now) instant result }
    {
        self.observance.latest_onset(self.end.bound(instant))
    }

    /// No onset is earlier than this.
    pub(crate) fn first_bound(&self) -> i64
        ensures first { IsFirstOf (observance_of self.now.observance) result }
        ensures bound { (x : Onset) → IsRunOnset (run_of self.now) x → result ≤ℤ x.instant }
        ensures low { negsuc 100_000_000_000 ≤ℤ result }
        ensures high { result ≤ℤ pos 1_000_000_000_000 }
    {
        self.observance.first_onset()
    }

    /// Whether one begins at an instant. It isn't known where the onsets are counted.
    pub(crate) fn begins_at(&self, instant: i64) -> bool
        ensures { result ≡ true → IsRunOnset (run_of self.now) (onset_at (observance_of self.now.observance) instant) }
    {
        self.end.allows(instant) && self.observance.latest_onset(instant) == Some(instant)
    }

    /// No onset is later than this. None where the rule doesn't end, or its onsets are counted.
    pub(crate) fn last_bound(&self) -> Option<i64>
        ensures { IfSome result (λ last. (x : Onset) → IsRunOnset (run_of self.now) x → x.instant ≤ℤ last) }
    {
        match (self.each, self.end) {
            (None, _) => Some(self.observance.first_onset()),
            (Some(_), End::At(until)) => Some(until),
            _ => None,
        }
    }

    /// The last instant up to another of which it states something: an onset, or the UNTIL of its rule. COUNT is left aside. None where there is none.
    pub(crate) fn last_stated(&self, instant: i64) -> Option<i64>
        ensures { MatchOption result (StatesNothingBy (run_of self.now) instant) (IsLastStated (run_of self.now) instant) }
    {
        match self.end {
            End::Never => self.observance.latest_onset(instant),
            End::After(_) => self.observance.latest_onset(instant),
            End::At(until) => self.stated_until(until, instant),
        }
    }

    /// The same of a run that UNTIL ends.
    fn stated_until(&self, until: i64, instant: i64) -> Option<i64>
        requires { self.now.end ≡ At until }
        ensures { MatchOption result (StatesNothingBy (run_of self.now) instant) (IsLastStated (run_of self.now) instant) }
    {
        if until <= instant {
            return Some(until);
        }
        self.observance.latest_onset(instant)
    }

    /// Whether no onset comes after an instant. It isn't known where the onsets are counted.
    pub(crate) fn is_over(&self, instant: i64) -> bool
        ensures { result ≡ true → (x : Onset) → IsRunOnset (run_of self.now) x → x.instant ≤ℤ instant }
    {
        let Some(last) = self.last_bound() else {
            return false;
        };
        self.is_quiet(instant, last)
    }

    /// Whether none comes after an instant and up to another.
    pub(crate) fn is_quiet(&self, after: i64, until: i64) -> bool
        ensures { result ≡ true → (x : Onset) → IsRunOnset (run_of self.now) x → x.instant ≤ℤ until → x.instant ≤ℤ after }
    {
        match self.latest_bound(until) {
            None => true,
            Some(latest) => latest <= after,
        }
    }

    /// Whether an onset of its rule, whose end is left aside, comes after an instant and up to another.
    pub(crate) fn has_onset_in(&self, after: i64, until: i64) -> bool
        ensures yes { result ≡ true → HasOnsetIn (observance_of self.now.observance) after until }
        ensures no { result ≡ false → (x : Onset) → IsOnset (observance_of self.now.observance) x → x.instant ≤ℤ until → x.instant ≤ℤ after }
    {
        match self.observance.latest_onset(until) {
            Some(latest) => after < latest,
            None => false,
        }
    }

    /// Whether each of its onsets ends that offset.
    pub(crate) fn ends(&self, offset: i32) -> bool
        ensures { result ≡ true → (x : Onset) → IsRunOnset (run_of self.now) x → x.before ≡ offset }
    {
        self.offset_from == offset
    }

    /// Whether each of its onsets sets that offset.
    pub(crate) fn sets(&self, offset: i32) -> bool
        ensures { result ≡ true → (x : Onset) → IsRunOnset (run_of self.now) x → x.after ≡ offset }
    {
        self.offset_to == offset
    }

    /// Whether none comes after an instant but at a later one.
    pub(crate) fn is_alone(&self, instant: i64, only: i64) -> bool
        ensures { result ≡ true → (x : Onset) → IsRunOnset (run_of self.now) x → instant <ℤ x.instant → x.instant ≡ only }
    {
        if only <= instant {
            return false;
        }
        if !self.is_quiet(instant, only - 1) {
            return false;
        }
        self.is_over(only)
    }

    /// The run with the onsets of its rule that come after its end.
    pub(crate) fn endless(&self) -> Run
        ensures observance { result.observance ≡ self.now.observance }
        ensures end { result.end ≡ Never }
    {
        let mut run = *self;
        run.end = End::Never;
        run
    }

    /// Whether it begins on each day on which another does, that isn't before its DTSTART, at the same time of day and with the same offsets.
    pub(crate) fn is_alike(&self, other: &Run) -> bool
        ensures { result ≡ true → IsAlike (observance_of self.now.observance) (observance_of other.now.observance) }
    {
        if self.offset_from != other.offset_from {
            return false;
        }
        if self.offset_to != other.offset_to {
            return false;
        }
        if !are_whole_days(self.start, other.start) {
            return false;
        }
        are_same_days(self.each, other.each)
    }

    /// Whether each of its onsets is one of another, whose end is left aside.
    pub(crate) fn is_within(&self, whole: &Run) -> bool
        ensures { result ≡ true → (x : Onset) → IsRunOnset (run_of self.now) x → IsOnset (observance_of whole.now.observance) x }
    {
        if !whole.is_alike(self) {
            return false;
        }
        whole.start.seconds() <= self.start.seconds()
    }

    /// How far the onsets of another, whose end is left aside, are its own from an instant on. None where all are.
    pub(crate) fn reach(&self, whole: &Run, from: i64) -> Option<i64>
        requires { whole.now.end ≡ Never }
        ensures { ReachTo (run_of self.now) (observance_of whole.now.observance) from result }
    {
        if !self.is_alike(whole) || !whole.is_quiet(from, self.first_bound() - 1) {
            return Some(from);
        }
        match self.end {
            End::Never => None,
            End::After(_) => Some(from),
            End::At(until) if from < until => Some(until),
            End::At(_) => Some(from),
        }
    }
}

/// Whether two local times are at the same second of the day.
fn are_whole_days(one: LocalTime, other: LocalTime) -> bool
    ensures { result ≡ true → AreDaysApart one other }
{
    one.seconds().abs_diff(other.seconds()) % DAY_SECONDS as u64 == 0
}

/// Whether two rules name the same day of the year, in the same words.
fn are_same_days(one: Option<YearDay>, other: Option<YearDay>) -> bool
    ensures { result ≡ true → AreSameDays one other }
{
    match (one, other) {
        (Some(one), Some(other)) => one.month == other.month && one.days == other.days,
        _ => false,
    }
}
