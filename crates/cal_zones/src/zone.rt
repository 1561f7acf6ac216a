//! Zones: which offset their clocks keep at each instant, and what a local time means.

ghost use Rattle.std.specs.Prelude.{◌≡◌, ℕ, ◌<◌, ◌≤◌, None, unsigned_abs, ◌+ℤ◌, ◌-ℤ◌};
ghost use Rattle.std.specs.Int.Signed.{◌<ℤ◌};
ghost use Rattle.profile.specs.text.Values.{IsOffset};
ghost use Rattle.profile.specs.series.Zones.{local_time};

use crate::observance::Observance;
use crate::pair::Pair;
use crate::read::read_zone;
use crate::write::write_zone;
use cal_days::{Day, FIRST_INDEX, LAST_INDEX};
use ical_lines::{Fault, Refusal};
use ical_tree::Component;
use ical_values::{DAY_SECONDS, LocalTime, UtcOffset};
use std::alloc::{AllocError, Global};

/// One offset for all time.
#[derive(Clone, Copy)]
pub struct Fixed {
    /// In seconds.
    pub(crate) offset: i32,
    ghost range: { IsOffset offset },
}

/// One observance that begins once.
#[derive(Clone, Copy)]
pub struct Once {
    pub(crate) observance: Observance,
    ghost unruled: { observance.rule ≡ None },
    ghost near: { unsigned_abs (observance.offset_from -ℤ observance.offset_to) ≤ 43_200 },
}

/// What a zone is made of.
#[derive(Clone, Copy)]
pub enum Form {
    /// One offset for all time.
    Constant(Fixed),
    /// One observance.
    Single(Once),
    /// STANDARD and DAYLIGHT.
    Pair(Pair),
}

/// A zone: which offset its clocks keep at each instant.
#[derive(Clone, Copy)]
pub struct Zone {
    pub(crate) kind: Form,
}

impl Zone {
    ghost use Rattle.std.specs.Prelude.{◌≡◌, ◌↔◌, ◌⊎◌, ℤ, ◌<◌, ◌≤◌, ℕ, true, None, pos, unsigned_abs, ◌-ℤ◌, IfOk, IfErr, MatchOption, OnOk, OnErr};
    ghost use Rattle.profile.specs.text.Values.{IsOffset};
    ghost use Rattle.profile.specs.series.Days.{day_index};
    ghost use Rattle.profile.specs.series.Zones.{Constant, Single, IsZoneOnset, IsOffsetAt, Means, AreFirstOnsets, IsBounds, IsOneOffset, IsOneMeaning, IsNearEpoch, IsLastDay, NoneFrom};
    ghost use Rattle.profile.specs.series.Residues.{IsOffsetOf};
    ghost use Rattle.profile.specs.series.ZoneBlame.{ZoneBlame};
    ghost use Rattle.profile.specs.series.ZoneTexts.{AreMatched, AreSpaced, IsSingleFault, IsPairFault, SaysZone, ZoneFault};
    ghost use Rattle.cal_zones.specs.Onsets.{observance_of};
    ghost use Rattle.cal_zones.specs.Kinds.{zone_of, pair_of, AreEnds};
    ghost use Rattle.cal_zones.specs.Spans.{AreNoneBetween, IsNextOr};
    ghost use Rattle.cal_zones.specs.Repeats.{IsRegularFrom, IsLeastZonePeriod};
    ghost use Rattle.profile.specs.events.Spans.{IsPastOnsets};
    ghost use Rattle.ical_lines.specs.Fault.{RefusesBy, RefusesWhere};
    ghost use Rattle.ical_tree.specs.Tree.{tree_of, zone_of_component};
    ghost use Rattle.profile.specs.written.WrittenZones.{IsZoneText};
    ghost use Rattle.ical_values.specs.Written.{Appends};
    ghost use Rattle.std.specs.Option.{is_none};
    ghost use Rattle.cal_zones.specs.RoomWords.{own_zone};

    /// UTC.
    pub fn utc() -> Zone
        ensures { zone_of result ≡ Constant (pos 0) }
    {
        Zone {
            kind: Form::Constant(Fixed { offset: 0 }),
        }
    }

    /// Is it one offset for all time, 0?
    pub(crate) fn is_utc(&self) -> bool
        ensures { result ≡ is_none (own_zone (zone_of self.now)) }
    {
        match &self.kind {
            Form::Constant(fixed) => fixed.offset == 0,
            Form::Single(_) => false,
            Form::Pair(_) => false,
        }
    }

    /// The zone of one offset for all time.
    pub fn constant(offset: UtcOffset) -> Zone
        ensures { zone_of result ≡ Constant offset }
    {
        Zone {
            kind: Form::Constant(Fixed {
                offset: offset.seconds(),
            }),
        }
    }

    /// The zone of one observance without a rule. Refused with 40 where it has one, else with 41 where its
    /// offsets are more than 12 hours apart.
    pub fn single(observance: Observance) -> Result<Zone, Refusal>
        ensures ok { IfOk result (λ z. zone_of z ≡ Single (observance_of observance)) }
        ensures accepted { IfOk result (λ _. (observance.rule ≡ None)
            × (unsigned_abs (observance.offset_from -ℤ observance.offset_to) ≤ 43_200)) }
        ensures refuses { IfErr result (λ e. IsSingleFault e.number (observance_of observance)) }
        ensures least { IfErr result (λ e. (n : ℕ) → IsSingleFault n (observance_of observance) → e.number ≤ n) }
    {
        if observance.rule.is_some() {
            return Err(Refusal::ZONE_SHAPE);
        }
        if !observance.is_near() {
            return Err(Refusal::ZONE_OFFSETS);
        }
        Ok(Zone {
            kind: Form::Single(Once { observance }),
        })
    }

    /// The zone of two observances. Refused with 40 where one has no rule, else with 41 where each
    /// TZOFFSETFROM isn't the other's TZOFFSETTO or they are more than 12 hours apart, else with 42 where two onsets
    /// of their rules are less than 172,800 seconds apart, in any year.
    pub fn pair(standard: Observance, daylight: Observance) -> Result<Zone, Refusal>
        ensures ok { IfOk result (λ z. zone_of z ≡ pair_of standard daylight) }
        ensures accepted { IfOk result (λ _. AreMatched (pair_of standard daylight) × AreSpaced (pair_of standard daylight)) }
        ensures refuses { IfErr result (λ e. IsPairFault e.number (observance_of standard) (observance_of daylight)) }
        ensures least { IfErr result (λ e. (n : ℕ) → IsPairFault n (observance_of standard) (observance_of daylight) → e.number ≤ n) }
    {
        let pair = Pair::new(standard, daylight)?;
        Ok(Zone {
            kind: Form::Pair(pair),
        })
    }

    /// The zone that a VTIMEZONE says.
    /// Refused: 40 for a shape that isn't supported, such as no part, RDATE, a DTSTART, TZOFFSETFROM or TZOFFSETTO that
    /// is missing, occurs twice or isn't local, or other rules; 11 and 13 for a DTSTART and an offset that are
    /// not valid; 41 for offsets that don't match or are over 12 hours apart; 42 for onsets less than two days
    /// apart. The refusal is at the line that is wrong, at the second of two; of what a part lacks at the BEGIN of the part; of two parts that
    /// don't go together at the BEGIN of the later; of other parts than those accepted at the BEGIN of the VTIMEZONE.
    pub fn read(alloc: Global, zone: &Component) -> Result<Zone, Fault>
        ensures says { IfOk result (λ z. SaysZone (tree_of zone.now) (zone_of z)) }
        ensures fault { IfErr result (RefusesBy (ZoneFault (tree_of zone.now))) }
        ensures at { IfErr result (RefusesWhere (ZoneBlame (zone_of_component zone.now))) }
    {
        read_zone(alloc, zone)
    }

    /// The zone of the one offset that an observance sets.
    pub(crate) fn keeping(observance: Observance) -> Zone
        ensures { zone_of result ≡ Constant observance.offset_from }
    {
        Zone {
            kind: Form::Constant(Fixed {
                offset: observance.offset_from,
            }),
        }
    }

    /// Whether another zone is the same, in the same words: then its clocks are the same.
    pub fn is_same(&self, other: &Zone) -> bool
        ensures { result ≡ true → zone_of self.now ≡ zone_of other.now }
    {
        match (&self.kind, &other.kind) {
            (Form::Constant(a), Form::Constant(b)) => a.offset == b.offset,
            (Form::Single(a), Form::Single(b)) => a.observance.is_same(&b.observance),
            (Form::Pair(a), Form::Pair(b)) => a.is_same(b),
            _ => false,
        }
    }

    /// The offset in force at an instant, in seconds (RFC 5545 3.6.5). Instants are seconds from
    /// 1970-01-01T00:00:00Z.
    pub fn offset(&self, instant: i64) -> i32
        ensures offset { IsOffsetAt (zone_of self.now) instant result }
        ensures range { IsOffset result }
    {
        match &self.kind {
            Form::Constant(fixed) => fixed.offset,
            Form::Single(once) => once.observance.offset(instant),
            Form::Pair(pair) => pair.offset(instant),
        }
    }

    /// The least and the greatest offset, in seconds: each is in force at some instant, and no other is at any. They are those that it names.
    pub fn offsets(&self) -> (i32, i32)
        ensures bounds { IsBounds (zone_of self.now) result.0 result.1 }
        ensures range { IsOffset result.0 × IsOffset result.1 }
        ensures is_offset { (offset : ℤ) → IsOffsetOf (zone_of self.now) offset ↔ ((offset ≡ result.0) ⊎ (offset ≡ result.1)) }
    {
        // Only for the proof: each is in force at a first onset, or before it.
        let _ = self.first_onsets();
        self.ends()
    }

    /// The least and the greatest offset that it names, with no look at any instant.
    pub(crate) fn ends(&self) -> (i32, i32)
        ensures ends { AreEnds (zone_of self.now) result.0 result.1 }
        ensures range { IsOffset result.0 × IsOffset result.1 }
    {
        match &self.kind {
            Form::Constant(fixed) => (fixed.offset, fixed.offset),
            Form::Single(once) => once.observance.offsets(),
            Form::Pair(pair) => pair.standard.offsets(),
        }
    }

    /// The first onset of each observance: of none for a zone of one offset, of STANDARD and then DAYLIGHT for
    /// two.
    pub fn first_onsets(&self) -> (Option<i64>, Option<i64>)
        ensures { AreFirstOnsets (zone_of self.now) result.0 result.1 }
    {
        match &self.kind {
            Form::Constant(_) => (None, None),
            Form::Single(once) => (Some(once.observance.first_onset()), None),
            Form::Pair(pair) => (
                Some(pair.standard.first_onset()),
                Some(pair.daylight.first_onset()),
            ),
        }
    }

    /// The first instant that is more than half a day past the first onset of each observance: from then on nothing is left of an onset that comes
    /// only once. 0 for a zone without onsets, which never changes.
    pub fn regular_from(&self) -> i64
        ensures past { IsPastOnsets (zone_of self.now) result }
        ensures exact { IsRegularFrom (zone_of self.now) result }
    {
        match &self.kind {
            Form::Constant(_) => 0,
            Form::Single(once) => once.observance.begun_from(),
            Form::Pair(pair) => pair.standard.begun_from().max(pair.daylight.begun_from()),
        }
    }

    /// After how many days its clocks do the same again, from `regular_from` on: 146,097 where two observances follow each other, which are 400
    /// years, else 1.
    pub fn period_days(&self) -> u64
        ensures { IsLeastZonePeriod (zone_of self.now) result }
    {
        match &self.kind {
            Form::Constant(_) => 1,
            Form::Single(_) => 1,
            Form::Pair(_) => 146_097,
        }
    }

    /// The first onset later than an instant. None where there is none that 64 bits hold. Of each observance two years are looked at.
    pub fn next_onset(&self, after: i64) -> Option<i64>
        ensures { IsNextOr (IsZoneOnset (zone_of self.now)) after result }
    {
        match &self.kind {
            Form::Constant(_) => None,
            Form::Single(once) => once.observance.next_onset(after),
            Form::Pair(pair) => pair.next_onset(after),
        }
    }

    /// An instant such that no onset comes after the given one and before it. It needn't be later than the given one.
    pub(crate) fn quiet_until(&self, instant: i64) -> i64
        ensures { AreNoneBetween (IsZoneOnset (zone_of self.now)) instant result }
    {
        match &self.kind {
            Form::Constant(_) => i64::MAX,
            Form::Single(once) => once.observance.quiet_until(instant),
            Form::Pair(pair) => pair.quiet_until(instant),
        }
    }

    /// The instant that a local time means (RFC 5545 3.3.5): the first of two where the clocks show it
    /// twice; where they skip it, what it means with the offset before they were set.
    pub fn resolve(&self, local: LocalTime) -> i64
        ensures meaning { Means (zone_of self.now) local result }
        ensures range { IsNearEpoch result }
    {
        let (least, greatest) = self.ends();
        let seconds = local.seconds();
        let early = seconds - greatest as i64;
        if self.offset(early) == greatest {
            return early;
        }
        let late = seconds - least as i64;
        // Only for the proof: the clocks show it then or skip it. It is read with the least offset in both cases.
        let _ = self.offset(late);
        late
    }

    /// One offset is in force at an instant, and a local time means one instant.
    pub fn one_meaning(&self)
        ensures offset { IsOneOffset (zone_of self.now) }
        ensures meaning { IsOneMeaning (zone_of self.now) }
    {
        // Only for the proof: the two offsets.
        let _ = self.ends();
    }

    /// The last day up to 9999-12-31 on which a time of day, in seconds, isn't past an instant. None where
    /// it is past it on each from 0001-01-01 on, and for a second that no day has.
    pub fn last_day(&self, second: u32, until: i64) -> Option<Day>
        ensures day { second < 86_400 → let z = zone_of self.now in
            MatchOption result (NoneFrom z second until 366) (λ day. IsLastDay z second until (day_index day)) }
        ensures none { 86_400 ≤ second → result ≡ None }
    {
        if second >= DAY_SECONDS as u32 {
            return None;
        }
        self.last_day_at(second, until)
    }

    /// The last day, for a second of a day. The offsets decide between the three days that are looked at.
    fn last_day_at(&self, second: u32, until: i64) -> Option<Day>
        requires { second < 86_400 }
        ensures { let z = zone_of self.now in
            MatchOption result (NoneFrom z second until 366) (λ day. IsLastDay z second until (day_index day)) }
    {
        let (_, greatest) = self.ends();
        let mut index = latest_day(second, greatest, until);
        while index >= FIRST_INDEX {
            let day = Day::at_index(index).unwrap();
            let start = LocalTime::of_day(day, second).unwrap();
            if self.resolve(start) <= until {
                return Some(day);
            }
            index -= 1;
        }
        None
    }

    /// Appends the VTIMEZONE of that name: its TZID, STANDARD, and DAYLIGHT where there are two parts. A part has
    /// DTSTART, RRULE where it comes every year, TZOFFSETFROM and TZOFFSETTO. Where memory is refused, nothing is appended.
    pub fn write(&self, name: &str, out: &mut Vec<u8>) -> Result<(), AllocError>
        ensures ok { OnOk result (Appends out.old.items out.new.items (λ text. IsZoneText text name.now (zone_of self.now))) }
        ensures err { OnErr result (out.new.items ≡ out.old.items) }
    {
        let mut octets = Vec::new(*out.allocator());
        write_zone(&mut octets, name, self)?;
        out.extend_from_slice(octets.as_slice())?;
        Ok(())
    }
}

/// The last day, by its index, on which that second of the day isn't past an instant with that offset: the day before the first one
/// where it is past it on each, and the last one where it is past it on none.
fn latest_day(second: u32, offset: i32, until: i64) -> u32
    requires second { second < 86_400 }
    requires offset { IsOffset offset }
    ensures range { result ≤ 3_652_424 }
    ensures past { (other : ℕ) → result < other → other ≤ 3_652_424 → (until +ℤ offset) <ℤ local_time other second }
{
    let Some(local) = LocalTime::of_seconds(until.saturating_add(offset as i64)) else {
        // Before the year 1, or after the year 9999.
        if until < 0 {
            return FIRST_INDEX - 1;
        }
        return LAST_INDEX;
    };
    let (day, time) = local.day_and_second();
    if time < second {
        return day.index() - 1;
    }
    day.index()
}
