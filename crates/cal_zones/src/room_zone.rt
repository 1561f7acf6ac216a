//! The zone of a room, in words (this profile's own form): one offset, as `-0500`; or the offsets of STANDARD and of DAYLIGHT and,
//! of each, when in the year it begins, as `-0500 -0400 11 1SU 0200 3 2SU 0200`. It is read, written again, and compared.

ghost use Rattle.std.specs.Prelude.{◌≡◌, ◌<◌, ◌==◌, ℕ, ℤ, List, true, None, Option, map, string_bytes, IfOk, IfErr};
ghost use Rattle.std.specs.List.{slice_split};
ghost use Rattle.ical_lines.specs.Fault.{RefusesBy};
ghost use Rattle.profile.specs.text.Values.{IsOffset, WritesOffset};
ghost use Rattle.profile.specs.series.Zones as zones;
ghost use Rattle.profile.specs.series.ZoneTexts.{AreSpaced, YearRule};
ghost use Rattle.profile.specs.series.RoomZones.{WritesHourMinute, IsRoomZone, IsNoRoomZone};
ghost use Rattle.cal_zones.specs.Kinds.{zone_of};
ghost use Rattle.cal_zones.specs.Shapes.{days_of, rule_named};
ghost use Rattle.cal_zones.specs.RoomWords.{has_words, form_words, offset_octets, onset_words, year_words, day_words, time_words, pair_octets, are_worded, is_word_onset, is_word_rule, own_zone, WritesYear, BeginsBy, IsReadAs, AreWords, GoTogether, three_words, eight_words};
ghost use Rattle.cal_zones.specs.declared.zone.Form.TheVariants as the;

use crate::observance::Observance;
use crate::pair::Pair;
use crate::read::read_year as read_rule;
use crate::yearly::{MonthDays, Yearly};
use crate::zone::{Fixed, Form, Zone};
use cal_days::EPOCH_INDEX;
use cal_rules::weekday_word;
use ical_lines::{Fault, Refusal};
use ical_values::shown::offset_text;
use ical_values::{LocalTime, UtcOffset};
use std::alloc::{AllocError, Global};

/// The zone of a room.
#[derive(Clone, Copy)]
pub struct RoomZone {
    pub(crate) kept: Zone,
    ghost worded: { has_words kept.kind ≡ true },
    ghost spaced: { (a b : zones.Observance) → zone_of kept ≡ zones.Pair a b → AreSpaced (zones.Pair a b) },
}

impl RoomZone {
    ghost use Rattle.std.specs.Prelude.{◌≡◌, Option, None, codes, string_bytes, IfOk, IfErr, true};
    ghost use Rattle.std.specs.Option.{option_map, is_none};
    ghost use Rattle.profile.specs.series.RoomZones.{IsRoomZone, IsNoRoomZone};
    ghost use Rattle.profile.specs.events.ZonedTimes.{clock_of};
    ghost use Rattle.ical_lines.specs.Fault.{RefusesBy};
    ghost use Rattle.cal_zones.specs.Kinds.{zone_of};
    ghost use Rattle.cal_zones.specs.RoomZones.{words_of, room_of};

    /// UTC, `+0000`.
    pub fn utc() -> RoomZone
        ensures words { words_of result ≡ codes "+0000" }
        ensures zone { room_of result ≡ None }
    {
        constant(0)
    }

    /// The zone that the words mean. Refused with 44 where they mean none.
    pub fn read(alloc: Global, words: &str) -> Result<RoomZone, Fault>
        ensures words { IfOk result (λ r. words_of r ≡ words.now) }
        ensures means { IfOk result (λ r. IsRoomZone words.now (room_of r)) }
        ensures fault { IfErr result (RefusesBy (λ n. (n ≡ 44) × IsNoRoomZone words.now)) }
    {
        let zone = read_words(alloc, words)?;
        let again = zone.words(alloc)?;
        if again.as_str() != words {
            return Err(Fault::Refused(Refusal::ROOM_ZONE));
        }
        Ok(zone)
    }

    /// Its words mean it.
    pub fn words_mean(self)
        ensures { IsRoomZone (words_of self) (room_of self) }
    {}

    /// Its words.
    pub fn words(self, alloc: Global) -> Result<String, AllocError>
        ensures { IfOk result (λ text. string_bytes text ≡ words_of self) }
    {
        match &self.kept.kind {
            Form::Constant(fixed) => offset_words(alloc, fixed.offset),
            Form::Single(_) => Ok(String::new(alloc)),
            Form::Pair(pair) => pair_words(alloc, pair),
        }
    }

    /// Its clocks: those of UTC where it is UTC.
    pub fn zone(self) -> Zone
        ensures { zone_of result ≡ clock_of (room_of self) }
    {
        self.kept
    }

    /// The zone, where it isn't UTC.
    pub fn own_zone(self) -> Option<Zone>
        ensures { option_map zone_of result ≡ room_of self }
    {
        if self.is_utc() {
            return None;
        }
        Some(self.kept)
    }

    /// Is it UTC?
    pub fn is_utc(self) -> bool
        ensures { result ≡ is_none (room_of self) }
    {
        self.kept.is_utc()
    }
}

// ---- words

/// The words of two offsets.
fn pair_words(alloc: Global, pair: &Pair) -> Result<String, AllocError>
    ensures { IfOk result (λ text. string_bytes text ≡ form_words (the.Pair pair.now)) }
{
    let standard = offset_words(alloc, pair.standard.offset_to)?;
    let daylight = offset_words(alloc, pair.daylight.offset_to)?;
    let first = onset_words(alloc, &pair.standard)?;
    let second = onset_words(alloc, &pair.daylight)?;
    Ok(format!(in alloc; "{standard} {daylight} {first} {second}")?)
}

/// An offset, of these seconds.
fn offset_words(alloc: Global, seconds: i32) -> Result<String, AllocError>
    requires { IsOffset seconds }
    ensures { IfOk result (λ text. string_bytes text ≡ offset_octets seconds) }
{
    let offset = UtcOffset::of_seconds(seconds).unwrap();
    let text = offset_text(alloc, offset)?;
    Ok(text)
}

/// When in the year it begins.
fn onset_words(alloc: Global, observance: &Observance) -> Result<String, AllocError>
    ensures { IfOk result (λ text. string_bytes text ≡ onset_words observance.now) }
{
    let year = year_words(alloc, observance.rule)?;
    let time = time_words(alloc, observance.second)?;
    Ok(format!(in alloc; "{year} {time}")?)
}

/// The month, and the day of it.
fn year_words(alloc: Global, rule: Option<Yearly>) -> Result<String, AllocError>
    ensures { IfOk result (λ text. string_bytes text ≡ year_words rule) }
{
    let Some(rule) = rule else {
        return Ok(String::new(alloc));
    };
    let month = rule.month;
    let day = day_words(alloc, rule.days)?;
    Ok(format!(in alloc; "{month} {day}")?)
}

/// The day of a month.
fn day_words(alloc: Global, days: MonthDays) -> Result<String, AllocError>
    ensures { IfOk result (λ text. string_bytes text ≡ day_words (days_of days)) }
{
    match days {
        MonthDays::Day(_) => Ok(String::new(alloc)),
        MonthDays::FromStart { number, weekday } => {
            let word = weekday_word(weekday);
            Ok(format!(in alloc; "{number}{word}")?)
        }
        MonthDays::FromEnd { number, weekday } => {
            let word = weekday_word(weekday);
            Ok(format!(in alloc; "-{number}{word}")?)
        }
        MonthDays::Week {
            first: _,
            weekday: _,
        } => Ok(String::new(alloc)),
    }
}

/// The hour and the minute of a second of the day.
fn time_words(alloc: Global, second: u32) -> Result<String, AllocError>
    requires { second < 86_400 }
    ensures { IfOk result (λ text. string_bytes text ≡ time_words second) }
{
    let hour = second / 3600;
    let minute = second / 60 % 60;
    let [a, b, c, d] = [hour / 10, hour % 10, minute / 10, minute % 10];
    Ok(format!(in alloc; "{a}{b}{c}{d}")?)
}

// ---- reading

/// The zone of one offset.
fn constant(seconds: i32) -> RoomZone
    requires { IsOffset seconds }
    ensures words { form_words result.kept.kind ≡ offset_octets seconds }
    ensures zone { zone_of result.kept ≡ zones.Constant seconds }
{
    RoomZone {
        kept: Zone {
            kind: Form::Constant(Fixed { offset: seconds }),
        },
    }
}

/// The zone that the words may mean: they mean no other. Refused with 44 where they mean none.
fn read_words(alloc: Global, words: &str) -> Result<RoomZone, Fault>
    ensures words { IfOk result (λ r. (z : Option zones.Zone) → IsRoomZone words.now z → form_words r.kept.kind ≡ words.now) }
    ensures fault { IfErr result (RefusesBy (λ n. (n ≡ 44) × IsNoRoomZone words.now)) }
{
    let parts = split_words(alloc, words)?;
    if parts.len() == 1 {
        return read_one(words);
    }
    if parts.len() != 8 {
        return Err(Fault::Refused(Refusal::ROOM_ZONE));
    }
    read_two(
        alloc, parts[0], parts[1], parts[2], parts[3], parts[4], parts[5], parts[6], parts[7],
    )
}

/// The words, between single spaces.
fn split_words<'a>(alloc: Global, words: &'a str) -> Result<Vec<&'a str>, AllocError>
    ensures { IfOk result (λ parts. map (λ x. x.now) parts.items ≡ slice_split (λ b. b == 32) words.now) }
{
    words.split(' ').collect(alloc)
}

/// The zone of one offset, which is the one word.
fn read_one(words: &str) -> Result<RoomZone, Fault>
    ensures words { IfOk result (λ r. (offset : ℤ) → WritesOffset words.now offset → form_words r.kept.kind ≡ words.now) }
    ensures fault { IfErr result (RefusesBy (λ n. (n ≡ 44) × ((offset : ℤ) → WritesOffset words.now offset → ⊥))) }
{
    let offset = read_offset(words)?;
    Ok(constant(offset.seconds()))
}

/// The zone of eight words.
fn read_two(
    alloc: Global,
    s: &str,
    d: &str,
    m1: &str,
    d1: &str,
    t1: &str,
    m2: &str,
    d2: &str,
    t2: &str,
) -> Result<RoomZone, Fault>
    ensures words { IfOk result (λ r. (z : zones.Zone) → AreWords s.now d.now m1.now d1.now t1.now m2.now d2.now t2.now z
        → form_words r.kept.kind ≡ eight_words s.now d.now m1.now d1.now t1.now m2.now d2.now t2.now) }
    ensures fault { IfErr result (RefusesBy (λ n. (n ≡ 44)
        × ((z : zones.Zone) → AreWords s.now d.now m1.now d1.now t1.now m2.now d2.now t2.now z → ⊥))) }
{
    let standard = read_offset(s)?;
    let daylight = read_offset(d)?;
    let first = read_onset(alloc, m1, d1, t1, daylight, standard)?;
    let second = read_onset(alloc, m2, d2, t2, standard, daylight)?;
    joined(first, second)
}

/// The zone of two observances.
fn joined(a: Observance, b: Observance) -> Result<RoomZone, Fault>
    ensures words { IfOk result (λ r. form_words r.kept.kind ≡ pair_octets a b) }
    ensures fault { IfErr result (RefusesBy (λ n. (n ≡ 44) × (GoTogether a b → ⊥))) }
{
    if !are_worded(&a, &b) {
        return Err(Fault::Refused(Refusal::ROOM_ZONE));
    }
    match Pair::new(a, b) {
        Ok(pair) => Ok(RoomZone {
            kept: Zone {
                kind: Form::Pair(pair),
            },
        }),
        Err(_) => Err(Fault::Refused(Refusal::ROOM_ZONE)),
    }
}

/// Are there words for both, and do their offsets differ?
fn are_worded(a: &Observance, b: &Observance) -> bool
    ensures { result ≡ are_worded a.now b.now }
{
    is_word_onset(a) && is_word_onset(b) && a.offset_to != b.offset_to
}

/// Does it begin on a whole minute, from 1970-01-01 on, on a day that words name?
fn is_word_onset(o: &Observance) -> bool
    ensures { result ≡ is_word_onset o.now }
{
    o.day == EPOCH_INDEX && o.second % 60 == 0 && is_word_rule(o.rule)
}

/// Is it a weekday, by its number?
fn is_word_rule(rule: Option<Yearly>) -> bool
    ensures { result ≡ is_word_rule rule }
{
    let Some(rule) = rule else {
        return false;
    };
    match rule.days {
        MonthDays::Day(_) => false,
        MonthDays::FromStart {
            number: _,
            weekday: _,
        } => true,
        MonthDays::FromEnd {
            number: _,
            weekday: _,
        } => true,
        MonthDays::Week {
            first: _,
            weekday: _,
        } => false,
    }
}

/// One observance, from the words of its onset and its offsets.
fn read_onset(
    alloc: Global,
    month: &str,
    day: &str,
    time: &str,
    from: UtcOffset,
    to: UtcOffset,
) -> Result<Observance, Fault>
    ensures reads { IfOk result (λ r. (o : zones.Observance) → BeginsBy month.now day.now time.now from to o
        → IsReadAs r o (three_words month.now day.now time.now)) }
    ensures to { IfOk result (λ r. r.offset_to ≡ to) }
    ensures rule { IfOk result (λ r. r.rule ≡ None → ⊥) }
    ensures fault { IfErr result (RefusesBy (λ n. (n ≡ 44) × ((o : zones.Observance) → BeginsBy month.now day.now time.now from to o → ⊥))) }
{
    let rule = read_year(alloc, month, day)?;
    let start = read_start(alloc, time)?;
    Ok(Observance::new(start, Some(rule), from, to))
}

/// One offset.
fn read_offset(text: &str) -> Result<UtcOffset, Fault>
    ensures reads { IfOk result (λ r. (offset : ℤ) → WritesOffset text.now offset → r ≡ offset) }
    ensures fault { IfErr result (RefusesBy (λ n. (n ≡ 44) × ((offset : ℤ) → WritesOffset text.now offset → ⊥))) }
{
    match UtcOffset::read(text) {
        Ok(offset) => Ok(offset),
        Err(_) => Err(Fault::Refused(Refusal::ROOM_ZONE)),
    }
}

/// A month and the day of it, read as those of a rule.
fn read_year(alloc: Global, month: &str, day: &str) -> Result<Yearly, Fault>
    ensures reads { IfOk result (λ r. (each : YearRule) → WritesYear month.now day.now each → rule_named r.month r.days ≡ each) }
    ensures fault { IfErr result (RefusesBy (λ n. (n ≡ 44) × ((each : YearRule) → WritesYear month.now day.now each → ⊥))) }
{
    let text = format!(in alloc; "FREQ=YEARLY;BYMONTH={month};BYDAY={day}")?;
    match read_rule(alloc, text.as_str()) {
        Ok(rule) => Ok(rule),
        Err(Fault::Memory) => Err(Fault::Memory),
        Err(Fault::Refused(_)) => Err(Fault::Refused(Refusal::ROOM_ZONE)),
    }
}

/// A time of day, read as that of 1970-01-01.
fn read_start(alloc: Global, time: &str) -> Result<LocalTime, Fault>
    ensures reads { IfOk result (λ r. (second : ℕ) → WritesHourMinute time.now second → r ≡ zones.local_time 719_528 second) }
    ensures fault { IfErr result (RefusesBy (λ n. (n ≡ 44) × ((second : ℕ) → WritesHourMinute time.now second → ⊥))) }
{
    let text = format!(in alloc; "19700101T{time}00")?;
    match LocalTime::read(text.as_str()) {
        Ok(start) => Ok(start),
        Err(_) => Err(Fault::Refused(Refusal::ROOM_ZONE)),
    }
}
