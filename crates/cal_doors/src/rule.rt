//! The RRULE of a part of a VTIMEZONE: the day of the year that it names, and where it ends; or the days that it lists (RFC 5545 3.3.10, 3.6.5).

ghost use Rattle.std.specs.Prelude.{◌≡◌, true, map, None, Some, IfOk, IfErr, IfSome, IfNone, MatchOption};
ghost use Rattle.ical_lines.specs.Fault.{RefusesBy};
ghost use Rattle.profile.specs.series.Days.{day_index};
ghost use Rattle.profile.specs.series.ZoneTexts as texts;
ghost use Rattle.profile.specs.series.ZoneTexts.{is_one_day};
ghost use Rattle.profile.specs.series.GeneralZones as general;
ghost use Rattle.profile.specs.series.GeneralZoneTexts.{without_end, IsEndOf};
ghost use Rattle.cal_rules.specs.Views.{until_of};
ghost use Rattle.cal_zones.specs.Shapes.{rule_named};
ghost use Rattle.cal_zones.specs.Read.{IsShapeFault};
ghost use Rattle.cal_doors.specs.Ends.{end_of, IsNearEnd, IsNearInstant};
ghost use Rattle.cal_doors.specs.Listed.{AreListedDays, AreMany};
ghost use Rattle.cal_doors.specs.Reading.{SpellsRuleOf, SpellsNoRuleOf, IsLastFrom, AreDaysTo, AreNoDaysTo};

use crate::end::{End, YearDay};
use cal_days::Day;
use cal_rules::{Rule, RuleText, Until, one_rule};
use cal_zones::day_named;
use ical_lines::{Fault, Refusal};
use ical_values::{DAY_SECONDS, LocalTime, UtcOffset};
use std::alloc::{AllocError, Global};

/// The most days of a rule that are listed; this profile's choice.
const MOST_DAYS: usize = 200;

/// The most days from DTSTART to the last of them, 40 years; this profile's choice. A rule that has no day is looked through up to there.
const MOST_SPAN: u32 = 14_610;

/// What the RRULE of a part says.
#[derive(Drop)]
pub(crate) enum PartRule {
    /// One day a year, and where it ends.
    Yearly(EndingRule),
    /// The days of a rule of another form, which ends, from DTSTART on.
    Listed(Vec<Day>),
}

/// A rule of one day a year, and where it ends.
#[derive(Clone, Copy)]
pub(crate) struct EndingRule {
    pub(crate) day: YearDay,
    pub(crate) end: End,
}

/// The rule that a text spells, in a part with this DTSTART and this TZOFFSETFROM. Refused with 40 where it spells none, where a date ends it, and where it
/// isn't of one day a year, and UNTIL doesn't end it within 40 years or it has more than 200 days.
pub(crate) fn read_rule(
    alloc: Global,
    text: &str,
    start: LocalTime,
    from: UtcOffset,
) -> Result<PartRule, Fault>
    ensures says { IfOk result (SpellsRuleOf start from text.now) }
    ensures fault { IfErr result (RefusesBy (λ n. (n ≡ 40) × SpellsNoRuleOf start from text.now)) }
{
    // Only for the proof: the rule that is read is the one that the text spells.
    one_rule();
    let (first, _) = start.day_and_second();
    let rule = match RuleText::read(alloc, text) {
        Ok(rule) => rule.on_day_of(first)?,
        Err(fault) => return Err(shape_fault(fault)),
    };
    let end = rule_end(&rule, from).ok_or(Refusal::ZONE_SHAPE)?;
    if let Some(day) = year_day(&rule) {
        return Ok(PartRule::Yearly(EndingRule { day, end }));
    }
    let Some(days) = days_of(alloc, rule, first, last_day(end, start, from))? else {
        return Err(Fault::Refused(Refusal::ZONE_SHAPE));
    };
    Ok(PartRule::Listed(days))
}

/// What is wrong with a rule is a shape that isn't supported.
fn shape_fault(fault: Fault) -> Fault
    ensures { IsShapeFault fault result }
{
    match fault {
        Fault::Memory => Fault::Memory,
        Fault::Refused(_) => Fault::Refused(Refusal::ZONE_SHAPE),
    }
}

/// The one day of every year that a rule names, whether it ends or not. None where it names none or several.
fn year_day(rule: &RuleText) -> Option<YearDay>
    ensures found { IfSome result (λ day. is_one_day (without_end rule.now) (rule_named day.month day.days) ≡ true) }
    ensures none { IfNone result ((r : texts.YearRule) → is_one_day (without_end rule.now) r ≡ true → ⊥) }
{
    let rule = day_named(rule)?;
    Some(YearDay {
        month: rule.month(),
        days: rule.days(),
    })
}

/// Where COUNT or UNTIL ends a rule, in a part with this TZOFFSETFROM. None where a date does.
fn rule_end(rule: &RuleText, from: UtcOffset) -> Option<End>
    ensures found { IfSome result (λ end. IsEndOf from rule.now.count rule.now.until (end_of end)) }
    ensures range { IfSome result IsNearEnd }
    ensures none { IfNone result ((end : general.End) → IsEndOf from rule.now.count rule.now.until end → ⊥) }
{
    match (rule.count(), rule.until()) {
        (None, None) => Some(End::Never),
        (Some(count), None) => Some(End::After(count)),
        (None, Some(until)) => Some(End::At(last_instant(&until, from)?)),
        (Some(_), Some(_)) => None,
    }
}

/// The last instant that UNTIL allows: a local time is read with TZOFFSETFROM. None for a date.
fn last_instant(until: &Until, from: UtcOffset) -> Option<i64>
    ensures last { MatchOption result ((end : general.End) → IsEndOf from None (Some (until_of until.now)) end → ⊥)
        (λ last. IsEndOf from None (Some (until_of until.now)) (general.AtInstant last)) }
    ensures range { IfSome result IsNearInstant }
{
    match until {
        Until::Date(_) => None,
        Until::Local(local) => Some(local.seconds() - from.seconds() as i64),
        Until::Utc(stamp) => Some(stamp.instant()),
    }
}

/// Up to when the onsets of a rule come.
#[derive(Clone, Copy)]
enum Last {
    /// UNTIL doesn't end them.
    Never,
    /// None comes: the end is before DTSTART.
    Before,
    /// More than 40 years from DTSTART on.
    Far,
    /// Up to this day.
    On(Day),
}

/// The last day on which an end allows an onset at the time of day of DTSTART, read with TZOFFSETFROM.
fn last_day(end: End, start: LocalTime, from: UtcOffset) -> Last
    requires { IsNearEnd end }
    ensures { IsLastFrom start from (end_of end) result }
{
    match end {
        End::Never => Last::Never,
        End::After(_) => Last::Never,
        End::At(until) => last_until(until, start, from),
    }
}

/// The last such day where the end is an instant.
fn last_until(until: i64, start: LocalTime, from: UtcOffset) -> Last
    requires { IsNearInstant until }
    ensures { IsLastFrom start from (general.AtInstant until) result }
{
    let (first, _) = start.day_and_second();
    let begin = start.seconds();
    let end = until + from.seconds() as i64;
    if end < begin {
        return Last::Before;
    }
    let days = (end.abs_diff(begin) / DAY_SECONDS as u64) as u32;
    if days > MOST_SPAN {
        return Last::Far;
    }
    Last::On(Day::at_index(first.index() + days).unwrap())
}

/// The days of a rule from one on, up to the last. None where UNTIL doesn't end it within 40 years, and where there are more than 200.
fn days_of(
    alloc: Global,
    rule: RuleText,
    first: Day,
    last: Last,
) -> Result<Option<Vec<Day>>, AllocError>
    ensures { IfOk result (λ found. MatchOption found (AreNoDaysTo rule (day_index first) last)
        (λ days. AreDaysTo rule (day_index first) last (map day_index days.items))) }
{
    match last {
        Last::Never | Last::Far => Ok(None),
        Last::Before => Ok(Some(Vec::new(alloc))),
        Last::On(last) => listed_days(alloc, rule, first, last),
    }
}

/// The days of a rule from one to another. None where there are more than 200.
fn listed_days(
    alloc: Global,
    rule: RuleText,
    first: Day,
    last: Day,
) -> Result<Option<Vec<Day>>, AllocError>
    ensures { IfOk result (λ found. MatchOption found (AreMany rule (day_index first) (day_index last))
        (λ days. AreListedDays rule (day_index first) (day_index last) (map day_index days.items))) }
{
    let rule = Rule::from_day(rule, first, last);
    let mut days = Vec::new(alloc);
    for day in rule.days(first) {
        if days.len() == MOST_DAYS {
            return Ok(None);
        }
        days.push(day)?;
    }
    Ok(Some(days))
}
