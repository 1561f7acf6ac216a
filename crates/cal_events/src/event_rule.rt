//! The rule of a VEVENT (RFC 5545 3.3.10, 3.8.5.3): first the text of its RRULE, then the rule that it gives from the event's start on.

ghost use Rattle.std.specs.Prelude.{◌≡◌, ◌<◌, ℕ, List, IfOk, IfErr, MatchOption, Some, option_map, is_some, true, Bool, codes};
ghost use Rattle.std.specs.List.{list_any};
ghost use Rattle.ical_lines.specs.Fault.{RefusesBy, RefusesWhere};
ghost use Rattle.ical_tree.specs.Own.{own_lines, numbered_own};
ghost use Rattle.cal_rules.specs.Views.{until_of};
ghost use Rattle.cal_zones.specs.Kinds.{zone_of};
ghost use Rattle.profile.specs.series.Days.{day_index};
ghost use Rattle.profile.specs.text.Trees.{Tree};
ghost use Rattle.profile.specs.events.Properties.{is_of};
ghost use Rattle.profile.specs.events.ZonedTimes.{SaysTimes, clock_of};
ghost use Rattle.profile.specs.events.EventRules as event_rules;
ghost use Rattle.profile.specs.events.EventRules.{IsLastAllowed, AllowsNone, GivesRule, SaysEventRule, IsOutsideRule, EventRuleFault};
ghost use Rattle.profile.specs.events.EventComponents.{RRULE, EventComponentFault};
ghost use Rattle.profile.specs.events.EventBlame.{EventBlame};
ghost use Rattle.profile.specs.series.ZoneBlame.{NumberedZone};
ghost use Rattle.cal_events.specs.Occurrences.{IsLineNamed};
ghost use Rattle.cal_events.specs.Component.{method_read, times_of, zone_said, local_said};
ghost use Rattle.cal_events.specs.Zoned.{IsRuleSaid};

use crate::event_times::{EventTimes, FIRST_SECOND};
use crate::instance::HORIZON;
use crate::method::Method;
use crate::properties::line_of;
use crate::property::Property;
use crate::when::When;
use cal_days::Day;
use cal_rules::{Rule, RuleText, Until};
use cal_zones::Zone;
use ical_lines::{Fault, Refusal};
use ical_tree::Properties;
use std::alloc::Global;

/// What RRULE says by itself.
#[derive(Drop)]
pub(crate) struct SaidRule {
    /// None where there is no RRULE.
    text: Option<RuleText>,
    /// The number of its line; 0 where there is none.
    line: usize,
}

impl SaidRule {
    /// Reads the RRULE of a VEVENT.
    /// Refused: 61 where it occurs twice, and 30 to 33 as by `RuleText::read`.
    pub(crate) fn read(
        alloc: Global,
        properties: &Properties<'_>,
        method: Option<Method>,
    ) -> Result<SaidRule, Fault>
        ensures said { IfOk result (IsRuleSaid (own_lines properties.now)) }
        ensures fault { (object : Tree) → IfErr result (RefusesBy (EventComponentFault object (method_read method) (own_lines properties.now))) }
        ensures line { IfOk result (λ said. is_some said.text ≡ true → IsLineNamed RRULE (numbered_own properties.now) said.line) }
        ensures at { (zones : List NumberedZone) → IfErr result (RefusesWhere (EventBlame (method_read method) zones (numbered_own properties.now))) }
    {
        let Some(line) = line_of(properties, Property::Rrule, method)? else {
            return Ok(SaidRule {
                text: None,
                line: 0,
            });
        };
        let text = line.placed_fault(RuleText::read(alloc, line.value()))?;
        Ok(SaidRule {
            text: Some(text),
            line: line.number(),
        })
    }

    /// The rule of an event with these times, with DTSTART or without. None where RRULE is missing, and where DTSTART is, as it may be in what
    /// is cancelled: then there is no day to begin from.
    /// Refused: 34 where DTSTART isn't one of the rule's days, or UNTIL leaves no day.
    pub(crate) fn judge(self, times: &EventTimes, has_start: bool) -> Result<Option<Rule>, Fault>
        ensures says { (lines : List (List ℕ)) → IsRuleSaid lines self → has_start ≡ list_any (is_of (codes "DTSTART")) lines
            → IfOk result (SaysEventRule lines (times_of times.now)) }
        ensures fault { (may_lack : Bool) (object : Tree) (lines : List (List ℕ)) → IsRuleSaid lines self → has_start ≡ list_any (is_of (codes "DTSTART")) lines
            → SaysTimes may_lack object lines (times_of times.now) → IfErr result (RefusesBy (EventRuleFault object lines)) }
        ensures at { IfErr result (RefusesWhere (λ n at. (n ≡ 34) × (is_some self.text ≡ true) × (at ≡ self.line))) }
    {
        let SaidRule { text, line } = self;
        match text {
            Some(_) if !has_start => Ok(None),
            Some(text) => match rule_from(text, times.start) {
                Ok(rule) => Ok(Some(rule)),
                Err(fault) => Err(fault.at(line)),
            },
            None => Ok(None),
        }
    }
}

/// The rule that a text gives to an event that starts then.
/// Refused: 34 where the start isn't one of the rule's days, or UNTIL leaves no day.
fn rule_from(text: RuleText, start: When) -> Result<Rule, Fault>
    ensures gives { IfOk result (GivesRule (clock_of (zone_said start)) (local_said start) text) }
    ensures outside { IfErr result (RefusesBy (λ n. (n ≡ 34) × IsOutsideRule (clock_of (zone_said start)) (local_said start) text)) }
{
    let (day, second) = start.local().day_and_second();
    match last_day(text.until(), start.clock(), second) {
        Some(last) => Rule::new(text, day, last),
        None => Err(Fault::Refused(Refusal::START_OUTSIDE_RULE)),
    }
}

/// The last day that UNTIL allows, where starts are at that second of their days on those clocks; None where it allows none from
/// 0001-01-01 on.
fn last_day(until: Option<Until>, clock: Zone, second: u32) -> Option<Day>
    requires { second < 86_400 }
    ensures { MatchOption result (AllowsNone (zone_of clock) second (option_map until_of until))
        (λ day. IsLastAllowed (zone_of clock) second (option_map until_of until) (day_index day)) }
{
    match until {
        Some(until) => day_until(&until, clock, second),
        None => Day::of(9999, 12, 31),
    }
}

/// The last day that an UNTIL allows. A date is that day itself, a local time is read on those clocks.
fn day_until(until: &Until, clock: Zone, second: u32) -> Option<Day>
    requires { second < 86_400 }
    ensures { MatchOption result (AllowsNone (zone_of clock) second (Some (until_of until.now)))
        (λ day. IsLastAllowed (zone_of clock) second (Some (until_of until.now)) (day_index day)) }
{
    match until {
        Until::Date(day) => Some(*day),
        Until::Local(local) => clock.last_day(second, as_end(clock.resolve(*local))),
        Until::Utc(stamp) => clock.last_day(second, as_end(stamp.instant())),
    }
}

/// The instant up to which an UNTIL that says this one allows starts: none is before the first second that an event may name, or past the
/// last before year 10000.
pub fn as_end(instant: i64) -> i64
    ensures { result ≡ event_rules.as_end instant }
{
    if instant < FIRST_SECOND {
        FIRST_SECOND - 1
    } else if instant < HORIZON {
        instant
    } else {
        HORIZON - 1
    }
}
