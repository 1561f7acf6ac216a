//! A rule from a day on: its days, tested, jumped to and listed.

ghost use Rattle.std.specs.Prelude.{◌≡◌};
ghost use Rattle.cal_rules.specs.Cursors.{IsCursorOf};

use crate::cursor::Cursor;
use crate::facts::DayFacts;
use crate::listing::{find_end, is_counted, next_counted};
use crate::text::RuleText;
use cal_days::Day;
use ical_lines::{Fault, Refusal};
use std::alloc::AllocError;
use std::marker::Model;

/// A rule from the day of DTSTART on (RFC 5545 3.8.5.3). Its days go to 9999-12-31.
#[derive(Drop)]
pub struct Rule {
    text: RuleText,
    start: DayFacts,
    last: Day,
    /// The last day that COUNT allows.
    end: u32,
}

impl Model for Rule {
    ghost use Rattle.std.specs.Prelude.{◌≤◌};
    ghost use Rattle.profile.specs.series.Days.{day_index};
    ghost use Rattle.profile.specs.series.Rules.{Rule as SaidRule, rule_of};
    ghost use Rattle.cal_rules.specs.Known.{AreFacts};
    ghost use Rattle.cal_rules.specs.Counted.{RuleEndsAt};

    ghost Value = { SaidRule };

    ghost view = { λ r. rule_of r.text r.start.index (day_index r.last) };

    ghost invariant = { λ r. AreFacts r.start × RuleEndsAt (rule_of r.text r.start.index (day_index r.last)) r.end };
}

impl Clone for Rule {
    ghost is_clone = { λ rule copy. copy ≡ rule };

    fn clone(&self) -> Result<Rule, AllocError> {
        let text = self.text.clone()?;
        Ok(Rule {
            text,
            start: self.start,
            last: self.last,
            end: self.end,
        })
    }
}

impl Rule {
    ghost use Rattle.std.specs.Prelude.{◌≡◌, ◌≢◌, ◌⊎◌, ◌<◌, ◌≤◌, ◌+◌, ◌-◌, ◌++◌, true, false, None, Some, map, option_map, IfSome, MatchOption, IfOk, IfErr, OnOk, OnErr};
    ghost use Rattle.profile.specs.series.Days.{day_index};
    ghost use Rattle.profile.specs.series.Rules.{rule_of, text_in, is_rule_day, rule_days_from, NoDayFrom, IsNextDay};
    ghost use Rattle.profile.specs.series.Periods.{HasNoPeriod, IsPeriod, most_period};
    ghost use Rattle.profile.specs.series.RuleTexts as texts;
    ghost use Rattle.cal_rules.specs.Left.{days_left};
    ghost use Rattle.cal_rules.specs.LastDays.{NoDayTo, IsLastDayTo};
    ghost use Rattle.cal_rules.specs.Counted.{NoneIn, IsFirstIn};
    ghost use Rattle.cal_rules.specs.Cursors.{IsCursorOf};
    ghost use Rattle.ical_lines.specs.Fault.{RefusesBy};
    ghost use Rattle.ical_lines.specs.declared.fault.Fault.TheVariants.{Memory};

    /// The rule of that text, from the day of DTSTART to `last`, the last day that UNTIL allows. Refused
    /// where the start isn't a day of the rule (34).
    pub fn new(text: RuleText, start: Day, last: Day) -> Result<Rule, Fault>
        ensures made { IfOk result (λ rule. rule ≡ rule_of text (day_index start) (day_index last)) }
        ensures starts { IfOk result (λ _. is_rule_day (rule_of text (day_index start) (day_index last)) (day_index start) ≡ true) }
        ensures refuses { IfErr result (RefusesBy (λ n. (n ≡ 34)
            × (is_rule_day (rule_of text (day_index start) (day_index last)) (day_index start) ≡ false))) }
        ensures takes_none { IfErr result (λ e. e ≡ Memory → ⊥) }
    {
        let rule = Rule::from_day(text, start, last);
        if !rule.holds(start) {
            return Err(Fault::Refused(Refusal::START_OUTSIDE_RULE));
        }
        Ok(rule)
    }

    /// The rule of that text, from a day that needn't be one of its days.
    pub fn from_day(text: RuleText, start: Day, last: Day) -> Rule
        ensures { result ≡ rule_of text (day_index start) (day_index last) }
    {
        let begin = DayFacts::of(start);
        let end = find_end(text.written(), begin, last);
        Rule {
            text,
            start: begin,
            last,
            end,
        }
    }

    /// The days of the rule from that day on, ascending, to 9999-12-31.
    pub fn days(&self, from: Day) -> Days<'_>
        ensures { days_left result ≡ rule_days_from self.now (day_index from) }
    {
        Days::of(self, Cursor::at(DayFacts::of(from)))
    }

    /// Is this a day of the rule?
    pub fn holds(&self, day: Day) -> bool
        ensures { result ≡ is_rule_day self.now (day_index day) }
    {
        if day.index() > self.end {
            return false;
        }
        is_counted(self.text.written(), self.start, self.last, day)
    }

    /// The first day of the rule that isn't before that one.
    pub fn seek(&self, from: Day) -> Option<Day>
        ensures { MatchOption result (NoDayFrom self.now (day_index from))
            (λ day. IsNextDay self.now (day_index from) (day_index day)) }
    {
        let (day, _after) = self.next_day(Cursor::at(DayFacts::of(from)))?;
        Some(day)
    }

    /// The last day of the rule that isn't after that one; None where there is none. It is searched for by halves, from the first day of the
    /// rule on, in at most 23 jumps as by `seek`.
    pub fn last_not_after(&self, day: Day) -> Option<Day>
        ensures { MatchOption result (NoDayTo self.now (day_index day)) (λ last. IsLastDayTo self.now (day_index day) (day_index last)) }
    {
        let end = day.index() + 1;
        let Some(first) = self.seek_before(self.start.index, end) else {
            return None;
        };
        Day::at_index(self.last_before(first, end))
    }

    /// The last day of the rule before an end, by index, where this is one of the rule before it.
    fn last_before(&self, first: u32, end: u32) -> u32
        requires from_year_1 { 366 ≤ first }
        requires before { first < end }
        requires to_10001 { end ≤ 3_653_156 }
        requires holds { is_rule_day self.now first ≡ true }
        ensures last { IsLastDayTo self.now (end - 1) result }
        ensures not_before { first ≤ result }
    {
        let mut last = first;
        let mut none_from = end;
        while none_from - last > 1 {
            let middle = last + (none_from - last) / 2;
            match self.seek_before(middle, none_from) {
                Some(day) => last = day,
                None => none_from = middle,
            }
        }
        last
    }

    /// The first day of the rule from one on and before an end, by index.
    fn seek_before(&self, from: u32, end: u32) -> Option<u32>
        requires { (366 ≤ from) × (from ≤ 3_653_155) }
        ensures { MatchOption result (NoneIn (is_rule_day self.now) from end) (IsFirstIn (is_rule_day self.now) from end) }
    {
        let Some(day) = self.seek(Day::at_index(from).unwrap()) else {
            return None;
        };
        if day.index() >= end {
            return None;
        }
        Some(day.index())
    }

    /// After how many days the rule does the same again (RFC 5545 3.3.10): 1 where COUNT or UNTIL ends it, after whose last day there is nothing;
    /// None where they are more than 2,932,897.
    pub fn period_days(&self) -> Option<u64>
        ensures ended { (self.now.count ≢ None) ⊎ (self.now.until ≢ None) → result ≡ Some 1 }
        ensures endless { self.now.count ≡ None → self.now.until ≡ None → MatchOption result (HasNoPeriod self.now.pattern) (IsPeriod self.now.pattern) }
        ensures few { IfSome result (λ days. (0 < days) × (days ≤ most_period)) }
    {
        let written = self.text.written();
        if written.count.is_some() || written.until.is_some() {
            return Some(1);
        }
        written.period_days()
    }

    /// The first day of the rule from that cursor on, and the cursor after it.
    pub(crate) fn next_day(&self, from: Cursor) -> Option<(Day, Cursor)>
        requires { IsCursorOf self.now.pattern from }
        ensures { MatchOption result (NoDayFrom self.now from.day.index) (λ found. IsNextDay self.now from.day.index (day_index found.0)
            × (found.1.day.index ≡ day_index found.0 + 1) × IsCursorOf self.now.pattern found.1) }
    {
        let after = next_counted(self.text.written(), self.start, self.last, from)?;
        let found = after.day.index - 1;
        if found > self.end {
            return None;
        }
        Some((Day::at_index(found).unwrap(), after))
    }

    /// Its text, whose readers give each part.
    pub fn text(&self) -> &RuleText
        ensures { result.now ≡ text_in self.now }
    {
        &self.text
    }

    /// The day of DTSTART, which is the first day of the rule.
    pub fn start(&self) -> Day
        ensures { day_index result ≡ self.now.pattern.start }
    {
        self.start.day()
    }

    /// The last day that UNTIL allows.
    pub fn last(&self) -> Day
        ensures { day_index result ≡ self.now.last }
    {
        self.last
    }

    /// Appends the text of the rule in its one form (RFC 5545 3.3.10), as `RuleText::write` does: `until`, a UTC date-time or a date,
    /// takes the place of an UNTIL that the rule has. Where memory is refused, nothing is appended.
    pub fn write(&self, until: Option<&str>, out: &mut Vec<u8>) -> Result<(), AllocError>
        ensures ok { OnOk result (out.new.items ≡ out.old.items
            ++ texts.rule_text (text_in self.now) (option_map (λ text. text.now) until.entry)) }
        ensures err { OnErr result (out.new.items ≡ out.old.items) }
    {
        self.text.write(until, out)
    }
}

/// The days of a rule from a day on, ascending. It keeps where it is in its period: the next day, and with
/// BYSETPOS how many days of the period pass each part before it and from it on. So one period is looked
/// up and counted at a time, once.
#[derive(Drop)]
pub struct Days<'a> {
    rule: &'a Rule,
    cursor: Cursor,
    ghost is_cursor: { IsCursorOf rule.now.pattern cursor },
}

impl<'a> Days<'a> {
    ghost use Rattle.profile.specs.series.Rules.{rule_days_from};
    ghost use Rattle.cal_rules.specs.Left.{days_left};

    /// From that cursor on.
    pub(crate) fn of(rule: &'a Rule, cursor: Cursor) -> Days<'a>
        requires { IsCursorOf rule.now.pattern cursor }
        ensures { days_left result ≡ rule_days_from rule.now cursor.day.index }
    {
        Days { rule, cursor }
    }
}

impl<'a> Iterator for Days<'a> {
    ghost use Rattle.std.specs.Iterator.{YieldsFirstBy, item_count};
    ghost use Rattle.profile.specs.series.Days.{day_index};
    ghost use Rattle.cal_rules.specs.Left.{days_left};

    type Item = Day;

    ghost next_gives = { YieldsFirstBy day_index days_left };

    ghost remaining = { item_count days_left };

    fn next(&mut self) -> Option<Day> {
        let (day, after) = self.rule.next_day(self.cursor)?;
        self.cursor = after;
        Some(day)
    }
}
