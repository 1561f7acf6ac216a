//! The text of a rule (RFC 5545 3.3.10), read and written.

ghost use Rattle.std.specs.Prelude.{◌≡◌, ◌≤◌, ℕ, List, map, option_map, IfOk, IfErr, ◌++◌, OnOk, OnErr};
ghost use Rattle.ical_lines.specs.Fault.{RefusesBy};
ghost use Rattle.profile.specs.series.Days.{day_index};
ghost use Rattle.profile.specs.series.Rules.{on_day_of_start};
ghost use Rattle.profile.specs.series.RuleTexts.{SpellsRule, RuleFault, IsLeastRuleFault};
ghost use Rattle.cal_days.specs.Views.{frequency_of};
ghost use Rattle.cal_rules.specs.Views.{weekday_number_of, until_of, rule_text_said};
ghost use Rattle.profile.specs.series.Rules as rules;
ghost use Rattle.profile.specs.series.RuleTexts as texts;

use crate::parts::Parts;
use crate::write::rule_text;
use crate::written::{Until, WeekdayNumber, Written};
use cal_days::{Day, Frequency};
use ical_lines::Fault;
use std::alloc::{AllocError, Global};
use std::marker::Model;

/// The text of a rule, as it was read.
#[derive(Drop)]
pub struct RuleText {
    pub(crate) written: Written,
}

impl Model for RuleText {
    ghost use Rattle.profile.specs.series.Rules as rules;
    ghost use Rattle.cal_rules.specs.Views.{rule_text_said};

    ghost Value = { rules.RuleText };

    ghost view = { λ t. rule_text_said t.written };

    ghost invariant = { λ t. rules.IsAllowed (rule_text_said t.written) };
}

impl Clone for RuleText {
    ghost is_clone = { λ text copy. copy ≡ text };

    fn clone(&self) -> Result<RuleText, AllocError> {
        let written = self.written.clone()?;
        Ok(RuleText { written })
    }
}

impl RuleText {
    /// Reads the text of an RRULE. Refused are, the least number that applies: a part that is unknown or
    /// not supported (30), a value that is bad or out of range (31), parts that don't go together, a part
    /// twice or no FREQ (32), COUNT beside UNTIL (33).
    pub fn read(alloc: Global, text: &str) -> Result<RuleText, Fault>
        ensures reads { IfOk result (λ rule. SpellsRule text.now rule) }
        ensures refuses { IfErr result (RefusesBy (IsLeastRuleFault text.now)) }
    {
        let mut parts = Parts::new();
        for part in text.split(';') {
            parts.take(alloc, part)?;
        }
        let written = parts.finish(alloc)?;
        Ok(RuleText { written })
    }

    /// What is written.
    pub(crate) fn written(&self) -> &Written
        ensures is { rule_text_said result.now ≡ self.now }
        ensures interval { 1 ≤ result.now.interval }
    {
        &self.written
    }

    /// The rule with the month day of DTSTART, where it is a YEARLY one with BYMONTH that names no day (RFC 5545 3.3.10).
    pub fn on_day_of(self, start: Day) -> Result<RuleText, AllocError>
        ensures { IfOk result (λ rule. rule ≡ on_day_of_start (day_index start) self) }
    {
        if !self.written.leaves_day_to_start() {
            return Ok(self);
        }
        let day = start.month_days_before() + 1;
        let mut written = self.written;
        written.month_days.push(day as i16)?;
        Ok(RuleText { written })
    }

    /// Its parts are in their ranges and go together. Only for the proof: there is nothing to do.
    pub fn is_allowed(&self)
        ensures { rules.IsAllowed self.now }
    {
        let _ = &self.written;
    }

    /// FREQ.
    pub fn frequency(&self) -> Frequency
        ensures { frequency_of result ≡ self.now.frequency }
    {
        self.written.frequency
    }

    /// INTERVAL, 1 where it isn't written.
    pub fn interval(&self) -> u16
        ensures { result ≡ self.now.interval }
    {
        self.written.interval
    }

    /// WKST, 0 for Monday, which is the default.
    pub fn week_start(&self) -> u8
        ensures { result ≡ self.now.week_start }
    {
        self.written.week_start
    }

    /// The entries of BYMONTH, none where it isn't written.
    pub fn months(&self) -> &[u8]
        ensures { result.now ≡ self.now.months }
    {
        &self.written.months
    }

    /// The entries of BYMONTHDAY, none where it isn't written.
    pub fn month_days(&self) -> &[i16]
        ensures { result.now ≡ self.now.month_days }
    {
        &self.written.month_days
    }

    /// The entries of BYDAY, none where it isn't written.
    pub fn weekdays(&self) -> &[WeekdayNumber]
        ensures { map weekday_number_of result.now ≡ self.now.weekdays }
    {
        &self.written.weekdays
    }

    /// The entries of BYSETPOS, none where it isn't written.
    pub fn positions(&self) -> &[i16]
        ensures { result.now ≡ self.now.positions }
    {
        &self.written.positions
    }

    /// COUNT.
    pub fn count(&self) -> Option<u32>
        ensures { result ≡ self.now.count }
    {
        self.written.count
    }

    /// UNTIL.
    pub fn until(&self) -> Option<Until>
        ensures { option_map until_of result ≡ self.now.until }
    {
        self.written.until
    }

    /// Appends FREQ, COUNT or UNTIL, INTERVAL unless 1, BYMONTH, BYMONTHDAY, BYDAY, BYSETPOS, WKST unless
    /// MO; lists ascend, with each entry once, and BYDAY is sorted by its numbers, then from Monday on.
    /// `until`, a UTC date-time or a date, takes the place of an UNTIL that the rule has. Where memory is refused,
    /// nothing is appended.
    pub fn write(&self, until: Option<&str>, out: &mut Vec<u8>) -> Result<(), AllocError>
        ensures ok { OnOk result
            (out.new.items ≡ out.old.items ++ texts.rule_text self.now (option_map (λ text. text.now) until.entry)) }
        ensures err { OnErr result (out.new.items ≡ out.old.items) }
    {
        let text = rule_text(*out.allocator(), &self.written, until)?;
        out.extend_from_slice(text.as_str().as_bytes())
    }
}

/// A text spells at most one rule, and none where it has a fault. With the contract of `RuleText::read`: what
/// is taken is the one rule that the text spells, and what is refused spells none.
pub fn one_rule()
    ensures reading { (text : List ℕ) (a b : rules.RuleText) → SpellsRule text a → SpellsRule text b → a ≡ b }
    ensures none { (text : List ℕ) (number : ℕ) (a : rules.RuleText) → RuleFault text number → SpellsRule text a → ⊥ }
{}
