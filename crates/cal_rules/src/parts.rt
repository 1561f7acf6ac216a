//! The parts of a rule's text, taken one after another (RFC 5545 3.3.10). An unknown part ends the reading at once: no
//! fault is less. Of the other faults the least so far is kept, since a later part may have a lesser one.

ghost use Rattle.std.specs.Prelude.{◌≡◌, ℕ, List, [], ◌∷◌, ◌++◌, None, Some, IfOk, IfErr, OnOk, MatchOption};
ghost use Rattle.ical_lines.specs.Fault.{RefusesBy};
ghost use Rattle.profile.specs.series.RuleTexts.{rule_parts, IsKnownPart, SaysParts, SpellsRule, IsLeastRuleFault};
ghost use Rattle.cal_rules.specs.Views.{rule_text_said};
ghost use Rattle.cal_rules.specs.Taken.{SayParts, ArePartsTaken, Enters, IsFaultOf, Puts, PutsRead};

use crate::values::{
    read_count, read_entries, read_frequency, read_interval, read_months, read_places, read_until,
    read_weekday,
};
use crate::written::{Until, WeekdayNumber, Written};
use cal_days::Frequency;
use ical_lines::{Fault, Refusal};
use std::alloc::{AllocError, Global};

/// What the parts say that were taken so far: each field the one value of its part.
#[derive(Drop)]
pub(crate) struct Parts {
    frequency: Option<Frequency>,
    interval: Option<u16>,
    count: Option<u32>,
    until: Option<Until>,
    week_start: Option<u8>,
    months: Option<Vec<u8>>,
    month_days: Option<Vec<i16>>,
    weekdays: Option<Vec<WeekdayNumber>>,
    positions: Option<Vec<i16>>,
    /// The least fault so far: a bad value, or else a part that occurs twice.
    fault: Option<Refusal>,
}

impl Parts {
    /// No part was taken yet.
    pub fn new() -> Parts
        ensures { ArePartsTaken [] result }
    {
        Parts {
            frequency: None,
            interval: None,
            count: None,
            until: None,
            week_start: None,
            months: None,
            month_days: None,
            weekdays: None,
            positions: None,
            fault: None,
        }
    }

    /// Takes the next part. Refused at once: an unknown part (30).
    pub fn take(&mut self, alloc: Global, part: &str) -> Result<(), Fault>
        ensures takes { OnOk result
            ((parts : List (List ℕ)) → ArePartsTaken parts self.old → ArePartsTaken (parts ++ part.now ∷ []) self.new) }
        ensures refuses { IfErr result (RefusesBy (λ n. (n ≡ 30) × (IsKnownPart part.now → ⊥))) }
    {
        let Some(fault) = self.enter(alloc, part)? else {
            return Ok(());
        };
        match self.fault {
            Some(kept) if kept.number <= fault.number => {}
            _ => self.fault = Some(fault),
        }
        Ok(())
    }

    /// Enters what the part says. Gives its fault: a bad value (31), or a part that occurred before (32). Refused: an
    /// unknown part (30).
    fn enter(&mut self, alloc: Global, part: &str) -> Result<Option<Refusal>, Fault>
        ensures enters { IfOk result
            (λ fault. MatchOption fault (Enters part.now self.old self.new) (λ f. IsFaultOf part.now self.old f.number)) }
        ensures keeps { OnOk result (self.new.fault ≡ self.old.fault) }
        ensures refuses { IfErr result (RefusesBy (λ n. (n ≡ 30) × (IsKnownPart part.now → ⊥))) }
    {
        let Some((name, value)) = part.split_once('=') else {
            return Err(Fault::Refused(Refusal::UNKNOWN_RULE_PART));
        };
        match name {
            "FREQ" => {
                let Some(frequency) = read_frequency(value) else {
                    return Err(Fault::Refused(Refusal::UNKNOWN_RULE_PART));
                };
                Ok(put(&mut self.frequency, Some(frequency)))
            }
            "INTERVAL" => Ok(put(&mut self.interval, read_interval(value))),
            "COUNT" => Ok(put(&mut self.count, read_count(value))),
            "UNTIL" => Ok(put(&mut self.until, read_until(value))),
            "WKST" => Ok(put(&mut self.week_start, read_weekday(value))),
            "BYMONTH" => put_list(&mut self.months, read_months(alloc, value)),
            "BYMONTHDAY" => put_list(&mut self.month_days, read_places(alloc, 31, value)),
            "BYDAY" => put_list(&mut self.weekdays, read_entries(alloc, value)),
            "BYSETPOS" => put_list(&mut self.positions, read_places(alloc, 366, value)),
            _ => Err(Fault::Refused(Refusal::UNKNOWN_RULE_PART)),
        }
    }

    /// The rule that the parts say. Refused, the least fault: the one that was kept (31, 32), no FREQ or parts that
    /// don't go together (32), COUNT beside UNTIL (33).
    pub fn finish(self, alloc: Global) -> Result<Written, Refusal>
        ensures says { IfOk result
            (λ written. (text : List ℕ) → ArePartsTaken (rule_parts text) self → SpellsRule text (rule_text_said written)) }
        ensures refuses { IfErr result
            (λ e. (text : List ℕ) → ArePartsTaken (rule_parts text) self → IsLeastRuleFault text e.number) }
    {
        if let Some(fault) = self.fault {
            return Err(fault);
        }
        let frequency = self.frequency.ok_or(Refusal::BAD_RULE_PARTS)?;
        let written = self.written(alloc, frequency);
        if !written.go_together() {
            return Err(Refusal::BAD_RULE_PARTS);
        }
        if !written.has_one_end() {
            return Err(Refusal::TWO_RULE_ENDS);
        }
        Ok(written)
    }

    /// The rule of that frequency: a part that is missing means its default.
    fn written(self, alloc: Global, frequency: Frequency) -> Written
        ensures { (text : List ℕ) → SayParts (rule_parts text) self → self.frequency ≡ Some frequency
            → SaysParts text (rule_text_said result) }
    {
        Written {
            frequency,
            interval: self.interval.unwrap_or(1),
            week_start: self.week_start.unwrap_or(0),
            months: self.months.unwrap_or(Vec::new(alloc)),
            month_days: self.month_days.unwrap_or(Vec::new(alloc)),
            weekdays: self.weekdays.unwrap_or(Vec::new(alloc)),
            positions: self.positions.unwrap_or(Vec::new(alloc)),
            count: self.count,
            until: self.until,
        }
    }
}

/// Puts what a value says into the field of its part. Gives the fault: a value that says nothing (31), or else a field
/// that was filled before (32).
fn put<T: Drop>(field: &mut Option<T>, said: Option<T>) -> Option<Refusal>
    ensures { Puts said field.old field.new result }
{
    if said.is_none() {
        return Some(Refusal::BAD_RULE_VALUE);
    }
    if field.is_some() {
        return Some(Refusal::BAD_RULE_PARTS);
    }
    *field = said;
    None
}

/// Fills a field with a list, for which there may be no memory.
fn put_list<T: Drop>(
    field: &mut Option<T>,
    said: Result<Option<T>, AllocError>,
) -> Result<Option<Refusal>, Fault>
    ensures puts { IfOk result (PutsRead said field.old field.new) }
    ensures memory { IfErr result (RefusesBy (λ _. ⊥)) }
{
    Ok(put(field, said?))
}
