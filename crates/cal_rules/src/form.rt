//! The form of a rule: its step and its weekdays. They allow more days than the rule has, and the same ones again for ever, so that a few days
//! stand for all (RFC 5545 3.3.10).

ghost use Rattle.std.specs.Prelude.{◌≡◌, ◌↔◌, ℕ, ◌+◌, ◌*◌, ◌<◌, ◌≤◌, ◌==◌, true, not, IfSome};
ghost use Rattle.std.specs.List.{list_any};
ghost use Rattle.profile.specs.series.Days.{weekday_of};
ghost use Rattle.profile.specs.series.Rules.{Pattern, Rule as SaidRule, allows, is_missing, is_rule_day, weekdays_meant};
ghost use Rattle.profile.specs.series.Periods.{IsLeastMultiple, IsMultiple};
ghost use Rattle.profile.specs.series.Residues.{IsLeastStrideOf, IsStride, is_in_form, is_on_weekday};
ghost use Rattle.cal_days.specs.Views.{frequency_of};
ghost use Rattle.cal_rules.specs.Views.{pattern_of, weekday_number_of};
ghost use Rattle.cal_rules.specs.Forms.{IsCovered, cycle_of, form_cycle, form_day, is_listed, listed_day, step_day, week_day};

use crate::period::common_multiple;
use crate::rule::Rule;
use crate::written::{WeekdayNumber, Written};
use cal_days::Frequency;

impl Rule {
    /// One of at most seven days, by its index, the days from 0000-01-01 to it, that stand for all that the form of the rule allows; None where the
    /// form doesn't allow it, or where the first stands for it.
    pub fn form_day(&self, number: u32) -> Option<u32>
        requires { number < 7 }
        ensures day { result ≡ listed_day self.now.pattern number }
        ensures range { IfSome result (λ day. day ≤ 3_723_148) }
    {
        let text = self.text();
        text.is_allowed();
        text.written().form_day(self.start().index(), number)
    }

    /// After how many days the form allows the same days; not always the least number of them.
    pub fn form_cycle(&self) -> u64
        ensures cycle { result ≡ form_cycle self.now.pattern }
        ensures range { (0 < result) × (result ≤ 69_993) }
    {
        let text = self.text();
        text.is_allowed();
        text.written().form_cycle()
    }

    /// The least number of days after which the form allows the same days.
    pub fn stride(&self) -> u64
        ensures least { IsLeastStrideOf self.now.pattern result }
        ensures few { result ≤ 69_993 }
    {
        let text = self.text();
        text.is_allowed();
        text.written().stride()
    }
}

impl Written {
    /// The day of that number, where it stands for others, from the day of DTSTART on.
    fn form_day(&self, start: u32, number: u32) -> Option<u32>
        requires interval { (1 ≤ self.now.interval) × (self.now.interval ≤ 9_999) }
        requires week { self.now.week_start < 7 }
        requires start { start ≤ 3_653_155 }
        requires number { number < 7 }
        ensures day { result ≡ listed_day (pattern_of self.now start) number }
        ensures range { IfSome result (λ day. day ≤ 3_723_148) }
    {
        if number > 0 && !self.means_weekday() {
            return None;
        }
        let day = self.step_day(start, number);
        if !self.is_on_weekday(start, day) {
            return None;
        }
        Some(day)
    }

    /// The day of that number, which is in step.
    fn step_day(&self, start: u32, number: u32) -> u32
        requires interval { (1 ≤ self.now.interval) × (self.now.interval ≤ 9_999) }
        requires week { self.now.week_start < 7 }
        requires start { start ≤ 3_653_155 }
        requires number { number < 7 }
        ensures day { result ≡ form_day (pattern_of self.now start) number }
        ensures range { result ≤ 3_723_148 }
    {
        let interval = self.interval as u32;
        match self.frequency {
            Frequency::Daily => start + interval * number,
            Frequency::Weekly => week_day(interval, self.week_start as u32, start, number),
            Frequency::Monthly | Frequency::Yearly => start + number,
        }
    }

    /// Are weekdays meant, written or implied?
    fn means_weekday(&self) -> bool
        ensures { (start : ℕ) → result ≡ not (is_missing (weekdays_meant (pattern_of self.now start))) }
    {
        self.frequency == Frequency::Weekly || !self.weekdays.is_empty()
    }

    /// Is the weekday of a day meant, or none?
    fn is_on_weekday(&self, start: u32, day: u32) -> bool
        requires start { start ≤ 3_653_155 }
        requires day { day ≤ 3_723_148 }
        ensures { result ≡ is_on_weekday (pattern_of self.now start) day }
    {
        if self.implies_weekday() {
            return weekday(start) == weekday(day);
        }
        allows_day(&self.weekdays, weekday(day))
    }

    /// After how many days the form allows the same days.
    fn form_cycle(&self) -> u64
        requires interval { (1 ≤ self.now.interval) × (self.now.interval ≤ 9_999) }
        ensures cycle { (start : ℕ) → result ≡ form_cycle (pattern_of self.now start) }
        ensures range { (0 < result) × (result ≤ 69_993) }
    {
        let interval = u64::from(self.interval);
        let weeks = if self.weekdays.is_empty() { 1 } else { 7 };
        match self.frequency {
            Frequency::Daily => weeks * interval,
            Frequency::Weekly => 7 * interval,
            Frequency::Monthly | Frequency::Yearly => weeks,
        }
    }

    /// The least number of days after which the form allows the same days.
    fn stride(&self) -> u64
        requires interval { (1 ≤ self.now.interval) × (self.now.interval ≤ 9_999) }
        ensures least { (start : ℕ) → IsLeastStrideOf (pattern_of self.now start) result }
        ensures few { result ≤ 69_993 }
    {
        let interval = u64::from(self.interval);
        let weeks = if self.weekdays.is_empty() { 1 } else { 7 };
        match self.frequency {
            Frequency::Daily => least_multiple(interval, weeks),
            Frequency::Weekly => 7 * interval,
            Frequency::Monthly | Frequency::Yearly => weeks,
        }
    }
}

/// That many days after a day; after the week of that, in the next one that is in step.
fn week_day(interval: u32, week_start: u32, start: u32, number: u32) -> u32
    requires interval { (1 ≤ interval) × (interval ≤ 9_999) }
    requires week { week_start < 7 }
    requires start { start ≤ 3_653_155 }
    requires number { number < 7 }
    ensures day { result ≡ week_day interval week_start start number }
    ensures range { result ≤ 3_723_148 }
{
    let passed = (start + 12 - week_start) % 7;
    if passed + number < 7 {
        return start + number;
    }
    start + number + 7 * (interval - 1)
}

/// The weekday of the day of an index, from 0 for Monday to 6 for Sunday.
#[tactic(auto, unfolding(profile::specs::series::Days::weekday_of))]
fn weekday(day: u32) -> u32
    requires { day ≤ 3_723_148 }
    ensures { result ≡ weekday_of day }
{
    (day + 5) % 7
}

/// Does one of the entries of BYDAY name that weekday?
fn any_day(entries: &[WeekdayNumber], weekday: u32) -> bool
    ensures { result ≡ list_any (λ entry. (weekday_number_of entry).weekday == weekday) entries.now }
{
    entries.iter().any(|entry| entry.weekday as u32 == weekday)
}

/// Does one of the entries name it, or is there none?
fn allows_day(entries: &[WeekdayNumber], weekday: u32) -> bool
    ensures { result ≡ allows (λ entry. (weekday_number_of entry).weekday == weekday) entries.now }
{
    entries.is_empty() || any_day(entries, weekday)
}

/// The least common multiple of an interval and of a day, or of a week.
fn least_multiple(interval: u64, days: u64) -> u64
    requires interval { (1 ≤ interval) × (interval ≤ 9_999) }
    requires days { (1 ≤ days) × (days ≤ 7) }
    ensures least { IsLeastMultiple interval days result }
    ensures few { result ≤ 69_993 }
{
    common_multiple(interval, days).unwrap()
}

/// What the form of a rule allows, for ever. It is a law, with nothing to do. Required is what a text that is taken has.
pub fn form_days_repeat()
    ensures rule_days { (r : SaidRule) (n : ℕ) → is_rule_day r n ≡ true → is_in_form r.pattern n ≡ true }
    ensures shifts { (p : Pattern) (days n : ℕ) → IsStride p days → 1 ≤ p.interval → p.week_start < 7 → is_in_form p (n + days) ≡ is_in_form p n }
    ensures cycle { (p : Pattern) → IsStride p (form_cycle p) }
    ensures listed { (p : Pattern) (i : ℕ) → is_listed p i ≡ true → is_in_form p (form_day p i) ≡ true }
    ensures cover { (p : Pattern) (n : ℕ) → 1 ≤ p.interval → p.week_start < 7 → is_in_form p n ≡ true → IsCovered p n }
    ensures strides { (p : Pattern) (days n : ℕ) → IsLeastStrideOf p days → (IsStride p n ↔ IsMultiple n days) }
{}
