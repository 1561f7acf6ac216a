//! The days of a master's rule that are still to be looked at (RFC 5545 3.8.5.3). The first of them may have been looked at before, and wait
//! until what comes before its start is given.

ghost use Rattle.std.specs.Prelude.{◌≡◌, ◌+◌, ℕ, ◌∷◌, Some, None, [], MatchOption};
ghost use Rattle.std.specs.Iterator.{YieldsFirstBy};
ghost use Rattle.profile.specs.series.Days.{day_index};
ghost use Rattle.profile.specs.series.Rules.{Rule as SaidRule, IsNextDay};
ghost use Rattle.cal_events.specs.RuleDays.{AreDaysOf, days_to_come, rest_to_come, AreStepped};

use cal_days::Day;
use cal_rules::{Days, Rule};

/// The days of a rule that are still to be looked at; none without a rule.
#[derive(Drop)]
pub(crate) struct RuleDays<'a> {
    /// The first of them, where it was taken out of the rest and put back.
    pub(crate) first: Option<Day>,
    /// The instant at which that day starts.
    pub(crate) start: i64,
    pub(crate) rest: Option<Days<'a>>,
    /// They are the days of the rule from the day of this number on.
    pub(crate) from: u32,
}

impl<'a> RuleDays<'a> {
    /// Those of a rule from a day on.
    pub(crate) fn of(rule: &'a Rule, from: Day) -> RuleDays<'a>
        ensures days { AreDaysOf rule.now result }
        ensures from { result.from ≡ day_index from }
        ensures first { result.first ≡ None }
    {
        RuleDays {
            first: None,
            start: 0,
            rest: Some(rule.days(from)),
            from: from.index(),
        }
    }

    /// None.
    pub(crate) fn none() -> RuleDays<'a>
        ensures { result.first ≡ None }
    {
        RuleDays {
            first: None,
            start: 0,
            rest: None,
            from: 0,
        }
    }

    /// Takes the first.
    pub(crate) fn next(&mut self) -> Option<Day>
        ensures { (rule : SaidRule) → AreDaysOf rule self.old → AreStepped rule self.old result self.new }
    {
        let day = self.take()?;
        self.from = day.index() + 1;
        Some(day)
    }

    /// Takes the first, where it isn't counted yet from which day on the others are.
    fn take(&mut self) -> Option<Day>
        ensures gives { YieldsFirstBy day_index days_to_come self.old result self.new }
        ensures first { self.new.first ≡ None }
        ensures from { self.new.from ≡ self.old.from }
    {
        if let Some(day) = self.first {
            self.first = None;
            return Some(day);
        }
        self.take_rest()
    }

    fn take_rest(&mut self) -> Option<Day>
        ensures gives { MatchOption result ((rest_to_come self.old.rest ≡ []) × (rest_to_come self.new.rest ≡ [])) (λ day. rest_to_come self.old.rest ≡ day_index day ∷ rest_to_come self.new.rest) }
        ensures first { self.new.first ≡ self.old.first }
        ensures from { self.new.from ≡ self.old.from }
    {
        match &mut self.rest {
            Some(days) => days.next(),
            None => None,
        }
    }

    /// Puts back the day that was taken last, which starts then.
    pub(crate) fn put_back(&mut self, day: Day, start: i64)
        requires { self.old.first ≡ None }
        ensures days { (rule : SaidRule) (from : ℕ) → AreDaysOf rule self.old → IsNextDay rule from (day_index day) → self.old.from ≡ day_index day + 1 → AreDaysOf rule self.new }
        ensures from { self.new.from ≡ day_index day }
        ensures first { self.new.first ≡ Some day }
        ensures start { self.new.start ≡ start }
    {
        self.first = Some(day);
        self.start = start;
        self.from = day.index();
    }

    /// Passes the day that was put back.
    pub(crate) fn pass(&mut self, day: Day)
        requires { self.old.first ≡ Some day }
        ensures days { (rule : SaidRule) → AreDaysOf rule self.old → self.old.from ≡ day_index day → AreDaysOf rule self.new }
        ensures from { self.new.from ≡ day_index day + 1 }
        ensures first { self.new.first ≡ None }
    {
        self.first = None;
        self.from = day.index() + 1;
    }
}
