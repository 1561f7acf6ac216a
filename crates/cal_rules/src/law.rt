//! After how many days a rule does the same again: laws, with nothing to do.

ghost use Rattle.std.specs.Prelude.{◌≡◌, ◌↔◌, ℕ, ◌+◌, ◌≤◌, ◌<◌, false, true, None};
ghost use Rattle.std.specs.List.{list_all};
ghost use Rattle.profile.specs.series.Rules.{Pattern, Rule, is_base, is_long, is_plain, is_rule_day, last_rule_day};
ghost use Rattle.profile.specs.series.Periods.{IsMultiple, IsShift, IsPeriod};

/// A shift keeps the days that a rule has apart from set positions, COUNT and UNTIL (RFC 5545 3.3.10). Required is what a text that is taken has:
/// WKST names a weekday, and BYDAY has numbers only in MONTHLY and YEARLY.
pub fn base_days_repeat()
    ensures { (p : Pattern) (days n : ℕ) → IsShift p days → p.week_start < 7
        → (is_long p.frequency ≡ false → list_all (λ entry. is_plain entry.number) p.weekdays ≡ true)
        → is_base p (n + days) ≡ is_base p n }
{}

/// A shift keeps the days of a rule without COUNT: of each rule day there was one so many days before, where DTSTART isn't later; and there
/// is one so many days after, where UNTIL and 9999-12-31 aren't earlier. Not so in year 1: a week that begins before 0001-01-01 isn't whole there.
pub fn rule_days_repeat()
    ensures down { (r : Rule) (days n : ℕ) → IsShift r.pattern days → r.pattern.week_start < 7
        → (is_long r.pattern.frequency ≡ false → list_all (λ entry. is_plain entry.number) r.pattern.weekdays ≡ true)
        → r.count ≡ None → 731 ≤ n → r.pattern.start ≤ n → is_rule_day r (n + days) ≡ true → is_rule_day r n ≡ true }
    ensures up { (r : Rule) (days n : ℕ) → IsShift r.pattern days → r.pattern.week_start < 7
        → (is_long r.pattern.frequency ≡ false → list_all (λ entry. is_plain entry.number) r.pattern.weekdays ≡ true)
        → r.count ≡ None → 731 ≤ n → n + days ≤ r.last → n + days ≤ last_rule_day → is_rule_day r n ≡ true → is_rule_day r (n + days) ≡ true }
{}

/// The shifts of a rule are the multiples of its period.
pub fn shifts_are_multiples()
    ensures { (p : Pattern) (days n : ℕ) → IsPeriod p days → IsShift p n ↔ IsMultiple n days }
{}
