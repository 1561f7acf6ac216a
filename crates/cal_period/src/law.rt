//! What a series does again after each of its periods, and that these are the multiples of the least one: laws, with nothing to do.
ghost use Rattle.std.specs.Prelude.{◌↔◌, ◌≢◌, ℕ, ◌*◌, ◌<◌, List, ◌++◌, Contains, ℤ, pos, true, false};
ghost use Rattle.profile.specs.checker.Instances.{Instance, AreClear, IsWithin};
ghost use Rattle.profile.specs.events.Events.{Event};
ghost use Rattle.profile.specs.events.Spans.{AreSaidSeries, IsSaidSeries, SpanHolds, IsPastAll, IsPeriodOf, IsLeastPeriodOf};
ghost use Rattle.profile.specs.series.Periods.{IsMultiple};
ghost use Rattle.profile.specs.series.Repeating.{IsCongruent, RepeatsFrom};
ghost use Rattle.profile.specs.events.Starts.{IsInstance};
ghost use Rattle.profile.specs.events.Residues.{IsResidue, ResiduesHold};
ghost use Rattle.cal_period.specs.Members.{Lasts, ComesAgainFrom};

use cal_events::instances_last;
use cal_rules::rule_days_repeat;
use cal_zones::zones_repeat;

/// A series that a VEVENT says does the same again after each of its periods, from an instant on that is past all that it does once: each instance was
/// there a period before, as long, and is there a period later, where its day isn't past 9999-12-31 and its start is before the horizon.
pub fn series_repeat()
    ensures earlier { (a : Event) (from : ℤ) (days : ℕ) → IsSaidSeries a → IsPastAll a from → IsPeriodOf a days → RepeatsFrom (Lasts a) from (pos (86_400 * days)) }
    ensures later { (a : Event) (from : ℤ) (days : ℕ) → IsSaidSeries a → IsPastAll a from → IsPeriodOf a days → ComesAgainFrom a from (pos (86_400 * days)) }
{
    rule_days_repeat();
    zones_repeat();
}

/// The periods of a series are the multiples of the least one.
pub fn periods_are_multiples()
    ensures { (a : Event) (days n : ℕ) → IsLeastPeriodOf a days → IsPeriodOf a n ↔ IsMultiple n days }
{}

/// Each instance of a series that a VEVENT says starts at one of its residues, modulo any number of seconds. Where residues hold of two series no two of
/// their instances share an instant, and where they hold of one no two of its own, at whatever time.
pub fn residues_settle()
    ensures start { (a : Event) (m : ℕ) (x : Instance) → IsSaidSeries a → 0 < m → IsInstance a x → (r : ℕ) × IsResidue a m r × IsCongruent m x.start (pos r) }
    ensures two { (a b : Event) (m : ℕ) (x y : Instance) (t : ℤ) → IsSaidSeries a → IsSaidSeries b → ResiduesHold false a b m → IsInstance a x → IsInstance b y
        → IsWithin x.start x.end t → IsWithin y.start y.end t → ⊥ }
    ensures one { (a b : Event) (m : ℕ) (x y : Instance) (t : ℤ) → IsSaidSeries a → ResiduesHold true a b m → IsInstance a x → IsInstance a y → x.start ≢ y.start
        → IsWithin x.start x.end t → IsWithin y.start y.end t → ⊥ }
{
    instances_last();
}

/// Where a span holds of series with others, none of the instances of these ever clashes with one of those: they do in each period after the first
/// what they did in that. SPAN is the case of one series with one, a group the case of all its series with all of them.
pub fn spans_settle()
    ensures { (these those : List Event) (from : ℤ) (days : ℕ) → AreSaidSeries (these ++ those) → SpanHolds these those from days
        → (a b : Event) → Contains these a → Contains those b → AreClear (IsInstance a) (IsInstance b) }
{
    instances_last();
    zones_repeat();
    series_repeat();
}
