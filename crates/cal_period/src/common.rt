//! What series have in common: after how many days all of them do the same again, and from which instant on.
ghost use Rattle.std.specs.Prelude.{◌^◌, ◌≤◌, pos, ◌≤ℤ◌, ◌<ℤ◌};
ghost use Rattle.profile.specs.series.Periods.{most_period};

use crate::span::{CommonSpan, next_midnight, span_end};
use cal_events::{HORIZON, Series};
use cal_rules::common_multiple;

/// What series have in common.
#[derive(Clone, Copy)]
pub(crate) struct Common {
    /// The least number of days after which all do the same.
    days: u64,
    /// The least instant from which on all do.
    past: i64,
    /// The greatest width.
    width: i64,
    ghost few: { days ≤ most_period },
    ghost range: { (pos 0 ≤ℤ width) × (width <ℤ pos (2 ^ 50)) },
}

impl Common {
    ghost use Rattle.std.specs.Prelude.{[], ◌∷◌, ◌++◌, List, MatchOption};
    ghost use Rattle.profile.specs.events.Events.{Event};
    ghost use Rattle.cal_events.specs.Series.{series_said};
    ghost use Rattle.cal_period.specs.Spanning.{HasNoSpan, HasNoPeriodInCommon, HaveInCommon, IsSpanOf};

    /// Of one series. None where it has no period of at most 2,932,897 days.
    pub(crate) fn of(series: &Series) -> Option<Common>
        ensures { MatchOption result (HasNoPeriodInCommon (series_said series.now ∷ [])) (HaveInCommon (series_said series.now ∷ [])) }
    {
        Some(Common {
            days: series.period_days()?,
            past: series.regular_from(),
            width: series.width(),
        })
    }

    /// Of some series and one more. None where they have no common period of at most 2,932,897 days.
    pub(crate) fn with(self, series: &Series) -> Option<Common>
        ensures { (all : List Event) → HaveInCommon all self
            → MatchOption result (HasNoPeriodInCommon (all ++ series_said series.now ∷ [])) (HaveInCommon (all ++ series_said series.now ∷ [])) }
    {
        Some(Common {
            days: common_multiple(self.days, series.period_days()?)?,
            past: self.past.max(series.regular_from()),
            width: self.width.max(series.width()),
        })
    }

    /// Their span. None where its bound isn't before the horizon.
    pub(crate) fn span(self) -> Option<CommonSpan>
        ensures { (all : List Event) → HaveInCommon all self → MatchOption result (HasNoSpan all) (IsSpanOf all) }
    {
        if self.past >= HORIZON {
            return None;
        }
        let from = next_midnight(self.past);
        let bound = span_end(from, self.days, self.width);
        if bound >= HORIZON {
            return None;
        }
        Some(CommonSpan {
            from,
            days: self.days,
            bound,
        })
    }
}
