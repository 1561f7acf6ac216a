//! A walk through the instances of a series that start before a bound. Of those behind it remembers the one that ends last.
ghost use Rattle.std.specs.Prelude.{ℕ, ℤ, ◌≡◌, ◌≢◌, ◌↔◌, ◌≤ℤ◌, ◌<ℤ◌, Option, Some, None, length, MatchBool, MatchOption, IfSome};
ghost use Rattle.profile.specs.checker.Certificates.{IsSeriesAt};
ghost use Rattle.profile.specs.events.Events.{Event};
ghost use Rattle.cal_events.specs.Series.{AreKnownByStart};
ghost use Rattle.clash_check.specs.Draws.{IsPlaceIn, drawn_more, one_if};
ghost use Rattle.clash_check.specs.Walks.{IsBelow, BeginsAtFirst, IsWalkThrough, PassesOne, MeetsLast, SharesWithNone, IsLaterEnd, IsNextTurn};

use crate::drawn::Drawn;
use cal_events::Span;

/// How far the instances of a series were gone through.
#[derive(Clone, Copy)]
pub(crate) struct Walk {
    /// Which series, counted from 1.
    series: u64,
    /// The first of its instances that isn't behind yet; None where all are.
    pub(crate) next: Option<Span>,
    /// Of those behind the one that ends last.
    last: Option<Span>,
}

impl Walk {
    /// A walk that is at the first of those that start before a bound.
    pub(crate) fn begin<D: Drawn>(drawn: &mut D, series: u64, bound: i64) -> Walk
        requires { IsPlaceIn (length (D.calendar drawn.old).series) series }
        ensures calendar { D.calendar drawn.new ≡ D.calendar drawn.old }
        ensures series { result.series ≡ series }
        ensures begins { (a : Event) → IsSeriesAt (D.calendar drawn.old) series a → AreKnownByStart a
            → BeginsAtFirst (IsBelow a bound) (D.coming drawn.new result.series) bound result }
        ensures count { D.count drawn.new ≡ drawn_more (D.count drawn.old) (one_if result.next) }
        ensures others { (j : ℕ) → j ≢ series → (start end : ℤ) → D.coming drawn.new j start end ↔ D.coming drawn.old j start end }
    {
        drawn.begin(series, i64::MIN, bound);
        let next = draw_span(drawn, series);
        Walk {
            series,
            next,
            last: None,
        }
    }

    /// Past its next instance: the one after that is drawn.
    pub(crate) fn past<D: Drawn>(self, drawn: &mut D, next: Span) -> Walk
        requires place { IsPlaceIn (length (D.calendar drawn.old).series) self.series }
        requires next { self.next ≡ Some next }
        ensures calendar { D.calendar drawn.new ≡ D.calendar drawn.old }
        ensures series { result.series ≡ self.series }
        ensures past { (a : Event) (bound : ℤ) → AreKnownByStart a → IsWalkThrough (IsBelow a bound) (D.coming drawn.old self.series) bound self
            → PassesOne (IsBelow a bound) (D.coming drawn.new result.series) bound next self result }
        ensures count { D.count drawn.new ≡ drawn_more (D.count drawn.old) (one_if result.next) }
        ensures others { (j : ℕ) → j ≢ self.series → (start end : ℤ) → D.coming drawn.new j start end ↔ D.coming drawn.old j start end }
    {
        let after = draw_span(drawn, self.series);
        Walk {
            series: self.series,
            next: after,
            last: Some(later_end(self.last, next)),
        }
    }

    /// Whether one behind is still going on when another starts. One of no length starts in none.
    pub(crate) fn is_met_by(&self, other: Span) -> bool
        ensures { MatchBool result (MeetsLast self.now.last other) (SharesWithNone self.now.last other) }
    {
        meets(self.last, other)
    }
}

/// Whether the one of those behind that ends last is still going on when another starts. One of no length starts in none.
pub(crate) fn meets(last: Option<Span>, other: Span) -> bool
    ensures { MatchBool result (MeetsLast last other) (SharesWithNone last other) }
{
    match last {
        Some(last) => other.start < other.end && other.start < last.end,
        None => false,
    }
}

/// The next instance of a series; None where no more comes.
pub(crate) fn draw_span<D: Drawn>(drawn: &mut D, series: u64) -> Option<Span>
    requires { IsPlaceIn (length (D.calendar drawn.old).series) series }
    ensures calendar { D.calendar drawn.new ≡ D.calendar drawn.old }
    ensures count { D.count drawn.new ≡ drawn_more (D.count drawn.old) (one_if result) }
    ensures drawn { MatchOption result ((start end : ℤ) → D.coming drawn.old series start end → ⊥)
        (λ x. D.coming drawn.old series x.start x.end × ((start end : ℤ) → D.coming drawn.old series start end → x.start ≤ℤ start)) }
    ensures coming { (start end : ℤ) → D.coming drawn.new series start end ↔ (D.coming drawn.old series start end × IfSome result (λ x. x.start <ℤ start)) }
    ensures others { (j : ℕ) → j ≢ series → (start end : ℤ) → D.coming drawn.new j start end ↔ D.coming drawn.old j start end }
{
    match drawn.draw(series) {
        Some((start, end)) => Some(Span { start, end }),
        None => None,
    }
}

/// The one that ends last, of one and of another, where there is one.
pub(crate) fn later_end(last: Option<Span>, next: Span) -> Span
    ensures { IsLaterEnd last next result }
{
    match last {
        Some(last) if last.end >= next.end => last,
        _ => next,
    }
}

/// Which of two walks goes on, past its next instance.
#[derive(Clone, Copy)]
pub(crate) enum Turn {
    First(Span),
    Second(Span),
    /// Neither: both are at their ends.
    Over,
}

/// The turn of the walk of which the next instance starts earlier.
pub(crate) fn turn_of(first: &Walk, second: &Walk) -> Turn
    ensures { IsNextTurn first.now second.now result }
{
    match (first.next, second.next) {
        (Some(x), Some(y)) if y.start < x.start => Turn::Second(y),
        (Some(x), _) => Turn::First(x),
        (None, Some(y)) => Turn::Second(y),
        (None, None) => Turn::Over,
    }
}
