//! A walk through the instances of a series, by start. Of those behind it remembers the one that ends last.
ghost use Rattle.std.specs.Prelude.{◌≡◌, ◌≤ℤ◌, ◌<ℤ◌, true, false, ℤ, Option, Some, IfSome, IfNone};
ghost use Rattle.profile.specs.events.Events.{Event};
ghost use Rattle.cal_events.specs.Left.{GivesFirst};
ghost use Rattle.cal_events.specs.Series.{AreKnownByStart};
ghost use Rattle.cal_events.specs.declared.instances.Instances.{Instances};
ghost use Rattle.cal_period.specs.Walks.{IsNoneBelow, AreAllLeft, AreLeftFrom, BeginsWalk, EntersWalk, IsWalkOf, Tail, GoesPast, WalksOn, MeetsNone, MeetsInstance, IsGoingOn, EndsLater};

use cal_events::Instance;

/// How far a series was walked through.
#[derive(Clone, Copy)]
pub(crate) struct Walk<'a> {
    /// The first of its instances that is still to come; None where all are behind.
    pub(crate) next: Option<Instance<'a>>,
    /// Of those behind the one that ends last.
    last: Option<Instance<'a>>,
}

impl<'a> Walk<'a> {
    /// A walk that is at the first instance, of all or of those from an entry on.
    pub(crate) fn to(first: Option<Instance<'a>>) -> Walk<'a>
        ensures begins { (series : Event) (old new : Instances) → AreKnownByStart series → AreAllLeft series old
            → GivesFirst old first.entry new → BeginsWalk series new result }
        ensures enters { (series : Event) (by entry : ℤ) (old new : Instances) → AreKnownByStart series → AreLeftFrom series by entry old
            → GivesFirst old first.entry new → EntersWalk series by entry new result }
    {
        Walk {
            next: first,
            last: None,
        }
    }

    /// Its next instance, where that starts before a bound.
    pub(crate) fn next_below(&self, bound: i64) -> Option<Instance<'a>>
        ensures some { IfSome result (λ i. (self.now.next ≡ Some i) × (i.start <ℤ bound)) }
        ensures none { IfNone result (IsNoneBelow bound self.now.next) }
    {
        let next = self.next?;
        if next.start >= bound {
            return None;
        }
        Some(next)
    }

    /// The instance behind it that is still going on when another starts, if there is one. An instance of no length starts in none.
    pub(crate) fn met_by(&self, other: Instance<'_>) -> Option<Instance<'a>>
        ensures meets { IfSome result (MeetsInstance self.now.last other.entry) }
        ensures none { IfNone result (MeetsNone self.now.last other.entry) }
    {
        let last = self.last?;
        if other.end <= other.start || last.end <= other.start {
            return None;
        }
        Some(last)
    }

    /// Whether an instance behind it is still going on at an instant.
    pub(crate) fn reaches(&self, instant: i64) -> bool
        ensures on { result ≡ true → IsGoingOn self.now.last instant }
        ensures over { result ≡ false → IfSome self.now.last (λ l. l.end ≤ℤ instant) }
    {
        match self.last {
            Some(last) => instant < last.end,
            None => false,
        }
    }

    /// Past its next instance, where another comes after that.
    pub(crate) fn past(&self, next: Instance<'a>, after: Option<Instance<'a>>) -> Walk<'a>
        requires { self.now.next ≡ Some next }
        ensures is_walk { (series : Event) (old new : Instances) → IsWalkOf series old self.now → GivesFirst old after.entry new
            → GoesPast series next.entry self.now new result }
        ensures tail { (series : Event) (by : ℤ) (old new : Instances) → Tail series by old self.now → GivesFirst old after.entry new
            → WalksOn series by next.entry self.now new result }
    {
        Walk {
            next: after,
            last: Some(later_end(self.last, next)),
        }
    }
}

/// The one of two instances that ends last, where there are two.
fn later_end<'a>(last: Option<Instance<'a>>, next: Instance<'a>) -> Instance<'a>
    ensures { EndsLater last.entry next.entry result }
{
    match last {
        Some(last) if last.end >= next.end => last,
        _ => next,
    }
}
