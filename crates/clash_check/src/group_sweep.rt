//! A sweep through the instances of several series that start before a bound, all of them in order of start: each is drawn once.
ghost use Rattle.std.specs.Prelude.{ℕ, ℤ, List, ◌≡◌, ◌≢◌, ◌↔◌, ◌<◌, AllPairs, Contains, length, IfOk, OnOk, MatchBool};
ghost use Rattle.std.specs.List.{sum_by};
ghost use Rattle.std.specs.BinaryHeap.{heap_items, IsHeap};
ghost use Rattle.profile.specs.checker.Instances.{Instance};
ghost use Rattle.profile.specs.checker.Certificates.{AreSeriesAt};
ghost use Rattle.profile.specs.events.Events.{Event};
ghost use Rattle.profile.specs.events.Spans.{HaveClash};
ghost use Rattle.clash_check.specs.Counted.{AreAllBelow};
ghost use Rattle.clash_check.specs.Draws.{IsPlaceIn};
ghost use Rattle.clash_check.specs.Sweeps.{HaveNoClash, IsCountDrawn};
ghost use Rattle.clash_check.specs.Comings.{next_cmp, DrawsNext};

use crate::drawn::Drawn;
use crate::walk::{draw_span, later_end, meets};
use cal_events::Span;
use std::alloc::{AllocError, Global};
use std::cmp::Reverse;
use std::collections::BinaryHeap;

/// The next instance of a series. The one that starts first is the least.
#[derive(Clone, Copy, PartialEq, Eq, PartialOrd, Ord)]
struct Next {
    start: i64,
    end: i64,
    series: u64,
}

impl Next {
    /// When it starts and ends.
    fn span(self) -> Span
        ensures { result ≡ record { start = self.start; end = self.end } }
    {
        Span {
            start: self.start,
            end: self.end,
        }
    }
}

/// Do two instances of these series clash, of one series or of two, that start before a bound? Each instance is drawn once: on no all of them were,
/// on yes some. Fails only when out of memory.
pub(crate) fn sweep_group<D: Drawn>(
    alloc: Global,
    drawn: &mut D,
    members: &[u64],
    bound: i64,
) -> Result<bool, AllocError>
    requires places { (i : ℕ) → Contains members.now i → IsPlaceIn (length (D.calendar drawn.old).series) i }
    requires ascending { AllPairs ◌<◌ members.now }
    ensures calendar { D.calendar drawn.new ≡ D.calendar drawn.old }
    ensures clash { IfOk result (λ found. (all : List Event) → AreSeriesAt (D.calendar drawn.old) members.now all
        → MatchBool found (HaveClash all all bound) (HaveNoClash all all bound)) }
    ensures count { IfOk result (λ found. (all : List Event) → AreSeriesAt (D.calendar drawn.old) members.now all
        → (lists : List (List Instance)) → AreAllBelow all bound lists
        → IsCountDrawn found (D.count drawn.old) (D.count drawn.new) (sum_by length lists)) }
{
    drawn.is_drawable();
    // Only for the proof: a count has 64 bits.
    let _count = drawn.drawn();
    let mut coming = BinaryHeap::new(alloc);
    for number in members {
        drawn.begin(*number, i64::MIN, bound);
        push_next(&mut coming, drawn, *number)?;
    }
    let mut last = None;
    while let Some(Reverse(next)) = coming.pop() {
        let span = next.span();
        if meets(last, span) {
            return Ok(true);
        }
        last = Some(later_end(last, span));
        push_next(&mut coming, drawn, next.series)?;
    }
    Ok(false)
}

/// Draws the next instance of a series, where there is one. Fails only when out of memory.
fn push_next<D: Drawn>(
    coming: &mut BinaryHeap<Reverse<Next>>,
    drawn: &mut D,
    series: u64,
) -> Result<(), AllocError>
    requires { IsPlaceIn (length (D.calendar drawn.old).series) series }
    ensures calendar { D.calendar drawn.new ≡ D.calendar drawn.old }
    ensures next { OnOk result (DrawsNext (D.coming drawn.old series) (D.coming drawn.new series) (D.count drawn.old) (D.count drawn.new) series (heap_items coming.old) (heap_items coming.new)) }
    ensures others { (j : ℕ) → j ≢ series → (start end : ℤ) → D.coming drawn.new j start end ↔ D.coming drawn.old j start end }
    ensures order { OnOk result (IsHeap next_cmp (heap_items coming.old) → IsHeap next_cmp (heap_items coming.new)) }
{
    if let Some(span) = draw_span(drawn, series) {
        coming.push(Reverse(Next {
            start: span.start,
            end: span.end,
            series,
        }))?;
    }
    Ok(())
}
