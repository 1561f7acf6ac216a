//! The sweep: do two spans of a list share an instant before the horizon? Spans that have no such
//! instant are dropped, the others sorted by start, and then only neighbours are compared.
ghost use Rattle.std.specs.Prelude.{◌≡◌, length, IfOk, IfNone, IfSome};
ghost use Rattle.std.specs.List.{AllAdjacentBelow};
ghost use Rattle.cal_events.specs.Sweep.{IsBeforeHorizon, IsOverlap, AreSpansApart, AreNeighbours, placed_from, IsOverBefore};

use crate::instance::HORIZON;
use std::alloc::{AllocError, Global};

/// The seconds from `start` on and before `end`, each counted from 1970-01-01T00:00:00Z.
#[derive(Clone, Copy, PartialEq, Eq)]
pub struct Span {
    pub start: i64,
    pub end: i64,
}

impl Span {
    /// Those of its seconds that come before the horizon: from then on nothing is compared.
    pub(crate) fn before_horizon(self) -> Span
        ensures { IsBeforeHorizon self result }
    {
        Span {
            start: self.start,
            end: self.end.min(HORIZON),
        }
    }
}

/// Two places of a list whose spans share an instant, the earlier start first, and that instant:
/// the later start.
#[derive(Clone, Copy, PartialEq, Eq)]
pub struct Overlap {
    pub first: usize,
    pub second: usize,
    pub instant: i64,
}

/// A span that holds an instant before the horizon, and its place in the list.
#[derive(Clone, Copy)]
struct Placed {
    start: i64,
    end: i64,
    place: usize,
}

/// Two places whose spans share an instant before the horizon, if there are any. In time
/// n log n. Fails only when out of memory.
pub fn first_overlap(alloc: Global, spans: &[Span]) -> Result<Option<Overlap>, AllocError>
    ensures found { IfOk result (λ r. IfSome r (IsOverlap spans.now)) }
    ensures none { IfOk result (λ r. IfNone r (AreSpansApart spans.now)) }
{
    let mut placed = placed_spans(alloc, spans)?;
    placed.sort_unstable_by_key(|span| span.start);
    Ok(overlap_of_neighbours(&placed))
}

/// The spans that hold an instant before the horizon, each with its place.
fn placed_spans(alloc: Global, spans: &[Span]) -> Result<Vec<Placed>, AllocError>
    ensures { IfOk result (λ placed. placed.items ≡ placed_from 0 spans.now) }
{
    let mut placed = Vec::new(alloc);
    for (place, span) in spans.iter().enumerate() {
        if span.start < span.end && span.start < HORIZON {
            placed.push(Placed {
                start: span.start,
                end: span.end,
                place,
            })?;
        }
    }
    Ok(placed)
}

/// The first two neighbours of which the second starts before the first has ended.
fn overlap_of_neighbours(sorted: &[Placed]) -> Option<Overlap>
    ensures found { IfSome result (AreNeighbours sorted.now) }
    ensures none { IfNone result (AllAdjacentBelow IsOverBefore sorted.now (length sorted.now)) }
{
    for next in 1..sorted.len() {
        let earlier = sorted[next - 1];
        let later = sorted[next];
        if later.start < earlier.end {
            return Some(Overlap {
                first: earlier.place,
                second: later.place,
                instant: later.start,
            });
        }
    }
    None
}
