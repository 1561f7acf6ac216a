//! Instants in order, each once, among which one is looked for by binary search.

ghost use Rattle.std.specs.Prelude.{◌≡◌, ◌≢◌, ◌↔◌, ◌<ℤ◌, ℤ, AllPairs, Contains, IsTrue, MatchBool, IfOk};
ghost use Rattle.cal_events.specs.Instants.{IsFirstFrom};

use crate::neighbours::has_equal_neighbours;
use std::alloc::{AllocError, Global};
use std::marker::Model;

/// Instants in order, each once.
#[derive(Drop)]
pub(crate) struct Instants {
    sorted: Vec<i64>,
}

impl Model for Instants {
    ghost use Rattle.std.specs.Prelude.{List, ℤ};
    ghost use Rattle.std.specs.Ordering.{int_cmp};
    ghost use Rattle.std.specs.List.Sorted.{IsSorted, IsStrictlySortedBy};

    ghost Value = { List ℤ };

    ghost view = { λ instants. instants.sorted.items };

    ghost invariant = { λ instants. IsSorted int_cmp instants.sorted.items × IsStrictlySortedBy int_cmp instants.sorted.items };
}

impl Instants {
    /// Puts them in order, and keeps each once.
    pub(crate) fn of(instants: Vec<i64>) -> Instants
        ensures same { (t : ℤ) → Contains result t ↔ Contains instants.items t }
        ensures ascending { AllPairs ◌<ℤ◌ result }
    {
        let mut sorted = instants;
        sorted.sort_unstable();
        sorted.dedup();
        Instants { sorted }
    }

    /// The instants, in order.
    pub(crate) fn sorted(&self) -> &[i64]
        ensures { result.now ≡ self.now }
    {
        &self.sorted
    }

    /// Whether one of them is this one.
    pub(crate) fn has(&self, instant: i64) -> bool
        ensures { IsTrue result ↔ Contains self.now instant }
    {
        self.sorted.binary_search(&instant).is_ok()
    }

    /// The first of them that isn't before an instant.
    pub(crate) fn first_from(&self, from: i64) -> Option<i64>
        ensures { IsFirstFrom self.now from result }
    {
        let at = self.sorted.partition_point(|instant| *instant < from);
        if at < self.sorted.len() {
            return Some(self.sorted[at]);
        }
        None
    }
}

/// Whether two of the instants are one. In time n log n.
pub(crate) fn has_twins(instants: Vec<i64>) -> bool
    ensures { MatchBool result (AllPairs ◌≢◌ instants.items → ⊥) (AllPairs ◌≢◌ instants.items) }
{
    let mut sorted = instants;
    sorted.sort_unstable();
    has_equal_neighbours(&sorted)
}

/// A copy of the instants. It fails only when out of memory.
pub(crate) fn copied(alloc: Global, instants: &[i64]) -> Result<Vec<i64>, AllocError>
    ensures { IfOk result (λ copy. copy.items ≡ instants.now) }
{
    let mut copy = Vec::new(alloc);
    copy.extend_from_slice(instants)?;
    Ok(copy)
}
