//! What a meeting no longer confirms, while the timeline still has it.

ghost use Rattle.std.specs.Prelude.{◌≡◌, IfOk};
ghost use Rattle.std.specs.List.Sorted.{IsPermutation, IsSortedByKey};
ghost use Rattle.room_books.specs.Gone.{single_cmp, the_single};
ghost use Rattle.room_books.specs.Timeline.{has_single};

use cal_events::Single;
use std::alloc::{AllocError, Global};
use std::cmp::Ordering;
use std::marker::Model;

/// The instances that a meeting no longer confirms, in order: one is found by binary search.
#[derive(Drop)]
pub(crate) struct Gone {
    sorted: Vec<Single>,
}

impl Model for Gone {
    ghost use Rattle.std.specs.Prelude.{List};
    ghost use Rattle.std.specs.List.Sorted.{IsSortedByKey};
    ghost use Rattle.cal_events.specs.declared.instance.Single.{Single};
    ghost use Rattle.room_books.specs.Gone.{single_cmp, the_single};

    ghost Value = { List Single };

    ghost view = { λ gone. gone.sorted.items };

    ghost invariant = { λ gone. IsSortedByKey the_single single_cmp gone.sorted.items };
}

impl Gone {
    /// These.
    pub(crate) fn of(alloc: Global, singles: &[Single]) -> Result<Gone, AllocError>
        ensures { IfOk result (λ gone. IsPermutation singles.now gone) }
    {
        let mut sorted = Vec::from_slice(alloc, singles)?;
        sort(&mut sorted);
        Ok(Gone { sorted })
    }

    /// Whether an instance is one of them.
    pub(crate) fn has(&self, single: Single) -> bool
        ensures { result ≡ has_single single self.now }
    {
        is_among(&self.sorted, single)
    }
}

fn sort(singles: &mut Vec<Single>)
    ensures same { IsPermutation singles.old.items singles.new.items }
    ensures rises { IsSortedByKey the_single single_cmp singles.new.items }
{
    singles.sort_unstable_by(|a, b| compare(a, b));
}

/// Whether an instance is one of these, which are in order.
fn is_among(sorted: &[Single], single: Single) -> bool
    requires { IsSortedByKey the_single single_cmp sorted.now }
    ensures { result ≡ has_single single sorted.now }
{
    sorted.binary_search_by(|own| compare(own, &single)).is_ok()
}

/// By their original starts, then by their spans.
fn compare(a: &Single, b: &Single) -> Ordering
    ensures { result ≡ single_cmp a.now b.now }
{
    a.slot
        .cmp(&b.slot)
        .then(a.span.start.cmp(&b.span.start))
        .then(a.span.end.cmp(&b.span.end))
}
