//! Of the parts that a message has for one room the greatest of each slot: two of its VEVENTs may have one slot there.

ghost use Rattle.std.specs.Prelude.{◌≡◌, IfOk};
ghost use Rattle.std.specs.List.Sorted.{IsSorted};
ghost use Rattle.profile.specs.rooms.Messages.{AreGreatest};
ghost use Rattle.itip_order.specs.Parts.{part_of, slot_of};
ghost use Rattle.itip_order.specs.Greatest.{ends_at, leaving, slot_part_cmp};

use crate::part::{Part, Slot};
use std::alloc::{AllocError, Global};
use std::cmp::Ordering;

/// Of these, each with its part, those with the greatest part of each slot, by their slots. In time n log n. It fails only when out of memory.
pub fn greatest_by_slot<T: Drop>(
    alloc: Global,
    all: Vec<(Part, T)>,
) -> Result<Vec<(Part, T)>, AllocError>
    ensures { IfOk result (λ kept. AreGreatest (λ one. part_of one.0) all.items kept.items) }
{
    let mut sorted = all;
    sorted.sort_unstable_by(|a, b| cmp_slot_part(&a.0, &b.0));
    last_by_slot(alloc, sorted)
}

/// Of these, by their slots and then by their parts, the last of each slot. It fails only when out of memory.
fn last_by_slot<T: Drop>(
    alloc: Global,
    sorted: Vec<(Part, T)>,
) -> Result<Vec<(Part, T)>, AllocError>
    requires { IsSorted (λ a b. slot_part_cmp (part_of a.0) (part_of b.0)) sorted.items }
    ensures { IfOk result (λ kept. AreGreatest (λ one. part_of one.0) sorted.items kept.items) }
{
    let mut kept: Vec<(Part, T)> = Vec::new(alloc);
    for one in sorted {
        leave_slot(&mut kept, one.0.slot);
        kept.push(one)?;
    }
    Ok(kept)
}

/// Takes the last of these away, if it is of this slot.
fn leave_slot<T: Drop>(kept: &mut Vec<(Part, T)>, slot: Slot)
    ensures { kept.new.items ≡ leaving (λ one. part_of one.0) (slot_of slot) kept.old.items }
{
    if ends_at_slot(kept, slot) {
        kept.pop();
    }
}

/// Whether the last of these is of this slot.
fn ends_at_slot<T>(kept: &[(Part, T)], slot: Slot) -> bool
    ensures { result ≡ ends_at (λ one. part_of one.0) (slot_of slot) kept.now }
{
    match kept.last() {
        Some((last, _)) => last.slot.cmp(&slot).is_eq(),
        None => false,
    }
}

/// Compares parts by their slots, and of one slot by revision and body.
fn cmp_slot_part(a: &Part, b: &Part) -> Ordering
    ensures { result ≡ slot_part_cmp (part_of a.now) (part_of b.now) }
{
    a.slot.cmp(&b.slot).then(a.cmp_part(b))
}
