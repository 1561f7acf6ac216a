//! Instances in the order of an agenda.
ghost use Rattle.std.specs.Prelude.{◌≡◌};
ghost use Rattle.std.specs.List.Sorted.{IsPermutation, IsSortedByKey};
ghost use Rattle.profile.specs.checker.Instances.{instance_cmp, key_cmp};
ghost use Rattle.cal_events.specs.Calendar.{instance_of, key_of};

use cal_events::{Instance, InstanceKey};
use std::cmp::Ordering;

/// Puts instances in order, by start and then by key.
pub(crate) fn sort(instances: &mut Vec<Instance<'_>>)
    ensures same { IsPermutation instances.old.items instances.new.items }
    ensures rises { IsSortedByKey instance_of instance_cmp instances.new.items }
{
    instances.sort_unstable_by(|a, b| compare(a, b));
}

/// By start, and then by key.
fn compare(a: &Instance<'_>, b: &Instance<'_>) -> Ordering
    ensures { result ≡ instance_cmp (instance_of a.now) (instance_of b.now) }
{
    a.start.cmp(&b.start).then(compare_keys(&a.key, &b.key))
}

/// By organiser and UID as octets, and then by slot.
fn compare_keys(a: &InstanceKey<'_>, b: &InstanceKey<'_>) -> Ordering
    ensures { result ≡ key_cmp (key_of a.now) (key_of b.now) }
{
    let by_slot = a.slot.cmp(&b.slot);
    a.organiser
        .cmp(b.organiser)
        .then(a.uid.cmp(b.uid).then(by_slot))
}
