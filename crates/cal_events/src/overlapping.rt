//! The first instance of an event that shares an instant with a span.

ghost use Rattle.std.specs.Prelude.{◌↔◌, ◌^◌, pos, ℤ, ◌+ℤ◌, ◌≤ℤ◌, ◌<ℤ◌, Contains, IsTrue, option_map};
ghost use Rattle.profile.specs.checker.Instances.{Instance as SaidInstance};
ghost use Rattle.profile.specs.events.Starts.{IsInstance, Overlaps, IsFirstOverlap};
ghost use Rattle.cal_events.specs.Calendar.{instance_of};
ghost use Rattle.cal_events.specs.Component.{times_of};
ghost use Rattle.cal_events.specs.Overlapping.{LastAtMost};
ghost use Rattle.cal_events.specs.Event.{said_meeting};
ghost use Rattle.cal_events.specs.declared.component.EventComponent.{EventComponent};

use crate::component::EventComponent;
use crate::event::Event;
use crate::instance::Instance;
use crate::sweep::Span;

/// The first instance, by start and then by slot, that shares an instant with a span.
pub(crate) fn first_overlapping<'a>(event: &'a Event, span: Span) -> Option<Instance<'a>>
    ensures { IsFirstOverlap (said_meeting event.now) span.start span.end (option_map instance_of result) }
{
    let mut instances = event.instances(span.start.saturating_sub(longest(event)));
    let mut next = instances.next();
    while let Some(instance) = next {
        if instance.start >= span.end {
            return None;
        }
        if overlaps(instance.start, instance.end, span) {
            return Some(instance);
        }
        next = instances.next();
    }
    None
}

/// Whether the time from one instant to another shares an instant with a span.
fn overlaps(start: i64, end: i64, span: Span) -> bool
    ensures { IsTrue result ↔ Overlaps start end span.start span.end }
{
    let first = start.max(span.start);
    first < end && first < span.end
}

/// No instance of an event lasts longer, in exact seconds.
fn longest(event: &Event) -> i64
    ensures bound { (b : SaidInstance) → IsInstance (said_meeting event.now) b → b.end ≤ℤ (b.start +ℤ result) }
    ensures range { (pos 0 ≤ℤ result) × (result <ℤ pos (2 ^ 50)) }
{
    let of_overrides = longest_of(event.overrides.as_slice());
    match &event.recurrence {
        Some(recurrence) => recurrence.times.width().max(of_overrides),
        None => of_overrides,
    }
}

/// No instance of overrides lasts longer.
fn longest_of(overrides: &[EventComponent]) -> i64
    ensures bound { (o : EventComponent) → Contains overrides.now o → LastAtMost (times_of o.times) result }
    ensures range { (pos 0 ≤ℤ result) × (result <ℤ pos (2 ^ 50)) }
{
    let mut longest: i64 = 0;
    for component in overrides {
        longest = longest.max(component.times.width());
    }
    longest
}
