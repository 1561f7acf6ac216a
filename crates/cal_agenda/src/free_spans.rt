//! When a room is free: what its agenda leaves of a span.
ghost use Rattle.std.specs.Prelude.{◌≡◌, ◌↔◌, ◌++◌, ℤ, map, IfOk, IsTrue, OnOk};
ghost use Rattle.std.specs.Int.{int_max};
ghost use Rattle.profile.specs.checker.Agendas.{AreInSpan, AreFreeSpans};
ghost use Rattle.profile.specs.events.Confirmed.{Confirmed, IsOneOf};
ghost use Rattle.cal_events.specs.Calendar.{instance_of};
ghost use Rattle.cal_agenda.specs.Gaps.{ends_of, span_if, gaps, IsFreeThroughout};

use crate::confirmed::agenda;
use cal_events::{Calendar, Instance, Span};
use std::alloc::{AllocError, Global};

/// The spans of a span in which nothing of a calendar is confirmed, in order, each as long as it can be. Fails only when out of memory.
pub fn free(alloc: Global, calendar: &Calendar, span: Span) -> Result<Vec<Span>, AllocError>
    ensures { IfOk result (λ spans. AreFreeSpans (IsOneOf calendar.now) span.start span.end (map ends_of spans.items)) }
{
    let instances = agenda(alloc, calendar, span)?;
    free_by(alloc, &instances, span)
}

/// The spans of a span in which none of these instances is: those that `agenda` gives of a calendar. Fails only when out of memory.
pub fn free_by(
    alloc: Global,
    instances: &[Instance<'_>],
    span: Span,
) -> Result<Vec<Span>, AllocError>
    ensures { IfOk result (λ spans. (calendar : Confirmed) → AreInSpan (IsOneOf calendar) span.start span.end (map instance_of instances.now)
        → AreFreeSpans (IsOneOf calendar) span.start span.end (map ends_of spans.items)) }
{
    left_by(alloc, instances, span)
}

/// Whether the room is free all the time of a span, where these instances of its calendar are in it.
pub fn is_free(instances: &[Instance<'_>]) -> bool
    ensures { (calendar : Confirmed) (from until : ℤ) → AreInSpan (IsOneOf calendar) from until (map instance_of instances.now)
        → IsTrue result ↔ IsFreeThroughout (IsOneOf calendar) from until }
{
    instances.is_empty()
}

/// What instances in order leave of a span. Fails only when out of memory.
fn left_by(alloc: Global, instances: &[Instance<'_>], span: Span) -> Result<Vec<Span>, AllocError>
    ensures { IfOk result (λ spans. map ends_of spans.items ≡ gaps span.start span.end (map instance_of instances.now)) }
{
    let mut spans = Vec::new(alloc);
    let mut left = span;
    for instance in instances {
        add(&mut spans, before(left, instance))?;
        left = behind(left, instance);
    }
    add(&mut spans, left)?;
    Ok(spans)
}

/// Adds a span, if there is an instant in it. Fails only when out of memory.
fn add(spans: &mut Vec<Span>, span: Span) -> Result<(), AllocError>
    ensures { OnOk result (map ends_of spans.new.items ≡ map ends_of spans.old.items ++ span_if span.start span.end) }
{
    if span.start >= span.end {
        return Ok(());
    }
    spans.push(span)?;
    Ok(())
}

/// What is left of a span before an instance.
fn before(left: Span, instance: &Instance<'_>) -> Span
    ensures start { result.start ≡ left.start }
    ensures end { result.end ≡ instance.now.start }
{
    Span {
        start: left.start,
        end: instance.start,
    }
}

/// What is left of it from the instance's end on, and from where it begins.
fn behind(left: Span, instance: &Instance<'_>) -> Span
    ensures start { result.start ≡ int_max left.start instance.now.end }
    ensures end { result.end ≡ left.end }
{
    Span {
        start: left.start.max(instance.end),
        end: left.end,
    }
}
