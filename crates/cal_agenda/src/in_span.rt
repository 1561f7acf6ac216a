//! Instances that share an instant with a span.
ghost use Rattle.std.specs.Prelude.{◌≡◌, ◌↔◌, ◌<ℤ◌, map, IsTrue, OnOk};
ghost use Rattle.std.specs.Int.{int_max, int_min};
ghost use Rattle.profile.specs.checker.Agendas.{IsInSpan};
ghost use Rattle.cal_events.specs.Calendar.{instance_of};
ghost use Rattle.cal_agenda.specs.InSpan.{AddsInSpan};

use cal_events::{Instance, Span};
use std::alloc::AllocError;

/// Adds an instance to others, if it shares an instant with a span. Fails only when out of memory.
pub(crate) fn keep<'a>(
    found: &mut Vec<Instance<'a>>,
    instance: Instance<'a>,
    span: Span,
) -> Result<(), AllocError>
    ensures { OnOk result (AddsInSpan span.start span.end (instance_of instance.entry) (map instance_of found.old.items) (map instance_of found.new.items)) }
{
    if !is_in_span(&instance, span) {
        return Ok(());
    }
    found.push(instance)?;
    Ok(())
}

/// Whether an instance shares an instant with a span.
fn is_in_span(instance: &Instance<'_>, span: Span) -> bool
    ensures { IsTrue result ↔ IsInSpan span.start span.end (instance_of instance.now) }
{
    has_instant(common(instance, span))
}

/// Whether there is an instant in a span.
pub(crate) fn has_instant(span: Span) -> bool
    ensures { IsTrue result ↔ (span.start <ℤ span.end) }
{
    span.start < span.end
}

/// What an instance and a span have in common, if that holds an instant.
fn common(instance: &Instance<'_>, span: Span) -> Span
    ensures start { result.start ≡ int_max instance.now.start span.start }
    ensures end { result.end ≡ int_min instance.now.end span.end }
{
    Span {
        start: instance.start.max(span.start),
        end: instance.end.min(span.end),
    }
}
