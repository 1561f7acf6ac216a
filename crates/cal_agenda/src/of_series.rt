//! The instances of series in a span.
ghost use Rattle.std.specs.Prelude.{map, IfOk};
ghost use Rattle.profile.specs.events.Starts.{IsInstance};
ghost use Rattle.profile.specs.events.Confirmed.{IsInSeries};
ghost use Rattle.cal_events.specs.Calendar.{instance_of};
ghost use Rattle.cal_events.specs.Series.{series_said};
ghost use Rattle.cal_agenda.specs.InSpan.{AreAllInSpan};

use crate::in_span::keep;
use cal_events::{Calendar, Instance, Series, Span, instances_last, known_by_start};
use std::alloc::{AllocError, Global};

/// Those of all series of a calendar that share an instant with a span. Fails only when out of memory.
pub(crate) fn of_all_series<'a>(
    alloc: Global,
    calendar: &'a Calendar,
    span: Span,
) -> Result<Vec<Instance<'a>>, AllocError>
    ensures { IfOk result (λ found. AreAllInSpan (IsInSeries calendar.now.series) span.start span.end (map instance_of found.items)) }
{
    let mut found = Vec::new(alloc);
    for series in calendar.series() {
        let mut own = of_series(alloc, series, span)?;
        found.append(&mut own)?;
    }
    Ok(found)
}

/// Those of a series, by start. None is looked at that was over before the span, and none behind the first that starts no earlier than its end.
/// Fails only when out of memory.
fn of_series<'a>(
    alloc: Global,
    series: &'a Series,
    span: Span,
) -> Result<Vec<Instance<'a>>, AllocError>
    ensures { IfOk result (λ found. AreAllInSpan (IsInstance (series_said series.now)) span.start span.end (map instance_of found.items)) }
{
    // Only for the proof: each is known by its start, and lasts no longer than the width.
    known_by_start();
    instances_last();
    let mut found = Vec::new(alloc);
    let mut starts = series.starts(span.start.saturating_sub(series.width()));
    let mut next = starts.next();
    while let Some(instance) = next {
        if instance.start >= span.end {
            return Ok(found);
        }
        keep(&mut found, instance, span)?;
        next = starts.next();
    }
    Ok(found)
}
