//! The singles of a calendar in a span.
ghost use Rattle.std.specs.Prelude.{map, Contains, IfOk};
ghost use Rattle.cal_events.specs.Calendar.{instance_of};
ghost use Rattle.cal_agenda.specs.InSpan.{AreAllInSpan};

use crate::in_span::keep;
use cal_events::{Calendar, Instance, Span};
use std::alloc::{AllocError, Global};

/// Those that share an instant with a span. Fails only when out of memory.
pub(crate) fn of_singles<'a>(
    alloc: Global,
    calendar: &'a Calendar,
    span: Span,
) -> Result<Vec<Instance<'a>>, AllocError>
    ensures { IfOk result (λ found. AreAllInSpan (Contains calendar.now.singles) span.start span.end (map instance_of found.items)) }
{
    let mut found = Vec::new(alloc);
    for single in calendar.singles() {
        keep(&mut found, single, span)?;
    }
    Ok(found)
}
