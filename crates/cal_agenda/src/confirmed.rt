//! The agenda of a room: what is confirmed in a span, singles and the instances of series.
ghost use Rattle.std.specs.Prelude.{map, IfOk};
ghost use Rattle.profile.specs.checker.Agendas.{AreInSpan};
ghost use Rattle.profile.specs.events.Confirmed.{IsOneOf};
ghost use Rattle.cal_events.specs.Calendar.{instance_of};

use crate::in_order::sort;
use crate::of_series::of_all_series;
use crate::of_singles::of_singles;
use cal_events::{Calendar, Instance, Span};
use std::alloc::{AllocError, Global};

/// The confirmed instances of a calendar that share an instant with a span, each once, by start and then by key. Of a series none is looked at that
/// was over before the span. Fails only when out of memory.
pub fn agenda<'a>(
    alloc: Global,
    calendar: &'a Calendar,
    span: Span,
) -> Result<Vec<Instance<'a>>, AllocError>
    ensures { IfOk result (λ agenda. AreInSpan (IsOneOf calendar.now) span.start span.end (map instance_of agenda.items)) }
{
    // Only for the proof: a single and an instance of a series have different keys.
    let _series = calendar.series();
    let mut found = of_singles(alloc, calendar, span)?;
    let mut others = of_all_series(alloc, calendar, span)?;
    found.append(&mut others)?;
    sort(&mut found);
    Ok(found)
}
