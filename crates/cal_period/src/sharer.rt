//! The first instance of a series that shares an instant with a span, looked for where residues allow one. No memory is taken.
ghost use Rattle.std.specs.Prelude.{option_map};
ghost use Rattle.profile.specs.events.Starts.{IsFirstSharer};
ghost use Rattle.cal_events.specs.Calendar.{instance_of};
ghost use Rattle.cal_events.specs.Series.{series_said};

use crate::by_residues::may_meet;
use cal_events::{Instance, Series, Span};

/// The first instance of a series that shares an instant before the horizon with a span; None where none does. Where residues exclude that the two
/// meet, the series isn't looked into: so a single costs a jump into few of many series. No memory is taken.
pub fn first_sharer(series: &Series, span: Span) -> Option<Instance<'_>>
    ensures { IsFirstSharer (series_said series.now) span.start span.end (option_map instance_of result) }
{
    if !may_meet(series, span) {
        return None;
    }
    series.first_sharer(span)
}
