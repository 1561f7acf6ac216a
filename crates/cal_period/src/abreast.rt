//! Two walks side by side: which of them goes on, and when neither can meet the other any more before a bound.
ghost use Rattle.cal_period.specs.Turns.{IsTurn};

use crate::walk::Walk;
use cal_events::Instance;

/// Which of two walks goes on, past its next instance.
#[derive(Clone, Copy)]
pub(crate) enum Turn<'a> {
    First(Instance<'a>),
    Second(Instance<'a>),
    /// Neither: what is to come of the one before the bound starts when all of the other is over.
    Over,
}

/// The turn of the walk whose next instance starts earlier, before the bound. Where one has none the other goes on as long as it can meet what
/// is behind.
pub(crate) fn turn_of<'a>(first: &Walk<'a>, second: &Walk<'a>, bound: i64) -> Turn<'a>
    ensures { IsTurn bound first.now second.now result }
{
    match (first.next_below(bound), second.next_below(bound)) {
        (Some(x), Some(y)) if y.start < x.start => Turn::Second(y),
        (Some(x), Some(_)) => Turn::First(x),
        (Some(x), None) if second.reaches(x.start) => Turn::First(x),
        (None, Some(y)) if first.reaches(y.start) => Turn::Second(y),
        _ => Turn::Over,
    }
}
