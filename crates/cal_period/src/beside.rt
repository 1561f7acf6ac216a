//! Singles of a calendar beside its series. No memory is taken.
ghost use Rattle.std.specs.Prelude.{map};
ghost use Rattle.cal_events.specs.Series.{series_said};
ghost use Rattle.cal_period.specs.Besides.{IsBesideOr, IsSingleOr, IsSharerOr};

use crate::sharer;
use cal_events::{Calendar, Instance, Series, Span};

/// A single and an instance of a series that share an instant before the horizon, and the places of the single and of the series, counted
/// from 0.
#[derive(Clone, Copy)]
pub struct Beside<'a> {
    pub single: usize,
    pub series: usize,
    pub instance: Instance<'a>,
}

/// Looks for a single that shares an instant with an instance of a series. For each single it jumps into each series once.
pub fn single_beside_series(calendar: &Calendar) -> Option<Beside<'_>>
    ensures { IsBesideOr calendar.now result }
{
    for single in 0..calendar.single_count() as usize {
        if let Some(beside) = beside_single(calendar, single) {
            return Some(beside);
        }
    }
    None
}

/// The first series of which an instance shares an instant with the single at a place.
fn beside_single(calendar: &Calendar, single: usize) -> Option<Beside<'_>>
    ensures { IsSingleOr calendar.now single result }
{
    let own = calendar.single(single)?;
    let span = Span {
        start: own.start,
        end: own.end,
    };
    let (series, instance) = first_sharer(calendar.series(), span)?;
    Some(Beside {
        single,
        series,
        instance,
    })
}

/// The first of the series of which an instance shares an instant before the horizon with a span, by its place, and that instance.
fn first_sharer(series: &[Series], span: Span) -> Option<(usize, Instance<'_>)>
    ensures { IsSharerOr (map series_said series.now) span.start span.end result }
{
    for place in 0..series.len() {
        if let Some(instance) = sharer::first_sharer(&series[place], span) {
            return Some((place, instance));
        }
    }
    None
}
