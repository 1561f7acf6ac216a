//! Series beside what else a room has confirmed: which instances share an instant. Only what is new is looked at.

ghost use Rattle.std.specs.Prelude.{◌≡◌, ◌++◌, ◌≤◌, length, map, Contains, IfOk, OnOk};
ghost use Rattle.cal_events.specs.declared.series.Series.{Series};
ghost use Rattle.room_books.specs.Meeting.{Recurs};
ghost use Rattle.room_books.specs.Recurring.{AreBeside, AreClearFrom, IsSharedByItself, IsBesideOne, keyed_of};

use crate::decide::SharedInstant;
use crate::meeting::MeetingKey;
use cal_events::{Instance, Series, Single, Span};
use cal_period::{NewSeries, clash_alone, first_sharer};
use std::alloc::{AllocError, Global};

/// A series, and the name of its meeting.
#[derive(Clone, Copy)]
pub(crate) struct Recurring<'a> {
    pub key: &'a MeetingKey,
    pub series: &'a Series,
}

/// Puts series of a meeting after others.
pub(crate) fn push_all<'a>(
    all: &mut Vec<Recurring<'a>>,
    key: &'a MeetingKey,
    series: &[&'a Series],
) -> Result<(), AllocError>
    ensures { OnOk result (map keyed_of all.new.items ≡ map keyed_of all.old.items ++ map (λ one. (key.now, one.now)) series.now) }
{
    for one in series {
        all.push(Recurring { key, series: one })?;
    }
    Ok(())
}

/// One of these singles, and an instance of one of these series that shares an instant with it. For each single it jumps into each series.
pub(crate) fn single_beside<'a>(
    singles: &[Single],
    all: &[Recurring<'a>],
) -> Option<SharedInstant<'a>>
    ensures { AreBeside (Contains singles.now) all.now result }
{
    for single in singles {
        if let Some((key, booked)) = series_at(*single, all) {
            return Some(SharedInstant {
                asked: *single,
                other: key,
                booked,
            });
        }
    }
    None
}

/// An instance of one of these series that shares an instant with a single.
fn series_at<'a>(single: Single, all: &[Recurring<'a>]) -> Option<(&'a MeetingKey, Single)>
    ensures { IsBesideOne single all.now result }
{
    for recurring in all {
        if let Some(instance) = first_sharer(recurring.series, single.span) {
            return Some((recurring.key, as_single(&instance)));
        }
    }
    None
}

/// An instance of a series from a place on, and one that shares an instant with it: of a series before that place, or of its own. Fails only when out
/// of memory.
pub(crate) fn clash_from<'a>(
    alloc: Global,
    all: &[Recurring<'a>],
    from: usize,
) -> Result<Option<SharedInstant<'a>>, AllocError>
    requires { from ≤ length all.now }
    ensures { IfOk result (AreClearFrom all.now from) }
{
    for place in from..all.len() {
        let Recurring { key, series } = all[place];
        if let Some(shared) = clash_with(alloc, series, &all[..place])? {
            return Ok(Some(shared));
        }
        if let Some((asked, booked)) = alone(series) {
            return Ok(Some(SharedInstant {
                asked,
                other: key,
                booked,
            }));
        }
    }
    Ok(None)
}

/// An instance of a series, and one of one of these series that shares an instant with it. Fails only when out of memory.
fn clash_with<'a>(
    alloc: Global,
    series: &Series,
    all: &[Recurring<'a>],
) -> Result<Option<SharedInstant<'a>>, AllocError>
    ensures { IfOk result (AreBeside (Recurs series.now) all.now) }
{
    let mut new = NewSeries::of(alloc, series);
    for recurring in all {
        if let Some((asked, booked)) = new.clash_with(recurring.series)? {
            return Ok(Some(SharedInstant {
                asked: as_single(&asked),
                other: recurring.key,
                booked: as_single(&booked),
            }));
        }
    }
    Ok(None)
}

/// Two instances of a series that share an instant.
fn alone(series: &Series) -> Option<(Single, Single)>
    ensures { IsSharedByItself series.now result }
{
    // Only for the proof: an instance of a series is known by its start.
    cal_events::known_by_start();
    let (first, second) = clash_alone(series)?;
    Some((as_single(&first), as_single(&second)))
}

/// An instance by its original start and its span.
pub(crate) fn as_single(instance: &Instance<'_>) -> Single
    ensures slot { result.slot ≡ instance.now.key.slot }
    ensures start { result.span.start ≡ instance.now.start }
    ensures end { result.span.end ≡ instance.now.end }
{
    Single {
        slot: instance.key.slot,
        span: Span {
            start: instance.start,
            end: instance.end,
        },
    }
}
