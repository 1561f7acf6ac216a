//! A search for a clash of two series. Residues settle most of them. Else, where both go by one zone and never meet by its clocks, it looks at what
//! starts near onsets; else it goes past the starts of both from where the later of them begins, less a width, to the end of one common period and a
//! width after it, or of the one that ends first. No memory is taken.
ghost use Rattle.std.specs.Prelude.{ℤ, ◌+ℤ◌, ◌≤ℤ◌};
ghost use Rattle.profile.specs.events.Spans.{IsWidthOf};
ghost use Rattle.cal_events.specs.Series.{series_said};
ghost use Rattle.cal_period.specs.Onward.{IsSharedByPair, IsSharedBelow, IsFirstStart, MeetFrom, IsEntryBefore};

use crate::abreast::{Turn, turn_of};
use crate::by_residues::are_clear_by_residues;
use crate::onsets::{clash_near_onsets, zone_apart};
use crate::settled::settled_by;
use crate::walk::Walk;
use cal_events::{Instance, Series, known_by_start};

/// Two instances, one of each series, that share an instant before the horizon; None where the series are clear. It stops at the first clash that it
/// finds. Residues settle most series without a look at an instance. No memory is taken.
pub fn clash_of_pair<'a>(a: &'a Series, b: &'a Series) -> Option<(Instance<'a>, Instance<'a>)>
    ensures { IsSharedByPair (series_said a.now) (series_said b.now) result }
{
    if are_clear_by_residues(a, b) {
        return None;
    }
    clash_below(a, b, settled_by(a, b))
}

/// Two instances, one of each series, that start before a bound and share an instant. Where both series go by one zone, and never meet by its clocks,
/// only what starts near its onsets is looked at.
pub(crate) fn clash_below<'a>(
    a: &'a Series,
    b: &'a Series,
    bound: i64,
) -> Option<(Instance<'a>, Instance<'a>)>
    ensures { IsSharedBelow (series_said a.now) (series_said b.now) bound result }
{
    match zone_apart(a, b) {
        Some(zone) => clash_near_onsets(a, b, &zone, bound),
        None => clash_of_starts(a, b, bound),
    }
}

/// Two that start before a bound, looked for from where the later of the series begins.
fn clash_of_starts<'a>(
    a: &'a Series,
    b: &'a Series,
    bound: i64,
) -> Option<(Instance<'a>, Instance<'a>)>
    ensures { IsSharedBelow (series_said a.now) (series_said b.now) bound result }
{
    known_by_start();
    let first = first_start(a)?;
    let second = first_start(b)?;
    clash_onward(a, b, first.max(second), bound)
}

/// When the first instance of a series starts, if it has one.
pub(crate) fn first_start(series: &Series) -> Option<i64>
    ensures { IsFirstStart (series_said series.now) result }
{
    known_by_start();
    let mut starts = series.starts(i64::MIN);
    let first = starts.next()?;
    Some(first.start)
}

/// Two instances, one of each series, that start before a bound and share an instant, where the later of the series begins at an instant.
fn clash_onward<'a>(
    a: &'a Series,
    b: &'a Series,
    from: i64,
    bound: i64,
) -> Option<(Instance<'a>, Instance<'a>)>
    requires { MeetFrom (series_said a.now) (series_said b.now) from }
    ensures { IsSharedBelow (series_said a.now) (series_said b.now) bound result }
{
    known_by_start();
    let mut of_a = a.starts(entry(a, from));
    let mut of_b = b.starts(entry(b, from));
    let mut first = Walk::to(of_a.next());
    let mut second = Walk::to(of_b.next());
    loop {
        match turn_of(&first, &second, bound) {
            Turn::First(next) => {
                if let Some(last) = second.met_by(next) {
                    return Some((next, last));
                }
                first = first.past(next, of_a.next());
            }
            Turn::Second(next) => {
                if let Some(last) = first.met_by(next) {
                    return Some((last, next));
                }
                second = second.past(next, of_b.next());
            }
            Turn::Over => return None,
        }
    }
}

/// Where to enter a series: what starts earlier is over by an instant. It is no more than a width before that.
pub(crate) fn entry(series: &Series, by: i64) -> i64
    ensures over { IsEntryBefore (series_said series.now) by result }
    ensures near { (width : ℤ) × IsWidthOf (series_said series.now) width × (by ≤ℤ (result +ℤ width)) }
{
    known_by_start();
    by.saturating_sub(series.width())
}
