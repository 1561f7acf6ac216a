//! A search through the pairs of series of which one is new: those which are kept were clear. No memory is taken.
ghost use Rattle.std.specs.Prelude.{◌≡◌, ◌≤◌, ◌<◌, length, map, MatchOption};
ghost use Rattle.cal_events.specs.Series.{series_said};
ghost use Rattle.clash_cert.specs.Looked.{are_both_kept, IsRowLookedAt, AreRowsLookedAt, IsAtFound, IsFirstInRow, IsFirstFound};

use crate::choosing::number_at;
use cal_events::{Instance, Series};
use cal_period::{clash_alone, clash_of_pair};

/// Two instances that share an instant before the horizon, and the places of their series, counted from 0.
#[derive(Clone, Copy)]
pub(crate) struct Shared<'a> {
    pub(crate) i: usize,
    pub(crate) j: usize,
    pub(crate) first: Instance<'a>,
    pub(crate) second: Instance<'a>,
}

/// Two instances of the first pair that isn't clear, by the first series and then by the second; None where all pairs that it looks at are. A pair
/// is one series by itself, or with one after it. It passes over those that are both kept.
pub(crate) fn clash_of_new<'a>(series: &'a [Series], kept: &[Option<u32>]) -> Option<Shared<'a>>
    ensures { MatchOption result (AreRowsLookedAt kept.now (map series_said series.now) (length (map series_said series.now))) (IsFirstFound kept.now (map series_said series.now)) }
{
    for i in 0..series.len() {
        if let Some(shared) = clash_in_row(series, kept, i) {
            return Some(shared);
        }
    }
    None
}

/// Those of the first pair of one series, with itself and with those after it.
fn clash_in_row<'a>(series: &'a [Series], kept: &[Option<u32>], i: usize) -> Option<Shared<'a>>
    requires { i < length series.now }
    ensures { MatchOption result (IsRowLookedAt kept.now (map series_said series.now) i (length (map series_said series.now))) (IsFirstInRow kept.now (map series_said series.now) i) }
{
    for j in i..series.len() {
        if let Some((first, second)) = clash_at(series, kept, i, j) {
            return Some(Shared {
                i,
                j,
                first,
                second,
            });
        }
    }
    None
}

/// Those of one pair.
fn clash_at<'a>(
    series: &'a [Series],
    kept: &[Option<u32>],
    i: usize,
    j: usize,
) -> Option<(Instance<'a>, Instance<'a>)>
    requires { (i ≤ j) × (j < length series.now) }
    ensures { IsAtFound kept.now (map series_said series.now) i j result }
{
    if are_kept(kept, i, j) {
        return None;
    }
    if i == j {
        clash_alone(&series[i])
    } else {
        clash_of_pair(&series[i], &series[j])
    }
}

/// Have the series at two places old numbers?
fn are_kept(kept: &[Option<u32>], i: usize, j: usize) -> bool
    ensures { result ≡ are_both_kept kept.now i j }
{
    number_at(kept, i).is_some() && number_at(kept, j).is_some()
}
