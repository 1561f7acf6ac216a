//! Up to where the starts of two series, or of one, settle whether they are clear.
ghost use Rattle.cal_events.specs.Series.{series_said};
ghost use Rattle.cal_period.specs.Onward.{SettlesPair};
ghost use Rattle.cal_period.specs.Spanning.{AreComparedTo};

use crate::law::series_repeat;
use crate::span::span_of_pair;
use cal_events::{HORIZON, Series, instances_last, known_by_start, series_are_said};
use cal_zones::zones_repeat;

/// Where no two instances that start before this instant share one, none do at all: the end of one common period and the greater width after it,
/// where that is before the horizon, else the horizon.
pub(crate) fn settled_by(a: &Series, b: &Series) -> i64
    ensures settles { SettlesPair (series_said a.now) (series_said b.now) result }
    ensures least { AreComparedTo (series_said a.now) (series_said b.now) result }
{
    known_by_start();
    series_are_said();
    instances_last();
    zones_repeat();
    series_repeat();
    match span_of_pair(a, b) {
        Some(span) => span.bound,
        None => HORIZON,
    }
}
