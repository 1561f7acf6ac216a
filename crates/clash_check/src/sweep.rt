//! A sweep through the instances of two series, or of one, that start before a bound. No memory is taken.
ghost use Rattle.std.specs.Prelude.{ℕ, ℤ, List, ◌≡◌, ◌≢◌, ◌+◌, length, MatchBool};
ghost use Rattle.profile.specs.checker.Instances.{Instance};
ghost use Rattle.profile.specs.checker.Certificates.{IsSeriesAt};
ghost use Rattle.profile.specs.events.Events.{Event};
ghost use Rattle.clash_check.specs.Counted.{AreBelow};
ghost use Rattle.clash_check.specs.Draws.{IsPlaceIn};
ghost use Rattle.clash_check.specs.Sweeps.{HaveShared, AreApart, HasShared, IsApart, IsCountDrawn};

use crate::drawn::Drawn;
use crate::walk::{Turn, Walk, turn_of};

/// Does an instance of the one share an instant before the horizon with an instance of the other? On no all of both were drawn, on yes some.
pub(crate) fn sweep_pair<D: Drawn>(drawn: &mut D, i: u64, j: u64, bound: i64) -> bool
    requires first { IsPlaceIn (length (D.calendar drawn.old).series) i }
    requires second { IsPlaceIn (length (D.calendar drawn.old).series) j }
    requires two { i ≢ j }
    ensures calendar { D.calendar drawn.new ≡ D.calendar drawn.old }
    ensures shared { (a b : Event) → IsSeriesAt (D.calendar drawn.old) i a → IsSeriesAt (D.calendar drawn.old) j b
        → MatchBool result (HaveShared a b bound) (AreApart a b bound) }
    ensures count { (a b : Event) → IsSeriesAt (D.calendar drawn.old) i a → IsSeriesAt (D.calendar drawn.old) j b
        → (xs ys : List Instance) → AreBelow a bound xs → AreBelow b bound ys → IsCountDrawn result (D.count drawn.old) (D.count drawn.new) (length xs + length ys) }
{
    drawn.is_drawable();
    let mut first = Walk::begin(drawn, i, bound);
    let mut second = Walk::begin(drawn, j, bound);
    loop {
        match turn_of(&first, &second) {
            Turn::First(next) => {
                if second.is_met_by(next) {
                    return true;
                }
                first = first.past(drawn, next);
            }
            Turn::Second(next) => {
                if first.is_met_by(next) {
                    return true;
                }
                second = second.past(drawn, next);
            }
            Turn::Over => return false,
        }
    }
}

/// Do two instances of a series share an instant before the horizon? On no all of it were drawn, on yes some.
pub(crate) fn sweep_alone<D: Drawn>(drawn: &mut D, i: u64, bound: i64) -> bool
    requires { IsPlaceIn (length (D.calendar drawn.old).series) i }
    ensures calendar { D.calendar drawn.new ≡ D.calendar drawn.old }
    ensures shared { (a : Event) → IsSeriesAt (D.calendar drawn.old) i a → MatchBool result (HasShared a bound) (IsApart a bound) }
    ensures count { (a : Event) → IsSeriesAt (D.calendar drawn.old) i a
        → (xs : List Instance) → AreBelow a bound xs → IsCountDrawn result (D.count drawn.old) (D.count drawn.new) (length xs) }
{
    drawn.is_drawable();
    let mut walk = Walk::begin(drawn, i, bound);
    while let Some(next) = walk.next {
        if walk.is_met_by(next) {
            return true;
        }
        walk = walk.past(drawn, next);
    }
    false
}
