//! Equal values side by side: in a list in order two equal ones are.

ghost use Rattle.std.specs.Prelude.{MatchBool};
ghost use Rattle.cal_events.specs.Neighbours.{HaveEqual, HaveNoEqual};

/// Whether two values side by side are equal.
pub(crate) fn has_equal_neighbours<T: PartialEq>(values: &[T]) -> bool
    ensures { MatchBool result (HaveEqual T.eq values.now) (HaveNoEqual T.eq values.now) }
{
    for next in 1..values.len() {
        if values[next - 1] == values[next] {
            return true;
        }
    }
    false
}
