//! The entry of a pair of series, judged by what is drawn of them, or by their residues. Only residues take memory.
ghost use Rattle.std.specs.Prelude.{ℕ, List, [], ◌∷◌, ◌≡◌, not, length, IfOk, MatchBool};
ghost use Rattle.profile.specs.checker.Instances.{Instance, AreClear, HasClash};
ghost use Rattle.profile.specs.checker.Certificates.{IsSeriesAt, IsPair, IsEntry, EntryHolds, EntryFails, Span as SaidSpan};
ghost use Rattle.profile.specs.events.Events.{Event};
ghost use Rattle.profile.specs.events.Spans.{SpanHolds, SpanFails, StartsBelow};
ghost use Rattle.profile.specs.text.Values.{IsClockSeconds};
ghost use Rattle.clash_cert.specs.Texts.{entry_said};
ghost use Rattle.clash_check.specs.Counted.{AreBelow, IsEntryCount, pair_count};
ghost use Rattle.clash_check.specs.Entries.{IsEntryDrawn};
ghost use Rattle.clash_check.specs.Sweeps.{IsCountDrawn};

use crate::drawn::Drawn;
use crate::residues::residues_hold;
use crate::span::{greatest_width, is_span};
use crate::sweep::{sweep_alone, sweep_pair};
use cal_events::HORIZON;
use cal_period::span_end;
use clash_cert::Entry;
use std::alloc::{AllocError, Global};

/// Does an entry hold of two series? RES draws nothing, and takes memory for their residues. Fails only when out of it.
pub(crate) fn entry_holds<D: Drawn>(
    alloc: Global,
    drawn: &mut D,
    entry: Entry,
    i: u64,
    j: u64,
) -> Result<bool, AllocError>
    requires pair { IsPair (length (D.calendar drawn.old).series) i j }
    requires entry { IsEntry (entry_said entry) }
    ensures calendar { D.calendar drawn.new ≡ D.calendar drawn.old }
    ensures holds { IfOk result (λ r. MatchBool r (EntryHolds (D.calendar drawn.old) i j (entry_said entry)) (EntryFails (D.calendar drawn.old) i j (entry_said entry))) }
    ensures count { IfOk result (λ r. (n : ℕ) → IsEntryCount (D.calendar drawn.old) i j (entry_said entry) n
        → IsEntryDrawn (D.calendar drawn.old) i j (entry_said entry) r (D.count drawn.old) (D.count drawn.new) n) }
{
    // Only for the proof: each instance starts before the horizon.
    drawn.is_drawable();
    match entry {
        Entry::End => Ok(are_clear(drawn, i, j, HORIZON)),
        Entry::Span { from, days } => Ok(span_holds(drawn, i, j, from.instant(), days)),
        Entry::Res(m) => residues_hold(alloc, drawn, i, j, m),
        // no pair has it
        Entry::Group(_) => unreachable!(),
    }
}

/// Does a span of so many days from an instant on settle two series? Nothing is drawn where it is none of theirs.
fn span_holds<D: Drawn>(drawn: &mut D, i: u64, j: u64, from: i64, days: u64) -> bool
    requires pair { IsPair (length (D.calendar drawn.old).series) i j }
    requires from { IsClockSeconds from }
    ensures calendar { D.calendar drawn.new ≡ D.calendar drawn.old }
    ensures holds { (a b : Event) → IsSeriesAt (D.calendar drawn.old) i a → IsSeriesAt (D.calendar drawn.old) j b
        → MatchBool result (SpanHolds (a ∷ []) (b ∷ []) from days) (SpanFails (a ∷ []) (b ∷ []) from days) }
    ensures count { (n : ℕ) → IsEntryCount (D.calendar drawn.old) i j (SaidSpan from days) n
        → IsEntryDrawn (D.calendar drawn.old) i j (SaidSpan from days) result (D.count drawn.old) (D.count drawn.new) n }
{
    let both = [i, j];
    if !is_span(drawn, &both, from, days) {
        return false;
    }
    let width = greatest_width(drawn, &both);
    are_clear(drawn, i, j, span_end(from, days, width))
}

/// Do no two instances of two series clash, of those that start before a bound? Where the series are one, of any two of its instances. On yes
/// all of them were drawn, on no some.
fn are_clear<D: Drawn>(drawn: &mut D, i: u64, j: u64, bound: i64) -> bool
    requires { IsPair (length (D.calendar drawn.old).series) i j }
    ensures calendar { D.calendar drawn.new ≡ D.calendar drawn.old }
    ensures clear { (a b : Event) → IsSeriesAt (D.calendar drawn.old) i a → IsSeriesAt (D.calendar drawn.old) j b
        → MatchBool result (AreClear (StartsBelow a bound) (StartsBelow b bound)) (HasClash (StartsBelow a bound) (StartsBelow b bound)) }
    ensures count { (a b : Event) → IsSeriesAt (D.calendar drawn.old) i a → IsSeriesAt (D.calendar drawn.old) j b
        → (xs ys : List Instance) → AreBelow a bound xs → AreBelow b bound ys
        → IsCountDrawn (not result) (D.count drawn.old) (D.count drawn.new) (pair_count i j (length xs) (length ys)) }
{
    drawn.is_drawable();
    if i == j {
        !sweep_alone(drawn, i, bound)
    } else {
        !sweep_pair(drawn, i, j, bound)
    }
}
