//! What the checker draws from: a calendar that hands out its instances one by one, and counts them.
ghost use Rattle.std.specs.Prelude.{ℕ, ℤ, ◌≡◌, ◌≢◌, ◌↔◌, ◌^◌, ◌≤◌, ◌<◌, ◌≤ℤ◌, ◌<ℤ◌, pos, length, Contains, MatchOption, IfOk, IfSome};
ghost use Rattle.profile.specs.checker.Instances.{Instance};
ghost use Rattle.profile.specs.checker.Certificates.{IsSeriesAt};
ghost use Rattle.profile.specs.events.Events.{Event};
ghost use Rattle.profile.specs.events.Confirmed.{Confirmed};
ghost use Rattle.profile.specs.events.Residues.{AreResidues, IsModulus};
ghost use Rattle.profile.specs.events.Spans.{IsLeastPast, HasNoPeriodOf, IsLeastPeriodOf, IsWidthOf};
ghost use Rattle.clash_check.specs.Draws.{IsPlaceIn, IsSingleAt, IsSpanBetween, IsDrawable, drawn_more, one_if};

use std::alloc::{AllocError, Global};

/// A calendar that hands out its instances one by one. It never changes. Its series and its singles are counted from 1, in its order.
/// Only `residues` takes memory.
pub trait Drawn {
    // The calendar.
    ghost calendar: { Self → Confirmed };

    // An instance of a series that starts and ends then is still to come.
    ghost coming: { Self → ℕ → ℤ → ℤ → Type 0 };

    // How many instances were handed out, 2^64-1 at most.
    ghost count: { Self → ℕ };

    /// What holds of the instances of a calendar. Only for the proof: there is nothing to do.
    fn is_drawable(&self)
        ensures { IsDrawable (Self.calendar self.now) };

    /// How many series there are.
    fn series(&self) -> u64
        ensures { result ≡ length (Self.calendar self.now).series };

    /// How many singles there are.
    fn singles(&self) -> u64
        ensures { result ≡ length (Self.calendar self.now).singles };

    /// The least instant from which on a series does the same after each period: seconds from 1970-01-01T00:00:00Z.
    fn regular_from(&self, i: u64) -> i64
        requires { IsPlaceIn (length (Self.calendar self.now).series) i }
        ensures { (series : Event) → IsSeriesAt (Self.calendar self.now) i series → IsLeastPast series result };

    /// After how many days a series does the same; None where they are more than 2,932,897.
    fn period_days(&self, i: u64) -> Option<u64>
        requires { IsPlaceIn (length (Self.calendar self.now).series) i }
        ensures { (series : Event) → IsSeriesAt (Self.calendar self.now) i series → MatchOption result (HasNoPeriodOf series) (IsLeastPeriodOf series) };

    /// How long an instance of a series can last, in seconds.
    fn width(&self, i: u64) -> i64
        requires { IsPlaceIn (length (Self.calendar self.now).series) i }
        ensures width { (series : Event) → IsSeriesAt (Self.calendar self.now) i series → IsWidthOf series result }
        ensures range { (pos 0 ≤ℤ result) × (result <ℤ pos (2 ^ 50)) };

    /// The residues of a series modulo m seconds. Fails only when out of memory.
    fn residues(&self, alloc: Global, i: u64, m: u64) -> Result<Vec<u64>, AllocError>
        requires place { IsPlaceIn (length (Self.calendar self.now).series) i }
        requires modulus { IsModulus m }
        ensures { IfOk result (λ all. (series : Event) → IsSeriesAt (Self.calendar self.now) i series → AreResidues series m all.items) };

    /// From now on the instances of a series come that start from an instant on and before a bound.
    fn begin(&mut self, i: u64, from: i64, bound: i64)
        requires { IsPlaceIn (length (Self.calendar self.old).series) i }
        ensures calendar { Self.calendar self.new ≡ Self.calendar self.old }
        ensures count { Self.count self.new ≡ Self.count self.old }
        ensures coming { (series : Event) → IsSeriesAt (Self.calendar self.old) i series
            → (start end : ℤ) → Self.coming self.new i start end ↔ IsSpanBetween series from bound start end }
        ensures others { (j : ℕ) → j ≢ i → (start end : ℤ) → Self.coming self.new j start end ↔ Self.coming self.old j start end };

    /// Start and end of the next instance of a series; None where no more comes.
    fn draw(&mut self, i: u64) -> Option<(i64, i64)>
        requires { IsPlaceIn (length (Self.calendar self.old).series) i }
        ensures calendar { Self.calendar self.new ≡ Self.calendar self.old }
        ensures count { Self.count self.new ≡ drawn_more (Self.count self.old) (one_if result) }
        // It is the first of those that come, or none come.
        ensures drawn { MatchOption result ((start end : ℤ) → Self.coming self.old i start end → ⊥)
            (λ p. Self.coming self.old i p.0 p.1 × ((start end : ℤ) → Self.coming self.old i start end → p.0 ≤ℤ start)) }
        // Those that start later still come.
        ensures coming { (start end : ℤ) → Self.coming self.new i start end ↔ (Self.coming self.old i start end × IfSome result (λ p. p.0 <ℤ start)) }
        ensures others { (j : ℕ) → j ≢ i → (start end : ℤ) → Self.coming self.new j start end ↔ Self.coming self.old j start end };

    /// Start and end of a single.
    fn single(&mut self, k: u64) -> (i64, i64)
        requires { IsPlaceIn (length (Self.calendar self.old).singles) k }
        ensures calendar { Self.calendar self.new ≡ Self.calendar self.old }
        ensures count { Self.count self.new ≡ drawn_more (Self.count self.old) 1 }
        ensures is { (single : Instance) → IsSingleAt (Self.calendar self.old) k single → (result.0 ≡ single.start) × (result.1 ≡ single.end) }
        ensures coming { (j : ℕ) (start end : ℤ) → Self.coming self.new j start end ↔ Self.coming self.old j start end };

    /// How many instances were handed out, 2^64-1 at most.
    fn drawn(&self) -> u64
        ensures { result ≡ Self.count self.now };
}
