//! A calendar that hands on to another one that hands out its instances, and counts for itself.
ghost use Rattle.std.specs.Prelude.{ℕ};

use clash_check::Drawn;
use std::alloc::{AllocError, Global};

/// Hands on what another one hands out, and counts it.
#[derive(Drop)]
pub struct Counting<D: Drawn + Drop> {
    inner: D,
    counted: u64,
}

impl<D: Drawn + Drop> Counting<D> {
    /// Nothing is counted yet.
    pub fn of(inner: D) -> Counting<D> {
        Counting { inner, counted: 0 }
    }
}

impl<D: Drawn + Drop> Drawn for Counting<D> {
    ghost calendar = { λ c. D.calendar c.inner };

    ghost coming = { λ c. D.coming c.inner };

    ghost count = { λ c. c.counted };

    fn is_drawable(&self) {
        self.inner.is_drawable();
    }

    fn series(&self) -> u64 {
        self.inner.series()
    }

    fn singles(&self) -> u64 {
        self.inner.singles()
    }

    fn regular_from(&self, i: u64) -> i64 {
        self.inner.regular_from(i)
    }

    fn period_days(&self, i: u64) -> Option<u64> {
        self.inner.period_days(i)
    }

    fn width(&self, i: u64) -> i64 {
        self.inner.width(i)
    }

    fn residues(&self, alloc: Global, i: u64, m: u64) -> Result<Vec<u64>, AllocError> {
        self.inner.residues(alloc, i, m)
    }

    fn begin(&mut self, i: u64, from: i64, bound: i64) {
        self.inner.begin(i, from, bound);
    }

    fn draw(&mut self, i: u64) -> Option<(i64, i64)> {
        let counted = self.counted;
        match self.inner.draw(i) {
            Some(next) => {
                self.counted = counted.saturating_add(1);
                Some(next)
            }
            None => None,
        }
    }

    fn single(&mut self, k: u64) -> (i64, i64) {
        self.counted = self.counted.saturating_add(1);
        self.inner.single(k)
    }

    fn drawn(&self) -> u64 {
        self.counted
    }
}
