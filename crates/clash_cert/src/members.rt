//! Which series are in groups: of each the group, and up to which one the series that come after it are in that group too. So the pairs that have
//! a line are gone through without a look at each pair of a group.
ghost use Rattle.std.specs.Prelude.{ℕ, List, ◌≡◌, ◌↔◌, ◌<◌, ◌≤◌, ◌++◌, [], ◌∷◌, AllPairs, IsTrue, MatchOption, OnOk, is_some, length, suc};
ghost use Rattle.std.specs.List.{list_any};
ghost use Rattle.profile.specs.checker.Certificates.{Group, IsPair};
ghost use Rattle.clash_cert.specs.Walked.{AreApart, IsApartIn, IsNextPairAfter, IsNextFrom, IsOfGroups, IsRunEnd, member_of};

use std::alloc::{AllocError, Global};
use std::collections::BTreeMap;

/// A series that is in a group.
#[derive(Clone, Copy)]
struct Member {
    /// The place of the group.
    group: usize,
    /// This number and those after it, up to this last one, are in the group.
    last: u64,
}

/// Numbers that follow each other, from the first to the last.
#[derive(Clone, Copy)]
struct Run {
    first: u64,
    last: u64,
}

/// The series that are in groups, by their numbers.
#[derive(Drop)]
pub(crate) struct Members {
    by_number: BTreeMap<u64, Member>,
}

impl Members {
    /// No series is in a group.
    pub(crate) fn none(alloc: Global) -> Members
        ensures { IsOfGroups [] result }
    {
        Members {
            by_number: BTreeMap::new(alloc),
        }
    }

    /// Is one of these series in a group?
    pub(crate) fn has_any(&self, numbers: &[u64]) -> bool
        ensures { result ≡ list_any (λ i. is_some (member_of self.now i)) numbers.now }
    {
        numbers
            .iter()
            .any(|number| self.by_number.contains_key(number))
    }

    /// Adds the series of a group, ascending, of which none is in a group yet. Fails only when out of memory.
    pub(crate) fn add(&mut self, group: usize, numbers: &[u64]) -> Result<(), AllocError>
        ensures { OnOk result ((groups : List Group) (added : Group) → IsOfGroups groups self.old → group ≡ length groups → added.members ≡ numbers.now
            → AllPairs ◌<◌ numbers.now → AreApart groups numbers.now → IsOfGroups (groups ++ added ∷ []) self.new) }
    {
        let mut after = None;
        let mut left = numbers;
        while let [front @ .., number] = left {
            let last = end_of_run(after, *number);
            self.by_number.insert(*number, Member { group, last })?;
            after = Some(Run {
                first: *number,
                last,
            });
            left = front;
        }
        Ok(())
    }

    /// The first pair of so many series that has a line.
    pub(crate) fn first_pair(&self, series: u64) -> Option<(u64, u64)>
        ensures { (groups : List Group) → IsOfGroups groups self.now → IsNextPairAfter 0 0 series groups result }
    {
        self.pair_from(series, 1, 1)
    }

    /// The first that has one after a pair.
    pub(crate) fn pair_after(&self, series: u64, i: u64, j: u64) -> Option<(u64, u64)>
        ensures { (groups : List Group) → IsOfGroups groups self.now → IsPair series i j → IsNextPairAfter i j series groups result }
    {
        if j < series {
            return self.pair_from(series, i, j + 1);
        }
        if i < series {
            return self.pair_from(series, i + 1, i + 1);
        }
        None
    }

    /// The first that has one, from a pair on.
    fn pair_from(&self, series: u64, first: u64, second: u64) -> Option<(u64, u64)>
        ensures { (groups : List Group) → IsOfGroups groups self.now → 0 < first → first ≤ second → IsNextFrom first second series groups result }
    {
        if series < first {
            return None;
        }
        let mut i = first;
        let mut j = second;
        loop {
            if let Some(place) = self.apart_from(series, i, j) {
                return Some((i, place));
            }
            if i == series {
                return None;
            }
            i += 1;
            j = i;
        }
    }

    /// The first number from one on, up to that of the last series, that isn't in the group of another.
    fn apart_from(&self, series: u64, i: u64, j: u64) -> Option<u64>
        ensures { (groups : List Group) → IsOfGroups groups self.now → IsApartIn series groups i j result }
    {
        if series < j {
            return None;
        }
        let Some(first) = self.member(i) else {
            return Some(j);
        };
        let Some(second) = self.member(j) else {
            return Some(j);
        };
        if first.group == second.group {
            after_run(series, second.last)
        } else {
            Some(j)
        }
    }

    /// What is known of the series of this number, if it is in a group.
    fn member(&self, number: u64) -> Option<Member>
        ensures { result ≡ member_of self.now number }
    {
        self.by_number.get(&number).copied()
    }
}

/// The last number of the run that begins with this one, where another run comes after it.
fn end_of_run(after: Option<Run>, number: u64) -> u64
    ensures { IsRunEnd after number result }
{
    match after {
        Some(run) if follows(number, run.first) => run.last,
        _ => number,
    }
}

/// Is a number the next one?
fn follows(number: u64, next: u64) -> bool
    ensures { IsTrue result ↔ (next ≡ suc number) }
{
    number < next && next - number == 1
}

/// The number after a last one, if it is that of a series.
fn after_run(series: u64, last: u64) -> Option<u64>
    ensures { MatchOption result (series ≤ last) (λ next. (next ≡ suc last) × (next ≤ series)) }
{
    if last < series { Some(last + 1) } else { None }
}
