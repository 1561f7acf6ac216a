//! A group of series, of which a certificate says that no two of their instances clash.
ghost use Rattle.std.specs.Prelude.{◌≡◌, ◌↔◌, ◌<◌, AllPairs, Contains, IsTrue, slice_index_or};
ghost use Rattle.clash_cert.specs.Texts.{group_said};
ghost use Rattle.profile.specs.checker.Certificates.{first_of, second_of};

use ical_values::Stamp;

/// Series that do the same after so many days, from an instant on, and of which no two instances share an instant up to the end of that period
/// and the greatest width after it, of one series or of two.
#[derive(Drop)]
pub struct Group {
    pub from: Stamp,
    pub days: u64,
    /// Their numbers in the calendar, counted from 1, ascending.
    pub members: Vec<u64>,
}

impl Group {
    /// Is the series of this number one of it?
    pub(crate) fn has(&self, number: u64) -> bool
        ensures { AllPairs ◌<◌ (group_said self.now).members → IsTrue result ↔ Contains (group_said self.now).members number }
    {
        has_number(&self.members, number)
    }

    /// Its first two numbers, by which it is named; 0 where there are fewer.
    pub fn name(&self) -> (u64, u64)
        ensures first { result.0 ≡ first_of (group_said self.now) }
        ensures second { result.1 ≡ second_of (group_said self.now) }
    {
        (self.number_at(0), self.number_at(1))
    }

    /// The number at a place, 0 where there is none.
    fn number_at(&self, place: usize) -> u64
        ensures { result ≡ slice_index_or self.now.members.items place 0 }
    {
        match self.members.get(place) {
            Some(number) => *number,
            None => 0,
        }
    }
}

/// Is a number one of these, which ascend?
pub(crate) fn has_number(numbers: &[u64], number: u64) -> bool
    ensures { AllPairs ◌<◌ numbers.now → IsTrue result ↔ Contains numbers.now number }
{
    let place = numbers.partition_point(|one| *one < number);
    match numbers.get(place) {
        Some(one) => *one == number,
        None => false,
    }
}
