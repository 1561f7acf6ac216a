//! How often a folder has failed, and why it did last: for who says it.

ghost use Rattle.std.specs.Prelude.{◌≡◌, Option, is_some, nat_lt, option_copied};
ghost use Rattle.sched_devices.specs.declared.failure.Failure.{Failure};

use std::io::ErrorKind;

/// Why a call of a folder failed.
#[derive(Drop)]
pub struct Failure {
    /// The file that the call was about. None where it was about the folder itself, and where no memory was left for the name.
    pub name: Option<String>,
    pub kind: ErrorKind,
}

/// A folder that says why it failed last.
pub trait Explained {
    // Why it did, if it has failed.
    ghost reason: { Self → Option Failure };

    /// Why it failed last; None where it hasn't.
    fn last_failure(&self) -> Option<&Failure>
        ensures { option_copied result ≡ Self.reason self.now };
}

/// The failures of a folder.
#[derive(Drop)]
pub(crate) struct Failures {
    /// How many they are, up to the greatest u64.
    count: u64,
    last: Option<Failure>,
    ghost told: { is_some last ≡ nat_lt 0 count },
}

impl Failures {
    ghost use Rattle.std.specs.Prelude.{◌≡◌, ◌<◌, ◌⊎◌, option_copied, Some, None};

    /// None so far.
    pub(crate) fn none() -> Failures
        ensures count { result.count ≡ 0 }
        ensures last { result.last ≡ None }
    {
        Failures {
            count: 0,
            last: None,
        }
    }

    pub(crate) fn count(&self) -> u64
        ensures { result ≡ self.now.count }
    {
        self.count
    }

    pub(crate) fn last(&self) -> Option<&Failure>
        ensures { option_copied result ≡ self.now.last }
    {
        self.last.as_ref()
    }

    /// One more.
    pub(crate) fn add(&mut self, failure: Failure)
        ensures count { (self.old.count < self.new.count) ⊎ ((self.old.count ≡ 18_446_744_073_709_551_615) × (self.new.count ≡ self.old.count)) }
        ensures last { self.new.last ≡ Some failure }
    {
        *self = Failures {
            count: self.count.saturating_add(1),
            last: Some(failure),
        };
    }
}
