//! The calls of a folder in memory: which were made, which are to fail, and how many failed.

ghost use Rattle.std.specs.Prelude.{◌≡◌, ◌<◌, ◌≤◌, ◌⊎◌, ◌+◌, ◌++◌, ◌∷◌, [], true, false, length, None, Some, IfErr, OnOk, OnErr, IsErrOf};
ghost use Rattle.sched_devices.specs.Calls.{IsNotDone, fails, fails_when_done, is_from, is_number, one_more};
ghost use Rattle.sched_devices.specs.Folder.{HasCause};
ghost use Rattle.sched_devices.specs.declared.folder.FolderFault.TheVariants.{Device, Missing, Exists, Memory};

use crate::folder::FolderFault;
use std::alloc::Global;

/// A call of a folder.
#[derive(Debug, PartialEq, Eq, Drop)]
pub enum Call {
    /// The names were asked for.
    Names,
    /// The octets under this name were asked for.
    Read(String),
    /// The temporary was written.
    WriteTemp,
    /// The temporary was synced.
    SyncTemp,
    /// The temporary was published under this name.
    Publish(String),
    /// The folder was synced.
    SyncDir,
}

/// Which calls fail. They are counted from 1.
#[derive(Clone, Copy)]
pub(crate) struct Plan {
    /// This one fails, and does nothing.
    pub(crate) at: Option<u64>,
    /// This one is done, and fails then.
    pub(crate) after: Option<u64>,
    /// From this one on each fails, and does nothing.
    pub(crate) from: Option<u64>,
}

impl Plan {
    /// None fails.
    const NONE: Plan = Plan {
        at: None,
        after: None,
        from: None,
    };

    /// Whether the call of this number fails, and does nothing.
    fn fails(&self, call: u64) -> bool
        ensures { result ≡ fails self.now call }
    {
        is_number(self.at, call) || is_from(self.from, call)
    }
}

/// Whether this is the number of a call.
fn is_number(number: Option<u64>, call: u64) -> bool
    ensures { result ≡ is_number number call }
{
    match number {
        Some(number) => number == call,
        None => false,
    }
}

/// Whether a call is the first of some or a later one.
fn is_from(first: Option<u64>, call: u64) -> bool
    ensures { result ≡ is_from first call }
{
    match first {
        Some(first) => first <= call,
        None => false,
    }
}

/// The calls so far, those that are to fail, and how many failed, up to the greatest u64.
#[derive(Drop)]
pub(crate) struct CallLog {
    pub(crate) calls: Vec<Call>,
    pub(crate) plan: Plan,
    pub(crate) failures: u64,
}

impl CallLog {
    /// No calls yet, and none that is to fail. So many have failed before.
    pub(crate) fn new(alloc: Global, failures: u64) -> CallLog
        ensures calls { result.calls.items ≡ [] }
        ensures plan { result.plan ≡ record { at = None; after = None; from = None } }
        ensures failures { result.failures ≡ failures }
    {
        CallLog {
            calls: Vec::new(alloc),
            plan: Plan::NONE,
            failures,
        }
    }

    /// Notes a call that is to be done. An error where it fails, and where memory is refused.
    pub(crate) fn begin(&mut self, call: Call) -> Result<(), FolderFault>
        ensures noted { OnOk result (self.new.calls.items ≡ self.old.calls.items ++ call ∷ []) }
        ensures planned { OnOk result (fails self.old.plan (length self.old.calls.items + 1) ≡ false) }
        ensures works { OnOk result (self.new.failures ≡ self.old.failures) }
        ensures stops { IfErr result
            (IsNotDone self.old.plan self.old.calls.items call self.old.failures self.new.calls.items self.new.failures) }
        ensures plan { self.new.plan ≡ self.old.plan }
        ensures not_missing { IsErrOf result Missing → ⊥ }
        ensures not_existing { IsErrOf result Exists → ⊥ }
        ensures cause { HasCause self.old.failures self.new.failures (IsErrOf result Device) }
    {
        self.calls.push(call)?;
        if self.plan.fails(self.calls.len() as u64) {
            return Err(self.fail());
        }
        Ok(())
    }

    /// Ends the last call. An error where it is to fail once it is done.
    pub(crate) fn end(&mut self) -> Result<(), FolderFault>
        ensures calls { self.new.calls.items ≡ self.old.calls.items }
        ensures plan { self.new.plan ≡ self.old.plan }
        ensures planned { OnOk result (fails_when_done self.old.plan (length self.old.calls.items) ≡ false) }
        ensures works { OnOk result (self.new.failures ≡ self.old.failures) }
        ensures fault { IfErr result (λ fault. fault ≡ Device) }
        ensures failed { OnErr result ((fails_when_done self.old.plan (length self.old.calls.items) ≡ true)
            × (self.new.failures ≡ one_more self.old.failures)) }
        ensures cause { HasCause self.old.failures self.new.failures (IsErrOf result Device) }
    {
        if is_number(self.plan.after, self.calls.len() as u64) {
            return Err(self.fail());
        }
        Ok(())
    }

    /// Counts a failure.
    pub(crate) fn fail(&mut self) -> FolderFault
        ensures fault { result ≡ Device }
        ensures calls { self.new.calls.items ≡ self.old.calls.items }
        ensures plan { self.new.plan ≡ self.old.plan }
        ensures counted { self.new.failures ≡ one_more self.old.failures }
        ensures later { self.old.failures ≤ self.new.failures }
        ensures raised { (self.old.failures < self.new.failures)
            ⊎ ((self.old.failures ≡ 18_446_744_073_709_551_615) × (self.new.failures ≡ self.old.failures)) }
    {
        self.failures = self.failures.saturating_add(1);
        FolderFault::Device
    }
}
