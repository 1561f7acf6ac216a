//! A folder: what it holds under its names, what a stop of the machine may leave of it, and how often it has failed.

ghost use Rattle.std.specs.Prelude.{◌≡◌, ◌≤◌, ◌⊎◌, ℕ, List, Bool, true, false, None, Option, Some, map, length, IfOk, OnOk, OnErr, IsErrOf, IsNone, string_bytes};
ghost use Rattle.profile.specs.streams.Folders.{AreNames, AreNamesSynced, Elapses, Image, MayBePublished, Temporary, with_files};
ghost use Rattle.sched_devices.specs.Folder.{HasCause, IsKept, IsPublished, IsUnpublished, StaysAsOpen};
ghost use Rattle.sched_devices.specs.declared.folder.FolderFault.TheVariants.{Device, Missing, Exists, Memory};

use std::alloc::{AllocError, AllocFailed, Global};
use thiserror::Error;

/// The most octets of a file that is read, and of a stream; this profile's choice.
pub const MOST_OCTETS: usize = 1_073_741_824;

/// Why a call of a folder gave nothing.
#[derive(Clone, Copy, Debug, PartialEq, Eq, Drop, Error)]
pub enum FolderFault {
    /// The folder failed.
    #[error("the folder can't be used")]
    Device,
    /// Nothing stands under this name.
    #[error("no such file")]
    Missing,
    /// Something stands under this name already.
    #[error("the file exists")]
    Exists,
    /// Out of memory.
    #[error("out of memory")]
    Memory,
}

impl From<AllocError> for FolderFault {
    ghost from_gives = { λ _ e. e ≡ Memory };

    fn from(_error: AllocError) -> FolderFault {
        FolderFault::Memory
    }
}

impl<T: Drop> From<AllocFailed<T>> for FolderFault {
    ghost from_gives = { λ _ e. e ≡ Memory };

    fn from(_error: AllocFailed<T>) -> FolderFault {
        FolderFault::Memory
    }
}

/// A folder of files that are written once: octets go into a temporary file, which is synced and then published under a name.
/// Of a folder that is known its contract says what it holds, and what a stop at any moment may leave; of a real one it says neither.
/// Each call may also answer Device, where the folder failed and counted that, or Memory.
pub trait Folder {
    // It tells what it holds and what a stop may leave.
    ghost is_known: { Self → Bool } = { λ _. false };

    // What it holds under each name. The temporary isn't among them.
    ghost image: { Self → Image } = { λ _ _. None };

    // What a stop at this moment may leave.
    ghost may_leave: { Self → Image → Type 0 } = { λ _ _. ⊥ };

    // The moment, as a number that doesn't fall.
    ghost moment: { Self → ℕ } = { λ _. 0 };

    // What a stop at some moment from that one on might have left, during a call or between two.
    ghost left_since: { Self → ℕ → Image → Type 0 } = { λ _ _ _. ⊥ };

    // The temporary: whether a write of it was Ok since the last publication, and, where the folder is known, its octets.
    ghost temporary: { Self → Temporary };

    // How often it has failed, up to the greatest u64.
    ghost failed: { Self → ℕ };

    /// The names under which it holds something, each once, in any order. It syncs nothing: a stop may leave what it might have left before.
    fn names(&mut self, alloc: Global) -> Result<Vec<String>, FolderFault>
        ensures names { IfOk result (λ names. Self.is_known self.old ≡ true → AreNames (Self.image self.old) (map string_bytes names.items)) }
        ensures kept { IsKept Self.is_known Self.image Self.temporary Self.may_leave self.old self.new }
        ensures still { StaysAsOpen Self.may_leave self.old self.new }
        ensures time { Elapses (Self.moment self.old) (Self.moment self.new) (Self.left_since self.old) (Self.left_since self.new) (Self.may_leave self.new) }
        ensures not_missing { IsErrOf result Missing → ⊥ }
        ensures not_existing { IsErrOf result Exists → ⊥ }
        ensures cause { HasCause (Self.failed self.old) (Self.failed self.new) (IsErrOf result Device) };

    /// The octets under a name, at most 1,073,741,824. It syncs nothing either. Only a known folder answers Missing, where it holds nothing there;
    /// with another one a name that isn't there, and a file that is longer, counts as a failure.
    fn read(&mut self, alloc: Global, name: &str) -> Result<Vec<u8>, FolderFault>
        ensures bytes { IfOk result (λ bytes. Self.is_known self.old ≡ true → Self.image self.old name.now ≡ Some bytes.items) }
        ensures few { IfOk result (λ bytes. length bytes.items ≤ 1_073_741_824) }
        ensures kept { IsKept Self.is_known Self.image Self.temporary Self.may_leave self.old self.new }
        ensures still { StaysAsOpen Self.may_leave self.old self.new }
        ensures time { Elapses (Self.moment self.old) (Self.moment self.new) (Self.left_since self.old) (Self.left_since self.new) (Self.may_leave self.new) }
        ensures missing { IsErrOf result Missing → (Self.is_known self.old ≡ true) × (Self.image self.old name.now ≡ None) }
        ensures not_existing { IsErrOf result Exists → ⊥ }
        ensures cause { HasCause (Self.failed self.old) (Self.failed self.new) (IsErrOf result Device) };

    /// Writes the temporary anew. Until it is synced a stop may leave anything of it.
    fn write_temp(&mut self, bytes: &[u8]) -> Result<(), FolderFault>
        ensures written { OnOk result ((Self.temporary self.new).is_there ≡ true) }
        ensures octets { OnOk result (Self.is_known self.old ≡ true → (Self.temporary self.new).octets ≡ bytes.now) }
        ensures known { Self.is_known self.new ≡ Self.is_known self.old }
        ensures image { Self.image self.new ≡ Self.image self.old }
        ensures stop { (left : Image) → Self.may_leave self.new left → Self.may_leave self.old left }
        ensures time { Elapses (Self.moment self.old) (Self.moment self.new) (Self.left_since self.old) (Self.left_since self.new) (Self.may_leave self.new) }
        ensures not_missing { IsErrOf result Missing → ⊥ }
        ensures not_existing { IsErrOf result Exists → ⊥ }
        ensures cause { HasCause (Self.failed self.old) (Self.failed self.new) (IsErrOf result Device) };

    /// After it a stop leaves the octets of the temporary, and of the file that it is published as.
    fn sync_temp(&mut self) -> Result<(), FolderFault>
        requires { (Self.temporary self.old).is_there ≡ true }
        ensures there { (Self.temporary self.new).is_there ≡ true }
        ensures synced { OnOk result (Self.is_known self.old ≡ true → (Self.temporary self.new).is_synced ≡ true) }
        ensures octets { (Self.temporary self.new).octets ≡ (Self.temporary self.old).octets }
        ensures known { Self.is_known self.new ≡ Self.is_known self.old }
        ensures image { Self.image self.new ≡ Self.image self.old }
        ensures stop { (left : Image) → Self.may_leave self.new left → Self.may_leave self.old left }
        ensures time { Elapses (Self.moment self.old) (Self.moment self.new) (Self.left_since self.old) (Self.left_since self.new) (Self.may_leave self.new) }
        ensures not_missing { IsErrOf result Missing → ⊥ }
        ensures not_existing { IsErrOf result Exists → ⊥ }
        ensures cause { HasCause (Self.failed self.old) (Self.failed self.new) (IsErrOf result Device) };

    /// Gives the temporary a name, whole or not at all; what stands under a name is never replaced. Until the folder is synced a stop may take the name away.
    /// Only a known folder answers Exists, where it holds something there; with another one that counts as a failure.
    fn publish(&mut self, name: &str) -> Result<(), FolderFault>
        requires { (Self.temporary self.old).is_there ≡ true }
        ensures published { OnOk result (Self.is_known self.old ≡ true → IsPublished (Self.image self.old) (Self.image self.new) name.now (Self.temporary self.old)) }
        ensures taken { OnOk result ((Self.temporary self.new).is_there ≡ false) }
        ensures whole { OnErr result (Self.is_known self.old ≡ true
            → IsUnpublished (Self.image self.old) (Self.image self.new) (Self.may_leave self.old) (Self.may_leave self.new)
            ⊎ IsPublished (Self.image self.old) (Self.image self.new) name.now (Self.temporary self.old)) }
        ensures known { Self.is_known self.new ≡ Self.is_known self.old }
        ensures stop { MayBePublished (Self.temporary self.old) name.now (Self.may_leave self.old) (Self.may_leave self.new) }
        ensures time { Elapses (Self.moment self.old) (Self.moment self.new) (Self.left_since self.old) (Self.left_since self.new) (Self.may_leave self.new) }
        ensures existing { IsErrOf result Exists → (Self.is_known self.old ≡ true) × (IsNone (Self.image self.old name.now) → ⊥)
            × IsKept Self.is_known Self.image Self.temporary Self.may_leave self.old self.new }
        ensures not_missing { IsErrOf result Missing → ⊥ }
        ensures cause { HasCause (Self.failed self.old) (Self.failed self.new) (IsErrOf result Device) };

    /// After it a stop takes no name away.
    fn sync_dir(&mut self) -> Result<(), FolderFault>
        ensures synced { OnOk result (AreNamesSynced (Self.image self.old) (Self.may_leave self.old) (Self.may_leave self.new)) }
        ensures kept { IsKept Self.is_known Self.image Self.temporary Self.may_leave self.old self.new }
        ensures time { Elapses (Self.moment self.old) (Self.moment self.new) (Self.left_since self.old) (Self.left_since self.new) (Self.may_leave self.new) }
        ensures not_missing { IsErrOf result Missing → ⊥ }
        ensures not_existing { IsErrOf result Exists → ⊥ }
        ensures cause { HasCause (Self.failed self.old) (Self.failed self.new) (IsErrOf result Device) };

    /// How often it has failed, up to the greatest u64.
    fn failures(&self) -> u64
        ensures { result ≡ Self.failed self.now };

    // Where it is known, what it holds now is one of the things that a stop may leave: no stop has to come, and none has to take anything away.
    ghost counts_held: { (folder : Self) → Self.is_known folder ≡ true → Self.may_leave folder (Self.image folder) };

    // This moment is one of those since an earlier one.
    ghost counts_now: { (folder : Self) (moment : ℕ) (left : Image) → moment ≤ Self.moment folder → Self.may_leave folder left → Self.left_since folder moment left };

    // Since this moment there is no other.
    ghost only_now: { (folder : Self) (left : Image) → Self.left_since folder (Self.moment folder) left → Self.may_leave folder left };
}
