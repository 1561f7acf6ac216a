//! A folder in memory, for tests: it tells what it holds and what a stop may leave of it, and fails where it is told to.
//! Each call looks through all of its files, and it keeps each content that it had: it is for few and small files.

ghost use Rattle.std.specs.Prelude.{◌≡◌, ◌≤◌, ◌⊎◌, ◌∷◌, [], ℕ, List, true, false, None, Some, length, map, option_map, string_bytes, IfOk, OnOk, OnErr, IsErrOf, IsNone};
ghost use Rattle.std.specs.Option.{option_or};
ghost use Rattle.profile.specs.streams.Folders.{AreNames, AreNamesSynced, AreSame, Elapses, Image, MayBePublished, with_files};
ghost use Rattle.sched_devices.specs.Folder.{HasCause, IsKept, IsPublished, IsUnpublished, StaysAsOpen};
ghost use Rattle.sched_devices.specs.Memory.{AreApart, HeldFile, LeftSince, MayLeave, file_named, held_may_stay, image_of, left_under, no_temporary, only_left};
ghost use Rattle.sched_devices.specs.Noted.{IsNoted, IsPublishOf, IsReadOf, IsTooLong};
ghost use Rattle.sched_devices.specs.declared.call_log.Call.TheVariants.{Names, WriteTemp, SyncTemp, SyncDir};
ghost use Rattle.sched_devices.specs.declared.folder.FolderFault.TheVariants.{Device, Missing, Exists, Memory};
ghost use Rattle.std.proofs.Common.{inl};

use crate::call_log::{Call, CallLog};
use crate::folder::{Folder, FolderFault, MOST_OCTETS};
use crate::memory_file::{
    MemoryFile, copied, file_named, files_left, has_file, names_of, names_synced, octets_of,
    with_file,
};
use crate::temporary_file::TemporaryFile;
use std::alloc::{AllocError, Global};

/// A folder in memory. A call that is refused memory changes nothing of what it holds, and isn't among its calls.
#[derive(Drop)]
pub struct MemoryFolder {
    alloc: Global,
    files: Vec<MemoryFile>,
    temporary: TemporaryFile,
    log: CallLog,
    /// What it held at earlier moments.
    past: Vec<Vec<MemoryFile>>,
    ghost apart: { AreApart files.items },
}

impl MemoryFolder {
    /// A folder that holds nothing.
    pub fn new(alloc: Global) -> MemoryFolder
        ensures files { result.files.items ≡ [] }
        ensures temporary { result.temporary ≡ no_temporary }
        ensures calls { result.log.calls.items ≡ [] }
        ensures plan { result.log.plan ≡ record { at = None; after = None; from = None } }
        ensures failures { result.log.failures ≡ 0 }
    {
        MemoryFolder::with_failures(alloc, 0)
    }

    /// A folder that holds nothing, and has failed so often before.
    pub fn with_failures(alloc: Global, failures: u64) -> MemoryFolder
        ensures files { result.files.items ≡ [] }
        ensures temporary { result.temporary ≡ no_temporary }
        ensures calls { result.log.calls.items ≡ [] }
        ensures plan { result.log.plan ≡ record { at = None; after = None; from = None } }
        ensures failures { result.log.failures ≡ failures }
    {
        MemoryFolder {
            alloc,
            files: Vec::new(alloc),
            temporary: TemporaryFile::none(alloc),
            log: CallLog::new(alloc, failures),
            past: Vec::new(alloc),
        }
    }

    /// Puts a file in before a run; what stands under its name already stays. A stop leaves its octets, and its name too if it is `synced`.
    /// This isn't among the calls. Where memory is refused it holds what it held.
    pub fn add(&mut self, name: &str, octets: &[u8], synced: bool) -> Result<(), AllocError>
        ensures added { OnOk result (AreSame (image_of self.new.files.items)
            (with_files (image_of self.old.files.items) (record { name = name.now; octets = octets.now } ∷ []))) }
        ensures held { OnOk result ((other : List ℕ) → file_named other self.new.files.items
            ≡ option_or (file_named other self.old.files.items)
            (file_named other (record { name = name.now; octets = octets.now; is_synced = true; is_name_synced = synced } ∷ []))) }
        ensures unchanged { OnErr result (self.new.files.items ≡ self.old.files.items) }
        ensures time { Elapses (length self.old.past.items) (length self.new.past.items) (LeftSince self.old.past.items self.old.files.items)
            (LeftSince self.new.past.items self.new.files.items) (MayLeave self.new.files.items) }
        ensures temporary { self.new.temporary ≡ self.old.temporary }
        ensures calls { self.new.log ≡ self.old.log }
    {
        if has_file(&self.files, name) {
            return Ok(());
        }
        let file = MemoryFile::new(self.alloc, name, octets, true, synced)?;
        keep(self.alloc, &self.files, &mut self.past)?;
        self.files.push(file)?;
        Ok(())
    }

    /// The octets under a name, if it holds something there. This isn't among the calls.
    pub fn file<'a>(&'a self, name: &str) -> Option<&'a [u8]>
        ensures { option_map (λ octets. octets.now) result ≡ image_of self.now.files.items name.now }
    {
        match file_named(&self.files, name) {
            Some(file) => Some(file.octets()),
            None => None,
        }
    }

    /// The calls so far, without those that were refused memory.
    pub fn calls(&self) -> &[Call]
        ensures { result.now ≡ self.now.log.calls.items }
    {
        &self.log.calls
    }

    /// The call of this number fails, and changes nothing. Calls are counted from 1.
    pub fn fail_at(&mut self, call: u64)
        ensures { self.new ≡ record self.old { log = record self.old.log { plan = record self.old.log.plan { at = Some call } } } }
    {
        self.log.plan.at = Some(call);
    }

    /// The call of this number is done whole, and fails then.
    pub fn fail_after(&mut self, call: u64)
        ensures { self.new ≡ record self.old { log = record self.old.log { plan = record self.old.log.plan { after = Some call } } } }
    {
        self.log.plan.after = Some(call);
    }

    /// From the call of this number on each call fails, and changes nothing: the machine is gone.
    pub fn stop_at(&mut self, call: u64)
        ensures { self.new ≡ record self.old { log = record self.old.log { plan = record self.old.log.plan { from = Some call } } } }
    {
        self.log.plan.from = Some(call);
    }

    /// A folder as a stop at this moment may leave it: with `lost` the names that aren't synced are gone, else all are kept, and octets that
    /// weren't synced are `torn`, as those of the temporary are. What is left is on the disk now. It has had no calls, and none is to fail.
    /// An error where memory is refused.
    pub fn restart(&self, lost: bool, torn: &[u8]) -> Result<MemoryFolder, AllocError>
        ensures possible { IfOk result (λ left. MayLeave self.now.files.items (image_of left.files.items)) }
        ensures only { IfOk result (λ left. (image : Image) → MayLeave left.files.items image → AreSame image (image_of left.files.items)) }
        ensures under { IfOk result (λ left. (name : List ℕ)
            → image_of left.files.items name ≡ left_under lost torn.now (file_named name self.now.files.items)) }
        ensures temporary { IfOk result (λ left. left.temporary ≡ record { is_there = false; octets = torn.now; is_synced = false }) }
        ensures calls { IfOk result (λ left. left.log.calls.items ≡ []) }
        ensures plan { IfOk result (λ left. left.log.plan ≡ record { at = None; after = None; from = None }) }
        ensures failures { IfOk result (λ left. left.log.failures ≡ 0) }
    {
        let files = files_left(self.alloc, &self.files, lost, torn)?;
        let octets = torn.to_vec(self.alloc)?;
        Ok(MemoryFolder {
            alloc: self.alloc,
            files,
            temporary: TemporaryFile::torn(octets),
            log: CallLog::new(self.alloc, 0),
            past: Vec::new(self.alloc),
        })
    }
}

/// Keeps what a folder holds, before it changes.
fn keep(
    alloc: Global,
    files: &[MemoryFile],
    past: &mut Vec<Vec<MemoryFile>>,
) -> Result<(), AllocError>
    ensures time { Elapses (length past.old.items) (length past.new.items) (LeftSince past.old.items files.now)
        (LeftSince past.new.items files.now) (MayLeave files.now) }
    ensures change { OnOk result ((next : List HeldFile)
        → Elapses (length past.old.items) (length past.new.items) (LeftSince past.old.items files.now) (LeftSince past.new.items next) (MayLeave next)) }
{
    let content = copied(alloc, files)?;
    past.push(content)?;
    Ok(())
}

impl Folder for MemoryFolder {
    ghost is_known = { λ _. true };

    ghost image = { λ folder. image_of folder.files.items };

    ghost may_leave = { λ folder left. MayLeave folder.files.items left };

    ghost moment = { λ folder. length folder.past.items };

    ghost left_since = { λ folder moment left. LeftSince folder.past.items folder.files.items moment left };

    ghost temporary = { λ folder. folder.temporary };

    ghost failed = { λ folder. folder.log.failures };

    ghost counts_held = { λ folder known. held_may_stay folder.files.items };

    ghost counts_now = { λ folder moment left not_later now. inl now };

    ghost only_now = { λ folder left since. only_left folder.past.items folder.files.items left since };

    fn names(&mut self, alloc: Global) -> Result<Vec<String>, FolderFault>
        ensures names { IfOk result (λ names. AreNames (image_of self.old.files.items) (map string_bytes names.items)) }
        ensures kept { IsKept (λ _. true) (λ (f : MemoryFolder). image_of f.files.items) (λ f. f.temporary) (λ f. MayLeave f.files.items) self.old self.new }
        ensures still { StaysAsOpen (λ (f : MemoryFolder). MayLeave f.files.items) self.old self.new }
        ensures time { Elapses (length self.old.past.items) (length self.new.past.items) (LeftSince self.old.past.items self.old.files.items) (LeftSince self.new.past.items self.new.files.items) (MayLeave self.new.files.items) }
        ensures not_missing { IsErrOf result Missing → ⊥ }
        ensures not_existing { IsErrOf result Exists → ⊥ }
        ensures cause { HasCause self.old.log.failures self.new.log.failures (IsErrOf result Device) }
        ensures noted { IsNoted (λ call. call ≡ Names) self.old.log self.new.log (IsErrOf result Memory) (IsErrOf result Device) ⊥ }
    {
        let names = names_of(alloc, &self.files)?;
        self.log.begin(Call::Names)?;
        self.log.end()?;
        Ok(names)
    }

    fn read(&mut self, alloc: Global, name: &str) -> Result<Vec<u8>, FolderFault>
        ensures bytes { IfOk result (λ bytes. image_of self.old.files.items name.now ≡ Some bytes.items) }
        ensures few { IfOk result (λ bytes. length bytes.items ≤ 1_073_741_824) }
        ensures kept { IsKept (λ _. true) (λ (f : MemoryFolder). image_of f.files.items) (λ f. f.temporary) (λ f. MayLeave f.files.items) self.old self.new }
        ensures still { StaysAsOpen (λ (f : MemoryFolder). MayLeave f.files.items) self.old self.new }
        ensures time { Elapses (length self.old.past.items) (length self.new.past.items) (LeftSince self.old.past.items self.old.files.items) (LeftSince self.new.past.items self.new.files.items) (MayLeave self.new.files.items) }
        ensures missing { IsErrOf result Missing → (image_of self.old.files.items name.now ≡ None) }
        ensures not_existing { IsErrOf result Exists → ⊥ }
        ensures cause { HasCause self.old.log.failures self.new.log.failures (IsErrOf result Device) }
        ensures noted { IsNoted (IsReadOf name.now) self.old.log self.new.log (IsErrOf result Memory) (IsErrOf result Device) (IsTooLong (image_of self.old.files.items name.now)) }
    {
        let octets = octets_of(alloc, &self.files, name)?;
        let call = Call::Read(String::from_str(self.alloc, name)?);
        self.log.begin(call)?;
        self.log.end()?;
        match octets {
            None => Err(FolderFault::Missing),
            Some(octets) if octets.len() <= MOST_OCTETS => Ok(octets),
            Some(_) => Err(self.log.fail()),
        }
    }

    fn write_temp(&mut self, bytes: &[u8]) -> Result<(), FolderFault>
        ensures written { OnOk result (self.new.temporary.is_there ≡ true) }
        ensures octets { OnOk result (self.new.temporary.octets ≡ bytes.now) }
        ensures image { image_of self.new.files.items ≡ image_of self.old.files.items }
        ensures stop { (left : Image) → MayLeave self.new.files.items left → MayLeave self.old.files.items left }
        ensures time { Elapses (length self.old.past.items) (length self.new.past.items) (LeftSince self.old.past.items self.old.files.items) (LeftSince self.new.past.items self.new.files.items) (MayLeave self.new.files.items) }
        ensures not_missing { IsErrOf result Missing → ⊥ }
        ensures not_existing { IsErrOf result Exists → ⊥ }
        ensures cause { HasCause self.old.log.failures self.new.log.failures (IsErrOf result Device) }
        ensures noted { IsNoted (λ call. call ≡ WriteTemp) self.old.log self.new.log (IsErrOf result Memory) (IsErrOf result Device) ⊥ }
    {
        let octets = bytes.to_vec(self.alloc)?;
        self.log.begin(Call::WriteTemp)?;
        self.temporary.write(octets);
        self.log.end()?;
        self.temporary.confirm();
        Ok(())
    }

    fn sync_temp(&mut self) -> Result<(), FolderFault>
        requires { self.old.temporary.is_there ≡ true }
        ensures there { self.new.temporary.is_there ≡ true }
        ensures synced { OnOk result (self.new.temporary.is_synced ≡ true) }
        ensures octets { self.new.temporary.octets ≡ self.old.temporary.octets }
        ensures image { image_of self.new.files.items ≡ image_of self.old.files.items }
        ensures stop { (left : Image) → MayLeave self.new.files.items left → MayLeave self.old.files.items left }
        ensures time { Elapses (length self.old.past.items) (length self.new.past.items) (LeftSince self.old.past.items self.old.files.items) (LeftSince self.new.past.items self.new.files.items) (MayLeave self.new.files.items) }
        ensures not_missing { IsErrOf result Missing → ⊥ }
        ensures not_existing { IsErrOf result Exists → ⊥ }
        ensures cause { HasCause self.old.log.failures self.new.log.failures (IsErrOf result Device) }
        ensures noted { IsNoted (λ call. call ≡ SyncTemp) self.old.log self.new.log (IsErrOf result Memory) (IsErrOf result Device) ⊥ }
    {
        self.log.begin(Call::SyncTemp)?;
        self.temporary.sync();
        self.log.end()?;
        Ok(())
    }

    #[tactic(auto, using(crate::proofs::HeldFiles::may_stay))]
    fn publish(&mut self, name: &str) -> Result<(), FolderFault>
        requires { self.old.temporary.is_there ≡ true }
        ensures published { OnOk result (IsPublished (image_of self.old.files.items) (image_of self.new.files.items) name.now self.old.temporary) }
        ensures taken { OnOk result (self.new.temporary.is_there ≡ false) }
        ensures whole { OnErr result (IsUnpublished (image_of self.old.files.items) (image_of self.new.files.items) (MayLeave self.old.files.items) (MayLeave self.new.files.items)
            ⊎ IsPublished (image_of self.old.files.items) (image_of self.new.files.items) name.now self.old.temporary) }
        ensures stop { MayBePublished self.old.temporary name.now (MayLeave self.old.files.items) (MayLeave self.new.files.items) }
        ensures time { Elapses (length self.old.past.items) (length self.new.past.items) (LeftSince self.old.past.items self.old.files.items) (LeftSince self.new.past.items self.new.files.items) (MayLeave self.new.files.items) }
        ensures existing { IsErrOf result Exists → (IsNone (image_of self.old.files.items name.now) → ⊥)
            × IsKept (λ _. true) (λ (f : MemoryFolder). image_of f.files.items) (λ f. f.temporary) (λ f. MayLeave f.files.items) self.old self.new }
        ensures not_missing { IsErrOf result Missing → ⊥ }
        ensures cause { HasCause self.old.log.failures self.new.log.failures (IsErrOf result Device) }
        ensures noted { IsNoted (IsPublishOf name.now) self.old.log self.new.log (IsErrOf result Memory) (IsErrOf result Device) ⊥ }
    {
        let call = Call::Publish(String::from_str(self.alloc, name)?);
        if has_file(&self.files, name) {
            self.log.begin(call)?;
            self.log.end()?;
            return Err(FolderFault::Exists);
        }
        let file = self.temporary.named(self.alloc, name)?;
        let files = with_file(self.alloc, &self.files, file)?;
        // All that may be refused memory comes before the change. Where the call fails, a moment more of the same content does no harm.
        keep(self.alloc, &self.files, &mut self.past)?;
        self.log.begin(call)?;
        self.files = files;
        self.temporary = TemporaryFile::none(self.alloc);
        self.log.end()?;
        Ok(())
    }

    fn sync_dir(&mut self) -> Result<(), FolderFault>
        ensures synced { OnOk result (AreNamesSynced (image_of self.old.files.items) (MayLeave self.old.files.items) (MayLeave self.new.files.items)) }
        ensures kept { IsKept (λ _. true) (λ (f : MemoryFolder). image_of f.files.items) (λ f. f.temporary) (λ f. MayLeave f.files.items) self.old self.new }
        ensures time { Elapses (length self.old.past.items) (length self.new.past.items) (LeftSince self.old.past.items self.old.files.items) (LeftSince self.new.past.items self.new.files.items) (MayLeave self.new.files.items) }
        ensures not_missing { IsErrOf result Missing → ⊥ }
        ensures not_existing { IsErrOf result Exists → ⊥ }
        ensures cause { HasCause self.old.log.failures self.new.log.failures (IsErrOf result Device) }
        ensures noted { IsNoted (λ call. call ≡ SyncDir) self.old.log self.new.log (IsErrOf result Memory) (IsErrOf result Device) ⊥ }
    {
        let files = names_synced(self.alloc, &self.files)?;
        keep(self.alloc, &self.files, &mut self.past)?;
        self.log.begin(Call::SyncDir)?;
        self.files = files;
        self.log.end()?;
        Ok(())
    }

    fn failures(&self) -> u64 {
        self.log.failures
    }
}
