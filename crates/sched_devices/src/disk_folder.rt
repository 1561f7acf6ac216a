//! A folder of the file system.

ghost use Rattle.std.specs.Prelude.{◌≡◌, ◌<◌, ◌≤◌, ℕ, ◌++◌, List, [], Bool, true, false, Option, length, is_some, IfSome, IsSome, OnSome, IfOk, IfErr, IsErrOf, Ok};
ghost use Rattle.std.proofs.lemmas.Bool.{false≢true};
ghost use Rattle.std.specs.Io.KnownBytes.{Consumes, IsAtEnd};
ghost use Rattle.std.specs.IoError.{error_kind};
ghost use Rattle.sched_devices.specs.Failure.{IsNameKept};
ghost use Rattle.sched_devices.specs.Folder.{HasCause};
ghost use Rattle.sched_devices.specs.declared.folder.FolderFault.TheVariants.{Device, Missing, Exists};

use crate::failure::{Explained, Failure, Failures};
use crate::folder::{Folder, FolderFault, MOST_OCTETS};
use crate::input::{DeviceReader, Input, lend};
use crate::output::write_whole;
use std::alloc::{AllocError, Global};
use std::fs::{self, File, Files, OpenFile};
use std::io::{self, ErrorKind};

/// The temporary's name. It begins with a dot, as no name of a message or of an answer does.
const TEMPORARY: &str = ".roombox-temporary";

/// A folder of the file system, of which nothing is known: another program may change it at any time. What it answers is what the
/// system says, and each answer that isn't whole is counted as a failure, up to the greatest u64. Of the last one it remembers of
/// which file it was, and the kind of the error.
///
/// The system calls of each call, in their order:
/// - `names`: open the folder, read its entries, close.
/// - `read`: ask what stands there (opening a pipe would wait for a writer), open, read to the end, close.
/// - `write_temp`: unlink the temporary that an earlier run may have left, open a new one that mustn't be there, write.
/// - `sync_temp`: sync the temporary.
/// - `publish`: link the temporary under the name, unlink the temporary's own name, close. A link is made at once or not at all, and never
///   where the name stands; a rename would replace what stands there. A file system without such links fails here.
/// - `sync_dir`: at the first time open the folder, which stays open, and unlink the temporary that an earlier run may have left; sync the folder.
///
/// So the octets are on the disk before the name is, and a temporary that is left is taken away and never written over: where a run
/// was killed between link and unlink, it is a published file by another name.
#[derive(Drop)]
pub struct DiskFolder<'a, R: Files> {
    rt: &'a R,
    path: &'a str,
    temporary: Option<R::File>,
    opened: Option<R::File>,
    failures: Failures,
}

impl<'a, R: Files + AllocGlobal + Clone + Drop> DiskFolder<'a, R> {
    /// The folder at this path, which hasn't failed. Nothing is opened yet.
    pub fn new(rt: &'a R, path: &'a str) -> DiskFolder<'a, R>
        ensures { result.failures.count ≡ 0 }
    {
        DiskFolder {
            rt,
            path,
            temporary: None,
            opened: None,
            failures: Failures::none(),
        }
    }

    /// The path of what has this name in the folder.
    fn path_of(&self, name: &str) -> Result<String, AllocError> {
        format!(in self.rt.alloc(); "{}/{}", self.path, name)
    }

    /// The names that stand there. An error too where one of them isn't UTF-8.
    fn list(&self, alloc: Global) -> io::Result<Vec<String>> {
        let mut names = Vec::new(alloc);
        for entry in fs::read_dir(self.rt, self.path)? {
            let entry = entry?;
            let name = entry.file_name();
            if name != TEMPORARY {
                names.push(String::from_str(alloc, name)?)?;
            }
        }
        Ok(names)
    }

    /// The octets of the file of this name.
    fn read_file(&self, alloc: Global, name: &str) -> io::Result<Vec<u8>>
        ensures { IfOk result (λ octets. length octets.items ≤ 1_073_741_824) }
    {
        let path = self.path_of(name)?;
        let there = fs::metadata(self.rt, path.as_str())?;
        if there.is_dir() {
            return Err(io::Error::from(ErrorKind::IsADirectory));
        }
        if !there.is_file() {
            return Err(io::Error::from(ErrorKind::InvalidInput));
        }
        let file = File::open(self.rt, path.as_str())?;
        read_whole(alloc, &mut DeviceReader::new(alloc, file)?)
    }

    /// Takes the temporary's name away, if it is there.
    fn remove_temp(&self) -> io::Result<()> {
        match fs::remove_file(self.rt, self.path_of(TEMPORARY)?.as_str()) {
            Err(error) if error.kind() != ErrorKind::NotFound => Err(error),
            _ => Ok(()),
        }
    }

    /// A new temporary of these octets, open.
    fn write_anew(&self, bytes: &[u8]) -> io::Result<R::File> {
        self.remove_temp()?;
        let mut file = File::create_new(self.rt, self.path_of(TEMPORARY)?.as_str())?;
        write_whole(&mut file, bytes)?;
        Ok(file)
    }

    /// Gives the temporary this name in place of its own.
    fn rename_temp(&self, name: &str) -> io::Result<()> {
        let temporary = self.path_of(TEMPORARY)?;
        let published = self.path_of(name)?;
        fs::hard_link(self.rt, temporary.as_str(), published.as_str())?;
        fs::remove_file(self.rt, temporary.as_str())
    }

    /// Syncs the folder itself.
    fn sync_names(&mut self) -> io::Result<()>
        ensures temporary { self.new.temporary ≡ self.old.temporary }
        ensures failures { self.new.failures ≡ self.old.failures }
    {
        if let Some(folder) = &self.opened {
            return folder.sync_all();
        }
        let folder = File::open(self.rt, self.path)?;
        if self.temporary.is_none() {
            // One that can't be taken away is told where the next one is written.
            let _ = self.remove_temp();
        }
        let synced = folder.sync_all();
        self.opened = Some(folder);
        synced
    }
}

impl<R: Files + AllocGlobal + Clone + Drop> Folder for DiskFolder<'_, R> {
    ghost temporary = { λ folder. record { is_there = is_some folder.temporary; octets = []; is_synced = false } };

    ghost failed = { λ folder. folder.failures.count };

    fn names(&mut self, alloc: Global) -> Result<Vec<String>, FolderFault> {
        let names = self.list(alloc);
        tell(alloc, &mut self.failures, None, names)
    }

    fn read(&mut self, alloc: Global, name: &str) -> Result<Vec<u8>, FolderFault> {
        let octets = self.read_file(alloc, name);
        tell(alloc, &mut self.failures, Some(name), octets)
    }

    fn write_temp(&mut self, bytes: &[u8]) -> Result<(), FolderFault> {
        self.temporary = None;
        let written = self.write_anew(bytes);
        let alloc = self.rt.alloc();
        let file = tell(alloc, &mut self.failures, Some(TEMPORARY), written)?;
        self.temporary = Some(file);
        Ok(())
    }

    fn sync_temp(&mut self) -> Result<(), FolderFault> {
        let Some(file) = &self.temporary else {
            unreachable!()
        };
        let synced = file.sync_all();
        let alloc = self.rt.alloc();
        tell(alloc, &mut self.failures, Some(TEMPORARY), synced)
    }

    fn publish(&mut self, name: &str) -> Result<(), FolderFault> {
        let published = self.rename_temp(name);
        self.temporary = None;
        let alloc = self.rt.alloc();
        tell(alloc, &mut self.failures, Some(name), published)
    }

    fn sync_dir(&mut self) -> Result<(), FolderFault> {
        let synced = self.sync_names();
        let alloc = self.rt.alloc();
        tell(alloc, &mut self.failures, None, synced)
    }

    fn failures(&self) -> u64 {
        self.failures.count()
    }

    ghost counts_held = { λ folder known. absurd (false≢true known) };

    ghost counts_now = { λ folder moment left earlier leaves. absurd leaves };

    ghost only_now = { λ folder left since. absurd since };
}

impl<R: Files> Explained for DiskFolder<'_, R> {
    ghost reason = { λ folder. folder.failures.last };

    fn last_failure(&self) -> Option<&Failure> {
        self.failures.last()
    }
}

/// What a call of the system gave, which was about this file, or about the folder. Each error is counted as a failure and remembered, but not
/// where it is out of memory.
fn tell<T: Drop>(
    alloc: Global,
    failures: &mut Failures,
    name: Option<&str>,
    outcome: io::Result<T>,
) -> Result<T, FolderFault>
    ensures value { IfOk result (λ value. outcome ≡ Ok value) }
    ensures not_missing { IsErrOf result Missing → ⊥ }
    ensures not_existing { IsErrOf result Exists → ⊥ }
    ensures cause { HasCause failures.old.count failures.new.count (IsErrOf result Device) }
    ensures told { IsErrOf result Device → IsSome failures.new.last }
    ensures remembered { IsErrOf result Device → IfErr outcome (λ error. IfSome failures.new.last (λ last. IsNameKept last.name name.entry × (last.kind ≡ error_kind error))) }
    ensures same { (IsErrOf result Device → ⊥) → failures.new.last ≡ failures.old.last }
{
    match outcome {
        Ok(value) => Ok(value),
        Err(error) if error.kind() == ErrorKind::OutOfMemory => Err(FolderFault::Memory),
        Err(error) => {
            failures.add(Failure {
                name: name_kept(alloc, name),
                kind: error.kind(),
            });
            Err(FolderFault::Device)
        }
    }
}

/// A copy of a name, if there is one and memory for it.
fn name_kept(alloc: Global, name: Option<&str>) -> Option<String>
    ensures { IsNameKept result name.entry }
{
    String::from_str(alloc, name?).ok()
}

/// All octets of a reader; an error where they are more than may be read of a file.
fn read_whole<R: Input>(alloc: Global, reader: &mut R) -> io::Result<Vec<u8>>
    ensures few { IfOk result (λ octets. length octets.items ≤ 1_073_741_824) }
    ensures whole { IfOk result (λ octets. IfSome (R.remaining reader.old) (λ all. octets.items ≡ all)) }
{
    let mut octets = Vec::new(alloc);
    while octets.len() <= MOST_OCTETS {
        if !take_lent(reader, &mut octets)? {
            return Ok(octets);
        }
    }
    Err(io::Error::from(ErrorKind::FileTooLarge))
}

/// Takes what a reader lends; false at its end.
fn take_lent<R: Input>(reader: &mut R, octets: &mut Vec<u8>) -> io::Result<bool>
    ensures taken { IfOk result (λ goes. (taken : List ℕ) × (octets.new.items ≡ octets.old.items ++ taken)
        × (goes ≡ true → 0 < length taken) × Consumes (R.remaining reader.old) (R.remaining reader.new) taken) }
    ensures end { IfOk result (λ goes. goes ≡ false → (octets.new.items ≡ octets.old.items) × OnSome (R.remaining reader.old) (IsAtEnd (R.remaining reader.new))) }
{
    lend(reader)?;
    let lent = reader.buffer();
    if lent.is_empty() {
        return Ok(false);
    }
    let count = lent.len();
    octets.extend_from_slice(lent)?;
    reader.consume(count);
    Ok(true)
}
