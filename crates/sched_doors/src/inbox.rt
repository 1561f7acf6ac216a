//! A folder behind the door: each file that is read of it is a stream whose objects are made readable. What else it does isn't changed.

ghost use Rattle.std.specs.Prelude.{◌≡◌, ◌≤◌, false, length, None, IfOk, IfSome, IsErrOf, Ok};
ghost use Rattle.std.specs.Option.{option_or};
ghost use Rattle.std.proofs.lemmas.Bool.{false≢true};
ghost use Rattle.sched_devices.specs.Folder.{HasCause};
ghost use Rattle.sched_devices.specs.declared.folder.FolderFault.TheVariants.{Device, Exists, Missing};

use crate::door::Door;
use crate::fault::DoorFault;
use ical_tree::Component;
use sched_devices::{Explained, Failure, Folder, FolderFault, Input, MOST_OCTETS};
use std::alloc::{AllocError, Global};
use std::io::ErrorKind;

/// An inbox whose files are read through the door. It doesn't tell what it holds, and counts its own failures: those of the inbox, and the
/// files that would get longer than a file may be.
#[derive(Drop)]
pub struct AdaptedInbox<'c, 'a, F: Folder + Drop> {
    listed: Option<&'c Component<'a>>,
    inbox: F,
    failures: u64,
    /// The last file that would get longer than a file may be.
    long: Option<Failure>,
}

impl<'c, 'a, F: Folder + Drop> AdaptedInbox<'c, 'a, F> {
    /// An inbox, behind the door.
    pub fn new(listed: Option<&'c Component<'a>>, inbox: F) -> AdaptedInbox<'c, 'a, F>
        ensures listed { result.listed ≡ listed.entry }
        ensures inbox { result.inbox ≡ inbox }
        ensures failures { result.failures ≡ 0 }
        ensures long { result.long ≡ None }
    {
        AdaptedInbox {
            listed,
            inbox,
            failures: 0,
            long: None,
        }
    }

    /// The octets of a file, with its objects made readable.
    fn read_adapted(&mut self, alloc: Global, name: &str) -> Result<Vec<u8>, FolderFault>
        ensures few { IfOk result (λ octets. length octets.items ≤ 1_073_741_824) }
        ensures temporary { F.temporary self.new.inbox ≡ F.temporary self.old.inbox }
        ensures failures { self.new.failures ≡ self.old.failures }
        ensures listed { self.new.listed ≡ self.old.listed }
    {
        let octets = self.inbox.read(alloc, name)?;
        match adapted(alloc, self.listed, octets.as_slice())? {
            Some(octets) => Ok(octets),
            None => {
                self.long = Some(Failure {
                    name: String::from_str(alloc, name).ok(),
                    kind: ErrorKind::FileTooLarge,
                });
                Err(FolderFault::Device)
            }
        }
    }
}

impl<F: Folder + Drop> Folder for AdaptedInbox<'_, '_, F> {
    ghost temporary = { λ adapted. F.temporary adapted.inbox };

    ghost failed = { λ adapted. adapted.failures };

    fn names(&mut self, alloc: Global) -> Result<Vec<String>, FolderFault> {
        let names = self.inbox.names(alloc);
        tell(&mut self.failures, names)
    }

    fn read(&mut self, alloc: Global, name: &str) -> Result<Vec<u8>, FolderFault> {
        let octets = self.read_adapted(alloc, name);
        tell(&mut self.failures, octets)
    }

    fn write_temp(&mut self, bytes: &[u8]) -> Result<(), FolderFault> {
        let written = self.inbox.write_temp(bytes);
        tell(&mut self.failures, written)
    }

    fn sync_temp(&mut self) -> Result<(), FolderFault> {
        let synced = self.inbox.sync_temp();
        tell(&mut self.failures, synced)
    }

    fn publish(&mut self, name: &str) -> Result<(), FolderFault> {
        let published = self.inbox.publish(name);
        tell(&mut self.failures, published)
    }

    fn sync_dir(&mut self) -> Result<(), FolderFault> {
        let synced = self.inbox.sync_dir();
        tell(&mut self.failures, synced)
    }

    fn failures(&self) -> u64 {
        self.failures
    }

    ghost counts_held = { λ folder known. absurd (false≢true known) };

    ghost counts_now = { λ folder moment left earlier leaves. absurd leaves };

    ghost only_now = { λ folder left since. absurd since };
}

impl<F: Folder + Explained + Drop> Explained for AdaptedInbox<'_, '_, F> {
    ghost reason = { λ adapted. option_or adapted.long (F.reason adapted.inbox) };

    fn last_failure(&self) -> Option<&Failure> {
        match &self.long {
            Some(failure) => Some(failure),
            None => self.inbox.last_failure(),
        }
    }
}

/// What a call of the inbox gave. Each error is counted as a failure, but not where it is out of memory: a folder that doesn't tell what it
/// holds tells no other.
fn tell<T: Drop>(failures: &mut u64, outcome: Result<T, FolderFault>) -> Result<T, FolderFault>
    ensures value { IfOk result (λ value. outcome ≡ Ok value) }
    ensures not_missing { IsErrOf result Missing → ⊥ }
    ensures not_existing { IsErrOf result Exists → ⊥ }
    ensures cause { HasCause failures.old failures.new (IsErrOf result Device) }
{
    match outcome {
        Ok(value) => Ok(value),
        Err(FolderFault::Memory) => Err(FolderFault::Memory),
        Err(FolderFault::Device | FolderFault::Missing | FolderFault::Exists) => {
            *failures = failures.saturating_add(1);
            Err(FolderFault::Device)
        }
    }
}

/// The octets of a stream with its objects made readable. None where they are more than a file may have.
fn adapted(
    alloc: Global,
    listed: Option<&Component<'_>>,
    octets: &[u8],
) -> Result<Option<Vec<u8>>, AllocError>
    ensures few { IfOk result (λ found. IfSome found (λ all. length all.items ≤ 1_073_741_824)) }
{
    let mut all = Vec::new(alloc);
    let mut door = Door::new(alloc, listed, octets);
    while all.len() <= MOST_OCTETS {
        match door.pass() {
            Ok(()) => {}
            Err(DoorFault::Memory) => return Err(AllocError),
            Err(DoorFault::Read) => unreachable!(),
        }
        let lent = door.buffer();
        if lent.is_empty() {
            return Ok(Some(all));
        }
        all.extend_from_slice(lent)?;
    }
    Ok(None)
}
