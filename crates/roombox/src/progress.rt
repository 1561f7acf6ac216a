//! How far a run over folders is, for one who watches it.

ghost use Rattle.std.specs.Prelude.{◌≡◌};

use sched_box::file_names::MessageName;
use sched_devices::{Explained, Failure, Folder, FolderFault};
use std::alloc::{AllocError, Global};

/// After so many files it is said how far it is.
const STEP: u64 = 1_000;

/// An inbox that says on standard error how many of its files were read, after each 1,000th.
#[derive(Drop)]
pub struct Progress<'a, R, F: Folder + Drop> {
    to: &'a R,
    inbox: F,
    files: u64,
    read: u64,
}

impl<'a, R: Eprint, F: Folder + Drop> Progress<'a, R, F> {
    /// An inbox of which nothing is read yet.
    pub fn new(to: &'a R, inbox: F) -> Progress<'a, R, F> {
        Progress {
            to,
            inbox,
            files: 0,
            read: 0,
        }
    }

    /// Counts one more file, and says how many they are. Where standard error fails, nobody is left to be told.
    fn count(&mut self)
        ensures { self.new.inbox ≡ self.old.inbox }
    {
        self.read = self.read.saturating_add(1);
        if self.read % STEP == 0 {
            let _ = eprintln!(self.to; "roombox: {} of {} files", self.read, self.files);
        }
    }
}

/// What a folder does isn't changed by it.
impl<R: Eprint, F: Folder + Drop> Folder for Progress<'_, R, F> {
    ghost is_known = { λ shown. F.is_known shown.inbox };

    ghost image = { λ shown. F.image shown.inbox };

    ghost may_leave = { λ shown. F.may_leave shown.inbox };

    ghost moment = { λ shown. F.moment shown.inbox };

    ghost left_since = { λ shown. F.left_since shown.inbox };

    ghost temporary = { λ shown. F.temporary shown.inbox };

    ghost failed = { λ shown. F.failed shown.inbox };

    fn names(&mut self, alloc: Global) -> Result<Vec<String>, FolderFault> {
        let names = self.inbox.names(alloc)?;
        self.files = message_files(names.as_slice())?;
        Ok(names)
    }

    fn read(&mut self, alloc: Global, name: &str) -> Result<Vec<u8>, FolderFault> {
        let octets = self.inbox.read(alloc, name)?;
        self.count();
        Ok(octets)
    }

    fn write_temp(&mut self, bytes: &[u8]) -> Result<(), FolderFault> {
        self.inbox.write_temp(bytes)
    }

    fn sync_temp(&mut self) -> Result<(), FolderFault> {
        self.inbox.sync_temp()
    }

    fn publish(&mut self, name: &str) -> Result<(), FolderFault> {
        self.inbox.publish(name)
    }

    fn sync_dir(&mut self) -> Result<(), FolderFault> {
        self.inbox.sync_dir()
    }

    fn failures(&self) -> u64 {
        self.inbox.failures()
    }

    ghost counts_held = { λ shown known. F.counts_held shown.inbox known };

    ghost counts_now = { λ shown moment left earlier leaves. F.counts_now shown.inbox moment left earlier leaves };

    ghost only_now = { λ shown left since. F.only_now shown.inbox left since };
}

impl<R: Eprint, F: Folder + Explained + Drop> Explained for Progress<'_, R, F> {
    ghost reason = { λ shown. F.reason shown.inbox };

    fn last_failure(&self) -> Option<&Failure> {
        self.inbox.last_failure()
    }
}

/// How many of the names are those of messages.
fn message_files(names: &[String]) -> Result<u64, AllocError> {
    let mut files: u64 = 0;
    for name in names {
        if MessageName::read(name.clone()?).is_some() {
            files = files.saturating_add(1);
        }
    }
    Ok(files)
}
