//! The temporary of a folder in memory.

ghost use Rattle.std.specs.Prelude.{◌≡◌, false, true, IfOk};
ghost use Rattle.sched_devices.specs.Memory.{no_temporary};

use crate::memory_file::MemoryFile;
use std::alloc::{AllocError, Global};
use std::marker::Model;

/// Octets that wait for a name.
#[derive(Drop)]
pub(crate) struct TemporaryFile {
    octets: Vec<u8>,
    /// A write of them was Ok.
    is_there: bool,
    is_synced: bool,
}

impl Model for TemporaryFile {
    ghost use Rattle.profile.specs.streams.Folders.{Temporary};

    ghost Value = { Temporary };

    ghost view = { λ file. record { is_there = file.is_there; octets = file.octets.items; is_synced = file.is_synced } };
}

impl TemporaryFile {
    /// None.
    pub(crate) fn none(alloc: Global) -> TemporaryFile
        ensures { result ≡ no_temporary }
    {
        TemporaryFile::torn(Vec::new(alloc))
    }

    /// What a stop left of one: octets of which no write was Ok.
    pub(crate) fn torn(octets: Vec<u8>) -> TemporaryFile
        ensures { result ≡ record { is_there = false; octets = octets.items; is_synced = false } }
    {
        TemporaryFile {
            octets,
            is_there: false,
            is_synced: false,
        }
    }

    /// Writes other octets, which aren't synced.
    pub(crate) fn write(&mut self, octets: Vec<u8>)
        ensures { self.new ≡ record { is_there = self.old.is_there; octets = octets.items; is_synced = false } }
    {
        self.octets = octets;
        self.is_synced = false;
    }

    /// The write of it was Ok.
    pub(crate) fn confirm(&mut self)
        ensures { self.new ≡ record { is_there = true; octets = self.old.octets; is_synced = self.old.is_synced } }
    {
        self.is_there = true;
    }

    /// From now on a stop leaves its octets.
    pub(crate) fn sync(&mut self)
        ensures { self.new ≡ record { is_there = self.old.is_there; octets = self.old.octets; is_synced = true } }
    {
        self.is_synced = true;
    }

    /// The file that it is under a name, which isn't synced.
    pub(crate) fn named(&self, alloc: Global, name: &str) -> Result<MemoryFile, AllocError>
        ensures { IfOk result (λ file. file
            ≡ record { name = name.now; octets = self.now.octets; is_synced = self.now.is_synced; is_name_synced = false }) }
    {
        let file = MemoryFile::new(alloc, name, &self.octets, self.is_synced, false)?;
        Ok(file)
    }
}
