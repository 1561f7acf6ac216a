//! The files that a folder in memory holds.

ghost use Rattle.std.specs.Prelude.{◌≡◌, ◌++◌, ◌∷◌, [], true, map, string_bytes, option_copied, option_map, IfOk};
ghost use Rattle.std.specs.Option.{is_some};
ghost use Rattle.sched_devices.specs.Memory.{file_named, files_left, has_name, is_left, image_of, left_file, names_held, with_name_synced};

use std::alloc::{AllocError, Global};
use std::marker::Model;

/// A file: its name, its octets, and whether a stop leaves the octets and the name as they are.
#[derive(Drop)]
pub(crate) struct MemoryFile {
    name: String,
    octets: Vec<u8>,
    is_synced: bool,
    is_name_synced: bool,
}

impl Model for MemoryFile {
    ghost use Rattle.std.specs.Prelude.{string_bytes};
    ghost use Rattle.sched_devices.specs.Memory.{HeldFile};

    ghost Value = { HeldFile };

    ghost view = { λ file.
        record { name = string_bytes file.name; octets = file.octets.items; is_synced = file.is_synced; is_name_synced = file.is_name_synced } };
}

impl MemoryFile {
    /// A file of this name, with copies of these octets.
    pub(crate) fn new(
        alloc: Global,
        name: &str,
        octets: &[u8],
        is_synced: bool,
        is_name_synced: bool,
    ) -> Result<MemoryFile, AllocError>
        ensures { IfOk result (λ file. file
            ≡ record { name = name.now; octets = octets.now; is_synced = is_synced; is_name_synced = is_name_synced }) }
    {
        let name = String::from_str(alloc, name)?;
        let octets = octets.to_vec(alloc)?;
        Ok(MemoryFile {
            name,
            octets,
            is_synced,
            is_name_synced,
        })
    }

    /// Whether this is its name, octet by octet.
    fn has_name(&self, name: &str) -> bool
        ensures { result ≡ has_name name.now self.now }
    {
        self.name.as_str() == name
    }

    /// Its octets.
    pub(crate) fn octets(&self) -> &[u8]
        ensures { result.now ≡ self.now.octets }
    {
        &self.octets
    }

    /// Whether a stop leaves it, where names that aren't synced may be lost.
    fn is_left(&self, lost: bool) -> bool
        ensures { result ≡ is_left lost self.now }
    {
        !lost || self.is_name_synced
    }

    /// A copy of the file.
    fn copied(&self, alloc: Global) -> Result<MemoryFile, AllocError>
        ensures { IfOk result (λ file. file ≡ self.now) }
    {
        let file = MemoryFile::new(
            alloc,
            self.name.as_str(),
            &self.octets,
            self.is_synced,
            self.is_name_synced,
        )?;
        Ok(file)
    }

    /// A copy of the file as it is once the folder is synced.
    fn name_synced(&self, alloc: Global) -> Result<MemoryFile, AllocError>
        ensures { IfOk result (λ file. file ≡ with_name_synced self.now) }
    {
        let file = MemoryFile::new(
            alloc,
            self.name.as_str(),
            &self.octets,
            self.is_synced,
            true,
        )?;
        Ok(file)
    }

    /// What a stop leaves of it, with these octets where its own aren't synced.
    fn left(&self, alloc: Global, torn: &[u8]) -> Result<MemoryFile, AllocError>
        ensures { IfOk result (λ file. file ≡ left_file torn.now self.now) }
    {
        let octets = if self.is_synced { &self.octets } else { torn };
        let file = MemoryFile::new(alloc, self.name.as_str(), octets, true, true)?;
        Ok(file)
    }
}

/// The file of this name, if there is one.
pub(crate) fn file_named<'a>(files: &'a [MemoryFile], name: &str) -> Option<&'a MemoryFile>
    ensures { option_copied result ≡ file_named name.now files.now }
{
    files.iter().find(|file| file.has_name(name))
}

/// Whether one of them has this name.
pub(crate) fn has_file(files: &[MemoryFile], name: &str) -> bool
    ensures { result ≡ is_some (file_named name.now files.now) }
{
    file_named(files, name).is_some()
}

/// The octets of the file of this name, if there is one.
pub(crate) fn octets_of(
    alloc: Global,
    files: &[MemoryFile],
    name: &str,
) -> Result<Option<Vec<u8>>, AllocError>
    ensures { IfOk result (λ octets. option_map (λ list. list.items) octets ≡ image_of files.now name.now) }
{
    match file_named(files, name) {
        Some(file) => Ok(Some(file.octets().to_vec(alloc)?)),
        None => Ok(None),
    }
}

/// The names of files.
pub(crate) fn names_of(alloc: Global, files: &[MemoryFile]) -> Result<Vec<String>, AllocError>
    ensures { IfOk result (λ names. map string_bytes names.items ≡ names_held files.now) }
{
    let mut names = Vec::new(alloc);
    for file in files {
        names.push(String::from_str(alloc, file.name.as_str())?)?;
    }
    Ok(names)
}

/// Copies of files.
pub(crate) fn copied(alloc: Global, files: &[MemoryFile]) -> Result<Vec<MemoryFile>, AllocError>
    ensures { IfOk result (λ copies. copies.items ≡ files.now) }
{
    let mut copies = Vec::new(alloc);
    for file in files {
        copies.push(file.copied(alloc)?)?;
    }
    Ok(copies)
}

/// Copies of files, and one more.
pub(crate) fn with_file(
    alloc: Global,
    files: &[MemoryFile],
    file: MemoryFile,
) -> Result<Vec<MemoryFile>, AllocError>
    ensures { IfOk result (λ all. all.items ≡ files.now ++ file ∷ []) }
{
    let mut all = copied(alloc, files)?;
    all.push(file)?;
    Ok(all)
}

/// Copies of files as they are once the folder is synced.
pub(crate) fn names_synced(
    alloc: Global,
    files: &[MemoryFile],
) -> Result<Vec<MemoryFile>, AllocError>
    ensures { IfOk result (λ synced. synced.items ≡ map with_name_synced files.now) }
{
    let mut synced = Vec::new(alloc);
    for file in files {
        synced.push(file.name_synced(alloc)?)?;
    }
    Ok(synced)
}

/// What a stop leaves of them: all, or with `lost` only those whose names are synced.
pub(crate) fn files_left(
    alloc: Global,
    files: &[MemoryFile],
    lost: bool,
    torn: &[u8],
) -> Result<Vec<MemoryFile>, AllocError>
    ensures { IfOk result (λ left. left.items ≡ files_left lost torn.now files.now) }
{
    let mut left = Vec::new(alloc);
    for file in files {
        if file.is_left(lost) {
            left.push(file.left(alloc, torn)?)?;
        }
    }
    Ok(left)
}
