//! Why a device failed and what of a preamble can't be read: lines behind `roombox: device` and `roombox: refused 90`.

use crate::host::ErrorPrinter;
use ical_values::Address;
use sched_box::config::LONGEST;
use sched_box::{Config, DeviceWriter, Output};
use sched_cli::preamble::{Front, preamble_fault, preamble_in, shown_name, shown_octets};
use sched_cli::status::{DEVICE, REFUSED};
use sched_devices::Failure;
use std::alloc::{AllocError, Global};
use std::io::{self, ErrorKind, Read, Write};
use std::rt::Runtime;
use std::str;

/// The most octets of the names of a folder that are looked through for one that isn't UTF-8.
const NAMES: u64 = 67_108_864;

/// A reader that remembers its first octets, as many as a preamble may have and one more, and why it failed.
#[derive(Drop)]
pub(crate) struct WatchedReader<R: Read + Drop> {
    device: R,
    front: Vec<u8>,
    kind: Option<ErrorKind>,
}

impl<R: Read + Drop> WatchedReader<R> {
    /// A reader of which nothing was read yet. All that it remembers has its memory from now on.
    pub(crate) fn new(alloc: Global, device: R) -> Result<WatchedReader<R>, AllocError> {
        Ok(WatchedReader {
            device,
            front: Vec::with_capacity(alloc, LONGEST + 1)?,
            kind: None,
        })
    }

    pub(crate) fn kind(&self) -> Option<ErrorKind> {
        self.kind
    }

    pub(crate) fn front(&self) -> &[u8] {
        self.front.as_slice()
    }
}

impl<R: Read + Drop> Read for WatchedReader<R> {
    fn read(&mut self, buffer: &mut [u8]) -> io::Result<usize> {
        match self.device.read(buffer) {
            Ok(count) => {
                self.kind = None;
                let room = (LONGEST + 1).saturating_sub(self.front.len());
                // there is room for it
                let _ = self.front.extend_from_slice(&buffer[..count.min(room)]);
                Ok(count)
            }
            Err(error) => {
                self.kind = kept_kind(error.kind());
                Err(error)
            }
        }
    }
}

/// A writer that remembers why it failed.
#[derive(Drop)]
pub(crate) struct WatchedWriter<W: Write + Drop> {
    device: W,
    kind: Option<ErrorKind>,
}

impl<W: Write + Drop> WatchedWriter<W> {
    pub(crate) fn new(device: W) -> WatchedWriter<W> {
        WatchedWriter { device, kind: None }
    }

    pub(crate) fn kind(&self) -> Option<ErrorKind> {
        self.kind
    }
}

impl<W: Write + Drop> Write for WatchedWriter<W> {
    fn write(&mut self, octets: &[u8]) -> io::Result<usize> {
        match self.device.write(octets) {
            Ok(count) => {
                self.kind = None;
                Ok(count)
            }
            Err(error) => {
                self.kind = kept_kind(error.kind());
                Err(error)
            }
        }
    }

    fn flush(&mut self) -> io::Result<()> {
        match self.device.flush() {
            Ok(()) => {
                self.kind = None;
                Ok(())
            }
            Err(error) => {
                self.kind = kept_kind(error.kind());
                Err(error)
            }
        }
    }
}

/// What is remembered of a call that failed: one that was interrupted is tried again, and is no failure.
fn kept_kind(kind: ErrorKind) -> Option<ErrorKind> {
    if kind == ErrorKind::Interrupted {
        None
    } else {
        Some(kind)
    }
}

/// Says why a device of this name failed.
pub(crate) fn say_device<R: Runtime + AllocGlobal>(
    rt: &R,
    alloc: Global,
    name: &str,
    kind: ErrorKind,
) {
    // Where memory for the line is refused it isn't said; where standard error fails, nobody is left to be told.
    if let Ok(line) = device_line(alloc, name, kind) {
        let _ = DeviceWriter::new(ErrorPrinter { to: rt }).put(line.as_slice());
    }
}

fn device_line(alloc: Global, name: &str, kind: ErrorKind) -> Result<Vec<u8>, AllocError> {
    let mut line = Vec::new(alloc);
    line.extend_from_slice(b"roombox: ")?;
    line.extend_from_slice(&shown_name(alloc, name)?)?;
    line.extend_from_slice(b": ")?;
    line.extend_from_slice(words_of(kind).as_bytes())?;
    line.extend_from_slice(b"\n")?;
    Ok(line)
}

/// Why a device failed, in words that follow its name.
fn words_of(kind: ErrorKind) -> &'static str {
    match kind {
        ErrorKind::NotFound => "it isn't there",
        ErrorKind::PermissionDenied => "permission is denied",
        ErrorKind::IsADirectory => "it is a folder",
        ErrorKind::NotADirectory => "it isn't in a folder, or is none",
        ErrorKind::StorageFull | ErrorKind::QuotaExceeded => "no space is left",
        ErrorKind::ReadOnlyFilesystem => "it may not be written to",
        ErrorKind::AlreadyExists => "it is there already",
        ErrorKind::FileTooLarge => "it is too long",
        ErrorKind::FilesystemLoop => "its links lead in a circle",
        ErrorKind::InvalidFilename => "its name isn't UTF-8, or is too long",
        ErrorKind::BrokenPipe => "nobody reads it any more",
        _ => "it can't be used",
    }
}

/// Says behind the end of a command, where its status is that of a device, why its output failed. Gives the status.
pub(crate) fn say_output<R: Runtime + AllocGlobal>(
    rt: &R,
    alloc: Global,
    status: u8,
    output: Option<ErrorKind>,
) -> u8 {
    if status == DEVICE {
        if let Some(kind) = output {
            say_device(rt, alloc, "standard output", kind);
        }
    }
    status
}

/// Says why a command that reads a stream ended as it did; and where the stream's preamble is refused, or doesn't name the room that is asked for, why.
pub(crate) fn say_reasons<R: Runtime + AllocGlobal, D: Read + Drop>(
    rt: &R,
    alloc: Global,
    status: u8,
    input: &WatchedReader<D>,
    output: Option<ErrorKind>,
    wanted: Wanted<'_>,
) -> u8 {
    if status == DEVICE {
        if let Some(kind) = input.kind() {
            say_device(rt, alloc, "standard input", kind);
        }
    }
    if status == REFUSED {
        if let Ok(line) = refused_line(alloc, input.front(), Front::Stream, wanted) {
            let _ = DeviceWriter::new(ErrorPrinter { to: rt }).put(line.as_slice());
        }
    }
    say_output(rt, alloc, status, output)
}

/// Whom of its preamble a command is about.
#[derive(Clone, Copy)]
pub(crate) enum Wanted<'a> {
    All,
    Room(&'a Address),
    Organiser(&'a Address),
}

/// Says of a configuration that is refused why, behind the end of `box`. Gives the status.
pub(crate) fn say_configuration<R: Runtime + AllocGlobal>(
    rt: &R,
    alloc: Global,
    status: u8,
    octets: &[u8],
) -> u8 {
    if status == REFUSED {
        if let Ok(line) = refused_line(alloc, octets, Front::Configuration, Wanted::All) {
            let _ = DeviceWriter::new(ErrorPrinter { to: rt }).put(line.as_slice());
        }
    }
    status
}

/// What of the front of a stream, or of a configuration, can't be read; else that it doesn't name who is wanted; nothing where it does.
fn refused_line(
    alloc: Global,
    octets: &[u8],
    front: Front,
    wanted: Wanted<'_>,
) -> Result<Vec<u8>, AllocError> {
    let line = preamble_fault(alloc, octets, front)?;
    if !line.is_empty() {
        return Ok(line);
    }
    match Config::read_with_now(alloc, preamble_in(octets)) {
        Ok((config, _)) => unnamed_line(alloc, &config, wanted),
        Err(_) => Ok(line),
    }
}

/// That a preamble doesn't name who is wanted; nothing where it does.
fn unnamed_line(alloc: Global, config: &Config, wanted: Wanted<'_>) -> Result<Vec<u8>, AllocError> {
    let mut line = Vec::new(alloc);
    let (is_named, who, address) = match wanted {
        Wanted::All => return Ok(line),
        Wanted::Room(room) => (config.has_room(room), "room", room),
        Wanted::Organiser(organiser) => {
            (config.has_organiser(organiser), "organiser", organiser)
        }
    };
    if is_named {
        return Ok(line);
    }
    line.extend_from_slice(b"roombox: the preamble doesn't name the ")?;
    line.extend_from_slice(who.as_bytes())?;
    line.extend_from_slice(b" ")?;
    line.extend_from_slice(&shown_name(alloc, address.as_str())?)?;
    line.extend_from_slice(b"\n")?;
    Ok(line)
}

/// Says why a folder of this path failed last, and of which file.
pub(crate) fn say_folder<R: Runtime + AllocGlobal>(
    rt: &R,
    alloc: Global,
    path: &str,
    failure: &Failure,
) {
    // Where memory for the line is refused it isn't said; where standard error fails, nobody is left to be told.
    if let Ok(line) = folder_line(rt, alloc, path, failure) {
        let _ = DeviceWriter::new(ErrorPrinter { to: rt }).put(line.as_slice());
    }
}

/// `roombox: inbox/00000001-20250102T000000Z.ics: permission is denied`, as a line; without the file where the folder itself failed.
fn folder_line<R: Runtime + AllocGlobal>(
    rt: &R,
    alloc: Global,
    path: &str,
    failure: &Failure,
) -> Result<Vec<u8>, AllocError> {
    let mut line = Vec::new(alloc);
    line.extend_from_slice(b"roombox: ")?;
    line.extend_from_slice(&shown_name(alloc, path)?)?;
    if let Some(name) = &failure.name {
        append_file(alloc, &mut line, name.as_bytes())?;
    } else if failure.kind == ErrorKind::InvalidFilename {
        append_file(alloc, &mut line, &unreadable_name(rt, alloc, path)?)?;
    }
    line.extend_from_slice(b": ")?;
    line.extend_from_slice(words_of(failure.kind).as_bytes())?;
    line.extend_from_slice(b"\n")?;
    Ok(line)
}

/// A slash and the name of a file, as it is shown; nothing where there is no name.
fn append_file(alloc: Global, line: &mut Vec<u8>, name: &[u8]) -> Result<(), AllocError> {
    if name.is_empty() {
        return Ok(());
    }
    line.extend_from_slice(b"/")?;
    line.extend_from_slice(&shown_octets(alloc, name)?)
}

/// A name in the folder of this path that isn't UTF-8; nothing where none is found.
fn unreadable_name<R: Runtime + AllocGlobal>(
    rt: &R,
    alloc: Global,
    path: &str,
) -> Result<Vec<u8>, AllocError> {
    let mut names = Vec::new(alloc);
    // With the slash a link to a folder is followed.
    let Ok(folder) = rt.open_dir(format!(in alloc; "{path}/")?.as_str()) else {
        return Ok(names);
    };
    if folder.take(NAMES).read_to_end(&mut names).is_err() {
        return Ok(Vec::new(alloc));
    }
    let mut found = Vec::new(alloc);
    for name in names.split(|octet| *octet == 0) {
        if found.is_empty() && str::from_utf8(name).is_err() {
            found.extend_from_slice(name)?;
        }
    }
    Ok(found)
}
