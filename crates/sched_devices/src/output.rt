//! Where octets are written to: memory, nowhere, or a device that may fail.

ghost use Rattle.std.specs.Prelude.{◌≡◌, ◌≤◌, ◌<◌, ℕ, List, Option, Some, None, Bool, true, false, length, take, IfOk, IfErr, OnOk, OnErr};
ghost use Rattle.std.specs.Io.KnownBytes.{Appends, Keeps};
ghost use Rattle.sched_devices.specs.Output.{KeepsButFailed, StopsWriting};
ghost use Rattle.sched_devices.specs.declared.output.WriteFault.TheVariants as fault;

use crate::input::TRIES;
use std::alloc::AllocError;
use std::io::{self, ErrorKind, Write};

/// Why octets weren't written whole.
#[derive(Clone, Copy, Debug, PartialEq, Eq)]
pub enum WriteFault {
    /// The writer failed: a beginning of them may have been written.
    Failed,
    /// Out of memory, and none of them was written.
    Memory,
}

impl From<AllocError> for WriteFault {
    ghost from_gives = { λ _ e. e ≡ fault.Memory };

    fn from(_error: AllocError) -> WriteFault {
        WriteFault::Memory
    }
}

/// A writer that holds nothing back, and says whether it has failed.
pub trait Output {
    // The octets that were written, where they are known.
    ghost contents: { Self → Option (List ℕ) } = { λ _. None };

    // A call of it has failed. Only a call that fails changes it.
    ghost has_failed: { Self → Bool };

    // What it is given may be lost: a call of it has failed, or may be refused memory.
    ghost may_lose: { Self → Bool };

    /// Writes octets whole, and holds none of them back: a program that waits for an answer gets it at once.
    fn put(&mut self, octets: &[u8]) -> Result<(), WriteFault>
        ensures written { OnOk result (Appends (Self.contents self.old) (Self.contents self.new) octets.now) }
        ensures stops { IfErr result (StopsWriting (Self.contents self.old) (Self.contents self.new) (Self.has_failed self.new) octets.now) }
        ensures mark { OnOk result (Self.has_failed self.new ≡ Self.has_failed self.old) }
        ensures told { IfErr result (KeepsButFailed (Self.has_failed self.old) (Self.has_failed self.new)) }
        ensures lost { OnErr result (Self.may_lose self.new ≡ true) };
}

/// A list of octets never fails, but may run out of memory.
impl Output for Vec<u8> {
    ghost contents = { λ list. Some list.items };

    ghost has_failed = { λ _. false };

    ghost may_lose = { λ _. true };

    fn put(&mut self, octets: &[u8]) -> Result<(), WriteFault> {
        match self.extend_from_slice(octets) {
            Ok(()) => Ok(()),
            Err(_) => Err(WriteFault::Memory),
        }
    }
}

/// Takes all, and keeps nothing.
#[derive(Drop)]
pub struct Nowhere;

impl Output for Nowhere {
    ghost has_failed = { λ _. false };

    ghost may_lose = { λ _. false };

    fn put(&mut self, _octets: &[u8]) -> Result<(), WriteFault> {
        Ok(())
    }
}

/// A writer to a device, without a buffer. An interrupted write is tried again, up to 1,000 times; any other error, and a write that takes
/// nothing, is a failure.
#[derive(Drop)]
pub struct DeviceWriter<W: Write + Drop> {
    device: W,
    failed: bool,
}

impl<W: Write + Drop> DeviceWriter<W> {
    /// A writer that hasn't failed, and has given nothing to the device yet.
    pub fn new(device: W) -> DeviceWriter<W>
        ensures mark { result.failed ≡ false }
        ensures device { result.device ≡ device }
    {
        DeviceWriter {
            device,
            failed: false,
        }
    }

    /// The device.
    pub fn get_ref(&self) -> &W
        ensures { result.now ≡ self.now.device }
    {
        &self.device
    }
}

impl<W: Write + Drop> Output for DeviceWriter<W> {
    ghost contents = { λ w. W.contents w.device };

    ghost has_failed = { λ w. w.failed };

    ghost may_lose = { λ w. w.failed };

    fn put(&mut self, octets: &[u8]) -> Result<(), WriteFault> {
        let written = write_whole(&mut self.device, octets);
        if written.is_err() {
            self.failed = true;
            return Err(WriteFault::Failed);
        }
        Ok(())
    }
}

/// Writes octets whole, and flushes them.
pub(crate) fn write_whole<W: Write>(writer: &mut W, octets: &[u8]) -> io::Result<()>
    ensures written { OnOk result (Appends (W.contents writer.old) (W.contents writer.new) octets.now) }
    ensures cut { OnErr result ((n : ℕ) × Appends (W.contents writer.old) (W.contents writer.new) (take n octets.now)) }
{
    let mut rest = octets;
    while !rest.is_empty() {
        let count = write_front(writer, rest)?;
        rest = &rest[count..];
    }
    flush(writer)
}

/// One write, tried again where it is interrupted: how many of the octets were taken, at least one.
fn write_front<W: Write>(writer: &mut W, octets: &[u8]) -> io::Result<usize>
    ensures some { IfOk result (λ count. 0 < count) }
    ensures within { IfOk result (λ count. count ≤ length octets.now) }
    ensures written { IfOk result (λ count. Appends (W.contents writer.old) (W.contents writer.new) (take count octets.now)) }
    ensures keeps { OnErr result (Keeps (W.contents writer.old) (W.contents writer.new)) }
{
    for _ in 0..TRIES {
        match writer.write(octets) {
            Ok(0) => return Err(io::Error::from(ErrorKind::WriteZero)),
            Ok(count) => return Ok(count),
            Err(error) if error.kind() == ErrorKind::Interrupted => {}
            Err(error) => return Err(error),
        }
    }
    Err(io::Error::from(ErrorKind::Interrupted))
}

/// One flush, tried again where it is interrupted.
fn flush<W: Write>(writer: &mut W) -> io::Result<()>
    ensures keeps { Keeps (W.contents writer.old) (W.contents writer.new) }
{
    for _ in 0..TRIES {
        match writer.flush() {
            Ok(()) => return Ok(()),
            Err(error) if error.kind() == ErrorKind::Interrupted => {}
            Err(error) => return Err(error),
        }
    }
    Err(io::Error::from(ErrorKind::Interrupted))
}
