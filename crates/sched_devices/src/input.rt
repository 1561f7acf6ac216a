//! Where octets are read from: octets in memory, or a device that may fail.

ghost use Rattle.std.specs.Prelude.{◌≡◌, ◌<◌, ◌≤◌, ◌+◌, ◌-◌, ◌++◌, ℕ, List, [], Option, Some, None, Bool, true, false, length, take, drop, IfSome, OnSome, IfOk, OnOk, OnErr};
ghost use Rattle.std.specs.Io.KnownBytes.{Consumes, IsAtEnd, Keeps};
ghost use Rattle.std.specs.Io.{StartsWith};
ghost use Rattle.std.specs.Io.Buffered.{reader_buffer, reader_capacity, reader_inner, reader_remaining};
ghost use Rattle.sched_devices.specs.Input.{KeepsTaken, MayFollow, TakesOctets, in_memory, of_device};
ghost use Rattle.sched_devices.specs.Taking.{device_follows, kept_more, kept_nothing, known_follows, taken_more, taken_nothing};

use std::alloc::{AllocError, Global};
use std::io::{self, BufRead, BufReader, ErrorKind, Read};

/// How often an interrupted call is tried again before the device counts as failed.
pub(crate) const TRIES: u32 = 1_000;

/// A reader that lends its octets, and says whether it has failed.
pub trait Input {
    // The octets that are still to come, where they are known.
    ghost remaining: { Self → Option (List ℕ) } = { λ _. None };

    // The octets that it lends.
    ghost lent: { Self → List ℕ };

    // A call of it has failed. Only a call that fails changes it.
    ghost has_failed: { Self → Bool };

    // Its input has ended: no octets come but those that it lends.
    ghost has_ended: { Self → Bool };

    // How often it was filled, where it counts that.
    ghost fills: { Self → ℕ } = { λ _. 0 };

    // These octets were taken of it, from the one state to the other.
    ghost takes: { Self → List ℕ → Self → Type 0 };

    /// Has octets to lend, unless the input has ended: then it stays so, and no octet comes any more. An error only where it has failed.
    fn fill(&mut self) -> io::Result<()>
        ensures keeps { Keeps (Self.remaining self.old) (Self.remaining self.new) }
        ensures front { IfSome (Self.remaining self.new) (λ octets. StartsWith octets (Self.lent self.new)) }
        ensures end { OnOk result (length (Self.lent self.new) ≡ 0 → OnSome (Self.remaining self.old) (IsAtEnd (Self.remaining self.new))) }
        ensures failed { OnErr result (Self.has_failed self.new ≡ true) }
        ensures mark { OnOk result (Self.has_failed self.new ≡ Self.has_failed self.old) }
        ensures counted { Self.fills self.new ≤ Self.fills self.old + 1 }
        ensures takes { length (Self.lent self.old) ≡ 0 → Self.takes self.old [] self.new }
        ensures ended { OnOk result (length (Self.lent self.new) ≡ 0 → Self.has_ended self.new ≡ true) };

    /// The octets that it lends: those that come next.
    fn buffer(&self) -> &[u8]
        ensures lent { result.now ≡ Self.lent self.now }
        ensures front { IfSome (Self.remaining self.now) (λ octets. StartsWith octets (Self.lent self.now)) };

    /// Takes this many of them.
    fn consume(&mut self, count: usize)
        ensures takes { count ≤ length (Self.lent self.old) → IfSome (Self.remaining self.old) (λ octets. StartsWith octets (Self.lent self.old))
            → Consumes (Self.remaining self.old) (Self.remaining self.new) (take count (Self.lent self.old)) }
        ensures taken { count ≤ length (Self.lent self.old) → Self.takes self.old (take count (Self.lent self.old)) self.new }
        ensures rest { Self.lent self.new ≡ drop count (Self.lent self.old) }
        ensures mark { Self.has_failed self.new ≡ Self.has_failed self.old }
        ensures counted { Self.fills self.new ≡ Self.fills self.old }
        ensures ended { Self.has_ended self.new ≡ Self.has_ended self.old };

    // Octets that are known may follow.
    ghost known_follows: { (s : Self) → IfSome (remaining s) (MayFollow (lent s) (has_ended s)) };

    // Nothing is taken where nothing changes.
    ghost takes_nothing: { (s : Self) → takes s [] s };

    // What is taken in turn.
    ghost takes_more: { (a b c : Self) (first second : List ℕ) → takes a first b → takes b second c → takes a (first ++ second) c };

    // Where the octets are known, those that were taken are the first of them.
    ghost takes_known: { (a b : Self) (taken : List ℕ) → takes a taken b → Consumes (remaining a) (remaining b) taken };

    // What may follow then might follow before, behind what was taken.
    ghost takes_follows: { (a b : Self) (taken octets : List ℕ) → takes a taken b → MayFollow (lent b) (has_ended b) octets → MayFollow (lent a) (has_ended a) (taken ++ octets) };
}

/// Has octets lent by a reader, unless its input has ended. It is filled only where it lends none: what it lends is consumed first.
/// An error only where the reader has failed.
pub fn lend<R: Input>(reader: &mut R) -> io::Result<()>
    ensures keeps { Keeps (R.remaining reader.old) (R.remaining reader.new) }
    ensures end { OnOk result (length (R.lent reader.new) ≡ 0 → OnSome (R.remaining reader.old) (IsAtEnd (R.remaining reader.new))) }
    ensures none { OnErr result (length (R.lent reader.old) ≡ 0) }
    ensures failed { OnErr result (R.has_failed reader.new ≡ true) }
    ensures mark { OnOk result (R.has_failed reader.new ≡ R.has_failed reader.old) }
    ensures counted { R.fills reader.new ≤ R.fills reader.old + (1 - length (R.lent reader.old)) }
    ensures takes { R.takes reader.old [] reader.new }
    ensures ended { OnOk result (length (R.lent reader.new) ≡ 0 → R.has_ended reader.new ≡ true) }
{
    if reader.buffer().is_empty() {
        reader.fill()
    } else {
        Ok(())
    }
}

/// Octets in memory never fail, and all of them are lent.
impl Input for &[u8] {
    ghost remaining = { λ octets. Some octets.now };

    ghost lent = { λ octets. octets.now };

    ghost has_failed = { λ _. false };

    ghost has_ended = { λ _. true };

    ghost takes = { λ old taken new. TakesOctets (in_memory old.now) taken (in_memory new.now) };

    ghost known_follows = { λ octets. known_follows octets.now };

    ghost takes_nothing = { λ _. taken_nothing _ };

    ghost takes_more = { λ _ _ _ first second. taken_more _ _ _ first second };

    ghost takes_known = { λ _ _ _ taken. taken.consumed };

    ghost takes_follows = { λ _ _ _ octets taken. taken.follows octets };

    fn fill(&mut self) -> io::Result<()> {
        Ok(())
    }

    fn buffer(&self) -> &[u8] {
        *self
    }

    fn consume(&mut self, count: usize) {
        let octets: &[u8] = *self;
        *self = &octets[count.min(octets.len())..];
    }
}

/// A reader of a device, with a buffer. An interrupted read is tried again, up to 1,000 times; any other error is a failure.
/// A read of nothing is the end of the input: the device isn't read again, even where it would go on.
#[derive(Drop)]
pub struct DeviceReader<R: Read + Drop> {
    reader: BufReader<R>,
    failed: bool,
    /// A read gave nothing.
    ended: bool,
}

impl<R: Read + Drop> DeviceReader<R> {
    /// A reader that hasn't failed, and has taken nothing of the device yet. Fails only where there is no memory for the buffer.
    pub fn new(alloc: Global, device: R) -> Result<DeviceReader<R>, AllocError>
        ensures mark { IfOk result (λ reader. reader.failed ≡ false) }
        ensures goes_on { IfOk result (λ reader. reader.ended ≡ false) }
        ensures device { IfOk result (λ reader. reader_inner reader.reader ≡ device) }
        ensures nothing { IfOk result (λ reader. reader_buffer reader.reader ≡ []) }
        ensures capacity { IfOk result (λ reader. reader_capacity reader.reader ≡ 8_192) }
    {
        let Ok(reader) = BufReader::new(alloc, device) else {
            return Err(AllocError);
        };
        Ok(DeviceReader {
            reader,
            failed: false,
            ended: false,
        })
    }

    /// An input over a device with a buffer of this many octets, at least one: a buffer of none would show nothing of the device.
    /// Fails only where there is no memory for it.
    pub fn with_capacity(
        alloc: Global,
        capacity: usize,
        device: R,
    ) -> Result<DeviceReader<R>, AllocError>
        ensures mark { IfOk result (λ reader. reader.failed ≡ false) }
        ensures goes_on { IfOk result (λ reader. reader.ended ≡ false) }
        ensures device { IfOk result (λ reader. reader_inner reader.reader ≡ device) }
        ensures nothing { IfOk result (λ reader. reader_buffer reader.reader ≡ []) }
        ensures capacity { IfOk result (λ reader. 0 < capacity → reader_capacity reader.reader ≡ capacity) }
        ensures some { IfOk result (λ reader. 0 < reader_capacity reader.reader) }
    {
        let Ok(reader) = BufReader::with_capacity(alloc, capacity.max(1), device) else {
            return Err(AllocError);
        };
        Ok(DeviceReader {
            reader,
            failed: false,
            ended: false,
        })
    }

    /// One try to have octets in the buffer.
    fn fill_once(&mut self) -> io::Result<()>
        requires goes_on { self.old.ended ≡ false }
        ensures keeps { Keeps (reader_remaining R.remaining self.old.reader) (reader_remaining R.remaining self.new.reader) }
        ensures end { OnOk result (length (reader_buffer self.new.reader) ≡ 0
            → OnSome (reader_remaining R.remaining self.old.reader) (IsAtEnd (reader_remaining R.remaining self.new.reader))) }
        ensures mark { self.new.failed ≡ self.old.failed }
        ensures ended { OnOk result (length (reader_buffer self.new.reader) ≡ 0 → self.new.ended ≡ true) }
        ensures goes_on { OnOk result (0 < length (reader_buffer self.new.reader) → self.new.ended ≡ false) }
        ensures fails { OnErr result (self.new.ended ≡ false) }
    {
        self.reader.fill_buf()?;
        self.ended = self.reader.buffer().is_empty();
        Ok(())
    }
}

impl<R: Read + Drop> Input for DeviceReader<R> {
    ghost remaining = { λ r. (of_device R.remaining r.reader r.ended).known };

    ghost lent = { λ r. reader_buffer r.reader };

    ghost has_failed = { λ r. r.failed };

    ghost has_ended = { λ r. r.ended };

    ghost takes = { λ old taken new. TakesOctets (of_device R.remaining old.reader old.ended) taken (of_device R.remaining new.reader new.ended) };

    ghost known_follows = { λ r. device_follows (reader_buffer r.reader) r.ended (reader_capacity r.reader) (R.remaining (reader_inner r.reader)) };

    ghost takes_nothing = { λ _. taken_nothing _ };

    ghost takes_more = { λ _ _ _ first second. taken_more _ _ _ first second };

    ghost takes_known = { λ _ _ _ taken. taken.consumed };

    ghost takes_follows = { λ _ _ _ octets taken. taken.follows octets };

    fn fill(&mut self) -> io::Result<()> {
        if self.ended {
            return Ok(());
        }
        for _ in 0..TRIES {
            match self.fill_once() {
                Ok(()) => return Ok(()),
                Err(error) if error.kind() == ErrorKind::Interrupted => {}
                Err(error) => {
                    self.failed = true;
                    return Err(error);
                }
            }
        }
        self.failed = true;
        Err(io::Error::from(ErrorKind::Interrupted))
    }

    fn buffer(&self) -> &[u8] {
        self.reader.buffer()
    }

    fn consume(&mut self, count: usize) {
        self.reader.consume(count);
    }
}

/// A reader that keeps the octets that are taken of another one.
#[derive(Drop)]
pub struct Recorder<R: Input + Drop> {
    reader: R,
    octets: Vec<u8>,
    /// Memory was refused for some of them.
    lost: bool,
}

impl<R: Input + Drop> Recorder<R> {
    /// A recorder before a reader, of which nothing is taken yet.
    pub fn new(alloc: Global, reader: R) -> Recorder<R>
        ensures nothing { result.octets.items ≡ [] }
        ensures mark { result.lost ≡ false }
        ensures reader { result.reader ≡ reader }
    {
        Recorder {
            reader,
            octets: Vec::new(alloc),
            lost: false,
        }
    }

    /// The octets that were taken: all of them, unless some are lost.
    pub fn octets(&self) -> &[u8]
        ensures { result.now ≡ self.now.octets.items }
    {
        self.octets.as_slice()
    }

    /// Whether memory was refused for some of them.
    pub fn is_lost(&self) -> bool
        ensures { result ≡ self.now.lost }
    {
        self.lost
    }
}

/// What is taken of it is added to what it keeps.
impl<R: Input + Drop> Input for Recorder<R> {
    ghost remaining = { λ r. R.remaining r.reader };

    ghost lent = { λ r. R.lent r.reader };

    ghost has_failed = { λ r. R.has_failed r.reader };

    ghost has_ended = { λ r. R.has_ended r.reader };

    ghost fills = { λ r. R.fills r.reader };

    ghost takes = { λ old taken new. KeepsTaken old.octets.items old.lost taken new.octets.items new.lost × R.takes old.reader taken new.reader };

    ghost known_follows = { λ r. R.known_follows r.reader };

    ghost takes_nothing = { λ r. (kept_nothing r.octets.items r.lost, R.takes_nothing r.reader) };

    ghost takes_more = { λ a b c first second one two. (kept_more a.octets.items b.octets.items c.octets.items a.lost b.lost c.lost first second one.0 two.0, R.takes_more a.reader b.reader c.reader first second one.1 two.1) };

    ghost takes_known = { λ a b taken takes. R.takes_known a.reader b.reader taken takes.1 };

    ghost takes_follows = { λ a b taken octets takes. R.takes_follows a.reader b.reader taken octets takes.1 };

    fn fill(&mut self) -> io::Result<()> {
        self.reader.fill()
    }

    fn buffer(&self) -> &[u8] {
        self.reader.buffer()
    }

    fn consume(&mut self, count: usize) {
        let lent = self.reader.buffer();
        let taken = &lent[..count.min(lent.len())];
        if self.octets.extend_from_slice(taken).is_err() {
            self.lost = true;
        }
        self.reader.consume(count);
    }
}
