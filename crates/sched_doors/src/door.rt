//! A reader behind the door: it lends what another reader lends, but each object that a room couldn't read is made readable.
//! A stream may begin with a preamble or with an object. One object is in memory at a time; one that is longer than a message may be goes through
//! in pieces, as it is.

ghost use Rattle.std.specs.Prelude.{◌≡◌, ◌<◌, ◌≤◌, ◌++◌, ℕ, List, [], drop, length, map, take, is_some, string_bytes, true, false, IfErr, OnErr, OnOk};
ghost use Rattle.cal_doors.specs.Adapted.{list_of};
ghost use Rattle.sched_devices.specs.Input.{TakesOctets};
ghost use Rattle.sched_devices.specs.Taking.{taken_more, taken_nothing};
ghost use Rattle.sched_doors.specs.Handing.{HandsOn, IsForgotten, IsFrontPiece, IsPreamblePiece, LendsAsCame, Passes, after_preamble, begun_at, lending};
ghost use Rattle.sched_doors.specs.Pieces.{IsCauseOf, IsEmpty, KeepsUnlessRead};
ghost use Rattle.sched_doors.specs.declared.fault.DoorFault.TheVariants.{Memory};
ghost use Rattle.sched_doors.specs.declared.place.Place.TheVariants.{Start, Between, Front, Long};

use crate::fault::DoorFault;
use crate::piece::{MOST_OCTETS, Piece, take_front, take_object, take_piece};
use crate::place::{FrontCutter, Place};
use crate::preamble::{LineSoFar, begins_with_preamble, take_preamble};
use cal_doors::adapt;
use ical_lines::Cutter;
use ical_tree::Component;
use sched_devices::Input;
use std::alloc::Global;
use std::io::{self, ErrorKind};

/// A reader behind the door.
#[derive(Drop)]
pub struct Door<'c, 'a, R: Input + Drop> {
    alloc: Global,
    reader: R,
    /// An object with VTIMEZONEs for the names that mean none in an object that comes.
    listed: Option<&'c Component<'a>>,
    place: Place,
    /// What was read last; of an object that isn't whole all that was read.
    octets: Vec<u8>,
    /// How many of these were lent before, or were consumed.
    consumed: usize,
    /// How many objects have begun, up to the greatest u64.
    objects: u64,
    /// What was read last is an object that was made readable.
    is_adapted: bool,
    /// The zones that go on in it beyond what is stated.
    going_on: Vec<String>,
    /// Why it failed last as a reader.
    fault: Option<DoorFault>,
    /// As a reader it had nothing to lend: its input has ended.
    ended: bool,
}

impl<'c, 'a, R: Input + Drop> Door<'c, 'a, R> {
    /// A door before a reader of which nothing is read yet, with the VTIMEZONEs of an object for the names that mean none in an object that
    /// comes.
    pub fn new(alloc: Global, listed: Option<&'c Component<'a>>, reader: R) -> Door<'c, 'a, R>
        ensures listed { result.listed ≡ listed.entry }
        ensures reader { result.reader ≡ reader }
        ensures place { result.place ≡ Start }
        ensures fault { is_some result.fault ≡ false }
        ensures goes_on { result.ended ≡ false }
        ensures lent { drop result.consumed result.octets.items ≡ [] }
    {
        Door {
            alloc,
            reader,
            listed,
            place: Place::Start,
            octets: Vec::new(alloc),
            consumed: 0,
            objects: 0,
            is_adapted: false,
            going_on: Vec::new(alloc),
            fault: None,
            ended: false,
        }
    }

    /// How many objects have begun, up to the greatest u64.
    pub fn objects(&self) -> u64
        ensures { result ≡ self.now.objects }
    {
        self.objects
    }

    /// Whether what was read last is an object that was made readable.
    pub fn is_adapted(&self) -> bool
        ensures { result ≡ self.now.is_adapted }
    {
        self.is_adapted
    }

    /// The names of the zones that go on in it beyond what is stated of them.
    pub fn going_on(&self) -> &[String]
        ensures { result.now ≡ self.now.going_on.items }
    {
        self.going_on.as_slice()
    }

    /// Whether it failed last, as a reader, because it was out of memory, and not because its own reader failed.
    pub fn is_out_of_memory(&self) -> bool {
        match self.fault {
            Some(DoorFault::Memory) => true,
            Some(DoorFault::Read) | None => false,
        }
    }

    /// Reads on: a piece of the preamble; of the next object the empty lines before it that have come, and its first octet; the rest of that
    /// object; or a piece of one that is too long. Then it lends that: the rest of the object as it came, or, if that is needed and can be, so
    /// that both are the object made readable. Nothing only at the end of the input, and where it fails. What it lent before is forgotten.
    pub fn pass(&mut self) -> Result<(), DoorFault>
        ensures passes { OnOk result (Passes (list_of self.old.listed) (R.remaining self.old.reader) (R.remaining self.new.reader) self.old.place self.new.place
            (begun_at self.old.place self.old.octets.items) (begun_at self.new.place self.new.octets.items)
            self.new.is_adapted (map string_bytes self.new.going_on.items) (drop self.new.consumed self.new.octets.items)) }
        ensures nothing { OnErr result (drop self.new.consumed self.new.octets.items ≡ []) }
        ensures cause { IfErr result (IsCauseOf (R.has_failed self.new.reader)) }
        ensures mark { OnOk result (R.has_failed self.new.reader ≡ R.has_failed self.old.reader) }
        ensures told { IfErr result (KeepsUnlessRead (R.has_failed self.old.reader) (R.has_failed self.new.reader)) }
        ensures listed { self.new.listed ≡ self.old.listed }
        ensures fault { self.new.fault ≡ self.old.fault }
    {
        self.forget();
        let passed = self.pass_next();
        if passed.is_err() {
            self.consumed = self.octets.len();
        }
        passed
    }

    /// Forgets what was lent, but keeps what was read of an object that isn't whole.
    fn forget(&mut self)
        ensures forgotten { IsForgotten self.new.place self.new.octets.items self.new.consumed self.new.is_adapted self.new.going_on.items }
        ensures octets { self.new.octets.items ≡ begun_at self.old.place self.old.octets.items }
        ensures place { self.new.place ≡ self.old.place }
        ensures reader { self.new.reader ≡ self.old.reader }
        ensures listed { self.new.listed ≡ self.old.listed }
        ensures fault { self.new.fault ≡ self.old.fault }
    {
        self.is_adapted = false;
        self.going_on.clear();
        match self.place {
            Place::Front(_) => {}
            _ => self.octets.clear(),
        }
        self.consumed = self.octets.len();
    }

    /// Reads on, where nothing is lent.
    fn pass_next(&mut self) -> Result<(), DoorFault>
        requires { IsForgotten self.old.place self.old.octets.items self.old.consumed self.old.is_adapted self.old.going_on.items }
        ensures passes { OnOk result (Passes (list_of self.old.listed) (R.remaining self.old.reader) (R.remaining self.new.reader) self.old.place self.new.place
            (begun_at self.old.place self.old.octets.items) (begun_at self.new.place self.new.octets.items)
            self.new.is_adapted (map string_bytes self.new.going_on.items) (drop self.new.consumed self.new.octets.items)) }
        ensures cause { IfErr result (IsCauseOf (R.has_failed self.new.reader)) }
        ensures mark { OnOk result (R.has_failed self.new.reader ≡ R.has_failed self.old.reader) }
        ensures told { IfErr result (KeepsUnlessRead (R.has_failed self.old.reader) (R.has_failed self.new.reader)) }
        ensures listed { self.new.listed ≡ self.old.listed }
        ensures fault { self.new.fault ≡ self.old.fault }
    {
        match self.place {
            Place::Start => self.pass_first(),
            Place::Preamble(line) => self.pass_preamble(line),
            Place::Between => self.pass_front(Cutter::new()),
            Place::Front(front) => {
                if front.cutter.has_begun() {
                    self.pass_object(front)
                } else {
                    self.pass_front(front.cutter)
                }
            }
            Place::Long(cutter) => self.pass_long(cutter),
        }
    }

    /// Reads a piece of a preamble, or the front of an object where there is none.
    fn pass_first(&mut self) -> Result<(), DoorFault>
        requires forgotten { IsForgotten self.old.place self.old.octets.items self.old.consumed self.old.is_adapted self.old.going_on.items }
        requires place { self.old.place ≡ Start }
        ensures passes { OnOk result (Passes (list_of self.old.listed) (R.remaining self.old.reader) (R.remaining self.new.reader) self.old.place self.new.place
            (begun_at self.old.place self.old.octets.items) (begun_at self.new.place self.new.octets.items)
            self.new.is_adapted (map string_bytes self.new.going_on.items) (drop self.new.consumed self.new.octets.items)) }
        ensures cause { IfErr result (IsCauseOf (R.has_failed self.new.reader)) }
        ensures mark { OnOk result (R.has_failed self.new.reader ≡ R.has_failed self.old.reader) }
        ensures told { IfErr result (KeepsUnlessRead (R.has_failed self.old.reader) (R.has_failed self.new.reader)) }
        ensures listed { self.new.listed ≡ self.old.listed }
        ensures fault { self.new.fault ≡ self.old.fault }
    {
        let comes = begins_with_preamble(&mut self.reader)?;
        if comes {
            self.pass_preamble(LineSoFar::Nothing)
        } else {
            self.pass_front(Cutter::new())
        }
    }

    /// Reads a piece of the preamble, in a line of it that has this.
    fn pass_preamble(&mut self, line: LineSoFar) -> Result<(), DoorFault>
        requires all { self.old.consumed ≡ length self.old.octets.items }
        ensures lends { OnOk result (LendsAsCame (R.remaining self.old.reader) (R.remaining self.new.reader) (IsPreamblePiece line self.new.place) self.new.place
            self.old.octets.items (begun_at self.new.place self.new.octets.items) (drop self.new.consumed self.new.octets.items)) }
        ensures quiet { (self.new.is_adapted ≡ self.old.is_adapted) × (self.new.going_on ≡ self.old.going_on) }
        ensures cause { IfErr result (IsCauseOf (R.has_failed self.new.reader)) }
        ensures mark { OnOk result (R.has_failed self.new.reader ≡ R.has_failed self.old.reader) }
        ensures told { IfErr result (KeepsUnlessRead (R.has_failed self.old.reader) (R.has_failed self.new.reader)) }
        ensures listed { self.new.listed ≡ self.old.listed }
        ensures fault { self.new.fault ≡ self.old.fault }
    {
        let next = take_preamble(&mut self.reader, line, &mut self.octets)?;
        self.place = place_after(next);
        Ok(())
    }

    /// Reads the empty lines before an object that have come, and its first octet behind them. They are handed on at once: who waits for the octet
    /// behind the object before gets it.
    fn pass_front(&mut self, cutter: Cutter) -> Result<(), DoorFault>
        requires all { self.old.consumed ≡ length self.old.octets.items }
        requires empty { IsEmpty cutter }
        ensures lends { OnOk result (LendsAsCame (R.remaining self.old.reader) (R.remaining self.new.reader) (λ taken. IsFrontPiece cutter self.old.octets.items taken self.new.place) self.new.place
            self.old.octets.items (begun_at self.new.place self.new.octets.items) (drop self.new.consumed self.new.octets.items)) }
        ensures quiet { (self.new.is_adapted ≡ self.old.is_adapted) × (self.new.going_on ≡ self.old.going_on) }
        ensures cause { IfErr result (IsCauseOf (R.has_failed self.new.reader)) }
        ensures mark { OnOk result (R.has_failed self.new.reader ≡ R.has_failed self.old.reader) }
        ensures told { IfErr result (KeepsUnlessRead (R.has_failed self.old.reader) (R.has_failed self.new.reader)) }
        ensures listed { self.new.listed ≡ self.old.listed }
        ensures fault { self.new.fault ≡ self.old.fault }
    {
        let front = take_front(&mut self.reader, cutter, &mut self.octets)?;
        let begins = front.cutter.has_begun();
        self.objects = self.objects.saturating_add(u64::from(begins));
        if self.octets.len() > MOST_OCTETS {
            self.place = Place::Long(front.cutter);
            return Ok(());
        }
        self.place = Place::Front(front);
        Ok(())
    }

    /// Reads the rest of an object, or octets up to more than a message may have.
    fn pass_object(&mut self, front: FrontCutter) -> Result<(), DoorFault>
        requires forgotten { IsForgotten self.old.place self.old.octets.items self.old.consumed self.old.is_adapted self.old.going_on.items }
        requires place { self.old.place ≡ Front front }
        requires begun { front.cutter.begun ≡ true }
        ensures passes { OnOk result (Passes (list_of self.old.listed) (R.remaining self.old.reader) (R.remaining self.new.reader) self.old.place self.new.place
            (begun_at self.old.place self.old.octets.items) (begun_at self.new.place self.new.octets.items)
            self.new.is_adapted (map string_bytes self.new.going_on.items) (drop self.new.consumed self.new.octets.items)) }
        ensures cause { IfErr result (IsCauseOf (R.has_failed self.new.reader)) }
        ensures mark { OnOk result (R.has_failed self.new.reader ≡ R.has_failed self.old.reader) }
        ensures told { IfErr result (KeepsUnlessRead (R.has_failed self.old.reader) (R.has_failed self.new.reader)) }
        ensures listed { self.new.listed ≡ self.old.listed }
        ensures fault { self.new.fault ≡ self.old.fault }
    {
        let mut cutter = front.cutter;
        self.place = Place::Between;
        let whole = take_object(&mut self.reader, &mut cutter, &mut self.octets)?;
        if whole {
            return self.hand_on();
        }
        self.place = Place::Long(cutter);
        Ok(())
    }

    /// Reads a piece of an object that is too long; the front of the next object where nothing of it was left.
    fn pass_long(&mut self, cutter: Cutter) -> Result<(), DoorFault>
        requires forgotten { IsForgotten self.old.place self.old.octets.items self.old.consumed self.old.is_adapted self.old.going_on.items }
        requires place { self.old.place ≡ Long cutter }
        ensures passes { OnOk result (Passes (list_of self.old.listed) (R.remaining self.old.reader) (R.remaining self.new.reader) self.old.place self.new.place
            (begun_at self.old.place self.old.octets.items) (begun_at self.new.place self.new.octets.items)
            self.new.is_adapted (map string_bytes self.new.going_on.items) (drop self.new.consumed self.new.octets.items)) }
        ensures cause { IfErr result (IsCauseOf (R.has_failed self.new.reader)) }
        ensures mark { OnOk result (R.has_failed self.new.reader ≡ R.has_failed self.old.reader) }
        ensures told { IfErr result (KeepsUnlessRead (R.has_failed self.old.reader) (R.has_failed self.new.reader)) }
        ensures listed { self.new.listed ≡ self.old.listed }
        ensures fault { self.new.fault ≡ self.old.fault }
    {
        let had_begun = cutter.has_begun();
        let mut cutter = cutter;
        let piece = take_piece(&mut self.reader, &mut cutter, &mut self.octets)?;
        let begins = !had_begun && cutter.has_begun();
        self.objects = self.objects.saturating_add(u64::from(begins));
        match piece {
            Piece::Goes => {
                self.place = Place::Long(cutter);
                Ok(())
            }
            Piece::End => {
                self.place = Place::Long(cutter);
                Ok(())
            }
            Piece::Ended if self.octets.is_empty() => self.pass_front(Cutter::new()),
            Piece::Ended => {
                self.place = Place::Between;
                Ok(())
            }
        }
    }

    /// Makes the object readable that was read, if it isn't and can be. What was handed on of it stays its beginning.
    fn hand_on(&mut self) -> Result<(), DoorFault>
        requires plain { (self.old.is_adapted ≡ false) × (self.old.going_on.items ≡ []) }
        requires within { self.old.consumed ≤ length self.old.octets.items }
        ensures hands_on { OnOk result (HandsOn (list_of self.old.listed) self.old.octets.items self.new.is_adapted (map string_bytes self.new.going_on.items)
            (take self.old.consumed self.old.octets.items ++ drop self.new.consumed self.new.octets.items)) }
        ensures some { OnOk result (length (drop self.new.consumed self.new.octets.items) ≡ 0 → length (drop self.old.consumed self.old.octets.items) ≡ 0) }
        ensures fault_is { IfErr result (λ fault. fault ≡ Memory) }
        ensures reader { self.new.reader ≡ self.old.reader }
        ensures place { self.new.place ≡ self.old.place }
        ensures listed { self.new.listed ≡ self.old.listed }
        ensures fault { self.new.fault ≡ self.old.fault }
    {
        let Some(adapted) = adapt(self.alloc, self.octets.as_slice(), self.listed)? else {
            return Ok(());
        };
        if goes_on_from(&self.octets[..self.consumed], adapted.octets.as_slice()) {
            self.octets = adapted.octets;
            self.going_on = adapted.going_on;
            self.is_adapted = true;
        }
        Ok(())
    }
}

/// The place behind octets of a preamble: in a line of it that has this, or behind its empty line.
fn place_after(line: Option<LineSoFar>) -> Place
    ensures { result ≡ after_preamble line }
{
    match line {
        Some(line) => Place::Preamble(line),
        None => Place::Between,
    }
}

/// Whether octets begin with these, and have more. What is made of an object always does: its first line stays as it came.
fn goes_on_from(front: &[u8], octets: &[u8]) -> bool
    ensures { result ≡ true → (rest : List ℕ) × (octets.now ≡ front.now ++ rest) × (0 < length rest) }
{
    if octets.len() <= front.len() {
        return false;
    }
    octets.starts_with(front)
}

/// Its octets aren't those of the reader, and are not told in advance.
impl<R: Input + Drop> Input for Door<'_, '_, R> {
    ghost lent = { λ door. drop door.consumed door.octets.items };

    ghost has_failed = { λ door. is_some door.fault };

    ghost has_ended = { λ door. door.ended };

    ghost takes = { λ old taken new. TakesOctets (lending old.consumed old.octets.items old.ended) taken (lending new.consumed new.octets.items new.ended) };

    ghost known_follows = { λ _. tt };

    ghost takes_nothing = { λ _. taken_nothing _ };

    ghost takes_more = { λ _ _ _ first second. taken_more _ _ _ first second };

    ghost takes_known = { λ _ _ _ taken. taken.consumed };

    ghost takes_follows = { λ _ _ _ octets taken. taken.follows octets };

    fn fill(&mut self) -> io::Result<()> {
        if self.ended || self.consumed < self.octets.len() {
            return Ok(());
        }
        match self.pass() {
            Ok(()) => {
                self.ended = self.buffer().is_empty();
                Ok(())
            }
            Err(fault) => {
                self.fault = Some(fault);
                Err(io::Error::from(kind_of(fault)))
            }
        }
    }

    fn buffer(&self) -> &[u8] {
        &self.octets[self.consumed.min(self.octets.len())..]
    }

    fn consume(&mut self, count: usize) {
        let left = self.octets.len().saturating_sub(self.consumed);
        self.consumed += count.min(left);
    }
}

/// The kind of a reader's fault.
fn kind_of(fault: DoorFault) -> ErrorKind {
    match fault {
        DoorFault::Read => ErrorKind::Other,
        DoorFault::Memory => ErrorKind::OutOfMemory,
    }
}
