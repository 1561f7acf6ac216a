//! The objects of a stream, one after another: never more than one of them is in memory.

ghost use Rattle.std.specs.Prelude.{◌≡◌, ◌≤◌, ◌<◌, ◌+◌, ◌-◌, ◌++◌, [], true, false, length, take, slice_index, IfOk, IfErr, OnOk, OnErr};
ghost use Rattle.ical_lines.specs.Cut.{ends_before};
ghost use Rattle.sched_box.specs.Faults.{KeepsButRead, StopsFor};
ghost use Rattle.sched_box.specs.Objects.{Cuts, IsPieceFault, LendsNext, LendsNothing, ReadsObject, StopsReading, TakesPiece, piece_of};
ghost use Rattle.sched_devices.specs.Input.{ForTaken};
ghost use Rattle.sched_box.specs.declared.fault.ServeFault.TheVariants.{Read};

use crate::fault::ServeFault;
use ical_lines::Cutter;
use ical_lines::limits::MAX_OCTETS;
use sched_devices::{Input, lend};
use std::alloc::{AllocError, Global};

/// The most octets that are read of a stream: as many as a file may have.
pub const MOST_OCTETS: u64 = sched_devices::MOST_OCTETS as u64;

/// The most octets of an object that are kept: one more than it may have, by which it is seen to be too long.
pub const KEPT: usize = MAX_OCTETS + 1;

/// A stream that is read object by object.
#[derive(Drop)]
pub struct Objects {
    /// How many octets may still be read.
    left: u64,
    /// The octets of the object that has begun.
    octets: Vec<u8>,
}

/// What a piece of the input did.
enum Piece {
    /// The object ended before the rest of what was lent.
    Ended,
    /// It goes on.
    Goes,
    /// The input has ended.
    End,
}

impl Objects {
    /// A stream from which nothing is read yet; this many octets may be read of it.
    pub fn new(alloc: Global, most: u64) -> Objects
        ensures left { result.left ≡ most }
        ensures nothing { result.octets.items ≡ [] }
    {
        Objects {
            left: most,
            octets: Vec::new(alloc),
        }
    }

    /// The octets of the object that was read last, at most 1,048,577 of them.
    pub fn octets(&self) -> &[u8]
        ensures { result.now ≡ self.now.octets.items }
    {
        self.octets.as_slice()
    }

    /// Reads the next object; false where only empty lines are left.
    /// A reader that fails gives `Read`, and the last octet that may be read `TooLong`.
    pub fn next_object<R: Input>(&mut self, reader: &mut R) -> Result<bool, ServeFault>
        ensures reads { IfOk result (λ found. ForTaken R.takes R.lent R.has_ended reader.old reader.new (λ input left. ReadsObject input left self.old self.new found)) }
        ensures stops { IfErr result (λ fault. ForTaken R.takes R.lent R.has_ended reader.old reader.new (λ input left. StopsReading input left self.old self.new fault)) }
        ensures after { IfOk result (λ found. found ≡ true → LendsNext (R.lent reader.new) (R.has_ended reader.new)) }
        ensures end { IfOk result (λ found. found ≡ false → LendsNothing (R.lent reader.new) (R.has_ended reader.new)) }
        ensures first { IfErr result (λ fault. fault ≡ Read → 0 < length (R.lent reader.old) → self.new.left < self.old.left) }
        ensures fills { R.fills reader.new + self.new.left ≤ R.fills reader.old + self.old.left + (1 - length (R.lent reader.old)) }
        ensures cause { IfErr result (StopsFor (R.has_failed reader.new) false) }
        ensures mark { OnOk result (R.has_failed reader.new ≡ R.has_failed reader.old) }
        ensures told { IfErr result (KeepsButRead (R.has_failed reader.old) (R.has_failed reader.new)) }
    {
        self.octets.clear();
        let mut cutter = Cutter::new();
        while self.left > 0 {
            match self.take_piece(reader, &mut cutter)? {
                Piece::Goes => {}
                Piece::Ended => return Ok(true),
                Piece::End => return Ok(cutter.has_begun()),
            }
        }
        Err(ServeFault::TooLong)
    }

    /// Takes octets up to the object's end, or all that the reader lends at once and that may still be read.
    fn take_piece<R: Input>(
        &mut self,
        reader: &mut R,
        cutter: &mut Cutter,
    ) -> Result<Piece, ServeFault>
        requires { 0 < self.old.left }
        ensures takes { IfOk result (TakesPiece (λ taken. R.takes reader.old taken reader.new) (R.lent reader.new) (R.has_ended reader.new) self.old self.new cutter.old cutter.new) }
        ensures left { OnErr result (self.new.left ≡ self.old.left) }
        ensures keeps { OnErr result (R.takes reader.old [] reader.new) }
        ensures faults { IfErr result IsPieceFault }
        ensures first { IfErr result (λ fault. fault ≡ Read → length (R.lent reader.old) ≡ 0) }
        ensures fills { R.fills reader.new ≤ R.fills reader.old + (1 - length (R.lent reader.old)) }
        ensures cause { IfErr result (StopsFor (R.has_failed reader.new) false) }
        ensures mark { OnOk result (R.has_failed reader.new ≡ R.has_failed reader.old) }
        ensures told { IfErr result (KeepsButRead (R.has_failed reader.old) (R.has_failed reader.new)) }
    {
        let Ok(()) = lend(reader) else {
            return Err(ServeFault::Read);
        };
        let lent = reader.buffer();
        let lent = &lent[..lent.len().min(self.left as usize)];
        let scanned = scan(cutter, lent);
        keep_front(&mut self.octets, &lent[..scanned.count])?;
        reader.consume(scanned.count);
        self.left -= scanned.count as u64;
        Ok(scanned.piece())
    }
}

/// How many octets belong to the object that has begun, and whether it ended before the next.
#[derive(Clone, Copy)]
struct ScannedPiece {
    count: usize,
    ended: bool,
}

impl ScannedPiece {
    fn piece(self) -> Piece
        ensures { result ≡ piece_of self.count self.ended }
    {
        if self.ended {
            Piece::Ended
        } else if self.count > 0 {
            Piece::Goes
        } else {
            Piece::End
        }
    }
}

fn scan(cutter: &mut Cutter, lent: &[u8]) -> ScannedPiece
    ensures within { result.count ≤ length lent.now }
    ensures cuts { Cuts cutter.old (take result.count lent.now) cutter.new }
    ensures before { result.ended ≡ true → result.count < length lent.now }
    ensures ended { result.ended ≡ true → ends_before cutter.new (slice_index lent.now result.count) ≡ true }
    ensures all { result.ended ≡ false → result.count ≡ length lent.now }
{
    let mut place = cutter.idle(lent);
    while place < lent.len() {
        if cutter.feed(lent[place]) {
            return ScannedPiece {
                count: place,
                ended: true,
            };
        }
        place += 1;
        place += cutter.idle(&lent[place..]);
    }
    ScannedPiece {
        count: lent.len(),
        ended: false,
    }
}

/// Keeps octets of an object, as many as are still wanted.
fn keep_front(octets: &mut Vec<u8>, piece: &[u8]) -> Result<(), AllocError>
    ensures { OnOk result (octets.new.items ≡ octets.old.items ++ take (KEPT - length octets.old.items) piece.now) }
{
    let room = KEPT.saturating_sub(octets.len());
    octets.extend_from_slice(&piece[..piece.len().min(room)])
}
