//! An object of a stream, as far as it is kept whole.

ghost use Rattle.std.specs.Prelude.{◌≡◌, ◌<◌, ◌≤◌, true, false, length, take, slice_index, IfErr, IfOk, OnErr, OnOk};
ghost use Rattle.ical_lines.specs.Cut.{ends_before, is_whole};
ghost use Rattle.sched_doors.specs.Pieces.{BeginsLast, KeepsUnlessRead, IsCauseOf, IsEmpty, IsFront, LeadsOn, TakesDoorPiece, TakesFront, TakesObject, piece_after};

use crate::fault::DoorFault;
use crate::place::FrontCutter;
use ical_lines::Cutter;
use ical_lines::limits::MAX_OCTETS;
use sched_devices::{Input, lend};

/// The most octets of an object that is looked at: as many as a message may have.
pub(crate) const MOST_OCTETS: usize = MAX_OCTETS;

/// The most octets that are taken of the reader at once.
pub(crate) const PIECE: usize = 65_536;

/// What a piece of the input did.
pub(crate) enum Piece {
    /// The object ended before the rest of what was lent.
    Ended,
    /// It goes on.
    Goes,
    /// The input has ended.
    End,
}

/// Takes what may be handed on before an object is whole, and adds it to others: of what has come the empty lines before the object, and its
/// first octet behind them. What is made of an object begins with these octets.
pub(crate) fn take_front<R: Input>(
    reader: &mut R,
    cutter: Cutter,
    octets: &mut Vec<u8>,
) -> Result<FrontCutter, DoorFault>
    requires empty { IsEmpty cutter }
    ensures takes { IfOk result (TakesFront (R.remaining reader.old) (R.remaining reader.new) cutter octets.old.items octets.new.items) }
    ensures keeps { OnErr result (octets.new.items ≡ octets.old.items) }
    ensures cause { IfErr result (IsCauseOf (R.has_failed reader.new)) }
    ensures mark { OnOk result (R.has_failed reader.new ≡ R.has_failed reader.old) }
    ensures told { IfErr result (KeepsUnlessRead (R.has_failed reader.old) (R.has_failed reader.new)) }
{
    let Ok(()) = lend(reader) else {
        return Err(DoorFault::Read);
    };
    let lent = reader.buffer();
    let lent = &lent[..lent.len().min(PIECE)];
    let mut cutter = cutter;
    let count = front(&mut cutter, lent);
    octets.extend_from_slice(&lent[..count])?;
    reader.consume(count);
    Ok(FrontCutter { cutter })
}

/// How many octets come up to the first that is more than an empty line.
fn front(cutter: &mut Cutter, lent: &[u8]) -> usize
    requires empty { IsEmpty cutter.old }
    ensures within { result ≤ length lent.now }
    ensures some { 0 < length lent.now → 0 < result }
    ensures leads { LeadsOn cutter.old (take result lent.now) cutter.new }
    ensures few { BeginsLast cutter.old (take result lent.now) cutter.new }
    ensures is_front { IsFront cutter.new }
{
    let mut place = 0;
    while place < lent.len() {
        cutter.feed(lent[place]);
        place += 1;
        if cutter.has_begun() {
            return place;
        }
    }
    place
}

/// Takes the rest of an object, or octets up to more than a message may have: false then.
pub(crate) fn take_object<R: Input>(
    reader: &mut R,
    cutter: &mut Cutter,
    octets: &mut Vec<u8>,
) -> Result<bool, DoorFault>
    requires goes_on { is_whole cutter.old.seen ≡ false }
    ensures takes { IfOk result (TakesObject (R.remaining reader.old) (R.remaining reader.new) cutter.old cutter.new octets.old.items octets.new.items) }
    ensures cause { IfErr result (IsCauseOf (R.has_failed reader.new)) }
    ensures mark { OnOk result (R.has_failed reader.new ≡ R.has_failed reader.old) }
    ensures told { IfErr result (KeepsUnlessRead (R.has_failed reader.old) (R.has_failed reader.new)) }
{
    let most = octets.len().max(MOST_OCTETS);
    while octets.len() <= most {
        match take_piece(reader, cutter, octets)? {
            Piece::Goes => {}
            Piece::Ended => return Ok(true),
            Piece::End => return Ok(true),
        }
    }
    Ok(false)
}

/// Takes octets up to the object's end, or some of those that the reader lends at once, and adds them to others.
pub(crate) fn take_piece<R: Input>(
    reader: &mut R,
    cutter: &mut Cutter,
    octets: &mut Vec<u8>,
) -> Result<Piece, DoorFault>
    ensures takes { IfOk result (TakesDoorPiece (R.remaining reader.old) (R.remaining reader.new) cutter.old cutter.new octets.old.items octets.new.items) }
    ensures cause { IfErr result (IsCauseOf (R.has_failed reader.new)) }
    ensures mark { OnOk result (R.has_failed reader.new ≡ R.has_failed reader.old) }
    ensures told { IfErr result (KeepsUnlessRead (R.has_failed reader.old) (R.has_failed reader.new)) }
{
    let Ok(()) = lend(reader) else {
        return Err(DoorFault::Read);
    };
    let lent = reader.buffer();
    let lent = &lent[..lent.len().min(PIECE)];
    let cut = cut(cutter, lent);
    octets.extend_from_slice(&lent[..cut.count])?;
    reader.consume(cut.count);
    Ok(cut.piece())
}

/// How many octets belong to the object that has begun, and whether it ended before the next.
#[derive(Clone, Copy)]
struct CutPiece {
    count: usize,
    ended: bool,
}

impl CutPiece {
    fn piece(self) -> Piece
        ensures { result ≡ piece_after self.count self.ended }
    {
        if self.ended {
            Piece::Ended
        } else if self.count > 0 {
            Piece::Goes
        } else {
            Piece::End
        }
    }
}

/// Looks for the object's end.
fn cut(cutter: &mut Cutter, lent: &[u8]) -> CutPiece
    ensures within { result.count ≤ length lent.now }
    ensures leads { LeadsOn cutter.old (take result.count lent.now) cutter.new }
    ensures some { is_whole cutter.old.seen ≡ false → result.ended ≡ true → 0 < result.count }
    ensures before { result.ended ≡ true → result.count < length lent.now }
    ensures ended { result.ended ≡ true → ends_before cutter.new (slice_index lent.now result.count) ≡ true }
    ensures all { result.ended ≡ false → result.count ≡ length lent.now }
{
    let mut place = cutter.idle(lent);
    while place < lent.len() {
        if cutter.feed(lent[place]) {
            return CutPiece {
                count: place,
                ended: true,
            };
        }
        place += 1;
        place += cutter.idle(&lent[place..]);
    }
    CutPiece {
        count: lent.len(),
        ended: false,
    }
}
