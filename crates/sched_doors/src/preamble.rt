//! The preamble of a stream, up to its empty line: it goes through the door as it is.

ghost use Rattle.std.specs.Prelude.{◌≡◌, ◌<◌, ◌≤◌, length, take, not, IfErr, IfOk, IfSome, OnErr, OnOk};
ghost use Rattle.std.specs.Io.KnownBytes.{Keeps};
ghost use Rattle.sched_doors.specs.Pieces.{KeepsUnlessRead, IsCauseOf, Scans, TakesPreamble, line_after, may_begin_object};

use crate::fault::DoorFault;
use crate::piece::PIECE;
use sched_devices::{Input, lend};

/// What a line of a preamble has so far.
#[derive(Clone, Copy)]
pub(crate) enum LineSoFar {
    Nothing,
    /// A CR alone.
    Return,
    /// Something else.
    Some,
}

/// How many octets belong to a preamble, where its line that has begun goes on with them; what that line then has, or None where the
/// empty line has ended.
#[derive(Clone, Copy)]
pub(crate) struct Scanned {
    count: usize,
    line: Option<LineSoFar>,
}

/// Whether a preamble comes first: what is read begins with none of the octets that an object or an empty line begins with.
pub(crate) fn begins_with_preamble<R: Input>(reader: &mut R) -> Result<bool, DoorFault>
    ensures comes { IfOk result (λ comes. comes ≡ not (may_begin_object (R.lent reader.new))) }
    ensures begins { IfOk result (λ comes. IfSome (R.remaining reader.old) (λ octets. may_begin_object octets ≡ not comes)) }
    ensures keeps { Keeps (R.remaining reader.old) (R.remaining reader.new) }
    ensures cause { IfErr result (IsCauseOf (R.has_failed reader.new)) }
    ensures mark { OnOk result (R.has_failed reader.new ≡ R.has_failed reader.old) }
    ensures told { IfErr result (KeepsUnlessRead (R.has_failed reader.old) (R.has_failed reader.new)) }
{
    let Ok(()) = lend(reader) else {
        return Err(DoorFault::Read);
    };
    Ok(match reader.buffer().first() {
        None | Some(b'B' | b'b' | b'\r' | b'\n' | 0xEF) => false,
        Some(_) => true,
    })
}

/// Takes a piece of a preamble, in a line of it that has this, and adds it to the octets. What the line then has, or None after the
/// empty line.
pub(crate) fn take_preamble<R: Input>(
    reader: &mut R,
    line: LineSoFar,
    octets: &mut Vec<u8>,
) -> Result<Option<LineSoFar>, DoorFault>
    ensures takes { IfOk result (TakesPreamble (R.remaining reader.old) (R.remaining reader.new) line octets.old.items octets.new.items) }
    ensures cause { IfErr result (IsCauseOf (R.has_failed reader.new)) }
    ensures mark { OnOk result (R.has_failed reader.new ≡ R.has_failed reader.old) }
    ensures told { IfErr result (KeepsUnlessRead (R.has_failed reader.old) (R.has_failed reader.new)) }
{
    let Ok(()) = lend(reader) else {
        return Err(DoorFault::Read);
    };
    let lent = reader.buffer();
    let lent = &lent[..lent.len().min(PIECE)];
    let scanned = scan(line, lent);
    octets.extend_from_slice(&lent[..scanned.count])?;
    reader.consume(scanned.count);
    Ok(scanned.line)
}

/// Looks for the end of the empty line.
fn scan(line: LineSoFar, lent: &[u8]) -> Scanned
    ensures within { result.count ≤ length lent.now }
    ensures some { 0 < length lent.now → 0 < result.count }
    ensures scans { Scans line (take result.count lent.now) result.line }
{
    let mut line = line;
    for (place, octet) in lent.iter().enumerate() {
        match line.after(*octet) {
            Some(after) => line = after,
            None => {
                return Scanned {
                    count: place + 1,
                    line: None,
                };
            }
        }
    }
    Scanned {
        count: lent.len(),
        line: Some(line),
    }
}

impl LineSoFar {
    /// What the line has with one more octet; None where it was the empty line, which has ended.
    fn after(self, octet: u8) -> Option<LineSoFar>
        ensures { result ≡ line_after self octet }
    {
        match (self, octet) {
            (LineSoFar::Nothing | LineSoFar::Return, b'\n') => None,
            (LineSoFar::Some, b'\n') => Some(LineSoFar::Nothing),
            (LineSoFar::Nothing, b'\r') => Some(LineSoFar::Return),
            _ => Some(LineSoFar::Some),
        }
    }
}
