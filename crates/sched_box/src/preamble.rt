//! The preamble of a stream: its lines are taken from the reader up to the empty one, and nothing after it.

ghost use Rattle.std.specs.Prelude.{◌≡◌, ◌≤◌, ◌<◌, ◌+◌, ◌-◌, ◌++◌, ℕ, List, [], length, Option, nat_lt, ◌&&◌, not, take, true, false, IfOk, IfErr, IfSome, OnOk, OnErr};
ghost use Rattle.std.specs.Io.KnownBytes.{prepend_known};
ghost use Rattle.sched_box.specs.Config.{config_hosts};
ghost use Rattle.sched_box.specs.Faults.{IfRefusedStream, IsReadFault, KeepsButRead, RefusesPreamble, StopsFor, StreamKeepsButRead, StreamStopsFor};
ghost use Rattle.sched_devices.specs.Input.{ForTaken, IsFilledWithin, MayFollow};
ghost use Rattle.sched_box.specs.Objects.{IsPieceFault};
ghost use Rattle.sched_box.specs.Preamble.{Leads, OpensNothing, OpensStream, OpensNot, StopsInPreamble, TakesPreamblePiece, TakesPreamble, is_closed, next_place};
ghost use Rattle.sched_box.specs.declared.preamble.LineState.TheVariants.{Inside};

use crate::config::{Config, LONGEST};
use crate::fault::{ServeFault, StreamFault};
use ical_lines::{Fault, Refusal};
use ical_values::Stamp;
use memchr::memchr;
use sched_devices::{Input, lend};
use std::alloc::Global;

/// Reads a preamble, and leaves the reader after its empty line. No octet past that is taken, whatever comes of it.
/// Refused: 90. A reader that fails gives `Read`.
pub fn read_preamble<R: Input>(
    alloc: Global,
    reader: &mut R,
) -> Result<(Config, Stamp), StreamFault>
    ensures opens { IfOk result (λ read. OpensStream (R.remaining reader.old) (R.remaining reader.new) read.1 (config_hosts read.0)) }
    ensures refuses { IfErr result RefusesPreamble }
    ensures faults { IfErr result IsReadFault }
    ensures cause { IfErr result (StreamStopsFor (R.has_failed reader.new) false) }
    ensures mark { OnOk result (R.has_failed reader.new ≡ R.has_failed reader.old) }
    ensures told { IfErr result (StreamKeepsButRead (R.has_failed reader.old) (R.has_failed reader.new)) }
    ensures none { IfErr result (IfRefusedStream (IfSome (R.remaining reader.old) OpensNot)) }
    ensures fills { IsFilledWithin 1 (R.fills reader.old) (R.fills reader.new) (R.remaining reader.old) (R.remaining reader.new) }
    ensures stops { OnErr result (StopsInPreamble (R.remaining reader.old) (R.remaining reader.new)) }
    ensures taken { IfOk result (λ read. ForTaken R.takes R.lent R.has_ended reader.old reader.new (λ input left. OpensStream input left read.1 (config_hosts read.0))) }
    ensures taken_not { IfErr result (λ fault. ForTaken R.takes R.lent R.has_ended reader.old reader.new (OpensNothing fault)) }
{
    let octets = take_preamble(alloc, reader)?;
    match Config::read_with_now(alloc, octets.as_slice()) {
        Ok(read) => Ok(read),
        Err(Fault::Refused(refusal)) => Err(StreamFault::Refused(refusal)),
        Err(Fault::Memory) => Err(StreamFault::Serve(ServeFault::Memory)),
    }
}

/// The octets of a preamble, its empty line included.
/// Refused: 90 where they are more than 65,536.
fn take_preamble<R: Input>(alloc: Global, reader: &mut R) -> Result<Vec<u8>, StreamFault>
    ensures takes { IfOk result (λ octets. R.takes reader.old octets.items reader.new × ((left : Option (List ℕ)) → IfSome left (MayFollow (R.lent reader.new) (R.has_ended reader.new))
        → TakesPreamble (prepend_known octets.items left) left octets.items)) }
    ensures few { IfOk result (λ octets. length octets.items ≤ 131_073) }
    ensures fills { IsFilledWithin 1 (R.fills reader.old) (R.fills reader.new) (R.remaining reader.old) (R.remaining reader.new) }
    ensures refuses { IfErr result RefusesPreamble }
    ensures faults { IfErr result IsReadFault }
    ensures cause { IfErr result (StreamStopsFor (R.has_failed reader.new) false) }
    ensures mark { OnOk result (R.has_failed reader.new ≡ R.has_failed reader.old) }
    ensures told { IfErr result (StreamKeepsButRead (R.has_failed reader.old) (R.has_failed reader.new)) }
    ensures stops { IfErr result (λ fault. ForTaken R.takes R.lent R.has_ended reader.old reader.new (OpensNothing fault)) }
{
    let mut octets = Vec::new(alloc);
    let mut place = LineState::Start;
    while octets.len() <= LONGEST {
        if !take_piece(reader, &mut place, &mut octets)? {
            return Ok(octets);
        }
    }
    Err(StreamFault::Refused(Refusal::BAD_PREAMBLE))
}

/// Takes the rest of a line that has begun, or one octet where none has, of what the reader lends at once, at most one more
/// than a preamble may have; false after the empty line, and at the end of the input.
fn take_piece<R: Input>(
    reader: &mut R,
    place: &mut LineState,
    octets: &mut Vec<u8>,
) -> Result<bool, ServeFault>
    ensures takes { IfOk result (λ goes. (taken : List ℕ) × (octets.new.items ≡ octets.old.items ++ taken) × R.takes reader.old taken reader.new
        × TakesPreamblePiece (R.lent reader.new) (R.has_ended reader.new) place.old place.new taken goes) }
    ensures few { length octets.new.items ≤ length octets.old.items + 65_537 }
    ensures fills { R.fills reader.new ≤ R.fills reader.old + (1 - length (R.lent reader.old)) }
    ensures faults { IfErr result IsPieceFault }
    ensures cause { IfErr result (StopsFor (R.has_failed reader.new) false) }
    ensures mark { OnOk result (R.has_failed reader.new ≡ R.has_failed reader.old) }
    ensures told { IfErr result (KeepsButRead (R.has_failed reader.old) (R.has_failed reader.new)) }
    ensures keeps { OnErr result (R.takes reader.old [] reader.new) }
{
    let Ok(()) = lend(reader) else {
        return Err(ServeFault::Read);
    };
    let lent = reader.buffer();
    let lent = &lent[..lent.len().min(LONGEST + 1)];
    let scanned = scan(*place, lent);
    octets.extend_from_slice(&lent[..scanned.count])?;
    reader.consume(scanned.count);
    *place = scanned.place;
    Ok(scanned.goes_on())
}

/// Where the octets of a preamble have come to.
#[derive(Clone, Copy, PartialEq, Eq)]
enum LineState {
    /// At the start of a line.
    Start,
    /// After a CR at the start of a line.
    Return,
    /// Inside a line that isn't empty.
    Inside,
    /// After the empty line.
    Closed,
}

impl LineState {
    /// The place after one more octet.
    fn after(self, octet: u8) -> LineState
        ensures { result ≡ next_place self octet }
    {
        match self {
            LineState::Start if octet == b'\n' => LineState::Closed,
            LineState::Start if octet == b'\r' => LineState::Return,
            LineState::Start => LineState::Inside,
            LineState::Return if octet == b'\n' => LineState::Closed,
            LineState::Return => LineState::Inside,
            LineState::Inside if octet == b'\n' => LineState::Start,
            LineState::Inside => LineState::Inside,
            LineState::Closed => LineState::Closed,
        }
    }

    /// Whether the empty line has ended.
    fn is_closed(self) -> bool
        ensures { result ≡ is_closed self }
    {
        match self {
            LineState::Closed => true,
            _ => false,
        }
    }
}

/// How many octets come before the end of the empty line, and where they lead.
#[derive(Clone, Copy)]
struct ScannedLine {
    count: usize,
    place: LineState,
}

impl ScannedLine {
    /// Whether there were octets, and the empty line hasn't ended.
    fn goes_on(self) -> bool
        ensures { result ≡ (nat_lt 0 self.count && not (is_closed self.place)) }
    {
        self.count > 0 && !self.place.is_closed()
    }
}

/// What leads on of the octets that were lent: the rest of a line that has begun, or one octet where none has.
fn scan(place: LineState, lent: &[u8]) -> ScannedLine
    ensures within { result.count ≤ length lent.now }
    ensures leads { Leads place (take result.count lent.now) result.place }
    ensures some { is_closed place ≡ false → 0 < length lent.now → 0 < result.count }
{
    match place {
        LineState::Inside => scan_line(lent),
        LineState::Closed => ScannedLine { count: 0, place },
        LineState::Start | LineState::Return => scan_octet(place, lent),
    }
}

/// The rest of a line that isn't empty: up to its LF, or all that was lent.
fn scan_line(lent: &[u8]) -> ScannedLine
    ensures within { result.count ≤ length lent.now }
    ensures leads { Leads Inside (take result.count lent.now) result.place }
    ensures some { 0 < length lent.now → 0 < result.count }
{
    match memchr(b'\n', lent) {
        Some(end) => ScannedLine {
            count: end + 1,
            place: LineState::Start,
        },
        None => ScannedLine {
            count: lent.len(),
            place: LineState::Inside,
        },
    }
}

/// The first octet, where there is one.
fn scan_octet(place: LineState, lent: &[u8]) -> ScannedLine
    requires { is_closed place ≡ false }
    ensures within { result.count ≤ length lent.now }
    ensures leads { Leads place (take result.count lent.now) result.place }
    ensures some { 0 < length lent.now → 0 < result.count }
{
    match lent.first() {
        Some(octet) => ScannedLine {
            count: 1,
            place: place.after(*octet),
        },
        None => ScannedLine { count: 0, place },
    }
}
