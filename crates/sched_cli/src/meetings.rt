//! `meetings`: what an organiser has stored, with the states that were seen.

ghost use Rattle.std.specs.Prelude.{◌≡◌, ◌⊎◌, false, IfOk, IfErr, OnOk};
ghost use Rattle.std.specs.Io.KnownBytes.{Keeps};
ghost use Rattle.ical_values.specs.Octets.{address_octets};
ghost use Rattle.sched_box.specs.Faults.{StreamKeepsButRead, StreamStopsFor};
ghost use Rattle.sched_devices.specs.Input.{ForTaken};
ghost use Rattle.sched_cli.specs.Commands.{BlamesDevice, IsStatusSaid, TellsDevice};
ghost use Rattle.sched_cli.specs.Meetings.{CutsMeetings, IsShownAfter, RefusesToShow, ShowsNone, WritesMeetings};

use crate::commands::write_out;
use crate::status::report_stream;
use ical_values::Address;
use sched_box::{Input, Output, StreamFault, read_preamble, shown_meetings};
use std::alloc::Global;

/// `meetings`: reads a preamble and objects, and writes the texts of all that an organiser has stored after them.
pub fn run_meetings<R: Input, W: Output, E: Output>(
    alloc: Global,
    organiser: &Address,
    reader: &mut R,
    writer: &mut W,
    errors: &mut E,
) -> u8
    ensures device { BlamesDevice (R.has_failed reader.new) (W.has_failed writer.new) result }
    ensures told { TellsDevice result (R.has_failed reader.old) (R.has_failed reader.new) (W.has_failed writer.old) (W.has_failed writer.new) }
    ensures status { (result ≡ 0) ⊎ (result ≡ 3) ⊎ (result ≡ 4) ⊎ (result ≡ 5) }
    ensures said { IsStatusSaid result (E.contents errors.old) (E.contents errors.new) (E.may_lose errors.new) }
    ensures unwritten { (result ≡ 3) ⊎ (result ≡ 5) → Keeps (W.contents writer.old) (W.contents writer.new) }
    ensures refused { result ≡ 3 → RefusesToShow (address_octets organiser.now) (R.remaining reader.old) (R.remaining reader.new) (E.contents errors.old) (E.contents errors.new) (E.may_lose errors.new) }
    ensures shown { result ≡ 0 → WritesMeetings (address_octets organiser.now)
        (record { input = R.remaining reader.old; left = R.remaining reader.new; output = W.contents writer.old; written = W.contents writer.new }) }
    ensures cut { result ≡ 4 → Keeps (W.contents writer.old) (W.contents writer.new) ⊎ CutsMeetings (address_octets organiser.now)
        (record { input = R.remaining reader.old; left = R.remaining reader.new; output = W.contents writer.old; written = W.contents writer.new }) }
    ensures taken { result ≡ 0 → ForTaken R.takes R.lent R.has_ended reader.old reader.new (λ input left. WritesMeetings (address_octets organiser.now)
        (record { input = input; left = left; output = W.contents writer.old; written = W.contents writer.new })) }
{
    match meetings_of_stream(alloc, organiser, reader) {
        Ok(texts) => write_out(writer, errors, texts.as_slice()),
        Err(fault) => report_stream(errors, fault),
    }
}

/// The texts of all that an organiser has stored after a stream.
fn meetings_of_stream<R: Input>(
    alloc: Global,
    organiser: &Address,
    reader: &mut R,
) -> Result<Vec<u8>, StreamFault>
    ensures cause { IfErr result (StreamStopsFor (R.has_failed reader.new) false) }
    ensures mark { OnOk result (R.has_failed reader.new ≡ R.has_failed reader.old) }
    ensures told { IfErr result (StreamKeepsButRead (R.has_failed reader.old) (R.has_failed reader.new)) }
    ensures none { IfErr result (ShowsNone (R.remaining reader.old) (R.remaining reader.new) (address_octets organiser.now)) }
    ensures shows { IfOk result (λ texts. IsShownAfter (R.remaining reader.old) (R.remaining reader.new) (address_octets organiser.now) texts.items) }
    ensures taken { IfOk result (λ texts. ForTaken R.takes R.lent R.has_ended reader.old reader.new (λ input left. IsShownAfter input left (address_octets organiser.now) texts.items)) }
{
    let (config, now) = read_preamble(alloc, reader)?;
    shown_meetings(alloc, &config, reader, now, organiser)
}
