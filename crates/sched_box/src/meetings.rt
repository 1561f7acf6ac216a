//! What an organiser has stored after a stream, with the states that were seen.

ghost use Rattle.std.specs.Prelude.{◌≡◌, Contains, true, false, IfErr, IfOk, OnOk};
ghost use Rattle.std.specs.Io.KnownBytes.{Keeps};
ghost use Rattle.std.specs.Result.{IsErrAnd};
ghost use Rattle.ical_values.specs.Octets.{address_octets};
ghost use Rattle.sched_box.specs.Config.{config_hosts, config_organisers};
ghost use Rattle.sched_box.specs.Faults.{IfRefusedStream, IsRefusal, RefusesPreamble, StreamKeepsButRead, StreamStopsFor};
ghost use Rattle.sched_box.specs.Meetings.{KeepsMeetings};
ghost use Rattle.sched_box.specs.Serving.{StopsKeeping};
ghost use Rattle.sched_devices.specs.Input.{ForTaken, IsFilledWithin};

use crate::books::Books;
use crate::config::Config;
use crate::fault::StreamFault;
use crate::journal::Nobody;
use crate::objects::MOST_OCTETS;
use crate::serving::{not_hosted, serve_objects};
use ical_values::{Address, Stamp};
use sched_devices::{Input, Nowhere};
use std::alloc::Global;

/// What an organiser has stored after the objects of a stream: the texts of its meetings, one after another, by the octets of their UIDs.
/// Refused: 90 where the box doesn't host the organiser, before anything is read. `TooLong` comes only after 1,073,741,824 octets.
pub fn shown_meetings<R: Input>(
    alloc: Global,
    config: &Config,
    reader: &mut R,
    now: Stamp,
    organiser: &Address,
) -> Result<Vec<u8>, StreamFault>
    ensures keeps { IfOk result (λ octets. KeepsMeetings now (config_hosts config.now) (R.remaining reader.old) (R.remaining reader.new) (address_octets organiser.now) octets.items) }
    ensures refuses { IfErr result RefusesPreamble }
    ensures cause { IfErr result (StreamStopsFor (R.has_failed reader.new) false) }
    ensures mark { OnOk result (R.has_failed reader.new ≡ R.has_failed reader.old) }
    ensures told { IfErr result (StreamKeepsButRead (R.has_failed reader.old) (R.has_failed reader.new)) }
    ensures none { IfErr result (IfRefusedStream (Contains (config_organisers config.now) (address_octets organiser.now) → ⊥)) }
    ensures bound { IfErr result (StopsKeeping (R.remaining reader.old) (R.remaining reader.new)) }
    ensures fills { IsFilledWithin 2 (R.fills reader.old) (R.fills reader.new) (R.remaining reader.old) (R.remaining reader.new) }
    ensures unhosted { (Contains (config_organisers config.now) (address_octets organiser.now) → ⊥)
        → IsErrAnd result IsRefusal × Keeps (R.remaining reader.old) (R.remaining reader.new) }
    ensures ended { OnOk result (R.has_ended reader.new ≡ true) }
    ensures taken { IfOk result (λ octets. ForTaken R.takes R.lent R.has_ended reader.old reader.new (λ input left. KeepsMeetings now (config_hosts config.now) input left (address_octets organiser.now) octets.items)) }
{
    if !config.has_organiser(organiser) {
        return Err(not_hosted());
    }
    let mut books = Books::new(alloc, config)?;
    let mut nowhere = Nowhere;
    serve_objects(
        alloc,
        &mut books,
        reader,
        &mut nowhere,
        now,
        MOST_OCTETS,
        &mut Nobody,
    )?;
    let Some(kept) = books.organiser_at(organiser) else {
        return Err(not_hosted());
    };
    Ok(kept.texts()?)
}
