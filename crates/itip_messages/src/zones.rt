//! The zones of an object that is written (RFC 5545 3.6.5): each once, in order of first use, under the names `Z1`, `Z2`, ..
ghost use Rattle.std.specs.Prelude.{◌≡◌, [], ◌++◌, ◌+◌, ◌<◌, ◌^◌, ℕ, List, Some, length, map, slice_get, take, IfOk, OnOk, OnErr};
ghost use Rattle.profile.specs.rooms.Kept.{kept_zone_name, zone_texts};
ghost use Rattle.profile.specs.rooms.Messages.{zone_text};
ghost use Rattle.itip_messages.specs.Zones.{with_zone};

use crate::writer::ObjectWriter;
use indexmap::IndexSet;
use itoa::Buffer;
use std::alloc::{AllocError, Global};
use std::marker::Model;

/// The zones so far, each as what comes after the name of its VTIMEZONE.
#[derive(Drop)]
pub struct Zones {
    alloc: Global,
    rests: IndexSet<Vec<u8>>,
}

impl Model for Zones {
    ghost Value = { List (List ℕ) };

    ghost view = { λ zones. map (λ rest. rest.items) zones.rests.keys };
}

impl Zones {
    /// None yet.
    pub fn new(alloc: Global) -> Zones
        ensures { result ≡ [] }
    {
        Zones {
            alloc,
            rests: IndexSet::new(alloc),
        }
    }

    /// How many there are.
    pub(crate) fn len(&self) -> usize
        ensures { result ≡ length self.now }
    {
        self.rests.len()
    }

    /// Takes back all but the first.
    pub(crate) fn truncate(&mut self, kept: usize)
        ensures { self.new ≡ take kept self.old }
    {
        self.rests.truncate(kept);
    }

    /// The number of a zone, counted from 1. One that isn't there yet is put after the others; where the memory for it is refused,
    /// the zones are as they were. It takes as many steps as the zone has octets.
    pub fn number_of(&mut self, rest: &[u8]) -> Result<usize, AllocError>
        ensures zones { OnOk result (self.new ≡ with_zone self.old rest.now) }
        ensures number { IfOk result (λ number. (place : ℕ) × (number ≡ place + 1) × (slice_get self.new place ≡ Some rest.now)) }
        ensures err { OnErr result (self.new ≡ self.old) }
    {
        let place = self.place_of(rest)?;
        // no list has so many elements that there is no next number
        let _count = self.rests.len();
        Ok(place + 1)
    }

    /// The place of a zone, counted from 0.
    fn place_of(&mut self, rest: &[u8]) -> Result<usize, AllocError>
        ensures zones { OnOk result (self.new ≡ with_zone self.old rest.now) }
        ensures there { IfOk result (λ place. slice_get self.new place ≡ Some rest.now) }
        ensures err { OnErr result (self.new ≡ self.old) }
    {
        if let Some(place) = self.rests.get_index_of(rest) {
            return Ok(place);
        }
        let copy = Vec::from_slice(self.alloc, rest)?;
        let (place, _) = self.rests.insert_full(copy)?;
        Ok(place)
    }

    /// Writes each zone under its number. Where the memory for them is refused, `object` is as it was. In time that grows with
    /// what is written.
    pub fn write(&self, object: &mut ObjectWriter) -> Result<(), AllocError>
        ensures texts { OnOk result (object.new ≡ object.old ++ zone_texts 0 self.now) }
        ensures err { OnErr result (object.new ≡ object.old) }
        ensures few { length self.now < 2 ^ 64 }
    {
        let kept = object.len();
        let mut number = 0;
        for rest in self.rests.iter() {
            number += 1;
            if let Err(error) = write_zone(object, number, rest.as_slice()) {
                object.truncate(kept);
                return Err(error);
            }
        }
        Ok(())
    }
}

/// The VTIMEZONE with this after its name, under a number. On an error some of its lines may have been written.
fn write_zone(object: &mut ObjectWriter, number: usize, rest: &[u8]) -> Result<(), AllocError>
    ensures ok { (place : ℕ) → number ≡ place + 1 → OnOk result (object.new ≡ object.old ++ zone_text (kept_zone_name place) rest.now) }
    ensures keeps { take (length object.old) object.new ≡ object.old }
{
    let mut digits = Buffer::new();
    object.line("BEGIN:VTIMEZONE")?;
    object.named("TZID:Z", digits.format(number))?;
    object.octets(rest)
}
