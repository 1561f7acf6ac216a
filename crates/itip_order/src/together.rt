//! Registers in which parts are looked up: those of one value, or of two together, without a copy.

ghost use Rattle.std.specs.Prelude.{◌≡◌, ◌++◌, Contains, List, map, IsTrue, IfOk, IfErr, IfSome, IfNone, OnOk};
ghost use Rattle.std.specs.declared.cmp.Ordering.TheVariants.{Equal};
ghost use Rattle.itip_order.specs.Parts.{part_of, parts_of, slot_of};
ghost use Rattle.itip_order.specs.Registers.{is_ascending, is_allowed_by, at_slot, RepresentsHistory, IsAt, IsGap, IsInView, HasNone, IsRegister};
ghost use Rattle.itip_order.specs.Registers.{HasNoRegister};
ghost use Rattle.profile.specs.rooms.Revisions as revisions;

use crate::part::{Body, Part, Slot};
use std::alloc::{AllocError, Global};
use std::cmp::Ordering;
use std::marker::Model;

/// All parts that two values took, the one or the other. Seen as the registers that one value would have which took them all.
#[derive(Drop)]
pub struct Together<'a> {
    first: &'a [Part],
    second: &'a [Part],
}

impl<'a> Model for Together<'a> {
    ghost use Rattle.std.specs.Prelude.{List, IsTrue};
    ghost use Rattle.profile.specs.rooms.Revisions as revisions;
    ghost use Rattle.itip_order.specs.Parts.{parts_of};
    ghost use Rattle.itip_order.specs.Registers.{is_ascending, together};

    ghost Value = { List revisions.Part };

    ghost view = { λ both. together (parts_of both.first.now) (parts_of both.second.now) };

    ghost invariant = { λ both. IsTrue (is_ascending (parts_of both.first.now)) × IsTrue (is_ascending (parts_of both.second.now)) };
}

impl<'a> Together<'a> {
    ghost use Rattle.itip_order.specs.Registers.{together};

    /// The registers of two values.
    pub(crate) fn new(first: &'a [Part], second: &'a [Part]) -> Together<'a>
        requires first { IsTrue (is_ascending (parts_of first.now)) }
        requires second { IsTrue (is_ascending (parts_of second.now)) }
        ensures { result ≡ together (parts_of first.now) (parts_of second.now) }
    {
        Together { first, second }
    }

    /// Whether the part is in the view. Takes no memory.
    pub fn shows(&self, part: &Part) -> bool
        ensures { (history : List revisions.Part) → RepresentsHistory self.now history
            → result ≡ revisions.in_view history (part_of part.now) }
    {
        // Only for the proof: the registers of each value are in order.
        let _ = &self.first;
        match self.register(part, part.slot) {
            Some(register) => part.cmp_part(register).is_eq() && self.allows(part),
            None => false,
        }
    }

    /// The part in the view of a slot of another part's meeting, None where there is none. Takes no memory.
    pub fn part_in(&self, part: &Part, slot: Slot) -> Option<&'a Part>
        ensures found { IfSome result (λ found. IsInView self.now (part_of found.now)
            × IsTrue (revisions.same_place (part_of found.now) (at_slot (part_of part.now) (slot_of slot)))) }
        ensures none { IfNone result (HasNone self.now (at_slot (part_of part.now) (slot_of slot))) }
    {
        // Only for the proof: the registers of each value are in order.
        let _ = &self.first;
        let Some(found) = self.register(part, slot) else {
            return None;
        };
        if !self.allows(found) {
            return None;
        }
        Some(found)
    }

    /// The slots of all parts that are held, in no order; one of which both values took parts comes twice.
    pub fn slots(&self, alloc: Global) -> Result<Vec<Slot>, AllocError>
        ensures { IfOk result (λ slots. (part : revisions.Part) → Contains self.now part → Contains (map slot_of slots.items) part.slot) }
    {
        // Only for the proof: the registers of each value are in order.
        let _ = &self.first;
        let mut slots = Vec::new(alloc);
        push_slots(&mut slots, self.first)?;
        push_slots(&mut slots, self.second)?;
        Ok(slots)
    }

    /// The Whole of its meeting leaves the part in the view.
    pub(crate) fn allows(&self, part: &Part) -> bool
        ensures { result ≡ is_allowed_by self.now (part_of part.now) }
    {
        // Only for the proof: the registers of each value are in order.
        let _ = &self.first;
        match part.slot {
            Slot::Whole => true,
            Slot::At(_) => match self.register(part, Slot::Whole) {
                Some(whole) => stays_with(whole, part),
                None => true,
            },
        }
    }

    /// The register of a slot of the part's meeting: the greater of both.
    fn register(&self, part: &Part, slot: Slot) -> Option<&'a Part>
        ensures found { IfSome result (λ found. IsRegister self.now (at_slot (part_of part.now) (slot_of slot)) (part_of found.now)) }
        ensures none { IfNone result (HasNoRegister self.now (at_slot (part_of part.now) (slot_of slot))) }
    {
        let Some(second) = register_in(self.second, part, slot) else {
            return register_in(self.first, part, slot);
        };
        let Some(first) = register_in(self.first, part, slot) else {
            return Some(second);
        };
        if first.cmp_part(second).is_gt() {
            return Some(first);
        }
        Some(second)
    }
}

/// Puts the slots of registers after others.
fn push_slots(slots: &mut Vec<Slot>, registers: &[Part]) -> Result<(), AllocError>
    ensures { OnOk result (map slot_of slots.new.items ≡ map slot_of slots.old.items ++ map (λ part. slot_of part.slot) registers.now) }
{
    for register in registers {
        slots.push(register.slot)?;
    }
    Ok(())
}

/// The register of a slot of the part's meeting.
fn register_in<'a>(registers: &'a [Part], part: &Part, slot: Slot) -> Option<&'a Part>
    requires { IsTrue (is_ascending (parts_of registers.now)) }
    ensures found { IfSome result (λ found.
        IsRegister (parts_of registers.now) (at_slot (part_of part.now) (slot_of slot)) (part_of found.now)) }
    ensures none { IfNone result (HasNoRegister (parts_of registers.now) (at_slot (part_of part.now) (slot_of slot))) }
{
    let Ok(at) = place_of(registers, part, slot) else {
        return None;
    };
    Some(&registers[at])
}

/// The place of a slot of the part's meeting, or the place where it would go.
pub(crate) fn place_of(registers: &[Part], part: &Part, slot: Slot) -> Result<usize, usize>
    requires { IsTrue (is_ascending (parts_of registers.now)) }
    ensures found { IfOk result (IsAt (parts_of registers.now) (at_slot (part_of part.now) (slot_of slot))) }
    ensures absent { IfErr result (IsGap (parts_of registers.now) (at_slot (part_of part.now) (slot_of slot))) }
{
    registers.binary_search_by(|register| register.cmp_place(part, slot))
}

/// The part's revision isn't below the Whole's, and is above it where the Whole is cancelled.
fn stays_with(whole: &Part, part: &Part) -> bool
    ensures { result ≡ revisions.stays_beside (part_of whole.now) (part_of part.now) }
{
    match part.revision.cmp(&whole.revision) {
        Ordering::Less => false,
        Ordering::Equal => !matches!(whole.body, Body::Cancelled),
        Ordering::Greater => true,
    }
}
