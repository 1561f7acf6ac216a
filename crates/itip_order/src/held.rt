//! The greatest part of each slot, and the view of all parts ever taken.
//!
//! One register for each slot, in the order of organiser, UID, slot, so a slot is found by binary search.
//! A tombstone stays for good, also one of a meeting of which nothing was ever taken.

ghost use Rattle.std.specs.Prelude.{◌≡◌, ◌<◌, ◌≤◌, ◌+◌, ◌^◌, ◌&&◌, not, true, false, Contains, List, [], ◌∷◌, ◌++◌, length, IsTrue, IfOk, OnOk, OnErr};
ghost use Rattle.std.specs.Prelude.{if◌then◌else◌};
ghost use Rattle.std.specs.Iterator.{YieldsFirstBy, item_count};
ghost use Rattle.std.specs.List.{insert};
ghost use Rattle.std.specs.Vec.{vec_len, vec_capacity};
ghost use Rattle.itip_order.specs.Parts.{part_of, parts_of};
ghost use Rattle.itip_order.specs.Registers.{is_ascending, is_allowed_by, shown, is_known, put_part, together, RepresentsHistory, IsView};
ghost use Rattle.itip_order.specs.Registers.{SameParts, IsGap};
ghost use Rattle.profile.specs.rooms.Revisions as revisions;

use crate::part::Part;
use crate::together::{Together, place_of};
use std::alloc::{AllocError, Global};
use std::cmp::Ordering;
use std::marker::Model;

/// What taking a part did to the view.
#[derive(Clone, Copy, PartialEq, Eq, Drop)]
pub enum Freshness {
    /// The part is in the view, and wasn't before.
    Fresh,
    /// The part is in the view, as it was before.
    Same,
    /// The part isn't in the view.
    Stale,
}

/// All parts ever taken, as far as later calls can tell. Seen as its registers: it represents each
/// history whose greatest parts they are.
#[derive(Drop)]
pub struct Held {
    registers: Vec<Part>,
}

impl Model for Held {
    ghost use Rattle.std.specs.Prelude.{List, IsTrue};
    ghost use Rattle.profile.specs.rooms.Revisions as revisions;
    ghost use Rattle.itip_order.specs.Parts.{parts_of};
    ghost use Rattle.itip_order.specs.Registers.{is_ascending};

    ghost Value = { List revisions.Part };

    ghost view = { λ held. parts_of held.registers.items };

    ghost invariant = { λ held. IsTrue (is_ascending (parts_of held.registers.items)) };
}

impl Held {
    ghost use Rattle.itip_order.specs.Freshness.{IsFreshness};

    /// No part was taken. Takes no memory yet.
    pub fn new(alloc: Global) -> Held
        ensures { RepresentsHistory result [] }
    {
        Held {
            registers: Vec::new(alloc),
        }
    }

    /// Takes a part. On an error nothing has changed.
    pub fn take(&mut self, part: Part) -> Result<Freshness, AllocError>
        // The new value represents each history that the old one represents, with the part added.
        ensures taken { OnOk result ((history : List revisions.Part) → RepresentsHistory self.old history
            → RepresentsHistory self.new (history ++ part_of part ∷ [])) }

        // The answer says the part's place in the views before and after.
        ensures freshness { IfOk result (λ freshness. (history : List revisions.Part)
            → RepresentsHistory self.old history → IsFreshness freshness history (part_of part)) }

        // Memory is needed only for a slot of which no part was taken.
        ensures memory { OnErr result ((history : List revisions.Part) → RepresentsHistory self.old history
            → is_known history (part_of part) ≡ false) }
        ensures err { OnErr result (self.new ≡ self.old) }
    {
        let in_view = is_allowed(&self.registers, &part);
        match place_of(&self.registers, &part, part.slot) {
            Ok(at) => match part.cmp_part(&self.registers[at]) {
                Ordering::Less => Ok(Freshness::Stale),
                Ordering::Equal => Ok(repeated(in_view)),
                Ordering::Greater => {
                    self.registers[at] = part;
                    Ok(entered(in_view))
                }
            },
            Err(at) => {
                self.put_first(at, part)?;
                Ok(entered(in_view))
            }
        }
    }

    // The register of a slot that no part was taken of, a tombstone too. On an error nothing has changed.
    fn put_first(&mut self, at: usize, part: Part) -> Result<(), AllocError>
        requires { IsGap self.old (part_of part) at }
        ensures ok { OnOk result (self.new ≡ insert self.old at (part_of part)) }
        ensures err { OnErr result (self.new ≡ self.old) }
    {
        self.registers.insert(at, part)?;
        Ok(())
    }

    /// Whether the part is in the view. Takes no memory.
    pub fn shows(&self, part: &Part) -> bool
        ensures { (history : List revisions.Part) → RepresentsHistory self.now history
            → result ≡ revisions.in_view history (part_of part.now) }
    {
        self.alone().shows(part)
    }

    /// Whether a part is in the view of what was taken since too, and isn't in this one: what is new gets an answer, and a repeat keeps the one
    /// that it has. Takes no memory.
    pub fn is_new_in(&self, after: &Together<'_>, part: &Part) -> bool
        ensures { (before later : List revisions.Part) → RepresentsHistory self.now before → RepresentsHistory after.now later
            → result ≡ (revisions.in_view later (part_of part.now) && not (revisions.in_view before (part_of part.now))) }
    {
        after.shows(part) && !self.shows(part)
    }

    /// Its parts, as those of two values of which the other took none. Takes no memory.
    pub fn alone(&self) -> Together<'_>
        ensures { result ≡ self.now }
    {
        Together::new(&self.registers, &[])
    }

    /// Its parts and those that another took. Takes no memory.
    pub fn with<'a>(&'a self, more: &'a Held) -> Together<'a>
        ensures together { result ≡ together self.now more.now }
        ensures taken { (history others : List revisions.Part) → RepresentsHistory self.now history → RepresentsHistory more.now others
            → RepresentsHistory result (history ++ others) }
    {
        Together::new(&self.registers, &more.registers)
    }

    /// The parts in the view, in the order of organiser, UID, slot. Takes no memory.
    pub fn view(&self) -> View<'_>
        // They are the view of each history that the value represents.
        ensures exact { (history : List revisions.Part) → RepresentsHistory self.now history → IsView result history }
        ensures shown { result ≡ shown self.now }
        ensures few { length result < 2 ^ 64 }
    {
        View {
            registers: &self.registers,
            left: &self.registers,
        }
    }

    /// Takes the parts that another took: for each of them it moves the registers that come after it, and copies none. On an error nothing
    /// has changed.
    pub fn take_all(&mut self, more: Held) -> Result<(), AllocError>
        ensures together { OnOk result (self.new ≡ together self.old more) }
        ensures taken { OnOk result ((history others : List revisions.Part) → RepresentsHistory self.old history → RepresentsHistory more others
            → RepresentsHistory self.new (history ++ others)) }
        ensures err { OnErr result (self.new ≡ self.old) }
    {
        put_all(&mut self.registers, more.registers)?;
        Ok(())
    }

    /// A second one that has taken the same parts.
    pub fn copy(&self) -> Result<Held, AllocError>
        ensures { IfOk result (λ copy. copy ≡ self.now) }
    {
        let registers = self.registers.clone()?;
        Ok(Held { registers })
    }
}

/// The parts in the view that are left. Seen as the list of them.
#[derive(Drop)]
pub struct View<'a> {
    registers: &'a [Part],
    left: &'a [Part],
}

impl<'a> Model for View<'a> {
    ghost use Rattle.std.specs.Prelude.{List, IsTrue};
    ghost use Rattle.profile.specs.rooms.Revisions as revisions;
    ghost use Rattle.itip_order.specs.Parts.{parts_of};
    ghost use Rattle.itip_order.specs.Registers.{is_ascending, allowed_by};

    ghost Value = { List revisions.Part };

    ghost view = { λ view. allowed_by (parts_of view.registers.now) (parts_of view.left.now) };

    ghost invariant = { λ view. IsTrue (is_ascending (parts_of view.registers.now)) };
}

impl<'a> Iterator for View<'a> {
    type Item = &'a Part;

    ghost next_gives = { YieldsFirstBy (λ part. part_of part.now) (λ left. left) };

    ghost remaining = { item_count (λ left. left) };

    fn next(&mut self) -> Option<&'a Part> {
        while let Some((first, others)) = self.left.split_first() {
            self.left = others;
            if is_allowed(self.registers, first) {
                return Some(first);
            }
        }
        None
    }
}

/// A law, with nothing to do: a value represents a history, that of its own registers.
pub fn represents_its_registers(held: &Held)
    ensures { RepresentsHistory held.now held.now }
{
    let _ = &held.registers;
}

/// A law, with nothing to do: two that took the same parts, in any order and each any number of times,
/// are equal, and so are their views.
pub fn same_parts_same_view(one: &Held, other: &Held)
    ensures held { (xs ys : List revisions.Part) → RepresentsHistory one.now xs → RepresentsHistory other.now ys
        → SameParts xs ys → one.now ≡ other.now }
    ensures view { (xs ys : List revisions.Part) → SameParts xs ys
        → (part : revisions.Part) → revisions.in_view xs part ≡ revisions.in_view ys part }
{}

/// A law, with nothing to do: what any history's view is like. What left it never comes back.
pub fn view_is_lasting()
    ensures taken { (history : List revisions.Part) (part : revisions.Part)
        → revisions.in_view history part ≡ true → Contains history part }
    ensures one_of_a_slot { (history : List revisions.Part) (one other : revisions.Part)
        → revisions.in_view history one ≡ true → revisions.in_view history other ≡ true
        → revisions.same_place one other ≡ true → one ≡ other }
    ensures gone_for_good { (history more : List revisions.Part) (part : revisions.Part)
        → Contains history part → revisions.in_view history part ≡ false
        → revisions.in_view (history ++ more) part ≡ false }
{}

// What the greatest part of a slot did to the view, where its register is new.
fn entered(in_view: bool) -> Freshness
    ensures { result ≡ (if in_view then Freshness.Fresh else Freshness.Stale) }
{
    if in_view {
        Freshness::Fresh
    } else {
        Freshness::Stale
    }
}

// The same, where the register was there.
fn repeated(in_view: bool) -> Freshness
    ensures { result ≡ (if in_view then Freshness.Same else Freshness.Stale) }
{
    if in_view {
        Freshness::Same
    } else {
        Freshness::Stale
    }
}

// The Whole of its meeting leaves the part in the view.
fn is_allowed(registers: &[Part], part: &Part) -> bool
    requires { IsTrue (is_ascending (parts_of registers.now)) }
    ensures { result ≡ is_allowed_by (parts_of registers.now) (part_of part.now) }
{
    Together::new(registers, &[]).allows(part)
}

// Puts each of these parts in its place. On an error nothing has changed.
fn put_all(registers: &mut Vec<Part>, more: Vec<Part>) -> Result<(), AllocError>
    requires { IsTrue (is_ascending (parts_of registers.old.items)) }
    ensures ok { OnOk result (parts_of registers.new.items ≡ together (parts_of registers.old.items) (parts_of more.items)) }
    ensures err { OnErr result (registers.new.items ≡ registers.old.items) }
{
    registers.reserve(more.len())?;
    for part in more {
        put(registers, part);
    }
    Ok(())
}

// Puts a part in its place, where the greater of two stays. The memory for it is there.
fn put(registers: &mut Vec<Part>, part: Part)
    requires ascending { IsTrue (is_ascending (parts_of registers.old.items)) }
    requires room { vec_len registers.old < vec_capacity registers.old }
    ensures put { parts_of registers.new.items ≡ put_part (part_of part) (parts_of registers.old.items) }
    ensures len { vec_len registers.new ≤ vec_len registers.old + 1 }
    ensures capacity { vec_capacity registers.old ≤ vec_capacity registers.new }
{
    match place_of(registers, &part, part.slot) {
        Ok(at) => {
            if part.cmp_part(&registers[at]).is_gt() {
                registers[at] = part;
            }
        }
        Err(at) => {
            // there is room for it
            let _ = registers.insert(at, part);
        }
    }
}
