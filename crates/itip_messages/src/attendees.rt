//! The attendees that a VEVENT names (RFC 5545 3.8.4.1).
ghost use Rattle.std.specs.Prelude.{◌≡◌, map, IfOk};
ghost use Rattle.std.specs.List.{list_any};
ghost use Rattle.std.specs.List.Sorted.{IsPermutation, IsSortedByKey};
ghost use Rattle.std.specs.Ordering.{nat_cmp};
ghost use Rattle.std.specs.Cmp.Lexicographic.{slice_cmp};
ghost use Rattle.std.specs.Str.{bytes_eq};
ghost use Rattle.ical_values.specs.Octets.{address_octets};
ghost use Rattle.cal_events.specs.Component.{attendee_of};
ghost use Rattle.profile.specs.events.Messages.{counted};
ghost use Rattle.itip_messages.specs.Attendees.{line_said, octets_of};

use cal_events::Attendee;
use ical_values::Address;
use indexmap::IndexSet;
use std::alloc::{AllocError, Global};
use std::marker::Model;

/// This many are looked through one by one: it takes less time to see that two texts differ than which is first.
const FEW: usize = 8;

/// The ATTENDEE lines of a VEVENT, in the order of the text.
#[derive(Drop)]
pub struct Attendees {
    lines: Vec<Attendee>,
    /// Their addresses in order: a message goes to many rooms, and each looks for itself among many attendees.
    sorted: Vec<Address>,
}

impl Model for Attendees {
    ghost use Rattle.std.specs.Prelude.{List, map};
    ghost use Rattle.std.specs.List.Sorted.{IsPermutation, IsSortedByKey};
    ghost use Rattle.std.specs.Ordering.{nat_cmp};
    ghost use Rattle.std.specs.Cmp.Lexicographic.{slice_cmp};
    ghost use Rattle.ical_values.specs.Octets.{address_octets};
    ghost use Rattle.profile.specs.events.EventComponents as events;
    ghost use Rattle.cal_events.specs.Component.{attendee_of};
    ghost use Rattle.itip_messages.specs.Attendees.{octets_of};

    ghost Value = { List events.Attendee };

    ghost view = { λ attendees. map attendee_of attendees.lines.items };

    ghost invariant = { λ attendees. IsSortedByKey address_octets (slice_cmp nat_cmp) attendees.sorted.items
        × IsPermutation (map octets_of attendees.lines.items) (map address_octets attendees.sorted.items) };
}

impl Attendees {
    /// These lines. It fails only when out of memory.
    pub(crate) fn of(alloc: Global, lines: Vec<Attendee>) -> Result<Attendees, AllocError>
        ensures { IfOk result (λ attendees. attendees ≡ map attendee_of lines.items) }
    {
        let mut sorted = addresses_of(alloc, &lines)?;
        sort_addresses(&mut sorted);
        Ok(Attendees { lines, sorted })
    }

    /// A copy. It fails only when out of memory.
    pub(crate) fn copy(&self, alloc: Global) -> Result<Attendees, AllocError>
        ensures { IfOk result (λ copy. copy ≡ self.now) }
    {
        let lines = copied(alloc, &self.lines)?;
        Attendees::of(alloc, lines)
    }

    /// All lines, in the order of the text.
    pub fn lines(&self) -> &[Attendee]
        ensures { map attendee_of result.now ≡ self.now }
    {
        &self.lines
    }

    /// The lines that count: of several of one address the first. In time that grows with the lines.
    pub fn counted(&self, alloc: Global) -> Result<Vec<&Attendee>, AllocError>
        ensures { IfOk result (λ lines. map line_said lines.items ≡ counted self.now) }
    {
        counted_among(alloc, &self.lines)
    }

    /// Whether one of them has this address.
    pub fn contains(&self, address: &Address) -> bool
        ensures { result ≡ list_any (λ a. bytes_eq a.address (address_octets address.now)) self.now }
    {
        is_among(&self.sorted, address)
    }
}

/// Copies of these lines, in their order.
fn copied(alloc: Global, lines: &[Attendee]) -> Result<Vec<Attendee>, AllocError>
    ensures { IfOk result (λ copies. map attendee_of copies.items ≡ map attendee_of lines.now) }
{
    let mut copies = Vec::new(alloc);
    for line in lines {
        copies.push(Attendee {
            address: line.address.clone()?,
            status: line.status,
            scheduled: line.scheduled,
        })?;
    }
    Ok(copies)
}

/// Of these lines those that count.
fn counted_among(alloc: Global, lines: &[Attendee]) -> Result<Vec<&Attendee>, AllocError>
    ensures { IfOk result (λ counting. map line_said counting.items ≡ counted (map attendee_of lines.now)) }
{
    let mut seen = IndexSet::new(alloc);
    let mut counted = Vec::new(alloc);
    for line in lines {
        let is_new = seen.insert(line.address.as_str())?;
        if is_new {
            counted.push(line)?;
        }
    }
    Ok(counted)
}

/// The address of each line, in order.
fn addresses_of(alloc: Global, lines: &[Attendee]) -> Result<Vec<Address>, AllocError>
    ensures { IfOk result (λ addresses. map address_octets addresses.items ≡ map octets_of lines.now) }
{
    let mut addresses = Vec::new(alloc);
    for attendee in lines {
        addresses.push(attendee.address.clone()?)?;
    }
    Ok(addresses)
}

/// Puts addresses in order, octet by octet.
fn sort_addresses(addresses: &mut Vec<Address>)
    ensures same { IsPermutation addresses.old.items addresses.new.items }
    ensures rises { IsSortedByKey address_octets (slice_cmp nat_cmp) addresses.new.items }
{
    addresses.sort_unstable_by(|a, b| a.cmp(b));
}

/// Whether an address is among others, which are in order.
fn is_among(sorted: &[Address], address: &Address) -> bool
    requires { IsSortedByKey address_octets (slice_cmp nat_cmp) sorted.now }
    ensures { result ≡ list_any (λ a. bytes_eq (address_octets a) (address_octets address.now)) sorted.now }
{
    if sorted.len() <= FEW {
        return sorted.iter().any(|other| *other == *address);
    }
    sorted.binary_search_by(|other| other.cmp(address)).is_ok()
}
