//! The addresses of a box's hosts, by which they are found: the rooms that a message may be for, and the organiser that
//! an object names.

ghost use Rattle.std.specs.Prelude.{◌≢◌, map, AllPairs};
ghost use Rattle.ical_values.specs.Octets.{address_octets};

use cal_events::Attendee;
use ical_values::Address;
use indexmap::IndexSet;
use itip_messages::Message;
use std::alloc::{AllocError, Global};

/// The addresses of the hosts of one kind, rooms or organisers, in their order.
#[derive(Drop)]
pub(crate) struct Directory {
    addresses: IndexSet<Address>,
    ghost differ: { AllPairs ◌≢◌ (map address_octets addresses.keys) },
}

impl Directory {
    ghost use Rattle.std.specs.Prelude.{◌≡◌, ◌≢◌, ◌<◌, ◌||◌, Bool, false, List, ℕ, [], map, get_or, length, AllPairs, IfOk, IfSome, IfNone};
    ghost use Rattle.std.specs.List.{list_any};
    ghost use Rattle.std.specs.Str.{bytes_eq};
    ghost use Rattle.ical_values.specs.Octets.{address_octets};
    ghost use Rattle.profile.specs.rooms.Kept.{each_once};
    ghost use Rattle.sched_box.specs.Asked.{AddsAddress, LeavesOut, asks, directory_addresses, names};

    /// An empty one.
    pub(crate) fn new(alloc: Global) -> Directory
        ensures { directory_addresses result ≡ [] }
    {
        Directory {
            addresses: IndexSet::new(alloc),
        }
    }

    /// Adds a host after the others, and says whether it is new; one whose address is there already changes nothing.
    pub(crate) fn add(&mut self, host: &Address) -> Result<bool, AllocError>
        ensures { IfOk result (AddsAddress (directory_addresses self.old) (directory_addresses self.new) (address_octets host.now)) }
    {
        let is_new = self.addresses.insert(host.clone()?)?;
        Ok(is_new)
    }

    /// The directory of these hosts; an address that is given twice counts once.
    pub(crate) fn of(alloc: Global, hosts: &[Address]) -> Result<Directory, AllocError>
        ensures { IfOk result (λ directory. directory_addresses directory ≡ each_once (map address_octets hosts.now)) }
    {
        let mut directory = Directory::new(alloc);
        for host in hosts {
            directory.add(host)?;
        }
        Ok(directory)
    }

    /// The addresses of the hosts, in their order.
    pub(crate) fn addresses(&self) -> &[Address]
        ensures { map address_octets result.now ≡ directory_addresses self.now }
    {
        self.addresses.as_slice()
    }

    /// The place of the host of this address, by one look-up.
    pub(crate) fn place_of(&self, address: &Address) -> Option<usize>
        ensures within { IfSome result (λ place. place < length (directory_addresses self.now)) }
        ensures at { IfSome result (λ place. get_or (directory_addresses self.now) place [] ≡ address_octets address.now) }
        ensures none { IfNone result (list_any (bytes_eq (address_octets address.now)) (directory_addresses self.now) ≡ false) }
    {
        self.addresses.get_index_of(address)
    }

    /// For each room, whether a message may be for it: one of its VEVENTs names it, or is one of a CANCEL and names nobody.
    /// In time that grows with the rooms and the attendees.
    pub(crate) fn asked_by(&self, alloc: Global, message: &Message) -> Result<Vec<bool>, AllocError>
        ensures long { IfOk result (λ asked. length asked.items ≡ length (directory_addresses self.now)) }
        ensures out { IfOk result (λ asked. LeavesOut (asks message.now) (directory_addresses self.now) asked.items) }
    {
        let cancels = message.method().is_cancel();
        let mut asked = vec![in alloc; false; self.addresses.len()]?;
        for component in message.components() {
            if cancels && component.names_nobody() {
                asked.fill(true);
            }
            self.mark(component.attendees().lines(), &mut asked);
        }
        Ok(asked)
    }

    /// Marks the rooms that are among the attendees.
    fn mark(&self, attendees: &[Attendee], asked: &mut Vec<bool>)
        requires { length asked.old.items ≡ length (directory_addresses self.now) }
        ensures long { length asked.new.items ≡ length asked.old.items }
        ensures marks { (test : List ℕ → Bool) → LeavesOut test (directory_addresses self.now) asked.old.items
            → LeavesOut (λ room. test room || names attendees.now room) (directory_addresses self.now) asked.new.items }
    {
        for attendee in attendees {
            if let Some(place) = self.addresses.get_index_of(&attendee.address) {
                asked[place] = true;
            }
        }
    }
}
