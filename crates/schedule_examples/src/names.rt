//! Names in place of addresses, and words in place of slots.

use cal_zones::RoomZone;
use example_cases::NoAnswer;
use ical_values::{Address, Stamp};
use itip_order::Slot;
use sched_box::ZonedRoom;
use std::alloc::Global;

/// The address that a name stands for.
pub fn address_of(alloc: Global, name: &str) -> Result<Address, NoAnswer> {
    let text = format!(in alloc; "mailto:{name}@example.com")?;
    Ok(Address::read(alloc, text.as_str())?)
}

/// The addresses that names stand for, in order.
pub fn addresses_of(alloc: Global, names: &str) -> Result<Vec<Address>, NoAnswer> {
    let mut addresses = Vec::new(alloc);
    for name in names.split_whitespace() {
        let address = address_of(alloc, name)?;
        addresses.push(address)?;
    }
    Ok(addresses)
}

/// The rooms of the addresses that names stand for, in order, in UTC.
pub fn rooms_of(alloc: Global, names: &str) -> Result<Vec<ZonedRoom>, NoAnswer> {
    let mut rooms = Vec::new(alloc);
    for name in names.split_whitespace() {
        let address = address_of(alloc, name)?;
        rooms.push(ZonedRoom {
            address,
            zone: RoomZone::utc(),
        })?;
    }
    Ok(rooms)
}

/// The slot of a word: `whole`, or the instant of a stamp.
pub fn slot_of(word: &str) -> Result<Slot, NoAnswer> {
    if word == "whole" {
        return Ok(Slot::Whole);
    }
    let stamp = Stamp::read(word)?;
    Ok(Slot::At(stamp.instant()))
}
