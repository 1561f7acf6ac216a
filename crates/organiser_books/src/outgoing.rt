//! What an organiser sends.

use ical_values::Address;

/// An object that is sent to some attendees.
#[derive(Drop)]
pub struct Outgoing {
    /// To whom, each once, in the order in which the meeting names them.
    pub to: Vec<Address>,
    /// The object: a REQUEST or a CANCEL.
    pub octets: Vec<u8>,
}
