//! The door before a box: streams and folders whose objects are made readable on their way in.
#![tactic(auto)]

mod door;
mod fault;
mod inbox;
mod law;
mod piece;
mod place;
mod preamble;

pub use door::Door;
pub use fault::DoorFault;
pub use inbox::AdaptedInbox;
pub use law::adapted_takes_place_as_before;
