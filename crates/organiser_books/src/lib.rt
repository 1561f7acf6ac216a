//! An organiser: it stores its meetings, sends them to their attendees, and keeps what they answer (RFC 6638 3.2).
#![tactic(auto)]

mod answers;
mod attending;
mod meeting;
mod organiser;
mod outgoing;
mod sending;
mod sequence;
mod shown;

pub use organiser::Organiser;
pub use outgoing::Outgoing;
