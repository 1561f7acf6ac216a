//! Revisions of the parts of messages, and the view of all parts taken (RFC 5546 2.1.4, 2.1.5).
//!
//! A message says something of slots of a meeting: of the whole of it, or of one instance. Each such
//! part has a revision. `Held` keeps the greatest part of each slot, and shows those that count
//! beside the Whole of their meeting. The answer doesn't depend on the order in which parts come.
#![tactic(auto)]

mod greatest;
mod held;
mod part;
mod together;

pub use greatest::greatest_by_slot;
pub use held::{
    Freshness, Held, View, represents_its_registers, same_parts_same_view, view_is_lasting,
};
pub use part::{Body, Part, Revision, Slot};
pub use together::Together;
