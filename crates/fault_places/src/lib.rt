//! Where in an object a fault is: the physical line and the property of a logical line, and what of a VTIMEZONE or a VEVENT is in the way.
#![tactic(auto)]

mod event_flaw;
mod obstacle;
mod place;
mod refused_zone;
mod spot;

pub use event_flaw::{FlawKind, ObjectFlaw, PlacedFlaw, flaw_in_object};
pub use obstacle::{Obstacle, PartTime};
pub use place::{Place, place_of};
pub use refused_zone::{InTheWay, in_the_way};
