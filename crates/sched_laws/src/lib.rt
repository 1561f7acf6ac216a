//! What holds in each world that a schedule of stores and deliveries leads to: a law, with nothing to do.
#![tactic(auto)]

mod law;

pub use law::{effect_or_none, schedules_hold};
