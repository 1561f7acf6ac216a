//! Several boxes that share the rooms and organisers of one may do together what the one does: a law, with nothing to do.
#![tactic(auto)]

mod law;

pub use law::several_act_as_one;
