//! The door before a room: VTIMEZONEs in general (RFC 5545 3.6.5), the zone that one is from an instant on, and objects that are made readable.
#![tactic(auto)]

mod after;
mod between;
mod changes;
mod check;
mod choice;
mod condition;
mod end;
mod law;
mod named;
mod part;
mod parting;
mod places;
mod read;
mod readable;
mod retold;
mod returning;
mod right;
mod rule;
mod run;
mod splice;
mod told;
mod uses;
mod words;
mod zone;

pub use end::{End, YearDay};
pub use law::{
    adapted_has_the_same_instances, adapted_says_the_same, date_at_start_adds_nothing,
    one_general_zone, starts_are_known, tables_go_on_alike, zones_are_clocks, zones_are_general,
};
pub use named::NamedZones;
pub use parting::split;
pub use readable::{Adapted, adapt};
pub use returning::returned;
pub use run::Run;
pub use uses::is_time_line;
pub use zone::GeneralZone;
