//! Zones (RFC 5545 3.6.5): the offset in force at an instant, and the instant that a local time means,
//! in gaps and folds too, by the VTIMEZONE that an object itself carries, for all years to come.
//!
//! No rule is walked from year to year: of each observance two years are looked at.
#![tactic(auto)]

mod clock;
mod law;
mod observance;
mod one_day;
mod pair;
mod parts;
mod read;
mod room_zone;
mod write;
mod yearly;
mod zone;
mod zone_names;

pub use clock::Clock;
pub use law::zones_repeat;
pub use observance::Observance;
pub use one_day::day_named;
pub use parts::{read_local, read_offset};
pub use read::one_zone;
pub use room_zone::RoomZone;
pub use write::zone_reads_back;
pub use yearly::{MonthDays, Yearly};
pub use zone::Zone;
pub use zone_names::zone_name;
