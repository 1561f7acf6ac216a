//! Values of properties (RFC 5545 3.3): read from their text, and written in their one form.
#![tactic(auto)]

pub mod address;
mod append;
mod clock;
pub mod date;
mod digits;
pub mod duration;
pub mod local_time;
pub mod offset;
pub mod sequence;
pub mod shown;
pub mod stamp;
pub mod text;

pub use address::Address;
pub use clock::{DAY_SECONDS, seconds_at};
pub use duration::Duration;
pub use local_time::LocalTime;
pub use offset::UtcOffset;
pub use sequence::Sequence;
pub use stamp::Stamp;
pub use text::Text;
