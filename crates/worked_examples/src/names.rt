//! Addresses of many cases, and UIDs.

use example_cases::NoAnswer;
use example_cases::spelled::text_of;
use ical_values::Text;
use std::alloc::Global;

/// Who organises the meetings.
pub const ANN: &str = "mailto:ann@example.com";

/// The room that is asked.
pub const ROOM: &str = "mailto:r1@example.com";

/// The UID that a word spells.
pub fn uid_of(alloc: Global, word: &str) -> Result<Text, NoAnswer> {
    let text = text_of(alloc, word)?;
    Ok(Text::read_uid(alloc, text.as_str())?)
}
