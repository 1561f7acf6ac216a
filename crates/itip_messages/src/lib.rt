//! iTIP messages: their parts, replies and refreshes (RFC 5546 3.2).
#![tactic(auto)]

mod attendees;
mod body;
mod body_text;
mod cancel;
mod event_lines;
pub mod law;
mod meeting_text;
pub mod message;
pub mod message_component;
mod message_events;
mod own_lines;
mod parts;
mod refresh;
pub mod reply;
pub mod sent_law;
pub mod writer;
mod zones;

pub use attendees::Attendees;
pub use body::zone_lines;
pub use body_text::write_body;
pub use cancel::{Cancel, write_cancel};
pub use event_lines::write_slot;
pub use law::{
    answers_read_back, one_content, one_message, refreshes_are_heard, refreshes_read_back,
    replies_are_heard, replies_read_back,
};
pub use meeting_text::{AttendeeLines, MeetingText, write_meeting, write_request};
pub use message::Message;
pub use message_component::MessageComponent;
pub use own_lines::component_lines;
pub use refresh::{Refresh, write_refresh};
pub use reply::{Conflict, ConflictKey, Decision, ReplyEvent, write_event, write_reply};
pub use sent_law::{
    cancels_read_back, requests_read_back, shown_reads_back, stored_texts_can_be_sent,
};
pub use writer::ObjectWriter;
pub use zones::Zones;
